//! What nested schemas answer.

use crate::judging::{beside_others, shown};
use crate::texts::{two_of, value_of};
use json_semantics::ValueNode;
use json_traits::Node;
use jsonb::Jsonb;
use judge_tree::{Schema, SchemaError, judge_tree};
use std::alloc::Global;

// What a compiled schema answers.
fn answered<'a, D: Node<'a>>(
    alloc: Global,
    compiled: &Schema,
    document: &D,
) -> Result<bool, SchemaError> {
    match compiled.check(alloc, document) {
        Ok(answer) => Ok(answer),
        Err(_) => Err(SchemaError::OutOfMemory),
    }
}

// What a schema answers that is compiled first.
fn checked<'a, S: Node<'a>, D: Node<'a>>(
    alloc: Global,
    schema: &S,
    document: &D,
) -> Result<bool, SchemaError> {
    let compiled = Schema::compile(alloc, schema)?;
    answered(alloc, &compiled, document)
}

// What the schema answers over values in memory, and over one of each kind.
fn answers_in_memory(
    alloc: Global,
    schema: &[u8],
    document: &[u8],
) -> Option<[Result<bool, SchemaError>; 3]> {
    let schema_value = value_of(alloc, schema)?;
    let value = value_of(alloc, document)?;
    let schema_root = Jsonb::root(alloc, schema).ok()?;
    let root = Jsonb::root(alloc, document).ok()?;
    Some([
        checked(
            alloc,
            &ValueNode::new(&schema_value),
            &ValueNode::new(&value),
        ),
        checked(alloc, &ValueNode::new(&schema_value), &root),
        checked(alloc, &schema_root, &ValueNode::new(&value)),
    ])
}

/// `HEX HEX`: what `judge_tree` answers of a schema and a document, and each other answer that their values have in memory.
pub(crate) fn verdict(alloc: Global, rest: &str) -> Option<String> {
    let (schema, document) = two_of(alloc, rest)?;
    let first = shown(alloc, &judge_tree(alloc, &schema, &document))?;
    match answers_in_memory(alloc, &schema, &document) {
        Some(answers) => beside_others(alloc, &first, &answers),
        None => format!(in alloc; "{first}, as slices").ok(),
    }
}
