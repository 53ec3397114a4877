//! Elements in memory: whether no two are equal, and their numbers.

ghost use Rattle.std.specs.Prelude.{◌≡◌, ◌↔◌, map, IsTrue, IfOk};
ghost use Rattle.json_model.specs.Same.{IsUnique};
ghost use Rattle.json_elements.specs.Number.{element_number};
ghost use Rattle.json_exact.specs.Trees.{tree};

use crate::elements::ValueElements;
use crate::node::ValueNode;
use json_exact::{OutOfMemory, Value};
use std::alloc::Global;

/// Whether no two places hold equal elements. Up to 15 are compared each with each; from 16 on an element is compared with those alone
/// that have its number, so elements that were chosen to share a number make it slow. It takes memory for the elements and their
/// numbers, and for the nesting of those that it looks at, and no stack.
pub fn is_unique(alloc: Global, items: &[Value]) -> Result<bool, OutOfMemory>
    ensures { IfOk result (λ b. IsTrue b ↔ IsUnique (map tree items.now)) }
{
    json_elements::is_unique::<ValueNode>(alloc, ValueElements::new(items))
}

/// The number of a value. Equal values have the same number, and so has an equal value that lies in a slice. It takes memory for the
/// nesting alone, and no stack.
pub fn element_hash(alloc: Global, value: &Value) -> Result<u64, OutOfMemory>
    ensures { IfOk result (λ n. n ≡ element_number (tree value.now)) }
{
    json_elements::element_number(alloc, &ValueNode::new(value))
}
