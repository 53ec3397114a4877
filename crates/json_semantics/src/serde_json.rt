//! `SerdeJson`: values in memory, as a representation of JSON.

ghost use Rattle.std.specs.Prelude.{◌≡◌, IfOk, OnErr, string_bytes};
ghost use Rattle.json_model.specs.Tree.{scalar, null, string as string_scalar};
ghost use Rattle.json_exact.specs.Trees.{tree};

use crate::node::ValueNode;
use json_exact::{OutOfMemory, Value};
use json_traits::Json;
use std::alloc::Global;

/// The representation of JSON by values in memory.
pub struct SerdeJson;

/// Puts a string in the place of a value. It takes memory for a copy: where that could not be had, the value is as before.
fn put_string(alloc: Global, value: &mut Value, string: &str) -> Result<(), OutOfMemory>
    ensures put { IfOk result (λ _. tree value.new ≡ scalar (string_scalar string.now)) }
    ensures kept { OnErr result (value.new ≡ value.old) }
{
    let copy = String::from_str(alloc, string)?;
    *value = Value::String(copy);
    Ok(())
}

impl<'a> Json<'a> for SerdeJson {
    type Node = ValueNode<'a>;

    type PreparedKey = String;

    type StringBuffer = Value;

    const KEYS_PER_LOOKUP: usize = 2;

    fn prepare_key(alloc: Global, key: &str) -> Result<String, OutOfMemory>
        ensures { IfOk result (λ k. string_bytes k ≡ key.now) }
    {
        Ok(String::from_str(alloc, key)?)
    }

    fn string_buffer(_alloc: Global) -> Value
        ensures { tree result ≡ scalar null }
    {
        Value::Null
    }

    fn string_node(
        alloc: Global,
        buffer: &'a mut Value,
        string: &str,
    ) -> Result<ValueNode<'a>, OutOfMemory> {
        put_string(alloc, buffer, string)?;
        Ok(ValueNode::new(buffer))
    }
}
