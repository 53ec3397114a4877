//! What is known of each value in memory.

ghost use Rattle.std.specs.Prelude.{map};
ghost use Rattle.json_model.specs.Parts.{elements_from, members_from};
ghost use Rattle.json_model.specs.Tree.{array, object};
ghost use Rattle.json_exact.specs.Trees.{tree, pairs};
ghost use Rattle.jsonb_encode.specs.inner.InMemory.{IsInMemory};

use crate::laws::numbers_are_narrow_and_in_range;
use json_exact::{Map, Value};

/// Passes over a value.
#[cycle(passing)]
pub fn pass_over(value: &Value)
    ensures { IsInMemory (tree value.now) }
{
    match value {
        Value::Null => {}
        Value::Bool(_) => {}
        Value::String(_) => {}
        Value::Number(number) => numbers_are_narrow_and_in_range(number),
        Value::Array(elements) => pass_over_elements(elements.as_slice()),
        Value::Object(members) => pass_over_members(members),
    }
}

#[cycle(passing)]
fn pass_over_elements(elements: &[Value])
    ensures { IsInMemory (array (elements_from (map tree elements.now))) }
{
    for i in 0..elements.len() {
        pass_over(&elements[i]);
    }
}

#[cycle(passing)]
fn pass_over_members(members: &Map)
    ensures { IsInMemory (object (members_from (pairs members.now))) }
{
    for (_, value) in members.iter() {
        pass_over(value);
    }
}
