//! Whether the numbers of a value have a form.

ghost use Rattle.std.specs.Prelude.{◌≡◌, map};
ghost use Rattle.json_model.specs.Parts.{elements_from, members_from};
ghost use Rattle.json_exact.specs.Trees.{tree, pairs};
ghost use Rattle.jsonb_encode.specs.Limits.{all_fit, elements_fit, members_fit};

use crate::number::number_fits;
use crate::number_form::NumericForm;
use json_exact::{Map, Value};

/// Whether each number of a value has the form. It takes no memory.
#[cycle(fitting)]
pub fn value_fits(value: &Value, form: NumericForm) -> bool
    ensures { result ≡ all_fit form (tree value.now) }
{
    match value {
        Value::Null | Value::Bool(_) | Value::String(_) => true,
        Value::Number(number) => number_fits(number, form),
        Value::Array(elements) => elements_fit(elements.as_slice(), form),
        Value::Object(members) => members_fit(members, form),
    }
}

#[cycle(fitting)]
fn elements_fit(elements: &[Value], form: NumericForm) -> bool
    ensures { result ≡ elements_fit form (elements_from (map tree elements.now)) }
{
    for i in 0..elements.len() {
        if !value_fits(&elements[i], form) {
            return false;
        }
    }
    true
}

#[cycle(fitting)]
fn members_fit(members: &Map, form: NumericForm) -> bool
    ensures { result ≡ members_fit form (members_from (pairs members.now)) }
{
    for (_, value) in members.iter() {
        if !value_fits(value, form) {
            return false;
        }
    }
    true
}
