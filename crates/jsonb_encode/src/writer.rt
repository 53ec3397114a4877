//! Values, written from left to right.

ghost use Rattle.std.specs.Prelude.{◌≡◌, ◌-◌, ◌≤◌, ◌++◌, length, map, IfOk, IfErr, IsTrue};
ghost use Rattle.json_model.specs.Parts.{elements_from, members_from};
ghost use Rattle.json_model.specs.Tree.{array, object};
ghost use Rattle.json_exact.specs.Trees.{tree, pairs};
ghost use Rattle.json_exact.specs.Parsed.{IsInRange};
ghost use Rattle.jsonb_encode.specs.Number.{numeric, fits};
ghost use Rattle.jsonb_encode.specs.Limits.{all_fit, elements_fit, members_fit};
ghost use Rattle.jsonb_encode.specs.inner.Writing.{kind_number, IsWritten, IsWhole, IsUnwritten, Keyed, IsUnkeyed, IsLone, IsNotLone, IsRoot, IsNoRoot};

use crate::buffer::{push_all, push_padding};
use crate::entries::{LIMIT, close_item, open_container};
use crate::error::EncodeError;
use crate::kind::Kind;
use crate::laws::numbers_are_narrow_and_in_range;
use crate::number::push_number;
use crate::number_form::NumericForm;
use json_exact::{Map, Number, Value};
use jsonb_layout::Form;

/// Writes a number, and learns that it is in range.
fn write_number(bytes: &mut Vec<u8>, number: &Number, form: NumericForm) -> Result<(), EncodeError>
    requires { IsTrue (fits form number.now) }
    ensures ok { IfOk result (λ _. bytes.new.items ≡ bytes.old.items ++ numeric form number.now) }
    ensures exact { IsInRange number.now }
    ensures err { IfErr result (λ e. e ≡ EncodeError.OutOfMemory) }
{
    numbers_are_narrow_and_in_range(number);
    push_number(bytes, number, form)
}

/// Writes a value as an item of a container whose payload begins at `payload`, with the zeros before it. Answers its kind.
#[cycle(writing)]
fn write_value(
    bytes: &mut Vec<u8>,
    payload: usize,
    value: &Value,
    form: NumericForm,
) -> Result<Kind, EncodeError>
    requires payload { payload ≤ length bytes.old.items }
    requires fits { IsTrue (all_fit form (tree value.now)) }
    ensures ok { IfOk result (λ kind. IsWritten form (tree value.now) (length bytes.old.items - payload)
        bytes.old.items bytes.new.items (kind_number kind)) }
    ensures err { IfErr result (λ e. IsUnwritten form (tree value.now) e) }
{
    match value {
        Value::Null => Ok(Kind::Null),
        Value::Bool(truth) => Ok(Kind::of_boolean(*truth)),
        Value::String(text) => {
            push_all(bytes, text.as_str().as_bytes())?;
            Ok(Kind::String)
        }
        Value::Number(number) => {
            push_padding(bytes, bytes.len() - payload)?;
            write_number(bytes, number, form)?;
            Ok(Kind::Number)
        }
        Value::Array(elements) => {
            push_padding(bytes, bytes.len() - payload)?;
            write_elements(bytes, elements.as_slice(), form)?;
            Ok(Kind::Container)
        }
        Value::Object(members) => {
            push_padding(bytes, bytes.len() - payload)?;
            write_members(bytes, members, form)?;
            Ok(Kind::Container)
        }
    }
}

/// Writes an array.
#[cycle(writing)]
fn write_elements(
    bytes: &mut Vec<u8>,
    elements: &[Value],
    form: NumericForm,
) -> Result<(), EncodeError>
    requires fits { IsTrue (elements_fit form (elements_from (map tree elements.now))) }
    ensures ok { IfOk result (λ _. IsWhole form (array (elements_from (map tree elements.now)))
        bytes.old.items bytes.new.items) }
    ensures err { IfErr result (λ e. IsUnwritten form (array (elements_from (map tree elements.now))) e) }
{
    let count = elements.len();
    if count >= LIMIT {
        return Err(EncodeError::TooLarge);
    }
    let start = bytes.len();
    open_container(bytes, Form::Array, count, count)?;
    for i in 0..count {
        let begin = bytes.len();
        let kind = write_value(bytes, start + 4 * count + 4, &elements[i], form)?;
        close_item(bytes, start, count, i, begin, kind)?;
    }
    Ok(())
}

/// Writes the words of an object, and its keys.
fn write_keys(bytes: &mut Vec<u8>, members: &Map) -> Result<(), EncodeError>
    ensures ok { IfOk result (λ _. Keyed (pairs members.now) bytes.old.items bytes.new.items) }
    ensures err { IfErr result (λ e. IsUnkeyed (pairs members.now) e) }
{
    let count = members.len();
    if count >= LIMIT {
        return Err(EncodeError::TooLarge);
    }
    let start = bytes.len();
    open_container(bytes, Form::Object, count, 2 * count)?;
    let mut index = 0;
    for (name, _) in members.iter() {
        let begin = bytes.len();
        push_all(bytes, name.as_bytes())?;
        close_item(bytes, start, 2 * count, index, begin, Kind::String)?;
        index += 1;
    }
    Ok(())
}

/// Writes an object.
#[cycle(writing)]
fn write_members(bytes: &mut Vec<u8>, members: &Map, form: NumericForm) -> Result<(), EncodeError>
    requires fits { IsTrue (members_fit form (members_from (pairs members.now))) }
    ensures ok { IfOk result (λ _. IsWhole form (object (members_from (pairs members.now)))
        bytes.old.items bytes.new.items) }
    ensures err { IfErr result (λ e. IsUnwritten form (object (members_from (pairs members.now))) e) }
{
    let start = bytes.len();
    write_keys(bytes, members)?;
    let count = members.len();
    let mut index = count;
    for (_, value) in members.iter() {
        let begin = bytes.len();
        let kind = write_value(bytes, start + 8 * count + 4, value, form)?;
        close_item(bytes, start, 2 * count, index, begin, kind)?;
        index += 1;
    }
    Ok(())
}

/// Writes a value as the one item of a container: a root scalar.
fn write_lone(bytes: &mut Vec<u8>, value: &Value, form: NumericForm) -> Result<(), EncodeError>
    requires fits { IsTrue (all_fit form (tree value.now)) }
    ensures ok { IfOk result (λ _. IsLone form (tree value.now) bytes.old.items bytes.new.items) }
    ensures err { IfErr result (λ e. IsNotLone form (tree value.now) e) }
{
    let start = bytes.len();
    open_container(bytes, Form::Lone, 1, 1)?;
    let begin = bytes.len();
    let kind = write_value(bytes, begin, value, form)?;
    close_item(bytes, start, 1, 0, begin, kind)
}

/// Writes a value whose numbers have the form, with nothing around it.
pub fn write_root(bytes: &mut Vec<u8>, value: &Value, form: NumericForm) -> Result<(), EncodeError>
    requires fits { IsTrue (all_fit form (tree value.now)) }
    ensures ok { IfOk result (λ _. IsRoot form (tree value.now) bytes.old.items bytes.new.items) }
    ensures err { IfErr result (λ e. IsNoRoot form (tree value.now) e) }
{
    match value {
        Value::Null => write_lone(bytes, value, form),
        Value::Bool(_) => write_lone(bytes, value, form),
        Value::Number(_) => write_lone(bytes, value, form),
        Value::String(_) => write_lone(bytes, value, form),
        Value::Array(elements) => write_elements(bytes, elements.as_slice(), form),
        Value::Object(members) => write_members(bytes, members, form),
    }
}
