//! Bytes that are made.

use crate::texts::bytes_of;
use json_exact::{Number, Value};
use jsonb::encode::{
    NumericForm, decode_hex, encode, encode_array_of, encode_numeric, encode_numeric_text_array,
    encode_numeric_text_object, encode_numeric_text_scalar, encode_raw_key_object, encode_with,
    strip_varlena, to_hex,
};
use std::alloc::Global;

// The hex of the bytes of a value.
fn hex_of(alloc: Global, value: &Value) -> Option<String> {
    to_hex(alloc, &encode(alloc, value).ok()?).ok()
}

// The bytes of a JSON text, by way of a value of `serde_json`.
fn bytes_by_serde(alloc: Global, text: &str) -> Option<String> {
    let source = serde_json::Value::from_str(alloc, text).ok()?;
    bytes_of_serde(alloc, &source)
}

// The bytes of a value of `serde_json`, or why it is refused.
fn bytes_of_serde(alloc: Global, source: &serde_json::Value) -> Option<String> {
    match Value::from_serde(alloc, source) {
        Ok(value) => hex_of(alloc, &value),
        Err(error) => error.to_string(alloc).ok(),
    }
}

// The bytes of a JSON text, or why it is refused.
fn bytes_of_json(alloc: Global, text: &str) -> Option<String> {
    match Value::from_json_text(alloc, text) {
        Ok(value) => hex_of(alloc, &value),
        Err(error) => error.to_string(alloc).ok(),
    }
}

/// `TEXT`: the bytes of a JSON text, read by each of the two readers, or why it is refused.
pub(crate) fn json(alloc: Global, text: &str) -> Option<String> {
    let one = bytes_of_json(alloc, text)?;
    let by_serde = match bytes_by_serde(alloc, text) {
        Some(other) => one == other,
        None => false,
    };
    format!(in alloc; "{one} {by_serde}").ok()
}

// The form that a word names.
fn form_of(word: &str) -> NumericForm {
    match word {
        "long" => NumericForm::Long,
        "byte" => NumericForm::ShortVarlena,
        _ => NumericForm::Short,
    }
}

/// `FORM LITERAL`: the bytes of a number in a form, alone, as a value, as a scalar, twice in an array, and under `a`; or why it has
/// none.
pub(crate) fn numeric(alloc: Global, rest: &str) -> Option<String> {
    let (word, text) = rest.split_once(' ')?;
    let form = form_of(word);
    match encode_numeric(alloc, text, form) {
        Ok(bytes) => numeric_in_each(alloc, &bytes, text, form),
        Err(error) => error.to_string(alloc).ok(),
    }
}

// The bytes of a number, and of the values that have it.
fn numeric_in_each(alloc: Global, bytes: &[u8], text: &str, form: NumericForm) -> Option<String> {
    let mut all = to_hex(alloc, bytes).ok()?;
    add_scalar(alloc, &mut all, text, form)?;
    add_array(alloc, &mut all, text, form)?;
    let object = encode_numeric_text_object(alloc, "a", text, form).ok()?;
    add_hex(alloc, &mut all, &object)?;
    Some(all)
}

// Whether the scalar of a number has the bytes of its value, and these.
fn add_scalar(alloc: Global, all: &mut String, text: &str, form: NumericForm) -> Option<()> {
    let scalar = encode_numeric_text_scalar(alloc, text, form).ok()?;
    let value = Value::Number(Number::parse(text).ok()?);
    let bytes = encode_with(alloc, &value, form).ok()?;
    write!(all, " {}", bytes.as_slice() == scalar.as_slice()).ok()?;
    add_hex(alloc, all, &scalar)
}

// The bytes of the array of a number and of 1.
fn add_array(alloc: Global, all: &mut String, text: &str, form: NumericForm) -> Option<()> {
    let text = String::from_str(alloc, text).ok()?;
    let one = String::from_str(alloc, "1").ok()?;
    let texts = vec![in alloc; text, one].ok()?;
    add_hex(
        alloc,
        all,
        &encode_numeric_text_array(alloc, &texts, form).ok()?,
    )
}

// The hex of bytes, after a space.
fn add_hex(alloc: Global, all: &mut String, bytes: &[u8]) -> Option<()> {
    let hex = to_hex(alloc, bytes).ok()?;
    write!(all, " {hex}").ok()
}

// The bytes of each word.
fn bytes_of_each(alloc: Global, rest: &str) -> Option<Vec<Vec<u8>>> {
    let mut all = Vec::new(alloc);
    for hex in rest.split(' ') {
        all.push(bytes_of(alloc, hex)?).ok()?;
    }
    Some(all)
}

/// `HEX HEX ..`: the array of the containers; and the object of one key, the first.
pub(crate) fn containers(alloc: Global, rest: &str) -> Option<String> {
    let all = bytes_of_each(alloc, rest)?;
    let array = array_of(alloc, &all)?;
    let object = object_of(alloc, all.first()?)?;
    format!(in alloc; "{array} {object}").ok()
}

// The hex of the array of the containers.
fn array_of(alloc: Global, containers: &[Vec<u8>]) -> Option<String> {
    to_hex(alloc, &encode_array_of(alloc, containers).ok()?).ok()
}

// The hex of the object of one key.
fn object_of(alloc: Global, key: &[u8]) -> Option<String> {
    to_hex(alloc, &encode_raw_key_object(alloc, key).ok()?).ok()
}

/// `HEX`: a stored value without its header, or why that is refused.
pub(crate) fn stored(alloc: Global, rest: &str) -> Option<String> {
    let bytes = bytes_of(alloc, rest)?;
    match strip_varlena(&bytes) {
        Ok(rest) => to_hex(alloc, rest).ok(),
        Err(error) => error.to_string(alloc).ok(),
    }
}

/// `TEXT`: the bytes of a hex text, or why it is refused.
pub(crate) fn hex(alloc: Global, text: &str) -> Option<String> {
    match decode_hex(alloc, text) {
        Ok(bytes) => format!(in alloc; "{bytes:?}").ok(),
        Err(error) => format!(in alloc; "{error} {error:?}").ok(),
    }
}
