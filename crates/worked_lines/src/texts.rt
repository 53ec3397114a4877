//! Texts and bytes as a line gives them.

use json_exact::Value;
use json_traits::Node;
use jsonb::Jsonb;
use jsonb::encode::{decode_hex, encode, encode_nested_arrays, to_hex};
use std::alloc::Global;

/// The text of parts between commas. A part stands for itself, as `9`; for so many of itself, as `9*38`; for the hex of arrays in
/// each other, as `~127` for 127 around an empty one; or for the hex of an array of so many elements of a JSON text, as `[]#20`, or
/// of the whole numbers from 0 on, as `#20`.
pub(crate) fn expand(alloc: Global, text: &str) -> Option<String> {
    let mut all = String::new(alloc);
    for part in text.split(',') {
        all.push_str(&expand_part(alloc, part)?).ok()?;
    }
    Some(all)
}

// What one part stands for.
fn expand_part(alloc: Global, part: &str) -> Option<String> {
    if let Some(depth) = part.strip_prefix('~') {
        return to_hex(
            alloc,
            &encode_nested_arrays(alloc, depth.parse().ok()?).ok()?,
        )
        .ok();
    }
    if let Some((element, count)) = part.split_once('#') {
        return to_hex(alloc, &array_of(alloc, element, count.parse().ok()?)?).ok();
    }
    let (piece, times) = part.split_once('*').unwrap_or((part, "1"));
    piece.repeat(alloc, times.parse().ok()?).ok()
}

// The bytes of the array of so many elements, or of whole numbers where the element is empty.
fn array_of(alloc: Global, element: &str, count: u32) -> Option<Vec<u8>> {
    let mut text = String::from_str(alloc, "[").ok()?;
    for number in 0..count {
        if number > 0 {
            text.push(',').ok()?;
        }
        if element.is_empty() {
            write!(text, "{number}").ok()?;
        } else {
            text.push_str(element).ok()?;
        }
    }
    text.push(']').ok()?;
    encode(alloc, &Value::from_json_text(alloc, &text).ok()?).ok()
}

/// The bytes whose hex is the text of the parts.
pub(crate) fn bytes_of(alloc: Global, text: &str) -> Option<Vec<u8>> {
    decode_hex(alloc, &expand(alloc, text)?).ok()
}

/// The bytes of the first two words.
pub(crate) fn two_of(alloc: Global, rest: &str) -> Option<(Vec<u8>, Vec<u8>)> {
    let (first, others) = rest.split_once(' ')?;
    let first = bytes_of(alloc, first)?;
    let second = bytes_of(alloc, first_word(others))?;
    Some((first, second))
}

/// What stands before the first space.
pub(crate) fn first_word(rest: &str) -> &str {
    let (first, _) = rest.split_once(' ').unwrap_or((rest, ""));
    first
}

/// The value that the bytes stand for, where it nests at most 128 containers.
pub(crate) fn value_of(alloc: Global, bytes: &[u8]) -> Option<Value> {
    let root = Jsonb::root(alloc, bytes).ok()?;
    root.to_value(alloc).ok()?.into_owned(alloc).ok()
}

/// The two texts, or one where they are the same.
pub(crate) fn one_or_both(alloc: Global, one: &str, other: &str) -> Option<String> {
    if one == other {
        return String::from_str(alloc, one).ok();
    }
    format!(in alloc; "{one} but {other}").ok()
}
