//! Patterns for Rust, and their witnesses.

use crate::texts::expand;
use jsonschema_regex::{pattern_witness, to_rust_regex};
use std::alloc::Global;
use std::borrow::CowStr;

// A text, or its length where it is long.
fn short(alloc: Global, text: &str) -> Option<String> {
    if text.len() > 1000 {
        return format!(in alloc; "{} bytes", text.len()).ok();
    }
    String::from_str(alloc, text).ok()
}

/// `PATTERN`: the text for Rust of a pattern, and whether it is borrowed, or why there is none; and the witness of the pattern.
pub(crate) fn rust(alloc: Global, pattern: &str) -> Option<String> {
    if pattern.len() >= 1 << 30 {
        return None;
    }
    let mut all = match to_rust_regex(alloc, pattern) {
        Ok(CowStr::Borrowed(text)) => format!(in alloc; "{} borrowed", short(alloc, text)?).ok()?,
        Ok(CowStr::Owned(text)) => short(alloc, &text)?,
        Err(error) => format!(in alloc; "{error} {error:?}").ok()?,
    };
    let witness = pattern_witness(alloc, pattern).ok()?;
    write!(all, " {witness:?}").ok()?;
    Some(all)
}

/// `PARTS`: the same of a pattern whose parts stand between commas.
pub(crate) fn long(alloc: Global, rest: &str) -> Option<String> {
    rust(alloc, &expand(alloc, rest)?)
}
