//! Counts of bytes and of code points.

use crate::texts::two_of;
use bytecount::simd::generic;
use bytecount::{
    count as count_bytes, integer_simd, naive_count, naive_count_32, naive_num_chars, num_chars,
};
use std::alloc::Global;

/// `BYTE HEX`: how often the bytes have the byte, and how many code points they have, by each function that takes them.
pub(crate) fn count(alloc: Global, rest: &str) -> Option<String> {
    let (needles, bytes) = two_of(alloc, rest)?;
    let counts = counts_of(alloc, &bytes, *needles.first()?)?;
    let chars = chars_of(alloc, &bytes)?;
    format!(in alloc; "{counts:?} {chars:?}").ok()
}

// How often the bytes have the byte, by each function that takes them.
fn counts_of(alloc: Global, bytes: &[u8], needle: u8) -> Option<Vec<usize>> {
    let mut counts = vec![in alloc; count_bytes(bytes, needle), naive_count(bytes, needle)].ok()?;
    if bytes.len() <= 100_000 {
        counts.push(naive_count_32(bytes, needle)).ok()?;
    }
    if bytes.len() >= 8 {
        counts.push(integer_simd::chunk_count(bytes, needle)).ok()?;
    }
    if bytes.len() >= 32 {
        counts.push(generic::chunk_count(bytes, needle)).ok()?;
    }
    Some(counts)
}

// How many code points the bytes have, by each function that takes them.
fn chars_of(alloc: Global, bytes: &[u8]) -> Option<Vec<usize>> {
    let mut chars = vec![in alloc; num_chars(bytes), naive_num_chars(bytes)].ok()?;
    if bytes.len() >= 8 {
        chars.push(integer_simd::chunk_num_chars(bytes)).ok()?;
    }
    if bytes.len() >= 32 {
        chars.push(generic::chunk_num_chars(bytes)).ok()?;
    }
    Some(chars)
}
