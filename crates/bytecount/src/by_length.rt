//! The counts for every slice: by vectors from 32 bytes on, by words from 8 on, and one byte after the other below.

ghost use Rattle.std.specs.Prelude.{◌≡◌, ◌==◌, count_by};
ghost use Rattle.bytecount.specs.Bytes.{begins_char};

use crate::integer_simd;
use crate::naive::{naive_count, naive_num_chars};
use crate::simd::generic;

/// How many bytes equal the needle.
pub fn count(haystack: &[u8], needle: u8) -> usize
    ensures { result ≡ count_by (λ b. b == needle) haystack.now }
{
    if haystack.len() >= 32 {
        generic::chunk_count(haystack, needle)
    } else if haystack.len() >= 8 {
        integer_simd::chunk_count(haystack, needle)
    } else {
        naive_count(haystack, needle)
    }
}

/// How many bytes have other top two bits than 10: of a text, how many code points it has.
pub fn num_chars(utf8_chars: &[u8]) -> usize
    ensures { result ≡ count_by begins_char utf8_chars.now }
{
    if utf8_chars.len() >= 32 {
        generic::chunk_num_chars(utf8_chars)
    } else if utf8_chars.len() >= 8 {
        integer_simd::chunk_num_chars(utf8_chars)
    } else {
        naive_num_chars(utf8_chars)
    }
}
