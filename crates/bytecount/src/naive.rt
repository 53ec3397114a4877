//! Counts that look at one byte after the other: the plain loops.

ghost use Rattle.std.specs.Prelude.{◌≡◌, ◌==◌, ◌<◌, ◌^◌, length, count_by};
ghost use Rattle.bytecount.specs.Bytes.{begins_char};

use crate::byte_test::{BeginsChar, ByteTest, Equals};

/// How many bytes pass the test.
fn count_all<T: ByteTest>(test: &T, bytes: &[u8]) -> usize
    ensures { result ≡ count_by (T.passes test.now) bytes.now }
{
    let mut total = 0;
    for byte in bytes {
        total += test.is_met(*byte) as usize;
    }
    total
}

/// How many bytes equal the needle, one byte after the other.
pub fn naive_count(utf8_chars: &[u8], needle: u8) -> usize
    ensures { result ≡ count_by (λ b. b == needle) utf8_chars.now }
{
    count_all(&Equals { needle }, utf8_chars)
}

/// How many bytes equal the needle, in a sum of 32 bits: so at most 2^32 - 1 bytes are taken.
pub fn naive_count_32(haystack: &[u8], needle: u8) -> usize
    requires fits { length haystack.now < 2 ^ 32 }
    ensures { result ≡ count_by (λ b. b == needle) haystack.now }
{
    let mut total: u32 = 0;
    for byte in haystack {
        total += (*byte == needle) as u32;
    }
    total as usize
}

/// How many bytes have other top two bits than 10, one byte after the other.
pub fn naive_num_chars(utf8_chars: &[u8]) -> usize
    ensures { result ≡ count_by begins_char utf8_chars.now }
{
    count_all(&BeginsChar, utf8_chars)
}
