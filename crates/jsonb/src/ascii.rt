//! Bytes that are ASCII.

ghost use Rattle.std.specs.Prelude.{◌≡◌, ◌≤◌, IsTrue, length, take};
ghost use Rattle.std.specs.Str.{IsAscii};

use std::simd::prelude::*;

/// How many of 32 bytes, from the first on, are below 128.
#[inline(always)]
fn ascii_of_block(block: &[u8; 32]) -> usize
    ensures ascii { IsAscii (take result block.now) }
    ensures few { result ≤ 32 }
{
    let high = u8x32::from_array(*block)
        .simd_ge(u8x32::splat(128))
        .to_bitmask();
    if high == 0 {
        return 32;
    }
    high.trailing_zeros() as usize
}

/// How many bytes, from the first on, are below 128, byte by byte, as suits short texts.
#[inline(always)]
fn ascii_of_short(bytes: &[u8]) -> usize
    ensures { length bytes.now ≤ result → IsAscii bytes.now }
{
    for index in 0..bytes.len() {
        if bytes[index] >= 128 {
            return index;
        }
    }
    bytes.len()
}

/// True only where each byte is below 128. By review, 32 bytes are looked at together.
#[inline(never)]
pub fn is_ascii(bytes: &[u8]) -> bool
    ensures { IsTrue result → IsAscii bytes.now }
{
    let mut rest = bytes;
    while let Some((block, behind)) = rest.split_first_chunk::<32>() {
        if ascii_of_block(block) < 32 {
            return false;
        }
        rest = behind;
    }
    match bytes.last_chunk::<32>() {
        Some(block) => ascii_of_block(block) == 32,
        None => ascii_of_short(bytes) >= bytes.len(),
    }
}

/// A number that is at least the length of a piece only where each of its bytes is below 128. The piece lies in front of what is left
/// of a payload: where 32 bytes are left they are looked at together, whatever the piece's length.
#[inline(always)]
pub fn ascii_room(piece: &[u8], rest: &[u8]) -> usize
    requires { piece.now ≡ take (length piece.now) rest.now }
    ensures { length piece.now ≤ result → IsAscii piece.now }
{
    match rest.first_chunk::<32>() {
        Some(block) => ascii_of_block(block),
        None => ascii_of_short(piece),
    }
}
