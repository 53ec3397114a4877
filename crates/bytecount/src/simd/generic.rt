//! Counts over vectors of 32 bytes.
//!
//! The marks of the vectors are added lane by lane, for at most 255 vectors, so that no lane passes 255; then the lanes are
//! added up. Where the slice ends inside a vector, the last 32 bytes are one vector more, with a mask over those of its
//! lanes that were counted before.

ghost use Rattle.std.specs.Prelude.{◌≡◌, ◌==◌, ◌+◌, ◌-◌, ◌*◌, ◌<◌, ◌≤◌, length, drop, count_by};
ghost use Rattle.std.specs.Simd.Lanes.{sum_l, chunk};
ghost use Rattle.bytecount.specs.Bytes.{begins_char};
ghost use Rattle.bytecount.specs.Tallies.{Tallies};

use crate::byte_test::{BeginsChar, ByteTest, Equals};
use std::simd::prelude::*;

/// How many vectors one run takes, so that no lane of their sum passes 255.
const VECTORS: usize = 255;

/// How many bytes one run takes.
const RUN: usize = 32 * VECTORS;

/// The marks of `vectors` vectors from `from` on, added up lane by lane.
#[inline(always)]
fn tallies<T: ByteTest>(test: &T, bytes: &[u8], from: usize, vectors: usize) -> u8x32
    requires within { from + 32 * vectors ≤ length bytes.now }
    requires room { vectors ≤ 255 }
    ensures { Tallies (T.passes test.now) 32 vectors (chunk from (32 * vectors) bytes.now) result }
{
    let mut counts = u8x32::splat(0);
    for i in 0..vectors {
        let lanes = u8x32::from_slice(&bytes[from + 32 * i..]);
        counts = counts.strict_add(test.marks(lanes));
    }
    counts
}

/// The marks of the last `size` bytes: those of the last 32, with 0 in the other lanes.
#[inline(always)]
fn tail_marks<T: ByteTest>(test: &T, bytes: &[u8], size: usize) -> u8x32
    requires enough { 32 ≤ length bytes.now }
    requires short { size < 32 }
    ensures { Tallies (T.passes test.now) 32 1 (drop (length bytes.now - size) bytes.now) result }
{
    let places = u8x32::from_array([
        0, 1, 2, 3, 4, 5, 6, 7, 8, 9, 10, 11, 12, 13, 14, 15, 16, 17, 18, 19, 20, 21, 22, 23, 24,
        25, 26, 27, 28, 29, 30, 31,
    ]);
    let lanes = u8x32::from_slice(&bytes[bytes.len() - 32..]);
    places
        .simd_ge(u8x32::splat(32 - size as u8))
        .select(test.marks(lanes), u8x32::splat(0))
}

/// The sum of 32 lanes.
#[inline(always)]
fn sum(counts: u8x32) -> usize
    requires { length counts ≡ 32 }
    ensures { result ≡ sum_l counts }
{
    counts.cast::<u64>().strict_reduce_sum() as usize
}

/// How many bytes from `from` on pass the test, where those are less than a run.
#[inline(always)]
fn count_rest<T: ByteTest>(test: &T, bytes: &[u8], from: usize) -> usize
    requires enough { 32 ≤ length bytes.now }
    requires within { from ≤ length bytes.now }
    requires short { length bytes.now < from + RUN }
    ensures { result ≡ count_by (T.passes test.now) (drop from bytes.now) }
{
    let vectors = (bytes.len() - from) / 32;
    let size = (bytes.len() - from) % 32;
    let counts = tallies(test, bytes, from, vectors);
    if size == 0 {
        return sum(counts);
    }
    sum(counts.strict_add(tail_marks(test, bytes, size)))
}

/// How many bytes pass the test.
#[inline(always)]
fn count_all<T: ByteTest>(test: &T, bytes: &[u8]) -> usize
    requires enough { 32 ≤ length bytes.now }
    ensures { result ≡ count_by (T.passes test.now) bytes.now }
{
    if bytes.len() < RUN {
        return count_rest(test, bytes, 0);
    }
    let runs = bytes.len() / RUN;
    let mut total = 0;
    for i in 0..runs {
        total += sum(tallies(test, bytes, RUN * i, VECTORS));
    }
    total + count_rest(test, bytes, RUN * runs)
}

/// How many bytes equal the needle, of at least 32.
pub fn chunk_count(haystack: &[u8], needle: u8) -> usize
    requires { 32 ≤ length haystack.now }
    ensures { result ≡ count_by (λ b. b == needle) haystack.now }
{
    count_all(&Equals { needle }, haystack)
}

/// How many bytes have other top two bits than 10, of at least 32.
pub fn chunk_num_chars(utf8_chars: &[u8]) -> usize
    requires { 32 ≤ length utf8_chars.now }
    ensures { result ≡ count_by begins_char utf8_chars.now }
{
    count_all(&BeginsChar, utf8_chars)
}
