//! Counts over words of 64 bits, eight bytes each.
//!
//! The marks of the words are added byte by byte, in one word, for at most 255 words, so that no byte carries into the next;
//! then its bytes are added up. Where the slice ends inside a word, the last eight bytes are one word more, and the marks of
//! those that were counted before are shifted out.

ghost use Rattle.std.specs.Prelude.{◌≡◌, ◌==◌, ◌+◌, ◌-◌, ◌*◌, ◌<◌, ◌≤◌, ℕ, List, length, drop, count_by};
ghost use Rattle.std.specs.Simd.Lanes.{sum_l, chunk, number_l};
ghost use Rattle.bytecount.specs.Bytes.{begins_char};
ghost use Rattle.bytecount.specs.Tallies.{IsWord, WordTallies};

use crate::byte_test::{BeginsChar, ByteTest, Equals};

/// How many words one run takes, so that no byte of their sum passes 255.
const WORDS: usize = 255;

/// How many bytes one run takes.
const RUN: usize = 8 * WORDS;

/// The word of the eight bytes from `at` on, the first of them lowest.
#[inline(always)]
fn word_at(bytes: &[u8], at: usize) -> u64
    requires { at + 8 ≤ length bytes.now }
    ensures { IsWord (chunk at 8 bytes.now) result }
{
    u64::from_le_bytes(*bytes[at..].first_chunk::<8>().unwrap())
}

/// The marks of `words` words from `from` on, added up byte by byte.
#[inline(always)]
fn word_tallies<T: ByteTest>(test: &T, bytes: &[u8], from: usize, words: usize) -> u64
    requires within { from + 8 * words ≤ length bytes.now }
    requires room { words ≤ 255 }
    ensures { WordTallies (T.passes test.now) words (chunk from (8 * words) bytes.now) result }
{
    let mut counts = 0;
    for i in 0..words {
        counts += test.word_marks(word_at(bytes, from + 8 * i));
    }
    counts
}

/// The marks of the last `size` bytes.
#[inline(always)]
fn tail_word_marks<T: ByteTest>(test: &T, bytes: &[u8], size: usize) -> u64
    requires enough { 8 ≤ length bytes.now }
    requires some { 0 < size }
    requires short { size < 8 }
    ensures { WordTallies (T.passes test.now) 1 (drop (length bytes.now - size) bytes.now) result }
{
    test.word_marks(word_at(bytes, bytes.len() - 8)) >> (64 - 8 * size)
}

/// The sum of the bytes of a word.
#[inline(always)]
fn byte_sum(word: u64) -> usize
    ensures { (bytes : List ℕ) → IsWord bytes word → result ≡ sum_l bytes }
{
    let [a, b, c, d, e, f, g, h] = word.to_le_bytes();
    a as usize
        + b as usize
        + c as usize
        + d as usize
        + e as usize
        + f as usize
        + g as usize
        + h as usize
}

/// How many bytes from `from` on pass the test, where those are less than a run.
#[inline(always)]
fn count_rest<T: ByteTest>(test: &T, bytes: &[u8], from: usize) -> usize
    requires enough { 8 ≤ length bytes.now }
    requires within { from ≤ length bytes.now }
    requires short { length bytes.now < from + RUN }
    ensures { result ≡ count_by (T.passes test.now) (drop from bytes.now) }
{
    let words = (bytes.len() - from) / 8;
    let size = (bytes.len() - from) % 8;
    let counts = word_tallies(test, bytes, from, words);
    if size == 0 {
        return byte_sum(counts);
    }
    byte_sum(counts + tail_word_marks(test, bytes, size))
}

/// How many bytes pass the test.
#[inline(always)]
fn count_all<T: ByteTest>(test: &T, bytes: &[u8]) -> usize
    requires enough { 8 ≤ length bytes.now }
    ensures { result ≡ count_by (T.passes test.now) bytes.now }
{
    if bytes.len() < RUN {
        return count_rest(test, bytes, 0);
    }
    let runs = bytes.len() / RUN;
    let mut total = 0;
    for i in 0..runs {
        total += byte_sum(word_tallies(test, bytes, RUN * i, WORDS));
    }
    total + count_rest(test, bytes, RUN * runs)
}

/// How many bytes equal the needle, of at least 8.
pub fn chunk_count(haystack: &[u8], needle: u8) -> usize
    requires { 8 ≤ length haystack.now }
    ensures { result ≡ count_by (λ b. b == needle) haystack.now }
{
    count_all(&Equals { needle }, haystack)
}

/// How many bytes have other top two bits than 10, of at least 8.
pub fn chunk_num_chars(utf8_chars: &[u8]) -> usize
    requires { 8 ≤ length utf8_chars.now }
    ensures { result ≡ count_by begins_char utf8_chars.now }
{
    count_all(&BeginsChar, utf8_chars)
}
