//! What is asked of each byte, of one or of many at once.

ghost use Rattle.std.specs.Prelude.{◌≡◌, ◌==◌, ℕ, Bool, List, length, map};
ghost use Rattle.std.specs.Simd.Lanes.{number_l};
ghost use Rattle.bytecount.specs.Bytes.{begins_char};
ghost use Rattle.bytecount.specs.Tallies.{mark, IsWord};

use std::simd::prelude::*;

/// A test of a byte. Where many bytes are tested at once, each is marked: by 1 if it passes, else by 0.
pub(crate) trait ByteTest {
    ghost passes: { Self → ℕ → Bool };

    /// Whether the byte passes.
    fn is_met(&self, byte: u8) -> bool
        ensures { result ≡ passes self.now byte };

    /// The marks of 32 bytes, lane by lane.
    fn marks(&self, lanes: u8x32) -> u8x32
        requires { length lanes ≡ 32 }
        ensures { result ≡ map (mark (passes self.now)) lanes };

    /// The marks of the eight bytes of a word, byte by byte.
    fn word_marks(&self, word: u64) -> u64
        ensures { (bytes : List ℕ) → IsWord bytes word → result ≡ number_l 256 (map (mark (passes self.now)) bytes) };
}

/// The byte is the needle.
#[derive(Clone, Copy)]
pub(crate) struct Equals {
    pub needle: u8,
}

/// The byte begins a code point: its top two bits are not 10.
#[derive(Clone, Copy)]
pub(crate) struct BeginsChar;

/// The top bit of each byte of a word.
const TOPS: u64 = 0x8080_8080_8080_8080;

impl ByteTest for Equals {
    ghost passes = { λ test b. b == test.needle };

    #[inline(always)]
    fn is_met(&self, byte: u8) -> bool {
        byte == self.needle
    }

    #[inline(always)]
    fn marks(&self, lanes: u8x32) -> u8x32 {
        lanes
            .simd_eq(u8x32::splat(self.needle))
            .select(u8x32::splat(1), u8x32::splat(0))
    }

    // A byte differs from the needle where one of its low seven bits does, so that 127 more reach the top bit, or where
    // its top bit does. No byte of the sum passes 254, so none carries into the next.
    #[inline(always)]
    fn word_marks(&self, word: u64) -> u64 {
        let apart = word ^ (self.needle as u64 * 0x0101_0101_0101_0101);
        let lows = 0x7f7f_7f7f_7f7f_7f7f;
        let differs = (((apart & lows) + lows) | apart) & TOPS;
        (differs ^ TOPS) >> 7
    }
}

impl ByteTest for BeginsChar {
    ghost passes = { λ _. begins_char };

    #[inline(always)]
    fn is_met(&self, byte: u8) -> bool {
        byte >> 6 != 0b10
    }

    // Half way round the circle of 256, the bytes that continue a code point, 128 to 191, are those below 64.
    #[inline(always)]
    fn marks(&self, lanes: u8x32) -> u8x32 {
        (lanes + u8x32::splat(128))
            .simd_ge(u8x32::splat(64))
            .select(u8x32::splat(1), u8x32::splat(0))
    }

    // With its top bit turned, a byte that begins a code point has one of its top two bits set.
    #[inline(always)]
    fn word_marks(&self, word: u64) -> u64 {
        let turned = word ^ TOPS;
        let seconds = turned & 0x4040_4040_4040_4040;
        (((seconds + seconds) | turned) & TOPS) >> 7
    }
}
