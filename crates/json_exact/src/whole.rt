//! Decimals as machine integers.

ghost use Rattle.std.specs.Prelude.{ℕ, ℤ, ◌*◌, ◌^◌, ◌<◌, ◌≡◌, ◌↔◌, pos, ◌*ℤ◌, nat_abs, Some, FitsSigned};
ghost use Rattle.std.specs.Int.{w64};
ghost use Rattle.json_exact.specs.Exact.{parts};

use crate::decimal::{Decimal, FRACTION_DIGITS};

/// How many digits the largest `u64` has.
const MOST_WHOLE_DIGITS: u32 = 20;

impl Decimal {
    /// The magnitude where it is whole and below 2^64.
    fn whole_magnitude(&self) -> Option<u64>
        ensures { (n : ℕ) → n < 2 ^ 64 → ((result ≡ Some n) ↔ (nat_abs self.now ≡ n * parts)) }
    {
        if !self.is_integer() {
            return None;
        }
        let high = self.digit_count().max(FRACTION_DIGITS);
        if high > FRACTION_DIGITS + MOST_WHOLE_DIGITS {
            return None;
        }
        let mut magnitude = 0u128;
        for place in (FRACTION_DIGITS..high).rev() {
            magnitude = magnitude * 10 + self.digit_at(place) as u128;
        }
        u64::try_from(magnitude).ok()
    }

    /// The value where it is whole, not negative and below 2^64, as 1 is of `1.0`. It needs no memory.
    pub fn to_u64(&self) -> Option<u64>
        ensures { (n : ℕ) → n < 2 ^ 64 → ((result ≡ Some n) ↔ (self.now ≡ pos (n * parts))) }
    {
        if self.is_negative() {
            return None;
        }
        self.whole_magnitude()
    }

    /// The value where it is whole, at least -2^63 and below 2^63. It needs no memory.
    pub fn to_i64(&self) -> Option<i64>
        ensures { (z : ℤ) → FitsSigned w64 z → ((result ≡ Some z) ↔ (self.now ≡ z *ℤ pos parts)) }
    {
        let magnitude = self.whole_magnitude()? as i128;
        let value = if self.is_negative() {
            -magnitude
        } else {
            magnitude
        };
        i64::try_from(value).ok()
    }
}
