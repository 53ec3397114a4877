//! Whole numbers of any number of digits, and their groups.

ghost use Rattle.std.specs.Prelude.{◌≡◌, ◌+◌, ◌-◌, ◌/◌, ◌%◌, ◌^◌, ◌<◌, ◌≤◌, ◌++◌, IfOk, IfErr};
ghost use Rattle.std.specs.Int.{w16, to_le_bytes};
ghost use Rattle.std.specs.List.{flat_map};
ghost use Rattle.json_exact.specs.Digits.{spread};
ghost use Rattle.json_exact.specs.Literal.{AreDigits, number};
ghost use Rattle.jsonb_encode.specs.inner.Wide.{size, AreDigitsAndZeros, IsCount, AreZeros};

use crate::buffer::push_half;
use crate::error::EncodeError;

/// A whole number: the digits that write it, as ASCII and in two parts, and so many zeros behind them.
#[derive(Clone, Copy)]
pub struct WideNumber<'a> {
    pub whole: &'a [u8],
    pub fraction: &'a [u8],
    pub zeros: usize,
}

/// The digit at a place from the end, 0 before the first.
fn digit_from_end(digits: &[u8], place: usize) -> u16
    requires digits { AreDigits digits.now }
    ensures { result ≡ number digits.now / 10 ^ place % 10 }
{
    if place >= digits.len() {
        return 0;
    }
    (digits[digits.len() - 1 - place] - b'0') as u16
}

impl WideNumber<'_> {
    /// The digit that counts 10^place.
    fn digit(&self, place: usize) -> u16
        requires { AreDigitsAndZeros self.now }
        ensures { result ≡ size self.now / 10 ^ place % 10 }
    {
        if place < self.zeros {
            return 0;
        }
        let place = place - self.zeros;
        if place < self.fraction.len() {
            digit_from_end(self.fraction, place)
        } else {
            digit_from_end(self.whole, place - self.fraction.len())
        }
    }

    /// The group that counts 10000^place.
    fn group(&self, place: usize) -> u16
        requires digits { AreDigitsAndZeros self.now }
        requires place { place < 2 ^ 62 }
        ensures { result ≡ size self.now / 10000 ^ place % 10000 }
    {
        let last = 4 * place;
        1000 * self.digit(last + 3)
            + 100 * self.digit(last + 2)
            + 10 * self.digit(last + 1)
            + self.digit(last)
    }

    /// How many groups it has; 0 has none.
    pub fn count(&self) -> usize
        requires { AreDigitsAndZeros self.now }
        ensures count { IsCount result (size self.now) }
        ensures few { result < 2 ^ 62 }
    {
        let mut count = (self.whole.len() + self.fraction.len() + self.zeros + 3) / 4;
        while count > 0 && self.group(count - 1) == 0 {
            count -= 1;
        }
        count
    }

    /// How many of its groups at the end are 0.
    pub fn zero_groups(&self, count: usize) -> usize
        requires digits { AreDigitsAndZeros self.now }
        requires few { count < 2 ^ 62 }
        ensures { AreZeros result count (size self.now) }
    {
        let mut zeros = 0;
        while zeros < count && self.group(zeros) == 0 {
            zeros += 1;
        }
        zeros
    }

    /// Writes its groups but the last ones.
    pub fn push_groups(
        &self,
        bytes: &mut Vec<u8>,
        count: usize,
        last: usize,
    ) -> Result<(), EncodeError>
        requires digits { AreDigitsAndZeros self.now }
        requires few { count < 2 ^ 62 }
        requires below { size self.now < 10000 ^ count }
        requires order { last ≤ count }
        ensures ok { IfOk result (λ _. bytes.new.items
            ≡ bytes.old.items ++ flat_map (to_le_bytes w16) (spread 10000 (count - last) (size self.now / 10000 ^ last))) }
        ensures err { IfErr result (λ e. e ≡ EncodeError.OutOfMemory) }
    {
        for index in 0..count - last {
            push_half(bytes, self.group(count - 1 - index))?;
        }
        Ok(())
    }
}
