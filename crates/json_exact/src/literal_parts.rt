//! `LiteralParts`: a number literal that is cut into its parts, of any number of digits.

ghost use Rattle.std.specs.Prelude.{◌≡◌, ◌+◌, ◌-◌, ◌^◌, ◌≤◌, min, length, option_map, MatchOption, IfSome, if◌then◌else◌};
ghost use Rattle.json_exact.specs.CutLiteral.{IsCut};
ghost use Rattle.json_exact.specs.Parsed.{IsNoLiteral};
ghost use Rattle.json_exact.specs.inner.Reading.{digit_count, whole_of, fraction_of};

use crate::literal::{Exponent, read_exponent, read_minus};
use crate::parse::{written_fraction_digits, zeros_behind};

/// The parts of a number literal of JSON, as wide as it is.
#[derive(Clone, Copy)]
pub struct LiteralParts<'a> {
    /// Whether `-` stands in front.
    pub negative: bool,
    /// The digits in front of the point, as ASCII.
    pub whole: &'a [u8],
    /// The digits behind the point, as ASCII.
    pub fraction: &'a [u8],
    /// The exponent; that of a literal without one is 0.
    pub exponent: Exponent,
}

/// How many digits stand at the front.
fn digits_at_front(bytes: &[u8]) -> usize
    ensures count { result ≡ digit_count bytes.now }
    ensures within { result ≤ length bytes.now }
{
    let mut count = 0;
    let mut rest = bytes;
    while let [first, after @ ..] = rest {
        if !first.is_ascii_digit() {
            return count;
        }
        count += 1;
        rest = after;
    }
    count
}

/// The digits of the whole part, and what is behind them.
#[tactic(auto, using(crate::proofs::DigitTextLaws::front_length), unfolding(crate::specs::inner::Reading::whole_of, crate::specs::inner::Reading::is_whole_part))]
fn cut_whole(bytes: &[u8]) -> Option<(&[u8], &[u8])>
    ensures cut { option_map (λ r. (r.0.now, r.1.now)) result ≡ whole_of bytes.now }
    ensures within { IfSome result (λ r. length r.0.now + length r.1.now ≤ length bytes.now) }
{
    let count = digits_at_front(bytes);
    if count == 0 || count > 1 && bytes[0] == b'0' {
        return None;
    }
    Some((&bytes[..count], &bytes[count..]))
}

/// The digits of the fraction, and what is behind them.
#[tactic(auto, using(crate::proofs::DigitTextLaws::front_length), unfolding(crate::specs::inner::Reading::fraction_of, crate::specs::inner::Reading::some_digits_of))]
fn cut_fraction(bytes: &[u8]) -> Option<(&[u8], &[u8])>
    ensures cut { option_map (λ r. (r.0.now, r.1.now)) result ≡ fraction_of bytes.now }
    ensures within { IfSome result (λ r. length r.0.now + length r.1.now ≤ length bytes.now) }
{
    let [b'.', rest @ ..] = bytes else {
        return Some((&bytes[..0], bytes));
    };
    let count = digits_at_front(rest);
    if count == 0 {
        return None;
    }
    Some((&rest[..count], &rest[count..]))
}

impl LiteralParts<'_> {
    /// The parts of a number literal of JSON. `None` exactly where the text is none, as the empty text or `01`. It needs no
    /// memory.
    pub fn read(text: &str) -> Option<LiteralParts<'_>>
        ensures { MatchOption result (IsNoLiteral text.now) (λ parts. IsCut text.now parts) }
    {
        let (negative, rest) = read_minus(text.as_bytes());
        let (whole, rest) = cut_whole(rest)?;
        let (fraction, rest) = cut_fraction(rest)?;
        let exponent = read_exponent(rest)?;
        Some(LiteralParts {
            negative,
            whole,
            fraction,
            exponent,
        })
    }

    /// How many fraction digits are written, or the largest `u64` where they are more.
    pub fn fraction_digits(&self) -> u64
        ensures { result ≡ (if self.now.exponent.down then min (length self.now.fraction.now + self.now.exponent.size) (2 ^ 64 - 1)
            else length self.now.fraction.now - self.now.exponent.size) }
    {
        written_fraction_digits(self.fraction.len() as u64, self.exponent)
    }

    /// How many zeros the exponent puts behind the digits.
    pub fn zeros(&self) -> u64
        ensures { result ≡ (if self.now.exponent.down then 0 else self.now.exponent.size - length self.now.fraction.now) }
    {
        zeros_behind(self.fraction.len() as u64, self.exponent)
    }
}
