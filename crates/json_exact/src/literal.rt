//! Reading a number literal, in one pass over its bytes.

ghost use Rattle.std.specs.Prelude.{ℕ, ◌+◌, ◌*◌, ◌^◌, ◌≤◌, ◌<◌, ◌≡◌, Some, None, length, take, option_map, IfSome, MatchOption};
ghost use Rattle.json_exact.specs.Literal.{number};
ghost use Rattle.json_exact.specs.inner.LiteralParts.{AreKept};
ghost use Rattle.json_exact.specs.inner.Reading.{Parts, digit_count, minus_of, whole_of, some_digits_of, fraction_of, counted, exponent_sign_of, size_of, capped, exponent_of, capped_exponent, literal_of};
ghost use Rattle.json_exact.specs.inner.SignificantDigits.{Holds};

use crate::significant_digits::SignificantDigits;

/// The exponent of a literal.
#[derive(Clone, Copy)]
pub struct Exponent {
    /// Whether it is negated.
    pub down: bool,
    /// Its magnitude, or the largest `u64` where that is larger.
    pub size: u64,
}

/// What a literal writes.
#[derive(Clone, Copy)]
pub struct Literal {
    pub negative: bool,
    /// The digits of the whole part and of the fraction.
    pub digits: SignificantDigits,
    /// How many digits stand behind the point.
    pub fraction_digits: usize,
    pub exponent: Exponent,
}

/// Pushes the digits at the front, and answers how many they are.
fn push_digits(digits: &mut SignificantDigits, bytes: &[u8]) -> usize
    requires room { digits.old.len + length bytes.now < 2 ^ 64 }
    ensures count { result ≡ digit_count bytes.now }
    ensures within { result ≤ length bytes.now }
    ensures len { digits.new.len ≤ digits.old.len + result }
    ensures holds { (n : ℕ) → Holds digits.old n
        → Holds digits.new (n * 10 ^ result + number (take result bytes.now)) }
{
    let mut count = 0;
    let mut rest = bytes;
    while let [first, after @ ..] = rest {
        if !first.is_ascii_digit() {
            return count;
        }
        digits.push(*first - b'0');
        count += 1;
        rest = after;
    }
    count
}

/// Whether `-` stands at the front, and what is behind it.
#[tactic(auto, unfolding(crate::specs::inner::Reading::minus_of))]
pub fn read_minus(bytes: &[u8]) -> (bool, &[u8])
    ensures read { (result.0, result.1.now) ≡ minus_of bytes.now }
    ensures len { length result.1.now ≤ length bytes.now }
{
    match bytes {
        [b'-', rest @ ..] => (true, rest),
        _ => (false, bytes),
    }
}

/// Whether an exponent is negated, and what is behind its sign.
#[tactic(auto, unfolding(crate::specs::inner::Reading::exponent_sign_of))]
fn read_exponent_sign(bytes: &[u8]) -> (bool, &[u8])
    ensures { (result.0, result.1.now) ≡ exponent_sign_of bytes.now }
{
    match bytes {
        [b'+', rest @ ..] => (false, rest),
        _ => read_minus(bytes),
    }
}

/// The number of bytes that are all digits, at least one, or the largest `u64` where it is larger.
#[tactic(auto, unfolding(crate::specs::inner::Reading::size_of))]
fn read_size(bytes: &[u8]) -> Option<u64>
    ensures { result ≡ option_map capped (size_of bytes.now) }
{
    if bytes.is_empty() {
        return None;
    }
    let mut size: u64 = 0;
    let mut rest = bytes;
    while let [first, after @ ..] = rest {
        if !first.is_ascii_digit() {
            return None;
        }
        let digit = u64::from(*first - b'0');
        size = size.saturating_mul(10).saturating_add(digit);
        rest = after;
    }
    Some(size)
}

/// The exponent, which must end the text.
#[tactic(auto, unfolding(crate::specs::inner::Reading::exponent_of))]
pub fn read_exponent(bytes: &[u8]) -> Option<Exponent>
    ensures { option_map (λ e. (e.down, e.size)) result ≡ option_map capped_exponent
        (exponent_of bytes.now) }
{
    match bytes {
        [] => Some(Exponent {
            down: false,
            size: 0,
        }),
        [b'e' | b'E', rest @ ..] => {
            let (down, rest) = read_exponent_sign(rest);
            let size = read_size(rest)?;
            Some(Exponent { down, size })
        }
        _ => None,
    }
}

/// Pushes the digits of the whole part, and answers what is behind them.
#[tactic(auto, using(crate::proofs::DigitTextLaws::front_length), unfolding(crate::specs::inner::Reading::whole_of, crate::specs::inner::Reading::is_whole_part))]
fn push_whole<'a>(digits: &mut SignificantDigits, bytes: &'a [u8]) -> Option<&'a [u8]>
    requires room { digits.old.len + length bytes.now < 2 ^ 64 }
    ensures read { option_map (λ r. r.now) result ≡ option_map (λ r. r.1) (whole_of bytes.now) }
    ensures len { IfSome result
        (λ r. digits.new.len + length r.now ≤ digits.old.len + length bytes.now) }
    ensures holds { (n : ℕ) → Holds digits.old n
        → IfSome (whole_of bytes.now) (λ r. Holds digits.new (n * 10 ^ length r.0 + number r.0)) }
{
    let count = push_digits(digits, bytes);
    if count == 0 || count > 1 && bytes[0] == b'0' {
        return None;
    }
    Some(&bytes[count..])
}

/// Pushes the digits of the fraction, and answers how many they are, and what is behind them.
#[tactic(auto, using(crate::proofs::DigitTextLaws::front_length), unfolding(crate::specs::inner::Reading::fraction_of, crate::specs::inner::Reading::some_digits_of))]
fn push_fraction<'a>(digits: &mut SignificantDigits, bytes: &'a [u8]) -> Option<(usize, &'a [u8])>
    requires room { digits.old.len + length bytes.now < 2 ^ 64 }
    ensures read { option_map (λ r. (r.0, r.1.now)) result ≡ option_map counted
        (fraction_of bytes.now) }
    ensures within { IfSome result (λ r. r.0 ≤ length bytes.now) }
    ensures len { IfSome result (λ r. digits.new.len ≤ digits.old.len + length bytes.now) }
    ensures holds { (n : ℕ) → Holds digits.old n
        → IfSome (fraction_of bytes.now)
        (λ r. Holds digits.new (n * 10 ^ length r.0 + number r.0)) }
{
    let [b'.', rest @ ..] = bytes else {
        return Some((0, bytes));
    };
    let count = push_digits(digits, rest);
    if count == 0 {
        return None;
    }
    Some((count, &rest[count..]))
}

/// The parts of a literal, where the text is one.
#[tactic(auto, unfolding(crate::specs::inner::Reading::literal_of, crate::specs::inner::Reading::with_whole, crate::specs::inner::Reading::with_fraction, crate::specs::inner::Reading::with_exponent))]
pub fn read_literal(bytes: &[u8]) -> Option<Literal>
    ensures read { MatchOption result (literal_of bytes.now ≡ None)
        (λ l. (p : Parts) × (literal_of bytes.now ≡ Some p) × AreKept p l) }
    ensures len { IfSome result (λ l. l.digits.len ≤ length bytes.now) }
    ensures within { IfSome result (λ l. l.fraction_digits ≤ length bytes.now) }
{
    let mut digits = SignificantDigits::new();
    let (negative, rest) = read_minus(bytes);
    let rest = push_whole(&mut digits, rest)?;
    let (fraction_digits, rest) = push_fraction(&mut digits, rest)?;
    let exponent = read_exponent(rest)?;
    Some(Literal {
        negative,
        digits,
        fraction_digits,
        exponent,
    })
}
