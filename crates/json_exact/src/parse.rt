//! Parsing: from a number literal to its value, or to why it is none.

ghost use Rattle.std.specs.Prelude.{ℕ, ◌+◌, ◌-◌, ◌*◌, ◌^◌, ◌≤◌, ◌<◌, ◌≡◌, ◌↔◌, Err, false, min, length, IfOk, MatchResult, if◌then◌else◌};
ghost use Rattle.json_model.specs.Decimal.{Decimal as Written};
ghost use Rattle.json_exact.specs.Exact.{IsWorth, IsWithinLimits};
ghost use Rattle.json_exact.specs.Literal.{placed};
ghost use Rattle.json_exact.specs.inner.LiteralParts.{IsRead, IsFault, IsRefused};
ghost use Rattle.json_exact.specs.Parsed.{IsNumber, IsNoLiteral, IsTooWide, IsOutOfRange};
ghost use Rattle.json_exact.specs.inner.Reading.{capped};
ghost use Rattle.json_exact.specs.inner.SignificantDigits.{Holds};
ghost use Rattle.json_exact.specs.declared.number_error.NumberError.{NumberError};

use crate::decimal::Decimal;
use crate::literal::{Exponent, Literal, read_literal};
use crate::number::Number;
use crate::number_error::NumberError;

/// The most fraction digits that are written.
const MOST_FRACTION_DIGITS: u64 = 16_383;

/// The most digits in front of the point.
const MOST_WHOLE_DIGITS: u64 = 131_072;

/// How many fraction digits are written, or the largest `u64` where they are more.
pub fn written_fraction_digits(count: u64, exponent: Exponent) -> u64
    ensures { result ≡
        (if exponent.down then capped (count + exponent.size) else count - exponent.size) }
{
    if exponent.down {
        count.saturating_add(exponent.size)
    } else {
        count.saturating_sub(exponent.size)
    }
}

/// How many zeros the exponent puts behind the digits.
pub fn zeros_behind(count: u64, exponent: Exponent) -> u64
    ensures { result ≡ (if exponent.down then 0 else exponent.size - count) }
{
    if exponent.down {
        0
    } else {
        exponent.size.saturating_sub(count)
    }
}

/// The value of a literal, and how many fraction digits it writes.
fn value(literal: Literal) -> Result<(Decimal, u16), NumberError>
    requires len { literal.digits.len < 2 ^ 63 }
    requires fraction_digits { literal.fraction_digits < 2 ^ 63 }
    requires holds { (n : ℕ) × Holds literal.digits n }
    ensures value { (n size : ℕ) → Holds literal.digits n → literal.exponent.size ≡ capped size →
        MatchResult result
        (λ r. IsRead r.0 r.1 (placed literal.negative n literal.fraction_digits literal.exponent.down size))
        (λ e. IsFault e (placed literal.negative n literal.fraction_digits literal.exponent.down size)) }
    ensures limits { IfOk result (λ r. IsWithinLimits r.0) }
{
    let digits = literal.digits;
    if digits.too_wide {
        return Err(NumberError::TooWide);
    }
    let count = literal.fraction_digits as u64;
    let fraction_digits = written_fraction_digits(count, literal.exponent);
    if fraction_digits > MOST_FRACTION_DIGITS {
        return Err(NumberError::OutOfRange);
    }
    if digits.len == 0 {
        return Ok((
            Decimal::from_digits(literal.negative, digits, 0),
            fraction_digits as u16,
        ));
    }
    let zeros = zeros_behind(count, literal.exponent);
    if zeros > MOST_WHOLE_DIGITS + MOST_FRACTION_DIGITS
        || digits.len + zeros > MOST_WHOLE_DIGITS + fraction_digits
    {
        return Err(NumberError::OutOfRange);
    }
    let up = zeros + (MOST_FRACTION_DIGITS - fraction_digits);
    Ok((
        Decimal::from_digits(literal.negative, digits, up as u32),
        fraction_digits as u16,
    ))
}

/// The value that a text writes, and how many fraction digits it writes.
fn read(text: &str) -> Result<(Decimal, u16), NumberError>
    ensures read { MatchResult result
        (λ r. (w : Written) × IsNumber text.now w × IsWorth r.0 w × (r.1 ≡ w.places))
        (λ e. IsRefused e text.now) }
    ensures limits { IfOk result (λ r. IsWithinLimits r.0) }
{
    match read_literal(text.as_bytes()) {
        Some(literal) => value(literal),
        None => Err(NumberError::NotANumber),
    }
}

impl Decimal {
    /// The value of a number literal of JSON: `1.0` and `1e0` give the `Decimal` that `1` gives, and `-0` that of `0`.
    ///
    /// `NotANumber` where the text is no literal, as the empty text, `01`, `+1` or `1.`. `TooWide` where it has more than
    /// 38 digits from the first to the last that is not 0, as `1`, 37 zeros and `1`. `OutOfRange` where the magnitude is
    /// 10^131072 or more, as `1e131072`, or more than 16,383 fraction digits are written, as `0e-16384`.
    pub fn parse(text: &str) -> Result<Decimal, NumberError>
        ensures read { IfOk result (λ d. (w : Written) × IsNumber text.now w × IsWorth d w) }
        ensures not_a_number { (result ≡ Err NumberError.NotANumber) ↔ IsNoLiteral text.now }
        ensures too_wide { (result ≡ Err NumberError.TooWide) ↔ IsTooWide text.now }
        ensures out_of_range { (result ≡ Err NumberError.OutOfRange) ↔ IsOutOfRange text.now }
        ensures limits { IfOk result (λ d. IsWithinLimits d) }
    {
        let (decimal, _) = read(text)?;
        Ok(decimal)
    }
}

impl Number {
    /// The number that a number literal of JSON writes: its value, and its fraction digits, which are those behind the
    /// point less the exponent, and never below 0: `1.50` writes 2, `1.50e1` writes 1, and `1e5` writes 0.
    ///
    /// It errs where `Decimal::parse` does.
    pub fn parse(text: &str) -> Result<Number, NumberError>
        ensures read { IfOk result (λ n. IsNumber text.now n) }
        ensures not_a_number { (result ≡ Err NumberError.NotANumber) ↔ IsNoLiteral text.now }
        ensures too_wide { (result ≡ Err NumberError.TooWide) ↔ IsTooWide text.now }
        ensures out_of_range { (result ≡ Err NumberError.OutOfRange) ↔ IsOutOfRange text.now }
    {
        let (decimal, fraction_digits) = read(text)?;
        Ok(Number::new(decimal, fraction_digits))
    }
}
