//! The text of a `Number`.

ghost use Rattle.std.specs.Prelude.{◌++◌, ◌-◌, ◌/◌, ◌^◌, ◌≡◌, ◌≤◌, nat_abs, IfOk, string_bytes};
ghost use Rattle.json_exact.specs.Text.{digits_text, sign_text, whole_text, fraction_text, text};

use crate::decimal::{Decimal, FRACTION_DIGITS};
use crate::number::Number;
use crate::out_of_memory::OutOfMemory;
use std::alloc::{AllocError, Global};

/// Writes a `-` where the value is below zero.
fn push_sign(output: &mut String, decimal: &Decimal) -> Result<(), AllocError>
    ensures { IfOk result
        (λ _. string_bytes output.new ≡ string_bytes output.old ++ sign_text decimal.now) }
{
    if decimal.is_negative() {
        output.push('-')?;
    }
    Ok(())
}

/// Writes the digits at the places below `high`, down to `low`. The last of `FRACTION_DIGITS` fraction digits has place 0.
fn push_digits(
    output: &mut String,
    decimal: &Decimal,
    high: u32,
    low: u32,
) -> Result<(), AllocError>
    requires order { low ≤ high }
    ensures { IfOk result (λ _. string_bytes output.new
        ≡ string_bytes output.old ++ digits_text (high - low) (nat_abs decimal.now / 10 ^ low)) }
{
    for place in (low..high).rev() {
        output.push((b'0' + decimal.digit_at(place)) as char)?;
    }
    Ok(())
}

/// Writes the whole part, at least one digit.
fn push_whole(output: &mut String, decimal: &Decimal) -> Result<(), AllocError>
    ensures { IfOk result (λ _. string_bytes output.new
        ≡ string_bytes output.old ++ whole_text (nat_abs decimal.now / 10 ^ 16383)) }
{
    let high = decimal.digit_count().max(FRACTION_DIGITS + 1);
    push_digits(output, decimal, high, FRACTION_DIGITS)
}

/// Writes the point and so many fraction digits, or nothing where there are none.
fn push_fraction(output: &mut String, decimal: &Decimal, places: u32) -> Result<(), AllocError>
    requires few { places ≤ 16383 }
    ensures { IfOk result (λ _. string_bytes output.new
        ≡ string_bytes output.old ++ fraction_text places (nat_abs decimal.now / 10 ^ (16383 - places))) }
{
    if places > 0 {
        output.push('.')?;
        push_digits(output, decimal, FRACTION_DIGITS, FRACTION_DIGITS - places)?;
    }
    Ok(())
}

impl Number {
    /// The number in plain decimal notation, which has no exponent: a `-` where the value is below zero, the whole part
    /// without leading zeros and with at least one digit, and, where fraction digits are written, a point and all of them.
    /// It is the number notation of RFC 8259, section 6.
    ///
    /// It asks once for the memory of the text, and for at most three bytes more.
    pub fn to_text(&self, alloc: Global) -> Result<String, OutOfMemory>
        ensures { IfOk result (λ s. string_bytes s ≡ text self.now) }
    {
        let decimal = self.decimal();
        let places = self.fraction_digits() as u32;
        let whole = decimal.digit_count().saturating_sub(FRACTION_DIGITS);
        let mut output = String::with_capacity(alloc, whole as usize + places as usize + 3)?;
        push_sign(&mut output, &decimal)?;
        push_whole(&mut output, &decimal)?;
        push_fraction(&mut output, &decimal, places)?;
        Ok(output)
    }
}
