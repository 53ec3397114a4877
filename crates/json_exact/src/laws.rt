//! Laws of number literals, of the order of numbers, and of maps. The functions do nothing: their contracts are what they are
//! for.

ghost use Rattle.std.specs.Prelude.{◌≡◌, ◌⊎◌, ◌<ℤ◌, ◌↔◌, ℕ, ℤ, List};
ghost use Rattle.json_model.specs.Decimal.{Decimal as Written, IsBelow, IsSameValue};
ghost use Rattle.json_model.specs.Parts.{lookup};
ghost use Rattle.json_exact.specs.Exact.{IsWithinLimits, IsWorth};
ghost use Rattle.json_exact.specs.Literal.{IsLiteral};
ghost use Rattle.json_exact.specs.Text.{text};
ghost use Rattle.json_exact.specs.Trees.{pairs};

use crate::decimal::Decimal;
use crate::map::Map;
use crate::number::Number;

/// A text writes at most one number.
pub fn one_number(text: &str)
    ensures { (v w : Written) → IsLiteral text.now v → IsLiteral text.now w → v ≡ w }
{
    let _length = text.len();
}

/// Each decimal has at most 38 digits from the first to the last that is not 0, and a magnitude below 10^131072.
pub fn decimals_are_within_limits(decimal: &Decimal)
    ensures { IsWithinLimits decimal.now }
{
    let _whole = decimal.is_integer();
}

/// The decimals `d` and `e` that two numbers are worth are in the order of the numbers, and are one where the numbers have
/// one value: how they are written does not matter. Of two numbers one is below the other, or they have one value.
pub fn order_is_of_written_numbers(a: &Number, b: &Number)
    ensures below { (d e : ℤ) → IsWorth d a.now → IsWorth e b.now
        → ((d <ℤ e) ↔ IsBelow a.now b.now) }
    ensures same { (d e : ℤ) → IsWorth d a.now → IsWorth e b.now
        → ((d ≡ e) ↔ IsSameValue a.now b.now) }
    ensures total { IsBelow a.now b.now ⊎ (IsSameValue a.now b.now ⊎ IsBelow b.now a.now) }
{
    let _decimals = (a.decimal(), b.decimal());
}

/// The text of a number is a literal that writes this number, so parsing it gives the number again.
pub fn a_text_writes_its_number(number: &Number)
    ensures { IsLiteral (text number.now) number.now }
{
    let _fraction_digits = number.fraction_digits();
}

/// Two maps with the same tree under each key have the same pairs, in the same order.
pub fn one_map(one: &Map, other: &Map)
    ensures { ((k : List ℕ) → lookup k (pairs one.now) ≡ lookup k (pairs other.now))
        → pairs one.now ≡ pairs other.now }
{
    let _members = one.iter();
    let _others = other.iter();
}
