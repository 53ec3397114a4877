//! `JsonNumber`: a number, whatever holds it.

ghost use Rattle.std.specs.Prelude.{◌≡◌, ◌<◌, ◌^◌, ◌↔◌, ℕ, ℤ, pos, Some, IfOk, IsTrue, FitsSigned};
ghost use Rattle.std.specs.Int.{w64};
ghost use Rattle.std.specs.Cow.{cow_str_bytes};
ghost use Rattle.json_model.specs.Decimal.{IsWhole};
ghost use Rattle.json_model.specs.Tree.{scalar, number};
ghost use Rattle.json_exact.specs.Text.{text};
ghost use Rattle.json_traits.specs.Numbers.{decimal_in, IsValue};

use crate::has_tree::HasTree;
use crate::types::number_is_integer;
use json_exact::{Number, OutOfMemory};
use std::alloc::Global;
use std::borrow::CowStr;

/// A number of JSON: its exact value, and the fraction digits that it is written with. Only `as_str` takes memory.
/// `to_number` is what a number must have; the other calls answer from it.
pub trait JsonNumber: Copy + HasTree {
    /// The value where it is whole, not negative and below 2^64, as 1 is of `1.0`.
    fn as_u64(&self) -> Option<u64>
        ensures { (n : ℕ) → n < 2 ^ 64 → ((result ≡ Some n) ↔ IsValue (pos n) (decimal_in (Self.tree self.now))) }
    {
        self.to_number().decimal().to_u64()
    }

    /// The value where it is whole, at least -2^63 and below 2^63.
    fn as_i64(&self) -> Option<i64>
        ensures { (z : ℤ) → FitsSigned w64 z → ((result ≡ Some z) ↔ IsValue z (decimal_in (Self.tree self.now))) }
    {
        self.to_number().decimal().to_i64()
    }

    /// The number in decimal notation, with the fraction digits that it is written with and no exponent.
    fn as_str(&self, alloc: Global) -> Result<CowStr<'_>, OutOfMemory>
        ensures { IfOk result (λ s. cow_str_bytes s ≡ text (decimal_in (Self.tree self.now))) }
    {
        Ok(CowStr::Owned(self.to_number().to_text(alloc)?))
    }

    /// The value and the written fraction digits.
    fn to_number(&self) -> Number
        ensures { Self.tree self.now ≡ scalar (number result) };

    /// Whether the value is whole, as that of `1.0` is.
    fn is_integer(&self) -> bool
        ensures { IsTrue result ↔ IsWhole (decimal_in (Self.tree self.now)) }
    {
        number_is_integer(&self.to_number())
    }

    /// Whether no fraction digits are written: so of `1` and of `1e2`, and not of `1.0`.
    fn is_written_as_integer(&self) -> bool
        ensures { IsTrue result ↔ ((decimal_in (Self.tree self.now)).places ≡ 0) }
    {
        self.to_number().fraction_digits() == 0
    }
}

impl JsonNumber for Number {
    fn to_number(&self) -> Number {
        *self
    }
}
