//! `Number`: a decimal with the fraction digits that it is written with.

ghost use Rattle.std.specs.Prelude.{ℕ, ◌-◌, ◌*◌, ◌^◌, ◌≤◌, ◌≡◌, nat_abs};
ghost use Rattle.json_exact.specs.Exact.{IsWorth};

use crate::decimal::Decimal;
use std::marker::Model;

/// A decimal, and how many fraction digits it is written with: at most 16,383, and enough to write it exactly. `==`
/// compares both, so `1` and `1.0` differ.
#[derive(Clone, Copy, Debug)]
pub struct Number {
    decimal: Decimal,
    fraction_digits: u16,
}

impl Model for Number {
    ghost use Rattle.json_model.specs.Decimal.{Decimal as Written};

    ghost Value = { Written };

    ghost use Rattle.json_exact.specs.inner.NumberFields.{written_with, IsWrittenWith};
    ghost use Rattle.json_exact.specs.inner.NumberInverseLaws.{number_fields, number_fields-written_with};

    ghost view = { written_with };

    ghost invariant = { IsWrittenWith };

    ghost inverse = { number_fields };

    ghost inverse_ok = { number_fields-written_with };
}

impl Number {
    /// The decimal, written with so many fraction digits. The caller knows that they write it exactly.
    pub fn new(decimal: Decimal, fraction_digits: u16) -> Number
        requires few { fraction_digits ≤ 16383 }
        requires exact { (q : ℕ) × (nat_abs decimal ≡ q * 10 ^ (16383 - fraction_digits)) }
        ensures places { result.places ≡ fraction_digits }
        ensures worth { IsWorth decimal result }
    {
        Number {
            decimal,
            fraction_digits,
        }
    }

    /// The value, which forgets how many fraction digits are written.
    pub fn decimal(&self) -> Decimal
        ensures { IsWorth result self.now }
    {
        self.decimal
    }

    /// How many digits are written behind the point, zeros at the end too.
    pub fn fraction_digits(&self) -> u16
        ensures places { result ≡ self.now.places }
        ensures few { result ≤ 16383 }
    {
        self.fraction_digits
    }
}

impl PartialEq for Number {
    ghost use Rattle.std.specs.Ordering.{int_eq, on, eq_of_both};
    ghost use Rattle.std.specs.Prelude.{◌==◌};
    ghost use Rattle.std.proofs.Common.{rules};
    ghost use Rattle.std.specs.Cmp.Rules.{comparing};

    ghost eq = { eq_of_both (on (λ w. w.digits) int_eq) (on (λ w. w.places) ◌==◌) };

    ghost laws = { Prim.search (comparing, rules) };

    fn eq(&self, other: &Number) -> bool {
        self.fraction_digits == other.fraction_digits && self.decimal == other.decimal
    }
}

impl Eq for Number {
    ghost use Rattle.std.proofs.Common.{rules};
    ghost use Rattle.std.specs.Cmp.Rules.{comparing};

    ghost laws = { Prim.search (comparing, rules) };
}
