//! Which numbers are integers.

ghost use Rattle.std.specs.Prelude.{◌↔◌, IsTrue};
ghost use Rattle.json_model.specs.Decimal.{IsWhole};

use json_exact::Number;

/// Whether the value of a number is whole, as those of `1` and `1.0` are.
pub fn number_is_integer(n: &Number) -> bool
    ensures { IsTrue result ↔ IsWhole n.now }
{
    n.decimal().is_integer()
}
