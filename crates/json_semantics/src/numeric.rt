//! A number compared with a limit: by value, whatever fraction digits are written.

ghost use Rattle.std.specs.Prelude.{◌↔◌, IsTrue};
ghost use Rattle.json_model.specs.Decimal.{IsBelow, IsSameValue};
ghost use Rattle.json_exact.specs.Exact.{exactly};
ghost use Rattle.json_semantics.specs.Bounds.{IsAtMost};
ghost use Rattle.json_traits.specs.Numbers.{decimal_in};

use json_exact::Decimal;
use json_traits::JsonNumber;

/// Whether a number is at least a limit.
pub fn ge<N: JsonNumber>(value: &N, limit: Decimal) -> bool
    ensures { IsTrue result ↔ IsAtMost (exactly limit) (decimal_in (N.tree value.now)) }
{
    value.to_number().decimal() >= limit
}

/// Whether a number is at most a limit.
pub fn le<N: JsonNumber>(value: &N, limit: Decimal) -> bool
    ensures { IsTrue result ↔ IsAtMost (decimal_in (N.tree value.now)) (exactly limit) }
{
    value.to_number().decimal() <= limit
}

/// Whether a number is above a limit.
pub fn gt<N: JsonNumber>(value: &N, limit: Decimal) -> bool
    ensures { IsTrue result ↔ IsBelow (exactly limit) (decimal_in (N.tree value.now)) }
{
    value.to_number().decimal() > limit
}

/// Whether a number is below a limit.
pub fn lt<N: JsonNumber>(value: &N, limit: Decimal) -> bool
    ensures { IsTrue result ↔ IsBelow (decimal_in (N.tree value.now)) (exactly limit) }
{
    value.to_number().decimal() < limit
}

/// Whether a number has the value of a limit.
pub fn eq<N: JsonNumber>(value: &N, limit: Decimal) -> bool
    ensures { IsTrue result ↔ IsSameValue (decimal_in (N.tree value.now)) (exactly limit) }
{
    value.to_number().decimal() == limit
}
