//! What holds of all types and of all sets of types.

ghost use Rattle.std.specs.Prelude.{◌≡◌, ◌↔◌, IsTrue};
ghost use Rattle.std.specs.Ordering.{nat_cmp};
ghost use Rattle.json_traits.specs.Sets.{holds};
ghost use Rattle.json_traits.specs.Weights.{same, weight};

use crate::types::json_type::JsonType;
use crate::types::set::JsonTypeSet;
use std::cmp::Ordering;

/// Two sets are equal exactly where they hold the same types, however they came about.
pub fn equal_sets_hold_the_same_types(a: JsonTypeSet, b: JsonTypeSet) -> bool
    ensures { IsTrue result ↔ ((ty : JsonType) → holds a ty ≡ holds b ty) }
{
    a == b
}

/// Types are in the order of their weights, from 1 for null up to 64 for an object, and no two types have one weight.
pub fn types_are_in_the_order_of_their_weights(a: JsonType, b: JsonType) -> Ordering
    ensures order { result ≡ nat_cmp (weight a) (weight b) }
    ensures apart { IsTrue (same a b) ↔ (a ≡ b) }
{
    a.cmp(&b)
}
