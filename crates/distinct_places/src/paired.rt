//! Each place is compared with each.

ghost use Rattle.std.specs.Prelude.{◌≤◌, ◌<◌, ◌↔◌, IsTrue, IfOk};
ghost use Rattle.distinct_places.specs.Apart.{AreApart, IsApart};

use crate::places::Places;
use std::alloc::AllocError;

/// Whether no place before `place` holds the same as it.
fn is_apart<P: Places>(places: &P, place: usize) -> Result<bool, AllocError>
    requires { place < P.count places.now }
    ensures { IfOk result (λ b. IsTrue b ↔ IsApart (P.same places.now) place) }
{
    for before in 0..place {
        if places.hold_same(before, place)? {
            return Ok(false);
        }
    }
    Ok(true)
}

/// Whether no two of the first `count` places hold the same. It compares each with each.
pub fn are_apart<P: Places>(places: &P, count: usize) -> Result<bool, AllocError>
    requires { count ≤ P.count places.now }
    ensures { IfOk result (λ b. IsTrue b ↔ AreApart (P.same places.now) count) }
{
    for place in 0..count {
        if !is_apart(places, place)? {
            return Ok(false);
        }
    }
    Ok(true)
}
