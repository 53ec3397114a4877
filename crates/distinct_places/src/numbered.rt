//! A place is compared with those alone that have its number.

ghost use Rattle.std.specs.Prelude.{◌≡◌, ◌<◌, ◌↔◌, ℕ, Option, length, slice_index, slice_index_or, IsTrue, IfOk};
ghost use Rattle.distinct_places.specs.Apart.{AreApart, AreNumbered, IsApart};
ghost use Rattle.distinct_places.specs.inner.Newest.{IsNewest};

use crate::places::Places;
use std::alloc::{AllocError, Global};
use std::collections::HashMap;

/// Whether no place before `place` holds the same as it. Of those, `newest` is the newest that has its number, and `older` leads from
/// each to the one before it with the same number.
fn is_apart<P: Places>(
    places: &P,
    numbers: &[u64],
    older: &[Option<usize>],
    newest: Option<usize>,
    place: usize,
) -> Result<bool, AllocError>
    requires count { P.count places.now ≡ length numbers.now }
    requires numbered { AreNumbered (P.same places.now) numbers.now }
    requires within { place < length numbers.now }
    requires len { length older.now ≡ place }
    requires older { (j : ℕ) (d : Option ℕ) → j < place
        → IsNewest numbers.now j (slice_index numbers.now j) (slice_index_or older.now j d) }
    requires newest { IsNewest numbers.now place (slice_index numbers.now place) newest }
    ensures { IfOk result (λ b. IsTrue b ↔ IsApart (P.same places.now) place) }
{
    let mut cursor = newest;
    while let Some(before) = cursor {
        if places.hold_same(before, place)? {
            return Ok(false);
        }
        cursor = older[before];
    }
    Ok(true)
}

/// Whether no two places hold the same. Each place has a number, and places that hold the same have the same number. A place is
/// compared with those alone that share its number; where many do, this is slow.
pub fn are_apart_by_numbers<P: Places>(
    alloc: Global,
    places: &P,
    numbers: &[u64],
) -> Result<bool, AllocError>
    requires count { P.count places.now ≡ length numbers.now }
    requires numbered { AreNumbered (P.same places.now) numbers.now }
    ensures { IfOk result (λ b. IsTrue b ↔ AreApart (P.same places.now) (length numbers.now)) }
{
    let mut newest: HashMap<u64, usize> = HashMap::new(alloc);
    let mut older: Vec<Option<usize>> = Vec::with_capacity(alloc, numbers.len())?;
    for place in 0..numbers.len() {
        let before = match newest.insert(numbers[place], place) {
            Ok(before) => before,
            Err(_) => return Err(AllocError),
        };
        if !is_apart(places, numbers, &older, before, place)? {
            return Ok(false);
        }
        if older.push(before).is_err() {
            return Err(AllocError);
        }
    }
    Ok(true)
}
