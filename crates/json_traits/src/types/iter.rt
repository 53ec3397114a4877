//! The types of a set in order.

use crate::types::json_type::JsonType;
use crate::types::set::JsonTypeSet;

/// The types that are left of a set, in order.
#[derive(Debug, Drop)]
pub struct JsonTypeSetIterator {
    pub(crate) set: JsonTypeSet,
}

impl Iterator for JsonTypeSetIterator {
    type Item = JsonType;

    ghost use Rattle.std.specs.Prelude.{◌≡◌, Some, length, IfSome};
    ghost use Rattle.std.specs.Iterator.{YieldsFirst, UpTo, at_most, item_count};
    ghost use Rattle.std.specs.Iterator.SizeHint.{IsWithinCount};
    ghost use Rattle.json_traits.specs.Iteration.{left};

    ghost next_gives = { YieldsFirst left };

    ghost remaining = { item_count left };

    fn next(&mut self) -> Option<JsonType> {
        let ty = self.set.first()?;
        self.set = self.set.remove(ty);
        Some(ty)
    }

    fn size_hint(&self) -> (usize, Option<usize>)
        ensures lower { IsWithinCount result.0 (at_most (length (left self.now))) }
        ensures upper { IfSome result.1 (UpTo (at_most (length (left self.now)))) }
        ensures value { result ≡ (length (left self.now), Some (length (left self.now))) }
    {
        let count = self.set.len();
        (count, Some(count))
    }
}

impl ExactSizeIterator for JsonTypeSetIterator {
    fn len(&self) -> usize {
        self.set.len()
    }
}
