//! `MapIter`: the members of a map, one after another.

use crate::map::Member;
use crate::value::Value;

/// The members that are left of a map, as pairs of a key and the value under it, in key order.
#[derive(Drop)]
pub struct MapIter<'a> {
    pub(crate) members: &'a [Member],
}

impl<'a> Iterator for MapIter<'a> {
    type Item = (&'a str, &'a Value);

    ghost use Rattle.std.specs.Prelude.{◌≡◌, Some, length, IfSome};
    ghost use Rattle.std.specs.Iterator.{YieldsFirstBy, UpTo, at_most, item_count};
    ghost use Rattle.std.specs.Iterator.SizeHint.{IsWithinCount};
    ghost use Rattle.json_exact.specs.MapIteration.{item_pair, left};

    ghost next_gives = { YieldsFirstBy item_pair left };

    ghost remaining = { item_count left };

    fn next(&mut self) -> Option<(&'a str, &'a Value)> {
        let (first, rest) = self.members.split_first()?;
        self.members = rest;
        Some((first.key.as_str(), &first.value))
    }

    fn size_hint(&self) -> (usize, Option<usize>)
        ensures lower { IsWithinCount result.0 (at_most (length (left self.now))) }
        ensures upper { IfSome result.1 (UpTo (at_most (length (left self.now)))) }
        ensures value { result ≡ (length (left self.now), Some (length (left self.now))) }
    {
        let count = self.members.len();
        (count, Some(count))
    }
}

impl ExactSizeIterator for MapIter<'_> {
    fn len(&self) -> usize {
        self.members.len()
    }
}
