//! `Object`: the members of an object, whatever holds it.

ghost use Rattle.std.specs.Prelude.{◌≡◌, ◌↔◌, [], length, map, option_map, true, IsTrue};
ghost use Rattle.std.specs.Iterator.{IsFinite};
ghost use Rattle.json_model.specs.Keys.{rises};
ghost use Rattle.json_model.specs.Parts.{lookup, pairs_of};
ghost use Rattle.json_traits.specs.Gives.{Gives};

use crate::has_name::HasName;
use crate::has_tree::HasTree;

/// A JSON object: its members in key order, a shorter key first, and of two of one length the one with the lower byte where
/// they first differ. No call takes memory.
pub trait Object<'a>: Copy + HasTree {
    /// What stands for a member's value.
    type Node: Copy + HasTree;
    /// The iterator over the members. What it gives after the end is its own.
    type MembersIter: Iterator<Item = (&'a str, Self::Node)> + Drop;
    /// A key that is looked up often, made ready once.
    type Key: HasName + Drop;

    /// How many members there are.
    fn len(&self) -> usize
        ensures { result ≡ length (pairs_of (Self.tree self.now)) };

    /// Whether there are none.
    fn is_empty(&self) -> bool
        ensures { IsTrue result ↔ (pairs_of (Self.tree self.now) ≡ []) };

    /// The members, as pairs of a key and what stands for the value under it, in key order, and then the end. Callers stop
    /// there: nothing is said of calls after the end.
    fn members(&self) -> Self::MembersIter
        ensures can { Self.MembersIter.can_next result }
        ensures ends { IsFinite (Self.MembersIter.remaining result) }
        ensures gives { Gives Self.MembersIter.next_gives (λ p. (p.0.now, Self.Node.tree p.1)) result (pairs_of (Self.tree self.now)) }
        ensures rise { rises (map (λ p. p.0) (pairs_of (Self.tree self.now))) ≡ true };

    /// The value under a prepared key, if there is one.
    fn get(&self, key: &Self::Key) -> Option<Self::Node>
        ensures { option_map Self.Node.tree result ≡ lookup (Self.Key.name key.now) (pairs_of (Self.tree self.now)) };

    /// The value under a key, if there is one.
    fn get_named(&self, name: &str) -> Option<Self::Node>
        ensures { option_map Self.Node.tree result ≡ lookup name.now (pairs_of (Self.tree self.now)) };
}
