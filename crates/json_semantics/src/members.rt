//! `SerdeMembersIter`: the members of an object, one after another.

ghost use Rattle.std.specs.Prelude.{◌≡◌, map, true};
ghost use Rattle.std.specs.Iterator.{YieldsFirstBy, item_count};
ghost use Rattle.json_model.specs.Keys.{rises};
ghost use Rattle.json_exact.specs.Trees.{pairs};
ghost use Rattle.json_semantics.specs.Iteration.{member_pair, members_left};

use crate::node::ValueNode;
use json_exact::{Map, MapIter};

/// The members that are left of an object, as pairs of a key and the node of the value under it, in key order.
#[derive(Drop)]
pub struct SerdeMembersIter<'a> {
    members: MapIter<'a>,
}

impl<'a> SerdeMembersIter<'a> {
    pub(crate) fn new(source: &'a Map) -> Self
        ensures left { members_left result ≡ pairs source.now }
        ensures rise { rises (map (λ p. p.0) (pairs source.now)) ≡ true }
    {
        SerdeMembersIter {
            members: source.iter(),
        }
    }
}

impl<'a> Iterator for SerdeMembersIter<'a> {
    type Item = (&'a str, ValueNode<'a>);

    ghost next_gives = { YieldsFirstBy member_pair members_left };

    ghost remaining = { item_count members_left };

    fn next(&mut self) -> Option<(&'a str, ValueNode<'a>)> {
        let (key, value) = self.members.next()?;
        Some((key, ValueNode::new(value)))
    }
}
