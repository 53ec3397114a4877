//! `ValueObject`: the members of a map, as those of an object.

ghost use Rattle.std.specs.Prelude.{◌≡◌};
ghost use Rattle.json_model.specs.Parts.{members_from};
ghost use Rattle.json_model.specs.Tree.{object};
ghost use Rattle.json_exact.specs.Trees.{pairs};
ghost use Rattle.json_semantics.specs.Trees.{object_tree};

use crate::members::SerdeMembersIter;
use crate::node::ValueNode;
use json_exact::Map;
use json_traits::{HasTree, Object};

/// A JSON object whose members stand in memory.
#[derive(Clone, Copy)]
pub struct ValueObject<'a> {
    members: &'a Map,
}

impl<'a> ValueObject<'a> {
    /// The object with the members of a map.
    pub fn new(map: &'a Map) -> Self
        ensures { object_tree result ≡ object (members_from (pairs map.now)) }
    {
        ValueObject { members: map }
    }
}

impl HasTree for ValueObject<'_> {
    ghost tree = { object_tree };
}

#[tactic(auto, using(json_model::proofs::KindLaws::pairs_in_from))]
impl<'a> Object<'a> for ValueObject<'a> {
    type Node = ValueNode<'a>;

    type MembersIter = SerdeMembersIter<'a>;

    type Key = String;

    fn len(&self) -> usize {
        self.members.len()
    }

    fn is_empty(&self) -> bool {
        self.members.is_empty()
    }

    fn members(&self) -> SerdeMembersIter<'a> {
        SerdeMembersIter::new(self.members)
    }

    fn get(&self, key: &String) -> Option<ValueNode<'a>> {
        self.get_named(key.as_str())
    }

    fn get_named(&self, name: &str) -> Option<ValueNode<'a>> {
        Some(ValueNode::new(self.members.get(name)?))
    }
}
