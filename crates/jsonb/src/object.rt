//! An object in a slice.

ghost use Rattle.jsonb.specs.inner.Values.{object_at, IsJsonTree};
ghost use Rattle.jsonb.specs.inner.Views.{place};

use crate::items::Items;
use crate::key::JsonbKey;
use crate::lookup::get_in;
use crate::members::JsonbMembers;
use crate::node::JsonbNode;
use crate::walk::pass;
use json_traits::{HasTree, Object};
use jsonb_layout::Form;
use std::marker::Brand;
use std::sync::ledger::Blank;

/// An object in a slice: its keys, behind which its values come. It borrows the slice.
#[derive(Clone, Copy)]
pub struct JsonbObject<'a> {
    pub(crate) keys: Items<'a>,
    ghost stands: { IsJsonTree (object_at keys.count (place keys.start)) },
}

impl<'a> JsonbObject<'a> {
    ghost use Rattle.std.specs.Prelude.{◌≡◌, ◌+◌, ◌<◌, ◌^◌, length, map, option_map, IfSome};
    ghost use Rattle.json_model.specs.Parts.{if_object, pairs_of};
    ghost use Rattle.jsonb_layout.specs.Seats.{AreHeld};
    ghost use Rattle.jsonb_layout.specs.inner.Trees.{read};
    ghost use Rattle.jsonb.specs.Nodes.{object_tree};
    ghost use Rattle.jsonb.specs.Seated.{member_tree, object_seats, values_of};
    ghost use Rattle.jsonb.specs.inner.Values.{or_null};

    /// The object that a container is, if it is one. The container begins at `begin` in the root's slice.
    pub(crate) fn of(begin: usize, bytes: &'a [u8]) -> Option<JsonbObject<'a>>
        requires json { IsJsonTree (read bytes.now) }
        requires room { begin + length bytes.now < 2 ^ 64 }
        ensures tree { option_map object_tree result ≡ if_object (or_null (read bytes.now)) }
        ensures held { IfSome result
            (λ o. AreHeld (record { at = begin; kind = 5; bytes = bytes.now })
            (values_of (object_seats o))) }
        ensures pairs { IfSome result
            (λ o. map member_tree (object_seats o) ≡ pairs_of (object_tree o)) }
    {
        let Some((form, keys)) = Items::of(begin, bytes) else {
            unreachable!()
        };
        match form {
            Form::Object => Some(JsonbObject { keys }),
            Form::Array => None,
            Form::Lone => unreachable!(),
        }
    }
}

impl HasTree for JsonbObject<'_> {
    ghost use Rattle.jsonb.specs.Nodes.{object_tree};

    ghost tree = { object_tree };
}

#[tactic(auto, using(crate::proofs::MemberLaws::object_length))]
impl<'a> Object<'a> for JsonbObject<'a> {
    ghost use Rattle.std.specs.Prelude.{◌≡◌, ◌<◌, ◌^◌, length, map, option_map, true};
    ghost use Rattle.std.specs.Iterator.{YieldsFirstBy, item_count, IsFinite};
    ghost use Rattle.json_model.specs.Keys.{rises};
    ghost use Rattle.json_model.specs.Parts.{pairs_of};
    ghost use Rattle.json_model.specs.Parts.{lookup};
    ghost use Rattle.jsonb.specs.Lookup.{key_name};
    ghost use Rattle.jsonb.specs.Nodes.{object_tree, node_tree};
    ghost use Rattle.jsonb.specs.Seated.{members_left, member_seat, member_tree, object_seats, node_seat};
    ghost use Rattle.json_traits.specs.Gives.{Gives};

    type Node = JsonbNode<'a>;

    type MembersIter = JsonbMembers<'a>;

    type Key = JsonbKey;

    fn len(&self) -> usize {
        self.keys.count
    }

    #[tactic(auto, using(crate::proofs::MemberLaws::object_length, crate::proofs::MemberLaws::empty_if))]
    fn is_empty(&self) -> bool {
        self.keys.count == 0
    }

    fn members(&self) -> JsonbMembers<'a>
        ensures ends { IsFinite (item_count members_left result) }
        ensures gives { Gives (YieldsFirstBy member_seat members_left)
            (λ p. (p.0.now, node_tree p.1)) result (pairs_of (object_tree self.now)) }
        ensures seats { members_left result ≡ object_seats self.now }
        ensures pairs { map member_tree (object_seats self.now) ≡ pairs_of (object_tree self.now) }
        ensures rise { rises (map (λ p. p.0) (pairs_of (object_tree self.now))) ≡ true }
        ensures few { length (pairs_of (object_tree self.now)) < 2 ^ 60 }
    {
        let Some(start) = pass(self.keys.count, self.keys.start) else {
            unreachable!()
        };
        JsonbMembers {
            keys: self.keys.start,
            values: Items {
                count: self.keys.count,
                payload: self.keys.payload,
                start,
            },
        }
    }

    fn get(&self, key: &JsonbKey) -> Option<JsonbNode<'a>>
        ensures found { option_map node_tree result
            ≡ lookup (key_name key.now) (pairs_of (object_tree self.now)) }
        ensures seat { option_map node_seat result
            ≡ lookup (key_name key.now) (object_seats self.now) }
    {
        get_in::<Brand>(self, key.bytes(), Blank::new(1))
    }

    fn get_named(&self, name: &str) -> Option<JsonbNode<'a>>
        ensures found { option_map node_tree result
            ≡ lookup name.now (pairs_of (object_tree self.now)) }
        ensures seat { option_map node_seat result ≡ lookup name.now (object_seats self.now) }
    {
        get_in::<Brand>(self, name.as_bytes(), Blank::new(1))
    }
}
