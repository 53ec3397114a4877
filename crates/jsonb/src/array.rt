//! An array in a slice.

ghost use Rattle.jsonb.specs.inner.Values.{array_at, IsJsonTree};
ghost use Rattle.jsonb.specs.inner.Views.{place};

use crate::cursor::Cursor;
use crate::items::Items;
use crate::node::JsonbNode;
use json_exact::OutOfMemory;
use json_traits::{Array, HasTree};
use jsonb_layout::Form;
use std::alloc::Global;

/// An array in a slice: its items. It borrows the slice.
#[derive(Clone, Copy)]
pub struct JsonbArray<'a> {
    pub(crate) elements: Items<'a>,
    ghost stands: { IsJsonTree (array_at elements.count (place elements.start)) },
}

impl<'a> JsonbArray<'a> {
    ghost use Rattle.std.specs.Prelude.{◌≡◌, ◌+◌, ◌<◌, ◌^◌, length, map, option_map, IfSome};
    ghost use Rattle.json_model.specs.Parts.{elements_of, if_array};
    ghost use Rattle.jsonb_layout.specs.Seats.{AreHeld};
    ghost use Rattle.jsonb_layout.specs.inner.Trees.{read};
    ghost use Rattle.jsonb.specs.Nodes.{array_tree};
    ghost use Rattle.jsonb.specs.Seated.{array_seats, seat_tree};
    ghost use Rattle.jsonb.specs.inner.Values.{or_null};

    /// The array that a container is, if it is one. The container begins at `begin` in the root's slice.
    pub(crate) fn of(begin: usize, bytes: &'a [u8]) -> Option<JsonbArray<'a>>
        requires json { IsJsonTree (read bytes.now) }
        requires room { begin + length bytes.now < 2 ^ 64 }
        ensures tree { option_map array_tree result ≡ if_array (or_null (read bytes.now)) }
        ensures held { IfSome result
            (λ a. AreHeld (record { at = begin; kind = 5; bytes = bytes.now }) (array_seats a)) }
        ensures trees { IfSome result
            (λ a. map seat_tree (array_seats a) ≡ elements_of (array_tree a)) }
    {
        let Some((form, elements)) = Items::of(begin, bytes) else {
            unreachable!()
        };
        match form {
            Form::Array => Some(JsonbArray { elements }),
            Form::Object => None,
            Form::Lone => unreachable!(),
        }
    }
}

impl HasTree for JsonbArray<'_> {
    ghost use Rattle.jsonb.specs.Nodes.{array_tree};

    ghost tree = { array_tree };
}

#[tactic(auto, using(crate::proofs::MemberLaws::array_length))]
impl<'a> Array<'a> for JsonbArray<'a> {
    ghost use Rattle.std.specs.Prelude.{◌≡◌, map};
    ghost use Rattle.std.specs.Iterator.{YieldsFirstBy, item_count, IsFinite};
    ghost use Rattle.json_model.specs.Parts.{elements_of};
    ghost use Rattle.jsonb.specs.Nodes.{array_tree, node_tree};
    ghost use Rattle.jsonb.specs.Seated.{array_seats, node_seat, seat_tree, seats_left};
    ghost use Rattle.json_traits.specs.Gives.{Gives};

    type Node = JsonbNode<'a>;

    type ElementsIter = Cursor<'a>;

    fn len(&self) -> usize {
        self.elements.count
    }

    fn elements(&self) -> Cursor<'a>
        ensures ends { IsFinite (item_count seats_left result) }
        ensures gives { Gives (YieldsFirstBy node_seat seats_left) node_tree result
            (elements_of (array_tree self.now)) }
        ensures seats { seats_left result ≡ array_seats self.now }
        ensures trees { map seat_tree (array_seats self.now) ≡ elements_of (array_tree self.now) }
    {
        Cursor {
            left: self.elements,
        }
    }

    /// By review, up to 15 elements are compared each with each; from 16 on an element is compared with those alone that have its number, so
    /// elements that were chosen to share a number make it slow. It takes memory for the elements and their numbers, and for the
    /// nesting of those that it looks at, and no stack.
    fn is_unique(&self, alloc: Global) -> Result<bool, OutOfMemory> {
        json_elements::is_unique::<JsonbNode>(alloc, self.elements())
    }
}
