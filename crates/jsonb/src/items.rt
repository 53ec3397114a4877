//! The items of a container, as they lie in the root's slice.

ghost use Rattle.std.specs.Prelude.{◌+◌, ◌<◌, ◌≤◌, ◌^◌, length};

use crate::item::Item;
use crate::node::JsonbNode;
use crate::nodes::node_of;
use crate::opening::open;
use crate::place::Place;
use jsonb_layout::Form;

/// So many items of a container, from a place on, and where the payload begins in the root's slice.
#[derive(Clone, Copy)]
pub struct Items<'a> {
    pub count: usize,
    pub payload: usize,
    pub start: Place<'a>,
    ghost words: { length start.words.now ≤ payload },
    ghost room: { payload + (start.at + length start.rest.now) < 2 ^ 64 },
}

impl<'a> Items<'a> {
    ghost use Rattle.std.specs.Prelude.{◌≡◌, Some, option_map, IfSome};
    ghost use Rattle.jsonb_layout.specs.inner.Reading.{opened, item_at};
    ghost use Rattle.jsonb_layout.specs.inner.SeatReading.{seat_at};
    ghost use Rattle.jsonb_layout.specs.inner.Trees.{item_tree};
    ghost use Rattle.jsonb.specs.Nodes.{node_tree};
    ghost use Rattle.jsonb.specs.Seated.{node_seat};
    ghost use Rattle.jsonb.specs.inner.Values.{IsJsonTree};
    ghost use Rattle.jsonb.specs.inner.Views.{place, form_then_place};

    /// The items of a container that begins at `begin` in the root's slice, and its form.
    pub fn of(begin: usize, bytes: &'a [u8]) -> Option<(Form, Items<'a>)>
        requires { begin + length bytes.now < 2 ^ 64 }
        ensures read { option_map form_then_place result ≡ opened bytes.entry.now }
        ensures payload { IfSome result
            (λ r. r.1.payload ≡ begin + 4 + length r.1.start.words.now) }
    {
        let opened = open(bytes)?;
        let items = Items {
            count: opened.count,
            payload: begin + 4 + opened.start.words.len(),
            start: opened.start,
        };
        Some((opened.form, items))
    }

    /// The node of the first item, which was read before. Nothing is validated again.
    pub fn node(&self, item: Item<'a>) -> JsonbNode<'a>
        requires first { option_map (λ x. x.0) (item_at (place self.now.start)) ≡ Some item }
        requires stands { IsJsonTree (item_tree self.now.start.at item) }
        ensures tree { Some (node_tree result) ≡ item_tree self.now.start.at item.entry }
        ensures seat { node_seat result
            ≡ seat_at self.now.payload (place self.now.start) item.entry }
    {
        let word_begin = self.payload - self.start.words.len();
        node_of(
            word_begin,
            self.payload + self.start.at,
            self.start.at,
            item,
        )
    }
}
