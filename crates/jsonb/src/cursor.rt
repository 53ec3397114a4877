//! The elements of an array.

ghost use Rattle.jsonb.specs.inner.Values.{array_at, IsJsonTree};
ghost use Rattle.jsonb.specs.inner.Views.{place};

use crate::items::Items;
use crate::node::JsonbNode;
use crate::walk::next_item;

/// The elements that are left of an array, in order. Each entry is walked once.
#[derive(Drop)]
pub struct Cursor<'a> {
    pub(crate) left: Items<'a>,
    ghost stands: { IsJsonTree (array_at left.count (place left.start)) },
}

impl<'a> Iterator for Cursor<'a> {
    type Item = JsonbNode<'a>;

    ghost use Rattle.std.specs.Iterator.{YieldsFirstBy, item_count};
    ghost use Rattle.jsonb.specs.Seated.{node_seat, seats_left};

    ghost next_gives = { YieldsFirstBy node_seat seats_left };

    ghost remaining = { item_count seats_left };

    fn next(&mut self) -> Option<JsonbNode<'a>> {
        let left = self.left;
        if left.count == 0 {
            return None;
        }
        let Some((item, start)) = next_item(left.start) else {
            unreachable!()
        };
        let node = left.node(item);
        *self = Cursor {
            left: Items {
                count: left.count - 1,
                payload: left.payload,
                start,
            },
        };
        Some(node)
    }
}
