//! The members of an object.

ghost use Rattle.jsonb.specs.inner.Values.{members_at, AreJsonMembers};
ghost use Rattle.jsonb.specs.inner.Views.{place};

use crate::items::Items;
use crate::node::JsonbNode;
use crate::place::Place;
use crate::scalar::text_of;
use crate::walk::next_item;

/// The members that are left of an object, in key order: where their keys begin, and their values.
#[derive(Drop)]
pub struct JsonbMembers<'a> {
    pub(crate) keys: Place<'a>,
    pub(crate) values: Items<'a>,
    ghost stands: { AreJsonMembers (members_at values.count (place keys) (place values.start)) },
}

impl<'a> Iterator for JsonbMembers<'a> {
    type Item = (&'a str, JsonbNode<'a>);

    ghost use Rattle.std.specs.Iterator.{YieldsFirstBy, item_count};
    ghost use Rattle.jsonb.specs.Seated.{members_left, member_seat};

    ghost next_gives = { YieldsFirstBy member_seat members_left };

    ghost remaining = { item_count members_left };

    fn next(&mut self) -> Option<(&'a str, JsonbNode<'a>)> {
        let left = self.values;
        if left.count == 0 {
            return None;
        }
        let Some((key, keys)) = next_item(self.keys) else {
            unreachable!()
        };
        let Some((item, start)) = next_item(left.start) else {
            unreachable!()
        };
        let name = text_of(key.piece());
        let node = left.node(item);
        *self = JsonbMembers {
            keys,
            values: Items {
                count: left.count - 1,
                payload: left.payload,
                start,
            },
        };
        Some((name, node))
    }
}
