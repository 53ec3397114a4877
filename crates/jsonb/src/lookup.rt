//! The search for a key among the keys of an object.

ghost use Rattle.std.specs.Prelude.{◌≡◌, ℕ, ◌+◌, ◌*◌, ◌^◌, ◌<◌, ◌≤◌, length, bytes_eq, None, IsSome, option_map};
ghost use Rattle.json_model.specs.Parts.{lookup, pairs_of};
ghost use Rattle.jsonb.specs.Nodes.{node_tree, object_tree};
ghost use Rattle.jsonb.specs.Seated.{node_seat, object_seats};
ghost use Rattle.jsonb_layout.specs.inner.Reading.{keys_at};
ghost use Rattle.jsonb.specs.inner.Keys.{behind_key, AreFew};
ghost use Rattle.jsonb.specs.inner.Views.{place};

use crate::items::Items;
use crate::keys::comes_before;
use crate::leap::leap;
use crate::node::JsonbNode;
use crate::object::JsonbObject;
use crate::place::Place;
use crate::steps::Steps;
use crate::walk::next_item_counted;
use std::sync::ledger::{Blank, Ledger};

fn is_same(a: &[u8], b: &[u8]) -> bool
    ensures { result ≡ bytes_eq a.now b.now }
{
    a == b
}

/// Where the key ends among so many that rise, or none where it is none of them. Each step halves what is left.
fn find_key<'a, L: Ledger>(
    count: usize,
    start: Place<'a>,
    key: &[u8],
    steps: &mut Steps<L>,
) -> Option<Place<'a>>
    requires keys { IsSome (keys_at count None (place start)) }
    ensures read { option_map place result ≡ behind_key key.now count (place start.entry) }
    ensures rise { steps.old ≤ steps.new }
    ensures few { AreFew count steps.old steps.new }
    ensures some { 0 < count → steps.old < steps.new }
{
    let mut first = start;
    let mut size = count;
    while size > 0 {
        let half = size / 2;
        let middle = leap(half, first, steps);
        let Some((item, behind)) = next_item_counted(middle, steps) else {
            unreachable!()
        };
        if is_same(key, item.piece()) {
            return Some(behind);
        }
        if comes_before(item.piece(), key) {
            first = behind;
            size -= half + 1;
        } else {
            size = half;
        }
    }
    None
}

impl<'a> JsonbObject<'a> {
    /// The value under a key, if there is one, and a step for each entry word that is read. Of n members it reads at most
    /// 33 p + 34 entry words, for a number p with 2^p at most 2 n + 1. It takes no memory.
    pub fn get_counted<L: Ledger>(&self, key: &[u8], steps: &mut Steps<L>) -> Option<JsonbNode<'a>>
        ensures found { option_map node_tree result
            ≡ lookup key.now (pairs_of (object_tree self.now)) }
        ensures seat { option_map node_seat result ≡ lookup key.now (object_seats self.now) }
        ensures rise { steps.old ≤ steps.new }
        ensures few { (p : ℕ) × (2 ^ p ≤ 2 * length (pairs_of (object_tree self.now)) + 1)
            × (steps.new ≤ steps.old + (33 * p + 34)) }
        ensures some { 0 < length (pairs_of (object_tree self.now)) → steps.old < steps.new }
    {
        let behind = find_key(self.keys.count, self.keys.start, key, steps)?;
        let start = leap(self.keys.count - 1, behind, steps);
        let Some((item, _)) = next_item_counted(start, steps) else {
            unreachable!()
        };
        let value = Items {
            count: 1,
            payload: self.keys.payload,
            start,
        };
        Some(value.node(item))
    }
}

/// The value under a key, if there is one. The steps that are counted are not kept.
pub fn get_in<'a, L: Ledger>(
    object: &JsonbObject<'a>,
    key: &[u8],
    blank: Blank,
) -> Option<JsonbNode<'a>>
    requires name { blank.name ≡ L.name }
    requires parts { blank.parts ≡ L.parts }
    requires some { 0 < blank.parts }
    ensures found { option_map node_tree result
        ≡ lookup key.now (pairs_of (object_tree object.now)) }
    ensures seat { option_map node_seat result ≡ lookup key.now (object_seats object.now) }
{
    let mut steps = Steps::<L>::new(blank);
    object.get_counted(key, &mut steps)
}
