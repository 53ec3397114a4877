//! Values in a slice as elements, and their numbers.

ghost use Rattle.std.specs.Prelude.{◌≡◌, map, IfOk};
ghost use Rattle.json_elements.specs.Number.{element_number};
ghost use Rattle.jsonb.specs.Nodes.{node_tree};
ghost use Rattle.jsonb.specs.Seated.{member_tree, members_left, seat_tree, seats_left};

use crate::cursor::Cursor;
use crate::members::JsonbMembers;
use crate::node::JsonbNode;
use json_elements::{Element, Parts};
use json_exact::OutOfMemory;
use json_traits::{Array, JsonNumber, Node, Object};
use std::alloc::Global;

impl<'a> Element<'a> for JsonbNode<'a> {
    type Elements = Cursor<'a>;

    type Members = JsonbMembers<'a>;

    ghost trees = { λ c. map seat_tree (seats_left c) };

    ghost pairs = { λ m. map member_tree (members_left m) };

    fn parts(&self) -> Parts<'a, Cursor<'a>, JsonbMembers<'a>> {
        if let Some(number) = self.as_number() {
            return Parts::Number(number.to_number());
        }
        if let Some(text) = self.as_string() {
            return Parts::Text(text);
        }
        if let Some(array) = self.as_array() {
            return Parts::Array(array.elements());
        }
        if let Some(object) = self.as_object() {
            return Parts::Object(object.members());
        }
        match self.as_boolean() {
            Some(truth) => Parts::Boolean(truth),
            None => Parts::Null,
        }
    }

    fn next_element(elements: &mut Cursor<'a>) -> Option<JsonbNode<'a>> {
        elements.next()
    }

    fn next_member(members: &mut JsonbMembers<'a>) -> Option<(&'a str, JsonbNode<'a>)> {
        members.next()
    }
}

/// The number of a value in a slice. Equal values have the same number, and so has an equal value in memory. It takes memory for the
/// nesting alone, and no stack.
pub fn element_hash(alloc: Global, node: &JsonbNode<'_>) -> Result<u64, OutOfMemory>
    ensures { IfOk result (λ n. n ≡ element_number (node_tree node.now)) }
{
    json_elements::element_number(alloc, node)
}
