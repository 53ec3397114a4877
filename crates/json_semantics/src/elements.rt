//! `ValueElements`: the elements of an array, one after another.

ghost use Rattle.std.specs.Prelude.{◌≡◌, map};
ghost use Rattle.std.specs.Iterator.{YieldsFirstBy, item_count};
ghost use Rattle.json_exact.specs.Trees.{tree};
ghost use Rattle.json_semantics.specs.Iteration.{elements_left};
ghost use Rattle.json_semantics.specs.Trees.{node_tree};

use crate::node::ValueNode;
use json_exact::Value;

/// The nodes of the elements that are left of an array, in order.
#[derive(Drop)]
pub struct ValueElements<'a> {
    rest: &'a [Value],
}

impl<'a> ValueElements<'a> {
    pub(crate) fn new(rest: &'a [Value]) -> Self
        ensures { elements_left result ≡ map tree rest.now }
    {
        ValueElements { rest }
    }
}

impl<'a> Iterator for ValueElements<'a> {
    type Item = ValueNode<'a>;

    ghost next_gives = { YieldsFirstBy node_tree elements_left };

    ghost remaining = { item_count elements_left };

    fn next(&mut self) -> Option<ValueNode<'a>> {
        let (first, rest) = self.rest.split_first()?;
        self.rest = rest;
        Some(ValueNode::new(first))
    }
}
