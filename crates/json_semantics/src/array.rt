//! `ValueArray`: a slice of values, as an array.

ghost use Rattle.std.specs.Prelude.{◌≡◌, map};
ghost use Rattle.json_model.specs.Parts.{elements_from};
ghost use Rattle.json_model.specs.Tree.{array};
ghost use Rattle.json_exact.specs.Trees.{tree};
ghost use Rattle.json_semantics.specs.Trees.{array_tree};

use crate::elements::ValueElements;
use crate::node::ValueNode;
use crate::unique::is_unique;
use json_exact::{OutOfMemory, Value};
use json_traits::{Array, HasTree};
use std::alloc::Global;

/// A JSON array whose elements stand in memory.
#[derive(Clone, Copy)]
pub struct ValueArray<'a> {
    elements: &'a [Value],
}

impl<'a> ValueArray<'a> {
    /// The array of a slice of values.
    pub fn new(items: &'a [Value]) -> Self
        ensures { array_tree result ≡ array (elements_from (map tree items.now)) }
    {
        ValueArray { elements: items }
    }
}

impl HasTree for ValueArray<'_> {
    ghost tree = { array_tree };
}

impl<'a> Array<'a> for ValueArray<'a> {
    type Node = ValueNode<'a>;

    type ElementsIter = ValueElements<'a>;

    fn len(&self) -> usize {
        self.elements.len()
    }

    fn elements(&self) -> ValueElements<'a> {
        ValueElements::new(self.elements)
    }

    fn is_unique(&self, alloc: Global) -> Result<bool, OutOfMemory> {
        is_unique(alloc, self.elements)
    }
}
