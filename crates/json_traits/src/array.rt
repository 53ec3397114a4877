//! `Array`: the elements of an array, whatever holds it.

ghost use Rattle.std.specs.Prelude.{◌≡◌, ◌↔◌, length, IsTrue, IfOk};
ghost use Rattle.std.specs.Iterator.{IsFinite};
ghost use Rattle.json_model.specs.Parts.{elements_of};
ghost use Rattle.json_model.specs.Same.{IsUnique};
ghost use Rattle.json_traits.specs.Gives.{Gives};

use crate::has_tree::HasTree;
use json_exact::OutOfMemory;
use std::alloc::Global;

/// A JSON array: its elements in order. No call but `is_unique` takes memory.
pub trait Array<'a>: Copy + HasTree {
    /// What stands for an element.
    type Node: Copy + HasTree;
    /// The iterator over the elements. What it gives after the end is its own.
    type ElementsIter: Iterator<Item = Self::Node> + Drop;

    /// How many elements there are.
    fn len(&self) -> usize
        ensures { result ≡ length (elements_of (Self.tree self.now)) };

    /// The elements, in order, and then the end. Callers stop there: nothing is said of calls after the end.
    fn elements(&self) -> Self::ElementsIter
        ensures can { Self.ElementsIter.can_next result }
        ensures ends { IsFinite (Self.ElementsIter.remaining result) }
        ensures gives { Gives Self.ElementsIter.next_gives Self.Node.tree result (elements_of (Self.tree self.now)) };

    /// Whether no two places hold equal elements: JSON Schema Validation 2020-12, section 6.4.3. Numbers are equal by value, as `1` and
    /// `1.0` are.
    fn is_unique(&self, alloc: Global) -> Result<bool, OutOfMemory>
        ensures { IfOk result (λ b. IsTrue b ↔ IsUnique (elements_of (Self.tree self.now))) };
}
