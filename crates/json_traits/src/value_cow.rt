//! `ValueCow`: a value that is borrowed or owned.

ghost use Rattle.std.specs.Prelude.{◌≡◌, IfOk, IsOk};
ghost use Rattle.json_exact.specs.Trees.{tree as value_tree};
ghost use Rattle.json_traits.specs.Cows.{cow_tree, IsOwned};

use crate::has_tree::HasTree;
use json_exact::{OutOfMemory, Value};
use std::alloc::Global;

/// A value that is borrowed or owned. It stands for the tree of the value.
#[derive(Drop)]
pub enum ValueCow<'a> {
    /// A value that stands elsewhere.
    Borrowed(&'a Value),
    /// A value of one's own.
    Owned(Value),
}

impl HasTree for ValueCow<'_> {
    ghost tree = { cow_tree };
}

impl<'a> ValueCow<'a> {
    /// The value.
    pub fn value(&self) -> &Value
        ensures { value_tree result.now ≡ cow_tree self.now }
    {
        match self {
            ValueCow::Borrowed(value) => value,
            ValueCow::Owned(value) => value,
        }
    }

    /// The value as one's own. It takes memory for a copy of a borrowed one, and none for an owned one. Where memory could not be
    /// had, what was borrowed is as before.
    pub fn into_owned(self, alloc: Global) -> Result<Value, OutOfMemory>
        ensures tree { IfOk result (λ v. value_tree v ≡ cow_tree self.entry) }
        ensures owned { IsOwned self.entry → IsOk result }
    {
        match self {
            ValueCow::Borrowed(value) => value.clone_in(alloc),
            ValueCow::Owned(value) => Ok(value),
        }
    }
}
