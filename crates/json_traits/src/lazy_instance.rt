//! `LazyInstance`: a value that is made where it is asked for first.

ghost use Rattle.std.specs.Prelude.{◌≡◌, ◌↔◌, Some, Ok, Err, IfOk, IfSome, IsOk, IsSome, OnErr, OnOk};
ghost use Rattle.json_traits.specs.Cows.{cow_tree, TakesNoMemory};
ghost use Rattle.json_traits.specs.Instances.{filled_with, held, instance_tree, waiting_node, Borrows, IsTooDeep};
ghost use Rattle.json_traits.specs.declared.value_error.ValueError.{ValueError};

use crate::has_tree::HasTree;
use crate::node::Node;
use crate::value_cow::ValueCow;
use crate::value_error::ValueError;
use json_exact::Value;
use std::alloc::Global;

/// A value that is there, or a node whose value is made where it is asked for first. It stands for the tree of the value, and else
/// of the node.
#[derive(Drop)]
pub enum LazyInstance<'a, N> {
    /// A value that is there.
    Ready(ValueCow<'a>),
    /// A node, and its value once that was asked for.
    Deferred {
        /// The node.
        node: N,
        /// Its value, once it was asked for.
        cell: Option<ValueCow<'a>>,
    },
}

impl<'a, N: HasTree> HasTree for LazyInstance<'a, N> {
    ghost tree = { instance_tree N.tree };
}

impl<'a, N> From<&'a Value> for LazyInstance<'a, N> {
    ghost use Rattle.json_traits.specs.declared.lazy_instance.LazyInstance.{LazyInstance};
    ghost use Rattle.json_traits.specs.declared.value_cow.ValueCow.{ValueCow};

    ghost from_gives = { λ value instance. instance ≡ LazyInstance.Ready (ValueCow.Borrowed value) };

    fn from(value: &'a Value) -> Self {
        LazyInstance::Ready(ValueCow::Borrowed(value))
    }
}

impl<'a, N: Node<'a>> LazyInstance<'a, N> {
    ghost use Rattle.std.specs.Borrow.{sem};
    ghost use Rattle.json_traits.specs.Keeping.{KeepsValue};

    /// The value. The first call of a deferred node makes it by the node's `to_value`, and puts it into the cell beside the node. Later
    /// calls hand out the same one. A refusal leaves the cell empty. Only a call that finds the cell empty may take memory, and none
    /// does where the node is that of a value in memory.
    pub fn get(&mut self, alloc: Global) -> Result<&ValueCow<'a>, ValueError>
        ensures tree { IfOk result (λ c. cow_tree c.now ≡ instance_tree N.tree self.old) }
        ensures there { IsSome (held self.old) → IsOk result }
        ensures* kept { sem 𝓛 (KeepsValue N.row self.entry result) }
        ensures too_deep { (result ≡ Err ValueError.TooDeep) ↔ IsTooDeep N.tree self.old }
        ensures borrows { Borrows N.value_of self.old → ¬ (result ≡ Err ValueError.OutOfMemory) }
    {
        self.fill(alloc)?;
        Ok(self.filled())
    }

    /// The value as it is there, or as it is made now. The value of a node in memory is borrowed. A refusal drops the instance: the
    /// caller has a copy of the node.
    pub fn into_cow(self, alloc: Global) -> Result<ValueCow<'a>, ValueError>
        ensures tree { IfOk result (λ c. cow_tree c ≡ instance_tree N.tree self.entry) }
        ensures there { IfSome (held self.entry) (λ c. result ≡ Ok c) }
        ensures too_deep { (result ≡ Err ValueError.TooDeep) ↔ IsTooDeep N.tree self.entry }
        ensures borrows { Borrows N.value_of self.entry → TakesNoMemory result }
    {
        match self {
            LazyInstance::Ready(cow) => Ok(cow),
            LazyInstance::Deferred { node, cell } => match cell {
                Some(cow) => Ok(cow),
                None => node.to_value(alloc),
            },
        }
    }

    /// Puts the node's value into an empty cell. A refusal leaves it empty.
    fn fill(&mut self, alloc: Global) -> Result<(), ValueError>
        ensures filled { OnOk result (IsSome (held self.new)) }
        ensures tree { instance_tree N.tree self.new ≡ instance_tree N.tree self.old }
        ensures there { IsSome (held self.old) → IsOk result × (self.new ≡ self.old) }
        ensures too_deep { (result ≡ Err ValueError.TooDeep) ↔ IsTooDeep N.tree self.old }
        ensures err { OnErr result (self.new ≡ self.old) }
        ensures beside { IfSome (held self.new) (λ c. self.new ≡ filled_with self.old c) }
        ensures borrows { Borrows N.value_of self.old → ¬ (result ≡ Err ValueError.OutOfMemory) }
    {
        let Some(node) = self.waiting() else {
            return Ok(());
        };
        let cow = node.to_value(alloc)?;
        *self = LazyInstance::Deferred {
            node,
            cell: Some(cow),
        };
        Ok(())
    }

    /// The node whose value is not there, if it is not.
    fn waiting(&self) -> Option<N>
        ensures { result ≡ waiting_node self.now }
    {
        match self {
            LazyInstance::Deferred { node, cell: None } => Some(*node),
            _ => None,
        }
    }

    /// The value that is there.
    fn filled(&self) -> &ValueCow<'a>
        requires { IsSome (held self.now) }
        ensures { held self.now ≡ Some result.now }
    {
        match self {
            LazyInstance::Ready(cow) => cow,
            LazyInstance::Deferred {
                cell: Some(cow),
                ..
            } => cow,
            _ => unreachable!(),
        }
    }
}
