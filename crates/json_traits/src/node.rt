//! `Node`: a JSON value, whatever holds it.

ghost use Rattle.std.specs.Prelude.{◌≡◌, ◌<◌, ◌↔◌, length, Option, None, Err, option_map, IfOk, IfSome, IsSome, IsTrue};
ghost use Rattle.json_model.specs.Nest.{nest};
ghost use Rattle.json_model.specs.Parts.{as_string, as_boolean, is_null, is_number, is_string, if_object, if_array, if_number, points};
ghost use Rattle.json_model.specs.Same.{Same};
ghost use Rattle.json_exact.specs.Trees.{tree as value_tree};
ghost use Rattle.json_exact.specs.declared.value.Value.{Value};
ghost use Rattle.json_traits.specs.Cows.{cow_tree, TakesNoMemory};
ghost use Rattle.json_traits.specs.Identities.{if_container};
ghost use Rattle.json_traits.specs.Kinds.{type_of};
ghost use Rattle.json_traits.specs.declared.identity.NodeIdentity.{NodeIdentity};
ghost use Rattle.json_traits.specs.declared.lazy_instance.LazyInstance.{LazyInstance};
ghost use Rattle.json_traits.specs.declared.value_error.ValueError.{ValueError};

use crate::array::Array;
use crate::building::build;
use crate::equality::equals;
use crate::has_tree::HasTree;
use crate::identity::NodeIdentity;
use crate::json_number::JsonNumber;
use crate::lazy_instance::LazyInstance;
use crate::nesting::nests_within;
use crate::node_family::FamilyOf;
use crate::object::Object;
use crate::types::JsonType;
use crate::value_cow::ValueCow;
use crate::value_error::ValueError;
use json_exact::Value;
use std::alloc::Global;

/// A JSON value that is read in place. Each call answers from the tree that the node stands for, and takes no memory.
pub trait Node<'a>: Copy + HasTree {
    /// What stands for an object.
    type Object: Object<'a, Node = Self>;
    /// What stands for an array.
    type Array: Array<'a, Node = Self>;
    /// What stands for a number.
    type Number: JsonNumber;

    ghost identity_of: { Self → Option NodeIdentity };

    ghost value_of: { Self → Option Value };

    /// The object that the value is, if it is one.
    fn as_object(&self) -> Option<Self::Object>
        ensures { option_map Self.Object.tree result ≡ if_object (Self.tree self.now) };

    /// The array that the value is, if it is one.
    fn as_array(&self) -> Option<Self::Array>
        ensures { option_map Self.Array.tree result ≡ if_array (Self.tree self.now) };

    /// The number that the value is, if it is one.
    fn as_number(&self) -> Option<Self::Number>
        ensures { option_map Self.Number.tree result ≡ if_number (Self.tree self.now) };

    /// The text of the string that the value is, if it is one.
    fn as_string(&self) -> Option<&'a str>
        ensures { option_map (λ s. s.now) result ≡ as_string (Self.tree self.now) };

    /// The truth value that the value is, if it is one.
    fn as_boolean(&self) -> Option<bool>
        ensures { result ≡ as_boolean (Self.tree self.now) };

    /// Whether the value is null.
    fn is_null(&self) -> bool
        ensures { result ≡ is_null (Self.tree self.now) };

    /// Whether the value is a number.
    fn is_number(&self) -> bool
        ensures { result ≡ is_number (Self.tree self.now) };

    /// Whether the value is a string.
    fn is_string(&self) -> bool
        ensures { result ≡ is_string (Self.tree self.now) };

    /// The type of the value: `Number` for each number, whole or not.
    fn json_type(&self) -> JsonType
        ensures { result ≡ type_of (Self.tree self.now) };

    /// How many code points the string has that the value is, if it is one.
    fn string_length(&self) -> Option<u64>
        ensures { result ≡ option_map (λ s. length (points s)) (as_string (Self.tree self.now)) };

    /// What tells the node from those at other places under its root, where the representation has such a thing. Each
    /// implementation says what it is.
    fn identity(&self) -> Option<NodeIdentity>
        ensures { result ≡ Self.identity_of self.now };

    /// The identity of an array or object; none of any other value.
    fn container_identity(&self) -> Option<NodeIdentity>
        ensures { result ≡ if_container (Self.tree self.now) (Self.identity_of self.now) };

    /// The value that the node is the node of, where it is one in memory; none of any other node.
    fn as_value(&self) -> Option<&'a Value>
        ensures value { option_map (λ v. v.now) result ≡ Self.value_of self.now }
        ensures tree { IfSome result (λ v. value_tree v.now ≡ Self.tree self.now) };

    /// Whether the node is equal to a value: of one type, numbers by value, arrays place by place, and objects with the same keys and
    /// equal values under them. It passes over both once, by recursion as deep as the value nests, and takes no memory.
    final fn equals_value(&self, expected: &Value) -> bool
        ensures { IsTrue result ↔ Same (Self.tree self.now) (value_tree expected.now) }
    {
        equals::<FamilyOf<'a, Self>>(self, expected)
    }

    /// A value of the node's tree, written fraction digits included. The value of a node in memory is borrowed. Of any other node it is
    /// built, once it is known that the node nests at most 128 containers: each container is passed over once for that. Where memory
    /// could not be had, what was built is dropped.
    final fn to_value(&self, alloc: Global) -> Result<ValueCow<'a>, ValueError>
        ensures tree { IfOk result (λ c. cow_tree c ≡ Self.tree self.now) }
        ensures too_deep { (result ≡ Err ValueError.TooDeep) ↔ (128 < nest (Self.tree self.now)) }
        ensures borrows { IsSome (Self.value_of self.now) → TakesNoMemory result }
    {
        if !nests_within::<FamilyOf<'a, Self>>(self, 128) {
            return Err(ValueError::TooDeep);
        }
        if let Some(value) = self.as_value() {
            return Ok(ValueCow::Borrowed(value));
        }
        match build::<FamilyOf<'a, Self>>(alloc, self) {
            Ok(value) => Ok(ValueCow::Owned(value)),
            Err(_) => Err(ValueError::OutOfMemory),
        }
    }

    /// The node, and its value once that is asked for.
    final fn lazy_value(&self) -> LazyInstance<'a, Self>
        ensures { result ≡ LazyInstance.Deferred self.now None }
    {
        LazyInstance::Deferred {
            node: *self,
            cell: None,
        }
    }
}
