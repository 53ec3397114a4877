//! `ValueNode`: a value as a node.

ghost use Rattle.std.specs.Prelude.{◌≡◌};
ghost use Rattle.json_exact.specs.Trees.{tree};
ghost use Rattle.json_semantics.specs.Trees.{node_tree};

use crate::array::ValueArray;
use crate::object::ValueObject;
use bytecount::num_chars;
use json_exact::{Number, Value};
use json_traits::types::JsonType;
use json_traits::{HasTree, Node, NodeIdentity};

/// A JSON value that stands in memory.
#[derive(Clone, Copy)]
pub struct ValueNode<'a> {
    value: &'a Value,
}

impl<'a> ValueNode<'a> {
    /// The node of a value.
    pub fn new(value: &'a Value) -> Self
        ensures { node_tree result ≡ tree value.now }
    {
        ValueNode { value }
    }

    /// The value.
    pub fn value(self) -> &'a Value
        ensures { tree result.now ≡ node_tree self.entry }
    {
        self.value
    }
}

impl HasTree for ValueNode<'_> {
    ghost tree = { node_tree };
}

impl<'a> Node<'a> for ValueNode<'a> {
    ghost use Rattle.std.specs.Prelude.{None, Some};

    ghost identity_of = { λ _. None };

    ghost value_of = { λ n. Some n.value.now };

    type Object = ValueObject<'a>;

    type Array = ValueArray<'a>;

    type Number = Number;

    fn as_object(&self) -> Option<ValueObject<'a>> {
        match self.value {
            Value::Object(members) => Some(ValueObject::new(members)),
            _ => None,
        }
    }

    fn as_array(&self) -> Option<ValueArray<'a>> {
        match self.value {
            Value::Array(elements) => Some(ValueArray::new(elements)),
            _ => None,
        }
    }

    fn as_number(&self) -> Option<Number> {
        match self.value {
            Value::Number(number) => Some(*number),
            _ => None,
        }
    }

    fn as_string(&self) -> Option<&'a str> {
        match self.value {
            Value::String(text) => Some(text.as_str()),
            _ => None,
        }
    }

    fn as_boolean(&self) -> Option<bool> {
        match self.value {
            Value::Bool(truth) => Some(*truth),
            _ => None,
        }
    }

    fn is_null(&self) -> bool {
        matches!(self.value, Value::Null)
    }

    fn is_number(&self) -> bool {
        matches!(self.value, Value::Number(_))
    }

    fn is_string(&self) -> bool {
        matches!(self.value, Value::String(_))
    }

    fn json_type(&self) -> JsonType {
        JsonType::from(self.value)
    }

    /// It passes over the text once.
    fn string_length(&self) -> Option<u64> {
        match self.value {
            Value::String(text) => Some(num_chars(text.as_str().as_bytes()) as u64),
            _ => None,
        }
    }

    /// None: values in memory are told apart by no place.
    fn identity(&self) -> Option<NodeIdentity> {
        None
    }

    #[tactic(auto, using(crate::proofs::IdentityLaws::no_identity))]
    fn container_identity(&self) -> Option<NodeIdentity> {
        None
    }

    /// The value itself.
    fn as_value(&self) -> Option<&'a Value> {
        Some(self.value)
    }
}
