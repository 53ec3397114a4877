//! The types of values.

ghost use Rattle.std.specs.Prelude.{◌↔◌, IsTrue};
ghost use Rattle.json_traits.specs.Allowed.{AllowsType};

use crate::json_number::JsonNumber;
use crate::node::Node;
use crate::types::json_type::JsonType;
use crate::types::set::JsonTypeSet;
use json_exact::Value;

/// The type of a value: `Number` for each number, whole or not.
impl From<&Value> for JsonType {
    ghost use Rattle.std.specs.Prelude.{◌≡◌};
    ghost use Rattle.json_exact.specs.Trees.{tree};
    ghost use Rattle.json_traits.specs.Kinds.{type_of};

    ghost from_gives = { λ value ty. ty ≡ type_of (tree value.now) };

    fn from(value: &Value) -> JsonType {
        match value {
            Value::Null => JsonType::Null,
            Value::Bool(_) => JsonType::Boolean,
            Value::Number(_) => JsonType::Number,
            Value::String(_) => JsonType::String,
            Value::Array(_) => JsonType::Array,
            Value::Object(_) => JsonType::Object,
        }
    }
}

impl JsonTypeSet {
    /// Whether the set holds a type that the value is of. A number is of type `Number`, and of type `Integer` too where its
    /// value is whole, as that of `1.0` is.
    pub fn contains_value_type<'a, N: Node<'a>>(self, value: &N) -> bool
        ensures { IsTrue result ↔ AllowsType self (N.tree value.now) }
    {
        if self.contains(value.json_type()) {
            return true;
        }
        match value.as_number() {
            Some(number) => self.contains(JsonType::Integer) && number.is_integer(),
            None => false,
        }
    }
}
