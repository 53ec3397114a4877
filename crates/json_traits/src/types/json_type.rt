//! `JsonType`: one of the seven types.

ghost use Rattle.std.specs.Prelude.{◌≡◌, ◌↔◌, ◌||◌, Some, Ok};
ghost use Rattle.std.specs.Fmt.{padded};
ghost use Rattle.json_traits.specs.Names.{name_of};
ghost use Rattle.json_traits.specs.Weights.{weight, same};

use crate::types::set::JsonTypeSet;
use std::fmt;
use std::ops::BitOr;
use std::str::FromStr;

/// A type of JSON values. An integer is a number whose value is whole, as `1.0`.
#[derive(Debug, Clone, Copy, PartialEq, Eq, PartialOrd, Ord, Hash)]
pub enum JsonType {
    Null = 1,
    Boolean = 2,
    Integer = 4,
    Number = 8,
    String = 16,
    Array = 32,
    Object = 64,
}

impl JsonType {
    /// The name that schemas write.
    pub fn as_str(self) -> &'static str
        ensures { result.now ≡ name_of self }
    {
        match self {
            JsonType::Null => "null",
            JsonType::Boolean => "boolean",
            JsonType::Integer => "integer",
            JsonType::Number => "number",
            JsonType::String => "string",
            JsonType::Array => "array",
            JsonType::Object => "object",
        }
    }

    /// The bit that stands for the type in a set.
    pub(crate) const fn weight(self) -> u8
        ensures { result ≡ weight self }
    {
        self as u8
    }
}

impl fmt::Display for JsonType {
    ghost output = { λ ty. Some (name_of ty) };

    ghost styled_output = { λ ty spec. Some (padded spec (name_of ty)) };

    fn fmt<W: fmt::Write>(&self, f: &mut fmt::Formatter<W>) -> fmt::Result {
        f.pad(self.as_str())
    }
}

/// Reads the seven names, and refuses every other text, the shortest of which is the empty one.
impl FromStr for JsonType {
    type Err = ();

    ghost use Rattle.json_traits.specs.declared.types.json_type.JsonType.{JsonType};

    ghost from_str_gives = { λ text r. (ty : JsonType) → (r ≡ Ok ty) ↔ (text ≡ name_of ty) };

    fn from_str(name: &str) -> Result<JsonType, ()> {
        match name {
            "null" => Ok(JsonType::Null),
            "boolean" => Ok(JsonType::Boolean),
            "integer" => Ok(JsonType::Integer),
            "number" => Ok(JsonType::Number),
            "string" => Ok(JsonType::String),
            "array" => Ok(JsonType::Array),
            "object" => Ok(JsonType::Object),
            _ => Err(()),
        }
    }
}

/// The set of two types.
impl BitOr for JsonType {
    type Output = JsonTypeSet;

    ghost use Rattle.json_traits.specs.declared.types.json_type.JsonType.{JsonType};
    ghost use Rattle.json_traits.specs.Sets.{holds};

    ghost bitor_gives = { λ a b set. (ty : JsonType) → holds set ty ≡ same ty a || same ty b };

    fn bitor(self, other: JsonType) -> JsonTypeSet {
        JsonTypeSet::from(self).insert(other)
    }
}
