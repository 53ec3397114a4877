//! `JsonTypeSet`: a finite set of types.

ghost use Rattle.std.specs.Prelude.{◌≡◌, ◌↔◌, ◌<◌, ◌&&◌, ◌||◌, not, true, false, length, [], IsTrue};

use crate::types::iter::JsonTypeSetIterator;
use crate::types::json_type::JsonType;
use std::fmt;
use std::ops::BitOr;

/// A set of types, as a byte with a bit for each of the seven.
#[derive(Clone, Copy, PartialEq, Eq, PartialOrd, Ord, Hash)]
pub struct JsonTypeSet {
    bits: u8,
    ghost seven: { bits < 128 },
}

impl JsonTypeSet {
    ghost use Rattle.json_traits.specs.Sets.{holds, held, first_of};
    ghost use Rattle.json_traits.specs.Weights.{same};

    /// No type.
    pub const fn empty() -> Self
        ensures { (ty : JsonType) → holds result ty ≡ false }
    {
        JsonTypeSet { bits: 0 }
    }

    /// All seven types.
    pub const fn all() -> Self
        ensures { (ty : JsonType) → holds result ty ≡ true }
    {
        JsonTypeSet { bits: 127 }
    }

    /// The set with a type.
    pub const fn insert(self, ty: JsonType) -> Self
        ensures { (other : JsonType) → holds result other ≡ holds self other || same other ty }
    {
        JsonTypeSet {
            bits: self.bits | ty.weight(),
        }
    }

    /// The set without a type.
    pub const fn remove(self, ty: JsonType) -> Self
        ensures { (other : JsonType) → holds result other ≡ holds self other && not (same other ty) }
    {
        JsonTypeSet {
            bits: self.bits & !ty.weight(),
        }
    }

    /// The types that both sets hold.
    pub const fn intersect(self, other: Self) -> Self
        ensures { (ty : JsonType) → holds result ty ≡ holds self ty && holds other ty }
    {
        JsonTypeSet {
            bits: self.bits & other.bits,
        }
    }

    /// The types that either set holds.
    pub const fn union(self, other: Self) -> Self
        ensures { (ty : JsonType) → holds result ty ≡ holds self ty || holds other ty }
    {
        JsonTypeSet {
            bits: self.bits | other.bits,
        }
    }

    /// How many types the set holds.
    pub const fn len(self) -> usize
        ensures { result ≡ length (held self) }
    {
        self.bits.count_ones() as usize
    }

    /// Whether the set holds no type.
    pub const fn is_empty(self) -> bool
        ensures { IsTrue result ↔ held self ≡ [] }
    {
        self.bits == 0
    }

    /// Whether the set holds a type.
    pub fn contains(self, ty: JsonType) -> bool
        ensures { result ≡ holds self ty }
    {
        self.bits & ty.weight() != 0
    }

    /// The first type that the set holds.
    pub(crate) fn first(self) -> Option<JsonType>
        ensures { result ≡ first_of (held self) }
    {
        if self.contains(JsonType::Null) {
            Some(JsonType::Null)
        } else if self.contains(JsonType::Boolean) {
            Some(JsonType::Boolean)
        } else if self.contains(JsonType::Integer) {
            Some(JsonType::Integer)
        } else if self.contains(JsonType::Number) {
            Some(JsonType::Number)
        } else if self.contains(JsonType::String) {
            Some(JsonType::String)
        } else if self.contains(JsonType::Array) {
            Some(JsonType::Array)
        } else if self.contains(JsonType::Object) {
            Some(JsonType::Object)
        } else {
            None
        }
    }
}

impl JsonTypeSet {
    ghost use Rattle.json_traits.specs.Sets.{held};
    ghost use Rattle.json_traits.specs.Iteration.{left};

    /// The types that the set holds, in order.
    pub fn iter(&self) -> JsonTypeSetIterator
        ensures { left result ≡ held self.now }
    {
        JsonTypeSetIterator { set: *self }
    }
}

impl Default for JsonTypeSet {
    ghost use Rattle.json_traits.specs.declared.types.json_type.JsonType.{JsonType};
    ghost use Rattle.json_traits.specs.Sets.{holds};

    ghost is_default = { λ set. (ty : JsonType) → holds set ty ≡ false };

    fn default() -> Self {
        JsonTypeSet::empty()
    }
}

impl From<JsonType> for JsonTypeSet {
    ghost use Rattle.json_traits.specs.declared.types.json_type.JsonType.{JsonType};
    ghost use Rattle.json_traits.specs.Sets.{holds};
    ghost use Rattle.json_traits.specs.Weights.{same};

    ghost from_gives = { λ ty set. (other : JsonType) → holds set other ≡ same other ty };

    fn from(ty: JsonType) -> Self {
        JsonTypeSet::empty().insert(ty)
    }
}

impl BitOr<JsonType> for JsonTypeSet {
    type Output = JsonTypeSet;

    ghost use Rattle.json_traits.specs.declared.types.json_type.JsonType.{JsonType};
    ghost use Rattle.json_traits.specs.Sets.{holds};
    ghost use Rattle.json_traits.specs.Weights.{same};

    ghost bitor_gives = { λ set ty r. (other : JsonType) → holds r other ≡ holds set other || same other ty };

    fn bitor(self, ty: JsonType) -> JsonTypeSet {
        self.insert(ty)
    }
}

impl IntoIterator for JsonTypeSet {
    type Item = JsonType;

    type IntoIter = JsonTypeSetIterator;

    ghost use Rattle.json_traits.specs.Sets.{held};
    ghost use Rattle.json_traits.specs.Iteration.{left};

    ghost into_iter_gives = { λ set it. left it ≡ held set };

    fn into_iter(self) -> JsonTypeSetIterator {
        self.iter()
    }
}

impl<'a> IntoIterator for &'a JsonTypeSet {
    type Item = JsonType;

    type IntoIter = JsonTypeSetIterator;

    ghost use Rattle.json_traits.specs.Sets.{held};
    ghost use Rattle.json_traits.specs.Iteration.{left};

    ghost into_iter_gives = { λ set it. left it ≡ held set.now };

    fn into_iter(self) -> JsonTypeSetIterator {
        self.iter()
    }
}

/// Writes `(`, the names in order with `, ` between them, and `)`.
impl fmt::Debug for JsonTypeSet {
    ghost use Rattle.std.specs.Prelude.{Some};
    ghost use Rattle.json_traits.specs.Shown.{shown};

    ghost debug_output = { λ set. Some (shown set) };

    fn fmt<W: fmt::Write>(&self, f: &mut fmt::Formatter<W>) -> fmt::Result {
        f.write_str("(")?;
        let mut types = self.iter();
        if let Some(first) = types.next() {
            f.write_str(first.as_str())?;
            for ty in types {
                f.write_str(", ")?;
                f.write_str(ty.as_str())?;
            }
        }
        f.write_str(")")
    }
}
