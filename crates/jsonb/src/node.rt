//! A value in a slice.

ghost use Rattle.std.specs.Prelude.{◌≡◌, ◌+◌, ◌*◌, ◌%◌, ◌<◌, ◌^◌, length, IsTrue};
ghost use Rattle.jsonb.specs.inner.Values.{kind_number, value_of, IsJsonTree, is_short};

use crate::array::JsonbArray;
use crate::kind::Kind;
use crate::number::JsonbNumber;
use crate::object::JsonbObject;
use crate::opening::is_object;
use crate::scalar::text_of;
use bytecount::num_chars;
use json_exact::Value;
use json_traits::types::JsonType;
use json_traits::{HasTree, Node, NodeIdentity};

/// A value in a slice: where it is, its kind, and its own bytes without padding. It borrows the slice, which was read whole
/// before, so that nothing is validated again. It is where its own bytes begin; a value without bytes, such as null or an
/// empty string, is where its entry word is.
#[derive(Clone, Copy)]
pub struct JsonbNode<'a> {
    pub(crate) offset: usize,
    pub(crate) kind: Kind,
    pub(crate) bytes: &'a [u8],
    ghost stands: { IsJsonTree (value_of kind bytes.now) },
    ghost short: { IsTrue (is_short kind bytes.now) },
    ghost room: { offset + length bytes.now < 2 ^ 64 },
}

impl HasTree for JsonbNode<'_> {
    ghost use Rattle.jsonb.specs.Nodes.{node_tree};

    ghost tree = { node_tree };
}

/// The second number of an identity: the kind times 2^28, and the length modulo 2^28.
fn tag(kind: Kind, length: usize) -> u32
    ensures { result ≡ kind_number kind * 2 ^ 28 + length % 2 ^ 28 }
{
    kind.number() as u32 * 0x1000_0000 + (length % 0x1000_0000) as u32
}

impl<'a> Node<'a> for JsonbNode<'a> {
    ghost use Rattle.std.specs.Prelude.{None, Some, map, option_map, IfSome};
    ghost use Rattle.json_model.specs.Parts.{elements_of, if_array, if_object, pairs_of};
    ghost use Rattle.jsonb_layout.specs.Seats.{AreHeld};
    ghost use Rattle.json_traits.specs.Identities.{pair};
    ghost use Rattle.jsonb.specs.Nodes.{node_tree, array_tree, object_tree};
    ghost use Rattle.jsonb.specs.Seated.{some_identity, node_seat, seat_tree, array_seats, object_seats, member_tree, values_of};

    ghost identity_of = { some_identity };

    ghost value_of = { λ _. None };

    type Object = JsonbObject<'a>;

    type Array = JsonbArray<'a>;

    type Number = JsonbNumber<'a>;

    #[tactic(auto, using(crate::proofs::KindLaws::no_object, crate::proofs::KindLaws::container_stands))]
    fn as_object(&self) -> Option<JsonbObject<'a>>
        ensures tree { option_map object_tree result ≡ if_object (node_tree self.now) }
        ensures held { IfSome result
            (λ o. AreHeld (node_seat self.now) (values_of (object_seats o))) }
        ensures pairs { IfSome result
            (λ o. map member_tree (object_seats o) ≡ pairs_of (object_tree o)) }
    {
        match self.kind {
            Kind::Container => JsonbObject::of(self.offset, self.bytes),
            _ => None,
        }
    }

    #[tactic(auto, using(crate::proofs::KindLaws::no_array, crate::proofs::KindLaws::container_stands))]
    fn as_array(&self) -> Option<JsonbArray<'a>>
        ensures tree { option_map array_tree result ≡ if_array (node_tree self.now) }
        ensures held { IfSome result (λ a. AreHeld (node_seat self.now) (array_seats a)) }
        ensures trees { IfSome result
            (λ a. map seat_tree (array_seats a) ≡ elements_of (array_tree a)) }
    {
        match self.kind {
            Kind::Container => JsonbArray::of(self.offset, self.bytes),
            _ => None,
        }
    }

    #[tactic(auto, using(crate::proofs::KindLaws::no_number))]
    fn as_number(&self) -> Option<JsonbNumber<'a>> {
        match self.kind {
            Kind::Number => Some(JsonbNumber { bytes: self.bytes }),
            _ => None,
        }
    }

    #[tactic(auto, using(crate::proofs::KindLaws::no_string, crate::proofs::KindLaws::string_text))]
    fn as_string(&self) -> Option<&'a str> {
        match self.kind {
            Kind::String => Some(text_of(self.bytes)),
            _ => None,
        }
    }

    #[tactic(auto, using(crate::proofs::KindLaws::no_boolean))]
    fn as_boolean(&self) -> Option<bool> {
        match self.kind {
            Kind::True => Some(true),
            Kind::False => Some(false),
            _ => None,
        }
    }

    #[tactic(auto, using(crate::proofs::KindLaws::not_null, crate::proofs::KindLaws::null_is))]
    fn is_null(&self) -> bool {
        match self.kind {
            Kind::Null => true,
            _ => false,
        }
    }

    #[tactic(auto, using(crate::proofs::KindLaws::not_number, crate::proofs::KindLaws::number_is))]
    fn is_number(&self) -> bool {
        match self.kind {
            Kind::Number => true,
            _ => false,
        }
    }

    #[tactic(auto, using(crate::proofs::KindLaws::not_string, crate::proofs::KindLaws::string_is))]
    fn is_string(&self) -> bool {
        match self.kind {
            Kind::String => true,
            _ => false,
        }
    }

    #[tactic(auto, using(crate::proofs::KindLaws::container_stands, crate::proofs::TypeLaws::number_type, crate::proofs::TypeLaws::object_type, crate::proofs::TypeLaws::array_type))]
    fn json_type(&self) -> JsonType {
        match self.kind {
            Kind::String => JsonType::String,
            Kind::Number => JsonType::Number,
            Kind::False | Kind::True => JsonType::Boolean,
            Kind::Null => JsonType::Null,
            Kind::Container => {
                if is_object(self.bytes) {
                    JsonType::Object
                } else {
                    JsonType::Array
                }
            }
        }
    }

    #[tactic(auto, using(crate::proofs::TypeLaws::no_length, crate::proofs::TypeLaws::string_points))]
    fn string_length(&self) -> Option<u64> {
        match self.kind {
            Kind::String => Some(num_chars(self.bytes) as u64),
            _ => None,
        }
    }

    /// The address is where the value is in the root's slice, from 0; the tag is its kind as entry words number it, from 0 for a
    /// string to 5 for an array or object, times 2^28, plus the length in bytes modulo 2^28, without padding. Two nodes of one
    /// root have the same identity exactly where they are the same place. These numbers are this project's own.
    fn identity(&self) -> Option<NodeIdentity>
        ensures identity { result ≡ some_identity self.now }
        ensures pair { option_map pair result
            ≡ Some (
              (node_seat self.now).at,
              (node_seat self.now).kind * 2 ^ 28 + length
                  (node_seat self.now).bytes % 2 ^ 28,
            ) }
    {
        Some(NodeIdentity::tagged(self.offset, tag(self.kind, self.bytes.len())))
    }

    #[tactic(auto, using(crate::proofs::KindLaws::no_container, crate::proofs::KindLaws::container_is))]
    fn container_identity(&self) -> Option<NodeIdentity> {
        match self.kind {
            Kind::Container => self.identity(),
            _ => None,
        }
    }

    /// None: a slice holds no `Value`.
    fn as_value(&self) -> Option<&'a Value> {
        None
    }
}
