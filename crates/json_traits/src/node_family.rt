//! `NodeFamily`: a kind of node, for functions that call themselves.

ghost use Rattle.std.specs.Prelude.{◌≡◌, ℕ, List, length, map, option_map, true};
ghost use Rattle.std.specs.Iterator.{IsFinite};
ghost use Rattle.json_model.specs.Keys.{rises};
ghost use Rattle.json_model.specs.Parts.{as_boolean, as_number, as_string, elements_of, if_array, if_object, is_null, lookup, pairs_of};
ghost use Rattle.json_model.specs.Tree.{Tree};
ghost use Rattle.json_traits.specs.Gives.{Gives};
ghost use Rattle.json_traits.specs.Kinds.{type_of};

use crate::array::Array;
use crate::has_tree::HasTree;
use crate::json_number::JsonNumber;
use crate::node::Node;
use crate::object::Object;
use crate::types::JsonType;
use json_exact::Number;
use std::marker::PhantomData;

/// A kind of node, for a function that calls itself: it asks for `F: NodeFamily`, since a bound `N: Node<'a>` names a lifetime, which
/// a function that calls itself may not have in a bound. [`FamilyOf`] is the family of each kind of node. The calls are those of
/// [`Node`], [`Array`] and [`Object`], and take no memory.
pub trait NodeFamily {
    /// What stands for a value.
    type Node: Copy + HasTree;
    /// What stands for an array.
    type Array: Copy + HasTree;
    /// What stands for an object.
    type Object: Copy + HasTree;
    /// The text of a string or of a key.
    type Text: Copy;
    /// The iterator over the elements of an array.
    type Elements: Iterator<Item = Self::Node> + Drop;
    /// A key, and what stands for the value under it.
    type Member: Copy;
    /// The iterator over the members of an object.
    type Members: Iterator<Item = Self::Member> + Drop;

    ghost bytes: { Self.Text → List ℕ };

    ghost pair: { Self.Member → List ℕ × Tree };

    /// The type of the value: `Number` for each number, whole or not.
    fn json_type(node: &Self::Node) -> JsonType
        ensures { result ≡ type_of (Self.Node.tree node.now) };

    /// Whether the value is null.
    fn is_null(node: &Self::Node) -> bool
        ensures { result ≡ is_null (Self.Node.tree node.now) };

    /// The truth value that the value is, if it is one.
    fn as_boolean(node: &Self::Node) -> Option<bool>
        ensures { result ≡ as_boolean (Self.Node.tree node.now) };

    /// The number that the value is, if it is one.
    fn as_number(node: &Self::Node) -> Option<Number>
        ensures { result ≡ as_number (Self.Node.tree node.now) };

    /// The text of the string that the value is, if it is one.
    fn as_string(node: &Self::Node) -> Option<Self::Text>
        ensures { option_map bytes result ≡ as_string (Self.Node.tree node.now) };

    /// The array that the value is, if it is one.
    fn as_array(node: &Self::Node) -> Option<Self::Array>
        ensures { option_map Self.Array.tree result ≡ if_array (Self.Node.tree node.now) };

    /// The object that the value is, if it is one.
    fn as_object(node: &Self::Node) -> Option<Self::Object>
        ensures { option_map Self.Object.tree result ≡ if_object (Self.Node.tree node.now) };

    /// How many elements there are.
    fn element_count(array: &Self::Array) -> usize
        ensures { result ≡ length (elements_of (Self.Array.tree array.now)) };

    /// How many members there are.
    fn member_count(object: &Self::Object) -> usize
        ensures { result ≡ length (pairs_of (Self.Object.tree object.now)) };

    /// The elements, in order, and then the end, at which callers stop.
    fn elements(array: &Self::Array) -> Self::Elements
        ensures can { Self.Elements.can_next result }
        ensures ends { IsFinite (Self.Elements.remaining result) }
        ensures gives { Gives Self.Elements.next_gives Self.Node.tree result (elements_of (Self.Array.tree array.now)) };

    /// The members, in key order, and then the end, at which callers stop.
    fn members(object: &Self::Object) -> Self::Members
        ensures can { Self.Members.can_next result }
        ensures ends { IsFinite (Self.Members.remaining result) }
        ensures gives { Gives Self.Members.next_gives pair result (pairs_of (Self.Object.tree object.now)) }
        ensures rise { rises (map (λ p. p.0) (pairs_of (Self.Object.tree object.now))) ≡ true };

    /// The value under a key, if there is one.
    fn get_named(object: &Self::Object, name: &str) -> Option<Self::Node>
        ensures { option_map Self.Node.tree result ≡ lookup name.now (pairs_of (Self.Object.tree object.now)) };

    /// The key of a member.
    fn key(member: &Self::Member) -> Self::Text
        ensures { bytes result ≡ (pair member.now).0 };

    /// What stands for the value of a member.
    fn value(member: &Self::Member) -> Self::Node
        ensures { Self.Node.tree result ≡ (pair member.now).1 };

    /// A text, borrowed.
    fn as_str<'b>(text: &'b Self::Text) -> &'b str
        ensures { result.now ≡ bytes text.now };
}

/// The family of the nodes `N`. It holds nothing: it is named, and never made.
pub struct FamilyOf<'a, N: Node<'a>> {
    lifetime: PhantomData<&'a u8>,
    nodes: PhantomData<N>,
}

impl<'a, N: Node<'a>> NodeFamily for FamilyOf<'a, N> {
    type Node = N;

    type Array = N::Array;

    type Object = N::Object;

    type Text = &'a str;

    type Elements = <N::Array as Array<'a>>::ElementsIter;

    type Member = (&'a str, N);

    type Members = <N::Object as Object<'a>>::MembersIter;

    ghost bytes = { λ s. s.now };

    ghost pair = { λ p. (p.0.now, N.tree p.1) };

    fn json_type(node: &N) -> JsonType {
        node.json_type()
    }

    fn is_null(node: &N) -> bool {
        node.is_null()
    }

    fn as_boolean(node: &N) -> Option<bool> {
        node.as_boolean()
    }

    fn as_number(node: &N) -> Option<Number> {
        Some(node.as_number()?.to_number())
    }

    fn as_string(node: &N) -> Option<&'a str> {
        node.as_string()
    }

    fn as_array(node: &N) -> Option<N::Array> {
        node.as_array()
    }

    fn as_object(node: &N) -> Option<N::Object> {
        node.as_object()
    }

    fn element_count(array: &N::Array) -> usize {
        array.len()
    }

    fn member_count(object: &N::Object) -> usize {
        object.len()
    }

    fn elements(array: &N::Array) -> <N::Array as Array<'a>>::ElementsIter {
        array.elements()
    }

    fn members(object: &N::Object) -> <N::Object as Object<'a>>::MembersIter {
        object.members()
    }

    fn get_named(object: &N::Object, name: &str) -> Option<N> {
        object.get_named(name)
    }

    fn key(member: &(&'a str, N)) -> &'a str {
        member.0
    }

    fn value(member: &(&'a str, N)) -> N {
        member.1
    }

    fn as_str<'b>(text: &'b &'a str) -> &'b str {
        text
    }
}
