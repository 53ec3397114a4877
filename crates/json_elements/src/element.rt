//! `Element`: what is asked of an element, whatever holds it.

ghost use Rattle.std.specs.Prelude.{◌≡◌, ℕ, List};
ghost use Rattle.json_model.specs.Tree.{Tree};
ghost use Rattle.json_elements.specs.Parts.{parts_tree, HaveRisingKeys, IsNextTree, IsNextPair};

use json_exact::Number;
use json_traits::HasTree;

/// What a value is, with what stands in it.
#[derive(Drop)]
pub enum Parts<'a, E, M> {
    /// Null.
    Null,
    /// A truth value.
    Boolean(bool),
    /// A number.
    Number(Number),
    /// A string.
    Text(&'a str),
    /// An array, by its elements in order.
    Array(E),
    /// An object, by its members in key order.
    Object(M),
}

/// A JSON value that may be an element. A representation gives its parts, and goes over the elements and members in it. No call
/// takes memory.
pub trait Element<'a>: Copy + HasTree {
    /// The elements that are left of an array.
    type Elements: Drop;
    /// The members that are left of an object.
    type Members: Drop;

    ghost trees: { Self.Elements → List Tree };

    ghost pairs: { Self.Members → List (List ℕ × Tree) };

    /// What the value is, with all its elements or members, of which the keys rise.
    fn parts(&self) -> Parts<'a, Self::Elements, Self::Members>
        ensures tree { parts_tree trees pairs result ≡ Self.tree self.now }
        ensures rise { HaveRisingKeys pairs result };

    /// The next element, if there is one.
    fn next_element(elements: &mut Self::Elements) -> Option<Self>
        ensures { IsNextTree Self.tree (trees elements.old) result (trees elements.new) };

    /// The key and the value of the next member, if there is one.
    fn next_member(members: &mut Self::Members) -> Option<(&'a str, Self)>
        ensures { IsNextPair Self.tree (pairs members.old) result (pairs members.new) };
}
