//! JSON equality of values.

ghost use Rattle.std.specs.Prelude.{◌↔◌, IsTrue, map};
ghost use Rattle.json_model.specs.Decimal.{IsSameValue};
ghost use Rattle.json_model.specs.Parts.{elements_from, elements_of, members_from, pairs_of};
ghost use Rattle.json_model.specs.Same.{Same, SameElements};
ghost use Rattle.json_model.specs.Tree.{array, object};
ghost use Rattle.json_exact.specs.Trees.{tree, pairs};
ghost use Rattle.json_traits.specs.Numbers.{decimal_in};

use crate::array::ValueArray;
use crate::node::ValueNode;
use crate::object::ValueObject;
use json_exact::{Map, Number, Value};
use json_traits::{FamilyOf, JsonNumber, Node};

/// Whether two values are equal: of one type, numbers by value, arrays place by place, and objects with the same keys and
/// equal values under them. It passes over both values once, by recursion as deep as they nest, and takes no memory.
pub fn equal(left: &Value, right: &Value) -> bool
    ensures { IsTrue result ↔ Same (tree left.now) (tree right.now) }
{
    nodes_are_equal(&ValueNode::new(left), &ValueNode::new(right))
}

/// Whether two arrays are equal: as many elements, and equal ones at each place. The cost is that of [`equal`].
#[tactic(auto, using(json_model::proofs::KindLaws::trees_in_from))]
pub fn equal_arrays(left: &[Value], right: &[Value]) -> bool
    ensures { IsTrue result ↔ Same (array (elements_from (map tree left.now))) (array (elements_from (map tree right.now))) }
{
    arrays_are_equal::<ValueNode<'_>>(&ValueArray::new(left), &ValueArray::new(right))
}

/// Whether two objects are equal: the same keys, and equal values under each. Both stand in key order, so one pass over both
/// side by side tells. The cost is that of [`equal`].
#[tactic(auto, using(json_model::proofs::KindLaws::pairs_in_from))]
pub fn equal_objects(left: &Map, right: &Map) -> bool
    ensures { IsTrue result ↔ Same (object (members_from (pairs left.now))) (object (members_from (pairs right.now))) }
{
    objects_are_equal::<ValueNode<'_>>(&ValueObject::new(left), &ValueObject::new(right))
}

/// Whether two numbers are equal, as `1` and `1.0` are: by value.
pub fn equal_numbers<L: JsonNumber>(left: &L, right: &Number) -> bool
    ensures { IsTrue result ↔ IsSameValue (decimal_in (L.tree left.now)) right.now }
{
    left.to_number().decimal() == right.decimal()
}

/// Two nodes, by their family.
fn nodes_are_equal<'a, N: Node<'a>>(left: &N, right: &N) -> bool
    ensures { IsTrue result ↔ Same (N.tree left.now) (N.tree right.now) }
{
    json_traits::equal_nodes::<FamilyOf<'a, N>>(left, right)
}

/// Two arrays, by the family of their nodes.
fn arrays_are_equal<'a, N: Node<'a>>(left: &N::Array, right: &N::Array) -> bool
    ensures { IsTrue result
        ↔ SameElements (elements_from (elements_of (N.Array.tree left.now))) (elements_from (elements_of (N.Array.tree right.now))) }
{
    json_traits::equal_arrays::<FamilyOf<'a, N>>(left, right)
}

/// Two objects, by the family of their nodes.
fn objects_are_equal<'a, N: Node<'a>>(left: &N::Object, right: &N::Object) -> bool
    ensures { IsTrue result ↔ Same (object (members_from (pairs_of (N.Object.tree left.now))))
        (object (members_from (pairs_of (N.Object.tree right.now)))) }
{
    json_traits::equal_objects::<FamilyOf<'a, N>>(left, right)
}
