//! JSON equality of two nodes of one kind: JSON Schema Core 2020-12, section 4.2.2.

ghost use Rattle.std.specs.Prelude.{◌≡◌, ◌↔◌, None, IsTrue};
ghost use Rattle.json_model.specs.Parts.{elements_from, elements_of, if_array, if_object, members_from, pairs_of};
ghost use Rattle.json_model.specs.Same.{Same, SameElements};
ghost use Rattle.json_model.specs.Tree.{object};

use crate::equality::{equals_boolean, equals_null, equals_number, equals_string};
use crate::node_family::NodeFamily;

/// Whether two nodes are equal: of one type, numbers by value, arrays place by place, and objects with the same keys and equal
/// values under them. It passes over both once, by recursion as deep as the first nests, and takes no memory.
#[cycle(node_equality)]
pub fn equal_nodes<F: NodeFamily>(left: &F::Node, right: &F::Node) -> bool
    ensures { IsTrue result ↔ Same (F.Node.tree left.now) (F.Node.tree right.now) }
{
    if let Some(others) = F::as_array(right) {
        return match F::as_array(left) {
            Some(elements) => equal_arrays::<F>(&elements, &others),
            None => false,
        };
    }
    if let Some(others) = F::as_object(right) {
        return match F::as_object(left) {
            Some(members) => equal_objects::<F>(&members, &others),
            None => false,
        };
    }
    equals_scalar::<F>(left, right)
}

/// Whether a node is equal to one that is neither array nor object.
fn equals_scalar<F: NodeFamily>(left: &F::Node, right: &F::Node) -> bool
    requires no_array { None ≡ if_array (F.Node.tree right.now) }
    requires no_object { None ≡ if_object (F.Node.tree right.now) }
    ensures { IsTrue result ↔ Same (F.Node.tree left.now) (F.Node.tree right.now) }
{
    if let Some(text) = F::as_string(right) {
        return equals_string::<F>(left, F::as_str(&text));
    }
    if let Some(number) = F::as_number(right) {
        return equals_number::<F>(left, &number);
    }
    match F::as_boolean(right) {
        Some(truth) => equals_boolean::<F>(left, truth),
        None => equals_null::<F>(left),
    }
}

/// Whether two arrays have as many elements, and equal ones at each place.
#[cycle(node_equality)]
pub fn equal_arrays<F: NodeFamily>(left: &F::Array, right: &F::Array) -> bool
    ensures { IsTrue result
        ↔ SameElements (elements_from (elements_of (F.Array.tree left.now))) (elements_from (elements_of (F.Array.tree right.now))) }
{
    if F::element_count(left) != F::element_count(right) {
        return false;
    }
    let mut others = F::elements(right);
    for element in F::elements(left) {
        let Some(other) = others.next() else {
            return false;
        };
        if !equal_nodes::<F>(&element, &other) {
            return false;
        }
    }
    true
}

/// Whether two objects have the same keys, and equal values under each. Both stand in key order, so one pass over both side by side
/// tells.
#[cycle(node_equality)]
pub fn equal_objects<F: NodeFamily>(left: &F::Object, right: &F::Object) -> bool
    ensures { IsTrue result ↔ Same (object (members_from (pairs_of (F.Object.tree left.now))))
        (object (members_from (pairs_of (F.Object.tree right.now)))) }
{
    if F::member_count(left) != F::member_count(right) {
        return false;
    }
    let mut others = F::members(right);
    for member in F::members(left) {
        let Some(other) = others.next() else {
            return false;
        };
        if !equal_members::<F>(&member, &other) {
            return false;
        }
    }
    true
}

/// Whether two members have one key, and equal values.
#[cycle(node_equality)]
fn equal_members<F: NodeFamily>(left: &F::Member, right: &F::Member) -> bool
    ensures { IsTrue result ↔ (((F.pair left.now).0 ≡ (F.pair right.now).0) × Same (F.pair left.now).1 (F.pair right.now).1) }
{
    let key = F::key(left);
    let other_key = F::key(right);
    F::as_str(&key) == F::as_str(&other_key) && equal_nodes::<F>(&F::value(left), &F::value(right))
}
