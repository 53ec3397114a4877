//! JSON equality of nodes and values: JSON Schema Core 2020-12, section 4.2.2.

ghost use Rattle.std.specs.Prelude.{◌≡◌, ◌↔◌, IsTrue, map};
ghost use Rattle.json_model.specs.Decimal.{IsSameValue};
ghost use Rattle.json_model.specs.Parts.{elements_from, members_from};
ghost use Rattle.json_model.specs.Same.{Same};
ghost use Rattle.json_model.specs.Tree.{array as array_of, boolean, null, number as number_of, object as object_of, scalar, string};
ghost use Rattle.json_exact.specs.Trees.{tree as value_tree, pairs};

use crate::node_family::NodeFamily;
use json_exact::{Map, Number, Value};

/// Whether a node is equal to a value: of one type, numbers by value, arrays place by place, and objects with the same keys and
/// equal values under them. It passes over both once, by recursion as deep as the value nests, and takes no memory.
#[cycle(equality)]
pub(crate) fn equals<F: NodeFamily>(node: &F::Node, expected: &Value) -> bool
    ensures { IsTrue result ↔ Same (F.Node.tree node.now) (value_tree expected.now) }
{
    match expected {
        Value::Null => equals_null::<F>(node),
        Value::Bool(truth) => equals_boolean::<F>(node, *truth),
        Value::Number(number) => equals_number::<F>(node, number),
        Value::String(text) => equals_string::<F>(node, text.as_str()),
        Value::Array(elements) => equals_array::<F>(node, elements.as_slice()),
        Value::Object(members) => equals_object::<F>(node, members),
    }
}

/// Whether a node is null.
pub(crate) fn equals_null<F: NodeFamily>(node: &F::Node) -> bool
    ensures { IsTrue result ↔ Same (F.Node.tree node.now) (scalar null) }
{
    F::is_null(node)
}

/// Whether a node is a truth value.
pub(crate) fn equals_boolean<F: NodeFamily>(node: &F::Node, expected: bool) -> bool
    ensures { IsTrue result ↔ Same (F.Node.tree node.now) (scalar (boolean expected)) }
{
    match F::as_boolean(node) {
        Some(truth) => truth == expected,
        None => false,
    }
}

/// Whether a node is a number of the same value, whatever fraction digits are written.
pub(crate) fn equals_number<F: NodeFamily>(node: &F::Node, expected: &Number) -> bool
    ensures { IsTrue result ↔ Same (F.Node.tree node.now) (scalar (number_of expected.now)) }
{
    match F::as_number(node) {
        Some(number) => has_same_value(&number, expected),
        None => false,
    }
}

/// Whether two numbers have one value.
fn has_same_value(left: &Number, right: &Number) -> bool
    ensures { IsTrue result ↔ IsSameValue left.now right.now }
{
    left.decimal() == right.decimal()
}

/// Whether a node is a string.
pub(crate) fn equals_string<F: NodeFamily>(node: &F::Node, expected: &str) -> bool
    ensures { IsTrue result ↔ Same (F.Node.tree node.now) (scalar (string expected.now)) }
{
    match F::as_string(node) {
        Some(text) => F::as_str(&text) == expected,
        None => false,
    }
}

/// Whether a node is an array of equal elements at each place.
#[cycle(equality)]
fn equals_array<F: NodeFamily>(node: &F::Node, expected: &[Value]) -> bool
    ensures { IsTrue result ↔ Same (F.Node.tree node.now) (array_of (elements_from (map value_tree expected.now))) }
{
    let Some(array) = F::as_array(node) else {
        return false;
    };
    if F::element_count(&array) != expected.len() {
        return false;
    }
    let mut elements = F::elements(&array);
    for i in 0..expected.len() {
        let Some(element) = elements.next() else {
            return false;
        };
        if !equals::<F>(&element, &expected[i]) {
            return false;
        }
    }
    true
}

/// Whether a node is an object with the same keys, and equal values under them. Both stand in key order, so one pass over both side by
/// side tells.
#[cycle(equality)]
fn equals_object<F: NodeFamily>(node: &F::Node, expected: &Map) -> bool
    ensures { IsTrue result ↔ Same (F.Node.tree node.now) (object_of (members_from (pairs expected.now))) }
{
    let Some(object) = F::as_object(node) else {
        return false;
    };
    if F::member_count(&object) != expected.len() {
        return false;
    }
    let mut members = F::members(&object);
    for (name, value) in expected.iter() {
        let Some(member) = members.next() else {
            return false;
        };
        if !equals_member::<F>(&member, name, value) {
            return false;
        }
    }
    true
}

/// Whether a member has a key, and a value that is equal to another.
#[cycle(equality)]
fn equals_member<F: NodeFamily>(member: &F::Member, name: &str, expected: &Value) -> bool
    ensures { IsTrue result ↔ (((F.pair member.now).0 ≡ name.now) × Same (F.pair member.now).1 (value_tree expected.now)) }
{
    let key = F::key(member);
    F::as_str(&key) == name && equals::<F>(&F::value(member), expected)
}
