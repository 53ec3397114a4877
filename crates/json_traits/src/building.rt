//! Values that are built from nodes.

ghost use Rattle.std.specs.Prelude.{◌≡◌, ◌++◌, ◌∷◌, [], ℕ, List, Some, None, IfOk, OnOk, bytes_eq, if◌then◌else◌, map, string_bytes};
ghost use Rattle.json_model.specs.Parts.{elements_of, if_array, if_object, lookup, pairs_of};
ghost use Rattle.json_exact.specs.Trees.{tree as value_tree, pairs};

use crate::node_family::NodeFamily;
use json_exact::{Map, OutOfMemory, Value};
use std::alloc::Global;

/// A value of a node's tree, written fraction digits included. It passes over the node once, by recursion as deep as it nests. Where
/// memory could not be had, what was built is dropped.
#[cycle(building)]
pub(crate) fn build<F: NodeFamily>(alloc: Global, node: &F::Node) -> Result<Value, OutOfMemory>
    ensures { IfOk result (λ v. value_tree v ≡ F.Node.tree node.now) }
{
    if let Some(array) = F::as_array(node) {
        let values = build_elements::<F>(alloc, &array)?;
        return Ok(Value::Array(values));
    }
    if let Some(object) = F::as_object(node) {
        let members = build_members::<F>(alloc, &object)?;
        return Ok(Value::Object(members));
    }
    build_scalar::<F>(alloc, node)
}

/// A value of a node that is neither array nor object.
fn build_scalar<F: NodeFamily>(alloc: Global, node: &F::Node) -> Result<Value, OutOfMemory>
    requires no_array { None ≡ if_array (F.Node.tree node.now) }
    requires no_object { None ≡ if_object (F.Node.tree node.now) }
    ensures { IfOk result (λ v. value_tree v ≡ F.Node.tree node.now) }
{
    if let Some(text) = F::as_string(node) {
        return Ok(Value::String(String::from_str(alloc, F::as_str(&text))?));
    }
    if let Some(number) = F::as_number(node) {
        return Ok(Value::Number(number));
    }
    match F::as_boolean(node) {
        Some(truth) => Ok(Value::Bool(truth)),
        None => Ok(Value::Null),
    }
}

/// Values of the trees of an array's elements, in order.
#[cycle(building)]
fn build_elements<F: NodeFamily>(alloc: Global, array: &F::Array) -> Result<Vec<Value>, OutOfMemory>
    ensures { IfOk result (λ v. map value_tree v.items ≡ elements_of (F.Array.tree array.now)) }
{
    let mut values = Vec::new(alloc);
    for element in F::elements(array) {
        let value = build::<F>(alloc, &element)?;
        push(&mut values, value)?;
    }
    Ok(values)
}

/// The map of an object's members.
#[cycle(building)]
fn build_members<F: NodeFamily>(alloc: Global, object: &F::Object) -> Result<Map, OutOfMemory>
    ensures { IfOk result (λ m. pairs m ≡ pairs_of (F.Object.tree object.now)) }
{
    let mut members = Map::new(alloc);
    for member in F::members(object) {
        let value = build::<F>(alloc, &F::value(&member))?;
        let name = F::key(&member);
        put(alloc, &mut members, F::as_str(&name), value)?;
    }
    // The members of both rise by key: so those that have the same look-ups are the same.
    let _members = members.iter();
    Ok(members)
}

/// Puts a value behind others.
fn push(values: &mut Vec<Value>, value: Value) -> Result<(), OutOfMemory>
    ensures { OnOk result (values.new.items ≡ values.old.items ++ value ∷ []) }
{
    match values.push(value) {
        Ok(()) => Ok(()),
        Err(_) => Err(OutOfMemory),
    }
}

/// Puts a value under a key of its own.
fn put(alloc: Global, members: &mut Map, name: &str, value: Value) -> Result<(), OutOfMemory>
    ensures { OnOk result ((k : List ℕ) → lookup k (pairs members.new)
        ≡ (if bytes_eq k name.now then Some (value_tree value) else lookup k (pairs members.old))) }
{
    let key = String::from_str(alloc, name)?;
    let _replaced = members.insert(key, value)?;
    Ok(())
}
