//! `Value::clone_in`: a copy of a value.

ghost use Rattle.std.specs.Prelude.{◌≡◌, ℕ, List, IfOk, OnOk, Some, bytes_eq, if◌then◌else◌, map, string_bytes};
ghost use Rattle.json_model.specs.Parts.{lookup};
ghost use Rattle.json_exact.specs.Trees.{tree, pairs};

use crate::map::Map;
use crate::out_of_memory::OutOfMemory;
use crate::value::Value;
use std::alloc::Global;

impl Value {
    /// A value of the same tree, written fraction digits included, in memory of its own. It passes over the value once, by recursion
    /// as deep as it nests. Where memory could not be had, what was copied is dropped.
    pub fn clone_in(&self, alloc: Global) -> Result<Value, OutOfMemory>
        ensures { IfOk result (λ v. tree v ≡ tree self.now) }
    {
        clone_value(alloc, self)
    }
}

/// A copy of a value.
#[cycle(cloning)]
fn clone_value(alloc: Global, value: &Value) -> Result<Value, OutOfMemory>
    ensures { IfOk result (λ v. tree v ≡ tree value.now) }
{
    match value {
        Value::Null => Ok(Value::Null),
        Value::Bool(truth) => Ok(Value::Bool(*truth)),
        Value::Number(number) => Ok(Value::Number(*number)),
        Value::String(text) => Ok(Value::String(String::from_str(alloc, text.as_str())?)),
        Value::Array(elements) => Ok(Value::Array(clone_elements(alloc, elements.as_slice())?)),
        Value::Object(members) => Ok(Value::Object(clone_members(alloc, members)?)),
    }
}

/// Copies of values, in order.
#[cycle(cloning)]
fn clone_elements(alloc: Global, elements: &[Value]) -> Result<Vec<Value>, OutOfMemory>
    ensures { IfOk result (λ v. map tree v.items ≡ map tree elements.now) }
{
    let mut copies = Vec::new(alloc);
    for i in 0..elements.len() {
        let copy = clone_value(alloc, &elements[i])?;
        if copies.push(copy).is_err() {
            return Err(OutOfMemory);
        }
    }
    Ok(copies)
}

/// A copy of a map.
#[cycle(cloning)]
fn clone_members(alloc: Global, members: &Map) -> Result<Map, OutOfMemory>
    ensures { IfOk result (λ m. pairs m ≡ pairs members.now) }
{
    let mut copies = Map::new(alloc);
    for (name, value) in members.iter() {
        let copy = clone_value(alloc, value)?;
        put(alloc, &mut copies, name, copy)?;
    }
    // The members of both rise by key: so those that have the same look-ups are the same.
    let _members = copies.iter();
    Ok(copies)
}

/// Puts a value under a key of its own.
fn put(alloc: Global, members: &mut Map, name: &str, value: Value) -> Result<(), OutOfMemory>
    ensures { OnOk result ((k : List ℕ) → lookup k (pairs members.new)
        ≡ (if bytes_eq k name.now then Some (tree value) else lookup k (pairs members.old))) }
{
    let key = String::from_str(alloc, name)?;
    let _replaced = members.insert(key, value)?;
    Ok(())
}
