//! `Value::from_serde`: a value from one of `serde_json`.

ghost use Rattle.std.specs.Prelude.{◌≡◌, Some, None, Err, IfOk, map, option_map, true, false};
ghost use Rattle.json_model.specs.Parts.{elements_from};
ghost use Rattle.json_model.specs.Tree.{scalar, number as number_scalar};
ghost use Rattle.json_exact.specs.Serde.{tree_of, number_tree, elements_of, pairs_of, in_key_order};
ghost use Rattle.json_exact.specs.Trees.{tree, pairs, member_pair};
ghost use Rattle.serde_json.specs.View.{view, number_view, items_view, members_view};
ghost use Rattle.serde_json.specs.Written.{has_float};

use crate::decimal::Decimal;
use crate::map::{Map, Member};
use crate::number::Number;
use crate::value::Value;
use std::alloc::{AllocError, Global};
use thiserror::Error;

/// Why a value of `serde_json` has no [`Value`]. The first that stands is answered.
#[derive(Clone, Copy, Debug, PartialEq, Eq, Error)]
pub enum FromSerdeError {
    /// A float stands in it, as in `[1.5]`. `serde_json` keeps each number as a float that is no whole number of 64 bits, or
    /// that is written with a fraction or an exponent, and a float rounds.
    #[error("Float")]
    Float,
    /// Memory could not be had.
    #[error("OutOfMemory")]
    OutOfMemory,
}

impl From<AllocError> for FromSerdeError {
    ghost use Rattle.std.specs.Prelude.{◌≡◌};
    ghost use Rattle.json_exact.specs.declared.from_serde.FromSerdeError.TheVariants.{OutOfMemory};

    ghost from_gives = { λ _ e. e ≡ OutOfMemory };

    fn from(_error: AllocError) -> FromSerdeError {
        FromSerdeError::OutOfMemory
    }
}

impl Value {
    /// The value of the same tree as one of `serde_json`. `Float` comes exactly where a float stands in it.
    ///
    /// It passes over the value once, by recursion as deep as it nests, and sorts the members of each object by their keys.
    pub fn from_serde(alloc: Global, value: &serde_json::Value) -> Result<Value, FromSerdeError>
        ensures tree { IfOk result (λ v. tree_of (view value.now) ≡ Some (tree v)) }
        ensures no_float { IfOk result (λ _. has_float (view value.now) ≡ false) }
        ensures float { result ≡ Err FromSerdeError.Float → has_float (view value.now) ≡ true }
    {
        value_of(alloc, value)
    }
}

/// The value of the same tree.
#[cycle(serde)]
fn value_of(alloc: Global, value: &serde_json::Value) -> Result<Value, FromSerdeError>
    ensures tree { IfOk result (λ v. tree_of (view value.now) ≡ Some (tree v)) }
    ensures float { result ≡ Err FromSerdeError.Float → tree_of (view value.now) ≡ None }
{
    match value {
        serde_json::Value::Null => Ok(Value::Null),
        serde_json::Value::Bool(truth) => Ok(Value::Bool(*truth)),
        serde_json::Value::Number(number) => Ok(Value::Number(number_of(number)?)),
        serde_json::Value::String(text) => {
            Ok(Value::String(String::from_str(alloc, text.as_str())?))
        }
        serde_json::Value::Array(items) => Ok(Value::Array(elements_of(alloc, items.as_slice())?)),
        serde_json::Value::Object(members) => Ok(Value::Object(members_of(alloc, members)?)),
    }
}

/// The number of a whole number.
fn number_of(number: &serde_json::Number) -> Result<Number, FromSerdeError>
    ensures number { IfOk result (λ n. number_tree (number_view number.now) ≡ Some (scalar (number_scalar n))) }
    ensures float { result ≡ Err FromSerdeError.Float → number_tree (number_view number.now) ≡ None }
{
    if let Some(natural) = number.as_u64() {
        Ok(Number::new(Decimal::from_u64(natural), 0))
    } else if let Some(whole) = number.as_i64() {
        Ok(Number::new(Decimal::from_i64(whole), 0))
    } else {
        Err(FromSerdeError::Float)
    }
}

/// The values of an array, in order.
#[cycle(serde)]
fn elements_of(alloc: Global, items: &[serde_json::Value]) -> Result<Vec<Value>, FromSerdeError>
    ensures elements { IfOk result (λ v. elements_of (items_view items.now) ≡ Some (elements_from (map tree v.items))) }
    ensures float { result ≡ Err FromSerdeError.Float → elements_of (items_view items.now) ≡ None }
{
    let mut elements = Vec::new(alloc);
    for item in items {
        let element = value_of(alloc, item)?;
        if elements.push(element).is_err() {
            return Err(FromSerdeError::OutOfMemory);
        }
    }
    Ok(elements)
}

/// The members of an object, in key order.
#[cycle(serde)]
fn members_of(
    alloc: Global,
    members: &serde_json::value::Map<String, serde_json::Value>,
) -> Result<Map, FromSerdeError>
    ensures members { IfOk result (λ m. option_map in_key_order (pairs_of (members_view members.now.entries)) ≡ Some (pairs m)) }
    ensures float { result ≡ Err FromSerdeError.Float → pairs_of (members_view members.now.entries) ≡ None }
{
    let mut list = Vec::new(alloc);
    for (name, value) in members.iter() {
        let key = String::from_str(alloc, name.as_str())?;
        let value = value_of(alloc, value)?;
        if list.push(Member { key, value }).is_err() {
            return Err(FromSerdeError::OutOfMemory);
        }
    }
    sorted(alloc, list)
}

/// The members in key order.
fn sorted(alloc: Global, list: Vec<Member>) -> Result<Map, FromSerdeError>
    ensures sorted { IfOk result (λ m. in_key_order (map member_pair list.items) ≡ pairs m) }
    ensures memory { result ≡ Err FromSerdeError.Float → ⊥ }
{
    // No key of an object of `serde_json` stands twice, so that only memory can be wanted.
    let Ok(members) = Map::from_members(alloc, list) else {
        return Err(FromSerdeError::OutOfMemory);
    };
    // They rise by key: so they are those in key order, which have the same look-ups.
    let _members = members.iter();
    Ok(members)
}
