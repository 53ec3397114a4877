//! What each check asks of a document.

ghost use Rattle.std.specs.Prelude.{◌≡◌, ◌↔◌, ◌⊎◌, false, None, IsOk, IsTrue, IfOk, IfSome};
ghost use Rattle.json_model.specs.Parts.{as_array, as_number};
ghost use Rattle.json_traits.specs.Allowed.{AllowsType};
ghost use Rattle.flat_keywords.specs.inner.Passes.{AllowsWritten, IsBetween, KeepsAll, MeetsUnique};
ghost use Rattle.flat_keywords.specs.Verdict.{count_of};
ghost use Rattle.flat_keywords.specs.declared.keyword.Measure.TheVariants as measures;

use crate::bounds::Bounds;
use crate::limits::Limits;
use crate::narrow::is_written_whole;
use json_exact::OutOfMemory;
use json_traits::types::{JsonType, JsonTypeSet};
use json_traits::{Array, JsonNumber, Node, Object};
use std::alloc::Global;

/// Whether a value is of a type of the set.
pub(crate) fn meets_types<'a, N: Node<'a>>(types: Option<JsonTypeSet>, node: &N) -> bool
    ensures { IsTrue result ↔ IfSome types (λ set. AllowsType set (N.tree node.now)) }
{
    match types {
        Some(set) => set.contains_value_type(node),
        None => true,
    }
}

/// Whether a value is of a type of the set, by how it is written.
pub(crate) fn meets_written_types<'a, N: Node<'a>>(types: Option<JsonTypeSet>, node: &N) -> bool
    ensures { IsTrue result ↔ IfSome types (λ set. AllowsWritten set (N.tree node.now)) }
{
    match types {
        Some(set) => allows_written(set, node),
        None => true,
    }
}

/// Whether a set holds a type of a value, by how it is written.
fn allows_written<'a, N: Node<'a>>(set: JsonTypeSet, node: &N) -> bool
    ensures { IsTrue result ↔ AllowsWritten set (N.tree node.now) }
{
    set.contains(node.json_type()) | (set.contains(JsonType::Integer) & is_written_whole(node))
}

/// Whether a value is no number, or one that keeps every bound. The number is read once.
#[tactic(auto, using(json_model::proofs::KindLaws::number_some, json_model::proofs::KindLaws::number_none))]
pub(crate) fn meets_bounds<'a, N: Node<'a>>(bounds: &Bounds, node: &N) -> bool
    ensures { IsTrue result ↔ IfSome (as_number (N.tree node.now)) (KeepsAll bounds.now) }
{
    if bounds.is_empty() {
        return true;
    }
    match node.as_number() {
        Some(number) => bounds.are_kept_by(&number.to_number()),
        None => true,
    }
}

/// Whether a value is no string, or one whose count of code points is within the limits.
pub(crate) fn meets_code_points<'a, N: Node<'a>>(limits: &Limits, node: &N) -> bool
    ensures { IsTrue result
        ↔ IfSome (count_of measures.CodePoints (N.tree node.now)) (IsBetween limits.now) }
{
    if limits.is_empty() {
        return true;
    }
    match node.string_length() {
        Some(length) => limits.have(length),
        None => true,
    }
}

/// Whether a value is no array, or one whose count of elements is within the limits.
#[tactic(auto, using(json_model::proofs::KindLaws::array_some, json_model::proofs::KindLaws::array_none, json_model::proofs::KindLaws::if_array_is))]
pub(crate) fn meets_elements<'a, N: Node<'a>>(limits: &Limits, node: &N) -> bool
    ensures { IsTrue result
        ↔ IfSome (count_of measures.Elements (N.tree node.now)) (IsBetween limits.now) }
{
    if limits.is_empty() {
        return true;
    }
    match node.as_array() {
        Some(array) => limits.have(array.len() as u64),
        None => true,
    }
}

/// Whether a value is no object, or one whose count of members is within the limits.
#[tactic(auto, using(json_model::proofs::KindLaws::object_some, json_model::proofs::KindLaws::object_none, json_model::proofs::KindLaws::if_object_is))]
pub(crate) fn meets_members<'a, N: Node<'a>>(limits: &Limits, node: &N) -> bool
    ensures { IsTrue result
        ↔ IfSome (count_of measures.Members (N.tree node.now)) (IsBetween limits.now) }
{
    if limits.is_empty() {
        return true;
    }
    match node.as_object() {
        Some(object) => limits.have(object.len() as u64),
        None => true,
    }
}

/// Whether unique elements are not asked for, or a value is no array, or one of which no two elements are equal. It takes memory
/// for an array alone, and only where they are asked for.
#[tactic(auto, using(json_model::proofs::KindLaws::array_some, json_model::proofs::KindLaws::array_none, json_model::proofs::KindLaws::if_array_is))]
pub(crate) fn meets_unique<'a, N: Node<'a>>(
    unique: bool,
    alloc: Global,
    node: &N,
) -> Result<bool, OutOfMemory>
    ensures ok { (unique ≡ false) ⊎ (as_array (N.tree node.now) ≡ None) → IsOk result }
    ensures right { IfOk result (λ b. IsTrue b ↔ MeetsUnique unique (N.tree node.now)) }
{
    if !unique {
        return Ok(true);
    }
    match node.as_array() {
        Some(array) => array.is_unique(alloc),
        None => Ok(true),
    }
}
