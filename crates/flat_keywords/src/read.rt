//! The values of keywords, read.

ghost use Rattle.std.specs.Prelude.{◌≡◌, ◌↔◌, Some, IsSome, IsSomeAnd, IsTrue, MatchOption, MatchResult};
ghost use Rattle.json_model.specs.Parts.{as_array, as_boolean, as_number};
ghost use Rattle.json_traits.specs.declared.types.json_type.JsonType.{JsonType};
ghost use Rattle.flat_keywords.specs.inner.Passes.{IsBadForm, IsBoundOf, IsLimitOf, IsSetOf, IsSetOfList};
ghost use Rattle.flat_keywords.specs.Validity.{AreTypeNames, HasForm, IsCount, IsOfForm};
ghost use Rattle.flat_keywords.specs.Verdict.{IsNameOf};
ghost use Rattle.flat_keywords.specs.declared.keyword.Keyword.TheVariants as keywords;

use crate::errors::KeywordError;
use crate::keyword::Form;
use crate::limits::Limit;
use json_semantics::numeric_check::{BoundOp, CompiledBound, compile_bound};
use json_traits::types::{JsonType, JsonTypeSet};
use json_traits::{Array, JsonNumber, Node};

/// The type that a string names.
fn read_type<'a, N: Node<'a>>(value: &N) -> Option<JsonType>
    ensures { (t : JsonType) → (result ≡ Some t) ↔ IsNameOf t (N.tree value.now) }
{
    match value.as_string()?.parse::<JsonType>() {
        Ok(json_type) => Some(json_type),
        Err(()) => None,
    }
}

/// The set of the types that a list names: at least one, and none twice.
fn read_type_list<'a, N: Node<'a>>(value: &N) -> Option<JsonTypeSet>
    ensures { MatchOption result
        (IsSomeAnd (as_array (N.tree value.now)) AreTypeNames → ⊥)
        (IsSetOfList (N.tree value.now)) }
{
    let list = value.as_array()?;
    if list.len() == 0 {
        return None;
    }
    let mut set = JsonTypeSet::empty();
    for element in list.elements() {
        let Some(json_type) = read_type(&element) else {
            return None;
        };
        if set.contains(json_type) {
            return None;
        }
        set = set.insert(json_type);
    }
    Some(set)
}

/// The set of the types that the value of `type` names, alone or in a list.
pub(crate) fn read_types<'a, N: Node<'a>>(
    value: &N,
    member: usize,
) -> Result<JsonTypeSet, KeywordError>
    ensures { MatchResult result
        (λ set. HasForm keywords.«Type» (N.tree value.now) × IsSetOf (N.tree value.now) set)
        (IsBadForm member (HasForm keywords.«Type» (N.tree value.now))) }
{
    if let Some(json_type) = read_type(value) {
        return Ok(JsonTypeSet::from(json_type));
    }
    match read_type_list(value) {
        Some(set) => Ok(set),
        None => Err(KeywordError::BadKeyword { member }),
    }
}

/// The bound that a number sets.
#[tactic(auto, using(json_model::proofs::KindLaws::number_some, json_model::proofs::KindLaws::number_none, crate::proofs::BoundLaws::is_bound))]
pub(crate) fn read_bound<'a, N: Node<'a>>(
    op: BoundOp,
    value: &N,
    member: usize,
) -> Result<CompiledBound, KeywordError>
    ensures { MatchResult result
        (λ bound. IsSomeAnd (as_number (N.tree value.now)) (IsBoundOf op bound))
        (IsBadForm member (IsSome (as_number (N.tree value.now)))) }
{
    match value.as_number() {
        Some(number) => Ok(compile_bound(op, &number.to_number())),
        None => Err(KeywordError::BadKeyword { member }),
    }
}

/// The truth value that the value of `uniqueItems` is.
pub(crate) fn read_truth<'a, N: Node<'a>>(value: &N, member: usize) -> Result<bool, KeywordError>
    ensures { MatchResult result
        (λ truth. as_boolean (N.tree value.now) ≡ Some truth)
        (IsBadForm member (IsSome (as_boolean (N.tree value.now)))) }
{
    match value.as_boolean() {
        Some(truth) => Ok(truth),
        None => Err(KeywordError::BadKeyword { member }),
    }
}

/// Looks at a value that asks nothing of a document.
pub(crate) fn read_silent<'a, N: Node<'a>>(
    form: Form,
    value: &N,
    member: usize,
) -> Result<(), KeywordError>
    ensures { MatchResult result
        (λ _. IsOfForm form (N.tree value.now))
        (IsBadForm member (IsOfForm form (N.tree value.now))) }
{
    if is_of_form(form, value) {
        Ok(())
    } else {
        Err(KeywordError::BadKeyword { member })
    }
}

/// Whether a value is of a form.
#[tactic(auto, using(json_model::proofs::KindLaws::array_some, json_model::proofs::KindLaws::array_none))]
fn is_of_form<'a, N: Node<'a>>(form: Form, value: &N) -> bool
    ensures { IsTrue result ↔ IsOfForm form (N.tree value.now) }
{
    match form {
        Form::Anything => true,
        Form::Text => value.is_string(),
        Form::Truth => value.as_boolean().is_some(),
        Form::Array => value.as_array().is_some(),
        Form::Nothing => false,
    }
}

/// The limit of a count that a number sets.
#[tactic(auto, using(json_model::proofs::KindLaws::number_some, json_model::proofs::KindLaws::number_none))]
pub(crate) fn read_limit<'a, N: Node<'a>>(value: &N, member: usize) -> Result<Limit, KeywordError>
    ensures { MatchResult result
        (λ limit. IsSomeAnd (as_number (N.tree value.now)) (λ m. IsCount m × IsLimitOf limit m))
        (IsBadForm member (IsSomeAnd (as_number (N.tree value.now)) IsCount)) }
{
    let Some(number) = value.as_number() else {
        return Err(KeywordError::BadKeyword { member });
    };
    match Limit::of_number(&number.to_number()) {
        Some(limit) => Ok(limit),
        None => Err(KeywordError::BadKeyword { member }),
    }
}
