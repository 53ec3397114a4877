//! What draft 4 asks of the value of a keyword besides what both drafts ask.

ghost use Rattle.std.specs.Prelude.{◌↔◌, ◌<◌, length, IfOk, IsSome, IsSomeAnd, IsTrue, OnErr};
ghost use Rattle.json_model.specs.Parts.{as_array};
ghost use Rattle.flat_keywords.specs.Draft4.{AreChoices, IsNarrow, IsWrittenWhole};
ghost use Rattle.flat_keywords.specs.Validity.{IsNarrowBy, TakesMemory};

use crate::draft::Reading;
use crate::keyword::Keyword;
use json_exact::OutOfMemory;
use json_traits::{Array, JsonNumber, Node};
use std::alloc::Global;

/// Whether a value has what its draft asks besides. It takes memory for an array under `enum` in draft 4 alone.
pub(crate) fn is_narrow_by<'a, N: Node<'a>>(
    alloc: Global,
    reading: Reading,
    keyword: Keyword,
    value: &N,
) -> Result<bool, OutOfMemory>
    ensures memory { OnErr result (TakesMemory keyword (N.tree value.now)) }
    ensures right { IfOk result (λ b. IsTrue b ↔ IsNarrowBy reading keyword (N.tree value.now)) }
{
    match reading {
        Reading::Draft2020 => Ok(true),
        Reading::Draft4(_) => is_narrow(alloc, keyword, value),
    }
}

/// Whether a value has what draft 4 asks besides.
fn is_narrow<'a, N: Node<'a>>(
    alloc: Global,
    keyword: Keyword,
    value: &N,
) -> Result<bool, OutOfMemory>
    ensures memory { OnErr result (TakesMemory keyword (N.tree value.now)) }
    ensures right { IfOk result (λ b. IsTrue b ↔ IsNarrow keyword (N.tree value.now)) }
{
    match keyword {
        Keyword::Enum => are_choices(alloc, value),
        Keyword::Least(_) => Ok(is_written_whole(value)),
        Keyword::Greatest(_) => Ok(is_written_whole(value)),
        Keyword::Required => Ok(is_filled(value)),
        Keyword::Type => Ok(true),
        Keyword::Const => Ok(true),
        Keyword::Bound(_) => Ok(true),
        Keyword::Pattern => Ok(true),
        Keyword::UniqueItems => Ok(true),
        Keyword::Silent(_) => Ok(true),
        Keyword::WrittenType => Ok(true),
    }
}

/// Whether a value is an array of at least one element, of which no two are equal.
#[tactic(auto, using(json_model::proofs::KindLaws::array_some, json_model::proofs::KindLaws::array_none))]
fn are_choices<'a, N: Node<'a>>(alloc: Global, value: &N) -> Result<bool, OutOfMemory>
    ensures memory { OnErr result (IsSome (as_array (N.tree value.now))) }
    ensures right { IfOk result (λ b. IsTrue b ↔ IsSomeAnd (as_array (N.tree value.now)) AreChoices) }
{
    let Some(list) = value.as_array() else {
        return Ok(false);
    };
    if list.len() == 0 {
        return Ok(false);
    }
    list.is_unique(alloc)
}

/// Whether a value is an array of at least one element.
#[tactic(auto, using(json_model::proofs::KindLaws::array_some, json_model::proofs::KindLaws::array_none))]
fn is_filled<'a, N: Node<'a>>(value: &N) -> bool
    ensures { IsTrue result ↔ IsSomeAnd (as_array (N.tree value.now)) (λ vs. 0 < length vs) }
{
    match value.as_array() {
        Some(list) => list.len() > 0,
        None => false,
    }
}

/// Whether a value is a number with no written fraction digits.
#[tactic(auto, using(json_model::proofs::KindLaws::number_some, json_model::proofs::KindLaws::number_none))]
pub(crate) fn is_written_whole<'a, N: Node<'a>>(value: &N) -> bool
    ensures { IsTrue result ↔ IsWrittenWhole (N.tree value.now) }
{
    match value.as_number() {
        Some(number) => number.to_number().fraction_digits() == 0,
        None => false,
    }
}
