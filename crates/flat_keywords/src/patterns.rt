//! Patterns: read to their analysis, and asked of documents.

ghost use Rattle.std.specs.Prelude.{◌↔◌, IsTrue, IfSome, IsSomeAnd, MatchResult};
ghost use Rattle.json_model.specs.Parts.{as_string, points};
ghost use Rattle.literal_patterns.specs.Analyses.{kept_of};
ghost use Rattle.pattern_model.specs.Literals.{IsAnalysis};
ghost use Rattle.flat_keywords.specs.inner.Passes.{AddFault, IsHit, IsRefusal};
ghost use Rattle.flat_keywords.specs.declared.keyword.Keyword.TheVariants as keywords;

use crate::errors::KeywordError;
use json_traits::Node;
use literal_patterns::{LiteralPattern, analyze_pattern, is_valid_ecma_regex};
use std::alloc::Global;

/// The analysis of the string under `pattern`, with texts of its own.
pub(crate) fn read_pattern<'a, N: Node<'a>>(
    alloc: Global,
    value: &N,
    member: usize,
) -> Result<LiteralPattern, KeywordError>
    ensures { MatchResult result
        (λ a. IsSomeAnd (as_string (N.tree value.now)) (λ s. IsAnalysis (points s) (kept_of a)))
        (AddFault member keywords.Pattern (N.tree value.now)) }
{
    let Some(pattern) = value.as_string() else {
        return Err(KeywordError::BadKeyword { member });
    };
    let Ok(found) = analyze_pattern(alloc, pattern) else {
        return Err(KeywordError::OutOfMemory);
    };
    let Some(analysis) = found else {
        return Err(refusal(alloc, pattern, member));
    };
    match LiteralPattern::keep(alloc, analysis) {
        Ok(kept) => Ok(kept),
        Err(_) => Err(KeywordError::OutOfMemory),
    }
}

/// Why a string that is not a literal pattern is refused.
fn refusal(alloc: Global, pattern: &str, member: usize) -> KeywordError
    ensures { IsRefusal member pattern.now result }
{
    if pattern.len() >= 1 << 30 {
        return KeywordError::OutOfMemory;
    }
    match is_valid_ecma_regex(alloc, pattern) {
        Ok(true) => KeywordError::PatternNotLiteral { member },
        Ok(false) => KeywordError::BadPattern { member },
        Err(_) => KeywordError::OutOfMemory,
    }
}

/// Whether a value is no string, or one that the pattern hits, if there is one.
pub(crate) fn meets_pattern<'a, N: Node<'a>>(pattern: &Option<LiteralPattern>, node: &N) -> bool
    ensures { IsTrue result ↔ IfSome pattern.now (IsHit (N.tree node.now)) }
{
    let Some(analysis) = pattern else {
        return true;
    };
    match node.as_string() {
        Some(text) => analysis.hits(text),
        None => true,
    }
}
