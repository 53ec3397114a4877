//! Patterns that need no engine: which ones they are, and what they ask of a text.

ghost use Rattle.std.specs.Prelude.{◌≡◌, ◌∷◌, List, IfOk, IfSome, IfNone};
ghost use Rattle.std.specs.Str.{chars};
ghost use Rattle.std.specs.Cow.{cow_str_bytes};
ghost use Rattle.pattern_model.specs.Text.{Text};
ghost use Rattle.pattern_model.specs.Literals.{Analysis, IsAnalysis, Alternatives};
ghost use Rattle.literal_patterns.specs.Analyses.{analysis_of};

use crate::literal::split_literals;
use crate::pattern_analysis::PatternAnalysis;
use crate::text::{is, past};
use pattern_tree::OutOfMemory;
use std::alloc::{AllocError, Global};
use std::borrow::CowStr;

/// What a literal pattern asks of a text; None exactly for the other texts, some of which are patterns. The four forms are
///
/// | pattern | analysis |
/// |---|---|
/// | `^\S*$` | `NoWhitespace` |
/// | `^(`, literals, as often as you like `\|` and literals, `)$` | `Alternation` |
/// | `^`, literals, `$` | `Exact` |
/// | `^`, literals | `Prefix` |
///
/// A literal is an ASCII letter or digit, `-`, `_` or `/`, or one of the escapes `\/`, `\-`, `\_`, `\$` and `\.`, which stand for
/// their second character. Literals may be none at all, so that `^$` is `Exact` of the empty text.
///
/// It goes over the text once, from left to right. It takes memory for the texts of an `Alternation`, and for a text with an
/// escape; one without is borrowed. What it read so far may have taken memory where the answer is None, as for `^(a|b` and `^\/+`.
pub fn analyze_pattern(
    alloc: Global,
    pattern: &str,
) -> Result<Option<PatternAnalysis<'_>>, OutOfMemory>
    ensures some { IfOk result (λ o. IfSome o (λ a. IsAnalysis (chars pattern.now) (analysis_of a))) }
    ensures none { IfOk result (λ o. IfNone o ((a : Analysis) → IsAnalysis (chars pattern.now) a → ⊥)) }
{
    if is(pattern, "^\\S*$") {
        return Ok(Some(PatternAnalysis::NoWhitespace));
    }
    match past('^', pattern) {
        None => Ok(None),
        Some(body) => match past('(', body) {
            None => Ok(analyze_text(alloc, body)?),
            Some(inner) => Ok(analyze_alternatives(alloc, inner)?),
        },
    }
}

/// After the `^`: literals, and then `$` or nothing.
fn analyze_text(alloc: Global, body: &str) -> Result<Option<PatternAnalysis<'_>>, AllocError>
    ensures some { IfOk result (λ o. IfSome o (λ a. IsAnalysis (94 ∷ chars body.now) (analysis_of a))) }
    ensures none { IfOk result (λ o. IfNone o ((w : Text) →
        (IsAnalysis (94 ∷ chars body.now) (Analysis.prefix w) → ⊥)
        × (IsAnalysis (94 ∷ chars body.now) (Analysis.exact w) → ⊥))) }
{
    let (text, rest) = split_literals(alloc, body)?;
    if is(rest, "") {
        Ok(Some(PatternAnalysis::Prefix(text)))
    } else if is(rest, "$") {
        Ok(Some(PatternAnalysis::Exact(text)))
    } else {
        Ok(None)
    }
}

/// After `^(`: literals, as often as there are bars and literals, and then `)$`.
fn analyze_alternatives<'a>(
    alloc: Global,
    inner: &'a str,
) -> Result<Option<PatternAnalysis<'a>>, AllocError>
    ensures some { IfOk result (λ o. IfSome o (λ a. IsAnalysis (94 ∷ 40 ∷ chars inner.now) (analysis_of a))) }
    ensures none { IfOk result (λ o. IfNone o ((ws : List Text) → Alternatives (chars inner.now) ws → ⊥)) }
{
    let mut texts = Vec::new(alloc);
    let mut left = inner;
    loop {
        let (text, rest) = split_literals(alloc, left)?;
        texts.push(text.into_owned(alloc)?)?;
        match past('|', rest) {
            Some(more) => left = more,
            None if is(rest, ")$") => {
                texts.sort_unstable();
                return Ok(Some(PatternAnalysis::Alternation(texts)));
            }
            None => return Ok(None),
        }
    }
}

/// The text that a literal pattern asks another to begin with, where it asks this alone: for `^\$ref` it is `$ref`. None exactly
/// for all other texts, also for `^\$ref$`. It takes memory for a text with an escape.
pub fn pattern_as_prefix(alloc: Global, pattern: &str) -> Result<Option<CowStr<'_>>, OutOfMemory>
    ensures some { IfOk result (λ o. IfSome o (λ t.
        IsAnalysis (chars pattern.now) (Analysis.prefix (chars (cow_str_bytes t))))) }
    ensures none { IfOk result (λ o. IfNone o
        ((w : Text) → IsAnalysis (chars pattern.now) (Analysis.prefix w) → ⊥)) }
{
    match analyze_pattern(alloc, pattern)? {
        Some(analysis) => Ok(analysis.into_prefix()),
        None => Ok(None),
    }
}
