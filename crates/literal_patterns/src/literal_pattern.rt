//! `LiteralPattern`: an analysis that is kept, and asked.

ghost use Rattle.std.specs.Prelude.{◌≡◌, ◌↔◌, IfOk, IsTrue, string_bytes, nat_eq};
ghost use Rattle.std.specs.List.{list_any};
ghost use Rattle.std.specs.Cmp.Lexicographic.{pointwise};
ghost use Rattle.std.specs.Str.{chars};
ghost use Rattle.pattern_model.specs.Literals.{Hits};
ghost use Rattle.literal_patterns.specs.Analyses.{analysis_of, kept_of};

use crate::pattern_analysis::PatternAnalysis;
use crate::text::{begins, is};
use crate::whitespace::contains_ecma_whitespace;
use pattern_tree::OutOfMemory;
use std::alloc::Global;

/// What a literal pattern asks of a text, with texts of its own.
#[derive(Debug, PartialEq, Drop)]
pub enum LiteralPattern {
    /// The text begins so.
    Prefix(String),
    /// The text is this one.
    Exact(String),
    /// The text is one of these.
    Alternation(Vec<String>),
    /// The text has no whitespace.
    NoWhitespace,
}

impl LiteralPattern {
    /// Keeps an analysis. It takes memory where a text is borrowed.
    pub fn keep(alloc: Global, analysis: PatternAnalysis<'_>) -> Result<LiteralPattern, OutOfMemory>
        ensures { IfOk result (λ kept. kept_of kept ≡ analysis_of analysis.entry) }
    {
        match analysis {
            PatternAnalysis::Prefix(text) => Ok(LiteralPattern::Prefix(text.into_owned(alloc)?)),
            PatternAnalysis::Exact(text) => Ok(LiteralPattern::Exact(text.into_owned(alloc)?)),
            PatternAnalysis::Alternation(texts) => Ok(LiteralPattern::Alternation(texts)),
            PatternAnalysis::NoWhitespace => Ok(LiteralPattern::NoWhitespace),
        }
    }

    /// Whether a text meets what is asked, which is whether the pattern matches some part of it. It takes no memory.
    pub fn hits(&self, text: &str) -> bool
        ensures { IsTrue result ↔ Hits (kept_of self.now) (chars text.now) }
    {
        match self {
            LiteralPattern::Prefix(front) => begins(text, front.as_str()),
            LiteralPattern::Exact(whole) => is(text, whole.as_str()),
            LiteralPattern::Alternation(texts) => is_among(text, texts),
            LiteralPattern::NoWhitespace => !contains_ecma_whitespace(text),
        }
    }
}

fn is_among(text: &str, texts: &[String]) -> bool
    ensures { result ≡ list_any (λ t. pointwise nat_eq text.now (string_bytes t)) texts.now }
{
    texts.iter().any(|other| text == other.as_str())
}
