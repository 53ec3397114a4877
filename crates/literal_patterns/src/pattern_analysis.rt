//! `PatternAnalysis`: what a literal pattern asks of a text.

ghost use Rattle.std.specs.Prelude.{◌≡◌, MatchOption};
ghost use Rattle.std.specs.Str.{chars};
ghost use Rattle.std.specs.Cow.{cow_str_bytes};
ghost use Rattle.pattern_model.specs.Text.{Text};
ghost use Rattle.pattern_model.specs.Literals.{Analysis};
ghost use Rattle.literal_patterns.specs.Analyses.{analysis_of};

use std::borrow::CowStr;

/// What a literal pattern asks of a text. It stands for the unanchored search for the pattern.
#[derive(Debug, PartialEq, Drop)]
pub enum PatternAnalysis<'a> {
    /// The text begins so: `^foo`.
    Prefix(CowStr<'a>),
    /// The text is this one: `^foo$`.
    Exact(CowStr<'a>),
    /// The text is one of these, which are sorted, each as often as the pattern has it: `^(foo|bar)$`.
    Alternation(Vec<String>),
    /// The text has no whitespace: `^\S*$`.
    NoWhitespace,
}

impl<'a> PatternAnalysis<'a> {
    /// The text of a prefix.
    pub(crate) fn into_prefix(self) -> Option<CowStr<'a>>
        ensures { MatchOption result ((w : Text) → analysis_of self.entry ≡ Analysis.prefix w → ⊥)
            (λ t. analysis_of self.entry ≡ Analysis.prefix (chars (cow_str_bytes t))) }
    {
        match self {
            PatternAnalysis::Prefix(text) => Some(text),
            PatternAnalysis::Exact(_) => None,
            PatternAnalysis::Alternation(_) => None,
            PatternAnalysis::NoWhitespace => None,
        }
    }
}
