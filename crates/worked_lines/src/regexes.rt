//! Patterns, literal or not.

use crate::texts::expand;
use jsonschema_regex::{
    LiteralPattern, PatternAnalysis, analyze_pattern, contains_ecma_whitespace,
    is_valid_ecma_regex, pattern_as_prefix,
};
use std::alloc::Global;

/// `TEXT PATTERN`: whether the pattern is one, its text where it is a prefix, and whether the text has white space; and where the pattern is
/// literal, its analysis, and whether that hits the text.
pub(crate) fn regex(alloc: Global, rest: &str) -> Option<String> {
    let (text, pattern) = rest.split_once(' ')?;
    let mut all = validity(alloc, pattern)?;
    write!(all, " {}", contains_ecma_whitespace(text)).ok()?;
    if let Some(analysis) = analyze_pattern(alloc, pattern).ok()? {
        add_hit(alloc, &mut all, analysis, text)?;
    }
    Some(all)
}

// Whether the pattern is one, and its text where it is a prefix; none from 2^30 bytes on.
fn validity(alloc: Global, pattern: &str) -> Option<String> {
    if pattern.len() >= 1 << 30 {
        return None;
    }
    let valid = is_valid_ecma_regex(alloc, pattern).ok()?;
    let prefix = pattern_as_prefix(alloc, pattern).ok()?;
    let prefix = prefix.as_ref().map(|text| text.as_str());
    format!(in alloc; "{valid} {prefix:?}").ok()
}

// The analysis of a literal pattern, and whether it hits the text.
fn add_hit(
    alloc: Global,
    all: &mut String,
    analysis: PatternAnalysis<'_>,
    text: &str,
) -> Option<()> {
    write!(all, " {analysis:?}").ok()?;
    let hits = LiteralPattern::keep(alloc, analysis).ok()?.hits(text);
    write!(all, " {hits}").ok()
}

/// `PARTS`: the same of a text whose parts stand between commas.
pub(crate) fn long(alloc: Global, rest: &str) -> Option<String> {
    regex(alloc, &expand(alloc, rest)?)
}
