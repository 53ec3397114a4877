//! Regular expressions as JSON Schema has them: patterns of ECMA-262 (16th edition, 2025) with the Unicode flag.
//!
//! [`is_valid_ecma_regex`] says whether a text is a pattern. [`analyze_pattern`] finds the patterns that need no engine, and a
//! [`LiteralPattern`] asks texts by what it found. [`pattern_as_prefix`] gives the text of a `Prefix` alone, and
//! [`is_ecma_whitespace`] and [`contains_ecma_whitespace`] know the characters of `\s`. These are calls of `literal_patterns`, with
//! its [`laws`].
//!
//! [`to_rust_regex`] writes a pattern for the crate `regex`, or gives a [`TranslateError`]. [`pattern_witness`] gives a text that a
//! pattern matches where `^`, `$`, `\b` and `\B` are read as empty. Both are those of `pattern_translation`.
//!
//! | text | a pattern? | analysis | for Rust | witness |
//! |---|---|---|---|---|
//! | `^x-` | yes | `Prefix` of `x-` | the same | `x-` |
//! | `^\d{4}$` | yes | none | `^[0-9]{4}$` | `0000` |
//! | `(?=a)b` | yes | none | [`TranslateError`]: `LookAround` | none |
//! | `(a)\2` | no: there is no second group | none | [`TranslateError`]: `Invalid` | none |
#![tactic(auto)]

pub use literal_patterns::{
    LiteralPattern, OutOfMemory, PatternAnalysis, analyze_pattern, contains_ecma_whitespace,
    is_ecma_whitespace, is_valid_ecma_regex, laws, pattern_as_prefix,
};
pub use pattern_translation::{TranslateError, pattern_witness, to_rust_regex};
