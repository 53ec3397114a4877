//! Patterns of ECMA-262 for other readers.
//!
//! [`to_rust_regex`] writes a pattern for the crate `regex`, or says why it has no text. By Rust's grammar, as
//! `rust_pattern_model` has it, the text has a tree that is alike to the pattern's, and so the same matches, where the pattern has
//! no `.`, no `\b` or `\B` outside of classes, no property escape and no modifiers. That the crate reads the text so is not proved.
//!
//! | pattern | text for Rust |
//! |---|---|
//! | `^[a-z]+$`, `[^&]`, `]` | the same |
//! | `\d`, `[\d\w]` | `[0-9]`, `[[0-9][A-Za-z0-9_]]` |
//! | `[[a]]`, `[a&&b]`, `[a-z--b]` | `[\[a]]`, `[a\&\&b]`, `[a-z\--b]` |
//! | `(?<\u0061>x)`, `\0` | `(?<a>x)`, `\x00` |
//! | `(abc`, `(?=a)b`, `(a)\1`, `[]` | [`TranslateError`]: `Invalid`, `LookAround`, `BackReference`, `Unsupported` |
//!
//! In `rust_pattern_model`, `specs/Written.antt` has what is written for an escape, a code point and an atom of a class, row by row,
//! and `specs/Translation.antt` how these texts make that of a whole pattern.
//!
//! [`pattern_witness`] gives a text that a pattern matches where `^`, `$`, `\b` and `\B` are read as empty, or None:
//!
//! | pattern | witness |
//! |---|---|
//! | `^[a-z]+-[0-9]+$` | `a-0` |
//! | `\d{3}` | `000` |
//! | `a.b` | `aab` |
//! | `(?=a)b`, `(a)\1`, `a{100}`, `[^\s\S]` | none |
//!
//! Patterns are read by the widened grammar of `pattern_model`: its grammar of ECMA-262, but `]` and `}` may stand for themselves
//! outside of classes, and in a class `\d--`, and so with each class escape, is three items. The witness is that of
//! the tree, as `specs/Witness.antt` has it. There is none where the pattern has no text for Rust, for one of the causes in
//! `specs/Refusals.antt` of `rust_pattern_model`: look-around, back-references, and parts that are not translated, as an empty
//! class, `\b` in a class, or a count of 2^32 or more. Nor is there one where the pattern has a property escape or a group with
//! modifiers, since what these match is not told here.
//!
//! [`laws`] says that a pattern has at most one text for Rust. A tree without look-around, back-references, property escapes,
//! modifiers and counts of 2^32 or more matches its witness, if it has one, from end to end, where `^`, `$`, `\b` and `\B` are read
//! as empty.
#![tactic(auto)]

mod class;
mod escapes;
mod facts;
pub mod laws;
mod names;
mod pattern_text;
mod refusal;
mod text;
mod translate;
mod translate_error;
mod witness;
mod witness_of_pattern;
mod written;

pub use pattern_tree::OutOfMemory;
pub use translate::to_rust_regex;
pub use translate_error::TranslateError;
pub use witness_of_pattern::pattern_witness;
