//! What is written for Rust in place of a pattern of ECMA-262, and how Rust reads it.
//!
//! There is no code here that runs. `specs/` has the definitions, a file a concept, which `pattern_translation` cites:
//!
//! - `Refusals`: which patterns have no text for Rust, and why.
//! - `Written` and `Translation`: what is written for an escape, a code point and an atom of a class, row by row, and how these
//!   make the text of a whole pattern.
//! - `RustClasses` and `RustPatterns`: which text is which pattern, by Rust's written grammar.
//! - `Alike`: trees that are the same, but that classes and class escapes need only have the same members.
//!
//! Rust's written grammar is the part of the syntax of the crate `regex` that is spoken of here. That the crate reads a text so
//! is not proved. In prose:
//!
//! - Alternatives, rows and quantifiers are as in ECMA-262, and so are `^`, `$`, `(` and `(?:`. Counts are below 2^32. In
//!   `(?<name>` the name is an ASCII letter or `_`, and then ASCII letters, digits and `_`; groups share one as in ECMA-262.
//! - Outside of classes a character stands for itself, but for `\ ^ $ . | ? * + ( ) [ {`.
//! - Escapes are `\f \n \r \t \v`; `\x41`, `\u0041`, `\x{41}` and `\u{41}`, with the number of a Unicode scalar value; and a
//!   backslash before an ASCII character that is no letter, no digit, no `<` and no `>`.
//! - A class is `[`, then `^` if it is negated, one item or more, `]`. A `^` right behind `[` always negates. An item is an atom, a
//!   range from a lower to a higher one or of one, or a class in the class, which has its members. An atom is an escape, or any character but `[`, `]` and `\`.
//! - Behind an atom a `-` makes a range where neither `]` nor `-` follows it. Where an item may begin, `&&`, `--` and `~~` are set
//!   operations, and such a text is not read here.
//!
//! No other text is read here: not `.`, `\b`, `\B`, `\d`, `\p{L}` or `(?i:a)`.
//!
//! For example `[\w--]` is written as `[[A-Za-z0-9_]\-\-]`. By Rust's grammar that is a class of three items, one of them a class,
//! and it has the same members. `proofs/Rows.antt` has more such rows.
//!
//! [`laws`] says that the text for Rust of a pattern without `.`, `\b`, `\B`, property escapes and modifiers has a tree that is alike to
//! the pattern's, that all trees of one text are alike, and that alike trees match the same parts of every text.
#![tactic(auto)]

pub mod laws;
