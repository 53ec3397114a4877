//! Is a document valid under a keyword object, by JSON Schema 2020-12? Both are PostgreSQL `jsonb` bytes, or values in
//! memory.
//!
//! [`judge`] answers for two slices. For example the keywords `01000020 04000080 07000000 74797065 696e7465676572`, in hex,
//! are `{"type":"integer"}`, and the document `01000050 08000090 20000000 8080 0100` is 1.0: it is valid, since 1.0 is an
//! integer. Both are checked completely, even parts that no keyword looks at; the document only if the keywords have no fault.
//! What is no JSON tree or no keyword object is refused by a [`JudgeError`].
//!
//! [`judge_values`] answers for two `json_exact::Value`s. Both stand on [`Checks`], a keyword object that is compiled once and
//! checks many documents, whatever holds them: [`Checks::compile`] and [`Checks::check`] take each `json_traits::Node`. Why a
//! keyword object is refused, and mostly where, is a [`KeywordError`]. Nodes of one tree get one verdict ([`laws::one_verdict`]).
//!
//! The keywords are `type`, `enum`, `const`, the four bounds of numbers, the least and greatest counts of code points, elements and
//! members, `uniqueItems`, `pattern` and `required`, and the eight that ask nothing of a document, as `title`. A `pattern` is taken
//! where it is literal, as `^x-` and `^(a|b)$`: `literal_patterns` says which those are.
//!
//! For many documents under one keyword object there are [`Checks::compile_slice`] and [`Checks::judge_slice`], of which [`judge`] is made.
//!
//! [`judge_draft`] and [`Checks::compile_draft`] take keywords of [`Draft`] 4 too, where 1.0 is no integer and `exclusiveMinimum` is
//! a truth value.
#![tactic(auto)]

mod bounds;
mod checks;
mod draft;
mod errors;
mod kept;
mod keyword;
pub mod laws;
mod limits;
mod meets;
mod names;
mod narrow;
mod patterns;
mod read;
mod required;
mod slices;
mod values;
mod verdict;

pub use checks::Checks;
pub use draft::Draft;
pub use errors::{Fault, JudgeError, KeywordError};
pub use values::judge_values;
pub use verdict::{judge, judge_draft};
