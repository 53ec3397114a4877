//! Verdicts for lines: [`run`] is the program. And the calls that give them, which `flat_keywords` has.
//!
//! With no words [`run`] reads lines from a [`Source`], judges each by [`judge`], and writes one line of answer for each to a
//! [`Sink`]. A line is two hex texts with one space between, the keywords and the document. For example the lines
//!
//! ```text
//! 00000020 01000050000000c0
//! zz 00
//! ```
//!
//! ask whether null is valid under the empty object, and nothing. They are answered by
//!
//! ```text
//! valid
//! bad line
//! ```
//!
//! With the word `check4` each pair is judged by draft 4. With the word `encode` a line is JSON text, as `null`, and its answer is
//! the hex of the bytes that stand for it, as `01000050000000c0`, or why there are none. With `make` and a number it reads nothing:
//! it judges that many pairs of its own, and writes how many are valid.
//!
//! The loop over lines is that of `line_program`: a line has at most 2^24 bytes, and an input of fewer than 2^48 bytes is never too
//! long. A run ends with a [`Status`], and its contract says what was taken and written at each.
#![tactic(auto)]

mod answer;
mod code;
mod hex_pair;
mod kept;
mod make;
mod program;
pub mod run_laws;
mod words;

pub use flat_keywords::{
    Checks, Draft, Fault, JudgeError, KeywordError, judge, judge_draft, judge_values, laws,
};
pub use hex_pair::{read_pair, read_pair_into};
pub use line_program::{
    Failed, MemorySink, MemorySource, Sink, SinkError, Source, Status, SteadySink, SteadySource,
};
pub use program::run;
