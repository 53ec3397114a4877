//! A program that answers lines of bytes: it reads lines from a [`Source`], and writes one line of answer for each to a [`Sink`].
//!
//! A [`Command`] says which texts answer a line, and gives one of them. It may keep buffers, or what it worked out, from line to line;
//! which texts answer a line does not depend on that. [`answer_lines`] is the loop. For example a command that answers each line by its
//! length in decimal digits makes of the lines
//!
//! ```text
//! abc
//!
//! de
//! ```
//!
//! the lines `3`, `0` and `2`. A line ends with the byte 0x0A, but maybe the last. It has at most 2^24 bytes, and an input of fewer
//! than 2^48 bytes is never too long. A run ends with a [`Status`], and its contract says what was taken and written at each.
//!
//! [`StdinSource`] and [`StdoutSink`] are the streams of a program, and [`words_of`] gives the words of its command line. In memory there
//! are [`MemorySource`] and [`MemorySink`], which fail at listed calls, and [`SteadySource`] and [`SteadySink`], which never fail.
#![tactic(auto)]

mod command;
mod cut;
mod lines;
mod memory;
mod put;
mod run;
mod standard;
mod status;
mod steady;
mod stream;
mod words;

pub use command::Command;
pub use cut::cut_at;
pub use memory::{MemorySink, MemorySource};
pub use put::put_all;
pub use run::answer_lines;
pub use standard::{StdinSource, StdoutSink};
pub use status::Status;
pub use steady::{SteadySink, SteadySource};
pub use stream::{Failed, Sink, SinkError, Source};
pub use words::words_of;
