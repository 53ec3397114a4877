//! Reads patterns to their trees, by the grammar of `pattern_model`: that of ECMA-262 with the Unicode flag, and a widened one.
//!
//! [`read_ecma`] gives the [`Pattern`] of a text of fewer than 2^30 bytes, and None exactly where the text is no pattern. A
//! pattern is asked node by node, by [`NodeId`]: `root` is the whole, `form` says what a node is and which nodes are its parts,
//! `span` where it stands in the text, in bytes, `items` what a class lists and where, `name` what a group or a back-reference is
//! called, and `class_has` whether a code point is a member. None of these takes memory. For example `(?<n>a+)|b` has the nodes
//!
//! ```text
//! 0  Code(97)                          5..6
//! 1  Repeat { inner: 0, 1 or more }    5..7
//! 2  Group { Named, inner: 1 }         0..8
//! 3  Code(98)                          9..10
//! 4  Either { left: 2, right: 3 }      0..10
//! ```
//!
//! Nodes stand in one vector, each after its parts, so a walk over them needs no recursion, and a pattern may nest as deep as
//! its text is long: the reader goes over the text from left to right, over the digits of a count a few times, with a list of
//! the groups that are open.
//!
//! It keeps a map from each name to the place of its last group, and finds the innermost open group around a place by halves.
//! So, by review, n characters with k names and groups cost some n steps, and some log2 k comparisons of names for each name and
//! each back-reference by name. No comparison is longer than the name that is looked up, so these are at most some n times log2 k
//! steps in all.
//!
//! [`laws`] says that a text has at most one tree, and that the counts and ranges in it go from low to high.
#![tactic(auto)]

mod class;
mod class_item;
mod counters;
mod escape;
mod form;
mod grammar;
pub mod laws;
pub mod lexer;
mod members;
mod node;
mod number;
mod out_of_memory;
mod part;
mod pattern;
mod places;
mod reader;
mod span;
mod text;
mod token;
mod views;

pub use class_item::{ClassEscape, ClassForm, ClassItem};
pub use form::{Count, Form, GroupMark, NodeId};
pub use grammar::{read_ecma, read_widened};
pub use out_of_memory::OutOfMemory;
pub use pattern::Pattern;
pub use span::Span;
