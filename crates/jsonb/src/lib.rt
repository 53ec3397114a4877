//! Reads JSON in place from the bytes of PostgreSQL's `jsonb`. A column's value begins with a length header, which is not part of
//! them: [`encode::strip_varlena`] takes it off.
//!
//! [`Jsonb::root`] takes a whole slice, looks at every part of it, and gives the root's [`JsonbNode`], which borrows the
//! slice and builds no tree. A node answers what it is by the traits of `json_traits`: `Node` tells the type and gives a
//! string with its length in code points, a boolean or null, a [`JsonbObject`], a [`JsonbArray`] or a [`JsonbNumber`].
//! `Object` has its members in key order, by [`JsonbMembers`]; `Array` its elements, by [`Cursor`]; `JsonNumber` its exact
//! value and written fraction digits. An iterator goes over each entry once, at any depth; `members` passes over the keys
//! once more, to find the values behind them. The value under a key is found by `get_named`, by `get` with a prepared
//! [`JsonbKey`], and by [`JsonbObject::get_counted`], which counts the entry words that it reads in [`Steps`]: of n members at
//! most 33 p + 34, for a p with 2^p at most 2 n + 1, as 364 of a thousand. The other two are that call, with steps that are not
//! kept. None of a node's calls takes memory, but `as_str` of a number, `is_unique` of an array, and those that make a value.
//! [`element_hash`] is the number of a value, by which equal elements are found. For example the bytes, in hex,
//!
//! ```text
//! 01000050 08000090 20000000 8080 0100
//! ```
//!
//! are the root scalar 1.0: an array of one item that is marked as a scalar, one entry, and the number's header and one
//! digit group.
//!
//! The layout is the one of PostgreSQL's `src/include/utils/jsonb.h` and `src/backend/utils/adt/numeric.c` on a machine with
//! low bytes first: entries hold lengths and, at each 32nd place, offsets; keys are in order of length and then of bytes;
//! numbers and containers are at the next 4-byte place, after zero bytes. What is laid out otherwise is refused, trailing bytes
//! too. So is a number that no decimal of 38 digits holds, and a text that is not UTF-8; [`JsonbError`] says which. Containers
//! may nest as deep as a slice is long: the reader takes memory for the nesting alone, past four containers that wait, and no stack.
//!
//! [`Jsonb`] is a representation of JSON too, by the trait `Json`: a [`JsonbBuffer`] holds the string of a node that is made from a
//! text. `prepare_key` takes memory for a copy, and `string_node` only where the text is longer than any that the buffer held.
//!
//! A node's identity is where it lies, with its kind and length: two nodes of one root have the same one exactly where they are
//! the same place of its tree, however equal their values are.
//!
//! [`encode`] makes bytes, tells whether a value stands in its canonical bytes, and reads the bytes of hex text. [`laws`] says what
//! holds of the grammar and of places for all bytes.
#![tactic(auto)]

mod array;
mod ascii;
mod buffer;
mod canonical;
mod cursor;
mod element;
pub mod encode;
mod error;
mod found;
mod frame;
mod item;
mod items;
mod key;
mod keys;
mod kind;
pub mod laws;
mod leap;
mod lookup;
mod members;
mod node;
mod nodes;
mod number;
mod numeric;
mod object;
mod opening;
mod place;
mod root;
mod scalar;
mod search;
mod small;
mod steps;
mod walk;

pub use array::JsonbArray;
pub use buffer::JsonbBuffer;
pub use cursor::Cursor;
pub use element::element_hash;
pub use error::JsonbError;
pub use key::JsonbKey;
pub use members::JsonbMembers;
pub use node::JsonbNode;
pub use number::JsonbNumber;
pub use object::JsonbObject;
pub use root::Jsonb;
pub use steps::Steps;
