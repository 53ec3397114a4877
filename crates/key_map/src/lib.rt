//! A finite map from texts to values of one type, in key order: a shorter key comes first, and of two of one length the one
//! with the lower byte where they first differ. PostgreSQL keeps the members of `jsonb` objects in this order.
//!
//! The members stand in one list, and a key is found by halves. For example the keys `b`, `aa` and `a` stand as
//!
//! ```text
//! a  b  aa
//! ```
//!
//! `KeyMap` is the map, and `Member` a key with its value: `insert` hands its member back where memory could not be had, and
//! `from_members` refuses a list in which a key stands twice, by a `MapError`. `laws` says that keys are ordered, and that the
//! look-ups of a map tell which map it is. Contracts see a map as the list of its pairs of key bytes and value.
#![tactic(auto)]

pub mod laws;
mod map;
mod map_error;

pub use map::{KeyMap, Member};
pub use map_error::MapError;
