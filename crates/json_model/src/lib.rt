//! What JSON means to the contracts of this project: decimals as they are written, raw trees and the words that read
//! them, the order of keys, JSON equality, nesting, and which raw trees are JSON.
//!
//! There is no code here. `specs/` has the definitions, a file a concept, which every crate above cites, so that all of
//! them speak of one tree. For example `{"a":1.0}` is the tree
//!
//! ```text
//! object (member (97 ∷ []) (scalar (number (record { digits = pos 10; places = 1 }))) no_members)
//! ```
//!
//! Its nesting is 1, it is JSON, and it is the same as the tree of `{"a":1}`, since decimals are equal by value.
#![tactic(auto)]
