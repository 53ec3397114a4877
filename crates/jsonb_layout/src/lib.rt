//! Which bytes stand for which tree in PostgreSQL's `jsonb` layout: words for contracts, and the theory that joins them.
//!
//! There is no code here but [`Form`] and [`Header`], which the definitions and the reader share. In `specs/`
//!
//! - `Layout`, `Numeric` and `Stands` are the relation that a user believes: `Stands bytes tree` says that the bytes, all of
//!   them, are a header word, entry words and pieces that stand for the tree;
//! - `Seats` says where in the bytes the value at a place of the tree lies, and which two numbers tell it from every other;
//! - `inner/` computes the same from left to right, one small definition for each function of the reader in the crate `jsonb`.
//!   A user need not believe it.
//!
//! In `proofs/`, `Containers.tree_takes` and `tree_again` prove that both say the same, `one_tree` that no bytes stand for
//! two trees, and `Cuts.no_more` that no proper front of what stands for a tree stands for one. `SeatTrees.place_has_seat` and
//! `SeatPlaces.seat_has_place` prove that places and seats belong to each other, `SeatBytes` that what lies in a seat is in the
//! bytes there, `SeatLaws.one_place` that two places have different numbers, and `SeatRuns` that the computed seats are these.
//!
//! For example the eight bytes `01 00 00 50  00 00 00 c0` stand for null: a root scalar of one entry, whose word has
//! HAS_OFF (bit 31), the kind 4 (null) and the sum 0.
#![tactic(auto)]

mod form;
mod header;

pub use form::Form;
pub use header::Header;
