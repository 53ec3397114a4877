//! Whether no two of many places hold the same.
//!
//! What a place holds is known to the caller alone: [`Places`] compares two of them. [`are_apart`] compares each with each, which is
//! best for few places. [`are_apart_by_numbers`] takes a number for each place as well, equal for places that hold the same, and
//! compares a place with those alone that have its number. For example the places of
//!
//! ```text
//! holds     b  a  c  a
//! numbers   7  4  7  4
//! ```
//!
//! are not apart. By their numbers the first is compared with the third, which differs, and the second with the fourth.
//!
//! A map keeps for each number the newest place that has it, and a vector for each place the one before it with the same number. So
//! the work grows with the number of places where few share a number, and with its square where all do. This is the project's own.
#![tactic(auto)]

mod numbered;
mod paired;
mod places;

pub use numbered::are_apart_by_numbers;
pub use paired::are_apart;
pub use places::Places;
