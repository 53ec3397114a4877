//! Elements of arrays, whatever holds them: whether two are equal, the number of each, and whether no two of many are equal.
//!
//! A representation says by [`Element`] what a value is and what stands in it. Then [`equal`] is JSON equality of two of its values,
//! [`element_number`] a number by which equal values are found, and [`is_unique`] tells whether no two of an array's elements are
//! equal. All three go down into a value with a list of the containers around them and no stack, so a value may nest as deep as
//! memory holds. They take memory for that list alone, and `is_unique` for the elements and their numbers.
//!
//! ```text
//! [1, true]         unique
//! [1, 1.0]          not unique: numbers are equal by value
//! [{"a":1,"b":2}, {"b":2,"a":1}]   not unique: the order of members is nothing
//! ```
//!
//! Up to 15 elements are compared each with each. From 16 on each is compared with those alone that have its number, so the work
//! grows with the number of elements where few share a number. The numbers have no key: who chooses elements that share a number
//! makes it slow. No time is promised.
//!
//! Equality is that of JSON Schema Core 2020-12, section 4.2.2, and uniqueness that of Validation, section 6.4.3. The number of a value
//! is the 64-bit FNV-1a hash of bytes that say what it is: that of null is 0xaf63bd4c8601b7df. The bytes are this project's own.
//! [`laws`] says that equal elements have the same number, whatever holds them.
#![tactic(auto)]

mod element;
mod equality;
mod hash;
pub mod laws;
mod numbering;
mod push;
mod step;
mod unique;

pub use element::{Element, Parts};
pub use equality::equal;
pub use numbering::element_number;
pub use unique::is_unique;
