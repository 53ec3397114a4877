//! Counts bytes: those that equal a given one, and those that begin a code point of UTF-8.
//!
//! [`count`] tells how often one byte stands in a slice, and [`num_chars`] how many code points a text has, without
//! decoding it. For example the slice
//!
//! ```text
//! e3 83 a1 e3 82 ab
//! ```
//!
//! is the text `メカ`: `count` of the byte e3 is 2, `count` of the byte 20 is 0, and `num_chars` is 2, for e3 stands
//! twice and the other four bytes continue a code point.
//!
//! RFC 3629, section 3, says which bytes those are: the first byte of a code point never has the top two bits 10, and
//! each later one has. So every slice has an answer, UTF-8 or not: what is counted is bytes, and [`laws`] says that in a
//! text they are as many as its code points.
//!
//! Each count is written three times, with the same answer. [`naive_count`] and [`naive_num_chars`] look at one byte after
//! the other, [`integer_simd`] at eight at a time in a word, and [`simd`] at 32 at a time in a vector. [`count`] and
//! [`num_chars`] choose by the length of the slice. No call takes memory.
#![tactic(auto)]

mod by_length;
mod byte_test;
pub mod integer_simd;
pub mod laws;
mod naive;
pub mod simd;

pub use by_length::{count, num_chars};
pub use naive::{naive_count, naive_count_32, naive_num_chars};
