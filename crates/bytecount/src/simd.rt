//! Counts over vectors.

pub mod generic;
