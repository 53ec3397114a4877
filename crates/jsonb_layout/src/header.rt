//! The header of a number.

/// What a numeric header says (PostgreSQL, `numeric.c`: `NumericShort`, `NumericLong`).
#[derive(Clone, Copy)]
pub struct Header {
    /// Whether the number is below 0.
    pub minus: bool,
    /// How many fraction digits are written.
    pub dscale: u16,
    /// The weight plus 2^15, which is not below 0. The weight is the power of 10000 that the first group counts.
    pub lift: u16,
}
