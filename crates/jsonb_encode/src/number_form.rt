//! The forms of a number's bytes.

/// How the bytes of a number are written (PostgreSQL, `numeric.c` and `varatt.h`).
#[derive(Clone, Copy, PartialEq, Eq)]
pub enum NumericForm {
    /// A size word of four bytes, and the short header where the number has at most 63 fraction digits and a weight from -64
    /// to 63, else the long one. PostgreSQL stores numbers so, and these bytes alone are canonical.
    Short,
    /// A size word of four bytes, and the long header.
    Long,
    /// A size byte, and the short header.
    ShortVarlena,
}
