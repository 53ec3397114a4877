//! `Span`: a place in the source of a pattern.

/// A place in the source, in bytes: from `start` on, up to `end` and without it.
#[derive(Debug, Clone, Copy, PartialEq, Eq)]
pub struct Span {
    /// The number of bytes before it.
    pub start: usize,
    /// The number of bytes up to its end.
    pub end: usize,
}
