//! Why a slice is refused.

use thiserror::Error;

/// Why a slice is no JSON. The first that stands is answered.
#[derive(Clone, Copy, Debug, PartialEq, Eq, Error)]
pub enum JsonbError {
    /// The slice stands for no tree, as the empty slice.
    #[error("Malformed")]
    Malformed,
    /// A string or a key is not UTF-8, as in `01000050 01000080 ff`.
    #[error("NotText")]
    NotText,
    /// A number has more than 38 digits from the first to the last that is not 0, as 10^38 + 1.
    #[error("NumberTooWide")]
    NumberTooWide,
    /// Memory for the nesting is wanting. It never comes of a slice that stands for a tree with no container inside another.
    #[error("OutOfMemory")]
    OutOfMemory,
}
