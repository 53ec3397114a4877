//! `NumberError`: why a text is no number.

use thiserror::Error;

/// Why a text is no number. The first that stands is answered.
#[derive(Clone, Copy, Debug, PartialEq, Eq, Error)]
pub enum NumberError {
    /// The text is no number literal of JSON, as the empty text.
    #[error("NotANumber")]
    NotANumber,
    /// The literal has more than 38 digits from the first to the last that is not 0, as `1`, 37 zeros and `1`.
    #[error("TooWide")]
    TooWide,
    /// The magnitude is 10^131072 or more, as `1e131072`, or more than 16,383 fraction digits are written, as `0e-16384`.
    #[error("OutOfRange")]
    OutOfRange,
}
