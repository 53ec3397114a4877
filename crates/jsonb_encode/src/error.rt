//! Why bytes are not made.

use thiserror::Error;

/// Why no bytes are made of what was asked for. Of several texts the first that is refused decides: `OutOfRange` for `1e131072`
/// and `01`, in this order. Want of memory may come in place of `TooLarge`.
#[derive(Clone, Copy, Debug, PartialEq, Eq, Error)]
pub enum EncodeError {
    /// A text is no JSON number, as `01`.
    #[error("NotANumber")]
    NotANumber,
    /// A number is 10^131072 or more, or has more than 16383 fraction digits.
    #[error("OutOfRange")]
    OutOfRange,
    /// A number does not fit the form that was asked for, as `1e300` the form of one size byte.
    #[error("DoesNotFit")]
    DoesNotFit,
    /// A container would have a count or a payload of 2^28 or more.
    #[error("TooLarge")]
    TooLarge,
    /// There is no memory for the bytes.
    #[error("OutOfMemory")]
    OutOfMemory,
}
