//! `ConformanceError`: which rule a node breaks.

use thiserror::Error;

/// Which rule a node breaks, the first in this order, or want of memory. `name` is that of a member of the document.
#[derive(Clone, Copy, Debug, PartialEq, Eq, Error)]
pub enum ConformanceError<'n> {
    /// It is no object, as `[]`.
    #[error("NotAnObject")]
    NotAnObject,
    /// It has not 8 members, as `{}`.
    #[error("WrongLength")]
    WrongLength,
    /// It has a member `missing`, which the document has not.
    #[error("UnexpectedMember")]
    UnexpectedMember,
    /// It has no member of the name.
    #[error("MissingMember")]
    MissingMember { name: &'n str },
    /// The member's type is not that of the document's member, as where `integer` is `"42"`.
    #[error("WrongType")]
    WrongType { name: &'n str },
    /// The member's value is not equal to that of the document's member, as where `integer` is 43. Numbers are equal by value.
    #[error("WrongScalar")]
    WrongScalar { name: &'n str },
    /// `array` is not equal to `[10,20,30]`.
    #[error("WrongElements")]
    WrongElements,
    /// No two elements of `duplicates` are equal.
    #[error("WrongUniqueness")]
    WrongUniqueness,
    /// `object` is not equal to `{"nested":"value"}`.
    #[error("WrongNested")]
    WrongNested,
    /// Memory could not be had.
    #[error("OutOfMemory")]
    OutOfMemory,
}

impl<'n> From<json_exact::OutOfMemory> for ConformanceError<'n> {
    ghost use Rattle.std.specs.Prelude.{◌≡◌};
    ghost use Rattle.json_semantics.specs.declared.conformance.error.ConformanceError.{ConformanceError};

    ghost from_gives = { λ _ error. error ≡ ConformanceError.OutOfMemory };

    fn from(_error: json_exact::OutOfMemory) -> ConformanceError<'n> {
        ConformanceError::OutOfMemory
    }
}
