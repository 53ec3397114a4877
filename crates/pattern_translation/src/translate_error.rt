//! Why a pattern has no text for Rust.

use pattern_tree::OutOfMemory;
use std::alloc::AllocError;
use thiserror::Error;

/// Why a pattern has no text for Rust. The first of the first four that stands is answered. Want of memory may come in place of each.
#[derive(Clone, Copy, Debug, PartialEq, Eq, Error)]
pub enum TranslateError {
    /// The text is outside the widened grammar, as `(`.
    #[error("Invalid")]
    Invalid,
    /// It has a look-ahead or a look-behind, as `(?=a)`.
    #[error("LookAround")]
    LookAround,
    /// It has a back-reference, as `(a)\1`.
    #[error("BackReference")]
    BackReference,
    /// It has a part that is not translated: an empty class, as `[]`; `\b` in a class; `\u` with a surrogate; a
    /// backslash before a character past ASCII; two groups of one name; a name that is not an ASCII letter or `_` and then ASCII
    /// letters, digits and `_`; a count of 2^32 or more; more than 250 groups open at one place.
    #[error("Unsupported")]
    Unsupported,
    /// There is no memory for the tree or the text.
    #[error("OutOfMemory")]
    OutOfMemory,
}

impl From<AllocError> for TranslateError {
    ghost use Rattle.std.specs.Prelude.{◌≡◌};
    ghost use Rattle.pattern_translation.specs.declared.translate_error.TranslateError.TheVariants as errors;

    ghost from_gives = { λ _ e. e ≡ errors.OutOfMemory };

    fn from(_error: AllocError) -> TranslateError {
        TranslateError::OutOfMemory
    }
}

impl From<OutOfMemory> for TranslateError {
    ghost use Rattle.std.specs.Prelude.{◌≡◌};
    ghost use Rattle.pattern_translation.specs.declared.translate_error.TranslateError.TheVariants as errors;

    ghost from_gives = { λ _ e. e ≡ errors.OutOfMemory };

    fn from(_error: OutOfMemory) -> TranslateError {
        TranslateError::OutOfMemory
    }
}
