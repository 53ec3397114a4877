//! The items of a character class.

use crate::span::Span;

/// A class escape, in a class or outside.
#[derive(Debug, Clone, Copy, PartialEq, Eq)]
pub enum ClassEscape {
    /// `\d`: the ten ASCII digits.
    Digit,
    /// `\D`: all but the ASCII digits.
    NotDigit,
    /// `\s`: white space and the ends of lines.
    Space,
    /// `\S`: all but white space and the ends of lines.
    NotSpace,
    /// `\w`: the ASCII letters and digits, and `_`.
    Word,
    /// `\W`: all but the ASCII letters and digits, and `_`.
    NotWord,
}

/// What an item of a class is.
#[derive(Debug, Clone, Copy, PartialEq, Eq)]
pub enum ClassForm {
    /// One code point, as `a`, `\-` or `\u{1F600}`.
    Code(u32),
    /// The code points from `first` to `last`, both of them too, as `a-z`.
    Range { first: u32, last: u32 },
    /// A class escape, as `\d`.
    Escape(ClassEscape),
    /// A property escape, as `\p{L}`, or `\P{L}` where it is negated.
    Property { negated: bool },
}

/// An item of a class, and where it stands in the source.
#[derive(Debug, Clone, Copy, PartialEq, Eq)]
pub struct ClassItem {
    /// Where it stands. A range has both its ends and the hyphen.
    pub span: Span,
    /// What it is.
    pub form: ClassForm,
}
