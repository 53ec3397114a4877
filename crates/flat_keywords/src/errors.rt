//! Why no verdict is given.

ghost use Rattle.std.specs.Prelude.{◌≡◌};
ghost use Rattle.flat_keywords.specs.Right.{keywords_error, document_error, keyword_error};

use jsonb::JsonbError;
use thiserror::Error;

/// What is wrong with bytes that should stand for a JSON tree.
#[derive(Clone, Copy, Debug, PartialEq, Eq, Error)]
pub enum Fault {
    /// They stand for no tree, as the empty slice.
    #[error("Malformed")]
    Malformed,
    /// A string or a key is not UTF-8, as in `01000050 01000080 ff`.
    #[error("NotText")]
    NotText,
    /// A number has more than 38 digits from the first to the last that is not 0, as 10^38 + 1.
    #[error("NumberTooWide")]
    NumberTooWide,
}

/// Why a keyword object is refused: by its first faulty member in key order, if it is an object. `member` is a member's place in
/// key order, from 0.
#[derive(Clone, Copy, Debug, PartialEq, Eq, Error)]
pub enum KeywordError {
    /// The keywords are no object, as `[]`.
    #[error("NotAnObject")]
    NotAnObject,
    /// The first faulty member has none of the names of its draft, as in `{"x":1}`.
    #[error("UnknownKeyword")]
    UnknownKeyword { member: usize },
    /// The first faulty member's value has not the form that its keyword asks for, as in `{"type":"x"}`. By draft 4 so is an
    /// `exclusiveMinimum` without `minimum`, and an `exclusiveMaximum` without `maximum`.
    #[error("BadKeyword")]
    BadKeyword { member: usize },
    /// The first faulty member is `pattern` with a string that is no pattern of ECMA-262, as in `{"pattern":"("}`.
    #[error("BadPattern")]
    BadPattern { member: usize },
    /// The first faulty member is `pattern` with a pattern that is not literal, as in `{"pattern":"a"}`.
    #[error("PatternNotLiteral")]
    PatternNotLiteral { member: usize },
    /// The first faulty member is `const` with a value that nests more than 128 containers, itself counted, or `enum` with such
    /// an element.
    #[error("TooDeep")]
    TooDeep { member: usize },
    /// Memory for the names that `required` lists, for the values of `enum` or `const`, or for a pattern is wanting. `judge_values`
    /// answers it for an array under `uniqueItems` with true too.
    #[error("OutOfMemory")]
    OutOfMemory,
}

/// Why `judge` gives no verdict. Want of memory aside, the first cause that stands is answered: those of the keywords' bytes, those of the
/// keyword object, of which the first faulty member in key order counts, and those of the document's bytes.
#[derive(Clone, Copy, Debug, PartialEq, Eq, Error)]
pub enum JudgeError {
    /// The keywords' bytes are no JSON tree.
    #[error("Keywords")]
    Keywords(Fault),
    /// The keywords are no object, as `00000040`, the empty array.
    #[error("NotAnObject")]
    NotAnObject,
    /// The first faulty member has none of the names of its draft, as in `{"x":1}`.
    #[error("UnknownKeyword")]
    UnknownKeyword { member: usize },
    /// The first faulty member's value has not the form that its keyword asks for, as in `{"type":"x"}`. By draft 4 so is an
    /// `exclusiveMinimum` without `minimum`, and an `exclusiveMaximum` without `maximum`.
    #[error("BadKeyword")]
    BadKeyword { member: usize },
    /// The first faulty member is `pattern` with a string that is no pattern of ECMA-262, as in `{"pattern":"("}`.
    #[error("BadPattern")]
    BadPattern { member: usize },
    /// The first faulty member is `pattern` with a pattern that is not literal, as in `{"pattern":"a"}`.
    #[error("PatternNotLiteral")]
    PatternNotLiteral { member: usize },
    /// The first faulty member is `const` with a value that nests more than 128 containers, itself counted, or `enum` with such
    /// an element.
    #[error("TooDeep")]
    TooDeep { member: usize },
    /// The document's bytes are no JSON tree.
    #[error("Document")]
    Document(Fault),
    /// Memory for the nesting of a slice, for the names that `required` lists, for the values of `enum` or `const`, for a pattern, or
    /// for an array under `uniqueItems` with true is wanting.
    #[error("OutOfMemory")]
    OutOfMemory,
}

impl JudgeError {
    /// What is wrong with the keywords' bytes.
    pub(crate) fn of_keywords(error: JsonbError) -> JudgeError
        ensures { result ≡ keywords_error error }
    {
        match error {
            JsonbError::Malformed => JudgeError::Keywords(Fault::Malformed),
            JsonbError::NotText => JudgeError::Keywords(Fault::NotText),
            JsonbError::NumberTooWide => JudgeError::Keywords(Fault::NumberTooWide),
            JsonbError::OutOfMemory => JudgeError::OutOfMemory,
        }
    }

    /// What is wrong with the document's bytes.
    pub(crate) fn of_document(error: JsonbError) -> JudgeError
        ensures { result ≡ document_error error }
    {
        match error {
            JsonbError::Malformed => JudgeError::Document(Fault::Malformed),
            JsonbError::NotText => JudgeError::Document(Fault::NotText),
            JsonbError::NumberTooWide => JudgeError::Document(Fault::NumberTooWide),
            JsonbError::OutOfMemory => JudgeError::OutOfMemory,
        }
    }

    /// What is wrong with the keyword object.
    pub(crate) fn of_keyword(error: KeywordError) -> JudgeError
        ensures { result ≡ keyword_error error }
    {
        match error {
            KeywordError::NotAnObject => JudgeError::NotAnObject,
            KeywordError::UnknownKeyword { member } => JudgeError::UnknownKeyword { member },
            KeywordError::BadKeyword { member } => JudgeError::BadKeyword { member },
            KeywordError::BadPattern { member } => JudgeError::BadPattern { member },
            KeywordError::PatternNotLiteral { member } => JudgeError::PatternNotLiteral { member },
            KeywordError::TooDeep { member } => JudgeError::TooDeep { member },
            KeywordError::OutOfMemory => JudgeError::OutOfMemory,
        }
    }
}
