//! Why two slices get no verdict.

ghost use Rattle.std.specs.Prelude.{◌≡◌};
ghost use Rattle.judge_tree.specs.Right.{document_error, schema_error, slice_error};

use crate::errors::SchemaError;
use flat_keywords::Fault;
use jsonb::JsonbError;
use thiserror::Error;

/// Why `judge_tree` gives no verdict. Want of memory aside, the first cause that stands is answered: those of the schema's bytes, those
/// of a [`SchemaError`], and those of the document's bytes. `schema` and `member` are as there.
#[derive(Clone, Copy, Debug, PartialEq, Eq, Error)]
pub enum TreeError {
    /// The schema's bytes are no JSON tree.
    #[error("Schema")]
    Schema(Fault),
    /// The schema nests more than 128 containers, itself counted.
    #[error("SchemaTooDeep")]
    SchemaTooDeep,
    /// Neither a truth value nor an object stands where a schema should, as in `{"items":1}`.
    #[error("NotASchema")]
    NotASchema { schema: usize },
    /// A member has none of the names, as in `{"x":1}`.
    #[error("UnknownKeyword")]
    UnknownKeyword { schema: usize, member: usize },
    /// A member's value has not the form that its keyword asks for, as in `{"allOf":[]}`.
    #[error("BadKeyword")]
    BadKeyword { schema: usize, member: usize },
    /// A member is `pattern` with a string that is no pattern of ECMA-262, as in `{"pattern":"("}`.
    #[error("BadPattern")]
    BadPattern { schema: usize, member: usize },
    /// A member is `pattern` with a pattern that is not literal, as in `{"pattern":"a"}`.
    #[error("PatternNotLiteral")]
    PatternNotLiteral { schema: usize, member: usize },
    /// The document's bytes are no JSON tree.
    #[error("Document")]
    Document(Fault),
    /// Memory for the nesting of a slice, for the compiled schema, or for an array under `uniqueItems` with true is wanting.
    #[error("OutOfMemory")]
    OutOfMemory,
}

impl TreeError {
    /// What is wrong with the schema's bytes.
    pub(crate) fn of_slice(error: JsonbError) -> TreeError
        ensures { result ≡ slice_error error }
    {
        match error {
            JsonbError::Malformed => TreeError::Schema(Fault::Malformed),
            JsonbError::NotText => TreeError::Schema(Fault::NotText),
            JsonbError::NumberTooWide => TreeError::Schema(Fault::NumberTooWide),
            JsonbError::OutOfMemory => TreeError::OutOfMemory,
        }
    }

    /// What is wrong with the document's bytes.
    pub(crate) fn of_document(error: JsonbError) -> TreeError
        ensures { result ≡ document_error error }
    {
        match error {
            JsonbError::Malformed => TreeError::Document(Fault::Malformed),
            JsonbError::NotText => TreeError::Document(Fault::NotText),
            JsonbError::NumberTooWide => TreeError::Document(Fault::NumberTooWide),
            JsonbError::OutOfMemory => TreeError::OutOfMemory,
        }
    }

    /// What is wrong with the schema.
    pub(crate) fn of_schema(error: SchemaError) -> TreeError
        ensures { result ≡ schema_error error }
    {
        match error {
            SchemaError::SchemaTooDeep => TreeError::SchemaTooDeep,
            SchemaError::NotASchema { schema } => TreeError::NotASchema { schema },
            SchemaError::UnknownKeyword { schema, member } => {
                TreeError::UnknownKeyword { schema, member }
            }
            SchemaError::BadKeyword { schema, member } => TreeError::BadKeyword { schema, member },
            SchemaError::BadPattern { schema, member } => TreeError::BadPattern { schema, member },
            SchemaError::PatternNotLiteral { schema, member } => {
                TreeError::PatternNotLiteral { schema, member }
            }
            SchemaError::OutOfMemory => TreeError::OutOfMemory,
        }
    }
}
