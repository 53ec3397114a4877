//! Why a schema is refused, and why two slices get no verdict.

ghost use Rattle.std.specs.Prelude.{◌≡◌};
ghost use Rattle.judge_tree.specs.inner.Built.{flat_error};

use flat_keywords::KeywordError;
use json_exact::OutOfMemory;
use thiserror::Error;

/// Why a schema is refused: that it nests too deep, and else by its first fault. `schema` is the number of the schema that has the
/// fault, and `member` the place of the faulty member in it, in key order, from 0. The root has the number 0. Each schema in it has the
/// number one above that of the schema entered last: members are taken in key order, and the schemas in a member one after the other,
/// each whole before the next. So in `{"items":{"not":{}},"anyOf":[true]}`, whose keys stand in the order `anyOf`, `items`, the schemas
/// are the root, `true`, `{"not":{}}` and `{}`, with the numbers 0 to 3.
#[derive(Clone, Copy, Debug, PartialEq, Eq, Error)]
pub enum SchemaError {
    /// The schema nests more than 128 containers, itself counted, wherever they stand in it.
    #[error("SchemaTooDeep")]
    SchemaTooDeep,
    /// Neither a truth value nor an object stands where a schema should, as in `{"items":1}`.
    #[error("NotASchema")]
    NotASchema { schema: usize },
    /// A member has none of the names, as in `{"x":1}`.
    #[error("UnknownKeyword")]
    UnknownKeyword { schema: usize, member: usize },
    /// A member's value has not the form that its keyword asks for, as in `{"allOf":[]}`.
    #[error("BadKeyword")]
    BadKeyword { schema: usize, member: usize },
    /// A member is `pattern` with a string that is no pattern of ECMA-262, as in `{"pattern":"("}`.
    #[error("BadPattern")]
    BadPattern { schema: usize, member: usize },
    /// A member is `pattern` with a pattern that is not literal, as in `{"pattern":"a"}`.
    #[error("PatternNotLiteral")]
    PatternNotLiteral { schema: usize, member: usize },
    /// Memory for the compiled schema is wanting, or a `pattern` of 2^30 bytes or more is not literal.
    #[error("OutOfMemory")]
    OutOfMemory,
}

impl SchemaError {
    /// The error of a flat keyword. Two do not come of a member of a schema that nests at most 128 containers: it stands in an object,
    /// and no value of it is too deep to be kept.
    pub(crate) fn of_flat(error: KeywordError, schema: usize, member: usize) -> SchemaError
        ensures { result ≡ flat_error schema member error }
    {
        match error {
            KeywordError::UnknownKeyword { .. } => SchemaError::UnknownKeyword { schema, member },
            KeywordError::BadKeyword { .. } => SchemaError::BadKeyword { schema, member },
            KeywordError::BadPattern { .. } => SchemaError::BadPattern { schema, member },
            KeywordError::PatternNotLiteral { .. } => {
                SchemaError::PatternNotLiteral { schema, member }
            }
            KeywordError::NotAnObject | KeywordError::TooDeep { .. } | KeywordError::OutOfMemory =>
                { SchemaError::OutOfMemory }
        }
    }
}

impl From<OutOfMemory> for SchemaError {
    ghost use Rattle.std.specs.Prelude.{◌≡◌};
    ghost use Rattle.judge_tree.specs.declared.errors.SchemaError.TheVariants.{OutOfMemory};

    ghost from_gives = { λ _ e. e ≡ OutOfMemory };

    fn from(_error: OutOfMemory) -> SchemaError {
        SchemaError::OutOfMemory
    }
}
