//! `Value::from_json_text`: a value from JSON text.

ghost use Rattle.std.specs.Prelude.{◌≡◌, Some, None, Err, IfOk, true};
ghost use Rattle.json_exact.specs.Serde.{Writes};
ghost use Rattle.json_exact.specs.Trees.{tree};
ghost use Rattle.serde_json.specs.Data.{Data};
ghost use Rattle.serde_json.specs.Read.{read};
ghost use Rattle.serde_json.specs.Written.{has_float};

use crate::from_serde::FromSerdeError;
use crate::value::Value;
use std::alloc::Global;
use thiserror::Error;

/// Why a text has no [`Value`]. The first that stands is answered.
#[derive(Clone, Copy, Debug, PartialEq, Eq, Error)]
pub enum JsonTextError {
    /// The text is no JSON, as `[`, or arrays and objects nest past 127 in it. A number past the greatest float, as `1e400`, is
    /// none either.
    #[error("NotJson")]
    NotJson,
    /// A number is no whole number of 64 bits, as `1.5`, `1.0`, `-0` and 2^64. `serde_json` keeps it as a float, which rounds.
    #[error("Float")]
    Float,
    /// Memory could not be had.
    #[error("OutOfMemory")]
    OutOfMemory,
}

impl Value {
    /// The value of a JSON text, as `serde_json` reads it: of a key that stands twice the last value stays. `NotJson` comes
    /// exactly where it reads none, and else `Float` exactly where a float stands in the value that it reads.
    pub fn from_json_text(alloc: Global, text: &str) -> Result<Value, JsonTextError>
        ensures tree { IfOk result (λ v. Writes text.now (tree v)) }
        ensures not_json { result ≡ Err JsonTextError.NotJson → read text.now ≡ None }
        ensures float { result ≡ Err JsonTextError.Float
            → (d : Data) × (read text.now ≡ Some d) × (has_float d ≡ true) }
    {
        let value = match serde_json::Value::from_str(alloc, text) {
            Ok(value) => value,
            Err(error) if error.is_memory() => return Err(JsonTextError::OutOfMemory),
            Err(_) => return Err(JsonTextError::NotJson),
        };
        match Value::from_serde(alloc, &value) {
            Ok(value) => Ok(value),
            Err(FromSerdeError::Float) => Err(JsonTextError::Float),
            Err(FromSerdeError::OutOfMemory) => Err(JsonTextError::OutOfMemory),
        }
    }
}
