//! A nested schema that is compiled once.

ghost use Rattle.std.specs.Prelude.{◌≡◌, ◌⊎◌, List, ℕ, Ok, Err, MatchResult};
ghost use Rattle.json_model.specs.Tree.{Tree};
ghost use Rattle.jsonb.specs.Root.{IsRead};
ghost use Rattle.judge_tree.specs.Compiled.{IsCompiled};
ghost use Rattle.judge_tree.specs.Right.{Right, schema_error};

use crate::reading::{Unread, read};
use judge_tree::{Schema, SchemaError, TreeError};
use std::alloc::Global;

/// The schema, compiled. An error is the right answer whatever the document is, but for want of memory.
pub(crate) fn compile_tree(alloc: Global, schema: &[u8]) -> Result<Schema, TreeError>
    ensures { MatchResult result
        (λ compiled. (t : Tree) × IsRead schema.now (Ok t) × IsCompiled t compiled)
        (λ error. (error ≡ TreeError.OutOfMemory)
        ⊎ ((document : List ℕ) → Right schema.now document (Err error))) }
{
    let root = match read(alloc, schema) {
        Ok(root) => root,
        Err(Unread::Faulty(fault)) => return Err(TreeError::Schema(fault)),
        Err(Unread::OutOfMemory) => return Err(TreeError::OutOfMemory),
    };
    match Schema::compile(alloc, &root) {
        Ok(compiled) => Ok(compiled),
        Err(error) => Err(refusal(error)),
    }
}

/// The answer for a faulty schema.
fn refusal(error: SchemaError) -> TreeError
    ensures { result ≡ schema_error error }
{
    match error {
        SchemaError::SchemaTooDeep => TreeError::SchemaTooDeep,
        SchemaError::NotASchema { schema } => TreeError::NotASchema { schema },
        SchemaError::UnknownKeyword { schema, member } => TreeError::UnknownKeyword {
            schema,
            member,
        },
        SchemaError::BadKeyword { schema, member } => TreeError::BadKeyword { schema, member },
        SchemaError::BadPattern { schema, member } => TreeError::BadPattern { schema, member },
        SchemaError::PatternNotLiteral { schema, member } => {
            TreeError::PatternNotLiteral { schema, member }
        }
        SchemaError::OutOfMemory => TreeError::OutOfMemory,
    }
}
