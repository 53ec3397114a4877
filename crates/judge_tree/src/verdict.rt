//! The verdict on two slices.

ghost use Rattle.std.specs.Prelude.{◌≡◌, ◌⊎◌, Err};
ghost use Rattle.judge_tree.specs.Right.{Right};

use crate::schema::Schema;
use crate::tree_error::TreeError;
use std::alloc::Global;

/// Whether the document is valid under the schema, both as PostgreSQL `jsonb` bytes, by JSON Schema 2020-12.
///
/// Both are checked completely, even parts that no keyword looks at; the document only if the schema has no fault. Memory is taken for
/// containers inside others, for the compiled schema, and for arrays under `uniqueItems` with true.
///
/// For many documents under one schema take [`Schema::compile_slice`] once and [`Schema::judge_slice`] for each: this call is those two.
pub fn judge_tree(alloc: Global, schema: &[u8], document: &[u8]) -> Result<bool, TreeError>
    ensures { (result ≡ Err TreeError.OutOfMemory) ⊎ Right schema.now document.now result }
{
    match Schema::compile_slice(alloc, schema) {
        Ok(compiled) => compiled.judge_slice(alloc, document),
        Err(error) => Err(error),
    }
}
