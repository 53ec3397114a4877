//! Schemas compiled from their bytes, and documents judged by theirs.

ghost use Rattle.std.specs.Prelude.{ℕ, List, ◌≡◌, ◌⊎◌, Err, MatchResult};
ghost use Rattle.judge_tree.specs.Compiled.{IsCompiledOf};
ghost use Rattle.judge_tree.specs.Right.{IsRefusedFor, Right};

use crate::schema::Schema;
use crate::tree_error::TreeError;
use json_exact::OutOfMemory;
use jsonb::Jsonb;
use std::alloc::Global;

impl Schema {
    /// Compiles the schema that `jsonb` bytes stand for. The bytes are checked completely.
    ///
    /// An error is what `judge_tree` answers to this schema, whatever the document, or want of memory.
    pub fn compile_slice(alloc: Global, schema: &[u8]) -> Result<Schema, TreeError>
        ensures { (result ≡ Err TreeError.OutOfMemory)
            ⊎ MatchResult result (IsCompiledOf schema.now) (IsRefusedFor schema.now) }
    {
        let root = match Jsonb::root(alloc, schema) {
            Ok(root) => root,
            Err(error) => return Err(TreeError::of_slice(error)),
        };
        match Schema::compile(alloc, &root) {
            Ok(compiled) => Ok(compiled),
            Err(error) => Err(TreeError::of_schema(error)),
        }
    }

    /// Whether the document is valid under the schema that was compiled. The document is checked completely.
    ///
    /// By review, memory is taken for containers inside others, and for arrays under `uniqueItems` with true, alone.
    pub fn judge_slice(&self, alloc: Global, document: &[u8]) -> Result<bool, TreeError>
        ensures { (schema : List ℕ) → IsCompiledOf schema self.now
            → (result ≡ Err TreeError.OutOfMemory) ⊎ Right schema document.now result }
    {
        let node = match Jsonb::root(alloc, document) {
            Ok(node) => node,
            Err(error) => return Err(TreeError::of_document(error)),
        };
        match self.check(alloc, &node) {
            Ok(valid) => Ok(valid),
            Err(OutOfMemory) => Err(TreeError::OutOfMemory),
        }
    }
}
