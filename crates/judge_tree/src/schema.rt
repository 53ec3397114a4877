//! Schemas, compiled once and checked many times.

ghost use Rattle.std.specs.Prelude.{◌≡◌, ◌↔◌, Err, MatchResult, IfOk, IsOk, IsTrue};
ghost use Rattle.judge_tree.specs.Compiled.{IsCompiled, IsRefused, IsShallow, NeedsNoMemory, Passes};

use crate::checking::holds;
use crate::compiling::compile_schema;
use crate::errors::SchemaError;
use crate::formula::Formula;
use json_exact::OutOfMemory;
use json_traits::{FamilyOf, Node, nests_within};
use std::alloc::Global;

/// A schema that is compiled once and checks many documents, whatever holds them.
#[derive(Drop)]
pub struct Schema {
    formula: Formula,
}

impl Schema {
    /// Compiles a schema. Its depth is asked for first, and then its members are walked over once, in key order. The error is that it
    /// nests too deep, or else the first fault on that walk. Memory is taken for what is kept: a schema that nests too deep never gets want
    /// of memory. A `pattern` of 2^30 bytes or more that is not literal gets want of memory too.
    pub fn compile<'a, N: Node<'a>>(alloc: Global, root: &N) -> Result<Schema, SchemaError>
        ensures right { MatchResult result (IsCompiled (N.tree root.now)) (IsRefused (N.tree root.now)) }
        ensures deep { (IsShallow (N.tree root.now) → ⊥) → result ≡ Err SchemaError.SchemaTooDeep }
    {
        if !nests_within::<FamilyOf<'a, N>>(root, 128) {
            return Err(SchemaError::SchemaTooDeep);
        }
        match compile_schema::<FamilyOf<'a, N>>(alloc, root, 0) {
            Ok(compiled) => Ok(Schema {
                formula: compiled.formula,
            }),
            Err(error) => Err(error),
        }
    }

    /// Whether a document passes: where it is valid under the schema. Only unique elements take memory: want of it comes only where the
    /// schema, or one inside it, has `uniqueItems` with true.
    pub fn check<'a, N: Node<'a>>(&self, alloc: Global, node: &N) -> Result<bool, OutOfMemory>
        ensures ok { NeedsNoMemory self.now → IsOk result }
        ensures right { IfOk result (λ b. IsTrue b ↔ Passes self.now (N.tree node.now)) }
    {
        holds::<FamilyOf<'a, N>>(alloc, &self.formula, node)
    }
}
