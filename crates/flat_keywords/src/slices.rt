//! Keywords compiled from their bytes, and documents judged by theirs.

ghost use Rattle.std.specs.Prelude.{ℕ, List, ◌≡◌, ◌≤◌, ◌⊎◌, Err, None, MatchResult};
ghost use Rattle.json_model.specs.Nest.{nest};
ghost use Rattle.json_model.specs.Parts.{as_array};
ghost use Rattle.json_model.specs.Tree.{Tree};
ghost use Rattle.jsonb_layout.specs.Stands.{Stands};
ghost use Rattle.flat_keywords.specs.Compiled.{IsCompiledOf};
ghost use Rattle.flat_keywords.specs.Right.{IsRefusedFor, RightBy};
ghost use Rattle.flat_keywords.specs.Validity.{IsLeanBy};
ghost use Rattle.flat_keywords.specs.inner.Passes.{NeedsNoMemory};

use crate::checks::Checks;
use crate::draft::Draft;
use crate::errors::JudgeError;
use json_exact::OutOfMemory;
use jsonb::Jsonb;
use std::alloc::Global;

impl Checks {
    /// Compiles the keyword object of a draft that `jsonb` bytes stand for. The bytes are checked completely.
    ///
    /// An error is what `judge_draft` answers to these keywords, whatever the document, or want of memory.
    pub fn compile_slice(alloc: Global, draft: Draft, keywords: &[u8]) -> Result<Checks, JudgeError>
        ensures right { (result ≡ Err JudgeError.OutOfMemory)
            ⊎ MatchResult result (IsCompiledOf draft keywords.now) (IsRefusedFor draft keywords.now) }
        ensures free { (t : Tree) → Stands keywords.now t → nest t ≤ 1 → IsLeanBy draft t
            → result ≡ Err JudgeError.OutOfMemory → ⊥ }
    {
        let root = match Jsonb::root(alloc, keywords) {
            Ok(root) => root,
            Err(error) => return Err(JudgeError::of_keywords(error)),
        };
        match Checks::compile_draft(alloc, draft, &root) {
            Ok(checks) => Ok(checks),
            Err(error) => Err(JudgeError::of_keyword(error)),
        }
    }

    /// Whether the document is valid under the keyword object of which the checks were compiled. The document is checked completely.
    ///
    /// By review, memory is taken for containers inside others, and for an array under `uniqueItems` with true, alone.
    pub fn judge_slice(&self, alloc: Global, document: &[u8]) -> Result<bool, JudgeError>
        ensures right { (draft : Draft) (keywords : List ℕ) → IsCompiledOf draft keywords self.now
            → (result ≡ Err JudgeError.OutOfMemory) ⊎ RightBy draft keywords document.now result }
        ensures free { (u : Tree) → Stands document.now u → nest u ≤ 1
            → NeedsNoMemory self.now ⊎ (as_array u ≡ None) → result ≡ Err JudgeError.OutOfMemory → ⊥ }
    {
        let node = match Jsonb::root(alloc, document) {
            Ok(node) => node,
            Err(error) => return Err(JudgeError::of_document(error)),
        };
        match self.check(alloc, &node) {
            Ok(valid) => Ok(valid),
            Err(OutOfMemory) => Err(JudgeError::OutOfMemory),
        }
    }
}
