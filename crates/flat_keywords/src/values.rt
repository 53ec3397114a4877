//! The verdict on two values in memory.

ghost use Rattle.std.specs.Prelude.{ℕ, ◌≡◌, ◌≤◌, ◌⊎◌, Err};
ghost use Rattle.json_exact.specs.Trees.{tree};
ghost use Rattle.json_model.specs.Nest.{nest};
ghost use Rattle.flat_keywords.specs.Right.{RightOnTrees};
ghost use Rattle.flat_keywords.specs.Validity.{ChecksFreely, IsCopied, IsFirst, IsLean};

use crate::checks::Checks;
use crate::errors::KeywordError;
use json_exact::{OutOfMemory, Value};
use json_semantics::ValueNode;
use std::alloc::Global;

/// Whether the document is valid under the keyword object, by JSON Schema 2020-12. It takes memory for the names that
/// `required` lists, for the values of `enum` and `const`, for a pattern, and for an array under `uniqueItems` with true, alone. Want of
/// memory is also the answer to a `pattern` of 2^30 bytes or more that is not literal.
pub fn judge_values(alloc: Global, keywords: &Value, document: &Value) -> Result<bool, KeywordError>
    ensures right { (result ≡ Err KeywordError.OutOfMemory)
        ⊎ RightOnTrees (tree keywords.now) (tree document.now) result }
    ensures memory { result ≡ Err KeywordError.OutOfMemory
        → ((m : ℕ) × IsFirst (tree keywords.now) m IsCopied)
        ⊎ (ChecksFreely (tree keywords.now) (tree document.now) → ⊥) }
    ensures free { nest (tree keywords.now) ≤ 1 → IsLean (tree keywords.now)
        → ChecksFreely (tree keywords.now) (tree document.now) → result ≡ Err KeywordError.OutOfMemory → ⊥ }
{
    let checks = match Checks::compile(alloc, &ValueNode::new(keywords)) {
        Ok(checks) => checks,
        Err(error) => return Err(error),
    };
    match checks.check(alloc, &ValueNode::new(document)) {
        Ok(valid) => Ok(valid),
        Err(OutOfMemory) => Err(KeywordError::OutOfMemory),
    }
}
