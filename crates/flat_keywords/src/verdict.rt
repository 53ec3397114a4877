//! The verdict on two slices.

ghost use Rattle.std.specs.Prelude.{◌≡◌, ◌≤◌, ◌⊎◌, Err};
ghost use Rattle.json_model.specs.Json.{IsJson};
ghost use Rattle.json_model.specs.Nest.{nest};
ghost use Rattle.json_model.specs.Tree.{Tree};
ghost use Rattle.jsonb_layout.specs.Stands.{Stands};
ghost use Rattle.flat_keywords.specs.Right.{Right, RightBy};
ghost use Rattle.flat_keywords.specs.Validity.{ChecksFreely, ChecksFreelyBy, IsLean, IsLeanBy, IsValid, IsValidBy};

use crate::checks::Checks;
use crate::draft::Draft;
use crate::errors::JudgeError;
use std::alloc::Global;

/// Whether the document is valid under the keyword object, both as PostgreSQL `jsonb` bytes, by JSON Schema 2020-12.
///
/// Both are checked completely, even parts that no keyword looks at; the document only if the keywords have no fault.
///
/// Memory is taken for containers inside others, for the names that `required` lists, for the values of `enum` and `const`, for a
/// pattern, and for an array under `uniqueItems` with true. Where both slices stand for trees with none of these, want of memory is
/// never answered. Nor is it where the keywords' tree nests at most one level, has no `const` and no `pattern`, and is refused.
pub fn judge(alloc: Global, keywords: &[u8], document: &[u8]) -> Result<bool, JudgeError>
    ensures right { (result ≡ Err JudgeError.OutOfMemory) ⊎ Right keywords.now document.now result }
    ensures refused { (t : Tree) → Stands keywords.now t → nest t ≤ 1 → IsLean t
        → (IsJson t × IsValid t → ⊥) → result ≡ Err JudgeError.OutOfMemory → ⊥ }
    ensures free { (t u : Tree) → Stands keywords.now t → nest t ≤ 1 → IsLean t
        → Stands document.now u → nest u ≤ 1 → ChecksFreely t u → result ≡ Err JudgeError.OutOfMemory → ⊥ }
{
    judge_draft(alloc, Draft::Draft2020, keywords, document)
}

/// Whether the document is valid under the keyword object by a draft of JSON Schema, as [`judge`] answers by 2020-12.
///
/// For example 1.0 is valid under `{"type":"integer"}` by 2020-12, and is not by draft 4. For many documents under one keyword object
/// take [`Checks::compile_slice`] once and [`Checks::judge_slice`] for each: this call is those two.
pub fn judge_draft(
    alloc: Global,
    draft: Draft,
    keywords: &[u8],
    document: &[u8],
) -> Result<bool, JudgeError>
    ensures right { (result ≡ Err JudgeError.OutOfMemory) ⊎ RightBy draft keywords.now document.now result }
    ensures refused { (t : Tree) → Stands keywords.now t → nest t ≤ 1 → IsLeanBy draft t
        → (IsJson t × IsValidBy draft t → ⊥) → result ≡ Err JudgeError.OutOfMemory → ⊥ }
    ensures free { (t u : Tree) → Stands keywords.now t → nest t ≤ 1 → IsLeanBy draft t
        → Stands document.now u → nest u ≤ 1 → ChecksFreelyBy draft t u → result ≡ Err JudgeError.OutOfMemory → ⊥ }
{
    match Checks::compile_slice(alloc, draft, keywords) {
        Ok(checks) => checks.judge_slice(alloc, document),
        Err(error) => Err(error),
    }
}
