//! One document under a keyword object.

ghost use Rattle.std.specs.Prelude.{◌≡◌, ◌≤◌, ◌⊎◌, Err};
ghost use Rattle.json_model.specs.Json.{IsJson};
ghost use Rattle.json_model.specs.Nest.{nest};
ghost use Rattle.json_model.specs.Tree.{Tree};
ghost use Rattle.jsonb_layout.specs.Stands.{Stands};
ghost use Rattle.flat_keywords.specs.Validity.{ChecksFreely, IsLean, IsValid};
ghost use Rattle.judge_c.specs.Answers.{IsGiven, IsRightAnswer};
ghost use Rattle.judge_c.specs.Codes.{out_of_memory};

use crate::answer::JudgeAnswer;
use flat_keywords::{JudgeError, judge};
use std::alloc::Global;

/// The answer to the keywords and the document, both as `jsonb` bytes. Want of memory comes only where it may
/// come of `judge`.
#[unsafe(no_mangle)]
pub extern "C" fn judge_c_judge(alloc: Global, keywords: &[u8], document: &[u8]) -> JudgeAnswer
    ensures right { IsGiven result (Err JudgeError.OutOfMemory) ⊎ IsRightAnswer keywords.now document.now result }
    ensures refused { (t : Tree) → Stands keywords.now t → nest t ≤ 1 → IsLean t
        → (IsJson t × IsValid t → ⊥) → result.code ≡ out_of_memory → ⊥ }
    ensures free { (t u : Tree) → Stands keywords.now t → nest t ≤ 1 → IsLean t
        → Stands document.now u → nest u ≤ 1 → ChecksFreely t u → result.code ≡ out_of_memory → ⊥ }
{
    JudgeAnswer::of(judge(alloc, keywords, document))
}
