//! Many documents under one nested schema, which is compiled once.

ghost use Rattle.std.specs.Prelude.{◌≡◌, ◌≢◌, ◌↔◌, ◌⊎◌, ◌+◌, ◌<◌, List, ℕ, length, Ok, Err};
ghost use Rattle.json_model.specs.Tree.{Tree};
ghost use Rattle.jsonb.specs.Root.{IsRead};
ghost use Rattle.judge_tree.specs.Compiled.{IsSchema};
ghost use Rattle.judge_c.specs.Codes.{bad_offsets, judged};
ghost use Rattle.judge_c.specs.Many.{IsCodedAt};
ghost use Rattle.judge_c.specs.TreeAnswers.{IsCodeOf, IsGiven, IsRightAnswer};

use crate::codes::{BAD_OFFSETS, JUDGED};
use crate::compiled_tree::compile_tree;
use crate::documents::{are_enough, judge_all};
use crate::tree_answer::JudgeTreeAnswer;
use judge_tree::TreeError;
use std::alloc::Global;

/// Puts the code of each document in its place, and answers `JUDGED`. The documents stand one behind another: each lies from its
/// offset to the next one, so there is one offset more than codes.
///
/// Any other answer says why no code is written: the offsets do not fit, memory is wanting for the schema, or it is refused. A
/// refusal is the right answer for every document.
#[unsafe(no_mangle)]
pub extern "C" fn judge_c_tree_each(
    alloc: Global,
    schema: &[u8],
    documents: &[u8],
    offsets: &[usize],
    codes: &mut [u32],
) -> JudgeTreeAnswer
    ensures offsets { result.code ≡ bad_offsets ↔ (length offsets.now ≢ length codes.old + 1) }
    ensures unwritten { (result.code ≢ judged) → codes.new ≡ codes.old }
    ensures refused { (result.code ≢ bad_offsets) → (result.code ≢ judged) → IsGiven result (Err TreeError.OutOfMemory)
        ⊎ ((document : List ℕ) → IsRightAnswer schema.now document result) }
    ensures no_schema { (result.code ≡ bad_offsets) ⊎ (result.code ≡ judged) → (result.schema ≡ 0) × (result.member ≡ 0) }
    ensures valid { result.code ≡ judged → (t : Tree) × IsRead schema.now (Ok t) × IsSchema t }
    ensures judged { result.code ≡ judged → (i : ℕ) → i < length codes.new
        → IsCodedAt (IsCodeOf schema.now) documents.now offsets.now codes.new i }
{
    if !are_enough(offsets, codes) {
        return JudgeTreeAnswer::of_code(BAD_OFFSETS);
    }
    match compile_tree(alloc, schema) {
        Ok(compiled) => {
            judge_all(alloc, &compiled, documents, offsets, codes);
            JudgeTreeAnswer::of_code(JUDGED)
        }
        Err(error) => JudgeTreeAnswer::of(Err(error)),
    }
}
