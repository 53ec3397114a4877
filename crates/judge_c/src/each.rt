//! Many documents under one keyword object, which is compiled once.

ghost use Rattle.std.specs.Prelude.{◌≡◌, ◌≢◌, ◌↔◌, ◌⊎◌, ◌+◌, ◌<◌, List, ℕ, length, Ok, Err};
ghost use Rattle.json_model.specs.Tree.{Tree};
ghost use Rattle.jsonb.specs.Root.{IsRead};
ghost use Rattle.flat_keywords.specs.Validity.{IsValid};
ghost use Rattle.judge_c.specs.Answers.{IsCodeOf, IsGiven, IsRightAnswer};
ghost use Rattle.judge_c.specs.Codes.{bad_offsets, judged};
ghost use Rattle.judge_c.specs.Many.{IsCodedAt};

use crate::answer::JudgeAnswer;
use crate::codes::{BAD_OFFSETS, JUDGED};
use crate::compiled::compile;
use crate::documents::{are_enough, judge_all};
use flat_keywords::JudgeError;
use std::alloc::Global;

/// Puts the code of each document in its place, and answers `JUDGED`. The documents stand one behind another: each lies from its
/// offset to the next one, so there is one offset more than codes.
///
/// Any other answer says why no code is written: the offsets do not fit, memory is wanting for the keywords, or they are refused.
/// A refusal is the right answer for every document.
#[unsafe(no_mangle)]
pub extern "C" fn judge_c_each(
    alloc: Global,
    keywords: &[u8],
    documents: &[u8],
    offsets: &[usize],
    codes: &mut [u32],
) -> JudgeAnswer
    ensures offsets { result.code ≡ bad_offsets ↔ (length offsets.now ≢ length codes.old + 1) }
    ensures unwritten { (result.code ≢ judged) → codes.new ≡ codes.old }
    ensures refused { (result.code ≢ bad_offsets) → (result.code ≢ judged) → IsGiven result (Err JudgeError.OutOfMemory)
        ⊎ ((document : List ℕ) → IsRightAnswer keywords.now document result) }
    ensures no_member { (result.code ≡ bad_offsets) ⊎ (result.code ≡ judged) → result.member ≡ 0 }
    ensures valid { result.code ≡ judged → (t : Tree) × IsRead keywords.now (Ok t) × IsValid t }
    ensures judged { result.code ≡ judged → (i : ℕ) → i < length codes.new
        → IsCodedAt (IsCodeOf keywords.now) documents.now offsets.now codes.new i }
{
    if !are_enough(offsets, codes) {
        return JudgeAnswer::of_code(BAD_OFFSETS);
    }
    match compile(alloc, keywords) {
        Ok(checks) => {
            judge_all(alloc, &checks, documents, offsets, codes);
            JudgeAnswer::of_code(JUDGED)
        }
        Err(error) => JudgeAnswer::of(Err(error)),
    }
}
