//! One document under a nested schema.

ghost use Rattle.std.specs.Prelude.{◌⊎◌, Err};
ghost use Rattle.judge_c.specs.TreeAnswers.{IsGiven, IsRightAnswer};

use crate::tree_answer::JudgeTreeAnswer;
use judge_tree::{TreeError, judge_tree};
use std::alloc::Global;

/// The answer to the schema and the document, both as `jsonb` bytes. By review, want of memory comes only where it
/// may come of `judge_tree`.
#[unsafe(no_mangle)]
pub extern "C" fn judge_c_tree(alloc: Global, schema: &[u8], document: &[u8]) -> JudgeTreeAnswer
    ensures { IsGiven result (Err TreeError.OutOfMemory) ⊎ IsRightAnswer schema.now document.now result }
{
    JudgeTreeAnswer::of(judge_tree(alloc, schema, document))
}
