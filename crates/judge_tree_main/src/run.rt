//! The program's run.
ghost use Rattle.std.specs.Prelude.{[], ◌∷◌, ◌≡◌, ◌⊎◌, ◌↔◌, ◌<◌, ◌^◌, ℕ, List, Some, length, map, string_bytes, IsTrue};
ghost use Rattle.judge.specs.Words.{IsCheck};
ghost use Rattle.judge_tree_main.specs.Answers.{LineAnswer};
ghost use Rattle.line_program.specs.Faults.{CountsOnce, Rose};
ghost use Rattle.line_program.specs.Lines.{AreShort, lines_of};
ghost use Rattle.line_program.specs.Ran.{Ran};

use crate::answer::CheckCommand;
use line_program::{Sink, Source, Status, answer_lines};
use std::alloc::Global;

// With no word, or with the word `check`, judges the pair of each line that the source has left.
pub(crate) fn run_words<S: Source, K: Sink>(
    alloc: Global,
    words: &[String],
    source: &mut S,
    sink: &mut K,
) -> Status
    ensures bad_words { (result ≡ Status.BadWords) ↔ (¬ IsCheck (map string_bytes words.now)) }
    ensures untouched { result ≡ Status.BadWords
        → (source.new ≡ source.old) × (sink.new ≡ sink.old) }
    ensures check { IsCheck (map string_bytes words.now)
        → Ran LineAnswer (S.left source.old) (S.left source.new)
        (K.written sink.old) (K.written sink.new) result }
    ensures read_fault { result ≡ Status.ReadFault
        → Rose (S.faults source.old) (S.faults source.new) }
    ensures write_fault { result ≡ Status.WriteFault
        → Rose (K.faults sink.old) (K.faults sink.new) }
    ensures reads_once { IsTrue S.counts_each
        → CountsOnce Status.ReadFault (S.faults source.old) (S.faults source.new) result }
    ensures writes_once { IsTrue K.counts_each
        → CountsOnce Status.WriteFault (K.faults sink.old) (K.faults sink.new) result }

    // With good words, streams that do not fail and an input within the limits, it is done.
    ensures complete { (input : List ℕ) → S.left source.old ≡ Some input
        → AreShort (lines_of input)
        → length input < 2 ^ 48
        → IsCheck (map string_bytes words.now)
        → ¬ Rose (S.faults source.old) (S.faults source.new)
        → ¬ Rose (K.faults sink.old) (K.faults sink.new)
        → (result ≡ Status.Done) ⊎ (result ≡ Status.OutOfMemory) }
{
    if ask_check(words) {
        answer_lines(&CheckCommand, alloc, source, sink)
    } else {
        Status::BadWords
    }
}

// Whether there is no word, or the one word `check`.
fn ask_check(words: &[String]) -> bool
    ensures { IsTrue result ↔ IsCheck (map string_bytes words.now) }
{
    match words {
        [] => true,
        [word] => asks_check(word.as_str()),
        _ => false,
    }
}

// Whether the word is `check`.
fn asks_check(word: &str) -> bool
    ensures { IsTrue result ↔ IsCheck (word.now ∷ []) }
{
    match word {
        "check" => true,
        _ => false,
    }
}
