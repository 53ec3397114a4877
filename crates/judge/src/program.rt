//! The program's run.
ghost use Rattle.std.specs.Prelude.{◌≡◌, ◌⊎◌, ◌↔◌, ◌<◌, ◌^◌, ℕ, List, Some, length, map, string_bytes, IsTrue};
ghost use Rattle.judge.specs.Answers.{LineAnswer, LineAnswerBy};
ghost use Rattle.judge.specs.Codes.{CodeAnswer};
ghost use Rattle.line_program.specs.Faults.{CountsOnce, Rose};
ghost use Rattle.line_program.specs.Lines.{AreShort, lines_of};
ghost use Rattle.judge.specs.Made.{Made};
ghost use Rattle.line_program.specs.Ran.{Ran};
ghost use Rattle.judge.specs.Words.{AreGood, IsCheck, IsCheck4, IsEncode, IsMake};

use crate::answer::CheckCommand;
use crate::code::EncodeCommand;
use crate::make::make;
use crate::words::{Request, read_words};
use flat_keywords::Draft;
use line_program::{Sink, Source, Status, answer_lines};
use std::alloc::Global;

/// Does what the words ask for: with no word, or with the word `check`, it judges the pair of each line that the source has left; with
/// `check4` it judges by draft 4; with `encode` it gives the bytes of the JSON text of each; with `make` and a number from 1 to 100000
/// it judges that many pairs of its own, and counts them.
///
/// It reads 4,096 bytes at a time, answers each line that ended before it reads again, and hands each answer with the
/// end of a line to the sink in one piece, and then what the sink left of it. Where it stops at a line, the lines before
/// that one are answered. With `make` it reads nothing.
///
/// By review, with `check` and `check4` it keeps the bytes of one pair in memory, and the keywords of the last pair, compiled, with their
/// hex text: where a line has that hex text, its keywords are not compiled anew. So it takes memory for a line only where a buffer
/// has to grow, where other keywords are compiled, and where judging the document takes it, as `flat_keywords` says.
pub fn run<S: Source, K: Sink>(
    alloc: Global,
    words: &[String],
    source: &mut S,
    sink: &mut K,
) -> Status
    ensures bad_words { (result ≡ Status.BadWords) ↔ (¬ AreGood (map string_bytes words.now)) }
    ensures untouched { result ≡ Status.BadWords
        → (source.new ≡ source.old) × (sink.new ≡ sink.old) }
    ensures check { IsCheck (map string_bytes words.now)
        → Ran LineAnswer (S.left source.old) (S.left source.new)
        (K.written sink.old) (K.written sink.new) result }
    ensures check4 { IsCheck4 (map string_bytes words.now)
        → Ran (LineAnswerBy Draft.Draft4) (S.left source.old) (S.left source.new)
        (K.written sink.old) (K.written sink.new) result }
    ensures encode { IsEncode (map string_bytes words.now)
        → Ran CodeAnswer (S.left source.old) (S.left source.new)
        (K.written sink.old) (K.written sink.new) result }
    ensures make { (count : ℕ) → IsMake (map string_bytes words.now) count
        → (source.new ≡ source.old) × Made count (K.written sink.old) (K.written sink.new) result }
    ensures read_fault { result ≡ Status.ReadFault
        → Rose (S.faults source.old) (S.faults source.new) }
    ensures write_fault { result ≡ Status.WriteFault
        → Rose (K.faults sink.old) (K.faults sink.new) }

    // A stream that counts its failures is not asked again after one: it has one more at its fault and none more at each
    // other status, and its last call was the one that failed.
    ensures reads_once { IsTrue S.counts_each
        → CountsOnce Status.ReadFault (S.faults source.old) (S.faults source.new) result }
    ensures writes_once { IsTrue K.counts_each
        → CountsOnce Status.WriteFault (K.faults sink.old) (K.faults sink.new) result }
    ensures last_read { result ≡ Status.ReadFault → S.last_failed source.new }
    ensures last_write { result ≡ Status.WriteFault → K.last_failed sink.new }

    // With good words, streams that do not fail and an input within the limits, it is done.
    ensures complete { (input : List ℕ) → S.left source.old ≡ Some input
        → AreShort (lines_of input)
        → length input < 2 ^ 48
        → AreGood (map string_bytes words.now)
        → ¬ Rose (S.faults source.old) (S.faults source.new)
        → ¬ Rose (K.faults sink.old) (K.faults sink.new)
        → (result ≡ Status.Done) ⊎ (result ≡ Status.OutOfMemory) }
{
    match read_words(words) {
        Some(Request::Check) => answer_lines(
            &CheckCommand {
                draft: Draft::Draft2020,
            },
            alloc,
            source,
            sink,
        ),
        Some(Request::Check4) => answer_lines(
            &CheckCommand {
                draft: Draft::Draft4,
            },
            alloc,
            source,
            sink,
        ),
        Some(Request::Encode) => answer_lines(&EncodeCommand, alloc, source, sink),
        Some(Request::Make(count)) => make(alloc, count, sink),
        None => Status::BadWords,
    }
}
