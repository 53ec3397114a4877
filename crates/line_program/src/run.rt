//! The loop of a run.
ghost use Rattle.std.specs.Prelude.{◌≡◌, ◌≢◌, ◌⊎◌, ◌<◌, ◌^◌, ℕ, List, Some, length, IsTrue};
ghost use Rattle.line_program.specs.Faults.{CountsOnce, Rose};
ghost use Rattle.line_program.specs.Lines.{AreShort, lines_of};
ghost use Rattle.line_program.specs.Ran.{Ran};

use crate::lines::{feed, finish};
use crate::{Command, Sink, Source, Status};
use std::alloc::Global;

// Each turn takes at least one byte.
const MAX_TURNS: u64 = 1 << 48;

/// Answers each line that the source has left.
///
/// It reads 4,096 bytes at a time, answers each line that ended before it reads again, and hands each answer with the
/// end of a line to the sink in one piece, and then what the sink left of it. Where it stops at a line, the lines before
/// that one are answered.
///
/// It keeps in memory what the command keeps from line to line, and the part of a line that is not read to its end. It takes
/// memory of its own only for such a part that is longer than each before.
pub fn answer_lines<C: Command, S: Source, K: Sink>(
    command: &C,
    alloc: Global,
    source: &mut S,
    sink: &mut K,
) -> Status
    ensures ran { Ran (C.is_answer command.now)
        (S.left source.old) (S.left source.new) (K.written sink.old) (K.written sink.new) result }
    ensures good_words { result ≢ Status.BadWords }
    ensures read_fault { result ≡ Status.ReadFault
        → Rose (S.faults source.old) (S.faults source.new) }
    ensures write_fault { result ≡ Status.WriteFault
        → Rose (K.faults sink.old) (K.faults sink.new) }

    // A stream that counts its failures is not asked again after one: it has one more at its fault and none more at each
    // other status, and its last call was the one that failed.
    ensures reads_once { IsTrue S.counts_each
        → CountsOnce Status.ReadFault (S.faults source.old) (S.faults source.new) result }
    ensures writes_once { IsTrue K.counts_each
        → CountsOnce Status.WriteFault (K.faults sink.old) (K.faults sink.new) result }
    ensures last_read { result ≡ Status.ReadFault → S.last_failed source.new }
    ensures last_write { result ≡ Status.WriteFault → K.last_failed sink.new }

    // With streams that do not fail and an input within the limits, it is done.
    ensures complete { (input : List ℕ) → S.left source.old ≡ Some input
        → AreShort (lines_of input)
        → length input < 2 ^ 48
        → ¬ Rose (S.faults source.old) (S.faults source.new)
        → ¬ Rose (K.faults sink.old) (K.faults sink.new)
        → (result ≡ Status.Done) ⊎ (result ≡ Status.OutOfMemory) }
{
    let mut buffer = [0u8; 4096];
    let mut kept = command.start(alloc);
    let mut line = Vec::new(alloc);
    for _turn in 0..MAX_TURNS {
        let Ok(count) = source.read(&mut buffer) else {
            return Status::ReadFault;
        };
        if count == 0 {
            if let Err(status) = finish(command, alloc, &mut kept, &line, sink) {
                return status;
            }
            return Status::Done;
        }
        if let Err(status) = feed(command, alloc, &mut kept, &buffer[..count], &mut line, sink) {
            return status;
        }
    }
    Status::InputTooLong
}
