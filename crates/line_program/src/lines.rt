//! Pieces of the input, cut into lines, each answered into the sink.
ghost use Rattle.std.specs.Prelude.{◌≡◌, ◌++◌, [], IsErrOf, IsTrue, OnOk, IfErr};
ghost use Rattle.line_program.specs.Faults.{StepCountsOnce};
ghost use Rattle.line_program.specs.inner.Feeding.{Answered, AnswersRest, Extends, Feeds, IsOpenLine, StoppedAt, StoppedIn, WriteCause};
ghost use Rattle.line_program.specs.Lines.{IsOneLine};

use crate::{Command, Sink, SinkError, Status, cut_at, put_all};
use std::alloc::Global;
use std::convert::AsSlice;

const LINE_END: u8 = b'\n';

const MAX_LINE: usize = 1 << 24;

// Takes a piece of the input after an open line.
pub(crate) fn feed<C: Command, K: Sink>(
    command: &C,
    alloc: Global,
    kept: &mut C::Kept,
    piece: &[u8],
    line: &mut Vec<u8>,
    sink: &mut K,
) -> Result<(), Status>
    requires serves { C.serves command.now kept.old }
    requires open { IsOpenLine line.old.items }
    ensures serves { C.serves command.now kept.new }
    ensures open { OnOk result (IsOpenLine line.new.items) }
    ensures feeds { OnOk result (Feeds (C.is_answer command.now)
        line.old.items piece.now line.new.items (K.written sink.old) (K.written sink.new)) }
    ensures stops { IfErr result (StoppedIn (C.is_answer command.now) (line.old.items ++ piece.now)
        (K.written sink.old) (K.written sink.new)) }
    ensures cause { WriteCause (K.faults sink.old) (K.faults sink.new) result }
    ensures once { IsTrue K.counts_each
        → StepCountsOnce Status.WriteFault (K.faults sink.old) (K.faults sink.new) result }
    ensures last { IsErrOf result Status.WriteFault → K.last_failed sink.new }
{
    let mut rest = piece;
    while let Some((part, after)) = cut_at(LINE_END, rest) {
        end_line(command, alloc, kept, part, line, sink)?;
        rest = after;
    }
    extend_line(line, rest)
}

// Answers what came after the last end of a line.
pub(crate) fn finish<C: Command, K: Sink>(
    command: &C,
    alloc: Global,
    kept: &mut C::Kept,
    line: &[u8],
    sink: &mut K,
) -> Result<(), Status>
    requires serves { C.serves command.now kept.old }
    requires open { IsOpenLine line.now }
    ensures serves { C.serves command.now kept.new }
    ensures rest { OnOk result (AnswersRest (C.is_answer command.now) line.now
        (K.written sink.old) (K.written sink.new)) }
    ensures stops { IfErr result (StoppedIn (C.is_answer command.now) line.now
        (K.written sink.old) (K.written sink.new)) }
    ensures cause { WriteCause (K.faults sink.old) (K.faults sink.new) result }
    ensures once { IsTrue K.counts_each
        → StepCountsOnce Status.WriteFault (K.faults sink.old) (K.faults sink.new) result }
    ensures last { IsErrOf result Status.WriteFault → K.last_failed sink.new }
{
    if line.is_empty() {
        return Ok(());
    }
    answer_line(command, alloc, kept, line, sink)
}

// Answers the line that ends with this part, and empties it. A line that lies whole in the part
// is not copied.
fn end_line<C: Command, K: Sink>(
    command: &C,
    alloc: Global,
    kept: &mut C::Kept,
    part: &[u8],
    line: &mut Vec<u8>,
    sink: &mut K,
) -> Result<(), Status>
    requires serves { C.serves command.now kept.old }
    requires open { IsOpenLine line.old.items }
    requires one { IsOneLine part.now }
    ensures serves { C.serves command.now kept.new }
    ensures emptied { OnOk result (line.new.items ≡ []) }
    ensures answered { OnOk result (Answered (C.is_answer command.now) (line.old.items ++ part.now)
        (K.written sink.old) (K.written sink.new)) }
    ensures stops { IfErr result (StoppedAt (C.is_answer command.now) (line.old.items ++ part.now)
        (K.written sink.old) (K.written sink.new)) }
    ensures cause { WriteCause (K.faults sink.old) (K.faults sink.new) result }
    ensures once { IsTrue K.counts_each
        → StepCountsOnce Status.WriteFault (K.faults sink.old) (K.faults sink.new) result }
    ensures last { IsErrOf result Status.WriteFault → K.last_failed sink.new }
{
    if line.is_empty() && part.len() <= MAX_LINE {
        return answer_line(command, alloc, kept, part, sink);
    }
    extend_line(line, part)?;
    answer_line(command, alloc, kept, line, sink)?;
    line.clear();
    Ok(())
}

// Adds a part to an open line.
fn extend_line(line: &mut Vec<u8>, part: &[u8]) -> Result<(), Status>
    requires { IsOpenLine line.old.items }
    ensures { Extends line.old.items line.new.items part.now result }
{
    if part.len() > MAX_LINE - line.len() {
        return Err(Status::LineTooLong);
    }
    line.extend_from_slice(part)
        .map_err(|_| Status::OutOfMemory)
}

// Answers a line, and writes the answer.
fn answer_line<C: Command, K: Sink>(
    command: &C,
    alloc: Global,
    kept: &mut C::Kept,
    line: &[u8],
    sink: &mut K,
) -> Result<(), Status>
    requires serves { C.serves command.now kept.old }
    requires open { IsOpenLine line.now }
    ensures serves { C.serves command.now kept.new }
    ensures answered { OnOk result (Answered (C.is_answer command.now) line.now
        (K.written sink.old) (K.written sink.new)) }
    ensures stops { IfErr result (StoppedAt (C.is_answer command.now) line.now
        (K.written sink.old) (K.written sink.new)) }
    ensures cause { WriteCause (K.faults sink.old) (K.faults sink.new) result }
    ensures once { IsTrue K.counts_each
        → StepCountsOnce Status.WriteFault (K.faults sink.old) (K.faults sink.new) result }
    ensures last { IsErrOf result Status.WriteFault → K.last_failed sink.new }
{
    let Ok(text) = command.answer(alloc, kept, line) else {
        return Err(Status::OutOfMemory);
    };
    match put_all(sink, text.as_slice()) {
        Ok(()) => Ok(()),
        Err(SinkError::Failed) => Err(Status::WriteFault),
        Err(SinkError::OutOfMemory) => Err(Status::OutOfMemory),
    }
}
