//! A piece that is written whole.
ghost use Rattle.std.specs.Prelude.{◌≤◌, IsErrOf, IsTrue};
ghost use Rattle.line_program.specs.Faults.{Rose, SinkCountsEach};
ghost use Rattle.line_program.specs.Puts.{Puts};

use crate::{Sink, SinkError};

/// Writes the piece, and then what the sink left of it, until nothing is left. At an error a front of the piece is written, and not
/// all of it.
pub fn put_all<K: Sink>(sink: &mut K, piece: &[u8]) -> Result<(), SinkError>
    ensures puts { Puts (K.written sink.old) (K.written sink.new) piece.now result }
    ensures later { K.faults sink.old ≤ K.faults sink.new }
    ensures failed { IsErrOf result SinkError.Failed
        → Rose (K.faults sink.old) (K.faults sink.new) }
    ensures each { IsTrue K.counts_each
        → SinkCountsEach (K.faults sink.old) (K.faults sink.new) result }
    ensures last { IsErrOf result SinkError.Failed → K.last_failed sink.new }
{
    let mut rest = piece;
    while !rest.is_empty() {
        let count = sink.write(rest)?;
        rest = &rest[count..];
    }
    Ok(())
}
