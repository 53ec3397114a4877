//! What a run reads from and writes to.
ghost use Rattle.std.specs.Prelude.{◌<◌, ℕ, Bool, false, List, length, IfOk, IsErrOf, IsTrue, OnErr};
ghost use Rattle.std.specs.declared.option.Option.{Option};
ghost use Rattle.std.specs.Io.{ReadsAtMost, WritesAtMost};
ghost use Rattle.std.specs.Io.KnownBytes.{ReadConsumes, WriteAppends};
ghost use Rattle.line_program.specs.Faults.{CountsEach, HasCause, SinkCountsEach, SinkHasCause};

use thiserror::Error;

/// A read failed.
#[derive(Debug, Drop, PartialEq, Eq, Error)]
#[error("Failed")]
pub struct Failed;

/// Why a sink took nothing.
#[derive(Debug, Drop, PartialEq, Eq, Error)]
pub enum SinkError {
    /// The write failed, as where the other end of a pipe is closed.
    #[error("Failed")]
    Failed,
    /// A sink in memory found none to grow.
    #[error("OutOfMemory")]
    OutOfMemory,
}

/// Bytes that are read from the first to the last.
pub trait Source {
    /// The bytes left, where it tells them.
    ghost left: { Self → Option (List ℕ) };

    /// How often it failed.
    ghost faults: { Self → ℕ };

    /// Whether that count is one more after each read that fails, and the same after each that works.
    ghost counts_each: { Bool } = { false };

    /// That the last read failed, where it tells it.
    ghost last_failed: { Self → Type 0 } = { λ _. Unit {0} };

    /// Puts the next bytes into the front of the buffer, and gives their number. 0 in a buffer that is not empty is the
    /// end. After `Failed` nothing was taken, and the buffer may hold anything.
    fn read(&mut self, buffer: &mut [u8]) -> Result<usize, Failed>
        ensures bound { ReadsAtMost result buffer.new }
        ensures bytes { ReadConsumes (left self.old) (left self.new) result buffer.new }
        ensures cause { HasCause (faults self.old) (faults self.new) result }
        ensures each { IsTrue counts_each
            → CountsEach (faults self.old) (faults self.new) result }
        ensures last { OnErr result (last_failed self.new) };
}

/// Where bytes are written, each piece after the one before.
pub trait Sink {
    /// The bytes written, where it tells them.
    ghost written: { Self → Option (List ℕ) };

    /// How often it failed.
    ghost faults: { Self → ℕ };

    /// Whether that count is one more after each write that fails, and the same after each other.
    ghost counts_each: { Bool } = { false };

    /// That the last write failed, where it tells it.
    ghost last_failed: { Self → Type 0 } = { λ _. Unit {0} };

    /// Appends a front of the piece, and gives its length, at least 1 for a piece that is not empty. An error appended
    /// nothing.
    fn write(&mut self, piece: &[u8]) -> Result<usize, SinkError>
        ensures bound { WritesAtMost result piece.now }
        ensures some { IfOk result (λ count. 0 < length piece.now → 0 < count) }
        ensures bytes { WriteAppends (written self.old) (written self.new) result piece.now }
        ensures cause { SinkHasCause (faults self.old) (faults self.new) result }
        ensures each { IsTrue counts_each
            → SinkCountsEach (faults self.old) (faults self.new) result }
        ensures last { IsErrOf result SinkError.Failed → last_failed self.new };
}
