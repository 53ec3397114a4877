//! Standard input and output as streams, which count their faults.
ghost use Rattle.std.specs.Prelude.{None, Err, true, ◌≡◌, ◌≢◌, ◌≤◌, ◌<◌, length, IfOk};
ghost use Rattle.std.specs.Io.{ReadsAtMost, WritesAtMost};
ghost use Rattle.std.specs.Io.KnownBytes.{ReadConsumes, WriteAppends};
ghost use Rattle.line_program.specs.Faults.{CountsEach, HasCause, IsOneMore, SinkCountsEach, SinkHasCause};

use crate::{Failed, Sink, SinkError, Source};
use std::io::{Read, Stdin, Stdout, Write};

/// Standard input. It tells no content.
#[derive(Drop)]
pub struct StdinSource {
    stdin: Stdin,
    faults: u64,
}

/// Standard output, which is flushed at each call. It tells no content.
#[derive(Drop)]
pub struct StdoutSink {
    stdout: Stdout,
    faults: u64,
}

impl StdinSource {
    pub fn new(stdin: Stdin) -> Self
        ensures { ⟦<StdinSource as Source>⟧.faults result ≡ 0 }
    {
        StdinSource { stdin, faults: 0 }
    }
}

impl Source for StdinSource {
    ghost left = { λ _. None };

    ghost faults = { λ source. source.faults };

    ghost counts_each = { true };

    fn read(&mut self, buffer: &mut [u8]) -> Result<usize, Failed>
        ensures bound { ReadsAtMost result buffer.new }
        ensures bytes { ReadConsumes None None result buffer.new }
        ensures cause { HasCause self.old.faults self.new.faults result }
        ensures each { CountsEach self.old.faults self.new.faults result }
    {
        match self.stdin.read(buffer) {
            Ok(count) => Ok(count),
            Err(_) => {
                self.faults = self.faults.saturating_add(1);
                Err(Failed)
            }
        }
    }
}

impl StdoutSink {
    pub fn new(stdout: Stdout) -> Self
        ensures { ⟦<StdoutSink as Sink>⟧.faults result ≡ 0 }
    {
        StdoutSink { stdout, faults: 0 }
    }

    fn count_fault(&mut self)
        ensures later { self.old.faults ≤ self.new.faults }
        ensures one { IsOneMore self.old.faults self.new.faults }
    {
        self.faults = self.faults.saturating_add(1);
    }
}

impl Sink for StdoutSink {
    ghost written = { λ _. None };

    ghost faults = { λ sink. sink.faults };

    ghost counts_each = { true };

    fn write(&mut self, piece: &[u8]) -> Result<usize, SinkError>
        ensures bound { WritesAtMost result piece.now }
        ensures some { IfOk result (λ count. 0 < length piece.now → 0 < count) }
        ensures bytes { WriteAppends None None result piece.now }
        ensures cause { SinkHasCause self.old.faults self.new.faults result }
        ensures each { SinkCountsEach self.old.faults self.new.faults result }
        ensures no_memory { result ≢ Err SinkError.OutOfMemory }
    {
        let Ok(count) = self.stdout.write(piece) else {
            self.count_fault();
            return Err(SinkError::Failed);
        };
        if count == 0 && !piece.is_empty() {
            self.count_fault();
            return Err(SinkError::Failed);
        }
        if self.stdout.flush().is_err() {
            self.count_fault();
            return Err(SinkError::Failed);
        }
        Ok(count)
    }
}
