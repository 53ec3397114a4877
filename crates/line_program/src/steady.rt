//! Streams that never fail.
ghost use Rattle.std.specs.Prelude.{Some, None, true, ◌≡◌, ◌≤◌, ◌<◌, min, length, IfOk};
ghost use Rattle.std.specs.Io.{ReadsAtMost, WritesAtMost};
ghost use Rattle.std.specs.Io.KnownBytes.{ReadConsumes, WriteAppends};
ghost use Rattle.line_program.specs.Faults.{CountsEach, HasCause, SinkCountsEach, SinkHasCause};

use crate::memory::copy_front;
use crate::{Failed, Sink, SinkError, Source};

/// A source of the bytes of a vector, whose reads never fail.
#[derive(Drop)]
pub struct SteadySource {
    bytes: Vec<u8>,
    place: usize,
    ghost within: { place ≤ length bytes.items },
}

/// A sink that takes every piece and keeps nothing.
#[derive(Drop)]
pub struct SteadySink;

impl SteadySource {
    ghost use Rattle.line_program.specs.Steady.{steady_left};

    /// A source of these bytes.
    pub fn new(bytes: Vec<u8>) -> Self
        ensures { steady_left result ≡ bytes.items }
    {
        SteadySource { bytes, place: 0 }
    }
}

impl Source for SteadySource {
    ghost use Rattle.line_program.specs.Steady.{steady_left};

    ghost left = { λ source. Some (steady_left source) };

    ghost faults = { λ _. 0 };

    ghost counts_each = { true };

    fn read(&mut self, buffer: &mut [u8]) -> Result<usize, Failed>
        ensures bound { ReadsAtMost result buffer.new }
        ensures bytes { ReadConsumes (Some (steady_left self.old)) (Some (steady_left self.new))
            result buffer.new }
        ensures cause { HasCause 0 0 result }
        ensures each { CountsEach 0 0 result }
        ensures full { result ≡ Ok (min (length (steady_left self.old)) (length buffer.old)) }
    {
        let count = copy_front(&self.bytes[self.place..], buffer);
        self.place += count;
        Ok(count)
    }
}

impl SteadySink {
    pub fn new() -> Self {
        SteadySink
    }
}

impl Sink for SteadySink {
    ghost written = { λ _. None };

    ghost faults = { λ _. 0 };

    ghost counts_each = { true };

    fn write(&mut self, piece: &[u8]) -> Result<usize, SinkError>
        ensures bound { WritesAtMost result piece.now }
        ensures some { IfOk result (λ count. 0 < length piece.now → 0 < count) }
        ensures bytes { WriteAppends None None result piece.now }
        ensures cause { SinkHasCause 0 0 result }
        ensures each { SinkCountsEach 0 0 result }
        ensures whole { result ≡ Ok (length piece.now) }
    {
        Ok(piece.len())
    }
}
