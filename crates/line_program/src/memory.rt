//! Streams in memory, which fail at listed calls.
ghost use Rattle.std.specs.Prelude.{Some, true, ◌≡◌, ◌↔◌, ◌≤◌, ◌<◌, ◌+◌, ◌-◌, ◌^◌, [], min, length, take, Contains};
ghost use Rattle.std.specs.Prelude.{IfOk, OnErr, IsErr, IsErrOf};
ghost use Rattle.std.specs.Io.{ReadsAtMost, WritesAtMost};
ghost use Rattle.std.specs.Io.KnownBytes.{ReadConsumes, WriteAppends};
ghost use Rattle.line_program.specs.Faults.{CountsEach, HasCause, SinkCountsEach, SinkHasCause};

use crate::{Failed, Sink, SinkError, Source};
use std::alloc::Global;

/// A source of the bytes of a vector.
#[derive(Drop)]
pub struct MemorySource {
    bytes: Vec<u8>,
    place: usize,
    fails: Vec<u64>,
    calls: u64,
    faults: u64,
    ghost within: { place ≤ length bytes.items },
}

/// A sink that keeps what is written.
#[derive(Drop)]
pub struct MemorySink {
    bytes: Vec<u8>,
    fails: Vec<u64>,
    calls: u64,
    faults: u64,
}

// Copies as much as fits, and gives its length.
pub(crate) fn copy_front(from: &[u8], buffer: &mut [u8]) -> usize
    ensures count { result ≡ min (length from.now) (length buffer.old) }
    ensures front { take result buffer.new ≡ take result from.now }
{
    let count = from.len().min(buffer.len());
    buffer[..count].copy_from_slice(&from[..count]);
    count
}

impl MemorySource {
    ghost use Rattle.line_program.specs.Memory.{source_left, source_calls, source_fails, source_faults};

    /// A source that gives these bytes and fails at the calls of the list, counted from 1.
    pub fn new(bytes: Vec<u8>, fails: Vec<u64>) -> Self
        ensures left { source_left result ≡ bytes.items }
        ensures fails { source_fails result ≡ fails.items }
        ensures calls { source_calls result ≡ 0 }
        ensures faults { source_faults result ≡ 0 }
    {
        MemorySource {
            bytes,
            place: 0,
            fails,
            calls: 0,
            faults: 0,
        }
    }
}

impl Source for MemorySource {
    ghost use Rattle.line_program.specs.Memory.{source_left, source_calls, source_fails, source_faults};

    ghost left = { λ source. Some (source_left source) };

    ghost faults = { source_faults };

    ghost counts_each = { true };

    ghost last_failed = { λ source. Contains (source_fails source) (source_calls source) };

    fn read(&mut self, buffer: &mut [u8]) -> Result<usize, Failed>
        ensures bound { ReadsAtMost result buffer.new }
        ensures bytes { ReadConsumes (Some (source_left self.old)) (Some (source_left self.new))
            result buffer.new }
        ensures cause { HasCause (source_faults self.old) (source_faults self.new) result }

        // It fails at the listed calls alone, counts each, and else gives as much as the buffer takes.
        ensures each { CountsEach (source_faults self.old) (source_faults self.new) result }
        ensures last { OnErr result (Contains (source_fails self.new) (source_calls self.new)) }
        ensures calls { source_calls self.new ≡ min (source_calls self.old + 1) (2 ^ 64 - 1) }
        ensures fails { IsErr result ↔ Contains (source_fails self.old) (source_calls self.new) }
        ensures same_fails { source_fails self.new ≡ source_fails self.old }
        ensures full { IfOk result (λ count.
            count ≡ min (length (source_left self.old)) (length buffer.old)) }
    {
        self.calls = self.calls.saturating_add(1);
        if self.fails.contains(&self.calls) {
            self.faults = self.faults.saturating_add(1);
            return Err(Failed);
        }
        let count = copy_front(&self.bytes[self.place..], buffer);
        self.place += count;
        Ok(count)
    }
}

impl MemorySink {
    ghost use Rattle.line_program.specs.Memory.{sink_written, sink_calls, sink_fails, sink_faults};

    /// An empty sink that fails at the calls of the list, counted from 1.
    pub fn new(alloc: Global, fails: Vec<u64>) -> Self
        ensures written { sink_written result ≡ [] }
        ensures fails { sink_fails result ≡ fails.items }
        ensures calls { sink_calls result ≡ 0 }
        ensures faults { sink_faults result ≡ 0 }
    {
        MemorySink {
            bytes: Vec::new(alloc),
            fails,
            calls: 0,
            faults: 0,
        }
    }

    /// The bytes written so far.
    pub fn written(&self) -> &[u8]
        ensures { result.now ≡ sink_written self.now }
    {
        &self.bytes
    }
}

impl Sink for MemorySink {
    ghost use Rattle.line_program.specs.Memory.{sink_written, sink_calls, sink_fails, sink_faults};

    ghost written = { λ sink. Some (sink_written sink) };

    ghost faults = { sink_faults };

    ghost counts_each = { true };

    ghost last_failed = { λ sink. Contains (sink_fails sink) (sink_calls sink) };

    fn write(&mut self, piece: &[u8]) -> Result<usize, SinkError>
        ensures bound { WritesAtMost result piece.now }
        ensures some { IfOk result (λ count. 0 < length piece.now → 0 < count) }
        ensures bytes { WriteAppends (Some (sink_written self.old)) (Some (sink_written self.new))
            result piece.now }
        ensures cause { SinkHasCause (sink_faults self.old) (sink_faults self.new) result }

        // It fails at the listed calls alone, counts each, and else takes the piece whole, or finds no memory.
        ensures each { SinkCountsEach (sink_faults self.old) (sink_faults self.new) result }
        ensures last { IsErrOf result SinkError.Failed
            → Contains (sink_fails self.new) (sink_calls self.new) }
        ensures calls { sink_calls self.new ≡ min (sink_calls self.old + 1) (2 ^ 64 - 1) }
        ensures fails { (result ≡ Err SinkError.Failed)
            ↔ Contains (sink_fails self.old) (sink_calls self.new) }
        ensures same_fails { sink_fails self.new ≡ sink_fails self.old }
        ensures whole { IfOk result (λ count. count ≡ length piece.now) }
    {
        self.calls = self.calls.saturating_add(1);
        if self.fails.contains(&self.calls) {
            self.faults = self.faults.saturating_add(1);
            return Err(SinkError::Failed);
        }
        match self.bytes.extend_from_slice(piece) {
            Ok(()) => Ok(piece.len()),
            Err(_) => Err(SinkError::OutOfMemory),
        }
    }
}
