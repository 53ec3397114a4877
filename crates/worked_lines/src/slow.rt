//! Streams of one byte at a time. They tell no content.

ghost use Rattle.std.specs.Prelude.{None};

use judge::{Failed, Sink, SinkError, Source};
use std::alloc::Global;

/// Gives one byte at each call.
#[derive(Drop)]
pub(crate) struct SlowSource {
    bytes: Vec<u8>,
    place: usize,
}

/// Takes one byte at each call.
#[derive(Drop)]
pub(crate) struct SlowSink {
    bytes: Vec<u8>,
}

impl SlowSource {
    pub(crate) fn new(bytes: Vec<u8>) -> Self {
        SlowSource { bytes, place: 0 }
    }
}

impl Source for SlowSource {
    ghost left = { λ _. None };

    ghost faults = { λ _. 0 };

    fn read(&mut self, buffer: &mut [u8]) -> Result<usize, Failed> {
        let Some(byte) = self.bytes.get(self.place) else {
            return Ok(0);
        };
        let Some(slot) = buffer.first_mut() else {
            return Ok(0);
        };
        *slot = *byte;
        self.place += 1;
        Ok(1)
    }
}

impl SlowSink {
    pub(crate) fn new(alloc: Global) -> Self {
        SlowSink {
            bytes: Vec::new(alloc),
        }
    }

    pub(crate) fn written(&self) -> &[u8] {
        &self.bytes
    }
}

impl Sink for SlowSink {
    ghost written = { λ _. None };

    ghost faults = { λ _. 0 };

    fn write(&mut self, piece: &[u8]) -> Result<usize, SinkError> {
        let Some(byte) = piece.first() else {
            return Ok(0);
        };
        match self.bytes.push(*byte) {
            Ok(()) => Ok(1),
            Err(_) => Err(SinkError::OutOfMemory),
        }
    }
}
