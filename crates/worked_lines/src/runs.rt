//! Runs over lines.

use crate::slow::{SlowSink, SlowSource};
use crate::texts::expand;
use judge::{MemorySink, MemorySource, Sink, Status, SteadySink, run};
use std::alloc::Global;

// The numbers between commas, or none of `-`.
fn numbers(alloc: Global, text: &str) -> Vec<u64> {
    let mut all = Vec::new(alloc);
    for word in text.split(',') {
        if let Ok(number) = word.parse()
            && all.push(number).is_err()
        {
            return all;
        }
    }
    all
}

// The words between commas, or none of `-`.
fn words_of(alloc: Global, text: &str) -> Option<Vec<String>> {
    let mut all = Vec::new(alloc);
    if text != "-" {
        for word in text.split(',') {
            all.push(String::from_str(alloc, word).ok()?).ok()?;
        }
    }
    Some(all)
}

/// `WORDS READS WRITES TEXT`: the status of a run over the text, where `/` ends a line, and what it has written. The reads and the
/// writes of these numbers fail. Where none does, streams of one byte at a time, and a sink that never fails, end with the same.
pub(crate) fn run_row(alloc: Global, rest: &str) -> Option<String> {
    let (words, rest) = rest.split_once(' ')?;
    let (reads, rest) = rest.split_once(' ')?;
    let (writes, text) = rest.split_once(' ')?;
    let words = words_of(alloc, words)?;
    let text = text_of(alloc, text)?;
    let steady = reads == "-" && writes == "-" && text.len() <= 100_000;
    let bytes = text.as_bytes();
    let mut sink = MemorySink::new(alloc, numbers(alloc, writes));
    let status = run_with(alloc, &words, bytes, numbers(alloc, reads), &mut sink)?;
    shown(alloc, &words, bytes, status, sink.written(), steady)
}

// The text of the parts, in which `/` ends a line.
fn text_of(alloc: Global, text: &str) -> Option<String> {
    expand(alloc, text)?.replace(alloc, "/", "\n").ok()
}

// The status of a run over the bytes, in which the reads of these numbers fail.
fn run_with<K: Sink>(
    alloc: Global,
    words: &[String],
    bytes: &[u8],
    reads: Vec<u64>,
    sink: &mut K,
) -> Option<Status> {
    let mut source = MemorySource::new(bytes.to_vec(alloc).ok()?, reads);
    Some(run(alloc, words, &mut source, sink))
}

// A run's status and what it has written; and where no stream fails, whether other streams end with the same.
fn shown(
    alloc: Global,
    words: &[String],
    bytes: &[u8],
    status: Status,
    written: &[u8],
    steady: bool,
) -> Option<String> {
    let text = str::from_utf8(written).ok()?;
    if !steady {
        return format!(in alloc; "{status:?} {text:?}").ok();
    }
    let slowly = slow_run_is_alike(alloc, words, bytes, status, written)?;
    let again = run_with(alloc, words, bytes, Vec::new(alloc), &mut SteadySink::new())?;
    let alike = slowly && again == status;
    format!(in alloc; "{status:?} {alike} {text:?}").ok()
}

// Whether a run over streams of one byte at a time has the same status, and writes the same.
fn slow_run_is_alike(
    alloc: Global,
    words: &[String],
    bytes: &[u8],
    status: Status,
    written: &[u8],
) -> Option<bool> {
    let mut source = SlowSource::new(bytes.to_vec(alloc).ok()?);
    let mut sink = SlowSink::new(alloc);
    let slowly = run(alloc, words, &mut source, &mut sink);
    Some(slowly == status && sink.written() == written)
}
