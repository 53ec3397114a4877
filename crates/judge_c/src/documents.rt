//! Documents under rules that are compiled once.

ghost use Rattle.std.specs.Prelude.{◌≡◌, ◌↔◌, ◌+◌, ◌<◌, ℕ, IsTrue, length};
ghost use Rattle.judge_c.specs.Many.{IsCodedAt, IsCoded};
ghost use Rattle.judge_c.specs.inner.Read.{IsChecked};

use crate::codes::{BAD_OFFSETS, OUT_OF_MEMORY, document_number, verdict_number};
use crate::reading::{Unread, read};
use crate::rules::Rules;
use json_exact::OutOfMemory;
use std::alloc::Global;

/// The code of a document.
fn code_number<R: Rules>(alloc: Global, rules: &R, document: &[u8]) -> u32
    ensures { IsChecked (R.passes rules.now) document.now result }
{
    match read(alloc, document) {
        Ok(root) => match rules.check_root(alloc, &root) {
            Ok(valid) => verdict_number(valid),
            Err(OutOfMemory) => OUT_OF_MEMORY,
        },
        Err(Unread::Faulty(fault)) => document_number(fault),
        Err(Unread::OutOfMemory) => OUT_OF_MEMORY,
    }
}

/// The code of the document that lies from one offset to another.
fn code_at<R: Rules>(alloc: Global, rules: &R, documents: &[u8], from: usize, to: usize) -> u32
    ensures { IsCoded (IsChecked (R.passes rules.now)) documents.now from to result }
{
    if from > to || to > documents.len() {
        return BAD_OFFSETS;
    }
    code_number(alloc, rules, &documents[from..to])
}

/// Puts the code of each document in its place.
pub(crate) fn judge_all<R: Rules>(
    alloc: Global,
    rules: &R,
    documents: &[u8],
    offsets: &[usize],
    codes: &mut [u32],
)
    requires { length offsets.now ≡ length codes.old + 1 }
    ensures { (i : ℕ) → i < length codes.new
        → IsCodedAt (IsChecked (R.passes rules.now)) documents.now offsets.now codes.new i }
{
    for (i, place) in codes.iter_mut().enumerate() {
        *place = code_at(alloc, rules, documents, offsets[i], offsets[i + 1]);
    }
}

/// Whether there is one offset more than codes.
pub(crate) fn are_enough(offsets: &[usize], codes: &[u32]) -> bool
    ensures { IsTrue result ↔ (length offsets.now ≡ length codes.now + 1) }
{
    !offsets.is_empty() && offsets.len() - 1 == codes.len()
}
