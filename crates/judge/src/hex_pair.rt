//! The two hex texts of a line.
ghost use Rattle.std.specs.Prelude.{ℕ, List, IfOk, IsTrue, MatchOption};
ghost use Rattle.jsonb.specs.HexText.{IsHexText};
ghost use Rattle.judge.specs.Answers.{IsPair};

use jsonb::encode::{HexError, decode_hex_into};
use line_program::cut_at;
use std::alloc::{AllocError, Global};

/// The bytes of the two hex texts of a line, with one space between; None where the line is something else. An error is want of
/// memory.
pub fn read_pair(alloc: Global, line: &[u8]) -> Result<Option<(Vec<u8>, Vec<u8>)>, AllocError>
    ensures { IfOk result (λ pair. MatchOption pair
        ((keywords document : List ℕ) → IsPair line.now keywords document → ⊥)
        (λ both. IsPair line.now both.0.items both.1.items)) }
{
    let mut keywords = Vec::new(alloc);
    let mut document = Vec::new(alloc);
    if read_pair_into(line, &mut keywords, &mut document)? {
        Ok(Some((keywords, document)))
    } else {
        Ok(None)
    }
}

/// Reads the two hex texts of a line, as [`read_pair`] does, into two buffers in place of what these held; whether the line is such.
/// Where it is not, and after an error, the buffers may hold anything. By review, it takes memory only where a buffer has no room. An
/// error is want of memory.
pub fn read_pair_into(
    line: &[u8],
    keywords: &mut Vec<u8>,
    document: &mut Vec<u8>,
) -> Result<bool, AllocError>
    ensures pair { IfOk result (λ is. IsTrue is
        → IsPair line.now keywords.new.items document.new.items) }
    ensures all { IfOk result (λ is. (k d : List ℕ) → IsPair line.now k d → IsTrue is) }
{
    let Some((first, second)) = cut_at(b' ', line) else {
        return Ok(false);
    };
    if !read_hex(first, keywords)? {
        return Ok(false);
    }
    read_hex(second, document)
}

// Reads a hex text into a buffer; whether it is one.
pub(crate) fn read_hex(text: &[u8], bytes: &mut Vec<u8>) -> Result<bool, AllocError>
    ensures hex { IfOk result (λ is. IsTrue is → IsHexText text.now bytes.new.items) }
    ensures all { IfOk result (λ is. (b : List ℕ) → IsHexText text.now b → IsTrue is) }
{
    match decode_hex_into(text, bytes) {
        Ok(()) => Ok(true),
        Err(HexError::OutOfMemory) => Err(AllocError),
        Err(HexError::OddLength | HexError::NotHex { .. }) => Ok(false),
    }
}
