//! The bytes of containers.

ghost use Rattle.std.specs.Prelude.{◌≡◌, ◌⊎◌, ◌↔◌, ◌∷◌, ◌++◌, ◌<◌, ◌≤◌, ◌^◌, Err, IfOk, IfErr};
ghost use Rattle.std.specs.Int.{w32, to_le_bytes};
ghost use Rattle.jsonb_layout.specs.Layout.{words};
ghost use Rattle.jsonb_layout.specs.Stands.{Stands};
ghost use Rattle.jsonb.specs.Nested.{nested_arrays, nested_bytes};

use json_exact::OutOfMemory;
use jsonb_encode::{EncodeError, JB_FARRAY, JENTRY_HAS_OFF};
use std::alloc::Global;

// The kind of a container, in an entry word.
const CONTAINER: u32 = 0x5000_0000;

// 2^25 arrays of one element are the deepest whose payload is below 2^28 bytes.
const MAX_DEPTH: usize = 1 << 25;

/// The bytes of a header word (the flags and the count), of entry words and of a payload, each as it is given: nothing is
/// checked. A word has four bytes, the low byte first.
pub fn assemble(
    alloc: Global,
    flags: u32,
    entries: &[u32],
    payload: &[u8],
) -> Result<Vec<u8>, OutOfMemory>
    ensures { IfOk result (λ bytes. bytes.items ≡ words (flags ∷ entries.now) ++ payload.now) }
{
    let mut bytes = Vec::new(alloc);
    push_word(&mut bytes, flags)?;
    for entry in entries {
        push_word(&mut bytes, *entry)?;
    }
    push_all(&mut bytes, payload)?;
    Ok(bytes)
}

/// The bytes of so many arrays of one element around an empty one. A depth of more than 2^25 is `TooLarge`, and no other
/// depth is. It writes eight bytes for each of them, from the outermost inwards, and four for the empty one.
pub fn encode_nested_arrays(alloc: Global, depth: usize) -> Result<Vec<u8>, EncodeError>
    ensures stands { IfOk result (λ bytes. Stands bytes.items (nested_arrays depth)) }
    ensures too_large { (result ≡ Err EncodeError.TooLarge) ↔ 2 ^ 25 < depth }
    ensures causes { IfErr result
        (λ error. (error ≡ EncodeError.TooLarge) ⊎ (error ≡ EncodeError.OutOfMemory)) }
{
    if depth > MAX_DEPTH {
        return Err(EncodeError::TooLarge);
    }
    match write_nested_arrays(alloc, depth) {
        Ok(bytes) => Ok(bytes),
        Err(OutOfMemory) => Err(EncodeError::OutOfMemory),
    }
}

fn write_nested_arrays(alloc: Global, depth: usize) -> Result<Vec<u8>, OutOfMemory>
    requires { depth ≤ 2 ^ 25 }
    ensures { IfOk result (λ bytes. bytes.items ≡ nested_bytes depth) }
{
    let mut bytes = Vec::new(alloc);
    for level in 0..depth {
        let inner = 8 * (depth - level) - 4;
        push_word(&mut bytes, JB_FARRAY + 1)?;
        push_word(&mut bytes, JENTRY_HAS_OFF + CONTAINER + inner as u32)?;
    }
    push_word(&mut bytes, JB_FARRAY)?;
    Ok(bytes)
}

fn push_word(bytes: &mut Vec<u8>, word: u32) -> Result<(), OutOfMemory>
    ensures { IfOk result (λ _. bytes.new.items ≡ bytes.old.items ++ to_le_bytes w32 word) }
{
    push_all(bytes, &word.to_le_bytes())
}

fn push_all(bytes: &mut Vec<u8>, more: &[u8]) -> Result<(), OutOfMemory>
    ensures { IfOk result (λ _. bytes.new.items ≡ bytes.old.items ++ more.now) }
{
    bytes.extend_from_slice(more).map_err(|_| OutOfMemory)
}
