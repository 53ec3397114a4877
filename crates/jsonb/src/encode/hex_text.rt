//! Bytes as hex text.
ghost use Rattle.std.specs.Prelude.{◌≡◌, ◌↔◌, ◌⊎◌, ◌%◌, ◌*◌, ◌<◌, ◌≤◌, [], ℕ, List, length, vec_capacity, IsOk, IfErr, IfOk, OnErr, OnOk};
ghost use Rattle.jsonb.specs.HexText.{IsFirstNotHex, IsHexText};

use hex::FromHexError;
use std::alloc::Global;
use thiserror::Error;

/// Why a text was not read as hex.
#[derive(Debug, Drop, PartialEq, Eq, Error)]
pub enum HexError {
    /// The text has an odd number of bytes, as `0`.
    #[error("OddLength")]
    OddLength,
    /// The text has an even number of bytes, and the first that is no hex digit stands at `place`, counted in bytes
    /// from 0, as in `0g` at place 1.
    #[error("NotHex")]
    NotHex { place: usize },
    /// There is no memory for the bytes.
    #[error("OutOfMemory")]
    OutOfMemory,
}

/// The bytes of a text of two hex digits a byte, in either case. It allocates one byte for two bytes of text.
pub fn decode_hex(alloc: Global, text: &str) -> Result<Vec<u8>, HexError>
    ensures ok { IfOk result (λ bytes. IsHexText text.now bytes.items) }
    ensures odd { (result ≡ Err HexError.OddLength) ↔ (length text.now % 2 ≡ 1) }
    ensures not_hex { (place : ℕ) → result ≡ Err (HexError.NotHex place)
        → IsFirstNotHex text.now place }

    // Else each text is answered by what it is.
    ensures accepts { (bytes : List ℕ) → IsHexText text.now bytes
        → IsOk result ⊎ (result ≡ Err HexError.OutOfMemory) }
    ensures refuses { (place : ℕ) → IsFirstNotHex text.now place
        → (result ≡ Err (HexError.NotHex place)) ⊎ (result ≡ Err HexError.OutOfMemory) }
{
    let mut bytes = Vec::new(alloc);
    match decode_hex_into(text.as_bytes(), &mut bytes) {
        Ok(()) => Ok(bytes),
        Err(error) => Err(error),
    }
}

/// Reads a text as [`decode_hex`] does, into a buffer, in place of what that held. After an error the buffer is empty.
///
/// It takes memory only where the buffer has no room for the bytes, and the buffer keeps its room. So a caller that reads many texts into
/// one buffer takes none for a text that is no longer than one that was read before it.
pub fn decode_hex_into(text: &[u8], bytes: &mut Vec<u8>) -> Result<(), HexError>
    ensures ok { OnOk result (IsHexText text.now bytes.new.items) }
    ensures empty { OnErr result (bytes.new.items ≡ []) }
    ensures odd { (result ≡ Err HexError.OddLength) ↔ (length text.now % 2 ≡ 1) }
    ensures not_hex { (place : ℕ) → result ≡ Err (HexError.NotHex place)
        → IsFirstNotHex text.now place }

    // Else each text is answered by what it is.
    ensures accepts { (hex : List ℕ) → IsHexText text.now hex
        → IsOk result ⊎ (result ≡ Err HexError.OutOfMemory) }
    ensures refuses { (place : ℕ) → IsFirstNotHex text.now place
        → (result ≡ Err (HexError.NotHex place)) ⊎ (result ≡ Err HexError.OutOfMemory) }

    // Where the buffer has room, it takes no memory.
    ensures room { result ≡ Err HexError.OutOfMemory → 2 * vec_capacity bytes.old < length text.now }
    ensures kept { vec_capacity bytes.old ≤ vec_capacity bytes.new }
{
    match decode_over(text, bytes) {
        Ok(()) => Ok(()),
        Err(error) => {
            bytes.clear();
            Err(error)
        }
    }
}

// The same, where an error leaves anything in the buffer.
fn decode_over(text: &[u8], bytes: &mut Vec<u8>) -> Result<(), HexError>
    ensures ok { OnOk result (IsHexText text.now bytes.new.items) }
    ensures odd { (result ≡ Err HexError.OddLength) ↔ (length text.now % 2 ≡ 1) }
    ensures not_hex { (place : ℕ) → result ≡ Err (HexError.NotHex place)
        → IsFirstNotHex text.now place }
    ensures accepts { (hex : List ℕ) → IsHexText text.now hex
        → IsOk result ⊎ (result ≡ Err HexError.OutOfMemory) }
    ensures refuses { (place : ℕ) → IsFirstNotHex text.now place
        → (result ≡ Err (HexError.NotHex place)) ⊎ (result ≡ Err HexError.OutOfMemory) }
    ensures room { result ≡ Err HexError.OutOfMemory → 2 * vec_capacity bytes.old < length text.now }
    ensures kept { vec_capacity bytes.old ≤ vec_capacity bytes.new }
{
    if text.len() % 2 == 1 {
        return Err(HexError::OddLength);
    }
    if bytes.resize(text.len() / 2, 0).is_err() {
        return Err(HexError::OutOfMemory);
    }
    decode_even(text, bytes.as_mut_slice())
}

// Reads a text into a slice of half its length.
fn decode_even(text: &[u8], bytes: &mut [u8]) -> Result<(), HexError>
    requires { length text.now ≡ 2 * length bytes.old }
    ensures ok { OnOk result (IsHexText text.now bytes.new) }
    ensures not_hex { IfErr result (λ error. (place : ℕ) × (error ≡ HexError.NotHex place)
        × IsFirstNotHex text.now place) }
    ensures accepts { (hex : List ℕ) → IsHexText text.now hex → IsOk result }
    ensures refuses { (place : ℕ) → IsFirstNotHex text.now place → result ≡ Err (HexError.NotHex place) }
{
    match hex::decode_to_slice(text, bytes) {
        Ok(()) => Ok(()),
        Err(FromHexError::InvalidHexCharacter { c: _, index }) => {
            Err(HexError::NotHex { place: index })
        }
        Err(FromHexError::OddLength) => unreachable!(),
        Err(FromHexError::InvalidStringLength) => unreachable!(),
        Err(FromHexError::OutOfMemory) => unreachable!(),
    }
}
