//! Words and bytes at the end of a buffer, and a word in it.

ghost use Rattle.std.specs.Prelude.{◌≡◌, ◌+◌, ◌*◌, ◌≤◌, ◌++◌, ◌∷◌, [], length, take, drop, replicate, IfOk, IfErr};
ghost use Rattle.std.specs.Int.{w16, w32, to_le_bytes};
ghost use Rattle.jsonb_layout.specs.Layout.{pad};
ghost use Rattle.jsonb_layout.specs.Stands.{padding};

use crate::error::EncodeError;

/// Writes bytes.
pub fn push_all(bytes: &mut Vec<u8>, more: &[u8]) -> Result<(), EncodeError>
    ensures ok { IfOk result (λ _. bytes.new.items ≡ bytes.old.items ++ more.now) }
    ensures err { IfErr result (λ e. e ≡ EncodeError.OutOfMemory) }
{
    match bytes.extend_from_slice(more) {
        Ok(()) => Ok(()),
        Err(_) => Err(EncodeError::OutOfMemory),
    }
}

/// Writes a word of four bytes, the low byte first.
pub fn push_word(bytes: &mut Vec<u8>, word: u32) -> Result<(), EncodeError>
    ensures ok { IfOk result (λ _. bytes.new.items ≡ bytes.old.items ++ to_le_bytes w32 word) }
    ensures err { IfErr result (λ e. e ≡ EncodeError.OutOfMemory) }
{
    push_all(bytes, &word.to_le_bytes())
}

/// Writes a word of two bytes, the low byte first.
pub fn push_half(bytes: &mut Vec<u8>, half: u16) -> Result<(), EncodeError>
    ensures ok { IfOk result (λ _. bytes.new.items ≡ bytes.old.items ++ to_le_bytes w16 half) }
    ensures err { IfErr result (λ e. e ≡ EncodeError.OutOfMemory) }
{
    push_all(bytes, &half.to_le_bytes())
}

/// Writes words of zeros.
pub fn push_empty_words(bytes: &mut Vec<u8>, count: usize) -> Result<(), EncodeError>
    ensures ok { IfOk result (λ _. bytes.new.items ≡ bytes.old.items ++ replicate (4 * count) 0) }
    ensures err { IfErr result (λ e. e ≡ EncodeError.OutOfMemory) }
{
    for _ in 0..count {
        push_word(bytes, 0)?;
    }
    Ok(())
}

/// Writes the zeros that bring a place of a payload to a multiple of four.
pub fn push_padding(bytes: &mut Vec<u8>, at: usize) -> Result<(), EncodeError>
    ensures ok { IfOk result (λ _. bytes.new.items ≡ bytes.old.items ++ padding at) }
    ensures err { IfErr result (λ e. e ≡ EncodeError.OutOfMemory) }
{
    match at % 4 {
        1 => push_all(bytes, &[0, 0, 0]),
        2 => push_all(bytes, &[0, 0]),
        3 => push_all(bytes, &[0]),
        _ => Ok(()),
    }
}

/// Sets the word at a place.
pub fn set_word(bytes: &mut [u8], place: usize, word: u32)
    requires { place + 4 ≤ length bytes.old }
    ensures { bytes.new ≡ take place bytes.old ++ (to_le_bytes w32 word ++ drop (place + 4) bytes.old) }
{
    let (_, rest) = bytes.split_at_mut(place);
    let (front, _) = rest.split_at_mut(4);
    front.copy_from_slice(&word.to_le_bytes());
}
