//! The header of a stored value.

ghost use Rattle.std.specs.Prelude.{◌≡◌, Ok, Err, MatchResult};
ghost use Rattle.jsonb_encode.specs.Varlena.{IsStripped};
ghost use Rattle.jsonb_encode.specs.inner.Varlena.{behind_header, stripped};

use thiserror::Error;

/// Why the header of a stored value was not taken off.
#[derive(Clone, Copy, Debug, PartialEq, Eq, Error)]
pub enum VarlenaError {
    /// The value is kept elsewhere: the first byte is 1.
    #[error("External")]
    External,
    /// The value is compressed: the two low bits of the first byte are 10.
    #[error("Compressed")]
    Compressed,
    /// The header is not whole, or the size is less than the header's length or more than that of the slice, as in the empty
    /// slice.
    #[error("Short")]
    Short,
}

/// What is behind a header of so many bytes, up to the size.
fn behind_header(bytes: &[u8], header: usize, size: usize) -> Result<&[u8], VarlenaError>
    ensures { MatchResult result (λ rest. behind_header header size bytes.now ≡ Ok rest.now)
        (λ e. behind_header header size bytes.now ≡ Err e) }
{
    if bytes.len() < header || size < header || bytes.len() < size {
        return Err(VarlenaError::Short);
    }
    Ok(&bytes[header..size])
}

/// Looks at the first byte, and takes the header off.
#[tactic(auto, unfolding(crate::specs::inner::Varlena::stripped))]
fn read_stored(bytes: &[u8]) -> Result<&[u8], VarlenaError>
    ensures { MatchResult result (λ rest. stripped bytes.now ≡ Ok rest.now) (λ e. stripped bytes.now ≡ Err e) }
{
    let Some(first) = bytes.first() else {
        return Err(VarlenaError::Short);
    };
    if *first == 1 {
        return Err(VarlenaError::External);
    }
    if *first % 2 == 1 {
        return behind_header(bytes, 1, (*first / 2) as usize);
    }
    if *first % 4 == 2 {
        return Err(VarlenaError::Compressed);
    }
    if bytes.len() < 4 {
        return Err(VarlenaError::Short);
    }
    let word = u32::from_le_bytes([bytes[0], bytes[1], bytes[2], bytes[3]]);
    behind_header(bytes, 4, (word / 4) as usize)
}

/// The bytes of a stored value behind its header, which has one byte or four. PostgreSQL keeps short values under a header of one
/// byte. What follows the size is left out. It takes no memory.
///
/// `External` comes exactly where the first byte is 1. `Compressed` comes exactly where the two lowest bits of the first byte are
/// 10. `Short` comes exactly where the slice is empty, or where, else, the size is less than the header's length, or the slice is
/// shorter than the size or the header.
pub fn strip_varlena(bytes: &[u8]) -> Result<&[u8], VarlenaError>
    ensures { MatchResult result (λ value. IsStripped bytes.now (Ok value.now)) (λ e. IsStripped bytes.now (Err e)) }
{
    read_stored(bytes)
}
