//! The words of a container, written before its pieces are known.

ghost use Rattle.std.specs.Prelude.{◌≡◌, ◌+◌, ◌-◌, ◌*◌, ◌^◌, ◌<◌, ◌≤◌, ◌++◌, ◌∷◌, [], ℕ, List, length, IfOk, IfErr, MatchResult};
ghost use Rattle.jsonb_layout.specs.Layout.{Item, pieces, flags};
ghost use Rattle.jsonb_layout.specs.declared.form.Form.{Form};
ghost use Rattle.jsonb_encode.specs.inner.Writing.{kind_number, opened, item_of, entry_word, IsOpen};

use crate::buffer::{push_empty_words, push_word, set_word};
use crate::error::EncodeError;
use crate::kind::Kind;
use jsonb_layout::Form;

/// A count, and the bytes of a payload, are below this.
pub const LIMIT: usize = 0x1000_0000;

/// The flag of a header that marks an array of one item as a root scalar.
pub const JB_FSCALAR: u32 = 0x1000_0000;

/// The flag of an array's header.
pub const JB_FARRAY: u32 = 0x4000_0000;

/// The flag of an object's header.
const JB_FOBJECT: u32 = 0x2000_0000;

/// The bit of an entry word that says that the word holds the sum of all lengths so far.
pub const JENTRY_HAS_OFF: u32 = 0x8000_0000;

/// The flags of a header, which say what the container is.
fn flags(form: Form) -> u32
    ensures { result ≡ flags form * 2 ^ 28 }
{
    match form {
        Form::Array => JB_FARRAY,
        Form::Object => JB_FOBJECT,
        Form::Lone => JB_FARRAY + JB_FSCALAR,
    }
}

/// Writes the header of a container, and empty words for so many items.
pub fn open_container(
    bytes: &mut Vec<u8>,
    form: Form,
    count: usize,
    items: usize,
) -> Result<(), EncodeError>
    requires { count < 2 ^ 28 }
    ensures ok { IfOk result (λ _. IsOpen form count items [] bytes.old.items bytes.new.items) }
    ensures err { IfErr result (λ e. e ≡ EncodeError.OutOfMemory) }
{
    push_word(bytes, flags(form) + count as u32)?;
    push_empty_words(bytes, items)
}

/// The word of an entry: each 32nd holds the sum of all lengths so far, and the others their own.
fn entry_word(index: usize, kind: Kind, upto: usize, length: usize) -> u32
    requires upto { upto < 2 ^ 28 }
    requires length { length < 2 ^ 28 }
    ensures { result ≡ entry_word index (kind_number kind) upto length }
{
    if index.is_multiple_of(32) {
        JENTRY_HAS_OFF + kind.number() * 0x1000_0000 + upto as u32
    } else {
        kind.number() * 0x1000_0000 + length as u32
    }
}

/// Sets the word of an item whose piece is what was written from `begin` on, in a container of so many items that begins at
/// `start`.
pub fn close_item(
    bytes: &mut Vec<u8>,
    start: usize,
    items: usize,
    index: usize,
    begin: usize,
    kind: Kind,
) -> Result<(), EncodeError>
    requires index { index < items }
    requires begin { start + 4 * items + 4 ≤ begin }
    requires end { begin ≤ length bytes.old.items }
    ensures { (base mid piece : List ℕ) (f : Form) (count : ℕ) (xs : List Item) → length base ≡ start
        → length xs ≡ index → IsOpen f count items xs base mid → length mid ≡ begin
        → bytes.old.items ≡ mid ++ piece
        → MatchResult result
        (λ _. IsOpen f count items (xs ++ item_of (kind_number kind) piece ∷ []) base bytes.new.items)
        (λ e. (e ≡ EncodeError.TooLarge) × (2 ^ 28 ≤ length (pieces xs) + length piece)) }
{
    let upto = bytes.len() - start - 4 * items - 4;
    if upto >= LIMIT {
        return Err(EncodeError::TooLarge);
    }
    let word = entry_word(index, kind, upto, bytes.len() - begin);
    set_word(bytes.as_mut_slice(), start + 4 * index + 4, word);
    Ok(())
}
