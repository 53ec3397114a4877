//! The items that have no items in them.

ghost use Rattle.std.specs.Prelude.{◌≡◌, ◌==◌, ◌<◌, ◌^◌, length, take, option_map, IfSome, IsTrue, ◌≤◌, true};
ghost use Rattle.std.specs.List.{list_all};
ghost use Rattle.std.specs.Str.{is_utf8};
ghost use Rattle.jsonb_layout.specs.inner.Reading.{unpadded, scalar_of};
ghost use Rattle.jsonb.specs.Found.{scalar_found};
ghost use Rattle.jsonb.specs.inner.Widths.{width_found, number_found, IsPlain};

use crate::ascii::{ascii_room, is_ascii};
use crate::found::Found;
use crate::item::Item;
use crate::kind::Kind;
use crate::numeric::narrow_number;
use crate::small::is_small_number;

/// The text that the bytes are, which were read before.
#[tactic(auto, using(crate::proofs::Texts::text_proved))]
pub fn text_of(bytes: &[u8]) -> &str
    requires { is_utf8 bytes.now ≡ true }
    ensures { result.now ≡ bytes.now }
{
    // SAFETY: the bytes are UTF-8, which is required, and proved at each call.
    unsafe { str::from_utf8_unchecked(bytes) }
}

/// Whether the bytes are UTF-8, by their characters.
#[tactic(auto, using(crate::proofs::Texts::text_true, crate::proofs::Texts::text_false))]
pub fn is_text(bytes: &[u8]) -> bool
    ensures { result ≡ is_utf8 bytes.now }
{
    match str::from_utf8(bytes) {
        Ok(_) => true,
        Err(_) => false,
    }
}

fn all_zero(bytes: &[u8]) -> bool
    ensures { result ≡ list_all (λ b. b == 0) bytes.now }
{
    bytes.iter().all(|byte| *byte == 0)
}

/// The bytes behind the zero bytes that bring a place to a multiple of four.
#[tactic(auto, unfolding(jsonb_layout::specs::inner::Reading::unpadded))]
pub fn unpad(at: usize, piece: &[u8]) -> Option<&[u8]>
    ensures read { option_map (λ x. x.now) result ≡ unpadded at piece.now }
    ensures len { IfSome result (λ x. length x.now ≤ length piece.now) }
{
    let pad = (4 - at % 4) % 4;
    if piece.len() < pad {
        return None;
    }
    let (front, rest) = piece.split_at(pad);
    if all_zero(front) { Some(rest) } else { None }
}

/// What a piece is as a number.
#[derive(Clone, Copy)]
pub enum Width {
    NoNumber,
    Narrow,
    Wide,
}

/// What a piece at a place is as a number.
fn number_width(at: usize, piece: &[u8]) -> Width
    requires { length piece.now < 2 ^ 28 }
    ensures { width_found result ≡ number_found at piece.now }
{
    let Some(bytes) = unpad(at, piece) else {
        return Width::NoNumber;
    };
    match narrow_number(bytes) {
        Some(true) => Width::Narrow,
        Some(false) => Width::Wide,
        None => Width::NoNumber,
    }
}

/// What is found in a scalar's item at a place. None where the item stands for no scalar.
pub fn scalar_faults(at: usize, item: &Item<'_>) -> Option<Found>
    ensures { result ≡ option_map scalar_found (scalar_of at item.now) }
{
    // Its piece is short, as that of each item.
    faults_of(at, item.number(), item.piece())
}

/// Whether nothing is found in a scalar, where that is told at once: of a text, of null and the truth values, and of a small number.
/// Its piece lies in front of what is left of the payload.
#[inline(always)]
pub fn is_plain(at: usize, number: u8, piece: &[u8], rest: &[u8]) -> bool
    requires { piece.now ≡ take (length piece.now) rest.now }
    ensures { IsTrue result → IsPlain at (record { kind = number; piece = piece.now }) }
{
    if number == 1 {
        return is_small_number(at, piece);
    }
    if number > 4 {
        return false;
    }
    let room = ascii_room(piece, rest);
    let fitting = if number == 0 { room } else { 0 };
    if piece.len() <= fitting {
        return true;
    }
    if number != 0 {
        return false;
    }
    if room >= 32 && is_ascii(piece) {
        return true;
    }
    is_text(piece)
}

/// What is found in a scalar of a kind with this number, by its piece at a place. None where they stand for no scalar.
#[tactic(auto, unfolding(jsonb_layout::specs::inner::Reading::scalar_of))]
#[inline(never)]
fn faults_of(at: usize, number: u8, piece: &[u8]) -> Option<Found>
    requires { length piece.now < 2 ^ 28 }
    ensures { result ≡ option_map scalar_found (scalar_of at (record { kind = number; piece = piece.now })) }
{
    match Kind::from_number(number)? {
        Kind::String => Some(Found {
            not_text: !is_text(piece),
            wide: false,
        }),
        Kind::Number => match number_width(at, piece) {
            Width::NoNumber => None,
            Width::Narrow => Some(Found::NOTHING),
            Width::Wide => Some(Found {
                not_text: false,
                wide: true,
            }),
        },
        Kind::False | Kind::True | Kind::Null => {
            if piece.is_empty() {
                Some(Found::NOTHING)
            } else {
                None
            }
        }
        Kind::Container => None,
    }
}
