//! The keys of an object.

ghost use Rattle.std.specs.Prelude.{◌≡◌, ◌==◌, ◌&&◌, ◌≤◌, ◌-◌, length, drop, None, Some, option_map};
ghost use Rattle.json_model.specs.Keys.{bytes_before, key_before};
ghost use Rattle.jsonb_layout.specs.Options.{only_if};
ghost use Rattle.jsonb_layout.specs.inner.Reading.{follows, keys_at};
ghost use Rattle.jsonb.specs.Found.{nothing, keys_after};
ghost use Rattle.jsonb.specs.inner.Frames.{AreKeysFound};
ghost use Rattle.jsonb.specs.inner.Keys.{key_at, keys_end, first_eight};
ghost use Rattle.jsonb.specs.inner.Views.{place, piece_then_place, found_then_place};

use crate::ascii::is_ascii;
use crate::found::Found;
use crate::item::Item;
use crate::place::Place;
use crate::scalar::is_text;
use crate::walk::{entry_word, next_item, piece_at};

/// Whether bytes come before others, byte by byte.
fn last_bytes_come_before(a: &[u8], b: &[u8]) -> bool
    ensures { result ≡ bytes_before a.now b.now }
{
    a < b
}

/// The first eight bytes as one number, of which the first counts most.
#[inline(always)]
fn first_eight(bytes: &[u8]) -> u64
    requires { 8 ≤ length bytes.now }
    ensures { result ≡ first_eight bytes.now }
{
    u64::from_be_bytes([
        bytes[0], bytes[1], bytes[2], bytes[3], bytes[4], bytes[5], bytes[6], bytes[7],
    ])
}

/// The last eight bytes as one number, of which the first counts most.
#[inline(always)]
fn last_eight(bytes: &[u8]) -> u64
    requires { 8 ≤ length bytes.now }
    ensures { result ≡ first_eight (drop (length bytes.now - 8) bytes.now) }
{
    let (_, last) = bytes.split_at(bytes.len() - 8);
    first_eight(last)
}

/// Whether bytes come before others, eight at a time.
#[inline(never)]
fn long_bytes_come_before(a: &[u8], b: &[u8]) -> bool
    ensures { result ≡ bytes_before a.now b.now }
{
    let (mut x, mut y) = (a, b);
    while x.len().min(y.len()) >= 8 {
        let v = first_eight(x);
        let w = first_eight(y);
        if v != w {
            return v < w;
        }
        x = &x[8..];
        y = &y[8..];
    }
    last_bytes_come_before(x, y)
}

/// Whether bytes come before others. Of two of one length, from 8 to 16, the first eight and the last eight tell, which overlap.
#[inline(always)]
fn bytes_come_before(a: &[u8], b: &[u8]) -> bool
    ensures { result ≡ bytes_before a.now b.now }
{
    if a.len().min(b.len()) >= 8 {
        let v = first_eight(a);
        let w = first_eight(b);
        if v != w {
            return v < w;
        }
        if a.len() == b.len() && a.len() <= 16 {
            return last_eight(a) < last_eight(b);
        }
    }
    long_bytes_come_before(a, b)
}

/// Whether a key comes before another: a shorter one does, and of two of one length the one with the lower bytes.
#[inline(always)]
pub fn comes_before(a: &[u8], b: &[u8]) -> bool
    ensures { result ≡ key_before a.now b.now }
{
    a.len() < b.len() || (a.len() == b.len() && bytes_come_before(a, b))
}

/// Whether a key comes after the one before it, if there is one.
fn rises(before: Option<&[u8]>, key: &[u8]) -> bool
    ensures { result ≡ follows (option_map (λ x. x.now) before.entry) key.now }
{
    match before {
        None => true,
        Some(before) => comes_before(before, key),
    }
}

/// Whether an item is a key that comes after the one before it, if there is one.
fn is_key(before: Option<&[u8]>, item: &Item<'_>) -> bool
    ensures { result ≡ (item.now.kind == 0
        && follows (option_map (λ x. x.now) before.entry) item.now.piece) }
{
    item.is_string() && rises(before, item.piece())
}

/// The key at a place, and the place behind it. None where the item is no string: the bits of its kind make a length that is too long.
#[inline(always)]
fn next_key(start: Place<'_>) -> Option<(&[u8], Place<'_>)>
    requires { 4 ≤ length start.words.now }
    ensures { option_map piece_then_place result ≡ key_at (place start.entry) }
{
    piece_at(entry_word(start.words, 0), start)
}

/// Passes so many keys that come after one. False where they can not be read: one is missing, is no key or does not rise.
#[inline(never)]
fn pass_later_keys<'a>(count: usize, first: &[u8], here: &mut Place<'a>) -> bool
    ensures { keys_end (keys_at count (Some first.now) (place here.old)) ≡ only_if result (Some (place here.new)) }
{
    if here.words.len() / 4 < count {
        return false;
    }
    let mut current = *here;
    let mut before = first;
    for _ in 0..count {
        let Some((key, behind)) = next_key(current) else {
            return false;
        };
        if !comes_before(before, key) {
            return false;
        }
        before = key;
        current = behind;
    }
    *here = current;
    true
}

/// Passes so many keys. False where they can not be read.
#[tactic(auto, unfolding(jsonb_layout::specs::inner::Reading::keys_at))]
fn pass_keys(count: usize, here: &mut Place<'_>) -> bool
    ensures { keys_end (keys_at count None (place here.old)) ≡ only_if result (Some (place here.new)) }
{
    if count == 0 {
        return true;
    }
    let Some((first, behind)) = next_item(*here) else {
        return false;
    };
    if !first.is_string() {
        return false;
    }
    *here = behind;
    pass_later_keys(count - 1, first.piece(), here)
}

/// Passes so many keys, and adds what is found in them. False where they can not be read.
///
/// By review, one look tells whether all are ASCII, since keys lie side by side.
pub fn key_faults(count: usize, here: &mut Place<'_>, found: &mut Found) -> bool
    ensures { AreKeysFound (keys_at count None (place here.old)) found.old found.new (place here.new) result }
{
    let start = *here;
    if !pass_keys(count, here) {
        return false;
    }
    let length = start.rest.len().saturating_sub(here.rest.len());
    let (keys, _) = start.rest.split_at(length);
    if is_ascii(keys) {
        return true;
    }
    let Some((more, end)) = faults_by_key(count, start) else {
        return false;
    };
    *found = found.with(more);
    *here = end;
    true
}

/// What is found in so many keys, key by key, and where they end.
#[inline(never)]
fn faults_by_key(count: usize, start: Place<'_>) -> Option<(Found, Place<'_>)>
    ensures { option_map found_then_place result
        ≡ keys_after nothing (keys_at count None (place start.entry)) }
{
    let mut current = start;
    let mut found = Found::NOTHING;
    let mut before: Option<&[u8]> = None;
    for _ in 0..count {
        let (item, behind) = next_item(current)?;
        if !is_key(before, &item) {
            return None;
        }
        let piece = item.piece();
        let text = is_text(piece);
        found = found.with(Found {
            not_text: !text,
            wide: false,
        });
        before = Some(piece);
        current = behind;
    }
    Some((found, current))
}
