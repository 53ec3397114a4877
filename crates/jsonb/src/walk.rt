//! The items of a container, one after the other.

ghost use Rattle.std.specs.Prelude.{◌≡◌, ◌+◌, ◌*◌, ◌<◌, ◌≤◌, ◌^◌, length, IfSome, option_map};
ghost use Rattle.jsonb_layout.specs.inner.Reading.{item_at, item_with};
ghost use Rattle.jsonb.specs.inner.Keys.{word_at};
ghost use Rattle.jsonb.specs.inner.Values.{skip};
ghost use Rattle.jsonb.specs.inner.Pieces.{piece_with};
ghost use Rattle.jsonb.specs.inner.Views.{place, piece_then_place, item_then_place};

use crate::item::Item;
use crate::place::Place;
use crate::steps::Steps;
use std::sync::ledger::Ledger;

const HAS_OFFSET: u32 = 0x8000_0000;

/// The entry word with this number, from 0, of those that are left.
pub fn entry_word(words: &[u8], number: usize) -> u32
    requires { 4 * number + 4 ≤ length words.now }
    ensures { result ≡ word_at number words.now }
{
    let (_, from) = words.split_at(4 * number);
    let (word, _) = from.split_at(4);
    u32::from_le_bytes([word[0], word[1], word[2], word[3]])
}

/// The entry word with this number of those that are left, and a step for it. A look-up by key reads entry words by this
/// call alone.
pub fn entry_word_counted<L: Ledger>(words: &[u8], number: usize, steps: &mut Steps<L>) -> u32
    requires { 4 * number + 4 ≤ length words.now }
    ensures word { result ≡ word_at number words.now }
    ensures steps { steps.new ≡ steps.old + 1 }
{
    steps.tick();
    entry_word(words, number)
}

/// The piece at a place, by an entry word whose bits of a kind count as length, and the place behind it. Each 32nd word gives the sum of
/// all lengths so far in place of a length. None where the word has the other form, or the piece does not fit.
#[tactic(auto, unfolding(crate::specs::inner::Pieces::length_in))]
#[inline(always)]
pub fn piece_at(word: u32, start: Place<'_>) -> Option<(&[u8], Place<'_>)>
    requires { 4 ≤ length start.words.now }
    ensures read { option_map piece_then_place result ≡ piece_with word (place start.entry) }
    ensures short { IfSome result (λ r. length r.0.now < 2 ^ 28) }
{
    let mut size = word as usize;
    if start.index % 32 == 0 {
        let before = HAS_OFFSET as usize + start.at;
        if size < before {
            return None;
        }
        size -= before;
    }
    if start.rest.len() < size {
        return None;
    }
    let (piece, rest) = start.rest.split_at(size);
    let (_, words) = start.words.split_at(4);
    let behind = Place {
        index: start.index + 1,
        at: start.at + size,
        words,
        rest,
    };
    Some((piece, behind))
}

/// The item at a place, which has this entry word, and the place behind it.
#[inline(always)]
fn item_of(word: u32, start: Place<'_>) -> Option<(Item<'_>, Place<'_>)>
    requires { 4 ≤ length start.words.now }
    ensures { option_map item_then_place result ≡ item_with word (place start.entry) }
{
    let without_kind = word % 0x1000_0000 + word / HAS_OFFSET * HAS_OFFSET;
    let (piece, behind) = piece_at(without_kind, start)?;
    let item = Item::new((word / 0x1000_0000 % 8) as u8, piece);
    Some((item, behind))
}

/// The item at a place before an entry word, and the place behind it.
#[tactic(auto, unfolding(jsonb_layout::specs::inner::Reading::item_at))]
#[inline(always)]
pub fn first_item(start: Place<'_>) -> Option<(Item<'_>, Place<'_>)>
    requires { 4 ≤ length start.words.now }
    ensures { option_map item_then_place result ≡ item_at (place start.entry) }
{
    item_of(entry_word(start.words, 0), start)
}

/// The item at a place, and the place behind it.
#[tactic(auto, unfolding(jsonb_layout::specs::inner::Reading::item_at))]
#[inline(always)]
pub fn next_item(start: Place<'_>) -> Option<(Item<'_>, Place<'_>)>
    ensures { option_map item_then_place result ≡ item_at (place start.entry) }
{
    if start.words.len() < 4 {
        return None;
    }
    first_item(start)
}

/// The item at a place, and a step for its entry word.
#[tactic(auto, unfolding(jsonb_layout::specs::inner::Reading::item_at))]
pub fn next_item_counted<'a, L: Ledger>(
    start: Place<'a>,
    steps: &mut Steps<L>,
) -> Option<(Item<'a>, Place<'a>)>
    ensures read { option_map item_then_place result ≡ item_at (place start.entry) }
    ensures rise { steps.old ≤ steps.new }
    ensures few { steps.new ≤ steps.old + 1 }
    ensures steps { IfSome result (λ _. steps.new ≡ steps.old + 1) }
{
    if start.words.len() < 4 {
        return None;
    }
    let word = entry_word_counted(start.words, 0, steps);
    item_of(word, start)
}

/// Where so many items end.
pub fn pass(count: usize, start: Place<'_>) -> Option<Place<'_>>
    ensures { option_map place result ≡ skip count (place start.entry) }
{
    let mut current = start;
    for _ in 0..count {
        let (_, behind) = next_item(current)?;
        current = behind;
    }
    Some(current)
}
