//! The header of a container, and the one item of a root scalar.

ghost use Rattle.std.specs.Prelude.{◌≡◌, ◌<◌, ◌≤◌, ◌^◌, length, option_map, IfSome};
ghost use Rattle.jsonb_layout.specs.inner.Reading.{form_of, form_at, items_in, opened, lone_item};
ghost use Rattle.jsonb.specs.inner.Values.{says_object};
ghost use Rattle.jsonb.specs.inner.Views.{open_view};

use crate::item::Item;
use crate::place::Place;
use crate::walk::next_item;
use jsonb_layout::Form;

/// A container whose header was read: `count` elements or members, the first item at `start`.
#[derive(Clone, Copy)]
pub struct Opened<'a> {
    pub form: Form,
    pub count: usize,
    pub start: Place<'a>,
}

/// The form and the count of a header word. None where it has other flags.
#[tactic(auto, unfolding(jsonb_layout::specs::inner::Reading::form_of))]
fn form_of_word(word: u32) -> Option<(Form, usize)>
    ensures form { result ≡ form_of word }
    ensures few { IfSome result (λ r. r.1 < 2 ^ 28) }
{
    let count = (word % 0x1000_0000) as usize;
    match word / 0x1000_0000 {
        4 => Some((Form::Array, count)),
        2 => Some((Form::Object, count)),
        5 => {
            if count == 1 {
                Some((Form::Lone, count))
            } else {
                None
            }
        }
        _ => None,
    }
}

/// The form and the count of a container, by its header word alone.
#[tactic(auto, unfolding(jsonb_layout::specs::inner::Reading::form_at))]
fn header_of(bytes: &[u8]) -> Option<(Form, usize)>
    ensures form { result ≡ form_at bytes.now }
    ensures few { IfSome result (λ r. r.1 < 2 ^ 28) }
    ensures long { IfSome result (λ _. 4 ≤ length bytes.now) }
{
    let front = bytes.first_chunk::<4>()?;
    form_of_word(u32::from_le_bytes(*front))
}

/// Whether a container is an object, by its header word alone.
pub fn is_object(bytes: &[u8]) -> bool
    ensures { result ≡ says_object (form_at bytes.now) }
{
    match header_of(bytes) {
        Some((Form::Object, _)) => true,
        _ => false,
    }
}

/// How many items a count stands for.
fn item_count(form: Form, count: usize) -> usize
    requires { count < 2 ^ 28 }
    ensures is { result ≡ items_in form count }
    ensures few { result < 2 ^ 29 }
{
    match form {
        Form::Object => 2 * count,
        Form::Array | Form::Lone => count,
    }
}

/// Reads a container's header word. None where there is none, or where the entry words or the payload do not fit.
#[tactic(auto, unfolding(jsonb_layout::specs::inner::Reading::opened))]
pub fn open(bytes: &[u8]) -> Option<Opened<'_>>
    ensures { option_map open_view result ≡ opened bytes.now }
{
    let (form, count) = header_of(bytes)?;
    let body = &bytes[4..];
    let size = 4 * item_count(form, count);
    if body.len() < size || body.len() - size >= 0x1000_0000 {
        return None;
    }
    let (words, rest) = body.split_at(size);
    let start = Place {
        index: 0,
        at: 0,
        words,
        rest,
    };
    Some(Opened { form, count, start })
}

/// The one item of a root scalar.
#[tactic(auto, unfolding(jsonb_layout::specs::inner::Reading::lone_item))]
pub fn lone(bytes: &[u8]) -> Option<Item<'_>>
    ensures { result ≡ lone_item bytes.now }
{
    let opened = open(bytes)?;
    match opened.form {
        Form::Lone => {
            let (item, end) = next_item(opened.start)?;
            if end.rest.is_empty() {
                Some(item)
            } else {
                None
            }
        }
        Form::Array | Form::Object => None,
    }
}
