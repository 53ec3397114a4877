//! Whether the bytes of a value are canonical: whether each number in it has the form `Short`.
//!
//! The layout leaves no other choice. What is left of a container is put off while one inside it is looked at, so memory is taken
//! for the nesting, and no stack.

ghost use Rattle.std.specs.Prelude.{◌≡◌, ◌+◌, ◌<◌, ◌≤◌, ◌^◌, ◌∷◌, ◌++◌, [], length, IfOk, OnOk, IsTrue, ◌↔◌, Some};
ghost use Rattle.jsonb_encode.specs.Canonical.{SeatIsCanonical, HasCanonicalBytes, AllHaveCanonicalBytes};
ghost use Rattle.jsonb_layout.specs.inner.Reading.{Place};
ghost use Rattle.jsonb_layout.specs.inner.SeatReading.{seats_at};
ghost use Rattle.jsonb_layout.specs.inner.Trees.{read};
ghost use Rattle.jsonb.specs.Nodes.{node_tree};
ghost use Rattle.jsonb.specs.Seated.{node_seat, seats_left};
ghost use Rattle.jsonb.specs.inner.Canonical.{seats_weight, Looked, Advanced};
ghost use Rattle.jsonb.specs.inner.Values.{IsJsonTree, object_at, skip};
ghost use Rattle.jsonb.specs.inner.Views.{place};

use crate::cursor::Cursor;
use crate::items::Items;
use crate::kind::Kind;
use crate::node::JsonbNode;
use crate::number::JsonbNumber;
use crate::walk::pass;
use json_exact::{OutOfMemory, Value};
use json_traits::JsonNumber;
use jsonb_encode::laws::numbers_are_narrow_and_in_range;
use jsonb_encode::{EncodeError, encode};
use jsonb_layout::Form;
use std::alloc::Global;

/// Where the bytes of a root scalar begin: behind the header word and the entry word.
const NUMBER_BEGIN: usize = 8;

/// Want of memory, where no other error comes.
fn want_of_memory(error: EncodeError) -> OutOfMemory
    requires { error ≡ EncodeError.OutOfMemory }
{
    let _memory = error;
    OutOfMemory
}

/// Whether a number stands in the form `Short`: whether its bytes are those that are written of it.
fn stands_short(alloc: Global, number: JsonbNumber<'_>) -> Result<bool, OutOfMemory>
    ensures { IfOk result (λ yes. IsTrue yes ↔ HasCanonicalBytes (record { at = 0; kind = 1; bytes = number.entry.bytes.now })) }
{
    let exact = number.to_number();
    numbers_are_narrow_and_in_range(&exact);
    match encode(alloc, &Value::Number(exact)) {
        Ok(written) => Ok(&written[NUMBER_BEGIN..] == number.bytes),
        Err(error) => Err(want_of_memory(error)),
    }
}

/// The values of an object, behind its keys.
fn values_behind(keys: Items<'_>) -> Cursor<'_>
    requires { IsJsonTree (object_at keys.count (place keys.start)) }
    ensures { (q : Place) → Some q ≡ skip keys.entry.count (place keys.entry.start)
        → seats_left result ≡ seats_at keys.entry.payload keys.entry.count q }
{
    let Some(start) = pass(keys.count, keys.start) else {
        unreachable!()
    };
    Cursor {
        left: Items {
            count: keys.count,
            payload: keys.payload,
            start,
        },
    }
}

/// The values in a container: the elements of an array, or the members' values of an object.
fn values_in(begin: usize, bytes: &[u8]) -> Cursor<'_>
    requires json { IsJsonTree (read bytes.now) }
    requires room { begin + length bytes.now < 2 ^ 64 }
    ensures canonical { HasCanonicalBytes (record { at = begin; kind = 5; bytes = bytes.now })
        ↔ AllHaveCanonicalBytes (seats_left result) }
    ensures weight { seats_weight (seats_left result) + 1 ≤ length bytes.now }
{
    let Some((form, items)) = Items::of(begin, bytes) else {
        unreachable!()
    };
    match form {
        Form::Array => return Cursor { left: items },
        Form::Object => return values_behind(items),
        Form::Lone => unreachable!(),
    }
}

/// Puts off some values.
fn put_off<'a>(pending: &mut Vec<Cursor<'a>>, values: Cursor<'a>) -> Result<(), OutOfMemory>
    ensures { OnOk result (pending.new.items ≡ pending.old.items ++ values.entry ∷ []) }
{
    match pending.push(values) {
        Ok(()) => Ok(()),
        Err(_) => Err(OutOfMemory),
    }
}

/// Looks at a value, and puts off the values in it. False says that it is not canonical.
fn look<'a>(
    alloc: Global,
    node: JsonbNode<'a>,
    pending: &mut Vec<Cursor<'a>>,
) -> Result<bool, OutOfMemory>
    ensures { IfOk result (Looked (node_seat node.entry) pending.old.items pending.new.items) }
{
    let empty = node.bytes.is_empty();
    match node.kind {
        Kind::String => Ok(true),
        Kind::Number => stands_short(alloc, JsonbNumber { bytes: node.bytes }),
        Kind::False => Ok(empty),
        Kind::True => Ok(empty),
        Kind::Null => Ok(empty),
        Kind::Container => {
            put_off(pending, values_in(node.offset, node.bytes))?;
            Ok(true)
        }
    }
}

/// Looks at the next of some values, and puts off the others.
fn advance<'a>(
    alloc: Global,
    values: Cursor<'a>,
    pending: &mut Vec<Cursor<'a>>,
) -> Result<bool, OutOfMemory>
    ensures { IfOk result (Advanced values.entry pending.old.items pending.new.items) }
{
    let mut others = values;
    let Some(value) = others.next() else {
        return Ok(true);
    };
    put_off(pending, others)?;
    look(alloc, value, pending)
}

/// Whether the bytes of a value are canonical: whether each number in it has the bytes that the form `Short` writes. Of the root it
/// says that the slice is the canonical bytes of its tree. A database in UTF8 stores these bytes, where it takes the value:
/// PostgreSQL refuses a string or a key with the character NUL.
///
/// For example the number 1 is canonical where it has a size word and the short header. It is not where it has the long header or
/// a size byte. `0.00` and `0` have different canonical bytes.
///
/// By review, it takes memory for the nesting, and for one number at a time, and no stack.
pub fn is_canonical(alloc: Global, node: &JsonbNode<'_>) -> Result<bool, OutOfMemory>
    ensures { IfOk result (λ yes. IsTrue yes ↔ SeatIsCanonical (node_seat node.now) (node_tree node.now)) }
{
    let mut pending = Vec::new(alloc);
    if !look(alloc, *node, &mut pending)? {
        return Ok(false);
    }
    while let Some(values) = pending.pop() {
        if !advance(alloc, values, &mut pending)? {
            return Ok(false);
        }
    }
    Ok(true)
}
