//! What keeps a container from being JSON, with all the containers in it.
//!
//! The containers are read depth first. What is left of a container is put off while one inside it is read, and only where
//! something is left: so, by review, memory is taken for the nesting alone, and only where more than four containers are put off. The
//! work is at most proportional to the number of bytes.
//!
//! The frame that is read stands in one place, which each step changes, and so does what was found.

ghost use Rattle.std.specs.Prelude.{◌≡◌, ◌+◌, ◌≤◌, length, Some, IsTrue, OnOk, IfErr};
ghost use Rattle.json_model.specs.Tree.{Tree};
ghost use Rattle.json_model.specs.Nest.{nest};
ghost use Rattle.jsonb_layout.specs.inner.Trees.{read};
ghost use Rattle.jsonb.specs.inner.Frames.{combine, container_found, frame_found, frames_found, turned, HoldsScalars, frame_weight, frames_weight, SuspendCause, IsAdded, Shortens, MovesTo, Searched};

use crate::error::JsonbError;
use crate::found::Found;
use crate::frame::Frame;
use crate::keys::key_faults;
use crate::opening::open;
use crate::scalar::{is_plain, scalar_faults, unpad};
use crate::walk::{first_item, next_item};
use jsonb_layout::Form;
use smallvec::SmallVec;
use std::alloc::Global;

/// Frames that are put off; four of them take no memory.
type Suspended<'a> = SmallVec<Frame<'a>, 4>;

/// Opens a container, and adds what is found in its keys; the frame becomes that of its values. False where the bytes are no container.
#[inline(never)]
fn enter<'a>(bytes: &'a [u8], frame: &mut Frame<'a>, found: &mut Found) -> bool
    ensures found { IsAdded (container_found bytes.now) found.old found.new frame.new result }
    ensures weight { IsTrue result → frame_weight frame.new ≤ length bytes.now }
    ensures flat { IsTrue result
        → (t : Tree) → read bytes.now ≡ Some t → nest t ≤ 1 → HoldsScalars frame.new }
{
    let Some(opened) = open(bytes) else {
        return false;
    };
    *frame = Frame {
        left: opened.count,
        start: opened.start,
    };
    match opened.form {
        Form::Array => true,
        Form::Object => key_faults(opened.count, &mut frame.start, found),
        Form::Lone => false,
    }
}

/// Puts off what is left of a container, unless nothing is.
fn suspend<'a>(frame: Frame<'a>, suspended: &mut Suspended<'a>) -> Result<(), JsonbError>
    ensures found { OnOk result
        (frames_found suspended.new.items
        ≡ combine (frame_found frame.entry) (frames_found suspended.old.items)) }
    ensures cause { IfErr result (SuspendCause (frame_found frame.entry)) }
    ensures weight { OnOk result
        (frames_weight suspended.new.items
        ≤ frame_weight frame.entry + frames_weight suspended.old.items) }
{
    if frame.left == 0 {
        if frame.start.rest.is_empty() {
            return Ok(());
        }
        return Err(JsonbError::Malformed);
    }
    match suspended.push(frame) {
        Ok(()) => Ok(()),
        Err(_) => Err(JsonbError::OutOfMemory),
    }
}

/// Passes values at the front of a frame in which nothing is found. The frame becomes what is left.
///
/// By review, it stops at a container, and at a scalar that is not told at once.
#[inline(never)]
fn pass_plain(frame: &mut Frame<'_>)
    ensures same { frame_found frame.old ≡ frame_found frame.new }
    ensures shorter { Shortens frame.old frame.new }
{
    let mut left = frame.left;
    if frame.start.words.len() / 4 < left {
        return;
    }
    let mut current = frame.start;
    while left > 0 {
        let Some((item, behind)) = first_item(current) else {
            break;
        };
        if !is_plain(current.at, item.number(), item.piece(), current.rest) {
            break;
        }
        current = behind;
        left -= 1;
    }
    *frame = Frame {
        left,
        start: current,
    };
}

/// Reads scalars at the front of a frame, and adds what is found in them. The frame becomes what is left. False where the frame can not be
/// read.
///
/// By review, it stops at a container.
#[inline(never)]
fn read_scalars(frame: &mut Frame<'_>, found: &mut Found) -> bool
    ensures found { IsAdded (frame_found frame.old) found.old found.new frame.new result }
    ensures shorter { IsTrue result → Shortens frame.old frame.new }
{
    let mut left = frame.left;
    if frame.start.words.len() / 4 < left {
        return false;
    }
    let mut current = frame.start;
    while left > 0 {
        let Some((item, behind)) = first_item(current) else {
            return false;
        };
        if item.is_container() {
            break;
        }
        if !is_plain(current.at, item.number(), item.piece(), current.rest) {
            let Some(more) = scalar_faults(current.at, &item) else {
                return false;
            };
            *found = found.with(more);
        }
        current = behind;
        left -= 1;
    }
    *frame = Frame {
        left,
        start: current,
    };
    true
}

/// Reads the next value of a frame, and scalars behind a scalar, and adds what is found. At the end of a frame the one that was put off
/// last is next. Answers whether there is a frame to read next: what the frame becomes.
fn step<'a>(
    frame: &mut Frame<'a>,
    suspended: &mut Suspended<'a>,
    found: &mut Found,
) -> Result<bool, JsonbError>
    ensures { MovesTo frame.old suspended.old.items found.old suspended.new.items found.new (turned frame.new result) }
{
    if frame.left == 0 {
        if !frame.start.rest.is_empty() {
            return Err(JsonbError::Malformed);
        }
        let Some(next) = suspended.pop() else {
            return Ok(false);
        };
        *frame = next;
        return Ok(true);
    }
    let at = frame.start.at;
    let Some((item, start)) = next_item(frame.start) else {
        return Err(JsonbError::Malformed);
    };
    let rest = Frame {
        left: frame.left - 1,
        start,
    };
    if !item.is_container() {
        let Some(more) = scalar_faults(at, &item) else {
            return Err(JsonbError::Malformed);
        };
        *found = found.with(more);
        *frame = rest;
        if !read_scalars(frame, found) {
            return Err(JsonbError::Malformed);
        }
        return Ok(true);
    }
    let Some(bytes) = unpad(at, item.piece()) else {
        return Err(JsonbError::Malformed);
    };
    suspend(rest, suspended)?;
    if !enter(bytes, frame, found) {
        return Err(JsonbError::Malformed);
    }
    Ok(true)
}

/// Reads on in a frame, and adds what is found. Answers whether there is a frame to read next: what the frame becomes.
fn advance<'a>(
    frame: &mut Frame<'a>,
    suspended: &mut Suspended<'a>,
    found: &mut Found,
) -> Result<bool, JsonbError>
    ensures { MovesTo frame.old suspended.old.items found.old suspended.new.items found.new (turned frame.new result) }
{
    pass_plain(frame);
    step(frame, suspended, found)
}

/// What is found in a container with all those in it.
pub fn container_faults(alloc: Global, bytes: &[u8]) -> Result<Found, JsonbError>
    ensures { Searched bytes.now result }
{
    let mut frame = Frame::default();
    let mut found = Found::NOTHING;
    if !enter(bytes, &mut frame, &mut found) {
        return Err(JsonbError::Malformed);
    }
    let mut suspended: Suspended = SmallVec::new(alloc);
    let mut goes_on = true;
    while goes_on {
        match advance(&mut frame, &mut suspended, &mut found) {
            Ok(next) => goes_on = next,
            Err(error) => return Err(error),
        }
    }
    Ok(found)
}
