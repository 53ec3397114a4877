//! The number of an element.

ghost use Rattle.std.specs.Prelude.{◌≡◌, IfOk};
ghost use Rattle.json_model.specs.Rising.{KeysRise};
ghost use Rattle.json_elements.specs.Number.{element_number as number_of};
ghost use Rattle.json_elements.specs.inner.Frames.{added, closed, AdvancesFrames, IsNextIn, IsOpened};

use crate::element::{Element, Parts};
use crate::hash::{BASIS, fed_one, fed_word, key_hash, number_hash, object_hash, text_hash};
use crate::push::push;
use crate::step::Step;
use json_exact::OutOfMemory;
use std::alloc::Global;

/// A container whose number is being computed.
#[derive(Drop)]
pub enum Frame<E, M> {
    /// An array: the elements that are left, and the hash of those before.
    Array(E, u64),
    /// An object: the members that are left, the sum of the numbers of those before, and the hash of the last key that was taken.
    Object(M, u64, u64),
}

/// What a look at a value tells.
#[derive(Drop)]
pub enum Opened<E, M> {
    /// Its number.
    Numbered(u64),
    /// What stands in it.
    Inside(Frame<E, M>),
}

/// What a look at a value tells.
fn open<'a, N: Element<'a>>(node: &N) -> Opened<N::Elements, N::Members>
    ensures { IsOpened N.trees N.pairs (N.tree node.now) result }
{
    match node.parts() {
        Parts::Null => Opened::Numbered(fed_one(BASIS, 0)),
        Parts::Boolean(false) => Opened::Numbered(fed_one(BASIS, 1)),
        Parts::Boolean(true) => Opened::Numbered(fed_one(BASIS, 2)),
        Parts::Number(number) => Opened::Numbered(number_hash(&number)),
        Parts::Text(text) => Opened::Numbered(text_hash(text)),
        Parts::Array(elements) => Opened::Inside(Frame::Array(elements, fed_one(BASIS, 5))),
        Parts::Object(members) => Opened::Inside(Frame::Object(members, 0, 0)),
    }
}

/// Takes the next value of a container.
fn next<'a, N: Element<'a>>(frame: &mut Frame<N::Elements, N::Members>) -> Option<N>
    ensures { IsNextIn N.trees N.pairs N.tree frame.old result frame.new }
{
    match frame {
        Frame::Array(elements, _) => N::next_element(elements),
        Frame::Object(members, _, key) => match N::next_member(members) {
            Some(member) => {
                *key = key_hash(member.0);
                Some(member.1)
            }
            None => None,
        },
    }
}

/// The container, once the number of the last value that was taken is added.
fn add<E, M>(frame: Frame<E, M>, number: u64) -> Frame<E, M>
    ensures { result ≡ added frame number }
{
    match frame {
        Frame::Array(elements, state) => Frame::Array(elements, fed_word(state, number)),
        Frame::Object(members, sum, key) => {
            Frame::Object(members, sum.wrapping_add(fed_word(key, number)), key)
        }
    }
}

/// The number of a container of which nothing is left.
fn close<E: Drop, M: Drop>(frame: Frame<E, M>) -> u64
    ensures { result ≡ closed frame }
{
    match frame {
        Frame::Array(_, state) => state,
        Frame::Object(_, sum, _) => object_hash(sum),
    }
}

/// Adds the number of the next value. A container around it is put off while its number is computed.
fn advance<'a, N: Element<'a>>(
    mut current: Frame<N::Elements, N::Members>,
    outer: &mut Vec<Frame<N::Elements, N::Members>>,
) -> Result<Step<Frame<N::Elements, N::Members>, u64>, OutOfMemory>
    ensures { IfOk result
        (λ s. AdvancesFrames N.trees N.pairs current outer.old.items s outer.new.items) }
{
    match next::<N>(&mut current) {
        Some(value) => match open(&value) {
            Opened::Numbered(number) => Ok(Step::Next(add(current, number))),
            Opened::Inside(inside) => {
                push(outer, current)?;
                Ok(Step::Next(inside))
            }
        },
        None => {
            let number = close(current);
            match outer.pop() {
                Some(frame) => Ok(Step::Next(add(frame, number))),
                None => Ok(Step::Done(number)),
            }
        }
    }
}

/// The number of an element. Equal elements have the same number, whatever holds them. It passes over the element once, and takes
/// memory for the containers around the value that it looks at, and no stack.
pub fn element_number<'a, N: Element<'a>>(alloc: Global, node: &N) -> Result<u64, OutOfMemory>
    ensures number { IfOk result (λ n. n ≡ number_of (N.tree node.now)) }

    // What is known of each tree that was passed over.
    ensures rise { IfOk result (λ _. KeysRise (N.tree node.now)) }
{
    let mut current = match open(node) {
        Opened::Numbered(number) => return Ok(number),
        Opened::Inside(frame) => frame,
    };
    let mut outer = Vec::new(alloc);
    loop {
        match advance::<N>(current, &mut outer)? {
            Step::Done(number) => return Ok(number),
            Step::Next(frame) => current = frame,
        }
    }
}
