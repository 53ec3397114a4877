//! Equality of two elements: JSON Schema Core 2020-12, section 4.2.2.

ghost use Rattle.std.specs.Prelude.{◌≡◌, ◌↔◌, if◌then◌else◌, IsTrue, IfOk};
ghost use Rattle.json_model.specs.Decimal.{IsSameValue};
ghost use Rattle.json_model.specs.Same.{Same};
ghost use Rattle.json_elements.specs.inner.Rests.{IsCompared, IsNextOfBoth, AdvancesRests};

use crate::element::{Element, Parts};
use crate::push::push;
use crate::step::Step;
use json_exact::{Number, OutOfMemory};
use std::alloc::Global;

/// What is left of two arrays or two objects that are compared side by side.
#[derive(Drop)]
pub enum Rest<E, M> {
    /// The elements that are left of both.
    Arrays(E, E),
    /// The members that are left of both.
    Objects(M, M),
}

/// What a look at two values tells.
#[derive(Drop)]
pub enum Compared<E, M> {
    /// They are equal.
    Equal,
    /// They differ.
    Apart,
    /// They are equal where what stands in them is.
    Inside(Rest<E, M>),
}

/// The next of both.
#[derive(Drop)]
pub enum NextOfBoth<N> {
    /// The next two values, which stand at the same place or under the same key.
    Pair(N, N),
    /// Nothing is left of both.
    End,
    /// Something is left of one alone, or the next keys differ.
    Apart,
}

/// Whether two numbers have one value.
fn has_same_value(left: &Number, right: &Number) -> bool
    ensures { IsTrue result ↔ IsSameValue left.now right.now }
{
    left.decimal() == right.decimal()
}

/// What a test of two values tells.
fn decided<E, M>(equal: bool) -> Compared<E, M>
    ensures { result ≡ (if equal then Compared.Equal else Compared.Apart) }
{
    if equal {
        Compared::Equal
    } else {
        Compared::Apart
    }
}

/// What a look at two values tells.
fn compare<'a, N: Element<'a>>(left: &N, right: &N) -> Compared<N::Elements, N::Members>
    ensures { IsCompared N.trees N.pairs (N.tree left.now) (N.tree right.now) result }
{
    match left.parts() {
        Parts::Null => match right.parts() {
            Parts::Null => Compared::Equal,
            _ => Compared::Apart,
        },
        Parts::Boolean(one) => match right.parts() {
            Parts::Boolean(other) => decided(one == other),
            _ => Compared::Apart,
        },
        Parts::Number(one) => match right.parts() {
            Parts::Number(other) => decided(has_same_value(&one, &other)),
            _ => Compared::Apart,
        },
        Parts::Text(one) => match right.parts() {
            Parts::Text(other) => decided(one == other),
            _ => Compared::Apart,
        },
        Parts::Array(one) => match right.parts() {
            Parts::Array(other) => Compared::Inside(Rest::Arrays(one, other)),
            _ => Compared::Apart,
        },
        Parts::Object(one) => match right.parts() {
            Parts::Object(other) => Compared::Inside(Rest::Objects(one, other)),
            _ => Compared::Apart,
        },
    }
}

/// Takes the next of both.
fn next_of_both<'a, N: Element<'a>>(rest: &mut Rest<N::Elements, N::Members>) -> NextOfBoth<N>
    ensures { IsNextOfBoth N.trees N.pairs N.tree rest.old result rest.new }
{
    match rest {
        Rest::Arrays(one, other) => match (N::next_element(one), N::next_element(other)) {
            (Some(left), Some(right)) => NextOfBoth::Pair(left, right),
            (None, None) => NextOfBoth::End,
            _ => NextOfBoth::Apart,
        },
        Rest::Objects(one, other) => match (N::next_member(one), N::next_member(other)) {
            (Some((left_key, left)), Some((right_key, right))) => {
                if left_key == right_key {
                    NextOfBoth::Pair(left, right)
                } else {
                    NextOfBoth::Apart
                }
            }
            (None, None) => NextOfBoth::End,
            _ => NextOfBoth::Apart,
        },
    }
}

/// Compares the next two values. What is left around two containers is put off while they are compared.
fn advance<'a, N: Element<'a>>(
    mut current: Rest<N::Elements, N::Members>,
    outer: &mut Vec<Rest<N::Elements, N::Members>>,
) -> Result<Step<Rest<N::Elements, N::Members>, bool>, OutOfMemory>
    ensures { IfOk result (λ s. AdvancesRests N.trees N.pairs current outer.old.items s outer.new.items) }
{
    match next_of_both::<N>(&mut current) {
        NextOfBoth::Pair(left, right) => match compare(&left, &right) {
            Compared::Equal => Ok(Step::Next(current)),
            Compared::Apart => Ok(Step::Done(false)),
            Compared::Inside(inside) => {
                push(outer, current)?;
                Ok(Step::Next(inside))
            }
        },
        NextOfBoth::Apart => Ok(Step::Done(false)),
        NextOfBoth::End => match outer.pop() {
            Some(rest) => Ok(Step::Next(rest)),
            None => Ok(Step::Done(true)),
        },
    }
}

/// Whether two elements are equal: of one type, numbers by value, arrays place by place, and objects with the same keys and equal
/// values under them. It passes over both side by side, and takes memory for the containers around the two values that are compared,
/// and no stack.
pub fn equal<'a, N: Element<'a>>(alloc: Global, left: &N, right: &N) -> Result<bool, OutOfMemory>
    ensures { IfOk result (λ b. IsTrue b ↔ Same (N.tree left.now) (N.tree right.now)) }
{
    let mut current = match compare(left, right) {
        Compared::Equal => return Ok(true),
        Compared::Apart => return Ok(false),
        Compared::Inside(rest) => rest,
    };
    let mut outer = Vec::new(alloc);
    loop {
        match advance::<N>(current, &mut outer)? {
            Step::Done(answer) => return Ok(answer),
            Step::Next(rest) => current = rest,
        }
    }
}
