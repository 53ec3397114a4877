//! Whether no two elements are equal: JSON Schema Validation 2020-12, section 6.4.3.

ghost use Rattle.std.specs.Prelude.{◌≡◌, ◌<◌, ◌↔◌, ℕ, length, map, slice_index_or, IsTrue, IfOk};
ghost use Rattle.json_model.specs.Rising.{KeysRise};
ghost use Rattle.json_model.specs.Same.{IsUnique};
ghost use Rattle.json_elements.specs.Number.{element_number as number_of};
ghost use Rattle.json_elements.specs.inner.SameAt.{IsSameAt};

use crate::element::Element;
use crate::equality::equal;
use crate::numbering::element_number;
use crate::push::push;
use distinct_places::{Places, are_apart, are_apart_by_numbers};
use json_exact::OutOfMemory;
use std::alloc::{AllocError, Global};
use std::marker::PhantomData;

/// From so many elements on, an element is compared with those alone that have its number.
const NUMBERED_FROM: usize = 16;

/// The elements of an array, at their places.
#[derive(Drop)]
struct Nodes<'a, 'b, N> {
    alloc: Global,
    nodes: &'b [N],
    lifetime: PhantomData<&'a u8>,
}

impl<'a, 'b, N: Element<'a>> Places for Nodes<'a, 'b, N> {
    ghost count = { λ p. length p.nodes.now };

    ghost same = { λ p j k. IsSameAt (map N.tree p.nodes.now) j k };

    fn hold_same(&self, first: usize, second: usize) -> Result<bool, AllocError> {
        match equal(self.alloc, &self.nodes[first], &self.nodes[second]) {
            Ok(same) => Ok(same),
            Err(_) => Err(AllocError),
        }
    }
}

/// The elements that are left, in order.
fn collect<'a, N: Element<'a>>(
    alloc: Global,
    mut elements: N::Elements,
) -> Result<Vec<N>, OutOfMemory>
    ensures { IfOk result (λ v. map N.tree v.items ≡ N.trees elements) }
{
    let mut nodes = Vec::new(alloc);
    while let Some(node) = N::next_element(&mut elements) {
        push(&mut nodes, node)?;
    }
    Ok(nodes)
}

/// The number of each element, in order.
fn numbers_of<'a, N: Element<'a>>(alloc: Global, nodes: &[N]) -> Result<Vec<u64>, OutOfMemory>
    ensures numbers { IfOk result (λ v. v.items ≡ map (λ n. number_of (N.tree n)) nodes.now) }
    ensures rise { IfOk result (λ _. (k : ℕ) (d : N) → k < length nodes.now
        → KeysRise (N.tree (slice_index_or nodes.now k d))) }
{
    let mut numbers = Vec::new(alloc);
    for node in nodes {
        let number = element_number(alloc, node)?;
        push(&mut numbers, number)?;
    }
    Ok(numbers)
}

/// Whether no two of the elements that are left are equal. Up to 15 are compared each with each. From 16 on the number of each is
/// computed first, and an element is compared with those alone that have its number. Elements that were chosen to share a number are
/// compared each with each too. It takes memory for the elements and their numbers, and for the nesting of those that it looks at.
pub fn is_unique<'a, N: Element<'a>>(
    alloc: Global,
    elements: N::Elements,
) -> Result<bool, OutOfMemory>
    ensures { IfOk result (λ b. IsTrue b ↔ IsUnique (N.trees elements)) }
{
    let nodes = collect::<N>(alloc, elements)?;
    let places: Nodes<'a, '_, N> = Nodes {
        alloc,
        nodes: nodes.as_slice(),
        lifetime: PhantomData,
    };
    if nodes.len() < NUMBERED_FROM {
        return Ok(are_apart(&places, nodes.len())?);
    }
    let numbers = numbers_of(alloc, nodes.as_slice())?;
    Ok(are_apart_by_numbers(alloc, &places, numbers.as_slice())?)
}
