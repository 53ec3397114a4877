//! What the reader has still to do.

use crate::place::Place;

/// So many values of a container, from a place to the end of its payload.
#[derive(Clone, Copy, Default)]
pub struct Frame<'a> {
    pub left: usize,
    pub start: Place<'a>,
}
