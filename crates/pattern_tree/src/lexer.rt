//! Tokens, the atoms of classes, and the numbers of `\u` escapes, one by one: for whoever needs the source of each.

pub use crate::class::{Atom, class_atom};
pub use crate::node::{Counts, Mark, Single};
pub use crate::number::{code_point, hex_four};
pub use crate::token::{Token, token_from};
