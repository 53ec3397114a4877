//! The drafts of JSON Schema, and how the names of an object are read by each.

ghost use Rattle.std.specs.Prelude.{◌≡◌, if◌then◌else◌};
ghost use Rattle.flat_keywords.specs.Draft4.{has_true, partners_of};
ghost use Rattle.flat_keywords.specs.Names.{reading_of};

use json_semantics::numeric_check::BoundOp;
use json_traits::{Node, Object};

/// A draft of JSON Schema.
#[derive(Clone, Copy, PartialEq, Eq)]
pub enum Draft {
    /// Draft 4: 1.0 is no integer, and `exclusiveMinimum` is a truth value that says how `minimum` is meant.
    Draft4,
    /// Draft 2020-12.
    Draft2020,
}

/// What an object has for its bounds, which in draft 4 speak of each other.
#[derive(Clone, Copy)]
pub(crate) struct Partners {
    /// It has `minimum`.
    pub(crate) has_minimum: bool,
    /// It has `maximum`.
    pub(crate) has_maximum: bool,
    /// It has `exclusiveMinimum` of true.
    pub(crate) above_minimum: bool,
    /// It has `exclusiveMaximum` of true.
    pub(crate) below_maximum: bool,
}

impl Partners {
    /// What an object has for its bounds.
    fn of<'a, N: Node<'a>>(object: &N::Object) -> Partners
        ensures { result ≡ partners_of (N.Object.tree object.now) }
    {
        Partners {
            has_minimum: object.get_named("minimum").is_some(),
            has_maximum: object.get_named("maximum").is_some(),
            above_minimum: has_true::<N>(object, "exclusiveMinimum"),
            below_maximum: has_true::<N>(object, "exclusiveMaximum"),
        }
    }

    /// How a number stands to the value of `minimum`.
    pub(crate) fn lower(self) -> BoundOp
        ensures { result ≡ (if self.above_minimum then BoundOp.Gt else BoundOp.Gte) }
    {
        if self.above_minimum {
            BoundOp::Gt
        } else {
            BoundOp::Gte
        }
    }

    /// How a number stands to the value of `maximum`.
    pub(crate) fn upper(self) -> BoundOp
        ensures { result ≡ (if self.below_maximum then BoundOp.Lt else BoundOp.Lte) }
    {
        if self.below_maximum {
            BoundOp::Lt
        } else {
            BoundOp::Lte
        }
    }
}

/// Whether an object has true under a name.
fn has_true<'a, N: Node<'a>>(object: &N::Object, name: &str) -> bool
    ensures { result ≡ has_true name.now (N.Object.tree object.now) }
{
    match object.get_named(name) {
        Some(value) => value.as_boolean().unwrap_or(false),
        None => false,
    }
}

/// How the names of an object are read.
#[derive(Clone, Copy)]
pub(crate) enum Reading {
    /// By 2020-12: each name for itself.
    Draft2020,
    /// By draft 4, in an object that has this for its bounds.
    Draft4(Partners),
}

impl Reading {
    /// How the names of an object are read by a draft.
    pub(crate) fn of<'a, N: Node<'a>>(draft: Draft, object: &N::Object) -> Reading
        ensures { result ≡ reading_of draft (N.Object.tree object.now) }
    {
        match draft {
            Draft::Draft2020 => Reading::Draft2020,
            Draft::Draft4 => Reading::Draft4(Partners::of::<N>(object)),
        }
    }
}
