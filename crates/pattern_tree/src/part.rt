//! A disjunction while it is read.

ghost use Rattle.std.specs.Prelude.{◌≡◌, ◌+◌, ◌<◌, ◌≤◌, ◌^◌, [], ◌∷◌, ◌++◌, length, vec_len, IfOk, OnOk, List, Some};
ghost use Rattle.pattern_model.specs.Tree.{Tree};
ghost use Rattle.pattern_tree.specs.Machine.{joined, alternative_of, whole, push, can_repeat};
ghost use Rattle.pattern_tree.specs.Parts.{with_term, with_alternative, with_disjunction, with_last};
ghost use Rattle.pattern_tree.specs.Nodes.{trees_of, tree_at, built, frame_of, InPart, Adds, opt_tree, InOption};

use crate::node::{Node, Shape, add, from_to};
use crate::span::Span;
use std::alloc::AllocError;

/// What is read of one group: its alternatives before the last bar, the terms after it but for the last, and the last.
#[derive(Clone, Copy)]
pub struct Part {
    pub done: Option<u32>,
    pub before: Option<u32>,
    pub last: Option<u32>,
}

/// The node of the terms before, and of one more.
pub fn join(nodes: &mut Vec<Node>, before: Option<u32>, last: u32) -> Result<u32, AllocError>
    requires room { length nodes.old.items < 2 ^ 32 }
    requires before { InOption (length nodes.old.items) before }
    requires last { last < length nodes.old.items }
    ensures adds { OnOk result (Adds (trees_of nodes.old.items) (trees_of nodes.new.items)) }
    ensures tree { IfOk result (λ id.
        tree_at (trees_of nodes.new.items) id
        ≡ joined (opt_tree (trees_of nodes.old.items) before) (tree_at (trees_of
        nodes.old.items) last)) }
    ensures id { IfOk result (λ id. id < length nodes.new.items) }
    ensures len { OnOk result (length nodes.old.items ≤ length nodes.new.items) }
    ensures few { OnOk result (length nodes.new.items ≤ length nodes.old.items + 1) }
    ensures nodes { IfOk result (λ id.
        with_term nodes.old.items before last ≡ (nodes.new.items, id)) }
{
    match before {
        None => Ok(last),
        Some(left) => {
            let span = from_to(nodes, left, last);
            add(nodes, Shape::Sequence(left, last), span)
        }
    }
}

/// The node of the alternative that is open, which ends at `end`.
pub fn alternative(
    nodes: &mut Vec<Node>,
    before: Option<u32>,
    last: Option<u32>,
    end: usize,
) -> Result<u32, AllocError>
    requires room { length nodes.old.items < 2 ^ 32 }
    requires before { InOption (length nodes.old.items) before }
    requires last { InOption (length nodes.old.items) last }
    ensures adds { OnOk result (Adds (trees_of nodes.old.items) (trees_of nodes.new.items)) }
    ensures tree { IfOk result (λ id.
        tree_at (trees_of nodes.new.items) id
        ≡ alternative_of (opt_tree (trees_of nodes.old.items) before) (opt_tree (trees_of
        nodes.old.items) last)) }
    ensures id { IfOk result (λ id. id < length nodes.new.items) }
    ensures len { OnOk result (length nodes.old.items ≤ length nodes.new.items) }
    ensures few { OnOk result (length nodes.new.items ≤ length nodes.old.items + 1) }
    ensures nodes { IfOk result (λ id.
        with_alternative nodes.old.items before last end ≡ (nodes.new.items, id)) }
{
    match last {
        None => add(nodes, Shape::Empty, Span { start: end, end }),
        Some(id) => join(nodes, before, id),
    }
}

/// The node of all that is read of a group, whose inside ends at `end`.
pub fn close(nodes: &mut Vec<Node>, part: Part, end: usize) -> Result<u32, AllocError>
    requires room { length nodes.old.items + 1 < 2 ^ 32 }
    requires part { InPart (length nodes.old.items) part }
    ensures adds { OnOk result (Adds (trees_of nodes.old.items) (trees_of nodes.new.items)) }
    ensures tree { IfOk result (λ id.
        tree_at (trees_of nodes.new.items) id
        ≡ whole (frame_of (trees_of nodes.old.items) part)) }
    ensures id { IfOk result (λ id. id < length nodes.new.items) }
    ensures len { OnOk result (length nodes.old.items ≤ length nodes.new.items) }
    ensures few { OnOk result (length nodes.new.items ≤ length nodes.old.items + 2) }
    ensures nodes { IfOk result (λ id.
        with_disjunction nodes.old.items part end ≡ (nodes.new.items, id)) }
{
    let right = alternative(nodes, part.before, part.last, end)?;
    match part.done {
        None => Ok(right),
        Some(left) => {
            let span = from_to(nodes, left, right);
            let id = add(nodes, Shape::Either(left, right), span)?;
            Ok(id)
        }
    }
}

/// The part with one more term.
pub fn extend(nodes: &mut Vec<Node>, part: Part, id: u32) -> Result<Part, AllocError>
    requires room { length nodes.old.items < 2 ^ 32 }
    requires part { InPart (length nodes.old.items) part }
    requires id { id < length nodes.old.items }
    ensures adds { OnOk result (Adds (trees_of nodes.old.items) (trees_of nodes.new.items)) }
    ensures frame { IfOk result (λ p.
        frame_of (trees_of nodes.new.items) p
        ≡ push (tree_at (trees_of nodes.old.items) id) (frame_of (trees_of nodes.old.items)
        part)) }
    ensures part { IfOk result (λ p. InPart (length nodes.new.items) p) }
    ensures len { OnOk result (length nodes.old.items ≤ length nodes.new.items) }
    ensures few { OnOk result (length nodes.new.items ≤ length nodes.old.items + 1) }
    ensures nodes { IfOk result (λ p.
        with_last nodes.old.items part.before part.last ≡ (nodes.new.items, p.before)) }
    ensures done { IfOk result (λ p. p.done ≡ part.done) }
    ensures last { IfOk result (λ p. p.last ≡ Some id) }
{
    let before = match part.last {
        None => part.before,
        Some(last) => Some(join(nodes, part.before, last)?),
    };
    Ok(Part {
        done: part.done,
        before,
        last: Some(id),
    })
}
