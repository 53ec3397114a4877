//! The nodes of a pattern, each after those that are its parts.

ghost use Rattle.std.specs.Prelude.{◌≡◌, ◌+◌, ◌<◌, ◌≤◌, ◌^◌, [], ◌∷◌, ◌++◌, length, vec_len, IfOk, OnOk, List};
ghost use Rattle.pattern_model.specs.Tree.{Tree};
ghost use Rattle.pattern_tree.specs.Machine.{joined, alternative_of, whole, push, can_repeat};
ghost use Rattle.pattern_tree.specs.Parts.{with_node, between_nodes};
ghost use Rattle.pattern_tree.specs.Nodes.{span_at, trees_of, tree_at, built, frame_of, InPart, Adds, opt_tree, InOption};

use crate::class_item::{ClassEscape, ClassItem};
use crate::form::Count;
use crate::span::Span;
use std::alloc::AllocError;

/// How a group begins.
#[derive(Drop)]
pub enum Mark {
    Capture,
    Named(String),
    Plain,
    Modified,
    Ahead,
    NotAhead,
    Behind,
    NotBehind,
}

/// What a quantifier says.
#[derive(Clone, Copy)]
pub struct Counts {
    pub least: Count,
    pub most: Option<Count>,
    pub lazy: bool,
}

/// What stands by itself: an assertion, or an atom that is no group.
#[derive(Drop)]
pub enum Single {
    Code(u32),
    Dot,
    Start,
    End,
    Boundary,
    NotBoundary,
    Escape(ClassEscape),
    Class(bool, Vec<ClassItem>),
    Property(bool),
    BackNumber(u64),
    BackName(String),
}

/// What a node is, with the places of the nodes that are its parts.
#[derive(Drop)]
pub enum Shape {
    Empty,
    Single(Single),
    Group(Mark, u32),
    Repeat(u32, Counts),
    Sequence(u32, u32),
    Either(u32, u32),
}

/// A node: its parts stand before it.
#[derive(Drop)]
pub struct Node {
    pub shape: Shape,
    pub span: Span,
}

#[tactic(auto, using(crate::proofs::NodeLemmas::trees_snoc))]
fn append(nodes: &mut Vec<Node>, shape: Shape, span: Span) -> Result<u32, AllocError>
    requires { length nodes.old.items < 2 ^ 32 }
    ensures trees { IfOk result (λ id.
        trees_of nodes.new.items
        ≡ trees_of nodes.old.items ++ (built (trees_of nodes.old.items) shape ∷ [])) }
    ensures id { IfOk result (λ id. id ≡ length nodes.old.items) }
    ensures len { IfOk result (λ id. length nodes.new.items ≡ length nodes.old.items + 1) }
    ensures nodes { IfOk result (λ id.
        with_node nodes.old.items shape span ≡ (nodes.new.items, id)) }
{
    let id = nodes.len() as u32;
    nodes.push(Node { shape, span })?;
    Ok(id)
}

/// Adds a node at the end.
pub fn add(nodes: &mut Vec<Node>, shape: Shape, span: Span) -> Result<u32, AllocError>
    requires { length nodes.old.items < 2 ^ 32 }
    ensures adds { OnOk result (Adds (trees_of nodes.old.items) (trees_of nodes.new.items)) }
    ensures tree { IfOk result (λ id.
        tree_at (trees_of nodes.new.items) id ≡ built (trees_of nodes.old.items) shape) }
    ensures id { IfOk result (λ id. id < length nodes.new.items) }
    ensures len { OnOk result (length nodes.new.items ≡ length nodes.old.items + 1) }
    ensures nodes { IfOk result (λ id.
        with_node nodes.old.items shape span ≡ (nodes.new.items, id)) }
{
    let id = append(nodes, shape, span)?;
    Ok(id)
}

/// From the start of one node to the end of another.
pub fn from_to(nodes: &[Node], left: u32, right: u32) -> Span
    requires left { left < length nodes.now }
    requires right { right < length nodes.now }
    ensures { result ≡ between_nodes nodes.now left right }
{
    Span {
        start: nodes[left as usize].span.start,
        end: nodes[right as usize].span.end,
    }
}

/// Whether a quantifier may follow: it may not after an assertion.
fn single_repeats(single: &Single) -> bool
    ensures { (ts : List Tree) → result ≡ can_repeat (built ts (Shape.Single single.now)) }
{
    !matches!(
        single,
        Single::Start | Single::End | Single::Boundary | Single::NotBoundary
    )
}

/// Whether a quantifier may follow: it may after an atom.
fn repeats(shape: &Shape) -> bool
    ensures { (ts : List Tree) → result ≡ can_repeat (built ts shape.now) }
{
    match shape {
        Shape::Single(single) => single_repeats(single),
        Shape::Group(Mark::Ahead | Mark::NotAhead | Mark::Behind | Mark::NotBehind, _) => false,
        Shape::Group(_, _) => true,
        _ => false,
    }
}

/// Whether a quantifier may follow the node.
pub fn can_repeat(nodes: &[Node], id: u32) -> bool
    requires { id < length nodes.now }
    ensures { result ≡ can_repeat (tree_at (trees_of nodes.now) id) }
{
    repeats(&nodes[id as usize].shape)
}

/// Where the node begins.
pub fn start_of(nodes: &[Node], id: u32) -> usize
    requires { id < length nodes.now }
    ensures { result ≡ (span_at nodes.now id).start }
{
    nodes[id as usize].span.start
}
