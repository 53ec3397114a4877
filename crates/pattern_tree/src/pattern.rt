//! `Pattern`: the tree of a pattern, node by node.

ghost use Rattle.std.specs.Prelude.{◌≡◌, ◌<◌, length, true};
ghost use Rattle.pattern_tree.specs.Below.{all_below};

use crate::class_item::ClassItem;
use crate::form::{Form, NodeId};
use crate::members::shape_has;
use crate::node::Node;
use crate::span::Span;
use crate::views::{form_of, items_of, name_of};

/// The tree of a pattern. Its nodes stand in one vector, each after its parts, so that nothing here recurses.
#[derive(Drop)]
pub struct Pattern {
    pub(crate) nodes: Vec<Node>,
    pub(crate) root: u32,
    ghost after_parts: { all_below 0 nodes.items ≡ true },
    ghost has_root: { root < length nodes.items },
}

impl Pattern {
    ghost use Rattle.std.specs.Prelude.{◌≡◌, ◌≤◌, ℕ, Bool, map, option_map, true};
    ghost use Rattle.pattern_model.specs.Members.{is_set, tree_has};
    ghost use Rattle.pattern_model.specs.Text.{Text};
    ghost use Rattle.pattern_tree.specs.Nodes.{item_of};
    ghost use Rattle.pattern_tree.specs.Spans.{placed_of};
    ghost use Rattle.pattern_tree.specs.Forms.{IsForm, tree_items, tree_name};
    ghost use Rattle.pattern_tree.specs.FormPlaces.{FormStands};
    ghost use Rattle.pattern_tree.specs.Patterns.{HasNode, SpansStand, node_items, node_span, node_tree, tree_of};

    /// The node of the whole pattern, which stands from 0 to the end of the text.
    pub fn root(&self) -> NodeId
        ensures whole { result.0 ≡ self.now.root }
        ensures node { HasNode self.now result }
        ensures tree { node_tree self.now result ≡ tree_of self.now }
    {
        NodeId(self.root)
    }

    /// Where the part of a node stands in the source, in bytes. A group has its parentheses, a repeat its quantifier. A
    /// sequence and an either go from the start of their left part to the end of their right one, and an empty alternative is
    /// the empty place where it stands.
    pub fn span(&self, id: NodeId) -> Span
        requires { HasNode self.now id }
        ensures { result ≡ node_span self.now id }
    {
        self.nodes[id.0 as usize].span
    }

    /// What a node is. Its parts are nodes too, with lower numbers, and stand in the source within its place.
    pub fn form(&self, id: NodeId) -> Form
        requires { HasNode self.now id }
        ensures form { IsForm self.now id result }
        ensures places { (wide : Bool) (x : Text) (bytes : ℕ) → SpansStand wide x self.now bytes →
            FormStands wide x self.now id result }
    {
        form_of(&self.nodes[id.0 as usize].shape)
    }

    /// The items of a class, in order, each with its place; none for another node.
    pub fn items(&self, id: NodeId) -> &[ClassItem]
        requires { HasNode self.now id }
        ensures items { map item_of result.now ≡ tree_items (node_tree self.now id) }
        ensures places { map placed_of result.now ≡ node_items self.now id }
    {
        items_of(&self.nodes[id.0 as usize].shape)
    }

    /// The name of a named group, or of a back-reference by name, with its escapes decoded; None for another node.
    pub fn name(&self, id: NodeId) -> Option<&str>
        requires { HasNode self.now id }
        ensures { option_map (λ n. n.now) result ≡ tree_name (node_tree self.now id) }
    {
        name_of(&self.nodes[id.0 as usize].shape)
    }

    /// Whether a code point is a member of a class or class escape that has no property escape. The items of a class are
    /// tried one after the other.
    pub fn class_has(&self, id: NodeId, code: u32) -> bool
        requires node { HasNode self.now id }
        requires set { is_set (node_tree self.now id) ≡ true }
        requires code { code ≤ 1114111 }
        ensures { result ≡ tree_has (node_tree self.now id) code }
    {
        shape_has(&self.nodes[id.0 as usize].shape, code)
    }
}
