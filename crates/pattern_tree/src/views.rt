//! What the shape of a node tells.

ghost use Rattle.std.specs.Prelude.{◌≡◌, List, map, option_map};
ghost use Rattle.pattern_model.specs.Tree as tree;
ghost use Rattle.pattern_tree.specs.Nodes.{built, mark_of, leaf_of, item_of};
ghost use Rattle.pattern_tree.specs.Spans.{placed_of};
ghost use Rattle.pattern_tree.specs.Patterns.{single_places, shape_places};
ghost use Rattle.pattern_tree.specs.Forms.{kind_of, single_form, shape_form, leaf_items, tree_items, mark_name, leaf_name, tree_name};

use crate::class_item::ClassItem;
use crate::form::{Form, GroupMark, NodeId};
use crate::node::{Mark, Shape, Single};

fn mark_form(mark: &Mark) -> GroupMark
    ensures { result ≡ kind_of (mark_of mark.now) }
{
    match mark {
        Mark::Capture => GroupMark::Capture,
        Mark::Named(_) => GroupMark::Named,
        Mark::Plain => GroupMark::Plain,
        Mark::Modified => GroupMark::Modified,
        Mark::Ahead => GroupMark::Ahead,
        Mark::NotAhead => GroupMark::NotAhead,
        Mark::Behind => GroupMark::Behind,
        Mark::NotBehind => GroupMark::NotBehind,
    }
}

fn single_form(single: &Single) -> Form
    ensures { result ≡ single_form single.now }
{
    match single {
        Single::Code(c) => Form::Code(*c),
        Single::Dot => Form::Dot,
        Single::Start => Form::Start,
        Single::End => Form::End,
        Single::Boundary => Form::Boundary,
        Single::NotBoundary => Form::NotBoundary,
        Single::Escape(escape) => Form::Escape(*escape),
        Single::Class(negated, _) => Form::Class { negated: *negated },
        Single::Property(negated) => Form::Property { negated: *negated },
        Single::BackNumber(number) => Form::BackNumber(*number),
        Single::BackName(_) => Form::BackName,
    }
}

pub(crate) fn form_of(shape: &Shape) -> Form
    ensures { result ≡ shape_form shape.now }
{
    match shape {
        Shape::Empty => Form::Empty,
        Shape::Single(single) => single_form(single),
        Shape::Group(mark, inner) => Form::Group {
            mark: mark_form(mark),
            inner: NodeId(*inner),
        },
        Shape::Repeat(inner, counts) => Form::Repeat {
            inner: NodeId(*inner),
            least: counts.least,
            most: counts.most,
            lazy: counts.lazy,
        },
        Shape::Sequence(left, right) => Form::Sequence {
            left: NodeId(*left),
            right: NodeId(*right),
        },
        Shape::Either(left, right) => Form::Either {
            left: NodeId(*left),
            right: NodeId(*right),
        },
    }
}

fn single_items(single: &Single) -> &[ClassItem]
    ensures items { map item_of result.now ≡ leaf_items (leaf_of single.now) }
    ensures places { map placed_of result.now ≡ single_places single.now }
{
    match single {
        Single::Class(_, items) => items,
        _ => &[],
    }
}

pub(crate) fn items_of(shape: &Shape) -> &[ClassItem]
    ensures items { (ts : List tree.Tree) →
        map item_of result.now ≡ tree_items (built ts shape.now) }
    ensures places { map placed_of result.now ≡ shape_places shape.now }
{
    match shape {
        Shape::Single(single) => single_items(single),
        _ => &[],
    }
}

fn mark_name(mark: &Mark) -> Option<&str>
    ensures { option_map (λ n. n.now) result ≡ mark_name (mark_of mark.now) }
{
    match mark {
        Mark::Named(name) => Some(name.as_str()),
        _ => None,
    }
}

fn single_name(single: &Single) -> Option<&str>
    ensures { option_map (λ n. n.now) result ≡ leaf_name (leaf_of single.now) }
{
    match single {
        Single::BackName(name) => Some(name.as_str()),
        _ => None,
    }
}

pub(crate) fn name_of(shape: &Shape) -> Option<&str>
    ensures { (ts : List tree.Tree) →
        option_map (λ n. n.now) result ≡ tree_name (built ts shape.now) }
{
    match shape {
        Shape::Single(single) => single_name(single),
        Shape::Group(mark, _) => mark_name(mark),
        _ => None,
    }
}
