//! What the tree of a pattern has that a translation lacks.

ghost use Rattle.std.specs.Prelude.{◌≡◌, ◌≤◌, ◌+◌, ◌<◌, ◌^◌, ℕ, Bool, true, false, not, ◌&&◌, ◌||◌, List, [], length, map, Some, option_map, IfOk, slice_index_or};
ghost use Rattle.std.specs.List.{list_all};
ghost use Rattle.pattern_model.specs.Tree.{Item, Leaf, Mark, Bounds, Tree, is_look};
ghost use Rattle.pattern_model.specs.Matches.{is_narrow};
ghost use Rattle.pattern_model.specs.Properties.{is_word};
ghost use Rattle.pattern_model.specs.Digits.{is_digit};
ghost use Rattle.pattern_tree.specs.Forms.{kind_of};
ghost use Rattle.pattern_tree.specs.Nodes.{count_in};
ghost use Rattle.pattern_tree.specs.Patterns.{HasNode, node_tree, tree_of};
ghost use Rattle.rust_pattern_model.specs.Refusals.{deeper, is_plain_name, has_other_name, has_wide_count, is_empty_class, modifies};
ghost use Rattle.pattern_translation.specs.Facts.{AreOf, NodesHave};

use crate::witness::have_no_property;
use pattern_tree::{Count, Form, GroupMark, NodeId, Pattern};
use std::alloc::{AllocError, Global};

/// What a part of a pattern has: whether there is look-around, a back-reference, a part that is not supported, or one whose
/// meaning is not told; and how many groups are open where the most are.
#[derive(Clone, Copy)]
pub(crate) struct Facts {
    pub look_around: bool,
    pub back_reference: bool,
    pub other_part: bool,
    pub vague: bool,
    pub depth: u32,
}

/// Nothing of all that.
fn none() -> Facts
    ensures { result ≡ record { look_around = false; back_reference = false; other_part = false; vague = false; depth = 0 } }
{
    Facts {
        look_around: false,
        back_reference: false,
        other_part: false,
        vague: false,
        depth: 0,
    }
}

fn property() -> Facts
    ensures { result ≡ record { look_around = false; back_reference = false; other_part = false; vague = true; depth = 0 } }
{
    Facts {
        look_around: false,
        back_reference: false,
        other_part: false,
        vague: true,
        depth: 0,
    }
}

fn back_reference() -> Facts
    ensures { result ≡ record { look_around = false; back_reference = true; other_part = false; vague = false; depth = 0 } }
{
    Facts {
        look_around: false,
        back_reference: true,
        other_part: false,
        vague: false,
        depth: 0,
    }
}

fn is_look(mark: GroupMark) -> bool
    ensures { (m : Mark) → mark ≡ kind_of m → result ≡ is_look m }
{
    match mark {
        GroupMark::Capture => false,
        GroupMark::Named => false,
        GroupMark::Plain => false,
        GroupMark::Modified => false,
        GroupMark::Ahead => true,
        GroupMark::NotAhead => true,
        GroupMark::Behind => true,
        GroupMark::NotBehind => true,
    }
}

fn is_modified(mark: GroupMark) -> bool
    ensures { (m : Mark) → mark ≡ kind_of m → result ≡ modifies m }
{
    match mark {
        GroupMark::Capture => false,
        GroupMark::Named => false,
        GroupMark::Plain => false,
        GroupMark::Modified => true,
        GroupMark::Ahead => false,
        GroupMark::NotAhead => false,
        GroupMark::Behind => false,
        GroupMark::NotBehind => false,
    }
}

fn is_digit(byte: u8) -> bool
    ensures { result ≡ is_digit byte }
{
    48 <= byte && byte <= 57
}

fn is_word(byte: u8) -> bool
    ensures { result ≡ is_word byte }
{
    ((65 <= byte && byte <= 90) || (97 <= byte && byte <= 122)) || (is_digit(byte) || byte == 95)
}

fn are_words(bytes: &[u8]) -> bool
    ensures { result ≡ list_all is_word bytes.now }
{
    for byte in bytes {
        if !is_word(*byte) {
            return false;
        }
    }
    true
}

/// Whether a name is an ASCII letter or `_`, and then ASCII letters, digits and `_`.
fn is_plain_name(name: &[u8]) -> bool
    ensures { result ≡ is_plain_name name.now }
{
    if name.is_empty() {
        return false;
    }
    !is_digit(name[0]) && are_words(name)
}

/// Whether a group has a name that is not plain.
fn has_other_name(pattern: &Pattern, id: NodeId) -> bool
    requires { HasNode pattern.now id }
    ensures { (m : Mark) (t : Tree) → node_tree pattern.now id ≡ Tree.group m t → result ≡ has_other_name m }
{
    match pattern.name(id) {
        Some(name) => !is_plain_name(name.as_bytes()),
        None => false,
    }
}

fn is_narrow(count: Count) -> bool
    ensures { result ≡ is_narrow (Some (count_in count)) }
{
    match count {
        Count::Number(_) => true,
        Count::Wide => false,
    }
}

fn is_most_narrow(count: Option<Count>) -> bool
    ensures { result ≡ is_narrow (option_map count_in count) }
{
    match count {
        Some(count) => is_narrow(count),
        None => true,
    }
}

/// Those of a group, over its inside's.
fn group(inner: Facts, mark: GroupMark, other_name: bool) -> Facts
    requires { inner.depth + 1 < 2 ^ 32 }
    ensures facts { (m : Mark) (t : Tree) → AreOf inner t → mark ≡ kind_of m → other_name ≡ has_other_name m →
        AreOf result (Tree.group m t) }
    ensures depth { result.depth ≡ inner.depth + 1 }
{
    Facts {
        look_around: is_look(mark) || inner.look_around,
        back_reference: inner.back_reference,
        other_part: other_name || inner.other_part,
        vague: is_modified(mark) || inner.vague,
        depth: inner.depth + 1,
    }
}

/// Those of a repeat, over its inside's.
fn repeat(inner: Facts, least: Count, most: Option<Count>) -> Facts
    ensures facts { (b : Bounds) (t : Tree) → AreOf inner t → b.least ≡ count_in least →
        b.most ≡ option_map count_in most → AreOf result (Tree.repeat t b) }
    ensures depth { result.depth ≡ inner.depth }
{
    Facts {
        look_around: inner.look_around,
        back_reference: inner.back_reference,
        other_part: !(is_narrow(least) && is_most_narrow(most)) || inner.other_part,
        vague: inner.vague,
        depth: inner.depth,
    }
}

fn deeper(left: u32, right: u32) -> u32
    ensures { result ≡ deeper left right }
{
    if left <= right { right } else { left }
}

/// Those of two parts together.
fn both(left: Facts, right: Facts) -> Facts
    ensures sequence { (s t : Tree) → AreOf left s → AreOf right t → AreOf result (Tree.sequence s t) }
    ensures either { (s t : Tree) → AreOf left s → AreOf right t → AreOf result (Tree.either s t) }
    ensures depth { result.depth ≡ deeper left.depth right.depth }
{
    Facts {
        look_around: left.look_around || right.look_around,
        back_reference: left.back_reference || right.back_reference,
        other_part: left.other_part || right.other_part,
        vague: left.vague || right.vague,
        depth: deeper(left.depth, right.depth),
    }
}

/// Those of a class.
fn class(pattern: &Pattern, id: NodeId) -> Facts
    requires { HasNode pattern.now id }
    ensures facts { (b : Bool) (items : List Item) → node_tree pattern.now id ≡ Tree.leaf (Leaf.class b items) →
        AreOf result (Tree.leaf (Leaf.class b items)) }
    ensures depth { result.depth ≡ 0 }
{
    let items = pattern.items(id);
    Facts {
        look_around: false,
        back_reference: false,
        other_part: items.is_empty(),
        vague: !have_no_property(items),
        depth: 0,
    }
}

/// Those of a node, over its parts'.
fn facts_at(pattern: &Pattern, id: NodeId, parts: &[Facts]) -> Facts
    requires node { HasNode pattern.now id }
    requires parts { id.0 ≤ length parts.now }
    requires facts { NodesHave pattern.now parts.now }
    ensures facts { AreOf result (node_tree pattern.now id) }
    ensures few { result.depth ≤ id.0 }
{
    match pattern.form(id) {
        Form::Empty => none(),
        Form::Code(_) => none(),
        Form::Dot => none(),
        Form::Start => none(),
        Form::End => none(),
        Form::Boundary => none(),
        Form::NotBoundary => none(),
        Form::Escape(_) => none(),
        Form::Class { negated: _ } => class(pattern, id),
        Form::Property { negated: _ } => property(),
        Form::BackNumber(_) => back_reference(),
        Form::BackName => back_reference(),
        Form::Group { mark, inner } => {
            group(parts[inner.0 as usize], mark, has_other_name(pattern, id))
        }
        Form::Repeat {
            inner,
            least,
            most,
            lazy: _,
        } => repeat(parts[inner.0 as usize], least, most),
        Form::Sequence { left, right } => both(parts[left.0 as usize], parts[right.0 as usize]),
        Form::Either { left, right } => both(parts[left.0 as usize], parts[right.0 as usize]),
    }
}

/// Those of the whole tree, from those of its parts.
pub(crate) fn tree_facts(alloc: Global, pattern: &Pattern) -> Result<Facts, AllocError>
    ensures { IfOk result (λ f. AreOf f (tree_of pattern.now)) }
{
    let root = pattern.root();
    let mut parts = Vec::new(alloc);
    for id in 0..root.0 {
        let facts = facts_at(pattern, NodeId(id), &parts);
        parts.push(facts)?;
    }
    Ok(facts_at(pattern, root, &parts))
}
