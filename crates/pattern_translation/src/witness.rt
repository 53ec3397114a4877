//! A text that a pattern matches.

ghost use Rattle.std.specs.Prelude.{◌≡◌, ◌≤◌, ◌++◌, true, length, IfOk, map, string_bytes, if◌then◌else◌, ◌∷◌, [], Bool, List};
ghost use Rattle.std.specs.List.{list_all};
ghost use Rattle.std.specs.Option.{option_or};
ghost use Rattle.std.specs.Str.{chars};
ghost use Rattle.pattern_model.specs.Members.{is_set, tree_has, is_no_property};
ghost use lib.Utf8.{scalar};
ghost use Rattle.pattern_model.specs.Tree.{Item, Leaf, Tree};
ghost use Rattle.pattern_tree.specs.Nodes.{form_item, item_of, count_in};
ghost use Rattle.pattern_tree.specs.Patterns.{HasNode, node_tree, tree_of};
ghost use Rattle.pattern_translation.specs.Witness.{short, least, member, joined, times, repeated, witness};
ghost use Rattle.pattern_translation.specs.Texts.{text_of, AreWitnesses};

use pattern_tree::{ClassForm, ClassItem, Count, Form, NodeId, Pattern};
use std::alloc::{AllocError, Global};

fn empty(alloc: Global) -> Option<String>
    ensures { text_of result ≡ Some [] }
{
    Some(String::new(alloc))
}

/// A text of one character.
fn one(alloc: Global, c: char) -> Result<Option<String>, AllocError>
    ensures { IfOk result (λ o. text_of o ≡ Some (c ∷ [])) }
{
    let mut text = String::new(alloc);
    text.push(c)?;
    Ok(Some(text))
}

/// A text of the character with this code, if there is one.
fn of_code(alloc: Global, code: u32) -> Result<Option<String>, AllocError>
    ensures { IfOk result (λ o. text_of o ≡ (if scalar code then Some (code ∷ []) else None)) }
{
    match char::from_u32(code) {
        Some(c) => one(alloc, c),
        None => Ok(None),
    }
}

/// The least character that is a member.
fn least_member(pattern: &Pattern, id: NodeId) -> Option<char>
    requires node { HasNode pattern.now id }
    requires set { is_set (node_tree pattern.now id) ≡ true }
    ensures { result ≡ least (tree_has (node_tree pattern.now id)) }
{
    for code in 0..0x110000 {
        match char::from_u32(code) {
            Some(c) => {
                if pattern.class_has(id, code) {
                    return Some(c);
                }
            }
            None => {}
        }
    }
    None
}

fn of_members(alloc: Global, pattern: &Pattern, id: NodeId) -> Result<Option<String>, AllocError>
    requires node { HasNode pattern.now id }
    requires set { is_set (node_tree pattern.now id) ≡ true }
    ensures { IfOk result (λ o. text_of o ≡ member (tree_has (node_tree pattern.now id))) }
{
    if pattern.class_has(id, 97) {
        return one(alloc, 'a');
    }
    match least_member(pattern, id) {
        Some(c) => one(alloc, c),
        None => Ok(None),
    }
}

fn is_no_property(form: ClassForm) -> bool
    ensures { result ≡ is_no_property (form_item form) }
{
    match form {
        ClassForm::Code(_) => true,
        ClassForm::Range { first: _, last: _ } => true,
        ClassForm::Escape(_) => true,
        ClassForm::Property { negated: _ } => false,
    }
}

/// Whether none of the items is a property escape.
pub(crate) fn have_no_property(items: &[ClassItem]) -> bool
    ensures { result ≡ list_all is_no_property (map item_of items.now) }
{
    for item in items {
        if !is_no_property(item.form) {
            return false;
        }
    }
    true
}

/// One text after another, if that is not too long.
fn both(alloc: Global, left: &str, right: &str) -> Result<Option<String>, AllocError>
    ensures { IfOk result (λ o. text_of o ≡ short (chars left.now ++ chars right.now)) }
{
    if right.len() > 256 || left.len() > 256 - right.len() {
        return Ok(None);
    }
    let mut text = String::from_str(alloc, left)?;
    text.push_str(right)?;
    Ok(Some(text))
}

fn join(
    alloc: Global,
    left: &Option<String>,
    right: &Option<String>,
) -> Result<Option<String>, AllocError>
    ensures { IfOk result (λ o. text_of o ≡ joined (text_of left.now) (text_of right.now)) }
{
    match (left, right) {
        (Some(left), Some(right)) => both(alloc, left.as_str(), right.as_str()),
        _ => Ok(None),
    }
}

/// The text so many times.
fn copies(alloc: Global, text: &str, count: u32) -> Result<String, AllocError>
    ensures { IfOk result (λ s. chars (string_bytes s) ≡ times count (chars text.now)) }
{
    let mut copies = String::new(alloc);
    for _done in 0..count {
        copies.push_str(text)?;
    }
    Ok(copies)
}

/// The text so many times, if that is not too long.
fn repeat_text(alloc: Global, text: &str, count: u32) -> Result<Option<String>, AllocError>
    requires some { 1 ≤ count }
    requires few { count ≤ 64 }
    ensures { IfOk result (λ o. text_of o ≡ short (times count (chars text.now))) }
{
    if text.len() > 256 || text.len() * count as usize > 256 {
        return Ok(None);
    }
    Ok(Some(copies(alloc, text, count)?))
}

fn repeat(alloc: Global, count: Count, inner: &Option<String>) -> Result<Option<String>, AllocError>
    ensures { IfOk result (λ o. text_of o ≡ repeated (count_in count) (text_of inner.now)) }
{
    match count {
        Count::Wide => Ok(None),
        Count::Number(0) => Ok(empty(alloc)),
        Count::Number(n) => match inner {
            Some(text) if n <= 64 => repeat_text(alloc, text.as_str(), n),
            _ => Ok(None),
        },
    }
}

fn copy(alloc: Global, text: &Option<String>) -> Result<Option<String>, AllocError>
    ensures { IfOk result (λ o. text_of o ≡ text_of text.now) }
{
    match text {
        Some(text) => Ok(Some(String::from_str(alloc, text.as_str())?)),
        None => Ok(None),
    }
}

fn first(
    alloc: Global,
    left: &Option<String>,
    right: &Option<String>,
) -> Result<Option<String>, AllocError>
    ensures { IfOk result (λ o. text_of o ≡ option_or (text_of left.now) (text_of right.now)) }
{
    match left {
        Some(_) => copy(alloc, left),
        None => copy(alloc, right),
    }
}

fn of_class(alloc: Global, pattern: &Pattern, id: NodeId) -> Result<Option<String>, AllocError>
    requires node { HasNode pattern.now id }
    requires class { (b : Bool) × (items : List Item) ×
        (node_tree pattern.now id ≡ Tree.leaf (Leaf.class b items)) }
    ensures { IfOk result (λ o. text_of o ≡ witness (node_tree pattern.now id)) }
{
    if !have_no_property(pattern.items(id)) {
        return Ok(None);
    }
    of_members(alloc, pattern, id)
}

/// The witness of a node, over those of its parts.
fn witness_at(
    alloc: Global,
    pattern: &Pattern,
    id: NodeId,
    parts: &[Option<String>],
) -> Result<Option<String>, AllocError>
    requires node { HasNode pattern.now id }
    requires parts { id.0 ≤ length parts.now }
    requires texts { AreWitnesses pattern.now parts.now }
    ensures { IfOk result (λ o. text_of o ≡ witness (node_tree pattern.now id)) }
{
    match pattern.form(id) {
        Form::Empty => Ok(empty(alloc)),
        Form::Start => Ok(empty(alloc)),
        Form::End => Ok(empty(alloc)),
        Form::Boundary => Ok(empty(alloc)),
        Form::NotBoundary => Ok(empty(alloc)),
        Form::Code(code) => of_code(alloc, code),
        Form::Dot => one(alloc, 'a'),
        Form::Escape(_) => of_members(alloc, pattern, id),
        Form::Class { negated: _ } => of_class(alloc, pattern, id),
        Form::Property { negated: _ } => Ok(None),
        Form::BackNumber(_) => Ok(None),
        Form::BackName => Ok(None),
        Form::Group { mark: _, inner } => copy(alloc, &parts[inner.0 as usize]),
        Form::Repeat {
            inner,
            least,
            most: _,
            lazy: _,
        } => repeat(alloc, least, &parts[inner.0 as usize]),
        Form::Sequence { left, right } => join(
            alloc,
            &parts[left.0 as usize],
            &parts[right.0 as usize],
        ),
        Form::Either { left, right } => first(
            alloc,
            &parts[left.0 as usize],
            &parts[right.0 as usize],
        ),
    }
}

/// The witness of the whole tree, from those of its parts.
pub(crate) fn tree_witness(alloc: Global, pattern: &Pattern) -> Result<Option<String>, AllocError>
    ensures { IfOk result (λ o. text_of o ≡ witness (tree_of pattern.now)) }
{
    let root = pattern.root();
    let mut parts = Vec::new(alloc);
    for id in 0..root.0 {
        let text = witness_at(alloc, pattern, NodeId(id), &parts)?;
        parts.push(text)?;
    }
    witness_at(alloc, pattern, root, &parts)
}
