//! The items of a class.

ghost use Rattle.std.specs.Prelude.{◌≡◌, ◌+◌, ◌-◌, ◌<◌, ◌≤◌, ◌^◌, ◌∷◌, ◌++◌, [], length, drop, map, List, Bool, true, false, IfOk, IfSome, IfNone, None, Some, option_map, MatchOption, ◌&&◌};
ghost use Rattle.std.specs.Str.{chars};
ghost use Rattle.pattern_model.specs.Classes as grammar;
ghost use Rattle.pattern_model.specs.Escapes as escapes;
ghost use Rattle.pattern_model.specs.Text.{is_at};
ghost use Rattle.pattern_model.specs.Classes.{class_atom, escaped_atom, property_atom, escape_or_code, makes_range, range_of, range_to, part_from, class_part, class_items, has_hyphens};
ghost use Rattle.pattern_model.specs.Tree.{Item};
ghost use Rattle.pattern_model.specs.Spans.{PlacedItem, ItemsRead};
ghost use Rattle.pattern_tree.specs.Nodes.{item_of, form_item, atom_of};
ghost use Rattle.pattern_tree.specs.Spans.{placed_of};

use crate::class_item::{ClassEscape, ClassForm, ClassItem};
use crate::escape::{character_escape, class_escape, past_property};
use crate::span::Span;
use crate::text::{is_at, rest, split_first};
use std::alloc::{AllocError, Global};

/// What may be the end of a range.
#[derive(Clone, Copy)]
pub enum Atom {
    Code(u32),
    Escape(ClassEscape),
    Property { negated: bool },
}

fn form_of(atom: Atom) -> ClassForm
    ensures { form_item result ≡ grammar.item_of_atom (atom_of atom) }
{
    match atom {
        Atom::Code(code) => ClassForm::Code(code),
        Atom::Escape(escape) => ClassForm::Escape(escape),
        Atom::Property { negated } => ClassForm::Property { negated },
    }
}

fn is_escape(atom: Atom) -> bool
    ensures { result ≡ grammar.is_escape (atom_of atom) }
{
    matches!(atom, Atom::Escape(_))
}

fn property_atom(negated: bool, x: &str) -> Option<(Atom, &str)>
    ensures value { property_atom negated (chars x.now)
        ≡ option_map (λ p. (atom_of p.0, chars p.1.now)) result }
    ensures len { IfSome result (λ p. length p.1.now ≤ length x.now) }
{
    let after = past_property(x)?;
    Some((Atom::Property { negated }, after))
}

fn escape_or_code(c: char, x: &str) -> Option<(Atom, &str)>
    ensures value { escape_or_code c (chars x.now) (escapes.class_escape c) ≡ option_map (λ p.
        (atom_of p.0, chars p.1.now)) result }
    ensures len { IfSome result (λ p. length p.1.now ≤ length x.now) }
{
    if let Some(escape) = class_escape(c) {
        return Some((Atom::Escape(escape), x));
    }
    let (code, after) = character_escape(c, x)?;
    Some((Atom::Code(code), after))
}

#[tactic(auto, unfolding(pattern_model::specs::Classes::escaped_atom))]
fn escaped_atom(x: &str) -> Option<(Atom, &str)>
    ensures value { escaped_atom (chars x.now)
        ≡ option_map (λ p. (atom_of p.0, chars p.1.now)) result }
    ensures len { IfSome result (λ p. length p.1.now < length x.now) }
{
    let (c, after) = split_first(x)?;
    match c {
        'b' => Some((Atom::Code(8), after)),
        'p' => property_atom(false, after),
        'P' => property_atom(true, after),
        c => escape_or_code(c, after),
    }
}

/// The atom that a class's text begins with, and what follows it.
#[tactic(auto, unfolding(pattern_model::specs::Classes::class_atom))]
pub fn class_atom(x: &str) -> Option<(Atom, &str)>
    ensures value { class_atom (chars x.now)
        ≡ option_map (λ p. (atom_of p.0, chars p.1.now)) result }
    ensures len { IfSome result (λ p. length p.1.now < length x.now) }
{
    let (c, after) = split_first(x)?;
    if c == '\\' {
        return escaped_atom(after);
    }
    Some((Atom::Code(u32::from(c)), after))
}

#[tactic(auto, unfolding(pattern_model::specs::Classes::makes_range))]
fn makes_range(x: &str) -> bool
    ensures { result ≡ makes_range (chars x.now) }
{
    is_at('-', x) && !is_at(']', rest(x))
}

fn range_of(first: Atom, last: Atom) -> Option<ClassForm>
    ensures { range_of (atom_of first) (atom_of last) ≡ option_map form_item result }
{
    match (first, last) {
        (Atom::Code(first), Atom::Code(last)) => {
            if first <= last {
                Some(ClassForm::Range { first, last })
            } else {
                None
            }
        }
        _ => None,
    }
}

fn has_hyphens(wide: bool, atom: Atom, x: &str) -> bool
    ensures { result ≡ has_hyphens wide (atom_of atom, chars x.now) }
{
    wide && (is_escape(atom) && (is_at('-', x) && is_at('-', rest(x))))
}

/// Adds an item that goes from one text to another, which stands later in a source of `total` bytes.
fn push(
    items: &mut Vec<ClassItem>,
    total: usize,
    form: ClassForm,
    from: &str,
    to: &str,
) -> Result<(), AllocError>
    requires from { length from.now ≤ total }
    requires to { length to.now ≤ length from.now }
    ensures forms { IfOk result (λ _.
        map item_of items.new.items ≡ map item_of items.old.items ++ (form_item form ∷ [])) }
    ensures places { IfOk result (λ _.
        map placed_of items.new.items
        ≡ map placed_of items.old.items ++ ((record {
          item = form_item form;
          start = total - length from.now;
          end = total - length to.now;
        }) ∷ [])) }
{
    let span = Span {
        start: total - from.len(),
        end: total - to.len(),
    };
    items.push(ClassItem { span, form })?;
    Ok(())
}

/// Adds the items that one atom begins, and tells what follows them.
fn class_part<'a>(
    wide: bool,
    items: &mut Vec<ClassItem>,
    total: usize,
    x: &'a str,
) -> Result<Option<&'a str>, AllocError>
    requires { length x.now ≤ total }
    ensures none { IfOk result (λ o. IfNone o (class_part wide (chars x.now) ≡ None)) }
    ensures some { IfOk result (λ o. IfSome o (λ y.
        (new : List Item) × (class_part wide (chars x.now) ≡ Some (new, chars y.now))
        × (map item_of items.new.items ≡ map item_of items.old.items ++ new))) }
    ensures places { IfOk result (λ o. IfSome o (λ y.
        (new : List PlacedItem)
        × (map placed_of items.new.items ≡ map placed_of items.old.items ++ new)
        × ItemsRead (chars x.now) (total - length x.now) new (chars y.now)
        (total - length y.now))) }
    ensures len { IfOk result (λ o. IfSome o (λ y. length y.now < length x.now)) }
{
    let Some((atom, after)) = class_atom(x) else {
        return Ok(None);
    };
    if has_hyphens(wide, atom, after) {
        let hyphen = rest(after);
        let end = rest(hyphen);
        push(items, total, form_of(atom), x, after)?;
        push(items, total, ClassForm::Code(45), after, hyphen)?;
        push(items, total, ClassForm::Code(45), hyphen, end)?;
        return Ok(Some(end));
    }
    if !makes_range(after) {
        push(items, total, form_of(atom), x, after)?;
        return Ok(Some(after));
    }
    let Some((last, end)) = class_atom(rest(after)) else {
        return Ok(None);
    };
    match range_of(atom, last) {
        None => Ok(None),
        Some(form) => {
            push(items, total, form, x, end)?;
            Ok(Some(end))
        }
    }
}

/// The items of a class, up to its closing bracket.
pub(crate) fn class_items(
    alloc: Global,
    wide: bool,
    total: usize,
    x: &str,
) -> Result<Option<(Vec<ClassItem>, &str)>, AllocError>
    requires { length x.now ≤ total }
    ensures value { IfOk result (λ o.
        class_items wide (chars x.now) ≡ option_map (λ p.
        (map item_of p.0.items, chars p.1.now)) o) }
    ensures places { IfOk result (λ o. IfSome o (λ p.
        ItemsRead (chars x.now) (total - length x.now) (map placed_of p.0.items) (chars p.1.now)
        (total - length p.1.now))) }
    ensures ends { IfOk result (λ o. IfSome o (λ p. is_at 93 (chars p.1.now) ≡ true)) }
    ensures len { IfOk result (λ o. IfSome o (λ p. length p.1.now ≤ length x.now)) }
{
    let mut items = Vec::new(alloc);
    let mut after = x;
    while !is_at(']', after) {
        let part = class_part(wide, &mut items, total, after)?;
        let Some(next) = part else {
            return Ok(None);
        };
        after = next;
    }
    Ok(Some((items, after)))
}
