//! Writes classes for Rust.

ghost use Rattle.std.specs.Prelude.{◌≡◌, ◌<◌, ◌≤◌, List, ◌&&◌, [], ◌∷◌, ◌++◌, length, drop, Bool, true, false, Some, None, IfOk, IfSome, IfNone, string_bytes, not, if◌then◌else◌};
ghost use Rattle.std.specs.Str.{chars};
ghost use Rattle.pattern_model.specs.Text.{Text, is_at};
ghost use Rattle.pattern_model.specs.Tree.{Item, Token};
ghost use Rattle.pattern_model.specs.Tokens.{class_from};
ghost use Rattle.pattern_model.specs.Classes as grammar;
ghost use Rattle.pattern_model.specs.Classes.{class_part, class_items, makes_range, has_hyphens};
ghost use Rattle.pattern_tree.specs.Nodes.{atom_of};
ghost use Rattle.rust_pattern_model.specs.Translation.{WritesPart, WritesItems, WritesClass, inside, opening};
ghost use Rattle.pattern_translation.specs.inner.Adding.{Adds, AddsPart};

use crate::text::{is_at, rest};
use crate::written::write_atom;
use pattern_tree::lexer::{Atom, class_atom};
use std::alloc::AllocError;

fn is_escape(atom: Atom) -> bool
    ensures { result ≡ grammar.is_escape (atom_of atom) }
{
    match atom {
        Atom::Escape(_) => true,
        Atom::Code(_) => false,
        Atom::Property { negated: _ } => false,
    }
}

fn has_hyphens(atom: Atom, text: &str) -> bool
    ensures { result ≡ has_hyphens true (atom_of atom, chars text.now) }
{
    is_escape(atom) && (is_at('-', text) && is_at('-', rest(text)))
}

#[tactic(auto, unfolding(pattern_model::specs::Classes::makes_range))]
fn makes_range(text: &str) -> bool
    ensures { result ≡ makes_range (chars text.now) }
{
    is_at('-', text) && !is_at(']', rest(text))
}

/// Writes what one atom of a class begins, and tells where the last atom of it stands and what follows it. None where the text
/// begins with none.
fn write_part<'a>(
    out: &mut String,
    before: &str,
    text: &'a str,
) -> Result<Option<(&'a str, &'a str)>, AllocError>
    ensures part { IfOk result (λ o. IfSome o (λ p. AddsPart (string_bytes out.old) (string_bytes out.new)
        (chars before.now) (chars text.now) (chars p.0.now) (chars p.1.now))) }
    ensures none { IfOk result (λ o. IfNone o (class_part true (chars text.now) ≡ None)) }
    ensures len { IfOk result (λ o. IfSome o (λ p. length p.1.now < length text.now)) }
{
    let Some((atom, after)) = class_atom(text) else {
        return Ok(None);
    };
    write_atom(out, before, atom, text, after)?;
    if has_hyphens(atom, after) {
        let hyphen = rest(after);
        let end = rest(hyphen);
        write_atom(out, text, Atom::Code(45), after, hyphen)?;
        write_atom(out, after, Atom::Code(45), hyphen, end)?;
        return Ok(Some((hyphen, end)));
    }
    if !makes_range(after) {
        return Ok(Some((text, after)));
    }
    let last = rest(after);
    let Some((greatest, end)) = class_atom(last) else {
        return Ok(None);
    };
    out.push_str("-")?;
    write_atom(out, after, greatest, last, end)?;
    Ok(Some((last, end)))
}

/// Writes the items of a class, and tells what follows them.
fn write_items<'a>(out: &mut String, text: &'a str) -> Result<&'a str, AllocError>
    ensures items { IfOk result (λ end. (items : List Item) (y : Text) →
        class_items true (chars text.now) ≡ Some (items, y) →
        (w : Text) × (y ≡ chars end.now) × (is_at 93 y ≡ true) × WritesItems [] (chars text.now) y w
        × Adds (string_bytes out.old) (string_bytes out.new) w) }
    ensures len { IfOk result (λ end. length end.now ≤ length text.now) }
{
    let mut before = "";
    let mut left = text;
    while !is_at(']', left) {
        let Some((last, end)) = write_part(out, before, left)? else {
            return Ok(left);
        };
        before = last;
        left = end;
    }
    Ok(left)
}

/// Begins a class, behind its opening bracket, and tells where its items begin.
fn begin_class<'a>(out: &mut String, text: &'a str) -> Result<&'a str, AllocError>
    ensures begins { IfOk result (λ x. (chars x.now ≡ inside (chars text.now))
        × Adds (string_bytes out.old) (string_bytes out.new) (opening (chars text.now))) }
    ensures len { IfOk result (λ x. length x.now ≤ length text.now) }
{
    if is_at('^', text) {
        out.push_str("[^")?;
        Ok(rest(text))
    } else {
        out.push_str("[")?;
        Ok(text)
    }
}

/// Writes a class, behind its opening bracket, and tells what follows it.
pub(crate) fn write_class<'a>(out: &mut String, text: &'a str) -> Result<&'a str, AllocError>
    ensures class { IfOk result (λ end. (t : Token) (y : Text) →
        class_from true (chars text.now) ≡ Some (t, y) →
        (w : Text) × (y ≡ chars end.now) × WritesClass (chars text.now) y w
        × Adds (string_bytes out.old) (string_bytes out.new) w) }
    ensures len { IfOk result (λ end. length end.now ≤ length text.now) }
{
    let items = begin_class(out, text)?;
    let end = write_items(out, items)?;
    out.push_str("]")?;
    Ok(rest(end))
}
