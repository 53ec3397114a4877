//! Trees of patterns.

ghost use Rattle.std.specs.Prelude.{◌≡◌, map, true};
ghost use Rattle.std.specs.List.{list_all};
ghost use Rattle.pattern_model.specs.Members.{is_no_property};
ghost use Rattle.pattern_tree.specs.Nodes.{form_item, item_of};

use pattern_tree::{ClassForm, ClassItem, Form, NodeId, Pattern, read_ecma, read_widened};
use std::alloc::Global;

fn is_no_property(form: ClassForm) -> bool
    ensures { result ≡ is_no_property (form_item form) }
{
    !matches!(form, ClassForm::Property { .. })
}

fn have_no_property(items: &[ClassItem]) -> bool
    ensures { result ≡ true → list_all is_no_property (map item_of items.now) ≡ true }
{
    for item in items {
        if !is_no_property(item.form) {
            return false;
        }
    }
    true
}

// Whether the pattern has the character as a member, where it is a class escape, or a class without property escapes.
fn member(pattern: &Pattern, c: char) -> Option<bool> {
    let root = pattern.root();
    match pattern.form(root) {
        Form::Escape(_) => Some(pattern.class_has(root, u32::from(c))),
        Form::Class { negated: _ } => {
            if have_no_property(pattern.items(root)) {
                Some(pattern.class_has(root, u32::from(c)))
            } else {
                None
            }
        }
        _ => None,
    }
}

// The parts of a sequence, each with its form, place and name.
fn show_parts(alloc: Global, pattern: &Pattern) -> Option<String> {
    match pattern.form(pattern.root()) {
        Form::Sequence { left, right } => {
            let forms = (pattern.form(left), pattern.form(right));
            let spans = (pattern.span(left), pattern.span(right));
            format!(in alloc; " {forms:?} {spans:?} {:?}", pattern.name(left)).ok()
        }
        _ => Some(String::new(alloc)),
    }
}

// The pattern that a text of less than 2^30 bytes has for a reader.
fn read(alloc: Global, reader: &str, text: &str) -> Option<Option<Pattern>> {
    if text.len() >= 1 << 30 {
        return None;
    }
    if reader == "widened" {
        return read_widened(alloc, text).ok();
    }
    read_ecma(alloc, text).ok()
}

/// `READER CODE TEXT`: the root of a pattern with its place, name and items, whether the class has the code point, and the
/// parts of a sequence; `ecma` and `widened` are the readers.
pub(crate) fn pattern(alloc: Global, rest: &str) -> Option<String> {
    let (reader, rest) = rest.split_once(' ')?;
    let (code, text) = rest.split_once(' ').unwrap_or((rest, ""));
    match read(alloc, reader, text)? {
        Some(pattern) => describe(alloc, &pattern, code),
        None => String::from_str(alloc, "no pattern").ok(),
    }
}

// The root of a pattern, whether it has the character of a code, its items, and its parts.
fn describe(alloc: Global, pattern: &Pattern, code: &str) -> Option<String> {
    let has = member(
        pattern,
        char::from_u32(u32::from_str_radix(code, 16).ok()?)?,
    );
    let mut all = show_root(alloc, pattern)?;
    write!(all, " {has:?}").ok()?;
    for item in pattern.items(pattern.root()) {
        write!(all, " {item:?}").ok()?;
    }
    all.push_str(&show_parts(alloc, pattern)?).ok()?;
    Some(all)
}

// The root of a pattern, with its place and name.
fn show_root(alloc: Global, pattern: &Pattern) -> Option<String> {
    let root = pattern.root();
    let form = pattern.form(root);
    let span = pattern.span(root);
    format!(in alloc; "{form:?} {span:?} {:?}", pattern.name(root)).ok()
}
