//! Writes escapes, code points and class atoms for Rust.

ghost use Rattle.std.specs.Prelude.{◌≡◌, ℕ, Bool, List, ◌∷◌, ◌++◌, ◌&&◌, ◌||◌, drop, codes, if◌then◌else◌, IfOk, string_bytes};
ghost use Rattle.std.specs.Str.{chars};
ghost use Rattle.pattern_model.specs.Text.{Text, is_at};
ghost use Rattle.pattern_tree.specs.Nodes.{escape_of, atom_of};
ghost use Rattle.rust_pattern_model.specs.Written.{spaces, escape_written, is_escape, control_of, code_written, gets_backslash, atom_written};
ghost use Rattle.pattern_translation.specs.inner.Adding.{Adds};

use crate::text::{is_at, rest, split_first};
use pattern_tree::ClassEscape;
use pattern_tree::lexer::Atom;
use std::alloc::AllocError;

/// Copies what stands before `end`, with which the text ends.
pub(crate) fn copy(out: &mut String, text: &str, end: &str) -> Result<(), AllocError>
    ensures { IfOk result (λ _. (own : Text) → chars text.now ≡ own ++ chars end.now →
        Adds (string_bytes out.old) (string_bytes out.new) own) }
{
    let mut left = text;
    while let Some((c, after)) = split_first(left) {
        if left.len() <= end.len() {
            return Ok(());
        }
        out.push(c)?;
        left = after;
    }
    Ok(())
}

pub(crate) fn write_escape(out: &mut String, escape: ClassEscape) -> Result<(), AllocError>
    ensures { IfOk result (λ _.
        Adds (string_bytes out.old) (string_bytes out.new) (escape_written (escape_of escape))) }
{
    match escape {
        ClassEscape::Digit => out.push_str("[0-9]"),
        ClassEscape::NotDigit => out.push_str("[^0-9]"),
        ClassEscape::Word => {
            out.push_str("[A-Za-z0-9_]")?;
            Ok(())
        }
        ClassEscape::NotWord => {
            out.push_str("[^A-Za-z0-9_]")?;
            Ok(())
        }
        ClassEscape::Space => {
            out.push_str("[")?;
            write_spaces(out)
        }
        ClassEscape::NotSpace => {
            out.push_str("[^")?;
            write_spaces(out)
        }
    }
}

/// The ranges of white space, and the bracket that closes them.
fn write_spaces(out: &mut String) -> Result<(), AllocError>
    ensures { IfOk result (λ _.
        Adds (string_bytes out.old) (string_bytes out.new) (spaces ++ codes "]")) }
{
    out.push_str(
        "\\x{9}-\\x{d}\\x{20}-\\x{20}\\x{a0}-\\x{a0}\\x{1680}-\\x{1680}\\x{2000}-\\x{200a}\\x{2028}-\\x{2029}\\x{202f}-\\x{202f}\\x{205f}-\\x{205f}\\x{3000}-\\x{3000}\\x{feff}-\\x{feff}]",
    )?;
    Ok(())
}

/// Whether the text begins with a backslash and this character.
fn is_escape(c: char, text: &str) -> bool
    ensures { result ≡ is_escape c (chars text.now) }
{
    is_at('\\', text) && is_at(c, rest(text))
}

/// The control character of the letter that the text begins with.
fn write_control(out: &mut String, text: &str) -> Result<(), AllocError>
    ensures { IfOk result (λ _.
        Adds (string_bytes out.old) (string_bytes out.new) (control_of (chars text.now))) }
{
    match split_first(text) {
        None => Ok(()),
        Some((c, _)) => out.push(char::from((u32::from(c) % 32) as u8)),
    }
}

/// Writes a code point, which the text begins with and `end` follows.
pub(crate) fn write_code(out: &mut String, text: &str, end: &str) -> Result<(), AllocError>
    ensures { IfOk result (λ _. (own : Text) → chars text.now ≡ own ++ chars end.now →
        Adds (string_bytes out.old) (string_bytes out.new) (code_written (chars text.now) own)) }
{
    if is_escape('c', text) {
        return write_control(out, rest(rest(text)));
    }
    if is_escape('0', text) {
        return out.push_str("\\x00");
    }
    if is_escape('<', text) {
        return out.push_str("<");
    }
    if is_escape('>', text) {
        return out.push_str(">");
    }
    copy(out, text, end)
}

/// Whether the plain character that the text begins with gets a backslash, between `before` and `end`.
fn gets_backslash(before: &str, text: &str, end: &str) -> bool
    ensures { result ≡ gets_backslash (chars before.now) (chars text.now) (chars end.now) }
{
    is_at('[', text)
        || ((is_at('&', text) && (is_at('&', before) || is_at('&', end)))
            || ((is_at('~', text) && (is_at('~', before) || is_at('~', end)))
                || (is_at('-', text)
                    && (is_at('-', before) || (is_escape('-', before) || is_at('-', end))))))
}

/// Writes an atom of a class, which the text begins with and `end` follows.
pub(crate) fn write_atom(
    out: &mut String,
    before: &str,
    atom: Atom,
    text: &str,
    end: &str,
) -> Result<(), AllocError>
    ensures { IfOk result (λ _. (own : Text) → chars text.now ≡ own ++ chars end.now →
        Adds (string_bytes out.old) (string_bytes out.new)
        (atom_written (chars before.now) (atom_of atom) (chars text.now) own (chars end.now))) }
{
    match atom {
        Atom::Escape(escape) => write_escape(out, escape),
        Atom::Property { negated: _ } => copy(out, text, end),
        Atom::Code(_) => {
            if gets_backslash(before, text, end) {
                out.push_str("\\")?;
                copy(out, text, end)
            } else {
                write_code(out, text, end)
            }
        }
    }
}
