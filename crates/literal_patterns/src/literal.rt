//! Literals, from the front of a text.

ghost use Rattle.std.specs.Prelude.{◌≡◌, ◌<◌, ◌≤◌, ◌++◌, length, MatchOption, IfOk, true};
ghost use Rattle.std.specs.List.{list_all};
ghost use Rattle.std.specs.Str.{chars};
ghost use Rattle.std.specs.String.{string_bytes};
ghost use Rattle.std.specs.Cow.{cow_str_bytes};
ghost use Rattle.pattern_model.specs.Text.{Text};
ghost use Rattle.pattern_model.specs.Literals.{is_bare, is_escaped, Literal, Literals};
ghost use Rattle.literal_patterns.specs.inner.Runs.{Stops, Run};

use crate::text::split_first;
use std::alloc::{AllocError, Global};
use std::borrow::CowStr;

fn is_bare(c: char) -> bool
    ensures { result ≡ is_bare c }
{
    c.is_ascii_alphanumeric() || matches!(c, '-' | '_' | '/')
}

fn is_escaped(c: char) -> bool
    ensures { result ≡ is_escaped c }
{
    matches!(c, '/' | '-' | '_' | '$' | '.')
}

/// The literal that the text begins with, as the character that it stands for, and what follows it.
fn split_literal(text: &str) -> Option<(char, &str)>
    ensures { MatchOption result (Stops (chars text.now)) (λ p.
        Literal (chars text.now) p.0 (chars p.1.now) × (length p.1.now < length text.now)) }
{
    match split_first(text) {
        Some(('\\', after)) => match split_first(after) {
            Some((c, rest)) if is_escaped(c) => Some((c, rest)),
            _ => None,
        },
        Some((c, rest)) if is_bare(c) => Some((c, rest)),
        _ => None,
    }
}

/// The literals of one character that the text begins with, and what follows them.
fn split_bare(text: &str) -> (&str, &str)
    ensures whole { text.now ≡ result.0.now ++ result.1.now }
    ensures bare { list_all is_bare result.0.now ≡ true }
{
    let mut rest = text;
    while let Some((c, after)) = split_first(rest) {
        if !is_bare(c) {
            break;
        }
        rest = after;
    }
    text.split_at(text.len() - rest.len())
}

/// Appends what the literals stand for that the text begins with, and hands back what follows them.
fn append_literals<'a>(into: &mut String, text: &'a str) -> Result<&'a str, AllocError>
    ensures { IfOk result (λ rest. (w : Text) × Run (chars text.now) w (chars rest.now)
        × (string_bytes into.new ≡ string_bytes into.old ++ w) × (length rest.now ≤ length text.now)) }
{
    let mut rest = text;
    while let Some((c, after)) = split_literal(rest) {
        into.push(c)?;
        rest = after;
    }
    Ok(rest)
}

/// What all the literals stand for that the text begins with, and what follows them. The text is borrowed where none of them is
/// an escape.
pub(crate) fn split_literals(alloc: Global, text: &str) -> Result<(CowStr<'_>, &str), AllocError>
    ensures { IfOk result (λ p. Run (chars text.now) (cow_str_bytes p.0) (chars p.1.now)
        × (length p.1.now ≤ length text.now)) }
{
    let (bare, rest) = split_bare(text);
    match split_literal(rest) {
        None => Ok((CowStr::Borrowed(bare), rest)),
        Some((c, after)) => {
            let mut literals = String::from_str(alloc, bare)?;
            literals.push(c)?;
            let rest = append_literals(&mut literals, after)?;
            Ok((CowStr::Owned(literals), rest))
        }
    }
}
