//! Writes whole patterns for Rust.

ghost use Rattle.std.specs.Prelude.{◌≡◌, ◌<◌, ◌≤◌, ℕ, List, ◌∷◌, ◌++◌, ◌==◌, length, codes, Some, true, false, IfOk, IfSome, IfNone, string_bytes};
ghost use Rattle.std.specs.Str.{chars};
ghost use lib.Utf8.{encodes};
ghost use Rattle.pattern_model.specs.Text.{Text};
ghost use Rattle.pattern_model.specs.Tree as tree;
ghost use Rattle.pattern_model.specs.Tokens.{token_from, Reads};
ghost use Rattle.pattern_tree.specs.Nodes.{escape_of, leaf_of, mark_of, token_of, IsRefused};
ghost use Rattle.rust_pattern_model.specs.Written.{escape_written, code_written};
ghost use Rattle.rust_pattern_model.specs.Translation.{leaf_written, mark_written, token_written, WritesToken, Writes};
ghost use Rattle.pattern_translation.specs.inner.Adding.{Adds, AddsToken, refers_in};

use crate::class::write_class;
use crate::text::split_first;
use crate::written::{copy, write_code, write_escape};
use pattern_tree::lexer::{Mark, Single, Token, token_from};
use std::alloc::{AllocError, Global};

fn write_leaf(out: &mut String, leaf: &Single, text: &str, end: &str) -> Result<(), AllocError>
    ensures { IfOk result (λ _. (own : Text) → chars text.now ≡ own ++ chars end.now →
        Adds (string_bytes out.old) (string_bytes out.new) (leaf_written (leaf_of leaf.now) (chars text.now) own)) }
{
    match leaf {
        Single::Escape(escape) => write_escape(out, *escape),
        Single::Code(_) => write_code(out, text, end),
        Single::Dot => copy(out, text, end),
        Single::Start => copy(out, text, end),
        Single::End => copy(out, text, end),
        Single::Boundary => copy(out, text, end),
        Single::NotBoundary => copy(out, text, end),
        Single::Class(_, _) => copy(out, text, end),
        Single::Property(_) => copy(out, text, end),
        Single::BackNumber(_) => copy(out, text, end),
        Single::BackName(_) => copy(out, text, end),
    }
}

/// The beginning of a group that has a name.
fn write_name(out: &mut String, name: &str) -> Result<(), AllocError>
    ensures { IfOk result (λ _.
        Adds (string_bytes out.old) (string_bytes out.new) (codes "(?<" ++ (chars name.now ++ codes ">"))) }
{
    out.push_str("(?<")?;
    out.push_str(name)?;
    out.push_str(">")?;
    Ok(())
}

fn write_mark(out: &mut String, mark: &Mark, text: &str, end: &str) -> Result<(), AllocError>
    ensures { IfOk result (λ _. (own : Text) → chars text.now ≡ own ++ chars end.now →
        Adds (string_bytes out.old) (string_bytes out.new) (mark_written (mark_of mark.now) own)) }
{
    match mark {
        Mark::Named(name) => write_name(out, name.as_str()),
        Mark::Capture => copy(out, text, end),
        Mark::Plain => copy(out, text, end),
        Mark::Modified => copy(out, text, end),
        Mark::Ahead => copy(out, text, end),
        Mark::NotAhead => copy(out, text, end),
        Mark::Behind => copy(out, text, end),
        Mark::NotBehind => copy(out, text, end),
    }
}

/// Writes a token that is no class, which the text begins with and `end` follows.
fn write_token(out: &mut String, token: &Token, text: &str, end: &str) -> Result<(), AllocError>
    ensures { IfOk result (λ _. (own : Text) → chars text.now ≡ own ++ chars end.now →
        Adds (string_bytes out.old) (string_bytes out.new) (token_written (token_of token.now) (chars text.now) own)) }
{
    match token {
        Token::Single(leaf) => write_leaf(out, leaf, text, end),
        Token::Opens(mark) => write_mark(out, mark, text, end),
        Token::Closes => copy(out, text, end),
        Token::Bar => copy(out, text, end),
        Token::Times(_) => copy(out, text, end),
    }
}

/// Writes the token that a text begins with, and tells what follows it. The text is the character `c` and what is `after` it. None
/// where it begins with none, or with a back-reference whose number no group has.
fn write_next<'a>(
    alloc: Global,
    out: &mut String,
    text: &str,
    c: char,
    after: &'a str,
) -> Result<Option<&'a str>, AllocError>
    requires { chars text.now ≡ c ∷ chars after.now }
    ensures token { IfOk result (λ o. IfSome o (λ end.
        AddsToken (string_bytes out.old) (string_bytes out.new) c (chars after.now) (chars end.now))) }
    ensures none { IfOk result (λ o. IfNone o (IsRefused (token_from true c (chars after.now)))) }
    ensures len { IfOk result (λ o. IfSome o (λ end. length end.now ≤ length after.now)) }
{
    if c == '[' {
        let end = write_class(out, after)?;
        return Ok(Some(end));
    }
    let Some((token, end)) = token_from(alloc, true, after.len(), c, after)? else {
        return Ok(None);
    };
    write_token(out, &token, text, end)?;
    Ok(Some(end))
}

/// The text for Rust of a pattern that has no back-reference.
pub(crate) fn write_pattern(alloc: Global, pattern: &str) -> Result<String, AllocError>
    ensures { IfOk result (λ s. (ts : List tree.Token) → Reads true (chars pattern.now) ts → refers_in ts ≡ false →
        (w : Text) × Writes (chars pattern.now) ts w × (string_bytes s ≡ encodes w)) }
{
    let mut out = String::new(alloc);
    let mut left = pattern;
    while let Some((c, after)) = split_first(left) {
        let Some(end) = write_next(alloc, &mut out, left, c, after)? else {
            return Ok(out);
        };
        left = end;
    }
    Ok(out)
}
