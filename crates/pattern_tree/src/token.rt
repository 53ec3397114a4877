//! The tokens of a pattern.

ghost use Rattle.std.specs.Prelude.{◌≡◌, ◌+◌, ◌<◌, ◌≤◌, ◌^◌, ℕ, [], ◌∷◌, ◌++◌, length, drop, map, IfOk, OnOk, IfSome, IfNone, option_map, nat_le, ◌==◌, true, false};
ghost use Rattle.std.specs.Str.{chars};
ghost use Rattle.pattern_model.specs.Tokens as grammar;
ghost use Rattle.pattern_model.specs.Tokens.{token_from, class_from, back_name, property_leaf, escaped};
ghost use Rattle.pattern_model.specs.Quantifiers.{quantifier, most_from, after_comma, least_from, braces};
ghost use Rattle.pattern_model.specs.Groups.{flags, bracketed, marked, opening};
ghost use Rattle.pattern_model.specs.Digits as parts;
ghost use Rattle.pattern_model.specs.Escapes as escapes;
ghost use Rattle.pattern_model.specs.Tree.{count_of};
ghost use Rattle.pattern_tree.specs.Capped.{IsCapped};
ghost use Rattle.pattern_tree.specs.Nodes.{token_of, bounds_of, count_in, IsRefused};
ghost use Rattle.pattern_tree.specs.Spans.{PlacesItems};

use crate::class::class_items;
use crate::escape::{character_escape, class_escape, name, past_property};
use crate::form::Count;
use crate::node::{Counts, Mark, Single};
use crate::number::{at_most, count_of, digit_at, digits};
use crate::text::{is_at, rest, split_first};
use std::alloc::{AllocError, Global};

/// A token.
#[derive(Drop)]
pub enum Token {
    Single(Single),
    Opens(Mark),
    Closes,
    Bar,
    Times(Counts),
}

#[tactic(auto, unfolding(pattern_model::specs::Quantifiers::quantifier))]
fn quantifier(least: Count, most: Option<Count>, x: &str) -> (Token, &str)
    ensures value { quantifier (count_in least) (option_map count_in most) (chars x.now)
        ≡ (token_of result.0, chars result.1.now) }
    ensures len { length result.1.now ≤ length x.now }
{
    let lazy = is_at('?', x);
    let after = if lazy { rest(x) } else { x };
    (Token::Times(Counts { least, most, lazy }), after)
}

/// After the comma of a quantifier in braces, whose least count has the digits that `least` begins with.
#[tactic(auto, unfolding(pattern_model::specs::Quantifiers::after_comma))]
fn after_comma<'a>(number: u64, least: &str, x: &'a str) -> Option<(Token, &'a str)>
    requires { IsCapped number (parts.digits (chars least.now)).0 }
    ensures value { after_comma (parts.digits (chars least.now)).0 (chars x.now) ≡ option_map (λ p.
        (token_of p.0, chars p.1.now)) result }
    ensures len { IfSome result (λ p. length p.1.now ≤ length x.now) }
{
    if is_at('}', x) {
        return Some(quantifier(count_of(number), None, rest(x)));
    }
    if !digit_at(x) {
        return None;
    }
    let (most, after) = digits(x);
    if !at_most(least, x) || !is_at('}', after) {
        return None;
    }
    Some(quantifier(count_of(number), Some(count_of(most)), rest(after)))
}

/// After the opening brace of a quantifier.
#[tactic(auto, unfolding(pattern_model::specs::Quantifiers::braces))]
fn braces(x: &str) -> Option<(Token, &str)>
    ensures value { braces (chars x.now) ≡ option_map (λ p. (token_of p.0, chars p.1.now)) result }
    ensures len { IfSome result (λ p. length p.1.now ≤ length x.now) }
{
    if !digit_at(x) {
        return None;
    }
    let (number, after) = digits(x);
    if is_at('}', after) {
        let count = count_of(number);
        return Some(quantifier(count, Some(count), rest(after)));
    }
    if !is_at(',', after) {
        return None;
    }
    after_comma(number, x, rest(after))
}

/// What follows the flags of a group and their colon.
fn flags(x: &str) -> Option<&str>
    ensures value { flags (chars x.now) ≡ option_map (λ y. chars y.now) result }
    ensures len { IfSome result (λ y. length y.now ≤ length x.now) }
{
    let mut i = false;
    let mut m = false;
    let mut s = false;
    let mut hyphen = false;
    let mut after = x;
    while let Some((c, next)) = split_first(after) {
        match c {
            ':' => {
                return if i || (m || s) { Some(next) } else { None };
            }
            '-' => {
                if hyphen {
                    return None;
                }
                hyphen = true;
            }
            'i' => {
                if i {
                    return None;
                }
                i = true;
            }
            'm' => {
                if m {
                    return None;
                }
                m = true;
            }
            's' => {
                if s {
                    return None;
                }
                s = true;
            }
            _ => return None,
        }
        after = next;
    }
    None
}

/// After `(?<`.
#[tactic(auto, unfolding(pattern_model::specs::Groups::bracketed))]
fn bracketed(alloc: Global, x: &str) -> Result<Option<(Token, &str)>, AllocError>
    ensures value { IfOk result (λ o.
        bracketed (chars x.now) ≡ option_map (λ p. (token_of p.0, chars p.1.now)) o) }
    ensures len { IfOk result (λ o. IfSome o (λ p. length p.1.now ≤ length x.now)) }
{
    if is_at('=', x) {
        return Ok(Some((Token::Opens(Mark::Behind), rest(x))));
    }
    if is_at('!', x) {
        return Ok(Some((Token::Opens(Mark::NotBehind), rest(x))));
    }
    match name(alloc, x)? {
        None => Ok(None),
        Some((name, after)) => Ok(Some((Token::Opens(Mark::Named(name)), after))),
    }
}

/// After `(?`.
#[tactic(auto, unfolding(pattern_model::specs::Groups::marked))]
fn marked(alloc: Global, x: &str) -> Result<Option<(Token, &str)>, AllocError>
    ensures value { IfOk result (λ o.
        marked (chars x.now) ≡ option_map (λ p. (token_of p.0, chars p.1.now)) o) }
    ensures len { IfOk result (λ o. IfSome o (λ p. length p.1.now ≤ length x.now)) }
{
    if is_at(':', x) {
        return Ok(Some((Token::Opens(Mark::Plain), rest(x))));
    }
    if is_at('=', x) {
        return Ok(Some((Token::Opens(Mark::Ahead), rest(x))));
    }
    if is_at('!', x) {
        return Ok(Some((Token::Opens(Mark::NotAhead), rest(x))));
    }
    if is_at('<', x) {
        return bracketed(alloc, rest(x));
    }
    match flags(x) {
        None => Ok(None),
        Some(after) => Ok(Some((Token::Opens(Mark::Modified), after))),
    }
}

/// After the parenthesis of a group.
#[tactic(auto, unfolding(pattern_model::specs::Groups::opening))]
fn opening(alloc: Global, x: &str) -> Result<Option<(Token, &str)>, AllocError>
    ensures value { IfOk result (λ o.
        opening (chars x.now) ≡ option_map (λ p. (token_of p.0, chars p.1.now)) o) }
    ensures len { IfOk result (λ o. IfSome o (λ p. length p.1.now ≤ length x.now)) }
{
    if is_at('?', x) {
        marked(alloc, rest(x))
    } else {
        Ok(Some((Token::Opens(Mark::Capture), x)))
    }
}

/// After the bracket of a class.
#[tactic(auto, unfolding(pattern_model::specs::Tokens::class_from))]
fn class_from(
    alloc: Global,
    wide: bool,
    total: usize,
    x: &str,
) -> Result<Option<(Token, &str)>, AllocError>
    requires { length x.now ≤ total }
    ensures value { IfOk result (λ o.
        class_from wide (chars x.now) ≡ option_map (λ p. (token_of p.0, chars p.1.now)) o) }
    ensures items { IfOk result (λ o. IfSome o (λ p.
        PlacesItems total (91 ∷ chars x.now) p.0 (length p.1.now))) }
    ensures len { IfOk result (λ o. IfSome o (λ p. length p.1.now ≤ length x.now)) }
{
    let negated = is_at('^', x);
    let inside = if negated { rest(x) } else { x };
    match class_items(alloc, wide, total, inside)? {
        None => Ok(None),
        Some((items, after)) => Ok(Some((
            Token::Single(Single::Class(negated, items)),
            rest(after),
        ))),
    }
}

/// A back-reference by name, after its `k`.
#[tactic(auto, unfolding(pattern_model::specs::Tokens::back_name))]
fn back_name(alloc: Global, x: &str) -> Result<Option<(Token, &str)>, AllocError>
    ensures value { IfOk result (λ o.
        back_name (chars x.now) ≡ option_map (λ p. (token_of p.0, chars p.1.now)) o) }
    ensures len { IfOk result (λ o. IfSome o (λ p. length p.1.now ≤ length x.now)) }
{
    if !is_at('<', x) {
        return Ok(None);
    }
    match name(alloc, rest(x))? {
        None => Ok(None),
        Some((name, after)) => Ok(Some((Token::Single(Single::BackName(name)), after))),
    }
}

fn property_leaf(negated: bool, x: &str) -> Option<(Token, &str)>
    ensures value { property_leaf negated (chars x.now)
        ≡ option_map (λ p. (token_of p.0, chars p.1.now)) result }
    ensures len { IfSome result (λ p. length p.1.now ≤ length x.now) }
{
    let after = past_property(x)?;
    Some((Token::Single(Single::Property(negated)), after))
}

fn escape_or_code(c: char, x: &str) -> Option<(Token, &str)>
    ensures value { grammar.escape_or_code c (chars x.now) (escapes.class_escape c)
        ≡ option_map (λ p. (token_of p.0, chars p.1.now)) result }
    ensures len { IfSome result (λ p. length p.1.now ≤ length x.now) }
{
    if let Some(escape) = class_escape(c) {
        return Some((Token::Single(Single::Escape(escape)), x));
    }
    let (code, after) = character_escape(c, x)?;
    Some((Token::Single(Single::Code(code)), after))
}

/// A back-reference by number: none where the number is 2^32 or more, which no group has.
fn back_number(x: &str) -> Option<(Token, &str)>
    ensures some { IfSome result (λ p.
        grammar.leaf_of_number (parts.digits (chars x.now)) ≡ (token_of p.0, chars p.1.now)) }
    ensures none { IfNone result (4294967296 ≤ (parts.digits (chars x.now)).0) }
    ensures len { IfSome result (λ p. length p.1.now ≤ length x.now) }
{
    let (number, after) = digits(x);
    if number < 4_294_967_296 {
        Some((Token::Single(Single::BackNumber(number)), after))
    } else {
        None
    }
}

/// After a backslash.
#[tactic(auto, unfolding(pattern_model::specs::Tokens::escaped))]
fn escaped(alloc: Global, x: &str) -> Result<Option<(Token, &str)>, AllocError>
    ensures some { IfOk result (λ o. IfSome o (λ p.
        escaped (chars x.now) ≡ Some (token_of p.0, chars p.1.now))) }
    ensures none { IfOk result (λ o. IfNone o (IsRefused (escaped (chars x.now)))) }
    ensures len { IfOk result (λ o. IfSome o (λ p. length p.1.now ≤ length x.now)) }
{
    let Some((c, after)) = split_first(x) else {
        return Ok(None);
    };
    match c {
        'b' => Ok(Some((Token::Single(Single::Boundary), after))),
        'B' => Ok(Some((Token::Single(Single::NotBoundary), after))),
        'p' => Ok(property_leaf(false, after)),
        'P' => Ok(property_leaf(true, after)),
        'k' => back_name(alloc, after),
        '1'..='9' => Ok(back_number(x)),
        c => Ok(escape_or_code(c, after)),
    }
}

/// The token that begins with `c`, which is no bracket of a class, and what follows it. None where there is none, or a
/// back-reference whose number no group has.
#[tactic(auto, unfolding(pattern_model::specs::Tokens::token_from))]
fn plain_token(
    alloc: Global,
    wide: bool,
    c: char,
    x: &str,
) -> Result<Option<(Token, &str)>, AllocError>
    requires { (c == 91) ≡ false }
    ensures some { IfOk result (λ o. IfSome o (λ p.
        token_from wide c (chars x.now) ≡ Some (token_of p.0, chars p.1.now))) }
    ensures none { IfOk result (λ o. IfNone o (IsRefused (token_from wide c (chars x.now)))) }
    ensures len { IfOk result (λ o. IfSome o (λ p. length p.1.now ≤ length x.now)) }
{
    match c {
        '|' => Ok(Some((Token::Bar, x))),
        '(' => opening(alloc, x),
        ')' => Ok(Some((Token::Closes, x))),
        '*' => Ok(Some(quantifier(Count::Number(0), None, x))),
        '+' => Ok(Some(quantifier(Count::Number(1), None, x))),
        '?' => Ok(Some(quantifier(Count::Number(0), Some(Count::Number(1)), x))),
        '{' => Ok(braces(x)),
        '.' => Ok(Some((Token::Single(Single::Dot), x))),
        '^' => Ok(Some((Token::Single(Single::Start), x))),
        '$' => Ok(Some((Token::Single(Single::End), x))),
        '\\' => escaped(alloc, x),
        ']' | '}' => {
            if wide {
                Ok(Some((Token::Single(Single::Code(u32::from(c))), x)))
            } else {
                Ok(None)
            }
        }
        c => Ok(Some((Token::Single(Single::Code(u32::from(c))), x))),
    }
}

/// The token that begins with `c`, and what follows it, in a source of `total` bytes. None where there is none, or a
/// back-reference whose number no group has.
#[tactic(auto, unfolding(pattern_model::specs::Tokens::token_from))]
pub fn token_from(
    alloc: Global,
    wide: bool,
    total: usize,
    c: char,
    x: &str,
) -> Result<Option<(Token, &str)>, AllocError>
    requires { length x.now ≤ total }
    ensures some { IfOk result (λ o. IfSome o (λ p.
        token_from wide c (chars x.now) ≡ Some (token_of p.0, chars p.1.now))) }
    ensures none { IfOk result (λ o. IfNone o (IsRefused (token_from wide c (chars x.now)))) }
    ensures items { IfOk result (λ o. IfSome o (λ p.
        PlacesItems total (c ∷ chars x.now) p.0 (length p.1.now))) }
    ensures len { IfOk result (λ o. IfSome o (λ p. length p.1.now ≤ length x.now)) }
{
    if c == '[' {
        class_from(alloc, wide, total, x)
    } else {
        plain_token(alloc, wide, c, x)
    }
}
