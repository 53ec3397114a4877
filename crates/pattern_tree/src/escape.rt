//! Escapes, properties and names.

ghost use Rattle.std.specs.Prelude.{◌≡◌, ◌+◌, ◌<◌, ◌≤◌, ◌^◌, [], ◌∷◌, ◌++◌, length, drop, IfOk, IfSome, option_map, string_bytes, encode_utf8};
ghost use Rattle.std.specs.Str.{chars};
ghost use Rattle.ucd_category.specs.declared.GeneralCategory.{GeneralCategory};
ghost use Rattle.pattern_model.specs.Text.{with_front};
ghost use Rattle.pattern_model.specs.Letters.{is_number, is_alphanumeric, is_ascii_letter};
ghost use Rattle.pattern_model.specs.Escapes.{control, itself, character_escape, class_escape};
ghost use Rattle.pattern_model.specs.Properties.{is_word, word_at, past_word, word, property_end, past_property};
ghost use Rattle.pattern_model.specs.GroupNames.{is_scalar, name_character, starts_name, goes_on_name, name_start, name_part, name_parts, name};
ghost use Rattle.pattern_tree.specs.Nodes.{escape_of};

use crate::class_item::ClassEscape;
use crate::number::{digit_at, hex_two, unicode_escape};
use crate::text::{is_at, past, rest, split_first};
use std::alloc::{AllocError, Global};
use unicode::properties::{GeneralCategory, is_alphabetic};

fn is_number(category: GeneralCategory) -> bool
    ensures { result ≡ is_number category }
{
    matches!(
        category,
        GeneralCategory::DecimalNumber
            | GeneralCategory::LetterNumber
            | GeneralCategory::OtherNumber
    )
}

#[tactic(auto, unfolding(pattern_model::specs::Letters::is_alphanumeric))]
fn is_alphanumeric(c: char) -> bool
    ensures { result ≡ is_alphanumeric c }
{
    is_alphabetic(c) || is_number(GeneralCategory::for_char(c))
}

fn is_ascii_letter(c: char) -> bool
    ensures { result ≡ is_ascii_letter c }
{
    c.is_ascii_alphabetic()
}

#[tactic(auto, unfolding(pattern_model::specs::Escapes::control))]
fn control(x: &str) -> Option<(u32, &str)>
    ensures value { control (chars x.now) ≡ option_map (λ p. (p.0, chars p.1.now)) result }
    ensures small { IfSome result (λ p. p.0 < 1114112) }
    ensures len { IfSome result (λ p. length p.1.now ≤ length x.now) }
{
    let (c, after) = split_first(x)?;
    if is_ascii_letter(c) {
        Some((u32::from(c) % 32, after))
    } else {
        None
    }
}

fn itself(c: char, x: &str) -> Option<(u32, &str)>
    ensures value { itself c (chars x.now) ≡ option_map (λ p. (p.0, chars p.1.now)) result }
    ensures small { IfSome result (λ p. p.0 < 1114112) }
    ensures len { IfSome result (λ p. length p.1.now ≤ length x.now) }
{
    if is_alphanumeric(c) {
        None
    } else {
        Some((u32::from(c), x))
    }
}

/// The code point of an escape, whose character after the backslash is `c`.
#[tactic(auto, unfolding(pattern_model::specs::Escapes::character_escape))]
pub(crate) fn character_escape(c: char, x: &str) -> Option<(u32, &str)>
    ensures value { character_escape c (chars x.now)
        ≡ option_map (λ p. (p.0, chars p.1.now)) result }
    ensures small { IfSome result (λ p. p.0 < 1114112) }
    ensures len { IfSome result (λ p. length p.1.now ≤ length x.now) }
{
    match c {
        'f' => Some((12, x)),
        'n' => Some((10, x)),
        'r' => Some((13, x)),
        't' => Some((9, x)),
        'v' => Some((11, x)),
        'c' => control(x),
        '0' => { if digit_at(x) { None } else { Some((0, x)) } }
        'x' => hex_two(x),
        'u' => unicode_escape(x),
        c => itself(c, x),
    }
}

#[tactic(auto, unfolding(pattern_model::specs::Escapes::class_escape))]
pub(crate) fn class_escape(c: char) -> Option<ClassEscape>
    ensures { class_escape c ≡ option_map escape_of result }
{
    match c {
        'd' => Some(ClassEscape::Digit),
        'D' => Some(ClassEscape::NotDigit),
        's' => Some(ClassEscape::Space),
        'S' => Some(ClassEscape::NotSpace),
        'w' => Some(ClassEscape::Word),
        'W' => Some(ClassEscape::NotWord),
        _ => None,
    }
}

fn is_word(c: char) -> bool
    ensures { result ≡ is_word c }
{
    c.is_ascii_alphabetic() || (c.is_ascii_digit() || c == '_')
}

fn word_at(x: &str) -> bool
    ensures { result ≡ word_at (chars x.now) }
{
    match split_first(x) {
        None => false,
        Some((c, _)) => is_word(c),
    }
}

fn past_word(x: &str) -> &str
    ensures value { chars result.now ≡ past_word (chars x.now) }
    ensures len { length result.now ≤ length x.now }
{
    let mut after = x;
    while let Some((c, next)) = split_first(after) {
        if !is_word(c) {
            return after;
        }
        after = next;
    }
    after
}

/// What follows a word.
#[tactic(auto, unfolding(pattern_model::specs::Properties::word))]
fn word(x: &str) -> Option<&str>
    ensures value { word (chars x.now) ≡ option_map (λ y. chars y.now) result }
    ensures len { IfSome result (λ y. length y.now ≤ length x.now) }
{
    if word_at(x) { Some(past_word(x)) } else { None }
}

fn property_end(x: &str) -> Option<&str>
    ensures value { property_end (chars x.now) ≡ option_map (λ y. chars y.now) result }
    ensures len { IfSome result (λ y. length y.now ≤ length x.now) }
{
    if !is_at('=', x) {
        return past('}', x);
    }
    let after = word(rest(x))?;
    past('}', after)
}

/// What follows a property, after its `p` or `P`.
#[tactic(auto, unfolding(pattern_model::specs::Properties::past_property))]
pub(crate) fn past_property(x: &str) -> Option<&str>
    ensures value { past_property (chars x.now) ≡ option_map (λ y. chars y.now) result }
    ensures len { IfSome result (λ y. length y.now ≤ length x.now) }
{
    if !is_at('{', x) {
        return None;
    }
    let after = word(rest(x))?;
    property_end(after)
}

/// A character of a name.
#[tactic(auto, unfolding(pattern_model::specs::GroupNames::name_character))]
fn name_character(x: &str) -> Option<(char, &str)>
    ensures value { name_character (chars x.now) ≡ option_map (λ p. (p.0, chars p.1.now)) result }
    ensures len { IfSome result (λ p. length p.1.now < length x.now) }
{
    let (c, after) = split_first(x)?;
    if c != '\\' {
        return Some((c, after));
    }
    if !is_at('u', after) {
        return None;
    }
    let (code, after) = unicode_escape(rest(after))?;
    let c = char::from_u32(code)?;
    Some((c, after))
}

fn starts_name(c: char) -> bool
    ensures { result ≡ starts_name c }
{
    is_alphabetic(c) || (c == '$' || c == '_')
}

fn goes_on_name(c: char) -> bool
    ensures { result ≡ goes_on_name c }
{
    is_alphanumeric(c) || ((c == '$' || c == '_') || (c == '\u{200C}' || c == '\u{200D}'))
}

/// The first character of a name.
#[tactic(auto, unfolding(pattern_model::specs::GroupNames::name_start))]
fn name_start(x: &str) -> Option<(char, &str)>
    ensures value { name_start (chars x.now)
        ≡ option_map (λ p. (encode_utf8 p.0, chars p.1.now)) result }
    ensures len { IfSome result (λ p. length p.1.now < length x.now) }
{
    let (c, after) = name_character(x)?;
    if starts_name(c) {
        Some((c, after))
    } else {
        None
    }
}

/// A further character of a name.
#[tactic(auto, unfolding(pattern_model::specs::GroupNames::name_part))]
fn name_part(x: &str) -> Option<(char, &str)>
    ensures value { name_part (chars x.now)
        ≡ option_map (λ p. (encode_utf8 p.0, chars p.1.now)) result }
    ensures len { IfSome result (λ p. length p.1.now < length x.now) }
{
    let (c, after) = name_character(x)?;
    if goes_on_name(c) {
        Some((c, after))
    } else {
        None
    }
}

/// Adds the further characters of a name, up to its closing bracket.
fn name_parts<'a>(name: &mut String, x: &'a str) -> Result<Option<&'a str>, AllocError>
    ensures value { IfOk result (λ o.
        with_front (string_bytes name.old) (name_parts (chars x.now)) ≡ option_map (λ y.
        (string_bytes name.new, chars y.now)) o) }
    ensures len { IfOk result (λ o. IfSome o (λ y. length y.now ≤ length x.now)) }
{
    let mut after = x;
    while !is_at('>', after) {
        let Some((c, next)) = name_part(after) else {
            return Ok(None);
        };
        name.push(c)?;
        after = next;
    }
    Ok(Some(after))
}

/// A name and its closing bracket.
#[tactic(auto, unfolding(pattern_model::specs::GroupNames::name))]
pub(crate) fn name(alloc: Global, x: &str) -> Result<Option<(String, &str)>, AllocError>
    ensures value { IfOk result (λ o.
        name (chars x.now) ≡ option_map (λ p. (string_bytes p.0, chars p.1.now)) o) }
    ensures len { IfOk result (λ o. IfSome o (λ p. length p.1.now ≤ length x.now)) }
{
    let Some((first, after)) = name_start(x) else {
        return Ok(None);
    };
    let mut name = String::new(alloc);
    name.push(first)?;
    match name_parts(&mut name, after)? {
        None => Ok(None),
        Some(after) => Ok(Some((name, rest(after)))),
    }
}
