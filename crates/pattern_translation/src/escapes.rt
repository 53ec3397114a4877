//! Escapes that have no translation.

ghost use Rattle.std.specs.Prelude.{◌≡◌, Bool, true, false, not, ◌&&◌, ◌||◌, ◌==◌, drop, option_map, if◌then◌else◌};
ghost use Rattle.std.specs.Str.{chars};
ghost use Rattle.pattern_model.specs.Text.{is_at};
ghost use Rattle.pattern_model.specs.Digits.{hex};
ghost use Rattle.pattern_model.specs.CodePoints.{code_point};
ghost use Rattle.rust_pattern_model.specs.Refusals.{is_surrogate, names_surrogate, is_other_escape, has_other_escape};

use crate::text::{is_at, rest, split_first};
use pattern_tree::lexer::{code_point, hex_four};

fn is_surrogate(number: u32) -> bool
    ensures { result ≡ is_surrogate number }
{
    0xD800 <= number && number <= 0xDFFF
}

/// The number that follows `\u`, if there is one.
fn unicode_number(text: &str) -> Option<(u32, &str)>
    ensures { (if is_at 123 (chars text.now) then code_point (drop 1 (chars text.now)) else hex 4 (chars text.now))
        ≡ option_map (λ p. (p.0, chars p.1.now)) result }
{
    if is_at('{', text) {
        code_point(rest(text))
    } else {
        hex_four(text)
    }
}

fn names_surrogate(text: &str) -> bool
    ensures { result ≡ names_surrogate (chars text.now) }
{
    match unicode_number(text) {
        Some((number, _)) => is_surrogate(number),
        None => false,
    }
}

/// Whether an escape has no translation, over what follows its backslash.
fn is_other_escape(in_class: bool, text: &str) -> bool
    ensures { result ≡ is_other_escape in_class (chars text.now) }
{
    match split_first(text) {
        None => false,
        Some((d, after)) => {
            d >= '\u{80}' || ((in_class && d == 'b') || (d == 'u' && names_surrogate(after)))
        }
    }
}

/// Whether an escape of the pattern has no translation.
pub(crate) fn has_other_escape(text: &str) -> bool
    ensures { result ≡ has_other_escape false (chars text.now) }
{
    let mut left = text;
    let mut in_class = false;
    while let Some((c, after)) = split_first(left) {
        if c == '\\' {
            if is_other_escape(in_class, after) {
                return true;
            }
            left = rest(after);
        } else {
            in_class = if in_class { c != ']' } else { c == '[' };
            left = after;
        }
    }
    false
}
