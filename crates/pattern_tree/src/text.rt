//! The first characters of a text.

ghost use Rattle.std.specs.Prelude.{◌≡◌, ◌<◌, ◌≤◌, [], ◌∷◌, length, drop, MatchOption, option_map, IfSome};
ghost use Rattle.std.specs.Str.{chars};
ghost use Rattle.pattern_model.specs.Text.{is_at, past};

pub(crate) fn split_first(text: &str) -> Option<(char, &str)>
    ensures { MatchOption result (chars text.now ≡ [])
        (λ p. (chars text.now ≡ p.0 ∷ chars p.1.now) × (length p.1.now < length text.now)) }
{
    let mut chars = text.chars();
    match chars.next() {
        Some(c) => Some((c, chars.as_str())),
        None => None,
    }
}

pub(crate) fn is_at(c: char, x: &str) -> bool
    ensures { result ≡ is_at c (chars x.now) }
{
    match split_first(x) {
        None => false,
        Some((d, _)) => d == c,
    }
}

/// What follows the first character.
pub(crate) fn rest(x: &str) -> &str
    ensures value { chars result.now ≡ drop 1 (chars x.now) }
    ensures len { length result.now ≤ length x.now }
{
    match split_first(x) {
        None => x,
        Some((_, rest)) => rest,
    }
}

/// What follows the character, if it stands here.
pub(crate) fn past(c: char, x: &str) -> Option<&str>
    ensures value { past c (chars x.now) ≡ option_map (λ y. chars y.now) result }
    ensures len { IfSome result (λ y. length y.now ≤ length x.now) }
{
    if is_at(c, x) { Some(rest(x)) } else { None }
}
