//! The first characters of a text.

ghost use Rattle.std.specs.Prelude.{◌≡◌, ◌<◌, ◌≤◌, [], ◌∷◌, length, drop, MatchOption};
ghost use Rattle.std.specs.Str.{chars};
ghost use Rattle.pattern_model.specs.Text.{is_at};

/// The first character, and what follows it.
pub(crate) fn split_first(text: &str) -> Option<(char, &str)>
    ensures { MatchOption result (chars text.now ≡ [])
        (λ p. (chars text.now ≡ p.0 ∷ chars p.1.now) × (length p.1.now < length text.now)) }
{
    let mut chars = text.chars();
    match chars.next() {
        Some(c) => Some((c, chars.as_str())),
        None => None,
    }
}

pub(crate) fn is_at(c: char, text: &str) -> bool
    ensures { result ≡ is_at c (chars text.now) }
{
    match split_first(text) {
        None => false,
        Some((d, _)) => d == c,
    }
}

/// What follows the first character.
pub(crate) fn rest(text: &str) -> &str
    ensures value { chars result.now ≡ drop 1 (chars text.now) }
    ensures len { length result.now ≤ length text.now }
{
    match split_first(text) {
        None => text,
        Some((_, rest)) => rest,
    }
}
