//! The first characters of a text.

ghost use Rattle.std.specs.Prelude.{◌≡◌, ◌<◌, ◌++◌, ◌↔◌, [], ◌∷◌, length, encode_utf8, MatchOption, IsTrue};
ghost use Rattle.std.specs.Str.{chars};
ghost use Rattle.pattern_model.specs.Text.{Text};

/// The first character, and what follows it.
pub(crate) fn split_first(text: &str) -> Option<(char, &str)>
    ensures { MatchOption result (chars text.now ≡ []) (λ p.
        (text.now ≡ encode_utf8 p.0 ++ p.1.now) × (chars text.now ≡ p.0 ∷ chars p.1.now)
        × (length p.1.now < length text.now)) }
{
    let mut chars = text.chars();
    match chars.next() {
        Some(c) => Some((c, chars.as_str())),
        None => None,
    }
}

/// What follows the character, if the text begins with it.
pub(crate) fn past(c: char, text: &str) -> Option<&str>
    ensures { MatchOption result ((y : Text) → chars text.now ≡ c ∷ y → ⊥) (λ rest.
        (chars text.now ≡ c ∷ chars rest.now) × (length rest.now < length text.now)) }
{
    match split_first(text) {
        Some((d, rest)) if d == c => Some(rest),
        _ => None,
    }
}

/// Whether two texts are one.
pub(crate) fn is(text: &str, other: &str) -> bool
    ensures { IsTrue result ↔ (chars text.now ≡ chars other.now) }
{
    text == other
}

/// Whether a text begins with another.
pub(crate) fn begins(text: &str, front: &str) -> bool
    ensures { IsTrue result ↔ ((rest : Text) × (chars text.now ≡ chars front.now ++ rest)) }
{
    text.starts_with(front)
}
