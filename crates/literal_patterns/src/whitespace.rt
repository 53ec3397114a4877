//! Whitespace, as `\s` has it.

ghost use Rattle.std.specs.Prelude.{◌≡◌};
ghost use Rattle.std.specs.List.{list_any};
ghost use Rattle.std.specs.Str.{chars};
ghost use Rattle.pattern_model.specs.Members.{is_space, is_within};

fn is_within(first: char, last: char, c: char) -> bool
    ensures { result ≡ is_within first last c }
{
    first <= c && c <= last
}

/// Whether the character is one that `\s` matches: WhiteSpace or LineTerminator (ECMA-262, sections 12.2 and 12.3). These are the
/// code points U+0009 to U+000D, U+0020, U+00A0, U+1680, U+2000 to U+200A, U+2028, U+2029, U+202F, U+205F, U+3000 and U+FEFF.
#[tactic(auto, unfolding(pattern_model::specs::Members::is_space))]
pub fn is_ecma_whitespace(c: char) -> bool
    ensures { result ≡ is_space c }
{
    is_within('\t', '\r', c)
        || (c == ' '
            || (c == '\u{A0}'
                || (c == '\u{1680}'
                    || (is_within('\u{2000}', '\u{200A}', c)
                        || (is_within('\u{2028}', '\u{2029}', c)
                            || (c == '\u{202F}'
                                || (c == '\u{205F}' || (c == '\u{3000}' || c == '\u{FEFF}'))))))))
}

/// Whether the text has such a character.
pub fn contains_ecma_whitespace(input: &str) -> bool
    ensures { result ≡ list_any is_space (chars input.now) }
{
    input.chars().any(is_ecma_whitespace)
}
