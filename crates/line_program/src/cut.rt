//! Texts of bytes, cut in two.
ghost use Rattle.std.specs.Prelude.{◌≡◌, ◌∷◌, ◌++◌, MatchOption};
ghost use Rattle.line_program.specs.Lines.{Lacks};

use memchr::memchr;

/// The parts before and after the first such byte, and None where there is none.
pub fn cut_at(byte: u8, text: &[u8]) -> Option<(&[u8], &[u8])>
    ensures { MatchOption result
        (Lacks byte text.now)
        (λ parts. (text.now ≡ parts.0.now ++ byte ∷ parts.1.now) × Lacks byte parts.0.now) }
{
    let place = memchr(byte, text)?;
    Some((&text[..place], &text[place + 1..]))
}
