//! Whether a text is a pattern.

ghost use Rattle.std.specs.Prelude.{◌<◌, ◌^◌, length, IfOk, MatchBool, false};
ghost use Rattle.std.specs.Str.{chars};
ghost use Rattle.pattern_model.specs.Tree.{Tree};
ghost use Rattle.pattern_model.specs.Grammar.{Grammar};

use pattern_tree::{OutOfMemory, read_ecma};
use std::alloc::Global;

/// Whether a text of fewer than 2^30 bytes is a pattern of ECMA-262 with the Unicode flag, named groups and modifiers: true
/// exactly where the grammar has a tree for it. For example `(?<year>\d{4})` is one, and `(?<year>\d{4}` and `\d{4,2}` are none.
///
/// The grammar departs from ECMA-262 in three points: a backslash may stand before every character that is not alphanumeric,
/// property names are checked for their shape alone, and names of groups have the letters of Unicode's property Alphabetic and
/// the digits of its categories Nd, Nl and No.
///
/// It goes over the text from left to right, over the digits of a count a few times, and takes memory for its tree.
pub fn is_valid_ecma_regex(alloc: Global, pattern: &str) -> Result<bool, OutOfMemory>
    requires { length pattern.now < 2 ^ 30 }
    ensures { IfOk result (λ yes. MatchBool yes
        ((t : Tree) × Grammar false (chars pattern.now) t)
        ((t : Tree) → Grammar false (chars pattern.now) t → ⊥)) }
{
    Ok(read_ecma(alloc, pattern)?.is_some())
}
