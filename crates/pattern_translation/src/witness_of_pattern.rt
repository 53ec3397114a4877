//! A text that a pattern matches.

ghost use Rattle.std.specs.Prelude.{◌≡◌, ◌<◌, ◌^◌, false, length, string_bytes, Some, None, IfOk, IfSome, IfNone, true};
ghost use Rattle.std.specs.Str.{chars};
ghost use Rattle.pattern_model.specs.Tree.{Tree};
ghost use Rattle.pattern_model.specs.Grammar.{Grammar};
ghost use Rattle.rust_pattern_model.specs.Refusals.{refusal, is_vague};
ghost use Rattle.pattern_translation.specs.Witness.{witness};

use crate::facts::tree_facts;
use crate::refusal::find_cause;
use crate::witness::tree_witness;
use pattern_tree::{OutOfMemory, read_widened};
use std::alloc::Global;

/// A text that the pattern matches where `^`, `$`, `\b` and `\B` are read as empty, of at most 256 bytes: for `^[a-z]+-[0-9]+$` it is
/// `a-0`. The pattern has fewer than 2^30 bytes.
///
/// A character stands for itself, and `.` for `a`. Of a class or class escape it is `a`, or else the least character that is a
/// member. A part with a quantifier stands as often as it has to, and gives none where that is more than 64 times; of alternatives it is the first that has a
/// text; and `^`, `$`, `\b` and `\B` are read as empty. There is none where that gives none; where the text is outside the
/// widened grammar; where there is look-around, a back-reference, a property escape or a group with modifiers; and where a
/// part of the pattern is not translated to Rust's syntax.
///
/// It takes memory for the tree, for what is asked of it, and for a text at each node.
pub fn pattern_witness(alloc: Global, pattern: &str) -> Result<Option<String>, OutOfMemory>
    requires { length pattern.now < 2 ^ 30 }
    ensures some { IfOk result (λ o. IfSome o (λ w. (t : Tree) × Grammar true (chars pattern.now) t
        × (refusal (chars pattern.now) t ≡ None) × (is_vague t ≡ false)
        × (witness t ≡ Some (chars (string_bytes w))))) }
    ensures none { IfOk result (λ o. IfNone o ((t : Tree) → Grammar true (chars pattern.now) t →
        refusal (chars pattern.now) t ≡ None → is_vague t ≡ false → witness t ≡ None)) }
{
    let Some(tree) = read_widened(alloc, pattern)? else {
        return Ok(None);
    };
    let facts = tree_facts(alloc, &tree)?;
    if facts.vague {
        return Ok(None);
    }
    let cause = find_cause(alloc, pattern, &tree, facts)?;
    match cause {
        Some(_) => Ok(None),
        None => {
            let text = tree_witness(alloc, &tree)?;
            Ok(text)
        }
    }
}
