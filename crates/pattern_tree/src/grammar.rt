//! The reader's two settings: the ECMA grammar and the widened one.

ghost use Rattle.std.specs.Prelude.{◌<◌, ◌^◌, length, IfOk, IfSome, IfNone, true, false};
ghost use Rattle.std.specs.Str.{chars};
ghost use Rattle.pattern_model.specs.Tree.{Tree};
ghost use Rattle.pattern_model.specs.Grammar.{Grammar};
ghost use Rattle.pattern_tree.specs.Patterns.{tree_of, SpansStand};

use crate::out_of_memory::OutOfMemory;
use crate::pattern::Pattern;
use crate::reader::read;
use std::alloc::Global;

/// The tree of a pattern of fewer than 2^30 bytes by the ECMA grammar; None exactly where the text is outside it.
///
/// It goes over the text from left to right, over the digits of a count a few times, and takes memory for the nodes, the open
/// groups and the names.
pub fn read_ecma(alloc: Global, pattern: &str) -> Result<Option<Pattern>, OutOfMemory>
    requires { length pattern.now < 2 ^ 30 }
    ensures some { IfOk result (λ o. IfSome o (λ p.
        Grammar false (chars pattern.now) (tree_of p))) }
    ensures spans { IfOk result (λ o. IfSome o (λ p.
        SpansStand false (chars pattern.now) p (length pattern.now))) }
    ensures none { IfOk result (λ o. IfNone o (
        (t : Tree) → Grammar false (chars pattern.now) t → ⊥)) }
{
    Ok(read(alloc, false, pattern)?)
}

/// The tree of a pattern of fewer than 2^30 bytes by the widened grammar; None exactly where the text is outside it. The widened
/// grammar has three additions: outside of classes `]` and `}` are plain characters, and in a class a class escape and two
/// hyphens directly after it are three items, two of them a hyphen.
pub fn read_widened(alloc: Global, pattern: &str) -> Result<Option<Pattern>, OutOfMemory>
    requires { length pattern.now < 2 ^ 30 }
    ensures some { IfOk result (λ o. IfSome o (λ p.
        Grammar true (chars pattern.now) (tree_of p))) }
    ensures spans { IfOk result (λ o. IfSome o (λ p.
        SpansStand true (chars pattern.now) p (length pattern.now))) }
    ensures none { IfOk result (λ o. IfNone o (
        (t : Tree) → Grammar true (chars pattern.now) t → ⊥)) }
{
    Ok(read(alloc, true, pattern)?)
}
