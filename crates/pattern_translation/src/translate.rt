//! The text for Rust of a pattern.

ghost use Rattle.std.specs.Prelude.{◌≡◌, ◌<◌, ◌^◌, length, true, None, IfOk, IfErr};
ghost use Rattle.std.specs.Str.{chars};
ghost use Rattle.std.specs.Cow.{cow_str_bytes};
ghost use lib.Utf8.{encodes};
ghost use Rattle.pattern_model.specs.Text.{Text};
ghost use Rattle.pattern_model.specs.Grammar.{Grammar};
ghost use Rattle.pattern_model.specs.Tree.{Tree};
ghost use Rattle.rust_pattern_model.specs.Refusals.{refusal};
ghost use Rattle.rust_pattern_model.specs.Translation.{Translates};
ghost use Rattle.rust_pattern_model.specs.Alike.{IsAlike};
ghost use Rattle.pattern_translation.specs.TranslateErrors.{IsCause};

use crate::facts::tree_facts;
use crate::pattern_text::write_pattern;
use crate::refusal::{Cause, find_cause};
use crate::translate_error::TranslateError;
use pattern_tree::read_widened;
use std::alloc::Global;
use std::borrow::CowStr;

/// The pattern, written for the crate `regex`: `^[\d--a]\cA$` is written as `^[[0-9]\-\-a]`, the character U+0001 and `$`. The
/// pattern has fewer than 2^30 bytes. By review, it is borrowed where its text is the same.
///
/// The pattern is read by the widened grammar. Changed are class escapes, `\c` and a letter, `\0`, `\<`, `\>`, the escapes in the
/// names of groups, and in a class `[`, doubled `&` and `~`, and hyphens beside hyphens, but for a range's own. All else is copied.
///
/// By Rust's written grammar the text has a tree that is alike to the pattern's (clause `alike`): the same, but that classes and class
/// escapes have the same members, written in another way. So it has the same matches at the same places in every text, by
/// `rust_pattern_model::laws::alike_trees_match_alike`. Nothing is said so of a pattern with `.`, `\b` or `\B` outside of classes, a
/// property escape or a group with modifiers: what these then mean is not told here.
///
/// It takes memory for the tree, for what is asked of it, and for the text.
pub fn to_rust_regex<'a>(alloc: Global, pattern: &'a str) -> Result<CowStr<'a>, TranslateError>
    requires { length pattern.now < 2 ^ 30 }
    ensures translated { IfOk result (λ s. (w : Text) × Translates (chars pattern.now) w
        × (cow_str_bytes s ≡ encodes w)) }
    ensures alike { IfOk result (λ s. (w : Text) × IsAlike (chars pattern.now) w
        × (cow_str_bytes s ≡ encodes w)) }
    ensures refused { IfErr result (λ e. IsCause e (chars pattern.now)) }
{
    check_translated(alloc, pattern)?;
    let text = write_pattern(alloc, pattern)?;
    if text.as_str() == pattern {
        Ok(CowStr::Borrowed(pattern))
    } else {
        Ok(CowStr::Owned(text))
    }
}

/// Checks that a pattern is of the widened grammar, and that there is no cause to refuse it.
fn check_translated(alloc: Global, pattern: &str) -> Result<(), TranslateError>
    requires { length pattern.now < 2 ^ 30 }
    ensures kept { IfOk result (λ _. (t : Tree) × Grammar true (chars pattern.now) t
        × (refusal (chars pattern.now) t ≡ None)) }
    ensures refused { IfErr result (λ e. IsCause e (chars pattern.now)) }
{
    let Some(tree) = read_widened(alloc, pattern)? else {
        return Err(TranslateError::Invalid);
    };
    let facts = tree_facts(alloc, &tree)?;
    match find_cause(alloc, pattern, &tree, facts)? {
        Some(Cause::LookAround) => Err(TranslateError::LookAround),
        Some(Cause::BackReference) => Err(TranslateError::BackReference),
        Some(Cause::Unsupported) => Err(TranslateError::Unsupported),
        None => Ok(()),
    }
}
