//! Why a pattern has no translation.

ghost use Rattle.std.specs.Prelude.{◌≡◌, IfOk, option_map};
ghost use Rattle.std.specs.Str.{chars};
ghost use Rattle.pattern_tree.specs.Patterns.{tree_of};
ghost use Rattle.pattern_translation.specs.Facts.{AreOf};
ghost use Rattle.rust_pattern_model.specs.Refusals.{is_unsupported, refusal};
ghost use Rattle.pattern_translation.specs.Causes.{cause_of};

use crate::escapes::has_other_escape;
use crate::facts::Facts;
use crate::names::shares_name;
use pattern_tree::Pattern;
use std::alloc::{AllocError, Global};

/// A cause of refusal, of which the first that stands is told.
#[derive(Clone, Copy)]
pub(crate) enum Cause {
    LookAround,
    BackReference,
    Unsupported,
}

fn is_unsupported(
    alloc: Global,
    text: &str,
    pattern: &Pattern,
    facts: Facts,
) -> Result<bool, AllocError>
    requires { AreOf facts (tree_of pattern.now) }
    ensures { IfOk result (λ yes. yes ≡ is_unsupported (chars text.now) (tree_of pattern.now)) }
{
    if has_other_escape(text) {
        return Ok(true);
    }
    if facts.other_part {
        return Ok(true);
    }
    if 250 < facts.depth {
        return Ok(true);
    }
    let shared = shares_name(alloc, pattern)?;
    Ok(shared)
}

/// Why the pattern has no translation, if it has none.
pub(crate) fn find_cause(
    alloc: Global,
    text: &str,
    pattern: &Pattern,
    facts: Facts,
) -> Result<Option<Cause>, AllocError>
    requires { AreOf facts (tree_of pattern.now) }
    ensures { IfOk result (λ o. option_map cause_of o ≡ refusal (chars text.now) (tree_of pattern.now)) }
{
    if facts.look_around {
        return Ok(Some(Cause::LookAround));
    }
    if facts.back_reference {
        return Ok(Some(Cause::BackReference));
    }
    if is_unsupported(alloc, text, pattern, facts)? {
        return Ok(Some(Cause::Unsupported));
    }
    Ok(None)
}
