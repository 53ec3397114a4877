//! Keywords that are compiled once.

ghost use Rattle.std.specs.Prelude.{◌≡◌, ◌⊎◌, List, ℕ, Ok, Err, MatchResult};
ghost use Rattle.json_model.specs.Tree.{Tree};
ghost use Rattle.jsonb.specs.Root.{IsRead};
ghost use Rattle.flat_keywords.specs.Compiled.{IsCompiled};
ghost use Rattle.flat_keywords.specs.Right.{Right, keyword_error};

use crate::reading::{Unread, read};
use flat_keywords::{Checks, JudgeError, KeywordError};
use std::alloc::Global;

/// The checks of a keyword object. An error is the right answer whatever the document is, but for want of memory.
pub(crate) fn compile(alloc: Global, keywords: &[u8]) -> Result<Checks, JudgeError>
    ensures { MatchResult result
        (λ checks. (t : Tree) × IsRead keywords.now (Ok t) × IsCompiled t checks)
        (λ error. (error ≡ JudgeError.OutOfMemory)
        ⊎ ((document : List ℕ) → Right keywords.now document (Err error))) }
{
    let root = match read(alloc, keywords) {
        Ok(root) => root,
        Err(Unread::Faulty(fault)) => return Err(JudgeError::Keywords(fault)),
        Err(Unread::OutOfMemory) => return Err(JudgeError::OutOfMemory),
    };
    match Checks::compile(alloc, &root) {
        Ok(checks) => Ok(checks),
        Err(error) => Err(refusal(error)),
    }
}

/// The answer for a faulty keyword object.
fn refusal(error: KeywordError) -> JudgeError
    ensures { result ≡ keyword_error error }
{
    match error {
        KeywordError::NotAnObject => JudgeError::NotAnObject,
        KeywordError::UnknownKeyword { member } => JudgeError::UnknownKeyword { member },
        KeywordError::BadKeyword { member } => JudgeError::BadKeyword { member },
        KeywordError::BadPattern { member } => JudgeError::BadPattern { member },
        KeywordError::PatternNotLiteral { member } => JudgeError::PatternNotLiteral { member },
        KeywordError::TooDeep { member } => JudgeError::TooDeep { member },
        KeywordError::OutOfMemory => JudgeError::OutOfMemory,
    }
}
