//! The answer to one line.
ghost use Rattle.std.specs.Prelude.{◌≡◌, ◌∷◌, ◌++◌, [], IsNone, IsSomeAnd, MatchOption};
ghost use Rattle.judge.specs.Answers.{LineAnswerBy, name_of};
ghost use Rattle.judge.specs.inner.KeptKeywords.{IsKept};

use crate::kept::KeptPair;
use flat_keywords::{Draft, Fault, JudgeError};
use line_program::{Command, cut_at};
use std::alloc::{AllocError, Global};

// The commands `check` and `check4`, which judge the two slices of a line by their draft.
pub(crate) struct CheckCommand {
    pub(crate) draft: Draft,
}

impl Command for CheckCommand {
    ghost is_answer = { λ c. LineAnswerBy c.draft };

    type Answer = &'static [u8];

    type Kept = KeptPair;

    ghost serves = { λ c kept. IsKept c.draft kept.last };

    fn start(&self, alloc: Global) -> KeptPair {
        KeptPair::none(alloc)
    }

    fn answer(
        &self,
        alloc: Global,
        kept: &mut KeptPair,
        line: &[u8],
    ) -> Result<&'static [u8], AllocError> {
        let Some((first, second)) = cut_at(b' ', line) else {
            return Ok(b"bad line\n");
        };
        let Some(verdict) = kept.judge(alloc, self.draft, first, second)? else {
            return Ok(b"bad line\n");
        };
        printed(verdict).ok_or(AllocError)
    }
}

// An answer's printed name, with the end of a line; want of memory has none.
fn printed(verdict: Result<bool, JudgeError>) -> Option<&'static [u8]>
    ensures { MatchOption (name_of verdict)
        (IsNone result)
        (λ name. IsSomeAnd result (λ text. text.now ≡ name ++ 10 ∷ [])) }
{
    match verdict {
        Ok(true) => Some(b"valid\n"),
        Ok(false) => Some(b"invalid\n"),
        Err(JudgeError::Keywords(Fault::Malformed)) => Some(b"Keywords(Malformed)\n"),
        Err(JudgeError::Keywords(Fault::NotText)) => Some(b"Keywords(NotText)\n"),
        Err(JudgeError::Keywords(Fault::NumberTooWide)) => Some(b"Keywords(NumberTooWide)\n"),
        Err(JudgeError::NotAnObject) => Some(b"NotAnObject\n"),
        Err(JudgeError::UnknownKeyword { .. }) => Some(b"UnknownKeyword\n"),
        Err(JudgeError::BadKeyword { .. }) => Some(b"BadKeyword\n"),
        Err(JudgeError::BadPattern { .. }) => Some(b"BadPattern\n"),
        Err(JudgeError::PatternNotLiteral { .. }) => Some(b"PatternNotLiteral\n"),
        Err(JudgeError::TooDeep { .. }) => Some(b"TooDeep\n"),
        Err(JudgeError::Document(Fault::Malformed)) => Some(b"Document(Malformed)\n"),
        Err(JudgeError::Document(Fault::NotText)) => Some(b"Document(NotText)\n"),
        Err(JudgeError::Document(Fault::NumberTooWide)) => Some(b"Document(NumberTooWide)\n"),
        Err(JudgeError::OutOfMemory) => None,
    }
}
