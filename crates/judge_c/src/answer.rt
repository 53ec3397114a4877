//! Answers to keywords and a document, as C gets them.

ghost use Rattle.std.specs.Prelude.{◌≡◌};
ghost use Rattle.flat_keywords.specs.Right.{Answer};
ghost use Rattle.judge_c.specs.Answers.{IsGiven, code_of, member_of};

use crate::codes::{
    BAD_KEYWORD, BAD_PATTERN, OUT_OF_MEMORY, PATTERN_NOT_LITERAL, UNKNOWN_KEYWORD, document_number,
    verdict_number,
};
use flat_keywords::{Fault, JudgeError};

/// An answer: its number, and the place of the member that it names, in key order from 0. Where it names none, the place is 0.
#[repr(C)]
#[derive(Clone, Copy, Debug, PartialEq, Eq)]
pub struct JudgeAnswer {
    pub code: u32,
    pub member: usize,
}

impl JudgeAnswer {
    /// What stands for an answer.
    pub(crate) fn of(answer: Result<bool, JudgeError>) -> JudgeAnswer
        ensures { IsGiven result answer }
    {
        JudgeAnswer {
            code: code_number(answer),
            member: member_place(answer),
        }
    }

    /// A code that names no member.
    pub(crate) fn of_code(code: u32) -> JudgeAnswer
        ensures code { result.code ≡ code }
        ensures member { result.member ≡ 0 }
    {
        JudgeAnswer { code, member: 0 }
    }
}

/// The number of an answer.
fn code_number(answer: Result<bool, JudgeError>) -> u32
    ensures { result ≡ code_of answer }
{
    match answer {
        Ok(valid) => verdict_number(valid),
        Err(JudgeError::Keywords(Fault::Malformed)) => 2,
        Err(JudgeError::Keywords(Fault::NotText)) => 3,
        Err(JudgeError::Keywords(Fault::NumberTooWide)) => 4,
        Err(JudgeError::NotAnObject) => 5,
        Err(JudgeError::UnknownKeyword { .. }) => UNKNOWN_KEYWORD,
        Err(JudgeError::BadKeyword { .. }) => BAD_KEYWORD,
        Err(JudgeError::BadPattern { .. }) => BAD_PATTERN,
        Err(JudgeError::PatternNotLiteral { .. }) => PATTERN_NOT_LITERAL,
        Err(JudgeError::TooDeep { .. }) => 10,
        Err(JudgeError::Document(fault)) => document_number(fault),
        Err(JudgeError::OutOfMemory) => OUT_OF_MEMORY,
    }
}

/// The place of the member that an answer names, or 0.
fn member_place(answer: Result<bool, JudgeError>) -> usize
    ensures { result ≡ member_of answer }
{
    match answer {
        Err(JudgeError::UnknownKeyword { member }) => member,
        Err(JudgeError::BadKeyword { member }) => member,
        Err(JudgeError::BadPattern { member }) => member,
        Err(JudgeError::PatternNotLiteral { member }) => member,
        Err(JudgeError::TooDeep { member }) => member,
        _ => 0,
    }
}
