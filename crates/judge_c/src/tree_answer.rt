//! Answers to a nested schema and a document, as C gets them.

ghost use Rattle.std.specs.Prelude.{◌≡◌};
ghost use Rattle.judge_tree.specs.Right.{Answer};
ghost use Rattle.judge_c.specs.TreeAnswers.{IsGiven, code_of, member_of, schema_of};

use crate::codes::{
    BAD_KEYWORD, BAD_PATTERN, OUT_OF_MEMORY, PATTERN_NOT_LITERAL, UNKNOWN_KEYWORD, document_number,
    verdict_number,
};
use flat_keywords::Fault;
use judge_tree::TreeError;

/// An answer: its number, the number of the schema that it names, and the place of the member in it, in key order from 0. Where it
/// names none, both are 0. `judge_tree::SchemaError` says how schemas are numbered.
#[repr(C)]
#[derive(Clone, Copy, Debug, PartialEq, Eq)]
pub struct JudgeTreeAnswer {
    pub code: u32,
    pub schema: usize,
    pub member: usize,
}

impl JudgeTreeAnswer {
    /// What stands for an answer.
    pub(crate) fn of(answer: Result<bool, TreeError>) -> JudgeTreeAnswer
        ensures { IsGiven result answer }
    {
        JudgeTreeAnswer {
            code: code_number(answer),
            schema: schema_number(answer),
            member: member_place(answer),
        }
    }

    /// A code that names no schema.
    pub(crate) fn of_code(code: u32) -> JudgeTreeAnswer
        ensures code { result.code ≡ code }
        ensures schema { result.schema ≡ 0 }
        ensures member { result.member ≡ 0 }
    {
        JudgeTreeAnswer {
            code,
            schema: 0,
            member: 0,
        }
    }
}

/// The number of an answer.
fn code_number(answer: Result<bool, TreeError>) -> u32
    ensures { result ≡ code_of answer }
{
    match answer {
        Ok(valid) => verdict_number(valid),
        Err(TreeError::Schema(Fault::Malformed)) => 17,
        Err(TreeError::Schema(Fault::NotText)) => 18,
        Err(TreeError::Schema(Fault::NumberTooWide)) => 19,
        Err(TreeError::SchemaTooDeep) => 20,
        Err(TreeError::NotASchema { .. }) => 21,
        Err(TreeError::UnknownKeyword { .. }) => UNKNOWN_KEYWORD,
        Err(TreeError::BadKeyword { .. }) => BAD_KEYWORD,
        Err(TreeError::BadPattern { .. }) => BAD_PATTERN,
        Err(TreeError::PatternNotLiteral { .. }) => PATTERN_NOT_LITERAL,
        Err(TreeError::Document(fault)) => document_number(fault),
        Err(TreeError::OutOfMemory) => OUT_OF_MEMORY,
    }
}

/// The number of the schema that an answer names, or 0.
fn schema_number(answer: Result<bool, TreeError>) -> usize
    ensures { result ≡ schema_of answer }
{
    match answer {
        Err(TreeError::NotASchema { schema }) => schema,
        Err(TreeError::UnknownKeyword { schema, .. }) => schema,
        Err(TreeError::BadKeyword { schema, .. }) => schema,
        Err(TreeError::BadPattern { schema, .. }) => schema,
        Err(TreeError::PatternNotLiteral { schema, .. }) => schema,
        _ => 0,
    }
}

/// The place of the member that an answer names, or 0.
fn member_place(answer: Result<bool, TreeError>) -> usize
    ensures { result ≡ member_of answer }
{
    match answer {
        Err(TreeError::UnknownKeyword { member, .. }) => member,
        Err(TreeError::BadKeyword { member, .. }) => member,
        Err(TreeError::BadPattern { member, .. }) => member,
        Err(TreeError::PatternNotLiteral { member, .. }) => member,
        _ => 0,
    }
}
