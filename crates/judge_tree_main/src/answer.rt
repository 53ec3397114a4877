//! The answer to one line.
ghost use Rattle.std.specs.Prelude.{◌≡◌, ◌∷◌, ◌++◌, [], IfOk, IsNone, IsSomeAnd, MatchOption};
ghost use Rattle.judge_tree_main.specs.Answers.{LineAnswer, name_of};

use judge::{Fault, read_pair_into};
use judge_tree::{TreeError, judge_tree};
use line_program::Command;
use std::alloc::{AllocError, Global};

// Judges the document of a line by its schema.
pub(crate) struct CheckCommand;

// Buffers for the bytes of a pair, which are kept from line to line.
#[derive(Drop)]
pub(crate) struct PairBuffers {
    schema: Vec<u8>,
    document: Vec<u8>,
}

impl Command for CheckCommand {
    ghost is_answer = { λ _. LineAnswer };

    type Answer = &'static [u8];

    type Kept = PairBuffers;

    fn start(&self, alloc: Global) -> PairBuffers {
        PairBuffers {
            schema: Vec::new(alloc),
            document: Vec::new(alloc),
        }
    }

    fn answer(
        &self,
        alloc: Global,
        kept: &mut PairBuffers,
        line: &[u8],
    ) -> Result<&'static [u8], AllocError> {
        if !read_pair_into(line, &mut kept.schema, &mut kept.document)? {
            return Ok(b"bad line\n");
        }
        printed(judge_tree(alloc, &kept.schema, &kept.document)).ok_or(AllocError)
    }
}

// An answer's printed name, with the end of a line; want of memory has none.
fn printed(verdict: Result<bool, TreeError>) -> Option<&'static [u8]>
    ensures { MatchOption (name_of verdict)
        (IsNone result)
        (λ name. IsSomeAnd result (λ text. text.now ≡ name ++ 10 ∷ [])) }
{
    match verdict {
        Ok(true) => Some(b"valid\n"),
        Ok(false) => Some(b"invalid\n"),
        Err(TreeError::Schema(Fault::Malformed)) => Some(b"Schema(Malformed)\n"),
        Err(TreeError::Schema(Fault::NotText)) => Some(b"Schema(NotText)\n"),
        Err(TreeError::Schema(Fault::NumberTooWide)) => Some(b"Schema(NumberTooWide)\n"),
        Err(TreeError::SchemaTooDeep) => Some(b"SchemaTooDeep\n"),
        Err(TreeError::NotASchema { .. }) => Some(b"NotASchema\n"),
        Err(TreeError::UnknownKeyword { .. }) => Some(b"UnknownKeyword\n"),
        Err(TreeError::BadKeyword { .. }) => Some(b"BadKeyword\n"),
        Err(TreeError::BadPattern { .. }) => Some(b"BadPattern\n"),
        Err(TreeError::PatternNotLiteral { .. }) => Some(b"PatternNotLiteral\n"),
        Err(TreeError::Document(Fault::Malformed)) => Some(b"Document(Malformed)\n"),
        Err(TreeError::Document(Fault::NotText)) => Some(b"Document(NotText)\n"),
        Err(TreeError::Document(Fault::NumberTooWide)) => Some(b"Document(NumberTooWide)\n"),
        Err(TreeError::OutOfMemory) => None,
    }
}
