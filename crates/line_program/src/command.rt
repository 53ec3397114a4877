//! What answers a line.
ghost use Rattle.std.specs.Prelude.{ℕ, List, IfOk};
ghost use Rattle.line_program.specs.Answers.{AnswersOne};

use std::alloc::{AllocError, Global};
use std::convert::AsSlice;

/// A command of a program, which answers the input line by line.
pub trait Command {
    /// Which texts answer a line, both without the end of a line. What is kept from the lines before has no part in it.
    ghost is_answer: { Self → List ℕ → List ℕ → Type 0 };

    /// An answer, which lends its bytes.
    type Answer: AsSlice<u8> + Drop;

    /// What is kept from line to line, as buffers, which spare the next line work or memory. A command that keeps nothing takes a
    /// struct with no fields.
    type Kept: Drop;

    /// What is kept serves this command.
    ghost serves: { Self → Self.Kept → Type 0 } = { λ _ _. Unit {0} };

    /// What is kept before the first line. It takes no memory.
    fn start(&self, alloc: Global) -> Self::Kept
        ensures { serves self.now result };

    /// The answer to a line, with the end of a line; the line has none. It may use and change what is kept, which serves the next line
    /// after each answer and after an error. An error is want of memory.
    fn answer(
        &self,
        alloc: Global,
        kept: &mut Self::Kept,
        line: &[u8],
    ) -> Result<Self::Answer, AllocError>
        requires { serves self.now kept.old }
        ensures answers { IfOk result (λ text.
            AnswersOne (is_answer self.now) line.now (Self.Answer.items text)) }
        ensures serves { serves self.now kept.new };
}
