//! How a run ends.
ghost use Rattle.std.specs.Prelude.{◌≡◌};

/// How a run ended.
#[derive(Debug, Clone, Copy, PartialEq, Eq)]
pub enum Status {
    /// The source was read to its end, and each line is answered; or what a program writes without lines is written.
    Done,
    /// The words of the command line ask for nothing. Nothing was read or written.
    BadWords,
    /// A read failed. The lines that had ended are answered.
    ReadFault,
    /// A write failed. The lines before the one whose answer it was are answered.
    WriteFault,
    /// A line has more than 2^24 bytes, its end not counted. The lines before it are answered.
    LineTooLong,
    /// 2^48 bytes or more were read, and no end was met. The lines that had ended are answered.
    InputTooLong,
    /// There is no memory for a line, for its answer, for what is written without lines, or in the sink. The lines before it are
    /// answered.
    OutOfMemory,
}

impl Status {
    ghost use Rattle.line_program.specs.Status.{code_of};

    /// The program's exit code.
    pub fn code(self) -> u8
        ensures { result ≡ code_of self }
    {
        match self {
            Status::Done => 0,
            Status::BadWords => 2,
            Status::ReadFault => 3,
            Status::WriteFault => 4,
            Status::LineTooLong => 5,
            Status::InputTooLong => 6,
            Status::OutOfMemory => 7,
        }
    }
}
