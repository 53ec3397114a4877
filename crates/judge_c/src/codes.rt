//! The numbers of the answers, as far as keywords and schemas share them.

ghost use Rattle.std.specs.Prelude.{◌≡◌};
ghost use Rattle.judge_c.specs.Codes.{document_code, verdict_code};

use flat_keywords::Fault;

/// The code for a member with a name that is unknown.
pub(crate) const UNKNOWN_KEYWORD: u32 = 6;

/// The code for a member whose value has not the form of its keyword.
pub(crate) const BAD_KEYWORD: u32 = 7;

/// The code for a `pattern` that is none.
pub(crate) const BAD_PATTERN: u32 = 8;

/// The code for a `pattern` that is not literal.
pub(crate) const PATTERN_NOT_LITERAL: u32 = 9;

/// The code for want of memory.
pub(crate) const OUT_OF_MEMORY: u32 = 14;

/// The code for bytes of a document that are not there, and for offsets that are not one more than the codes.
pub(crate) const BAD_OFFSETS: u32 = 15;

/// The code for documents that all have their codes.
pub(crate) const JUDGED: u32 = 16;

/// The number of a verdict.
pub(crate) fn verdict_number(valid: bool) -> u32
    ensures { result ≡ verdict_code valid }
{
    match valid {
        false => 0,
        true => 1,
    }
}

/// The number of what is wrong with a document's bytes.
pub(crate) fn document_number(fault: Fault) -> u32
    ensures { result ≡ document_code fault }
{
    match fault {
        Fault::Malformed => 11,
        Fault::NotText => 12,
        Fault::NumberTooWide => 13,
    }
}
