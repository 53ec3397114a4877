//! What errors print that no other line gets.

use json_exact::{FromSerdeError, JsonTextError, MapError, OutOfMemory};
use json_traits::ValueError;
use jsonb::JsonbError;
use jsonb::encode::{EncodeError, HexError, JB_FARRAY, JB_FSCALAR, JENTRY_HAS_OFF};
use judge::{Failed, Fault, JudgeError, KeywordError, SinkError};
use std::alloc::Global;

/// The names of the errors for want of memory, and those of streams, the faults of slices, and three flags of the layout.
pub(crate) fn errors(alloc: Global) -> Option<String> {
    let mut all = format!(in alloc;
        "{OutOfMemory} {} {}",
        MapError::OutOfMemory,
        ValueError::OutOfMemory
    )
    .ok()?;
    write!(
        all,
        " {} {}",
        JsonTextError::OutOfMemory,
        FromSerdeError::OutOfMemory
    )
    .ok()?;
    write!(
        all,
        " {} {}",
        JsonbError::OutOfMemory,
        EncodeError::OutOfMemory
    )
    .ok()?;
    write!(
        all,
        " {} {}",
        HexError::OutOfMemory,
        KeywordError::OutOfMemory
    )
    .ok()?;
    write!(
        all,
        " {} {}",
        JudgeError::OutOfMemory,
        pattern_tree::OutOfMemory
    )
    .ok()?;
    write!(
        all,
        " {} {} {Failed}",
        SinkError::OutOfMemory,
        SinkError::Failed
    )
    .ok()?;
    write!(
        all,
        " {} {} {}",
        Fault::Malformed,
        Fault::NotText,
        Fault::NumberTooWide
    )
    .ok()?;
    write!(all, " {JB_FSCALAR:x} {JB_FARRAY:x} {JENTRY_HAS_OFF:x}").ok()?;
    Some(all)
}
