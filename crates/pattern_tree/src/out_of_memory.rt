//! `OutOfMemory`: a call could not get the memory that it needs.

use std::alloc::AllocError;
use thiserror::Error;

/// Memory could not be had. The call that answers it leaves its inputs as they were.
#[derive(Clone, Copy, Debug, PartialEq, Eq, Error)]
#[error("OutOfMemory")]
pub struct OutOfMemory;

impl From<AllocError> for OutOfMemory {
    fn from(_error: AllocError) -> OutOfMemory {
        OutOfMemory
    }
}
