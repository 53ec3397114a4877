//! `ValueError`: why there is no value of a node.

use thiserror::Error;

/// Why there is no value of a node. Both are named so where they are printed.
#[derive(Clone, Copy, Debug, PartialEq, Eq, Error)]
pub enum ValueError {
    /// The node nests more than 128 containers, itself counted, as 129 arrays in each other do.
    #[error("TooDeep")]
    TooDeep,
    /// Memory could not be had.
    #[error("OutOfMemory")]
    OutOfMemory,
}
