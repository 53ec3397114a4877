//! `MapError`: why members are no map.

use thiserror::Error;

/// Why a list of members is no map. The first that stands is answered, and the list is dropped.
#[derive(Clone, Copy, Debug, PartialEq, Eq, Error)]
pub enum MapError {
    /// A key stands twice, as in the keys `a`, `b`, `a`.
    #[error("RepeatedKey")]
    RepeatedKey {
        /// The least place, from 0, whose key stands at an earlier place too.
        place: usize,
    },
    /// Memory could not be had.
    #[error("OutOfMemory")]
    OutOfMemory,
}
