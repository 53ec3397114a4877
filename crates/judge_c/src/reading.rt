//! Slices are read.

ghost use Rattle.std.specs.Prelude.{MatchResult, Ok};
ghost use Rattle.jsonb.specs.Nodes.{node_tree};
ghost use Rattle.jsonb.specs.Root.{IsRead};
ghost use Rattle.judge_c.specs.inner.Read.{IsUnread};

use flat_keywords::Fault;
use jsonb::{Jsonb, JsonbError, JsonbNode};
use std::alloc::Global;

/// Why a slice is not read.
#[derive(Clone, Copy)]
pub(crate) enum Unread {
    /// Its bytes are no JSON tree.
    Faulty(Fault),
    /// Memory for its nesting is wanting.
    OutOfMemory,
}

/// Reads a slice.
pub(crate) fn read(alloc: Global, slice: &[u8]) -> Result<JsonbNode<'_>, Unread>
    ensures { MatchResult result (λ node. IsRead slice.now (Ok (node_tree node))) (IsUnread slice.now) }
{
    match Jsonb::root(alloc, slice) {
        Ok(node) => Ok(node),
        Err(JsonbError::Malformed) => Err(Unread::Faulty(Fault::Malformed)),
        Err(JsonbError::NotText) => Err(Unread::Faulty(Fault::NotText)),
        Err(JsonbError::NumberTooWide) => Err(Unread::Faulty(Fault::NumberTooWide)),
        Err(JsonbError::OutOfMemory) => Err(Unread::OutOfMemory),
    }
}
