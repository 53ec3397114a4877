//! The reader of a whole slice.

ghost use Rattle.std.specs.Prelude.{◌≡◌, ◌≤◌, ◌⊎◌, ◌<◌, ◌^◌, [], length, Err, IfOk};
ghost use Rattle.json_model.specs.Nest.{nest};
ghost use Rattle.json_model.specs.Tree.{Tree, scalar, string as string_scalar};
ghost use Rattle.jsonb_layout.specs.Seats.{IsRoot, item_seat};
ghost use Rattle.jsonb_layout.specs.Stands.{Stands};
ghost use Rattle.jsonb_layout.specs.inner.Trees.{read};
ghost use Rattle.jsonb.specs.Buffers.{buffer_bytes};
ghost use Rattle.jsonb.specs.Lookup.{key_name};
ghost use Rattle.jsonb.specs.Nodes.{node_tree};
ghost use Rattle.jsonb.specs.inner.Reads.{Refuses, Reads, lone_tree};
ghost use Rattle.jsonb.specs.Root.{IsRead, read_tree};
ghost use Rattle.jsonb.specs.Seated.{node_seat};

use crate::buffer::JsonbBuffer;
use crate::error::JsonbError;
use crate::found::Found;
use crate::item::Item;
use crate::key::JsonbKey;
use crate::kind::Kind;
use crate::node::JsonbNode;
use crate::nodes::node_of;
use crate::opening::lone;
use crate::scalar::scalar_faults;
use crate::search::container_faults;
use json_exact::OutOfMemory;
use json_traits::Json;
use std::alloc::Global;

/// The `jsonb` representation of JSON.
pub struct Jsonb;

/// Where the entry word of a root scalar is, behind the header word, and its piece, behind the entry word.
const SCALAR_WORD: usize = 4;

const SCALAR_PIECE: usize = 8;

/// Refuses a slice by what was found in it.
fn refuse_faults(found: Found) -> Result<(), JsonbError>
    ensures { Refuses found result }
{
    if found.not_text {
        return Err(JsonbError::NotText);
    }
    if found.wide {
        return Err(JsonbError::NumberTooWide);
    }
    Ok(())
}

/// The node of a root scalar's item.
fn root_scalar(item: Item<'_>) -> Result<JsonbNode<'_>, JsonbError>
    ensures read { Reads (lone_tree item.entry) result }
    ensures seat { IfOk result (λ n. node_seat n ≡ item_seat 0 1 [] item.entry) }
{
    // Its piece is short, as that of each item.
    let _piece = item.piece();
    let Some(found) = scalar_faults(0, &item) else {
        return Err(JsonbError::Malformed);
    };
    match refuse_faults(found) {
        Ok(()) => Ok(node_of(SCALAR_WORD, SCALAR_PIECE, 0, item)),
        Err(error) => Err(error),
    }
}

/// The node of a container.
fn root_container(alloc: Global, bytes: &[u8]) -> Result<JsonbNode<'_>, JsonbError>
    ensures read { Reads (read bytes.now) result }
    ensures seat { IfOk result (λ n. node_seat n ≡ record { at = 0; kind = 5; bytes = bytes.now }) }
{
    let found = container_faults(alloc, bytes)?;
    refuse_faults(found)?;
    Ok(JsonbNode {
        offset: 0,
        kind: Kind::Container,
        bytes,
    })
}

impl Jsonb {
    /// Reads a whole slice, every part of it, in place. The node has the slice's tree.
    ///
    /// By review, its work is at most proportional to the number of bytes, and it takes memory only where more than four containers wait for one
    /// inside.
    pub fn root(alloc: Global, container: &[u8]) -> Result<JsonbNode<'_>, JsonbError>
        ensures read { (result ≡ Err JsonbError.OutOfMemory)
            ⊎ IsRead container.now (read_tree result) }
        ensures seat { IfOk result (λ n. IsRoot container.now (node_seat n)) }
        ensures free { (t : Tree) → Stands container.now t → nest t ≤ 1 → result
            ≡ Err JsonbError.OutOfMemory → ⊥ }
    {
        match lone(container) {
            Some(item) => root_scalar(item),
            None => root_container(alloc, container),
        }
    }
}

impl<'a> Json<'a> for Jsonb {
    type Node = JsonbNode<'a>;

    type PreparedKey = JsonbKey;

    type StringBuffer = JsonbBuffer;

    const KEYS_PER_LOOKUP: usize = 0;

    fn prepare_key(alloc: Global, key: &str) -> Result<JsonbKey, OutOfMemory>
        ensures { IfOk result (λ k. key_name k ≡ key.now) }
    {
        Ok(JsonbKey::new(String::from_str(alloc, key)?))
    }

    fn string_buffer(alloc: Global) -> JsonbBuffer
        ensures { buffer_bytes result ≡ [] }
    {
        JsonbBuffer::new(String::new(alloc))
    }

    fn string_node(
        alloc: Global,
        buffer: &'a mut JsonbBuffer,
        string: &str,
    ) -> Result<JsonbNode<'a>, OutOfMemory>
        ensures tree { IfOk result (λ n. node_tree n ≡ scalar (string_scalar string.now)) }
        ensures seat { IfOk result
            (λ n. node_seat n ≡ record { at = 0; kind = 0; bytes = string.now }) }
    {
        buffer.put(alloc, string)?;
        Ok(buffer.node())
    }
}
