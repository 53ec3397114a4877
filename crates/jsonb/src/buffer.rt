//! One string as a node.

ghost use Rattle.std.specs.Prelude.{◌≡◌, IfOk, OnErr, string_bytes};
ghost use Rattle.json_model.specs.Tree.{scalar, string};
ghost use Rattle.jsonb.specs.Nodes.{node_tree};
ghost use Rattle.jsonb.specs.Seated.{node_seat};
ghost use Rattle.jsonb.specs.Buffers.{buffer_bytes};

use crate::kind::Kind;
use crate::node::JsonbNode;
use json_exact::OutOfMemory;
use std::alloc::Global;

/// The bytes of one string, such as a member's name, for a node that stands for it.
#[derive(Drop)]
pub struct JsonbBuffer {
    pub(crate) text: String,
}

impl JsonbBuffer {
    /// The buffer that holds a text.
    pub(crate) fn new(text: String) -> JsonbBuffer
        ensures { buffer_bytes result ≡ string_bytes text }
    {
        JsonbBuffer { text }
    }

    /// Puts a text in the place of the one that the buffer holds. It takes memory only where the text is longer than what the
    /// buffer has room for: where that could not be had, the buffer is as before.
    pub(crate) fn put(&mut self, alloc: Global, text: &str) -> Result<(), OutOfMemory>
        ensures put { IfOk result (λ _. buffer_bytes self.new ≡ text.now) }
        ensures kept { OnErr result (self.new ≡ self.old) }
    {
        if self.text.capacity() < text.len() {
            self.text = String::from_str(alloc, text)?;
            return Ok(());
        }
        self.text.clear();
        self.text.push_str(text)?;
        Ok(())
    }

    /// The node of the string. It borrows the buffer, and nothing is validated again.
    pub(crate) fn node(&self) -> JsonbNode<'_>
        ensures tree { node_tree result ≡ scalar (string (buffer_bytes self.now)) }
        ensures seat { node_seat result
            ≡ record { at = 0; kind = 0; bytes = buffer_bytes self.now } }
    {
        string_node(self.text.as_str())
    }
}

/// The node of a string that is a text. It has no root: it is at byte 0.
pub fn string_node(text: &str) -> JsonbNode<'_>
    ensures tree { node_tree result ≡ scalar (string text.now) }
    ensures seat { node_seat result ≡ record { at = 0; kind = 0; bytes = text.now } }
{
    JsonbNode {
        offset: 0,
        kind: Kind::String,
        bytes: text.as_bytes(),
    }
}
