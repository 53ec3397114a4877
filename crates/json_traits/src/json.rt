//! `Json`: a representation of JSON.

ghost use Rattle.std.specs.Prelude.{◌≡◌, IfOk};
ghost use Rattle.json_model.specs.Tree.{scalar, string as string_scalar};

use crate::has_name::HasName;
use crate::node::Node;
use json_exact::OutOfMemory;
use std::alloc::Global;

/// A representation of JSON: its nodes, and what code over it has to own, which are keys that are looked up often and the
/// string that a node stands for. A type that implements it names the representation, and holds nothing.
pub trait Json<'a> {
    /// What stands for a value.
    type Node: Node<'a>;
    /// A key that is looked up often, made ready once. In each representation it is the `Key` of the node's object; code over
    /// `Json` asks for that by a bound.
    type PreparedKey: HasName + Drop;
    /// What holds the string of a node that [`Json::string_node`] makes.
    type StringBuffer: Drop;

    /// A hint: how many members a pass over an object may visit for each `Object::get` that it stands for, before it costs more
    /// than they. No call here depends on it.
    const KEYS_PER_LOOKUP: usize;

    /// The prepared key of a name. It takes memory for a copy of the name.
    fn prepare_key(alloc: Global, key: &str) -> Result<Self::PreparedKey, OutOfMemory>
        ensures { IfOk result (λ k. Self.PreparedKey.name k ≡ key.now) };

    /// A buffer for [`Json::string_node`]. It takes no memory, and what it holds at first is the representation's own.
    fn string_buffer(alloc: Global) -> Self::StringBuffer;

    /// The node of a string, which stands in the buffer from now on: what the buffer held before is dropped. It takes memory
    /// for a copy of the string. Where that could not be had, the buffer holds what it held before.
    fn string_node(
        alloc: Global,
        buffer: &'a mut Self::StringBuffer,
        string: &str,
    ) -> Result<Self::Node, OutOfMemory>
        ensures { IfOk result (λ n. Self.Node.tree n ≡ scalar (string_scalar string.now)) };
}
