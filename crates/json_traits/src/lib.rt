//! What code over JSON asks of a value, whatever holds it, and the seven types of JSON Schema.
//!
//! A [`Node`] is a JSON value that is read in place: a value in memory, or one in the bytes of a column. [`Object`], [`Array`] and
//! [`JsonNumber`] are its members, its elements and its number. [`HasTree`] is the JSON tree that each of them stands for, of which
//! all contracts speak. So code that is written once over `Node` runs on every kind of node, and is proved once. A number
//! writes `to_number` alone: its other calls answer from that. A [`NodeIdentity`] tells a node from those at other places under
//! its root, where the representation tells places apart. [`Json`] is a representation: its nodes, its prepared keys, and the buffers
//! of its string nodes. A function over nodes that calls itself takes a [`NodeFamily`], and [`FamilyOf`] is that of each kind of node.
//! [`equal_nodes`] is JSON equality of two nodes of one kind, and [`nests_within`] tells how deep a node nests. [`laws`] says that keys rise at each level of every node's tree.
//!
//! `Node::equals_value` is JSON equality with a value in memory, and `Node::to_value` a value of the node's tree, as a [`ValueCow`]: it is
//! borrowed where the node is that of a value, and built of any other node. `TooDeep`, a [`ValueError`], is answered exactly where the
//! node nests more than 128 containers. A [`LazyInstance`] makes the value where it is asked for first, and keeps it.
//!
//! The keyword `type` of a schema names one type, or several in an array. [`types::JsonType`] is a type, with its name;
//! [`types::JsonTypeSet`] is a set of types, in one byte, which also says whether it allows a value.
//!
//! ```text
//! let allowed = JsonType::String | JsonType::Number;
//! allowed.contains(JsonType::Number);        // true
//! allowed.contains_value_type(&node);        // true of each string and each number
//! allowed.remove(JsonType::String).len();    // 1
//! format!(in alloc; "{allowed:?}")?;         // (number, string)
//! "int".parse::<JsonType>();                 // Err(()); `integer` is read
//! JsonType::from(&Value::Null);              // Null
//! ```
//!
//! The source is JSON Schema 2020-12, validation, section 6.1.1. A set holds exactly the types that are put in: `Integer`
//! is not held where `Number` alone is. The order of the types is this project's own: `null`, `boolean`, `integer`,
//! `number`, `string`, `array`, `object`. Only `JsonNumber::as_str`, `Array::is_unique`, `Json::prepare_key`,
//! `Json::string_node`, `Node::to_value`, `ValueCow::into_owned`, and `LazyInstance::get` and `into_cow`, take memory.
#![tactic(auto)]

mod array;
mod building;
mod equality;
mod has_name;
mod has_tree;
mod identity;
mod json;
mod json_number;
pub mod laws;
mod lazy_instance;
mod nesting;
mod node;
mod node_equality;
mod node_family;
mod object;
mod rising;
pub mod types;
mod value_cow;
mod value_error;

pub use array::Array;
pub use has_name::HasName;
pub use has_tree::HasTree;
pub use identity::NodeIdentity;
pub use json::Json;
pub use json_number::JsonNumber;
pub use lazy_instance::LazyInstance;
pub use nesting::nests_within;
pub use node::Node;
pub use node_equality::{equal_arrays, equal_nodes, equal_objects};
pub use node_family::{FamilyOf, NodeFamily};
pub use object::Object;
pub use value_cow::ValueCow;
pub use value_error::ValueError;
