//! `Value`: a JSON value in memory.

use crate::map::Map;
use crate::number::Number;

/// A JSON value: RFC 8259, section 3. It has no `==`, since the equality of JSON takes 1 and 1.0 as one, which written digits
/// do not. What nests deeply is walked by recursion.
#[derive(Drop)]
#[cycle(value)]
pub enum Value {
    /// `null`.
    Null,
    /// `false` or `true`.
    Bool(bool),
    /// A number, with the fraction digits that it is written with.
    Number(Number),
    /// A string.
    String(String),
    /// An array: its elements, in order.
    Array(Vec<Value>),
    /// An object: its members, in key order.
    Object(Map),
}
