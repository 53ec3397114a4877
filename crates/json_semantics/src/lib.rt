//! JSON values in memory as nodes, JSON equality, and bounds of numbers.
//!
//! [`ValueNode`], [`ValueObject`] and [`ValueArray`] borrow a `json_exact::Value`, its members or its elements, and answer the
//! calls of `json_traits`. [`cmp`] compares values, [`unique`] tells whether no two of many are equal, [`numeric`] compares
//! numbers with a limit, and [`numeric_check`] keeps a bound that is tested many times. [`conformance`] has a document that a
//! representation of JSON is tried on, and names the first rule that a node of it breaks. [`laws`] says what holds of JSON equality for
//! trees whose keys rise at each level, and that
//! every value's tree is one.
//!
//! ```text
//! let node = ValueNode::new(&value);                       // {"a":[1,2.50]}
//! node.as_object()?.members().next();                      // ("a", the node of [1,2.50])
//! cmp::equal(&one, &one_point_zero);                       // true
//! numeric::ge(&number, Decimal::from_u64(3));              // false for 2.50
//! let bound = compile_bound(BoundOp::Lte, &limit);         // at most 3
//! check_bound(&bound, &number);                            // true for 2.50
//! unique::is_unique(alloc, &[one, one_point_zero])?;       // false
//! ```
//!
//! The values are those of RFC 8259, section 3. Equality is that of JSON Schema Core 2020-12, section 4.2.2: numbers are equal
//! by value, arrays place by place, and objects whatever the order of their members. The bounds are those of JSON Schema
//! Validation 2020-12, section 6.2.
//!
//! [`SerdeJson`] is the representation of JSON by such values: its `prepare_key` and `string_node`, [`unique`] and [`conformance`]
//! alone take memory. No call
//! answers by rounding. A value is not equal to one of another type: `1` is not `"1"`, and `null` is not `false`.
//! `BoundOp::from_u8` refuses every byte above 3.
#![tactic(auto)]

mod array;
pub mod cmp;
pub mod conformance;
mod element;
mod elements;
pub mod laws;
mod members;
mod node;
pub mod numeric;
pub mod numeric_check;
mod object;
mod serde_json;
pub mod unique;

pub use array::ValueArray;
pub use elements::ValueElements;
pub use members::SerdeMembersIter;
pub use node::ValueNode;
pub use object::ValueObject;
pub use serde_json::SerdeJson;
