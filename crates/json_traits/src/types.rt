//! Types, sets of types, and the types of a set in order.

mod iter;
mod json_type;
pub mod laws;
mod set;
mod value_type;
mod whole;

pub use iter::JsonTypeSetIterator;
pub use json_type::JsonType;
pub use set::JsonTypeSet;
pub use whole::number_is_integer;
