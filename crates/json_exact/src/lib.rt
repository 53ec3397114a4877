//! Exact decimals, and JSON values that are made of them: numbers have neither a binary fraction nor a rounding.
//!
//! A [`Decimal`] is a value: `1` and `1.0` are one `Decimal`. A [`Number`] is a decimal with the count of fraction digits
//! that it is written with, so `1` and `1.0` are two numbers of one value. A [`Value`] is any JSON value, whose objects are
//! [`Map`]s in key order.
//!
//! ```text
//! let number = Number::parse("1.50")?;                     // value 3/2, written with 2 fraction digits
//! number.to_text(alloc)?;                                  // "1.50"
//! number.decimal() == Decimal::parse("15e-1")?;            // true
//! Decimal::parse("-2")? < Decimal::from_i64(-1);           // true
//! Decimal::parse("7.0")?.to_u64();                         // Some(7)
//! Decimal::from_groups(false, 1, &[1, 0, 0x29, 0x09]);     // 12345, from the groups 1 and 2345 of PostgreSQL's `numeric`
//! Decimal::parse("-12345.6")?.parts();                     // negative, mantissa 123456, exponent -1
//! map.insert(key, Value::Number(number))?;                 // the old value under the key, if any
//! value.clone_in(alloc)?;                                  // a value of the same tree, in memory of its own
//! Value::from_json_text(alloc, "[1, {}]")?;                // an array of 1 and the empty object
//! Value::from_json_text(alloc, "1.0");                     // Err(Float)
//! ```
//!
//! A `Decimal` is kept as PostgreSQL stores it in `jsonb`: in groups of four digits that begin at the point. The first group
//! is not 0, zeros fill up the eleven, and `top` counts the groups from the first to the last of 4,096 behind the point.
//!
//! ```text
//! -12345.6      place       1     0    -1    -2  ..  -9        weight() is 1, last_place() is -1, group(0) is 2345
//!               groups  [   1, 2345, 6000,    0, ..,  0 ]      top is 1 + 1 + 4096
//! ```
//!
//! So a number of a slice is read by copying its groups, two decimals are compared by `top` and then by groups, and no digit
//! is taken out of a number wider than one group.
//!
//! The notation is that of RFC 8259, section 6, and the values those of section 3. The limits are this project's own: a
//! decimal has at most 38 digits from the first to the last that is not 0, its magnitude is below 10^131072, and 16,383
//! fraction digits write it exactly. `from_groups` answers `None` where there are more digits, and `parse` a [`NumberError`].
//! Only `Number::to_text`, `Value::clone_in`, `Value::from_serde`, `Value::from_json_text`, `Map::insert` of a new key and
//! `Map::from_members` may take memory.
//!
//! JSON text is read by `serde_json`, whose definition says which text is which value. It keeps whole numbers of 64 bits
//! exactly and every other number as a float, which rounds: so a float is refused.
//!
//! Contracts see a `Decimal` as a whole number of parts, of which 10^16383 make one (`specs/Exact.antt`), a `Number` as the
//! record of its digits and its fraction digits that `json_model` calls `Decimal`, and a `Value` as its tree
//! (`specs/Trees.antt`); `specs/Serde.antt` has the tree of a value of `serde_json`. [`laws`] says what holds of all of them.
#![tactic(auto)]

mod cloning;
mod decimal;
mod from_serde;
mod group;
mod json_text;
pub mod laws;
mod literal;
mod literal_parts;
mod map;
mod map_iter;
mod number;
mod number_error;
mod out_of_memory;
mod parse;
mod regrouping;
mod significant_digits;
mod significant_groups;
mod text;
mod value;
mod whole;

pub use decimal::{Decimal, DecimalParts};
pub use from_serde::FromSerdeError;
pub use json_text::JsonTextError;
pub use key_map::MapError;
pub use literal::Exponent;
pub use literal_parts::LiteralParts;
pub use map::{InsertError, Map, Member};
pub use map_iter::MapIter;
pub use number::Number;
pub use number_error::NumberError;
pub use out_of_memory::OutOfMemory;
pub use value::Value;
