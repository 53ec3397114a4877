//! Makes the bytes of JSON values, and tells whether the bytes of a value are canonical.
//!
//! For example [`encode`] gives the bytes of a value in memory, and [`is_canonical`] says yes of what `Jsonb::root` reads from
//! them. Most of these calls are those of the crate `jsonb_encode`. This crate adds five:
//!
//! - [`is_canonical`] tells whether each number in a node stands as [`encode`] writes it.
//! - [`assemble`] puts a header word, entry words and a payload together. It checks none of them.
//! - [`encode_nested_arrays`] gives the bytes of arrays in arrays, to a depth.
//! - [`decode_hex`] reads the bytes that hex text writes, and [`decode_hex_into`] into a buffer that you keep. [`to_hex`] writes them.

mod container;
mod hex_text;

pub use crate::canonical::is_canonical;
pub use container::{assemble, encode_nested_arrays};
pub use hex_text::{HexError, decode_hex, decode_hex_into};
pub use jsonb_encode::{
    EncodeError, JB_FARRAY, JB_FSCALAR, JENTRY_HAS_OFF, NumericForm, VarlenaError, encode,
    encode_array_of, encode_numeric, encode_numeric_text_array, encode_numeric_text_object,
    encode_numeric_text_scalar, encode_raw_key_object, encode_with, strip_varlena, to_hex,
};
