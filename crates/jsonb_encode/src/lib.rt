//! Bytes of PostgreSQL's `jsonb` that stand for a JSON value in memory, or for number literals of any number of digits.
//!
//! [`encode`] gives the one byte string of a value's canonical form: the bytes that a database in UTF8 stores, where it takes the
//! value. PostgreSQL refuses a string or a key with the character NUL (U+0000), which has bytes here all the same. [`encode_with`] writes the numbers
//! in one of three forms, a [`NumericForm`]. Both keep the fraction digits that are written: `1` and `1.0` have different bytes.
//!
//! ```text
//! encode(alloc, &one_point_zero)?;                              // 01000050 08000090 20000000 8080 0100, in hex
//! encode_with(alloc, &one, NumericForm::Long)?;                 // 01000050 0a000090 28000000 0000 0000 0100
//! encode_with(alloc, &one, NumericForm::ShortVarlena)?;         // 01000050 05000090 0b 0080 0100
//! encode_numeric(alloc, "1e131071", NumericForm::Short)?;         // 28000000 0000 ff7f e803: the number alone
//! encode_numeric_text_scalar(alloc, "1.0", NumericForm::Short)?;  // as the first of these
//! encode_array_of(alloc, &[child, child])?;                     // 02000040, two words, and each child's bytes
//! to_hex(alloc, &bytes)?;                                       // two digits for each byte
//! strip_varlena(&stored)?;                                      // the bytes behind a stored value's header
//! ```
//!
//! The layout is the one of PostgreSQL's `src/include/utils/jsonb.h`, `src/include/varatt.h` and
//! `src/backend/utils/adt/numeric.c` on a machine with low bytes first. A container is a header word, an entry word for each item,
//! and the items' pieces. Each 32nd entry, from the first on, holds the sum of all lengths so far, and the others their own. Keys
//! come first, in order of length and then of bytes, as a `Map` keeps them. Numbers and containers are at the next 4-byte place,
//! behind zero bytes. [`EncodeError`] says what is refused.
//!
//! A value's numbers have at most 38 digits. Literals may have any number: PostgreSQL stores them, and a reader with narrower
//! numbers must tell them apart from what is damaged.
//!
//! The writer goes from left to right into one buffer: it writes empty words for the items of a container, and sets each
//! once its piece is written. It takes memory for the bytes alone. Both are by review.
//!
//! What the bytes are is said in `specs/`: `Number` for a number in a form, `Encoded` for a tree, `Canonical` for which bytes are
//! canonical for which tree, `Limits` for when a tree has bytes, `Literals` for which texts have, `Children` for an array of
//! containers, `Varlena` for a stored value's header. [`laws`] says that they stand for what they are made of.
#![tactic(auto)]

mod buffer;
mod container;
mod contents;
mod encoding;
mod entries;
mod error;
mod fitting;
mod hex_text;
mod in_memory;
mod kind;
pub mod laws;
mod number;
mod number_form;
mod numeral;
mod text_encoding;
mod varlena;
mod wide_number;
mod writer;

pub use container::{encode_array_of, encode_raw_key_object};
pub use encoding::{encode, encode_with};
pub use entries::{JB_FARRAY, JB_FSCALAR, JENTRY_HAS_OFF};
pub use error::EncodeError;
pub use hex_text::to_hex;
pub use number_form::NumericForm;
pub use numeral::encode_numeric;
pub use text_encoding::{
    encode_numeric_text_array, encode_numeric_text_object, encode_numeric_text_scalar,
};
pub use varlena::{VarlenaError, strip_varlena};
