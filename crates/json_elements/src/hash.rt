//! The 64-bit FNV-1a hash, and that of each scalar and key.

ghost use Rattle.std.specs.Prelude.{◌≡◌, ◌∷◌, ◌++◌, [], ◌%◌, ◌^◌, if◌then◌else◌};
ghost use Rattle.json_elements.specs.Number.{fed as fed_bytes, fed_one as fed_byte, hash, word, decimal_bytes, exponent_bytes, mantissa_bytes};

use json_exact::Number;

/// The hash of no bytes.
pub const BASIS: u64 = 14695981039346656037;

/// The hash of one byte more.
#[inline(always)]
#[tactic(auto, unfolding(crate::specs::Number::fed_one))]
pub fn fed_one(state: u64, byte: u8) -> u64
    ensures { result ≡ fed_byte state byte }
{
    (state ^ byte as u64).wrapping_mul(1099511628211)
}

/// The hash of more bytes.
#[inline(always)]
pub fn fed(state: u64, bytes: &[u8]) -> u64
    ensures { result ≡ fed_bytes state bytes.now }
{
    let mut all = state;
    for byte in bytes {
        all = fed_one(all, *byte);
    }
    all
}

/// The hash of eight bytes more: those of a number, the low byte first.
pub fn fed_word(state: u64, number: u64) -> u64
    ensures { result ≡ fed_bytes state (word number) }
{
    fed(state, &number.to_le_bytes())
}

/// 1 for what is below zero, and 0 else.
fn sign_byte(negative: bool) -> u8
    ensures { result ≡ (if negative then 1 else 0) }
{
    if negative { 1 } else { 0 }
}

/// The hash of the bytes of an exponent more.
#[tactic(auto, unfolding(crate::specs::Number::exponent_bytes))]
fn fed_exponent(state: u64, exponent: i32) -> u64
    ensures { result ≡ fed_bytes state (exponent_bytes exponent) }
{
    fed(state, &exponent.to_le_bytes())
}

/// The hash of the bytes of a mantissa more.
fn fed_mantissa(state: u64, mantissa: u128) -> u64
    ensures { result ≡ fed_bytes state (mantissa_bytes mantissa) }
{
    fed(state, &mantissa.to_le_bytes())
}

/// The number of a number, which is that of its value: `1` and `1.0` have one.
pub fn number_hash(number: &Number) -> u64
    ensures { result ≡ hash (3 ∷ decimal_bytes number.now) }
{
    let parts = number.decimal().parts();
    let signed = fed_one(fed_one(BASIS, 3), sign_byte(parts.negative));
    fed_mantissa(fed_exponent(signed, parts.exponent), parts.mantissa)
}

/// The number of a string.
pub fn text_hash(text: &str) -> u64
    ensures { result ≡ hash (4 ∷ text.now) }
{
    fed(fed_one(BASIS, 4), text.as_bytes())
}

/// The hash of a key, before the value under it.
pub fn key_hash(key: &str) -> u64
    ensures { result ≡ hash (6 ∷ key.now ++ 255 ∷ []) }
{
    fed_one(fed(fed_one(BASIS, 6), key.as_bytes()), 255)
}

/// The number of an object, from the sum of its members' numbers.
pub fn object_hash(sum: u64) -> u64
    ensures { result ≡ hash (7 ∷ word (sum % 2 ^ 64)) }
{
    fed_word(fed_one(BASIS, 7), sum)
}
