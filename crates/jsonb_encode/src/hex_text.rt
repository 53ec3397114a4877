//! Bytes as hex text.

ghost use Rattle.std.specs.Prelude.{◌≡◌, IfOk, string_bytes};
ghost use Rattle.hex.specs.Hex.{encode_lower};

use json_exact::OutOfMemory;
use std::alloc::Global;

/// Two hex digits for each byte, in lower case: `0f` for the byte 15. It asks once for the memory of the text.
pub fn to_hex(alloc: Global, bytes: &[u8]) -> Result<String, OutOfMemory>
    ensures { IfOk result (λ text. string_bytes text ≡ encode_lower bytes.now) }
{
    match hex::encode(alloc, bytes) {
        Ok(text) => Ok(text),
        Err(_) => Err(OutOfMemory),
    }
}
