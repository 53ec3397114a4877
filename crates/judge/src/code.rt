//! The answer to one line of JSON text.
ghost use Rattle.std.specs.Prelude.{string_bytes, IfOk};
ghost use Rattle.judge.specs.Codes.{CodeAnswer};

use json_exact::{JsonTextError, Value};
use jsonb::encode::{EncodeError, encode, to_hex};
use line_program::Command;
use std::alloc::{AllocError, Global};

// The command `encode`, which gives the bytes of the JSON text of a line, in hex.
pub(crate) struct EncodeCommand;

// What `encode` keeps from line to line: nothing.
#[derive(Drop)]
pub(crate) struct NothingKept;

impl Command for EncodeCommand {
    ghost is_answer = { λ _. CodeAnswer };

    type Answer = String;

    type Kept = NothingKept;

    fn start(&self, _alloc: Global) -> NothingKept {
        NothingKept
    }

    fn answer(
        &self,
        alloc: Global,
        _kept: &mut NothingKept,
        line: &[u8],
    ) -> Result<String, AllocError> {
        let mut text = code_of(alloc, line)?;
        text.push('\n')?;
        Ok(text)
    }
}

// The hex of the bytes of a JSON text, or the name of its refusal.
fn code_of(alloc: Global, line: &[u8]) -> Result<String, AllocError>
    ensures { IfOk result (λ text. CodeAnswer line.now (string_bytes text)) }
{
    let Ok(text) = str::from_utf8(line) else {
        return String::from_str(alloc, "NotJson");
    };
    let value = match Value::from_json_text(alloc, text) {
        Ok(value) => value,
        Err(JsonTextError::NotJson) => return String::from_str(alloc, "NotJson"),
        Err(JsonTextError::Float) => return String::from_str(alloc, "Float"),
        Err(JsonTextError::OutOfMemory) => return Err(AllocError),
    };
    match encode(alloc, &value) {
        Ok(bytes) => to_hex(alloc, &bytes).map_err(|_| AllocError),
        Err(EncodeError::TooLarge) => String::from_str(alloc, "TooLarge"),
        // only want of memory is left
        Err(_) => Err(AllocError),
    }
}
