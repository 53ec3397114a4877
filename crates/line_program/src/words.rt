//! The words of the command line.
ghost use Rattle.std.specs.Prelude.{◌≡◌, ◌⊎◌, IfErr};

use std::alloc::AllocError;
use std::env;
use std::env::Env;
use std::io::ErrorKind;

const NO_WORDS: u8 = 1;

const NO_MEMORY: u8 = 7;

/// The words of the command line after the program's name, or the exit code to end with: 7 for want of memory, and else 1, where the
/// system gives none.
pub fn words_of<R: Env + AllocGlobal>(rt: &R) -> Result<Vec<String>, u8>
    ensures { IfErr result (λ code. (code ≡ 1) ⊎ (code ≡ 7)) }
{
    let mut all = match env::args(rt) {
        Ok(all) => all,
        Err(error) if error.kind() == ErrorKind::OutOfMemory => return Err(NO_MEMORY),
        Err(_) => return Err(NO_WORDS),
    };
    let _program = all.next();
    match all.collect(rt.alloc()) {
        Ok(words) => Ok(words),
        Err(AllocError) => Err(NO_MEMORY),
    }
}
