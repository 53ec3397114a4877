//! `push`: a value is put behind others.

ghost use Rattle.std.specs.Prelude.{◌≡◌, ◌++◌, ◌∷◌, [], OnOk};

use json_exact::OutOfMemory;

/// Puts a value behind others.
pub fn push<T: Drop>(values: &mut Vec<T>, value: T) -> Result<(), OutOfMemory>
    ensures { OnOk result (values.new.items ≡ values.old.items ++ value ∷ []) }
{
    match values.push(value) {
        Ok(()) => Ok(()),
        Err(_) => Err(OutOfMemory),
    }
}
