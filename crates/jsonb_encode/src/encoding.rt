//! `encode` and `encode_with`: the bytes of a value.

ghost use Rattle.std.specs.Prelude.{◌≡◌, ◌↔◌, ◌⊎◌, Err, IfOk, IfErr, false};
ghost use Rattle.json_exact.specs.Trees.{tree};
ghost use Rattle.jsonb_layout.specs.Stands.{Stands};
ghost use Rattle.jsonb_encode.specs.Encoded.{encoded, canonical};
ghost use Rattle.jsonb_encode.specs.Limits.{all_fit, IsWithinLimits};

use crate::error::EncodeError;
use crate::fitting::value_fits;
use crate::number_form::NumericForm;
use crate::writer::write_root;
use json_exact::Value;
use std::alloc::Global;

/// Whether each number of a value has the form. Each number has the forms `Short` and `Long`.
fn has_form(value: &Value, form: NumericForm) -> bool
    ensures { result ≡ all_fit form (tree value.now) }
{
    match form {
        NumericForm::Short => true,
        NumericForm::Long => true,
        NumericForm::ShortVarlena => value_fits(value, form),
    }
}

/// The bytes of a value, with its numbers in one of three forms. They stand for exactly the value's tree, written fraction
/// digits included.
///
/// `DoesNotFit` comes exactly where the form is `ShortVarlena` and a number has more than 63 fraction digits or a weight
/// outside -64 to 63, as 1e300. `TooLarge` comes only where, else, some container would have a count or a payload of 2^28 or
/// more, and no other answer but want of memory comes then.
///
/// By review, it writes from left to right into one buffer, and sets the word of an item once its piece is written. It takes memory
/// for the bytes alone, and recurses as deep as the value nests.
pub fn encode_with(alloc: Global, value: &Value, form: NumericForm) -> Result<Vec<u8>, EncodeError>
    ensures bytes { IfOk result (λ bytes. bytes.items ≡ encoded form (tree value.now)) }
    ensures stands { IfOk result (λ bytes. Stands bytes.items (tree value.now)) }
    ensures within { IfOk result (λ _. IsWithinLimits form (tree value.now)) }
    ensures does_not_fit { (result ≡ Err EncodeError.DoesNotFit)
        ↔ (all_fit form (tree value.now) ≡ false) }
    ensures too_large { result ≡ Err EncodeError.TooLarge → IsWithinLimits form (tree value.now) → ⊥ }
    ensures causes { IfErr result (λ e. (e ≡ EncodeError.DoesNotFit)
        ⊎ ((e ≡ EncodeError.TooLarge) ⊎ (e ≡ EncodeError.OutOfMemory))) }
{
    if !has_form(value, form) {
        return Err(EncodeError::DoesNotFit);
    }
    let mut bytes = Vec::new(alloc);
    match write_root(&mut bytes, value, form) {
        Ok(()) => Ok(bytes),
        Err(error) => Err(error),
    }
}

/// The bytes of a value's canonical form. They stand for exactly the value's tree, written fraction digits included. A database whose
/// encoding is UTF8 stores these bytes where it takes the value: PostgreSQL refuses a string or a key with the character NUL.
///
/// `TooLarge` comes only where some container would have a count or a payload of 2^28 or more, and no other answer but want of
/// memory comes then.
pub fn encode(alloc: Global, value: &Value) -> Result<Vec<u8>, EncodeError>
    ensures bytes { IfOk result (λ bytes. bytes.items ≡ canonical (tree value.now)) }
    ensures stands { IfOk result (λ bytes. Stands bytes.items (tree value.now)) }
    ensures within { IfOk result (λ _. IsWithinLimits NumericForm.Short (tree value.now)) }
    ensures too_large { result ≡ Err EncodeError.TooLarge → IsWithinLimits NumericForm.Short (tree value.now) → ⊥ }
    ensures causes { IfErr result (λ e. (e ≡ EncodeError.TooLarge) ⊎ (e ≡ EncodeError.OutOfMemory)) }
{
    encode_with(alloc, value, NumericForm::Short)
}
