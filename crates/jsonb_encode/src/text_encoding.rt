//! Containers of number literals, as bytes.

ghost use Rattle.std.specs.Prelude.{◌≡◌, ◌↔◌, ◌⊎◌, List, Err, IfOk, IfErr, map, string_bytes};
ghost use Rattle.json_model.specs.Decimal.{Decimal};
ghost use Rattle.jsonb_encode.specs.Limits.{IsWithinLimits};
ghost use Rattle.jsonb_encode.specs.Literals.{IsNumeral, IsRefused, AreNumerals, AreRefused, AreBytesOf, number_tree, numbers_tree, member_tree};

use crate::contents::Contents;
use crate::error::EncodeError;
use crate::number_form::NumericForm;
use std::alloc::Global;

/// The bytes of a root scalar: the number that a number literal writes, of any number of digits, in a form. They stand for
/// this number alone, written fraction digits included.
///
/// `NotANumber` comes exactly where the text is no literal. `OutOfRange` comes exactly where the magnitude is 10^131072 or more, or
/// more than 16,383 fraction digits are written. `DoesNotFit` comes exactly where, else, the number does not have the form.
pub fn encode_numeric_text_scalar(
    alloc: Global,
    text: &str,
    form: NumericForm,
) -> Result<Vec<u8>, EncodeError>
    ensures bytes { IfOk result (λ b. (w : Decimal) × IsNumeral form text.now w × AreBytesOf form b.items (number_tree w)) }
    ensures not_a_number { (result ≡ Err EncodeError.NotANumber) ↔ IsRefused form text.now EncodeError.NotANumber }
    ensures out_of_range { (result ≡ Err EncodeError.OutOfRange) ↔ IsRefused form text.now EncodeError.OutOfRange }
    ensures does_not_fit { (result ≡ Err EncodeError.DoesNotFit) ↔ IsRefused form text.now EncodeError.DoesNotFit }
    ensures causes { IfErr result (λ e. IsRefused form text.now e ⊎ (e ≡ EncodeError.OutOfMemory)) }
{
    let contents = Contents::Numeral(text);
    contents.encode(alloc, form)
}

/// The bytes of an array of the numbers that number literals write, in a form. They stand for this array alone.
///
/// `NotANumber`, `OutOfRange` and `DoesNotFit` come exactly where the first text that is refused is refused so, as
/// `encode_numeric_text_scalar` says. `TooLarge` comes only where no text is refused and the array would have a count or a payload
/// of 2^28 or more, and no other answer but want of memory comes then.
pub fn encode_numeric_text_array(
    alloc: Global,
    texts: &[String],
    form: NumericForm,
) -> Result<Vec<u8>, EncodeError>
    ensures bytes { IfOk result (λ b. (ws : List Decimal) × AreNumerals form (map string_bytes texts.now) ws
        × AreBytesOf form b.items (numbers_tree ws)) }
    ensures not_a_number { (result ≡ Err EncodeError.NotANumber)
        ↔ AreRefused form (map string_bytes texts.now) EncodeError.NotANumber }
    ensures out_of_range { (result ≡ Err EncodeError.OutOfRange)
        ↔ AreRefused form (map string_bytes texts.now) EncodeError.OutOfRange }
    ensures does_not_fit { (result ≡ Err EncodeError.DoesNotFit)
        ↔ AreRefused form (map string_bytes texts.now) EncodeError.DoesNotFit }
    ensures too_large { result ≡ Err EncodeError.TooLarge → (ws : List Decimal) × AreNumerals form (map string_bytes texts.now) ws
        × ¬ IsWithinLimits form (numbers_tree ws) }
    ensures causes { IfErr result (λ e. AreRefused form (map string_bytes texts.now) e
        ⊎ ((e ≡ EncodeError.TooLarge) ⊎ (e ≡ EncodeError.OutOfMemory))) }
{
    let contents = Contents::Numerals(texts);
    contents.encode(alloc, form)
}

/// The bytes of an object of one member: a key, and under it the number that a number literal writes, in a form. They stand for
/// this object alone.
///
/// `NotANumber`, `OutOfRange` and `DoesNotFit` come as `encode_numeric_text_scalar` says. `TooLarge` comes only where the text is not
/// refused and the payload would have 2^28 bytes or more, and no other answer but want of memory comes then.
pub fn encode_numeric_text_object(
    alloc: Global,
    key: &str,
    text: &str,
    form: NumericForm,
) -> Result<Vec<u8>, EncodeError>
    ensures bytes { IfOk result (λ b. (w : Decimal) × IsNumeral form text.now w × AreBytesOf form b.items (member_tree key.now w)) }
    ensures not_a_number { (result ≡ Err EncodeError.NotANumber) ↔ IsRefused form text.now EncodeError.NotANumber }
    ensures out_of_range { (result ≡ Err EncodeError.OutOfRange) ↔ IsRefused form text.now EncodeError.OutOfRange }
    ensures does_not_fit { (result ≡ Err EncodeError.DoesNotFit) ↔ IsRefused form text.now EncodeError.DoesNotFit }
    ensures too_large { result ≡ Err EncodeError.TooLarge → (w : Decimal) × IsNumeral form text.now w
        × ¬ IsWithinLimits form (member_tree key.now w) }
    ensures causes { IfErr result (λ e. IsRefused form text.now e
        ⊎ ((e ≡ EncodeError.TooLarge) ⊎ (e ≡ EncodeError.OutOfMemory))) }
{
    let contents = Contents::KeyAndNumeral(key.as_bytes(), text);
    contents.encode(alloc, form)
}
