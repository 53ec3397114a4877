//! The bytes of numbers.

ghost use Rattle.std.specs.Prelude.{◌≡◌, ◌+◌, ◌*◌, ◌^◌, ◌<◌, ◌≤◌, ◌++◌, ◌+ℤ◌, ◌-ℤ◌, ◌≤ℤ◌, ◌<ℤ◌, pos, length, nat_abs, IfOk, IfErr, IsTrue};
ghost use Rattle.std.specs.Int.{w16, to_le_bytes};
ghost use Rattle.std.specs.List.{flat_map};
ghost use Rattle.jsonb_encode.specs.Number.{groups, lift, header, is_short, short_head, long_head, head, numeric, fits};
ghost use Rattle.json_model.specs.Decimal.{Decimal as Written};
ghost use Rattle.json_exact.specs.Exact.{IsWorth};
ghost use Rattle.jsonb_encode.specs.inner.Writing.{lead, groups_down};

use crate::buffer::{push_all, push_half, push_word};
use crate::error::EncodeError;
use crate::laws::numbers_are_narrow_and_in_range;
use crate::number_form::NumericForm;
use json_exact::{Decimal, Number};
use jsonb_layout::Header;

/// The groups of a decimal that are written: so many, from a place downwards.
#[derive(Clone, Copy)]
struct Span {
    first: i32,
    count: u32,
}

/// How many places there are from a first one down to a last one.
fn places_between(first: i32, last: i32) -> u32
    requires low { pos 0 ≤ℤ (last +ℤ pos 4096) }
    requires order { last ≤ℤ first }
    requires high { first <ℤ pos (2 ^ 15) }
    ensures { last +ℤ pos result ≡ first +ℤ pos 1 }
{
    (first - last + 1) as u32
}

/// The groups from the first to the last that is not 0. Zero has none.
fn span_of(decimal: &Decimal) -> Span
    ensures groups { (w : Written) → IsWorth decimal.now w → w.places ≤ 16383
        → groups_down result.first result.count (nat_abs decimal.now) ≡ groups w }
    ensures lift { (w : Written) → IsWorth decimal.now w → w.places ≤ 16383
        → result.first +ℤ pos (2 ^ 15) ≡ pos (lift w) }
    ensures few { result.count ≤ 11 }
    ensures low { pos 0 ≤ℤ (result.first +ℤ pos 4096) }
    ensures high { result.first <ℤ pos (2 ^ 15) }
{
    let first = decimal.weight();
    let last = decimal.last_place();
    if decimal.group(first) == 0 {
        return Span { first: 0, count: 0 };
    }
    let _whole = decimal.is_integer();
    Span {
        first,
        count: places_between(first, last),
    }
}

/// 2^15 plus a weight.
fn lifted(weight: i32) -> u16
    requires low { pos 0 ≤ℤ (weight +ℤ pos 4096) }
    requires high { weight <ℤ pos (2 ^ 15) }
    ensures { weight +ℤ pos (2 ^ 15) ≡ pos result }
{
    (weight + 0x8000) as u16
}

/// What the header of a number says that has this weight.
fn header_with(number: &Number, weight: i32) -> Header
    requires low { pos 0 ≤ℤ (weight +ℤ pos 4096) }
    requires high { weight <ℤ pos (2 ^ 15) }
    requires weight { weight +ℤ pos (2 ^ 15) ≡ pos (lift number.now) }
    ensures { result ≡ header number.now }
{
    Header {
        minus: number.decimal().parts().negative,
        dscale: number.fraction_digits(),
        lift: lifted(weight),
    }
}

/// What the header of a number says.
fn header_of(number: &Number) -> Header
    ensures { result ≡ header number.now }
{
    let _few = number.fraction_digits();
    let span = span_of(&number.decimal());
    header_with(number, span.first)
}

/// Whether the short header holds the weight and the fraction digits.
pub fn is_short(header: Header) -> bool
    ensures { result ≡ is_short header }
{
    header.dscale < 64 && 0x7fc0 <= header.lift && header.lift < 0x8040
}

/// Whether a number has a form. A number of a value has few groups, so the size byte always holds its size.
#[tactic(auto, unfolding(crate::specs::Number::fits))]
pub fn number_fits(number: &Number, form: NumericForm) -> bool
    ensures { result ≡ fits form number.now }
{
    numbers_are_narrow_and_in_range(number);
    match form {
        NumericForm::Short | NumericForm::Long => true,
        NumericForm::ShortVarlena => is_short(header_of(number)),
    }
}

fn push_short_head(bytes: &mut Vec<u8>, header: Header) -> Result<(), EncodeError>
    requires { header.dscale < 64 }
    ensures ok { IfOk result (λ _. bytes.new.items ≡ bytes.old.items ++ short_head header) }
    ensures err { IfErr result (λ e. e ≡ EncodeError.OutOfMemory) }
{
    let sign = if header.minus { 0x2000 } else { 0 };
    push_half(
        bytes,
        0x8000 + sign + 0x80 * header.dscale + header.lift % 0x80,
    )
}

fn push_long_head(bytes: &mut Vec<u8>, header: Header) -> Result<(), EncodeError>
    requires { header.dscale < 2 ^ 14 }
    ensures ok { IfOk result (λ _. bytes.new.items ≡ bytes.old.items ++ long_head header) }
    ensures err { IfErr result (λ e. e ≡ EncodeError.OutOfMemory) }
{
    let sign = if header.minus { 0x4000 } else { 0 };
    push_half(bytes, sign + header.dscale)?;
    push_half(bytes, header.lift.wrapping_add(0x8000))
}

/// Writes the header of a number in a form.
fn push_head(bytes: &mut Vec<u8>, header: Header, form: NumericForm) -> Result<(), EncodeError>
    requires few { header.dscale < 2 ^ 14 }
    requires fits { form ≡ NumericForm.ShortVarlena → header.dscale < 64 }
    ensures ok { IfOk result (λ _. bytes.new.items ≡ bytes.old.items ++ head form header) }
    ensures err { IfErr result (λ e. e ≡ EncodeError.OutOfMemory) }
{
    match form {
        NumericForm::Short => {
            if is_short(header) {
                push_short_head(bytes, header)
            } else {
                push_long_head(bytes, header)
            }
        }
        NumericForm::Long => push_long_head(bytes, header),
        NumericForm::ShortVarlena => push_short_head(bytes, header),
    }
}

/// How many bytes the header of a number has in a form.
fn head_length(header: Header, form: NumericForm) -> usize
    ensures { result ≡ length (head form header) }
{
    match form {
        NumericForm::Short => { if is_short(header) { 2 } else { 4 } }
        NumericForm::Long => 4,
        NumericForm::ShortVarlena => 2,
    }
}

/// Writes the size and the header of a number of so many groups.
pub fn push_lead(
    bytes: &mut Vec<u8>,
    header: Header,
    count: usize,
    form: NumericForm,
) -> Result<(), EncodeError>
    requires few { header.dscale < 2 ^ 14 }
    requires fits { form ≡ NumericForm.ShortVarlena → header.dscale < 64 }
    requires count { count < 2 ^ 20 }
    requires small { form ≡ NumericForm.ShortVarlena → count ≤ 62 }
    ensures ok { IfOk result (λ _. bytes.new.items ≡ bytes.old.items ++ lead form header count) }
    ensures err { IfErr result (λ e. e ≡ EncodeError.OutOfMemory) }
{
    let size = head_length(header, form) + 2 * count;
    match form {
        NumericForm::Short | NumericForm::Long => push_word(bytes, 4 * (4 + size) as u32)?,
        NumericForm::ShortVarlena => push_all(bytes, &[(2 * (1 + size) + 1) as u8])?,
    }
    push_head(bytes, header, form)
}

/// The place so far below another.
fn below(place: i32, index: u32) -> i32
    requires low { pos 0 ≤ℤ (place +ℤ pos 4096) }
    requires index { index < 2 ^ 20 }
    ensures { result ≡ place -ℤ pos index }
{
    place - index as i32
}

/// Writes so many groups, from a place downwards.
fn push_groups(bytes: &mut Vec<u8>, decimal: &Decimal, span: Span) -> Result<(), EncodeError>
    requires low { pos 0 ≤ℤ (span.first +ℤ pos 4096) }
    requires count { span.count ≤ 11 }
    ensures ok { IfOk result (λ _. bytes.new.items
        ≡ bytes.old.items ++ flat_map (to_le_bytes w16) (groups_down span.first span.count (nat_abs decimal.now))) }
    ensures err { IfErr result (λ e. e ≡ EncodeError.OutOfMemory) }
{
    for index in 0..span.count {
        push_half(bytes, decimal.group(below(span.first, index)))?;
    }
    Ok(())
}

/// Writes a number in a form that it has.
pub fn push_number(
    bytes: &mut Vec<u8>,
    number: &Number,
    form: NumericForm,
) -> Result<(), EncodeError>
    requires { IsTrue (fits form number.now) }
    ensures ok { IfOk result (λ _. bytes.new.items ≡ bytes.old.items ++ numeric form number.now) }
    ensures err { IfErr result (λ e. e ≡ EncodeError.OutOfMemory) }
{
    let decimal = number.decimal();
    let _few = number.fraction_digits();
    let span = span_of(&decimal);
    let header = header_with(number, span.first);
    push_lead(bytes, header, span.count as usize, form)?;
    push_groups(bytes, &decimal, span)
}
