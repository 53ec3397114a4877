//! Number literals of any number of digits, and their bytes.

ghost use Rattle.std.specs.Prelude.{◌≡◌, ◌⊎◌, ◌↔◌, ◌+◌, ◌-◌, ◌^◌, ◌<◌, ◌++◌, Err, min, length, IfOk, IfErr, MatchOption, MatchResult, IsTrue, ◌==◌, ◌&&◌, nat_lt, ◌≤◌, ℕ, if◌then◌else◌};
ghost use Rattle.json_model.specs.Decimal.{Decimal};
ghost use Rattle.json_exact.specs.Literal.{AreDigits, number, placed};
ghost use Rattle.json_exact.specs.Parsed.{IsInRange};
ghost use Rattle.jsonb_layout.specs.Numeric.{Numeric};
ghost use Rattle.jsonb_encode.specs.Literals.{IsNumeral, IsRefused};
ghost use Rattle.jsonb_encode.specs.Number.{numeric, fits};
ghost use Rattle.jsonb_encode.specs.inner.Wide.{IsKept};

use crate::error::EncodeError;
use crate::number::{is_short, push_lead};
use crate::number_form::NumericForm;
use crate::wide_number::WideNumber;
use json_exact::LiteralParts;
use jsonb_layout::Header;
use std::alloc::Global;

/// The most fraction digits that are written.
const MOST_FRACTION_DIGITS: u64 = 16_383;

/// So many zeros behind a digit that is not 0 make a number past the limits.
const MANY_ZEROS: u64 = 147_456;

/// The most groups in front of the point.
const MOST_WHOLE_GROUPS: usize = 0x8000;

/// The most groups behind a size byte.
const MOST_SHORT_GROUPS: usize = 62;

/// A number literal in range.
#[derive(Clone, Copy)]
pub struct Numeral<'a> {
    /// Its magnitude, counted in the last of the groups that hold the fraction digits.
    pub number: WideNumber<'a>,
    pub header: Header,
    /// How many groups the magnitude has.
    pub count: usize,
    /// How many of them at the end are 0.
    pub zeros: usize,
}

/// 2^15 plus the weight of a number of so many groups, of which so many are behind the point. The weight of 0 is 0.
fn lift(count: usize, fraction_groups: usize) -> u16
    requires high { count ≤ 2 ^ 15 + fraction_groups }
    requires few { fraction_groups ≤ 4096 }
    ensures { result ≡ (if count == 0 then 2 ^ 15 else (2 ^ 15 + count) - (1 + fraction_groups)) }
{
    if count == 0 {
        return 0x8000;
    }
    (0x8000 + count - (1 + fraction_groups)) as u16
}

/// Whether a number of so many groups is below 0: `-0` is not.
fn is_below_zero(negative: bool, count: usize) -> bool
    ensures { result ≡ (negative && nat_lt 0 count) }
{
    negative && count > 0
}

/// What is kept of a literal of these parts. `None` where it is out of range.
fn numeral_of<'a>(parts: &LiteralParts<'a>) -> Option<Numeral<'a>>
    requires whole { AreDigits parts.now.whole.now }
    requires fraction { AreDigits parts.now.fraction.now }
    requires few { length parts.now.whole.now + length parts.now.fraction.now < 2 ^ 63 }
    ensures { (size : ℕ) (w : Decimal) → parts.now.exponent.size ≡ min size (2 ^ 64 - 1)
        → w ≡ placed parts.now.negative (number (parts.now.whole.now ++ parts.now.fraction.now)) (length parts.now.fraction.now) parts.now.exponent.down size
        → MatchOption result (¬ IsInRange w) (λ n. IsInRange w × IsKept n w) }
{
    let places = parts.fraction_digits();
    if places > MOST_FRACTION_DIGITS {
        return None;
    }
    let fraction_groups = (places as usize + 3) / 4;
    let zeros = parts.zeros().min(MANY_ZEROS) as usize;
    let number = WideNumber {
        whole: parts.whole,
        fraction: parts.fraction,
        zeros: zeros + (4 * fraction_groups - places as usize),
    };
    let count = number.count();
    if count > MOST_WHOLE_GROUPS + fraction_groups {
        return None;
    }
    let header = Header {
        minus: is_below_zero(parts.negative, count),
        dscale: places as u16,
        lift: lift(count, fraction_groups),
    };
    let zeros = number.zero_groups(count);
    Some(Numeral {
        number,
        header,
        count,
        zeros,
    })
}

impl Numeral<'_> {
    /// How many groups are written.
    fn groups(&self) -> usize
        requires { self.now.zeros ≤ self.now.count }
        ensures { result ≡ self.now.count - self.now.zeros }
    {
        self.count - self.zeros
    }

    /// Whether it has a form.
    #[tactic(auto, unfolding(crate::specs::Number::fits))]
    fn fits(&self, form: NumericForm) -> bool
        requires { self.now.zeros ≤ self.now.count }
        ensures { (w : Decimal) → IsKept self.now w → result ≡ fits form w }
    {
        match form {
            NumericForm::Short | NumericForm::Long => true,
            NumericForm::ShortVarlena => {
                is_short(self.header) && self.groups() <= MOST_SHORT_GROUPS
            }
        }
    }
}

/// Reads a literal that has a form.
pub fn read_numeral(text: &str, form: NumericForm) -> Result<Numeral<'_>, EncodeError>
    ensures { MatchResult result (λ n. (w : Decimal) × IsNumeral form text.now w × IsKept n w) (λ e. IsRefused form text.now e) }
{
    let _length = text.len();
    let Some(parts) = LiteralParts::read(text) else {
        return Err(EncodeError::NotANumber);
    };
    let Some(numeral) = numeral_of(&parts) else {
        return Err(EncodeError::OutOfRange);
    };
    if !numeral.fits(form) {
        return Err(EncodeError::DoesNotFit);
    }
    Ok(numeral)
}

/// Writes a literal in a form that it has.
pub fn push_numeral(
    bytes: &mut Vec<u8>,
    numeral: &Numeral<'_>,
    form: NumericForm,
) -> Result<(), EncodeError>
    requires { (w : Decimal) × IsInRange w × IsTrue (fits form w) × IsKept numeral.now w }
    ensures ok { IfOk result (λ _. (w : Decimal) → IsKept numeral.now w → bytes.new.items ≡ bytes.old.items ++ numeric form w) }
    ensures err { IfErr result (λ e. e ≡ EncodeError.OutOfMemory) }
{
    push_lead(bytes, numeral.header, numeral.groups(), form)?;
    numeral
        .number
        .push_groups(bytes, numeral.count, numeral.zeros)
}

/// Writes the literal that a text is, in a form that it has.
pub fn push_text(bytes: &mut Vec<u8>, text: &str, form: NumericForm) -> Result<(), EncodeError>
    ensures { MatchResult result
        (λ _. (w : Decimal) × IsNumeral form text.now w × (bytes.new.items ≡ bytes.old.items ++ numeric form w))
        (λ e. IsRefused form text.now e ⊎ ((e ≡ EncodeError.OutOfMemory) × ((w : Decimal) × IsNumeral form text.now w))) }
{
    let numeral = read_numeral(text, form)?;
    push_numeral(bytes, &numeral, form)
}

/// The bytes of the number that a number literal of JSON writes, with its written fraction digits, in a form. The literal may have
/// any number of digits. The bytes stand for exactly this number.
///
/// `NotANumber` comes exactly where the text is no literal, as `01`. `OutOfRange` comes exactly where the magnitude is 10^131072 or
/// more, as `1e131072`, or more than 16,383 fraction digits are written. `DoesNotFit` comes exactly where, else, the form is
/// `ShortVarlena` and the number has more than 63 fraction digits, a weight outside -64 to 63, as 1e300, or more than 62 groups.
///
/// The text is read before memory is taken, and memory is taken for the bytes alone.
pub fn encode_numeric(alloc: Global, text: &str, form: NumericForm) -> Result<Vec<u8>, EncodeError>
    ensures bytes { IfOk result (λ bytes. (w : Decimal) × IsNumeral form text.now w
        × (bytes.items ≡ numeric form w) × Numeric bytes.items w) }
    ensures not_a_number { (result ≡ Err EncodeError.NotANumber) ↔ IsRefused form text.now EncodeError.NotANumber }
    ensures out_of_range { (result ≡ Err EncodeError.OutOfRange) ↔ IsRefused form text.now EncodeError.OutOfRange }
    ensures does_not_fit { (result ≡ Err EncodeError.DoesNotFit) ↔ IsRefused form text.now EncodeError.DoesNotFit }
    ensures causes { IfErr result (λ e. IsRefused form text.now e ⊎ (e ≡ EncodeError.OutOfMemory)) }
{
    let mut bytes = Vec::new(alloc);
    match push_text(&mut bytes, text, form) {
        Ok(()) => Ok(bytes),
        Err(error) => Err(error),
    }
}
