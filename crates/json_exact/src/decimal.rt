//! `Decimal`: an exact decimal of at most 38 digits, kept in groups of four.

ghost use Rattle.std.specs.Prelude.{ℕ, suc, ◌+◌, ◌-◌, ◌*◌, ◌/◌, ◌%◌, ◌^◌, ◌≤◌, ◌<◌, ◌≡◌, ◌↔◌, pos, ◌+ℤ◌, ◌*ℤ◌, ◌<ℤ◌, nat_abs, int_lt, false, length, get_or, MatchOption, IfSome, IsTrue};
ghost use Rattle.std.specs.Ordering.{nat_cmp};
ghost use Rattle.json_model.specs.Decimal.{HasNarrowDigits, IsWhole, signed};
ghost use Rattle.json_exact.specs.DecimalGroups.{group, IsGreatestPlace, IsLeastPlace, IsScaled};
ghost use Rattle.json_exact.specs.Digits.{joined, count};
ghost use Rattle.json_exact.specs.Exact.{exactly, parts, IsWithinLimits};
ghost use Rattle.json_exact.specs.Groups.{groups_of, lifted, AreGroups, AreWorth};
ghost use Rattle.json_exact.specs.inner.SignificantDigits.{Holds};
ghost use Rattle.json_exact.specs.inner.SignificantGroups.{HoldsGroups};

use crate::group::{
    compare_groups, digit_of_group, digits_behind_first, ends_in_zeros, last_index, number_of,
    without_zeros,
};
use crate::regrouping::regrouped;
use crate::significant_digits::SignificantDigits;
use crate::significant_groups::SignificantGroups;
use std::cmp::Ordering;
use std::marker::Model;

/// How many fraction digits write each `Decimal` exactly.
pub(crate) const FRACTION_DIGITS: u32 = 16_383;

/// How many groups stand behind the point where all fraction digits of a `Decimal` are written, and one more digit, which is 0.
const FRACTION_GROUPS: u16 = 4_096;

/// How many groups never have more than 38 digits.
const FEW_GROUPS: usize = 9;

/// An exact decimal: at most 38 digits from the first to the last that is not 0, of a magnitude below 10^131072, and
/// written exactly by 16,383 fraction digits. `==` and `<` compare values. Zero has no sign.
#[derive(Clone, Copy, Debug)]
pub struct Decimal {
    negative: bool,
    // groups of four digits from the first that is not 0 on; all 0 where the value is
    groups: [u16; 11],
    // how many groups the magnitude has when it is written with `FRACTION_GROUPS` groups behind the point; 0 where the value is
    top: u16,
}

/// A value as a mantissa and an exponent: that of -0.50 is -5 * 10^-1.
#[derive(Clone, Copy, Debug, PartialEq, Eq)]
pub struct DecimalParts {
    /// Whether the value is below zero.
    pub negative: bool,
    /// The magnitude without the zeros at its end. It has at most 38 digits, and is 0 for zero.
    pub mantissa: u128,
    /// The power of ten that the mantissa is multiplied by; 0 for zero.
    pub exponent: i32,
}

impl Model for Decimal {
    ghost use Rattle.std.specs.Prelude.{ℤ};

    ghost Value = { ℤ };

    ghost use Rattle.json_exact.specs.inner.DecimalFields.{parts_of, IsFields};
    ghost use Rattle.json_exact.specs.inner.DecimalInverseLaws.{fields_of, fields_of-parts_of};

    ghost view = { parts_of };

    ghost invariant = { IsFields };

    ghost inverse = { fields_of };

    ghost inverse_ok = { fields_of-parts_of };
}

/// The groups that bytes hold.
fn groups_of(bytes: &[u8]) -> SignificantGroups
    requires len { length bytes.now < 2 ^ 63 }
    requires groups { AreGroups bytes.now }
    ensures len { result.len ≤ length bytes.now / 2 }
    ensures holds { HoldsGroups result (joined 10000 (groups_of bytes.now)) }
{
    let mut groups = SignificantGroups::new();
    let mut rest = bytes;
    while let [low, high, more @ ..] = rest {
        groups.push(*low as u16 + 256 * *high as u16);
        rest = more;
    }
    groups
}

/// The group at an index of those that bytes hold, or 0 where there is none.
#[inline(always)]
fn group_or_zero(bytes: &[u8], index: usize) -> u16
    requires groups { AreGroups bytes.now }
    ensures { result ≡ get_or (groups_of bytes.now) index 0 }
{
    if index >= bytes.len() / 2 {
        return 0;
    }
    bytes[2 * index] as u16 + 256 * bytes[2 * index + 1] as u16
}

/// The groups that bytes hold, of which the first is not 0. They are few, so they are read by constant indexes.
#[inline(always)]
fn few_groups(bytes: &[u8]) -> SignificantGroups
    requires groups { AreGroups bytes.now }
    requires few { length bytes.now / 2 ≤ 9 }
    requires first { 0 < get_or (groups_of bytes.now) 0 0 }
    ensures len { result.len ≡ length bytes.now / 2 }
    ensures kept { result.too_wide ≡ false }
    ensures holds { HoldsGroups result (joined 10000 (groups_of bytes.now)) }
{
    SignificantGroups {
        groups: [
            group_or_zero(bytes, 0),
            group_or_zero(bytes, 1),
            group_or_zero(bytes, 2),
            group_or_zero(bytes, 3),
            group_or_zero(bytes, 4),
            group_or_zero(bytes, 5),
            group_or_zero(bytes, 6),
            group_or_zero(bytes, 7),
            group_or_zero(bytes, 8),
            group_or_zero(bytes, 9),
            group_or_zero(bytes, 10),
        ],
        len: bytes.len() as u64 / 2,
        too_wide: false,
    }
}

/// The place that counts from the point, of one that counts from the last of the `FRACTION_GROUPS`.
fn place_of(lifted: u16) -> i32
    ensures { result +ℤ pos 4096 ≡ pos lifted }
{
    lifted as i32 - FRACTION_GROUPS as i32
}

/// The power of ten of the digit that `zeros` digits follow in the group at a place. The place counts from the last of the
/// `FRACTION_GROUPS`.
fn exponent_of(lifted: u16, zeros: u32) -> i32
    requires zeros { zeros < 4 }
    ensures { result +ℤ pos 16384 ≡ pos (4 * lifted + zeros) }
{
    4 * lifted as i32 + zeros as i32 - 4 * FRACTION_GROUPS as i32
}

/// The place that counts from the last of the `FRACTION_GROUPS`, of one that counts from the point.
fn lifted_place(place: i32) -> Option<u64>
    ensures { MatchOption result ((place +ℤ pos 4096) <ℤ pos 0)
        (λ lifted. place +ℤ pos 4096 ≡ pos lifted) }
{
    u64::try_from(place as i64 + FRACTION_GROUPS as i64).ok()
}

/// How far a weight lies above the least one.
fn lifted(weight: i16) -> u16
    ensures { result ≡ lifted weight }
{
    weight.abs_diff(i16::MIN)
}

impl Decimal {
    /// The decimal whose magnitude, in units of the last digit of its `FRACTION_GROUPS`, is the number that `groups` holds
    /// times 10000^`up` divided by 10000^`down`.
    #[inline(always)]
    fn from_significant(negative: bool, groups: SignificantGroups, up: u64, down: u64) -> Decimal
        requires down { down < 2 ^ 63 }
        requires kept { groups.too_wide ≡ false }
        requires exact { (n q : ℕ) × HoldsGroups groups n × HasNarrowDigits n
            × (n * 10000 ^ up ≡ q * 10 * 10000 ^ down) }
        requires low { groups.len + up ≤ 36864 + down }
        ensures value { (n q : ℕ) → HoldsGroups groups n → n * 10000 ^ up ≡ q * 10 * 10000 ^ down
            → result ≡ signed negative q }
        ensures limits { IsWithinLimits result }
    {
        let kept = groups.groups;
        if groups.len == 0 {
            Decimal {
                negative: false,
                groups: kept,
                top: 0,
            }
        } else {
            Decimal {
                negative,
                groups: kept,
                top: (groups.len + up - down) as u16,
            }
        }
    }

    /// The decimal whose magnitude, in units of its last of `FRACTION_DIGITS` fraction digits, is the number that
    /// `digits` holds times 10^`up`.
    pub(crate) fn from_digits(negative: bool, digits: SignificantDigits, up: u32) -> Decimal
        requires kept { digits.too_wide ≡ false }
        requires some { (n : ℕ) × Holds digits n }
        requires low { digits.len + up ≤ 147455 }
        ensures value { (n : ℕ) → Holds digits n → result ≡ signed negative (n * 10 ^ up) }
        ensures limits { IsWithinLimits result }
    {
        // One more digit ends the last group.
        let count = digits.len + up as u64 + 1;
        let padding = (4 - count % 4) % 4;
        Decimal::from_significant(
            negative,
            regrouped(&digits.digits, padding),
            (count + padding) / 4,
            11,
        )
    }

    /// The sum of group i times 10000^(`weight` - i), negated where `negative` is true. Each group is two bytes of
    /// `groups`, the lower first, and the empty slice gives zero.
    ///
    /// `None` where the sum has more than 38 digits from the first to the last that is not 0. The shortest `groups` that
    /// give it are ten, as 100, eight times 0, and 1. The caller knows that 16,383 fraction digits write the sum exactly.
    #[inline(always)]
    pub fn from_groups(negative: bool, weight: i16, groups: &[u8]) -> Option<Decimal>
        requires groups { AreGroups groups.now }
        requires exact { (q : ℕ) × AreWorth weight (groups_of groups.now) q }
        ensures value { (q : ℕ) → AreWorth weight (groups_of groups.now) q →
            MatchOption result (¬ HasNarrowDigits q) (λ d. d ≡ signed negative q) }
        ensures limits { IfSome result (λ d. IsWithinLimits d) }
    {
        let count = groups.len() / 2;
        if count > FEW_GROUPS || group_or_zero(groups, 0) == 0 {
            // The answer moves by its fields, or the few groups would go through the memory that the call writes to.
            let decimal = Decimal::from_many_groups(negative, weight, groups)?;
            return Some(decimal);
        }
        let kept = few_groups(groups);
        let up = lifted(weight) as u64 + 1 + FRACTION_GROUPS as u64;
        Some(Decimal::from_significant(negative, kept, up, count as u64 + 0x8000))
    }

    /// What `from_groups` does, of groups of any number, with zeros in front or not.
    #[inline(never)]
    fn from_many_groups(negative: bool, weight: i16, groups: &[u8]) -> Option<Decimal>
        requires groups { AreGroups groups.now }
        requires exact { (q : ℕ) × AreWorth weight (groups_of groups.now) q }
        ensures value { (q : ℕ) → AreWorth weight (groups_of groups.now) q →
            MatchOption result (¬ HasNarrowDigits q) (λ d. d ≡ signed negative q) }
        ensures limits { IfSome result (λ d. IsWithinLimits d) }
    {
        let kept = groups_of(groups);
        if !kept.is_narrow() {
            return None;
        }
        let up = lifted(weight) as u64 + 1 + FRACTION_GROUPS as u64;
        let down = groups.len() as u64 / 2 + 0x8000;
        Some(Decimal::from_significant(negative, kept, up, down))
    }

    /// The decimal of the same value. It needs no memory.
    pub fn from_u64(value: u64) -> Decimal
        ensures value { result ≡ pos (value * parts) }
        ensures limits { IsWithinLimits result }
    {
        let groups = SignificantGroups::of_number(value);
        Decimal::from_significant(false, groups, FRACTION_GROUPS as u64, 0)
    }

    /// The decimal of the same value. It needs no memory.
    pub fn from_i64(value: i64) -> Decimal
        ensures value { result ≡ value *ℤ pos parts }
        ensures limits { IsWithinLimits result }
    {
        let groups = SignificantGroups::of_number(value.unsigned_abs());
        Decimal::from_significant(value < 0, groups, FRACTION_GROUPS as u64, 0)
    }

    /// The order of the two magnitudes. A magnitude of more groups is larger, since its first group is not 0.
    #[inline(always)]
    fn compare_magnitudes(&self, other: &Decimal) -> Ordering
        ensures { result ≡ nat_cmp (nat_abs self.now) (nat_abs other.now) }
    {
        if self.top != other.top {
            return self.top.cmp(&other.top);
        }
        compare_groups(&self.groups, &other.groups)
    }

    /// Whether the value is whole, as that of `1.0` is.
    pub fn is_integer(&self) -> bool
        ensures whole { IsTrue result ↔ IsWhole (exactly self.now) }

        // What is true of each `Decimal`.
        ensures limits { IsWithinLimits self.now }
    {
        ends_in_zeros(
            &self.groups,
            self.top.saturating_sub(FRACTION_GROUPS) as usize,
        )
    }

    /// Whether the value is below zero.
    pub(crate) fn is_negative(&self) -> bool
        ensures { result ≡ int_lt self.now (pos 0) }
    {
        self.negative
    }

    /// How many digits the magnitude has when it is written with `FRACTION_DIGITS` fraction digits, from the first that
    /// is not 0; 0 where the value is.
    pub(crate) fn digit_count(&self) -> u32
        ensures { result ≡ count (nat_abs self.now) }
    {
        if self.top == 0 {
            return 0;
        }
        // The last digit of the last group is none of the `FRACTION_DIGITS`.
        4 * (self.top as u32 - 1) + digits_behind_first(self.groups[0])
    }

    /// The group at a place of the magnitude. The last of `FRACTION_GROUPS` groups behind the point has place 0.
    fn group_at(&self, place: u64) -> u16
        ensures group { result ≡ nat_abs self.now * 10 / 10000 ^ place % 10000 }
        ensures below { result < 10000 }
    {
        if place >= self.top as u64 {
            return 0;
        }
        let index = (self.top as u64 - 1 - place) as usize;
        if index >= self.groups.len() {
            return 0;
        }
        self.groups[index]
    }

    /// The greatest place whose group is not 0, as 1 of 12345 and -1 of 0.5; 0 for zero.
    pub fn weight(&self) -> i32
        ensures zero { self.now ≡ pos 0 → result ≡ pos 0 }
        ensures greatest { (self.now ≡ pos 0 → ⊥) → IsGreatestPlace (nat_abs self.now) result }
    {
        if self.top == 0 {
            return 0;
        }
        place_of(self.top - 1)
    }

    /// The least place whose group is not 0, as 0 of 12345 and -1 of 12345.6; 0 for zero.
    pub fn last_place(&self) -> i32
        ensures zero { self.now ≡ pos 0 → result ≡ pos 0 }
        ensures least { (self.now ≡ pos 0 → ⊥) → IsLeastPlace (nat_abs self.now) result }
    {
        if self.top == 0 {
            return 0;
        }
        let last = last_index(&self.groups) as u16;
        place_of(self.top - 1 - last)
    }

    /// The group at a place: the magnitude divided by 10000^`place`, rounded down, modulo 10000. Of 12345 the group at place 0
    /// is 2345, and that at place -1 is 0.
    pub fn group(&self, place: i32) -> u16
        ensures { result ≡ group place (nat_abs self.now) }
    {
        match lifted_place(place) {
            Some(lifted) => self.group_at(lifted),
            None => 0,
        }
    }

    /// The value as a mantissa that does not end in 0, and a power of ten: 1200 is 12 * 10^2. It needs no memory.
    pub fn parts(&self) -> DecimalParts
        ensures negative { result.negative ≡ int_lt self.now (pos 0) }
        ensures magnitude { IsScaled (nat_abs self.now) result.mantissa result.exponent }
        ensures last { (self.now ≡ pos 0 → ⊥) → 0 < result.mantissa % 10 }
        ensures zero { self.now ≡ pos 0 → (result.mantissa ≡ 0) × (result.exponent ≡ pos 0) }
        ensures narrow { result.mantissa < 10 ^ 38 }
    {
        if self.top == 0 {
            return DecimalParts {
                negative: self.negative,
                mantissa: 0,
                exponent: 0,
            };
        }
        let last = last_index(&self.groups);
        let ending = without_zeros(self.groups[last]);
        let before = number_of(&self.groups, last);
        DecimalParts {
            negative: self.negative,
            mantissa: before * ending.scale as u128 + ending.digits as u128,
            exponent: exponent_of(self.top - 1 - last as u16, ending.zeros),
        }
    }

    /// The digit at a place of the magnitude. The last of `FRACTION_DIGITS` fraction digits has place 0.
    pub(crate) fn digit_at(&self, place: u32) -> u8
        ensures { result ≡ nat_abs self.now / 10 ^ place % 10 }
    {
        // The last digit of the last group is none of the `FRACTION_DIGITS`.
        let place = place as u64 + 1;
        digit_of_group(self.group_at(place / 4), place % 4)
    }
}

impl PartialEq for Decimal {
    ghost use Rattle.std.specs.Ordering.{int_eq};
    ghost use Rattle.std.proofs.Common.{rules};
    ghost use Rattle.std.specs.Cmp.Rules.{comparing};

    ghost eq = { int_eq };

    ghost laws = { Prim.search (comparing, rules) };

    fn eq(&self, other: &Decimal) -> bool {
        self.negative == other.negative && self.top == other.top && self.groups == other.groups
    }
}

impl Eq for Decimal {
    ghost use Rattle.std.proofs.Common.{rules};
    ghost use Rattle.std.specs.Cmp.Rules.{comparing};

    ghost laws = { Prim.search (comparing, rules) };
}

impl Ord for Decimal {
    ghost use Rattle.std.specs.Ordering.{int_cmp};
    ghost use Rattle.std.proofs.Common.{rules};
    ghost use Rattle.std.specs.Cmp.Rules.{comparing};

    ghost cmp = { int_cmp };

    ghost total = { Prim.search (comparing, rules) };

    ghost matches_partial_cmp = { Prim.search (comparing, rules) };

    ghost matches_eq = { Prim.search (comparing, rules) };

    #[inline(always)]
    fn cmp(&self, other: &Decimal) -> Ordering {
        match (self.negative, other.negative) {
            (false, false) => self.compare_magnitudes(other),
            (false, true) => Ordering::Greater,
            (true, false) => Ordering::Less,
            // Of two negative values, the one of the larger magnitude is the lesser.
            (true, true) => other.compare_magnitudes(self),
        }
    }
}

impl PartialOrd for Decimal {
    ghost use Rattle.std.specs.Ordering.{int_cmp, as_partial_cmp};
    ghost use Rattle.std.proofs.Common.{rules};
    ghost use Rattle.std.specs.Cmp.{partial_order_from_own_ties};
    ghost use Rattle.std.specs.Cmp.Rules.{comparing};

    ghost partial_cmp = { as_partial_cmp int_cmp };

    ghost laws = { partial_order_from_own_ties (Prim.search (comparing, rules))
        (Prim.search (comparing, rules)) };

    #[inline(always)]
    fn partial_cmp(&self, other: &Decimal) -> Option<Ordering> {
        Some(self.cmp(other))
    }
}
