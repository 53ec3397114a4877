//! Groups of four digits, each by itself and eleven in a row.

ghost use Rattle.std.specs.Prelude.{ℕ, suc, ◌+◌, ◌*◌, ◌/◌, ◌%◌, ◌^◌, ◌<◌, ◌≤◌, ◌≡◌, ◌↔◌, get_or, take, drop, All, IsTrue};
ghost use Rattle.std.specs.Cmp.Lexicographic.{slice_cmp};
ghost use Rattle.std.specs.Ordering.{nat_cmp};
ghost use Rattle.json_exact.specs.Digits.{joined};

use std::cmp::Ordering;

/// Whether all groups from an index on are 0.
pub fn ends_in_zeros(groups: &[u16], index: usize) -> bool
    ensures { IsTrue result ↔ All (λ g. g ≡ 0) (drop index groups.now) }
{
    if index >= groups.len() {
        return true;
    }
    groups[index..].iter().all(|&group| group == 0)
}

/// The digit of a group at a place from 0 to 3; the last digit has place 0.
pub fn digit_of_group(group: u16, place: u64) -> u8
    requires group { group < 10000 }
    requires place { place < 4 }
    ensures { result ≡ group / 10 ^ place % 10 }
{
    let digit = match place {
        0 => group % 10,
        1 => group / 10 % 10,
        2 => group / 100 % 10,
        _ => group / 1000,
    };
    digit as u8
}

/// How many digits stand behind the first digit of a group that is not 0.
pub fn digits_behind_first(group: u16) -> u32
    requires group { group < 10000 }
    requires some { 0 < group }
    ensures low { 10 ^ result ≤ group }
    ensures high { group < 10 ^ suc result }
    ensures few { result < 4 }
{
    if group < 10 {
        0
    } else if group < 100 {
        1
    } else if group < 1000 {
        2
    } else {
        3
    }
}

/// The digits of a group that is not 0, without the zeros behind them.
#[derive(Clone, Copy)]
pub struct Trimmed {
    /// The digits as a number, the last of which is not 0.
    pub digits: u16,
    /// How many zeros stand behind them.
    pub zeros: u32,
    /// 10 to the number of digits that are left of four.
    pub scale: u16,
}

/// Takes the zeros off the end of a group: 120 gives 12 and one zero, with 1000 as the scale.
pub fn without_zeros(group: u16) -> Trimmed
    requires group { group < 10000 }
    requires some { 0 < group }
    ensures digits { group ≡ result.digits * 10 ^ result.zeros }
    ensures last { 0 < result.digits % 10 }
    ensures scale { result.scale * 10 ^ result.zeros ≡ 10000 }
    ensures round { result.scale % 10 ≡ 0 }
    ensures zeros { result.zeros < 4 }
{
    if group % 10 != 0 {
        Trimmed {
            digits: group,
            zeros: 0,
            scale: 10000,
        }
    } else if group % 100 != 0 {
        Trimmed {
            digits: group / 10,
            zeros: 1,
            scale: 1000,
        }
    } else if group % 1000 != 0 {
        Trimmed {
            digits: group / 100,
            zeros: 2,
            scale: 100,
        }
    } else {
        Trimmed {
            digits: group / 1000,
            zeros: 3,
            scale: 10,
        }
    }
}

/// Where the last group stands that is not 0. The caller knows that the first is not.
pub fn last_index(groups: &[u16; 11]) -> usize
    requires first { 0 < get_or groups.now 0 0 }
    ensures within { result < 11 }
    ensures some { 0 < get_or groups.now result 0 }
    ensures last { All (λ g. g ≡ 0) (drop (suc result) groups.now) }
{
    for index in (1..11).rev() {
        if groups[index] != 0 {
            return index;
        }
    }
    0
}

/// Four groups as one number, of 16 bits each.
#[inline(always)]
fn word_of(groups: [u16; 4]) -> u64
    ensures { result ≡ joined 65536 groups }
{
    ((groups[0] as u64 * 65536 + groups[1] as u64) * 65536 + groups[2] as u64) * 65536
        + groups[3] as u64
}

/// The order of the first that differ of four groups.
#[inline(always)]
fn word_order(left: [u16; 4], right: [u16; 4]) -> Ordering
    ensures { result ≡ nat_cmp (joined 65536 left) (joined 65536 right) }
{
    word_of(left).cmp(&word_of(right))
}

/// The order of the first groups that differ. They are compared as words, so that no group is read by an index that varies.
#[inline(always)]
pub fn compare_groups(left: &[u16; 11], right: &[u16; 11]) -> Ordering
    ensures { result ≡ slice_cmp nat_cmp left.now right.now }
{
    let first = word_order(
        [left[0], left[1], left[2], left[3]],
        [right[0], right[1], right[2], right[3]],
    );
    let middle = word_order(
        [left[4], left[5], left[6], left[7]],
        [right[4], right[5], right[6], right[7]],
    );
    let last = word_order(
        [0, left[8], left[9], left[10]],
        [0, right[8], right[9], right[10]],
    );
    first.then(middle).then(last)
}

/// The number that the first `count` groups make.
pub fn number_of(groups: &[u16; 11], count: usize) -> u128
    requires count { count ≤ 11 }
    requires few { joined 10000 (take count groups.now) < 2 ^ 128 }
    ensures { result ≡ joined 10000 (take count groups.now) }
{
    let mut number = 0u128;
    for index in 0..count {
        number = number * 10000 + groups[index] as u128;
    }
    number
}
