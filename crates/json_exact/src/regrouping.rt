//! From digits to groups of four.

ghost use Rattle.std.specs.Prelude.{◌-◌, ◌*◌, ◌^◌, ◌<◌, ◌≤◌, ◌≡◌, length, get_or};
ghost use Rattle.json_exact.specs.Digits.{joined, AllBelow};
ghost use Rattle.json_exact.specs.inner.SignificantGroups.{HoldsGroups};

use crate::significant_groups::SignificantGroups;

/// The digit at an index, or 0 where there is none.
fn digit_or_zero(digits: &[u8; 38], index: u64) -> u8
    requires digits { AllBelow 10 digits.now }
    ensures digit { result ≡ get_or digits.now index 0 }
    ensures below { result < 10 }
{
    if index < 38 {
        digits[index as usize]
    } else {
        0
    }
}

/// Digits in eleven groups of four: so many zeros, the digits, and zeros behind them. The one digit 7 behind three zeros is
/// the group 7, and behind none the group 7000.
pub fn regrouped(digits: &[u8; 38], padding: u64) -> SignificantGroups
    requires padding { padding < 4 }
    requires digits { AllBelow 10 digits.now }
    ensures len { result.len ≤ 11 }
    ensures holds { HoldsGroups result (joined 10 digits.now * 10 ^ (6 - padding)) }
{
    let mut groups = SignificantGroups::new();
    let mut group = 0u16;
    let mut filled = padding;
    for index in 0..44 - padding {
        group = group * 10 + digit_or_zero(digits, index) as u16;
        filled += 1;
        if filled == 4 {
            groups.push(group);
            group = 0;
            filled = 0;
        }
    }
    groups
}
