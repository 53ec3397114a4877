//! `SignificantGroups`: the groups of a number that are pushed one after another, as far as a `Decimal` keeps them.

ghost use Rattle.std.specs.Prelude.{ℕ, ◌+◌, ◌*◌, ◌<◌, ◌≤◌, ◌^◌, ◌≡◌, false, IsTrue, ◌↔◌};
ghost use Rattle.json_model.specs.Decimal.{HasNarrowDigits};
ghost use Rattle.json_exact.specs.inner.SignificantGroups.{HoldsGroups};

/// The first eleven groups of four digits of a number, from the first that is not 0.
#[derive(Clone, Copy)]
pub struct SignificantGroups {
    /// The first groups, with zeros behind them.
    pub groups: [u16; 11],
    /// How many groups the number has, from the first that is not 0 to the last that was pushed.
    pub len: u64,
    /// Whether a group that is not 0 came after the first eleven.
    pub too_wide: bool,
}

impl SignificantGroups {
    pub fn new() -> SignificantGroups
        ensures len { result.len ≡ 0 }
        ensures holds { HoldsGroups result 0 }
    {
        SignificantGroups {
            groups: [0; 11],
            len: 0,
            too_wide: false,
        }
    }

    pub fn push(&mut self, group: u16)
        requires group { group < 10000 }
        requires room { self.old.len + 1 < 2 ^ 64 }
        ensures len { self.new.len ≤ self.old.len + 1 }
        ensures holds { (n : ℕ) → HoldsGroups self.old n
            → HoldsGroups self.new (n * 10000 + group) }
    {
        if self.len == 0 && group == 0 {
            return;
        }
        if self.len < 11 {
            self.groups[self.len as usize] = group;
        } else if group != 0 {
            self.too_wide = true;
        }
        self.len += 1;
    }

    /// The groups of a whole number.
    pub fn of_number(number: u64) -> SignificantGroups
        ensures len { result.len ≤ 5 }
        ensures holds { HoldsGroups result number }
    {
        let mut groups = SignificantGroups::new();
        groups.push((number / 10_000_000_000_000_000) as u16);
        groups.push((number / 1_000_000_000_000 % 10_000) as u16);
        groups.push((number / 100_000_000 % 10_000) as u16);
        groups.push((number / 10_000 % 10_000) as u16);
        groups.push((number % 10_000) as u16);
        groups
    }

    /// Whether at most 38 digits stand from the first that is not 0 to the last. Eleven groups have 44 digits, so this is
    /// where 6 or more zeros stand in front of the first group's digits and at the end: the first group and the last two tell.
    pub fn is_narrow(&self) -> bool
        ensures { (n : ℕ) → HoldsGroups self.now n → (IsTrue result ↔ HasNarrowDigits n) }
    {
        if self.too_wide {
            return false;
        }
        let first = self.groups[0];
        if first < 10 {
            return self.groups[10] % 1000 == 0;
        }
        if first < 100 {
            return self.groups[10] == 0;
        }
        if self.groups[10] != 0 {
            return false;
        }
        if first < 1000 {
            return self.groups[9] % 10 == 0;
        }
        self.groups[9] % 100 == 0
    }
}
