//! `SignificantDigits`: the digits of a number that are pushed one after another, as far as a `Decimal` keeps them.

ghost use Rattle.std.specs.Prelude.{ℕ, ◌+◌, ◌*◌, ◌<◌, ◌≤◌, ◌^◌, ◌≡◌, false};
ghost use Rattle.json_exact.specs.inner.SignificantDigits.{Holds};

/// The first 38 digits of a number, from the first that is not 0.
#[derive(Clone, Copy)]
pub struct SignificantDigits {
    /// The first digits, with zeros behind them.
    pub digits: [u8; 38],
    /// How many digits the number has, from the first that is not 0 to the last that was pushed.
    pub len: u64,
    /// Whether a digit that is not 0 came after the first 38.
    pub too_wide: bool,
}

impl SignificantDigits {
    pub fn new() -> SignificantDigits
        ensures len { result.len ≡ 0 }
        ensures holds { Holds result 0 }
    {
        SignificantDigits {
            digits: [0; 38],
            len: 0,
            too_wide: false,
        }
    }

    pub fn push(&mut self, digit: u8)
        requires digit { digit < 10 }
        requires room { self.old.len + 1 < 2 ^ 64 }
        ensures len { self.new.len ≤ self.old.len + 1 }
        ensures holds { (n : ℕ) → Holds self.old n → Holds self.new (n * 10 + digit) }
    {
        if self.len == 0 && digit == 0 {
            return;
        }
        if self.len < 38 {
            self.digits[self.len as usize] = digit;
        } else if digit != 0 {
            self.too_wide = true;
        }
        self.len += 1;
    }
}
