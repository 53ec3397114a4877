//! Limits of counts.

ghost use Rattle.std.specs.Prelude.{◌≡◌, ◌↔◌, IsTrue, IfSome, None};
ghost use Rattle.flat_keywords.specs.inner.Passes.{HasRoom, IsBetween, IsLimitOf, Meets};
ghost use Rattle.flat_keywords.specs.Validity.{IsCount};

use json_exact::{Decimal, Number};

/// A limit that a keyword sets to counts, exact however large it is.
#[derive(Clone, Copy, Debug)]
pub(crate) enum Limit {
    /// One that a count can be compared with as it stands.
    Small(u64),
    /// One of 2^64 or more, as 10^100.
    Large(Decimal),
}

impl Limit {
    /// The limit that a number is, if its value is whole and not negative.
    pub(crate) fn of_number(number: &Number) -> Option<Limit>
        ensures some { IfSome result (λ limit. IsCount number.now × IsLimitOf limit number.now) }
        ensures none { result ≡ None → IsCount number.now → ⊥ }
    {
        let limit = number.decimal();
        if !limit.is_integer() || limit < Decimal::from_u64(0) {
            return None;
        }
        match limit.to_u64() {
            Some(small) => Some(Limit::Small(small)),
            None => Some(Limit::Large(limit)),
        }
    }

    /// Whether a count is at least the limit.
    fn is_met_by(&self, count: u64) -> bool
        ensures { IsTrue result ↔ Meets self.now count }
    {
        match self {
            Limit::Small(limit) => *limit <= count,
            Limit::Large(limit) => Decimal::from_u64(count) >= *limit,
        }
    }

    /// Whether a count is at most the limit.
    fn has_room_for(&self, count: u64) -> bool
        ensures { IsTrue result ↔ HasRoom self.now count }
    {
        match self {
            Limit::Small(limit) => count <= *limit,
            Limit::Large(limit) => Decimal::from_u64(count) <= *limit,
        }
    }
}

/// The least and the greatest count, where they are set.
#[derive(Clone, Copy, Debug)]
pub(crate) struct Limits {
    pub(crate) least: Option<Limit>,
    pub(crate) greatest: Option<Limit>,
}

impl Limits {
    /// No limit is set.
    pub(crate) const NONE: Limits = Limits {
        least: None,
        greatest: None,
    };

    /// Whether no limit is set, so that every count is within them.
    pub(crate) fn is_empty(&self) -> bool
        ensures { IsTrue result ↔ ((self.now.least ≡ None) × (self.now.greatest ≡ None)) }
    {
        self.least.is_none() && self.greatest.is_none()
    }

    /// Whether a count is within the limits that are set.
    pub(crate) fn have(&self, count: u64) -> bool
        ensures { IsTrue result ↔ IsBetween self.now count }
    {
        let reaches = match &self.least {
            Some(limit) => limit.is_met_by(count),
            None => true,
        };
        let fits = match &self.greatest {
            Some(limit) => limit.has_room_for(count),
            None => true,
        };
        reaches && fits
    }
}
