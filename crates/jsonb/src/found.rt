//! What keeps bytes from being JSON.

ghost use Rattle.std.specs.Prelude.{◌≡◌};
ghost use Rattle.jsonb.specs.Found.{both};

/// What was found so far, of the strings, keys and numbers that were seen.
#[derive(Clone, Copy, Debug, PartialEq, Eq)]
pub struct Found {
    /// A string or key is not UTF-8.
    pub not_text: bool,
    /// A number is not narrow.
    pub wide: bool,
}

impl Found {
    pub const NOTHING: Found = Found {
        not_text: false,
        wide: false,
    };

    pub fn with(self, other: Found) -> Found
        ensures { result ≡ both self other }
    {
        Found {
            not_text: self.not_text | other.not_text,
            wide: self.wide | other.wide,
        }
    }
}
