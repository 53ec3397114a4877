//! The kinds of values.

ghost use Rattle.std.specs.Prelude.{◌≡◌};
ghost use Rattle.jsonb.specs.inner.Values.{kind_number, kind_of};

/// What an entry word says that its piece is.
#[derive(Clone, Copy, Debug, PartialEq, Eq)]
pub enum Kind {
    String,
    Number,
    False,
    True,
    Null,
    Container,
}

impl Kind {
    /// The kind that a number of an entry word is, or none for 6 and 7.
    pub fn from_number(number: u8) -> Option<Kind>
        ensures { result ≡ kind_of number }
    {
        match number {
            0 => Some(Kind::String),
            1 => Some(Kind::Number),
            2 => Some(Kind::False),
            3 => Some(Kind::True),
            4 => Some(Kind::Null),
            5 => Some(Kind::Container),
            _ => None,
        }
    }

    /// Its number in an entry word.
    pub fn number(self) -> u8
        ensures { result ≡ kind_number self }
    {
        match self {
            Kind::String => 0,
            Kind::Number => 1,
            Kind::False => 2,
            Kind::True => 3,
            Kind::Null => 4,
            Kind::Container => 5,
        }
    }
}
