//! The kinds of items.

ghost use Rattle.std.specs.Prelude.{◌≡◌, if◌then◌else◌};
ghost use Rattle.jsonb_encode.specs.inner.Writing.{kind_number};

/// What an entry word says that its piece is.
#[derive(Clone, Copy)]
pub enum Kind {
    String,
    Number,
    False,
    True,
    Null,
    Container,
}

impl Kind {
    /// The kind of a truth value.
    pub fn of_boolean(truth: bool) -> Kind
        ensures { kind_number result ≡ (if truth then 3 else 2) }
    {
        if truth { Kind::True } else { Kind::False }
    }

    /// Its number in an entry word.
    pub fn number(self) -> u32
        ensures { result ≡ kind_number self }
    {
        match self {
            Kind::String => 0,
            Kind::Number => 1,
            Kind::False => 2,
            Kind::True => 3,
            Kind::Null => 4,
            Kind::Container => 5,
        }
    }
}
