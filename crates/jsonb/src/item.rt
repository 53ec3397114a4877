//! An item of a container.

ghost use Rattle.std.specs.Prelude.{◌≡◌, ◌<◌, ◌^◌, ◌==◌, length};

use crate::kind::Kind;
use std::marker::Model;

/// An item: the number of its kind, as its entry word gives it, and its piece of the payload.
#[derive(Drop)]
pub struct Item<'a> {
    number: u8,
    piece: &'a [u8],
}

impl<'a> Model for Item<'a> {
    ghost use Rattle.std.specs.Prelude.{◌<◌, ◌^◌, length};
    ghost use Rattle.jsonb_layout.specs.Layout.{Item};

    ghost Value = { Item };

    ghost view = { λ i. record { kind = i.number; piece = i.piece.now } };

    ghost invariant = { λ i. length i.piece.now < 2 ^ 28 };
}

impl<'a> Item<'a> {
    ghost use Rattle.jsonb.specs.inner.Values.{kind_of};

    pub fn new(number: u8, piece: &'a [u8]) -> Item<'a>
        requires { length piece.now < 2 ^ 28 }
        ensures { result ≡ record { kind = number; piece = piece.entry.now } }
    {
        Item { number, piece }
    }

    /// Its kind, or none where the number is 6 or 7.
    pub fn kind(&self) -> Option<Kind>
        ensures { result ≡ kind_of self.now.kind }
    {
        Kind::from_number(self.number)
    }

    /// The number of its kind.
    pub fn number(&self) -> u8
        ensures { result ≡ self.now.kind }
    {
        self.number
    }

    /// Whether it is a string, as a key is.
    pub fn is_string(&self) -> bool
        ensures { result ≡ (self.now.kind == 0) }
    {
        self.number == Kind::String.number()
    }

    /// Whether it is an array or an object.
    pub fn is_container(&self) -> bool
        ensures { result ≡ (self.now.kind == 5) }
    {
        self.number == Kind::Container.number()
    }

    pub fn piece(&self) -> &'a [u8]
        ensures piece { result.now ≡ self.now.piece }
        ensures short { length result.now < 2 ^ 28 }
    {
        self.piece
    }
}
