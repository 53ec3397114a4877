//! `HasName`: what stands for the name of a member.

ghost use Rattle.std.specs.Prelude.{ℕ, List, string_bytes};

/// What stands for the bytes of a name, as a prepared key does. It has no call: the name is what contracts speak of.
pub trait HasName {
    ghost name: { Self → List ℕ };
}

impl HasName for String {
    ghost name = { string_bytes };
}
