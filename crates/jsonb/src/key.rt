//! A key that is looked up often.

ghost use Rattle.std.specs.Prelude.{◌≡◌, string_bytes};
ghost use Rattle.jsonb.specs.Lookup.{key_name};

use json_traits::HasName;

/// A key that is looked up in many objects: it owns the bytes of its name.
#[derive(Drop)]
pub struct JsonbKey {
    pub(crate) name: String,
}

impl JsonbKey {
    /// The key of a name.
    pub(crate) fn new(name: String) -> JsonbKey
        ensures { key_name result ≡ string_bytes name }
    {
        JsonbKey { name }
    }

    /// The bytes of the name.
    pub fn bytes(&self) -> &[u8]
        ensures { result.now ≡ key_name self.now }
    {
        self.name.as_bytes()
    }
}

impl HasName for JsonbKey {
    ghost name = { key_name };
}
