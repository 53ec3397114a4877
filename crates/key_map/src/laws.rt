//! What holds of every map: the order of keys is total, and the look-ups of a map tell which map it is.

ghost use Rattle.std.specs.Prelude.{◌≡◌, ◌⊎◌, ℕ, List, true, map};
ghost use Rattle.json_model.specs.Keys.{key_before, rises};
ghost use Rattle.json_model.specs.Parts.{lookup};

use crate::map::KeyMap;

/// Of two keys one comes before the other, or they are one key; no key comes before itself, and the order carries over.
pub fn keys_are_ordered(keys: &[u8])
    ensures total { (a b : List ℕ) → (key_before a b ≡ true) ⊎ ((a ≡ b) ⊎ (key_before b a ≡ true)) }
    ensures irreflexive { (a : List ℕ) → key_before a a ≡ true → ⊥ }
    ensures transitive { (a b c : List ℕ) → key_before a b ≡ true → key_before b c ≡ true
        → key_before a c ≡ true }
{
    let _length = keys.len();
}

/// Two maps with the same value under each key are the same list of pairs.
pub fn one_map<V>(one: &KeyMap<V>, other: &KeyMap<V>)
    ensures { ((k : List ℕ) → lookup k one.now ≡ lookup k other.now) → one.now ≡ other.now }
{
    // The members of each rise by key: that is all that the law rests on.
    let _members = one.members();
    let _others = other.members();
}
