//! `Map`: the members of a JSON object.

ghost use Rattle.std.specs.Prelude.{◌≡◌, ◌+◌, ℕ, List, [], ◌↔◌, length, map, true, bytes_eq, option_map, is_some, Some, None, Err, IfOk, IfErr, OnOk, OnErr, IsTrue, IsOk, string_bytes, if◌then◌else◌};
ghost use Rattle.std.specs.List.Sorted.{IsPermutation};
ghost use Rattle.json_model.specs.Keys.{rises};
ghost use Rattle.key_map.specs.Pairs.{key_of};
ghost use Rattle.key_map.specs.Repeats.{IsFirstRepeat, AreDistinct};
ghost use Rattle.key_map.specs.declared.map_error.MapError.{MapError};
ghost use Rattle.json_model.specs.Parts.{lookup};
ghost use Rattle.json_exact.specs.Trees.{tree, pairs, member_pair};
ghost use Rattle.json_exact.specs.MapIteration.{left};

use crate::map_iter::MapIter;
use crate::out_of_memory::OutOfMemory;
use crate::value::Value;
use key_map::{KeyMap, MapError};
use std::alloc::Global;

/// A key with the value under it.
pub type Member = key_map::Member<Value>;

/// The members of a JSON object, in key order: a shorter key first, and of two of one length the one with the lower byte where
/// they first differ. No key stands twice.
#[derive(Drop)]
#[cycle(value)]
pub struct Map {
    members: KeyMap<Value>,
}

/// Memory could not be had for a member, which is handed back.
#[derive(Drop)]
pub struct InsertError {
    /// The key, as it was given.
    pub key: String,
    /// The value, as it was given.
    pub value: Value,
}

impl From<InsertError> for OutOfMemory {
    fn from(_error: InsertError) -> OutOfMemory {
        OutOfMemory
    }
}

impl Map {
    /// The empty map. It takes no memory.
    pub fn new(alloc: Global) -> Map
        ensures { pairs result ≡ [] }
    {
        Map {
            members: KeyMap::new(alloc),
        }
    }

    /// How many members there are.
    pub fn len(&self) -> usize
        ensures { result ≡ length (pairs self.now) }
    {
        self.members.len()
    }

    /// Whether there are none.
    pub fn is_empty(&self) -> bool
        ensures { IsTrue result ↔ (pairs self.now ≡ []) }
    {
        self.members.is_empty()
    }

    /// The members as pairs of a key and the value under it, in key order.
    pub fn iter(&self) -> MapIter<'_>
        ensures pairs { left result ≡ pairs self.now }
        ensures rise { rises (map (λ p. p.0) (pairs self.now)) ≡ true }
    {
        MapIter {
            members: self.members.members(),
        }
    }

    /// The value under a key, found by halves. It takes no memory.
    pub fn get(&self, key: &str) -> Option<&Value>
        ensures { option_map (λ v. tree v.now) result ≡ lookup key.now (pairs self.now) }
    {
        self.members.get(key)
    }

    /// Puts a value under a key, and hands out the value that stood there, if any. A new key moves the members after it, and
    /// may take memory: where that could not be had, key and value are handed back, and the map is as before. For many keys
    /// take `from_members`, which sorts once.
    pub fn insert(&mut self, key: String, value: Value) -> Result<Option<Value>, InsertError>
        ensures old { IfOk result
            (λ old. option_map tree old ≡ lookup (string_bytes key) (pairs self.old)) }
        ensures new { OnOk result ((k : List ℕ) → lookup k (pairs self.new)
            ≡ (if bytes_eq k (string_bytes key) then Some (tree value) else lookup k (pairs self.old))) }
        ensures len { IfOk result
            (λ old. length (pairs self.new) ≡ length (pairs self.old) +
            (if is_some old then 0 else 1)) }
        ensures only_new { OnErr result (lookup (string_bytes key) (pairs self.old) ≡ None) }
        ensures handed_back { IfErr result (λ error. (error.key ≡ key) × (error.value ≡ value)) }
        ensures err { OnErr result (self.new ≡ self.old) }
    {
        match self.members.insert(key, value) {
            Ok(old) => Ok(old),
            Err(Member { key, value }) => Err(InsertError { key, value }),
        }
    }

    /// The map of a list of members. It takes memory for sorting them and for a set of their keys.
    ///
    /// `RepeatedKey` has the least place, from 0, whose key stands at an earlier place too. A refusal drops the list.
    pub fn from_members(alloc: Global, members: Vec<Member>) -> Result<Map, MapError>
        ensures members { IfOk result
            (λ m. IsPermutation (map member_pair members.items) (pairs m)) }
        ensures same { IfOk result
            (λ m. (k : List ℕ) → lookup k (pairs m) ≡ lookup k (map member_pair members.items)) }
        ensures distinct { IsOk result → AreDistinct (map key_of members.items) }
        ensures repeated { (place : ℕ) → result ≡ Err (MapError.RepeatedKey place)
            → IsFirstRepeat (map key_of members.items) place }
    {
        match KeyMap::from_members(alloc, members) {
            Ok(members) => Ok(Map { members }),
            Err(error) => Err(error),
        }
    }
}
