//! `KeyMap`: members in key order.

ghost use Rattle.std.specs.Prelude.{◌≡◌, ◌+◌, ℕ, List, [], ◌↔◌, length, map, true, bytes_eq, option_map, is_some, Some, None, IfOk, IfErr, OnOk, OnErr, IsTrue, IsOk, string_bytes, if◌then◌else◌, ◌<◌, slice_index_or, slice_set};
ghost use Rattle.std.specs.Option.{option_copied};
ghost use Rattle.std.specs.List.Sorted.{IsPermutation, IsSortedByKey};
ghost use Rattle.json_model.specs.Keys.{rises};
ghost use Rattle.json_model.specs.Parts.{lookup};
ghost use Rattle.key_map.specs.Order.{key_cmp, IsPlaceOf};
ghost use Rattle.key_map.specs.Pairs.{key_of, pair_of, keys_of, with_value};
ghost use Rattle.key_map.specs.Repeats.{IsFirstRepeat, AreDistinct};

use crate::map_error::MapError;
use std::alloc::{AllocError, Global};
use std::cmp::Ordering;
use std::collections::BTreeSet;
use std::marker::Model;

/// A key with its value.
#[derive(Drop)]
pub struct Member<V> {
    /// The key.
    pub key: String,
    /// What stands under it.
    pub value: V,
}

/// A finite map from texts, whose members stand in key order.
#[derive(Drop)]
pub struct KeyMap<V> {
    members: Vec<Member<V>>,
}

impl<V> Model for KeyMap<V> {
    ghost use Rattle.std.specs.Prelude.{List, ℕ, map, true, ◌≡◌};
    ghost use Rattle.std.specs.Coded.{coded_list, coded×, coded_ℕ};
    ghost use Rattle.key_map.specs.Pairs.{key_of, pair_of};
    ghost use Rattle.json_model.specs.Keys.{rises};

    ghost Value = { List (List ℕ × V) };

    ghost coded = { coded_list (coded× (coded_list coded_ℕ) V.code) };

    ghost view = { λ a. map pair_of a.members.items };

    ghost invariant = { λ a. rises (map key_of a.members.items) ≡ true };
}

/// Which of two keys comes first: the shorter, and of two of one length the one with the lower byte where they first differ.
/// Keys of two lengths are told apart by these alone.
fn compare_keys(key: &str, other: &str) -> Ordering
    ensures { result ≡ key_cmp key.now other.now }
{
    if key.len() != other.len() {
        return key.len().cmp(&other.len());
    }
    key.cmp(other)
}

/// Where a key stands in members whose keys rise, as `Ok`, or the place where it would, as `Err`. It compares some log2 n of
/// n keys.
fn find<V>(members: &[Member<V>], key: &str) -> Result<usize, usize>
    requires { rises (map key_of members.now) ≡ true }
    ensures { IsPlaceOf members.now key.now result }
{
    members.binary_search_by(|member| compare_keys(&member.key, key))
}

/// `KeyMap::insert`, on the list itself: its keys rise before and after.
fn put<V>(members: &mut Vec<Member<V>>, key: String, value: V) -> Result<Option<V>, Member<V>>
    requires { rises (map key_of members.old.items) ≡ true }
    ensures rise { rises (map key_of members.new.items) ≡ true }
    ensures old { IfOk result
        (λ old. old ≡ lookup (string_bytes key) (map pair_of members.old.items)) }
    ensures new { OnOk result
        ((k : List ℕ)
        → lookup k (map pair_of members.new.items) ≡
        (if bytes_eq k (string_bytes key) then Some value
        else lookup k (map pair_of members.old.items))) }
    ensures len { IfOk result
        (λ old. length members.new.items ≡ length members.old.items +
        (if is_some old then 0 else 1)) }
    ensures only_new { OnErr result
        (lookup (string_bytes key) (map pair_of members.old.items) ≡ None) }
    ensures handed_back { IfErr result (λ member. (member.key ≡ key) × (member.value ≡ value)) }
    ensures err { OnErr result (members.new.items ≡ members.old.items) }
{
    match find(members, &key) {
        Ok(place) => Ok(Some(replace_value(members, place, value))),
        Err(place) => match members.insert(place, Member { key, value }) {
            Ok(()) => Ok(None),
            Err(refused) => Err(refused.value),
        },
    }
}

/// Puts a value at a place in the room of the one that stood there, and hands that one out. The key stays.
fn replace_value<V>(members: &mut Vec<Member<V>>, place: usize, value: V) -> V
    requires { place < length members.old.items }
    ensures old { (d : Member V) → result ≡ (slice_index_or members.old.items place d).value }
    ensures new { (d : Member V)
        → members.new.items ≡ slice_set members.old.items place
        (with_value (slice_index_or members.old.items place d) value) }
{
    std::mem::replace(&mut members[place].value, value)
}

/// Sorts members by their keys. Where memory could not be had, they stay as they were.
fn sort_by_key<V>(members: &mut Vec<Member<V>>) -> Result<(), AllocError>
    ensures permutation { IsPermutation members.old.items members.new.items }
    ensures sorted { OnOk result (IsSortedByKey key_of key_cmp members.new.items) }
{
    members.sort_by(|member, other| compare_keys(&member.key, &other.key))
}

/// Refuses members in which a key stands twice, with the least place whose key stands earlier too. It passes over them once,
/// with a set of the keys so far, and takes memory for that set.
fn refuse_repeated_keys<V>(alloc: Global, members: &[Member<V>]) -> Result<(), MapError>
    ensures distinct { IsOk result → AreDistinct (map key_of members.now) }
    ensures repeated { (place : ℕ) → result ≡ Err (MapError.RepeatedKey place)
        → IsFirstRepeat (map key_of members.now) place }
{
    let mut seen = BTreeSet::new(alloc);
    for place in 0..members.len() {
        match seen.insert(members[place].key.as_str()) {
            Ok(true) => (),
            Ok(false) => return Err(MapError::RepeatedKey { place }),
            Err(_) => return Err(MapError::OutOfMemory),
        }
    }
    Ok(())
}

impl<V> KeyMap<V> {
    /// The empty map. It takes no memory.
    pub fn new(alloc: Global) -> KeyMap<V>
        ensures { result ≡ [] }
    {
        KeyMap {
            members: Vec::new(alloc),
        }
    }

    /// The map of a list of members, which it takes as they are and sorts: n members cost some n log2 n comparisons of keys.
    /// It takes memory for a set of the keys while it looks for one that stands twice, and for the sorting.
    ///
    /// `MapError::RepeatedKey` says which member, counted from 0, is the first whose key stands earlier in the list too, and
    /// `MapError::OutOfMemory` that memory could not be had. With either the members are dropped.
    pub fn from_members(alloc: Global, members: Vec<Member<V>>) -> Result<KeyMap<V>, MapError>
    where
        V: Drop,
        ensures members { IfOk result (λ m. IsPermutation (map pair_of members.items) m) }
        ensures same { IfOk result
            (λ m. (k : List ℕ) → lookup k m ≡ lookup k (map pair_of members.items)) }
        ensures distinct { IsOk result → AreDistinct (map key_of members.items) }
        ensures repeated { (place : ℕ) → result ≡ Err (MapError.RepeatedKey place)
            → IsFirstRepeat (map key_of members.items) place }
    {
        let mut members = members;
        if let Err(error) = refuse_repeated_keys(alloc, &members) {
            return Err(error);
        }
        match sort_by_key(&mut members) {
            Ok(()) => Ok(KeyMap { members }),
            Err(_) => Err(MapError::OutOfMemory),
        }
    }

    /// How many members there are.
    pub fn len(&self) -> usize
        ensures { result ≡ length self.now }
    {
        self.members.len()
    }

    /// Whether there is no member.
    pub fn is_empty(&self) -> bool
        ensures { IsTrue result ↔ (self.now ≡ []) }
    {
        self.members.is_empty()
    }

    /// The members, in key order.
    pub fn members(&self) -> &[Member<V>]
        ensures members { map pair_of result.now ≡ self.now }
        ensures rise { rises (keys_of self.now) ≡ true }
    {
        &self.members
    }

    /// The value under a key, if it stands in the map. It compares the key with some log2 n of n keys.
    pub fn get(&self, key: &str) -> Option<&V>
        ensures { option_copied result ≡ lookup key.now self.now }
    {
        match find(&self.members, key) {
            Ok(place) => Some(&self.members[place].value),
            Err(_) => None,
        }
    }

    /// Puts a value under a key, and hands out the value that stood there, if any. It compares the key with some log2 n of n
    /// keys. A new key moves the members after it, and may take memory: where that could not be had, the member comes back as
    /// the error, and the map is as before. For many keys take `from_members`, which sorts once.
    pub fn insert(&mut self, key: String, value: V) -> Result<Option<V>, Member<V>>
        ensures old { IfOk result (λ old. old ≡ lookup (string_bytes key) self.old) }
        ensures new { OnOk result
            ((k : List ℕ)
            → lookup k self.new ≡
            (if bytes_eq k (string_bytes key) then Some value else lookup k self.old)) }
        ensures len { IfOk result
            (λ old. length self.new ≡ length self.old + (if is_some old then 0 else 1)) }
        ensures only_new { OnErr result (lookup (string_bytes key) self.old ≡ None) }
        ensures handed_back { IfErr result (λ member. (member.key ≡ key) × (member.value ≡ value)) }
        ensures err { OnErr result (self.new ≡ self.old) }
    {
        put(&mut self.members, key, value)
    }
}
