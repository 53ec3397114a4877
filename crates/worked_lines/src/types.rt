//! The seven types, and sets of them.

use json_traits::types::{JsonType, JsonTypeSet};
use std::alloc::Global;

/// `NAME NAME ..`: the types of these names in their order, twice; how many they are; whether `number` is one; the set without
/// `null`; the set with all; and what it shares with `array` and `null`.
pub(crate) fn types(alloc: Global, rest: &str) -> Option<String> {
    let set = set_of(rest)?;
    let mut all = format!(in alloc; "{set:?}").ok()?;
    for ty in &set {
        write!(all, " {ty}").ok()?;
    }
    for ty in set.remove(JsonType::Null) {
        write!(all, " {}", ty.as_str()).ok()?;
    }
    add_facts(&mut all, set)?;
    Some(all)
}

// The set of the types of these names.
fn set_of(rest: &str) -> Option<JsonTypeSet> {
    let mut set = JsonTypeSet::empty();
    for name in rest.split(' ') {
        set = set.insert(name.parse::<JsonType>().ok()?);
    }
    Some(set)
}

// How many types a set has, whether `number` is one, what it shares with `array` and `null`, and whether all beside it are all.
fn add_facts(all: &mut String, set: JsonTypeSet) -> Option<()> {
    let lengths = (
        set.len(),
        set.iter().len(),
        set.is_empty(),
        set.contains(JsonType::Number),
    );
    let shared = set.intersect(JsonType::Array | JsonType::Null);
    let all_types = JsonTypeSet::default().union(JsonTypeSet::all()) | JsonType::Null;
    let more = set.union(JsonTypeSet::all()) == all_types;
    write!(all, " {lengths:?} {shared:?} {more}").ok()
}
