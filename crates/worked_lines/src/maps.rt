//! Maps.

use key_map::{KeyMap, Member};
use std::alloc::Global;

/// `KEY KEY ..`: the members in their order, each with its place, or the place of a repeated key. Then the value that is put
/// under the first key again gives out its place.
pub(crate) fn map(alloc: Global, rest: &str) -> Option<String> {
    match KeyMap::from_members(alloc, members_of(alloc, rest)?) {
        Ok(map) => describe(alloc, map),
        Err(error) => format!(in alloc; "{error} {error:?}").ok(),
    }
}

// A member for each word, with its number.
fn members_of(alloc: Global, rest: &str) -> Option<Vec<Member<usize>>> {
    let mut members = Vec::new(alloc);
    for (value, key) in rest.split(' ').enumerate() {
        let key = String::from_str(alloc, key).ok()?;
        members.push(Member { key, value }).ok()?;
    }
    Some(members)
}

// The members, and what a value that is put under `a` gives out.
fn describe(alloc: Global, map: KeyMap<usize>) -> Option<String> {
    let mut map = map;
    let mut all = String::new(alloc);
    add_members(&mut all, &map)?;
    let old = map.insert(String::from_str(alloc, "a").ok()?, 9).ok()?;
    write!(all, "{old:?} ").ok()?;
    add_values(&mut all, &map)?;
    Some(all)
}

// The members in their order.
fn add_members(all: &mut String, map: &KeyMap<usize>) -> Option<()> {
    for member in map.members() {
        let found = map.get(&member.key) == Some(&member.value);
        write!(all, "{:?} {} {found}, ", member.key, member.value).ok()?;
    }
    Some(())
}

// The values under a name that is there and one that is not, and how many members there are.
fn add_values(all: &mut String, map: &KeyMap<usize>) -> Option<()> {
    let (one, none) = (map.get("a"), map.get("none"));
    write!(all, "{one:?} {none:?} {}", map.len()).ok()
}
