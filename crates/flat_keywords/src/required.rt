//! Whether an object has the keys that `required` asks for.

ghost use Rattle.std.specs.Prelude.{◌≡◌, ◌≤◌, ◌↔◌, length, take, IsTrue};
ghost use Rattle.std.specs.List.Sorted.{IsPermutation};
ghost use Rattle.json_model.specs.Parts.{pairs_of};
ghost use Rattle.flat_keywords.specs.inner.Passes.{HasKeys};

use json_traits::{Node, Object};
use std::cmp::Ordering;

/// So many keys are passed by in the time of one look-up.
const KEYS_A_LOOKUP: usize = 64;

/// Which of two names comes first in key order: the shorter, and of two of one length the one with the lower byte where they
/// first differ.
fn compare_names(name: &str, other: &str) -> Ordering {
    if name.len() != other.len() {
        return name.len().cmp(&other.len());
    }
    name.cmp(other)
}

/// Puts names in key order. It takes no memory.
pub(crate) fn put_in_key_order(names: &mut Vec<String>)
    ensures { IsPermutation names.old.items names.new.items }
{
    names.sort_unstable_by(|name, other| compare_names(name.as_str(), other.as_str()));
}

/// Whether an object has each of the names as a key. Few names are looked up. Many are sought beside the keys, in one walk over
/// both: where they stand in key order, as those of a keyword object do, at most one is looked up after that.
#[tactic(auto, using(crate::proofs::RequiredKeys::others_decide))]
pub(crate) fn has_keys<'a, N: Node<'a>>(names: &[String], object: &N::Object) -> bool
    ensures { IsTrue result ↔ HasKeys names.now (pairs_of (N.Object.tree object.now)) }
{
    if names.len() <= object.len() / KEYS_A_LOOKUP {
        return finds_keys::<N>(names, object);
    }
    let (_, others) = names.split_at(passed_keys::<N>(names, object));
    finds_keys::<N>(others, object)
}

/// Whether each of the names is found by a look-up.
fn finds_keys<'a, N: Node<'a>>(names: &[String], object: &N::Object) -> bool
    ensures { IsTrue result ↔ HasKeys names.now (pairs_of (N.Object.tree object.now)) }
{
    for place in 0..names.len() {
        if object.get_named(names[place].as_str()).is_none() {
            return false;
        }
    }
    true
}

/// How many names, from the first on, are met in a walk over the keys.
fn passed_keys<'a, N: Node<'a>>(names: &[String], object: &N::Object) -> usize
    ensures within { result ≤ length names.now }
    ensures keys { HasKeys (take result names.now) (pairs_of (N.Object.tree object.now)) }
{
    let mut passed = 0;
    for (key, _) in object.members() {
        if passed < names.len() && names[passed].as_str() == key {
            passed += 1;
        }
    }
    passed
}
