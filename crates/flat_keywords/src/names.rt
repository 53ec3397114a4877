//! The names that `required` lists, read and sought.

ghost use Rattle.std.specs.Prelude.{◌≡◌, ◌∷◌, ◌++◌, [], ◌↔◌, IsTrue, IfSome, MatchResult, string_bytes};
ghost use Rattle.json_model.specs.Parts.{as_object};
ghost use Rattle.flat_keywords.specs.inner.Passes.{AddFault, AreNamesOf, Gains, HasKeys};
ghost use Rattle.flat_keywords.specs.Validity.{HasForm};
ghost use Rattle.flat_keywords.specs.declared.keyword.Keyword.TheVariants as keywords;

use crate::errors::KeywordError;
use crate::required::{has_keys, put_in_key_order};
use json_traits::{Array, Node};
use std::alloc::Global;
use std::collections::BTreeSet;

/// The names that the value of `required` lists, each once; by review, in key order. It takes memory for copies of them, and for a set of
/// them while it looks for one that stands twice. Want of memory comes of a list alone.
pub(crate) fn read_names<'a, N: Node<'a>>(
    alloc: Global,
    value: &N,
    member: usize,
) -> Result<Vec<String>, KeywordError>
    ensures { MatchResult result
        (λ names. HasForm keywords.Required (N.tree value.now)
        × AreNamesOf (N.tree value.now) names.items)
        (AddFault member keywords.Required (N.tree value.now)) }
{
    let Some(list) = value.as_array() else {
        return Err(KeywordError::BadKeyword { member });
    };
    let mut names = Vec::new(alloc);
    let mut seen = BTreeSet::new(alloc);
    for element in list.elements() {
        let Some(name) = element.as_string() else {
            return Err(KeywordError::BadKeyword { member });
        };
        match seen.insert(name) {
            Ok(true) => (),
            Ok(false) => return Err(KeywordError::BadKeyword { member }),
            Err(_) => return Err(KeywordError::OutOfMemory),
        }
        if !keep(alloc, &mut names, name) {
            return Err(KeywordError::OutOfMemory);
        }
    }
    put_in_key_order(&mut names);
    Ok(names)
}

/// Puts a copy of a name at the end, and says whether there was memory for it.
fn keep(alloc: Global, names: &mut Vec<String>, name: &str) -> bool
    ensures { IsTrue result → Gains names.old.items names.new.items name.now }
{
    let Ok(copy) = String::from_str(alloc, name) else {
        return false;
    };
    let Ok(()) = names.push(copy) else {
        return false;
    };
    true
}

/// Whether a value is no object, or has each of the names as a key.
#[tactic(auto, using(json_model::proofs::KindLaws::object_some, json_model::proofs::KindLaws::object_none, json_model::proofs::KindLaws::if_object_is))]
pub(crate) fn meets_required<'a, N: Node<'a>>(names: &Option<Vec<String>>, node: &N) -> bool
    ensures { IsTrue result
        ↔ IfSome names.now (λ names. IfSome (as_object (N.tree node.now)) (HasKeys names.items)) }
{
    let Some(names) = names else {
        return true;
    };
    let Some(object) = node.as_object() else {
        return true;
    };
    has_keys::<N>(names, &object)
}
