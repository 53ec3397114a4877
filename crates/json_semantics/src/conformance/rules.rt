//! The rules that a node of the document keeps.

ghost use Rattle.std.specs.List.{AllByRecursion};
ghost use Rattle.std.specs.Prelude.{◌≡◌, ◌↔◌, ⊤, length, map, Some, IfOk, IsTrue, MatchOption, option_map};
ghost use Rattle.json_model.specs.Parts.{lookup, pairs_of};
ghost use Rattle.json_model.specs.Same.{Same};
ghost use Rattle.json_exact.specs.Trees.{pairs};
ghost use Rattle.json_traits.specs.Kinds.{type_of};
ghost use Rattle.json_semantics.specs.Conformance.{broken_rule, has_equal_elements as equal_elements_rule, rules, the_members, Agree, IsFirstBroken, Judges, Obeys};

use super::error::ConformanceError;
use super::sample::document_members;
use json_exact::{Map, OutOfMemory};
use json_traits::types::JsonType;
use json_traits::{Array, Json, Node, Object};
use std::alloc::Global;

/// The rules, in order.
const RULES: [ConformanceError<'static>; 26] = [
    ConformanceError::NotAnObject,
    ConformanceError::WrongLength,
    ConformanceError::UnexpectedMember,
    ConformanceError::MissingMember { name: "string" },
    ConformanceError::MissingMember { name: "integer" },
    ConformanceError::MissingMember { name: "float" },
    ConformanceError::MissingMember { name: "boolean" },
    ConformanceError::MissingMember { name: "null" },
    ConformanceError::MissingMember { name: "array" },
    ConformanceError::MissingMember { name: "duplicates" },
    ConformanceError::MissingMember { name: "object" },
    ConformanceError::WrongType { name: "string" },
    ConformanceError::WrongType { name: "integer" },
    ConformanceError::WrongType { name: "float" },
    ConformanceError::WrongType { name: "boolean" },
    ConformanceError::WrongType { name: "null" },
    ConformanceError::WrongType { name: "array" },
    ConformanceError::WrongType { name: "duplicates" },
    ConformanceError::WrongType { name: "object" },
    ConformanceError::WrongScalar { name: "string" },
    ConformanceError::WrongScalar { name: "integer" },
    ConformanceError::WrongScalar { name: "float" },
    ConformanceError::WrongScalar { name: "boolean" },
    ConformanceError::WrongElements,
    ConformanceError::WrongUniqueness,
    ConformanceError::WrongNested,
];

/// Whether a node keeps the rules of the document, or the first that it breaks: each refusal says what it asks. It takes memory for
/// the document, of which it may want whatever the node is, and for what [`Array::is_unique`] of the member `duplicates` takes.
pub fn assert_conformance<'a, 'n, F: Json<'a>>(
    alloc: Global,
    root: &F::Node,
) -> Result<(), ConformanceError<'n>>
    ensures { Judges (F.Node.tree root.now) result }
{
    let wanted = document_members(alloc)?;
    match first_broken(alloc, root, &wanted, RULES)? {
        Some(rule) => Err(rule),
        None => Ok(()),
    }
}

/// The first rule that a node breaks, if it breaks one, named by its refusal.
fn first_broken<'a, 'n, N: Node<'a>>(
    alloc: Global,
    root: &N,
    wanted: &Map,
    order: [ConformanceError<'n>; 26],
) -> Result<Option<ConformanceError<'n>>, OutOfMemory>
    requires members { pairs wanted.now ≡ the_members }
    requires in_order { map broken_rule order ≡ map Some rules }
    ensures { IfOk result (λ b. MatchOption b (AllByRecursion (Obeys (N.tree root.now)) rules)
        (λ e. MatchOption (broken_rule e) ⊤ (IsFirstBroken (N.tree root.now)))) }
{
    for rule in &order {
        if !keeps(alloc, root, wanted, *rule)? {
            return Ok(Some(*rule));
        }
    }
    Ok(None)
}

/// Whether a node keeps the rule that a refusal names.
fn keeps<'a, N: Node<'a>>(
    alloc: Global,
    root: &N,
    wanted: &Map,
    rule: ConformanceError<'_>,
) -> Result<bool, OutOfMemory>
    requires { pairs wanted.now ≡ the_members }
    ensures { IfOk result (λ b. MatchOption (broken_rule rule.entry) ⊤ (λ r. IsTrue b ↔ Obeys (N.tree root.now) r)) }
{
    let kept = match rule {
        ConformanceError::NotAnObject => root.as_object().is_some(),
        ConformanceError::WrongLength => has_eight_members(root),
        ConformanceError::UnexpectedMember => found(root, "missing").is_none(),
        ConformanceError::MissingMember { name } => found(root, name).is_some(),
        ConformanceError::WrongType { name } => has_wanted_type(root, wanted, name),
        ConformanceError::WrongScalar { name } => is_as_wanted(root, wanted, name),
        ConformanceError::WrongElements => is_as_wanted(root, wanted, "array"),
        ConformanceError::WrongUniqueness => has_equal_elements(alloc, root)?,
        ConformanceError::WrongNested => is_as_wanted(root, wanted, "object"),
        ConformanceError::OutOfMemory => true,
    };
    Ok(kept)
}

/// The value under a name, if there is one.
fn found<'a, N: Node<'a>>(root: &N, name: &str) -> Option<N>
    ensures { option_map N.tree result ≡ lookup name.now (pairs_of (N.tree root.now)) }
{
    root.as_object()?.get_named(name)
}

/// Whether there are 8 members.
fn has_eight_members<'a, N: Node<'a>>(root: &N) -> bool
    ensures { IsTrue result ↔ (length (pairs_of (N.tree root.now)) ≡ 8) }
{
    match root.as_object() {
        Some(object) => object.len() == 8,
        None => false,
    }
}

/// Whether a node's member is of the type of the wanted one.
fn has_wanted_type<'a, N: Node<'a>>(root: &N, wanted: &Map, name: &str) -> bool
    requires { pairs wanted.now ≡ the_members }
    ensures { IsTrue result ↔ Agree (λ t u. type_of t ≡ type_of u) name.now (N.tree root.now) }
{
    match (found(root, name), wanted.get(name)) {
        (Some(node), Some(value)) => node.json_type() == JsonType::from(value),
        _ => false,
    }
}

/// Whether a node's member is equal to the wanted one.
fn is_as_wanted<'a, N: Node<'a>>(root: &N, wanted: &Map, name: &str) -> bool
    requires { pairs wanted.now ≡ the_members }
    ensures { IsTrue result ↔ Agree Same name.now (N.tree root.now) }
{
    match (found(root, name), wanted.get(name)) {
        (Some(node), Some(value)) => node.equals_value(value),
        _ => false,
    }
}

/// Whether two elements of the member `duplicates` are equal.
fn has_equal_elements<'a, N: Node<'a>>(alloc: Global, root: &N) -> Result<bool, OutOfMemory>
    ensures { IfOk result (λ b. IsTrue b ↔ Obeys (N.tree root.now) equal_elements_rule) }
{
    let Some(node) = found(root, "duplicates") else {
        return Ok(false);
    };
    match node.as_array() {
        Some(array) => Ok(!array.is_unique(alloc)?),
        None => Ok(false),
    }
}
