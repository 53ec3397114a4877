//! The values that `const` and `enum` keep, read and compared.

ghost use Rattle.std.specs.Prelude.{◌≡◌, ◌↔◌, IsTrue, IfOk, IfSome, MatchResult};
ghost use Rattle.json_exact.specs.Trees.{tree};
ghost use Rattle.json_model.specs.Same.{Same};
ghost use Rattle.json_traits.specs.declared.value_error.ValueError.{ValueError};
ghost use Rattle.flat_keywords.specs.Validity.{IsDeep, Suits};
ghost use Rattle.flat_keywords.specs.inner.Passes.{AddFault, AreListed, IsConstant, IsListed};
ghost use Rattle.flat_keywords.specs.declared.keyword.Keyword.TheVariants as keywords;

use crate::errors::KeywordError;
use json_exact::{OutOfMemory, Value};
use json_traits::{Array, Node, ValueError};
use std::alloc::Global;

/// A value of a node's tree, of one's own.
fn own_value<'a, N: Node<'a>>(alloc: Global, node: &N) -> Result<Value, ValueError>
    ensures tree { IfOk result (λ v. tree v ≡ N.tree node.now) }
    ensures deep { (result ≡ Err ValueError.TooDeep) ↔ IsDeep (N.tree node.now) }
{
    let value = node.to_value(alloc)?;
    match value.into_owned(alloc) {
        Ok(value) => Ok(value),
        Err(OutOfMemory) => Err(ValueError::OutOfMemory),
    }
}

/// The value of `const`.
pub(crate) fn read_constant<'a, N: Node<'a>>(
    alloc: Global,
    value: &N,
    member: usize,
) -> Result<Value, KeywordError>
    ensures { MatchResult result
        (λ constant. Suits keywords.Const (N.tree value.now)
        × IsConstant (N.tree value.now) constant)
        (AddFault member keywords.Const (N.tree value.now)) }
{
    match own_value(alloc, value) {
        Ok(constant) => Ok(constant),
        Err(ValueError::TooDeep) => Err(KeywordError::TooDeep { member }),
        Err(ValueError::OutOfMemory) => Err(KeywordError::OutOfMemory),
    }
}

/// The elements of the value of `enum`.
pub(crate) fn read_listed<'a, N: Node<'a>>(
    alloc: Global,
    value: &N,
    member: usize,
) -> Result<Vec<Value>, KeywordError>
    ensures { MatchResult result
        (λ listed. Suits keywords.Enum (N.tree value.now)
        × AreListed (N.tree value.now) listed.items)
        (AddFault member keywords.Enum (N.tree value.now)) }
{
    let Some(list) = value.as_array() else {
        return Err(KeywordError::BadKeyword { member });
    };
    let mut listed = Vec::new(alloc);
    for element in list.elements() {
        let kept = match own_value(alloc, &element) {
            Ok(kept) => kept,
            Err(ValueError::TooDeep) => return Err(KeywordError::TooDeep { member }),
            Err(ValueError::OutOfMemory) => return Err(KeywordError::OutOfMemory),
        };
        let Ok(()) = listed.push(kept) else {
            return Err(KeywordError::OutOfMemory);
        };
    }
    Ok(listed)
}

/// Whether a document is equal to the value of `const`, if there is one.
pub(crate) fn meets_constant<'a, N: Node<'a>>(constant: &Option<Value>, node: &N) -> bool
    ensures { IsTrue result
        ↔ IfSome constant.now (λ value. Same (N.tree node.now) (tree value)) }
{
    match constant {
        Some(value) => node.equals_value(value),
        None => true,
    }
}

/// Whether a document is equal to an element of `enum`, if there is one.
pub(crate) fn meets_listed<'a, N: Node<'a>>(listed: &Option<Vec<Value>>, node: &N) -> bool
    ensures { IsTrue result
        ↔ IfSome listed.now (λ values. IsListed (N.tree node.now) values.items) }
{
    match listed {
        Some(values) => is_one_of(node, values),
        None => true,
    }
}

/// Whether a node is equal to one of the values.
fn is_one_of<'a, N: Node<'a>>(node: &N, values: &[Value]) -> bool
    ensures { IsTrue result ↔ IsListed (N.tree node.now) values.now }
{
    for place in 0..values.len() {
        if node.equals_value(&values[place]) {
            return true;
        }
    }
    false
}
