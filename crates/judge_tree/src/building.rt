//! Formulas are put together.

ghost use Rattle.std.specs.Prelude.{◌≡◌, ◌∷◌, [], ◌++◌, IfOk, OnOk, map, string_bytes};
ghost use Rattle.judge_tree.specs.inner.Asked.{all_of, any_of, asked, at_elements, at_key, at_others, flat, negated, truth};

use crate::formula::Formula;
use flat_keywords::Checks;
use json_exact::OutOfMemory;
use std::alloc::Global;

/// A formula on the heap.
fn boxed(alloc: Global, formula: Formula) -> Result<Box<Formula>, OutOfMemory>
    ensures { IfOk result (λ b. b.value ≡ formula) }
{
    Box::new(alloc, formula).map_err(|_| OutOfMemory)
}

/// Every document meets it, or none.
pub(crate) fn of_truth(value: bool) -> Formula
    ensures { asked result ≡ truth value }
{
    Formula::Truth(value)
}

/// A flat keyword.
pub(crate) fn of_checks(checks: Checks) -> Formula
    ensures { asked result ≡ flat checks }
{
    Formula::Flat(checks)
}

/// Each of these.
pub(crate) fn of_all(formulas: Vec<Formula>) -> Formula
    ensures { asked result ≡ all_of (map asked formulas.items) }
{
    Formula::All(formulas)
}

/// One of these at least.
pub(crate) fn of_any(formulas: Vec<Formula>) -> Formula
    ensures { asked result ≡ any_of (map asked formulas.items) }
{
    Formula::Any(formulas)
}

/// Not this.
pub(crate) fn of_not(alloc: Global, formula: Formula) -> Result<Formula, OutOfMemory>
    ensures { IfOk result (λ f. asked f ≡ negated (asked formula)) }
{
    Ok(Formula::Not(boxed(alloc, formula)?))
}

/// This of the member of a name.
pub(crate) fn of_member(alloc: Global, name: &str, formula: Formula) -> Result<Formula, OutOfMemory>
    ensures { IfOk result (λ f. asked f ≡ at_key name.now (asked formula)) }
{
    let name = String::from_str(alloc, name)?;
    Ok(Formula::Member(name, boxed(alloc, formula)?))
}

/// This of each member that has none of the names.
pub(crate) fn of_others(
    alloc: Global,
    names: Vec<String>,
    formula: Formula,
) -> Result<Formula, OutOfMemory>
    ensures { IfOk result (λ f. asked f ≡ at_others (map string_bytes names.items) (asked formula)) }
{
    Ok(Formula::Others(names, boxed(alloc, formula)?))
}

/// This of each element.
pub(crate) fn of_elements(alloc: Global, formula: Formula) -> Result<Formula, OutOfMemory>
    ensures { IfOk result (λ f. asked f ≡ at_elements (asked formula)) }
{
    Ok(Formula::Elements(boxed(alloc, formula)?))
}

/// Puts a formula at the end.
pub(crate) fn put(formulas: &mut Vec<Formula>, formula: Formula) -> Result<(), OutOfMemory>
    ensures { OnOk result (map asked formulas.new.items ≡ map asked formulas.old.items ++ asked formula ∷ []) }
{
    formulas.push(formula).map_err(|_| OutOfMemory)
}

/// Puts what asks a formula of the member of a name at the end.
pub(crate) fn put_member(
    alloc: Global,
    formulas: &mut Vec<Formula>,
    name: &str,
    formula: Formula,
) -> Result<(), OutOfMemory>
    ensures { OnOk result (map asked formulas.new.items ≡ map asked formulas.old.items ++ at_key name.now (asked formula) ∷ []) }
{
    put(formulas, of_member(alloc, name, formula)?)
}

/// Puts a copy of a name at the end.
pub(crate) fn put_name(
    alloc: Global,
    names: &mut Vec<String>,
    name: &str,
) -> Result<(), OutOfMemory>
    ensures { OnOk result (map string_bytes names.new.items ≡ map string_bytes names.old.items ++ name.now ∷ []) }
{
    names
        .push(String::from_str(alloc, name)?)
        .map_err(|_| OutOfMemory)
}
