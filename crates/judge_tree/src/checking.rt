//! Whether a document meets a formula.

ghost use Rattle.std.specs.Prelude.{◌↔◌, ◌⊎◌, IsTrue, IsOk, IfOk, map, string_bytes};
ghost use Rattle.judge_tree.specs.Verdict.{IsOneOf};
ghost use Rattle.judge_tree.specs.inner.Asked.{IsFrugal, Means, all_of, any_of, asked, at_elements, at_key, at_others, negated};

use crate::formula::Formula;
use crate::judged_family::JudgedFamily;
use json_exact::OutOfMemory;
use std::alloc::Global;

/// Whether a document meets a formula, by recursion on the formula. It takes memory for `uniqueItems` with true alone.
#[cycle(holds)]
pub(crate) fn holds<F: JudgedFamily>(
    alloc: Global,
    formula: &Formula,
    node: &F::Node,
) -> Result<bool, OutOfMemory>
    ensures ok { IsFrugal (asked formula.now) → IsOk result }
    ensures right { IfOk result (λ b. IsTrue b ↔ Means (asked formula.now) (F.Node.tree node.now)) }
{
    match formula {
        Formula::Truth(truth) => Ok(*truth),
        Formula::Flat(checks) => F::passes(alloc, checks, node),
        Formula::All(formulas) => all_hold::<F>(alloc, formulas, node),
        Formula::Any(formulas) => any_holds::<F>(alloc, formulas, node),
        Formula::Not(inner) => fails::<F>(alloc, inner, node),
        Formula::Member(name, inner) => member_holds::<F>(alloc, name, inner, node),
        Formula::Others(names, inner) => others_hold::<F>(alloc, names, inner, node),
        Formula::Elements(inner) => elements_hold::<F>(alloc, inner, node),
    }
}

/// Whether a document meets each of the formulas.
#[cycle(holds)]
fn all_hold<F: JudgedFamily>(
    alloc: Global,
    formulas: &[Formula],
    node: &F::Node,
) -> Result<bool, OutOfMemory>
    ensures ok { IsFrugal (all_of (map asked formulas.now)) → IsOk result }
    ensures right { IfOk result (λ b. IsTrue b ↔ Means (all_of (map asked formulas.now)) (F.Node.tree node.now)) }
{
    for i in 0..formulas.len() {
        match holds::<F>(alloc, &formulas[i], node) {
            Ok(true) => {}
            Ok(false) => return Ok(false),
            Err(error) => return Err(error),
        }
    }
    Ok(true)
}

/// Whether a document meets one of the formulas at least.
#[cycle(holds)]
fn any_holds<F: JudgedFamily>(
    alloc: Global,
    formulas: &[Formula],
    node: &F::Node,
) -> Result<bool, OutOfMemory>
    ensures ok { IsFrugal (any_of (map asked formulas.now)) → IsOk result }
    ensures right { IfOk result (λ b. IsTrue b ↔ Means (any_of (map asked formulas.now)) (F.Node.tree node.now)) }
{
    for i in 0..formulas.len() {
        match holds::<F>(alloc, &formulas[i], node) {
            Ok(true) => return Ok(true),
            Ok(false) => {}
            Err(error) => return Err(error),
        }
    }
    Ok(false)
}

/// Whether a document does not meet the formula.
#[cycle(holds)]
fn fails<F: JudgedFamily>(
    alloc: Global,
    formula: &Formula,
    node: &F::Node,
) -> Result<bool, OutOfMemory>
    ensures ok { IsFrugal (asked formula.now) → IsOk result }
    ensures right { IfOk result (λ b. IsTrue b ↔ Means (negated (asked formula.now)) (F.Node.tree node.now)) }
{
    match holds::<F>(alloc, formula, node) {
        Ok(met) => Ok(!met),
        Err(error) => Err(error),
    }
}

/// Whether a document has no member of the name, or one that meets the formula.
#[cycle(holds)]
fn member_holds<F: JudgedFamily>(
    alloc: Global,
    name: &str,
    formula: &Formula,
    node: &F::Node,
) -> Result<bool, OutOfMemory>
    ensures ok { IsFrugal (asked formula.now) → IsOk result }
    ensures right { IfOk result (λ b. IsTrue b ↔ Means (at_key name.now (asked formula.now)) (F.Node.tree node.now)) }
{
    let Some(object) = F::as_object(node) else {
        return Ok(true);
    };
    match F::get_named(&object, name) {
        Some(value) => holds::<F>(alloc, formula, &value),
        None => Ok(true),
    }
}

/// Whether each member of a document, but those of the names, meets the formula.
#[cycle(holds)]
fn others_hold<F: JudgedFamily>(
    alloc: Global,
    names: &[String],
    formula: &Formula,
    node: &F::Node,
) -> Result<bool, OutOfMemory>
    ensures ok { IsFrugal (asked formula.now) → IsOk result }
    ensures right { IfOk result (λ b. IsTrue b ↔ Means (at_others (map string_bytes names.now) (asked formula.now)) (F.Node.tree node.now)) }
{
    let Some(object) = F::as_object(node) else {
        return Ok(true);
    };
    for member in F::members(&object) {
        match other_holds::<F>(alloc, names, formula, &member) {
            Ok(true) => {}
            Ok(false) => return Ok(false),
            Err(error) => return Err(error),
        }
    }
    Ok(true)
}

/// Whether a member has one of the names, or meets the formula.
#[cycle(holds)]
fn other_holds<F: JudgedFamily>(
    alloc: Global,
    names: &[String],
    formula: &Formula,
    member: &F::Member,
) -> Result<bool, OutOfMemory>
    ensures ok { IsFrugal (asked formula.now) → IsOk result }
    ensures right { IfOk result (λ b. IsTrue b
        ↔ (IsOneOf (map string_bytes names.now) (F.pair member.now).0 ⊎ Means (asked formula.now) (F.pair member.now).1)) }
{
    let key = F::key(member);
    if is_one_of(names, F::as_str(&key)) {
        return Ok(true);
    }
    holds::<F>(alloc, formula, &F::value(member))
}

/// Whether each element of a document meets the formula.
#[cycle(holds)]
fn elements_hold<F: JudgedFamily>(
    alloc: Global,
    formula: &Formula,
    node: &F::Node,
) -> Result<bool, OutOfMemory>
    ensures ok { IsFrugal (asked formula.now) → IsOk result }
    ensures right { IfOk result (λ b. IsTrue b ↔ Means (at_elements (asked formula.now)) (F.Node.tree node.now)) }
{
    let Some(array) = F::as_array(node) else {
        return Ok(true);
    };
    for element in F::elements(&array) {
        match holds::<F>(alloc, formula, &element) {
            Ok(true) => {}
            Ok(false) => return Ok(false),
            Err(error) => return Err(error),
        }
    }
    Ok(true)
}

/// Whether a key is one of the names.
fn is_one_of(names: &[String], key: &str) -> bool
    ensures { IsTrue result ↔ IsOneOf (map string_bytes names.now) key.now }
{
    for i in 0..names.len() {
        if names[i].as_str() == key {
            return true;
        }
    }
    false
}
