//! A schema is compiled, by recursion on its tree.

ghost use Rattle.std.specs.Prelude.{◌≡◌, ◌⊎◌, IfOk, MatchResult, map, string_bytes};
ghost use Rattle.std.specs.List.{AllByRecursion};
ghost use Rattle.json_model.specs.Parts.{elements_of, members_from, pairs_of};
ghost use Rattle.flat_keywords.specs.Validity.{AsksUnique};
ghost use Rattle.flat_keywords.specs.Verdict.{HoldsAt};
ghost use Rattle.judge_tree.specs.Unique.{NeverAsks, NoMemberAsks, NoPropertyAsks, NoneInListAsks};
ghost use Rattle.judge_tree.specs.Verdict.{IsOneOf, IsValidUnder, MeetsAll, MeetsAny, MeetsEach, MeetsProperties, property_names};
ghost use Rattle.judge_tree.specs.Walks.{Walks, WalksEach, WalksFlat, WalksList, WalksProperties};
ghost use Rattle.judge_tree.specs.inner.Built.{AreBuilt, IsBuilt, MeetsMember, MemberNeverAsks, Stops, WalksMember};

use crate::applicator::Applicator;
use crate::building::{
    of_all, of_any, of_checks, of_elements, of_not, of_others, of_truth, put, put_member, put_name,
};
use crate::compiled::{Compiled, CompiledList};
use crate::errors::SchemaError;
use crate::judged_family::JudgedFamily;
use json_exact::OutOfMemory;
use std::alloc::Global;

/// Compiles schema number `number`. A number that would pass the range of `usize` is answered by want of memory.
#[cycle(compiling)]
pub(crate) fn compile_schema<F: JudgedFamily>(
    alloc: Global,
    node: &F::Node,
    number: usize,
) -> Result<Compiled, SchemaError>
    ensures { MatchResult result
        (IsBuilt (IsValidUnder (F.Node.tree node.now)) (NeverAsks (F.Node.tree node.now)) (Walks (F.Node.tree node.now) number))
        (Stops (Walks (F.Node.tree node.now) number)) }
{
    let Some(next) = number.checked_add(1) else {
        return Err(SchemaError::OutOfMemory);
    };
    if let Some(value) = F::as_boolean(node) {
        return Ok(Compiled {
            formula: of_truth(value),
            next,
        });
    }
    match F::as_object(node) {
        Some(object) => compile_members::<F>(alloc, &object, number, next),
        None => Err(SchemaError::NotASchema { schema: number }),
    }
}

/// Compiles the members of schema number `number`, which is an object.
#[cycle(compiling)]
fn compile_members<F: JudgedFamily>(
    alloc: Global,
    object: &F::Object,
    number: usize,
    first: usize,
) -> Result<Compiled, SchemaError>
    ensures { MatchResult result
        (IsBuilt (MeetsEach (property_names (pairs_of (F.Object.tree object.now))) (members_from (pairs_of (F.Object.tree object.now))))
        (NoMemberAsks (members_from (pairs_of (F.Object.tree object.now))))
        (WalksEach (members_from (pairs_of (F.Object.tree object.now))) number 0 first))
        (Stops (WalksEach (members_from (pairs_of (F.Object.tree object.now))) number 0 first)) }
{
    let mut formulas = Vec::new(alloc);
    let mut place = 0;
    let mut next = first;
    for member in F::members(object) {
        let compiled = match compile_member::<F>(alloc, object, &member, number, place, next) {
            Ok(compiled) => compiled,
            Err(error) => return Err(error),
        };
        let Some(after) = place.checked_add(1) else {
            return Err(SchemaError::OutOfMemory);
        };
        match put(&mut formulas, compiled.formula) {
            Ok(()) => {}
            Err(_) => return Err(SchemaError::OutOfMemory),
        }
        place = after;
        next = compiled.next;
    }
    Ok(Compiled {
        formula: of_all(formulas),
        next,
    })
}

/// Compiles member number `place` of schema number `number`.
#[cycle(compiling)]
fn compile_member<F: JudgedFamily>(
    alloc: Global,
    object: &F::Object,
    member: &F::Member,
    number: usize,
    place: usize,
    next: usize,
) -> Result<Compiled, SchemaError>
    ensures { MatchResult result
        (IsBuilt (MeetsMember (property_names (pairs_of (F.Object.tree object.now))) (F.pair member.now))
        (MemberNeverAsks (F.pair member.now)) (WalksMember number place next (F.pair member.now)))
        (Stops (WalksMember number place next (F.pair member.now))) }
{
    let key = F::key(member);
    let value = F::value(member);
    match Applicator::from_name(F::as_str(&key)) {
        None => compile_flat::<F>(alloc, member, number, place, next),
        Some(Applicator::Properties) => {
            compile_properties::<F>(alloc, &value, number, place, next)
        }
        Some(Applicator::AdditionalProperties) => compile_others::<F>(alloc, object, &value, next),
        Some(Applicator::Items) => compile_items::<F>(alloc, &value, next),
        Some(Applicator::AllOf) => compile_all::<F>(alloc, &value, number, place, next),
        Some(Applicator::AnyOf) => compile_any::<F>(alloc, &value, number, place, next),
        Some(Applicator::Not) => compile_not::<F>(alloc, &value, next),
    }
}

/// Compiles a flat keyword.
fn compile_flat<F: JudgedFamily>(
    alloc: Global,
    member: &F::Member,
    number: usize,
    place: usize,
    next: usize,
) -> Result<Compiled, SchemaError>
    ensures { MatchResult result
        (IsBuilt (λ d. HoldsAt d (F.pair member.now)) (AsksUnique (F.pair member.now) → ⊥)
        (WalksFlat number place next (F.pair member.now)))
        (Stops (WalksFlat number place next (F.pair member.now))) }
{
    match F::compile_flat(alloc, member) {
        Ok(checks) => Ok(Compiled {
            formula: of_checks(checks),
            next,
        }),
        Err(error) => Err(SchemaError::of_flat(error, number, place)),
    }
}

/// Compiles the value of `properties`.
#[cycle(compiling)]
fn compile_properties<F: JudgedFamily>(
    alloc: Global,
    value: &F::Node,
    number: usize,
    place: usize,
    first: usize,
) -> Result<Compiled, SchemaError>
    ensures { MatchResult result
        (IsBuilt (MeetsProperties (F.Node.tree value.now)) (NoPropertyAsks (F.Node.tree value.now))
        (WalksProperties (F.Node.tree value.now) number place first))
        (Stops (WalksProperties (F.Node.tree value.now) number place first)) }
{
    let Some(object) = F::as_object(value) else {
        return Err(SchemaError::BadKeyword {
            schema: number,
            member: place,
        });
    };
    let mut formulas = Vec::new(alloc);
    let mut next = first;
    for member in F::members(&object) {
        let compiled = match compile_schema::<F>(alloc, &F::value(&member), next) {
            Ok(compiled) => compiled,
            Err(error) => return Err(error),
        };
        let key = F::key(&member);
        match put_member(alloc, &mut formulas, F::as_str(&key), compiled.formula) {
            Ok(()) => {}
            Err(_) => return Err(SchemaError::OutOfMemory),
        }
        next = compiled.next;
    }
    Ok(Compiled {
        formula: of_all(formulas),
        next,
    })
}

/// Compiles the value of `additionalProperties`, which is a schema, beside `properties` in `object`, if that is there.
#[cycle(compiling)]
fn compile_others<F: JudgedFamily>(
    alloc: Global,
    object: &F::Object,
    value: &F::Node,
    next: usize,
) -> Result<Compiled, SchemaError>
    ensures { MatchResult result
        (IsBuilt (λ d. AllByRecursion (λ p. IsOneOf (property_names (pairs_of (F.Object.tree object.now))) p.0
        ⊎ IsValidUnder (F.Node.tree value.now) p.1) (pairs_of d)) (NeverAsks (F.Node.tree value.now)) (Walks (F.Node.tree value.now) next))
        (Stops (Walks (F.Node.tree value.now) next)) }
{
    let names = match names_under_properties::<F>(alloc, object) {
        Ok(names) => names,
        Err(_) => return Err(SchemaError::OutOfMemory),
    };
    let compiled = match compile_schema::<F>(alloc, value, next) {
        Ok(compiled) => compiled,
        Err(error) => return Err(error),
    };
    match of_others(alloc, names, compiled.formula) {
        Ok(formula) => Ok(Compiled {
            formula,
            next: compiled.next,
        }),
        Err(_) => Err(SchemaError::OutOfMemory),
    }
}

/// Compiles the value of `items`, which is a schema.
#[cycle(compiling)]
fn compile_items<F: JudgedFamily>(
    alloc: Global,
    value: &F::Node,
    next: usize,
) -> Result<Compiled, SchemaError>
    ensures { MatchResult result
        (IsBuilt (λ d. AllByRecursion (IsValidUnder (F.Node.tree value.now)) (elements_of d)) (NeverAsks (F.Node.tree value.now))
        (Walks (F.Node.tree value.now) next))
        (Stops (Walks (F.Node.tree value.now) next)) }
{
    let compiled = match compile_schema::<F>(alloc, value, next) {
        Ok(compiled) => compiled,
        Err(error) => return Err(error),
    };
    match of_elements(alloc, compiled.formula) {
        Ok(formula) => Ok(Compiled {
            formula,
            next: compiled.next,
        }),
        Err(_) => Err(SchemaError::OutOfMemory),
    }
}

/// Compiles the value of `not`, which is a schema.
#[cycle(compiling)]
fn compile_not<F: JudgedFamily>(
    alloc: Global,
    value: &F::Node,
    next: usize,
) -> Result<Compiled, SchemaError>
    ensures { MatchResult result
        (IsBuilt (λ d. IsValidUnder (F.Node.tree value.now) d → ⊥) (NeverAsks (F.Node.tree value.now)) (Walks (F.Node.tree value.now) next))
        (Stops (Walks (F.Node.tree value.now) next)) }
{
    let compiled = match compile_schema::<F>(alloc, value, next) {
        Ok(compiled) => compiled,
        Err(error) => return Err(error),
    };
    match of_not(alloc, compiled.formula) {
        Ok(formula) => Ok(Compiled {
            formula,
            next: compiled.next,
        }),
        Err(_) => Err(SchemaError::OutOfMemory),
    }
}

/// Compiles the value of `allOf`.
#[cycle(compiling)]
fn compile_all<F: JudgedFamily>(
    alloc: Global,
    value: &F::Node,
    number: usize,
    place: usize,
    next: usize,
) -> Result<Compiled, SchemaError>
    ensures { MatchResult result
        (IsBuilt (MeetsAll (F.Node.tree value.now)) (NoneInListAsks (F.Node.tree value.now)) (WalksList (F.Node.tree value.now) number place next))
        (Stops (WalksList (F.Node.tree value.now) number place next)) }
{
    match compile_list::<F>(alloc, value, number, place, next) {
        Ok(list) => Ok(Compiled {
            formula: of_all(list.formulas),
            next: list.next,
        }),
        Err(error) => Err(error),
    }
}

/// Compiles the value of `anyOf`.
#[cycle(compiling)]
fn compile_any<F: JudgedFamily>(
    alloc: Global,
    value: &F::Node,
    number: usize,
    place: usize,
    next: usize,
) -> Result<Compiled, SchemaError>
    ensures { MatchResult result
        (IsBuilt (MeetsAny (F.Node.tree value.now)) (NoneInListAsks (F.Node.tree value.now)) (WalksList (F.Node.tree value.now) number place next))
        (Stops (WalksList (F.Node.tree value.now) number place next)) }
{
    match compile_list::<F>(alloc, value, number, place, next) {
        Ok(list) => Ok(Compiled {
            formula: of_any(list.formulas),
            next: list.next,
        }),
        Err(error) => Err(error),
    }
}

/// Compiles the elements of the value of `allOf` or `anyOf`: schemas, and at least one.
#[cycle(compiling)]
fn compile_list<F: JudgedFamily>(
    alloc: Global,
    value: &F::Node,
    number: usize,
    place: usize,
    first: usize,
) -> Result<CompiledList, SchemaError>
    ensures { MatchResult result
        (AreBuilt (F.Node.tree value.now) (WalksList (F.Node.tree value.now) number place first))
        (Stops (WalksList (F.Node.tree value.now) number place first)) }
{
    let Some(array) = F::as_array(value) else {
        return Err(SchemaError::BadKeyword {
            schema: number,
            member: place,
        });
    };
    if F::element_count(&array) == 0 {
        return Err(SchemaError::BadKeyword {
            schema: number,
            member: place,
        });
    }
    let mut formulas = Vec::new(alloc);
    let mut next = first;
    for element in F::elements(&array) {
        let compiled = match compile_schema::<F>(alloc, &element, next) {
            Ok(compiled) => compiled,
            Err(error) => return Err(error),
        };
        match put(&mut formulas, compiled.formula) {
            Ok(()) => {}
            Err(_) => return Err(SchemaError::OutOfMemory),
        }
        next = compiled.next;
    }
    Ok(CompiledList { formulas, next })
}

/// Copies of the keys under `properties`; none where there is no such object.
fn names_under_properties<F: JudgedFamily>(
    alloc: Global,
    object: &F::Object,
) -> Result<Vec<String>, OutOfMemory>
    ensures { IfOk result (λ ns. map string_bytes ns.items ≡ property_names (pairs_of (F.Object.tree object.now))) }
{
    let Some(properties) = F::get_named(object, "properties") else {
        return Ok(Vec::new(alloc));
    };
    match F::as_object(&properties) {
        Some(inner) => keys::<F>(alloc, &inner),
        None => Ok(Vec::new(alloc)),
    }
}

/// Copies of the keys of an object, in key order.
fn keys<F: JudgedFamily>(alloc: Global, object: &F::Object) -> Result<Vec<String>, OutOfMemory>
    ensures { IfOk result (λ ns. map string_bytes ns.items ≡ map (λ p. p.0) (pairs_of (F.Object.tree object.now))) }
{
    let mut names = Vec::new(alloc);
    for member in F::members(object) {
        let key = F::key(&member);
        match put_name(alloc, &mut names, F::as_str(&key)) {
            Ok(()) => {}
            Err(error) => return Err(error),
        }
    }
    Ok(names)
}
