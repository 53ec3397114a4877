//! The document that representations are tried on.

ghost use Rattle.std.specs.Prelude.{◌≡◌, ℕ, List, Some, codes, IfOk, OnOk, bytes_eq, map, if◌then◌else◌};
ghost use Rattle.json_model.specs.Decimal.{Decimal as Written};
ghost use Rattle.json_model.specs.Parts.{elements_from, lookup};
ghost use Rattle.json_model.specs.Tree.{array, scalar, number as number_of, string as string_of};
ghost use Rattle.json_exact.specs.Parsed.{IsNumber};
ghost use Rattle.json_exact.specs.Trees.{tree, pairs};
ghost use Rattle.json_semantics.specs.Conformance.{a_is_one, integer, one_member as one_member_of, three as three_of, the_document, the_members};

use json_exact::{Map, Number, OutOfMemory, Value};
use std::alloc::Global;

/// The value of `{"string":"héllo","integer":42,"float":1.5,"boolean":true,"null":null,"array":[10,20,30],
/// "duplicates":[1,{"a":1},{"a":1}],"object":{"nested":"value"}}`. Numbers are written as they stand here.
pub fn document(alloc: Global) -> Result<Value, OutOfMemory>
    ensures { IfOk result (λ v. tree v ≡ the_document) }
{
    Ok(Value::Object(document_members(alloc)?))
}

/// The members of the document, put in from the last in key order to the first.
pub(super) fn document_members(alloc: Global) -> Result<Map, OutOfMemory>
    ensures { IfOk result (λ m. pairs m ≡ the_members) }
{
    let mut members = Map::new(alloc);
    put(alloc, &mut members, "duplicates", duplicates(alloc)?)?;
    put(alloc, &mut members, "integer", number("42"))?;
    put(alloc, &mut members, "boolean", Value::Bool(true))?;
    put(alloc, &mut members, "string", text(alloc, "héllo")?)?;
    put(alloc, &mut members, "object", nested(alloc)?)?;
    put(alloc, &mut members, "float", number("1.5"))?;
    put(alloc, &mut members, "array", tens(alloc)?)?;
    put(alloc, &mut members, "null", Value::Null)?;
    // The keys of both lists of members rise.
    let _members = members.iter();
    Ok(members)
}

/// Puts a value under a key that is text of the program.
fn put(alloc: Global, members: &mut Map, key: &str, value: Value) -> Result<(), OutOfMemory>
    ensures { OnOk result ((k : List ℕ) → lookup k (pairs members.new)
        ≡ (if bytes_eq k key.now then Some (tree value) else lookup k (pairs members.old))) }
{
    let _replaced = members.insert(String::from_str(alloc, key)?, value)?;
    Ok(())
}

/// `[1,{"a":1},{"a":1}]`.
fn duplicates(alloc: Global) -> Result<Value, OutOfMemory>
    ensures { IfOk result (λ v. tree v ≡ three_of (integer 1) a_is_one a_is_one) }
{
    let first = one_member(alloc, "a", number("1"))?;
    let second = one_member(alloc, "a", number("1"))?;
    array_of(alloc, [number("1"), first, second])
}

/// `[10,20,30]`.
fn tens(alloc: Global) -> Result<Value, OutOfMemory>
    ensures { IfOk result (λ v. tree v ≡ three_of (integer 10) (integer 20) (integer 30)) }
{
    array_of(alloc, [number("10"), number("20"), number("30")])
}

/// `{"nested":"value"}`.
fn nested(alloc: Global) -> Result<Value, OutOfMemory>
    ensures { IfOk result (λ v. tree v ≡ one_member_of (codes "nested") (scalar (string_of (codes "value")))) }
{
    one_member(alloc, "nested", text(alloc, "value")?)
}

/// The array of three values.
fn array_of(alloc: Global, elements: [Value; 3]) -> Result<Value, OutOfMemory>
    ensures { IfOk result (λ v. tree v ≡ array (elements_from (map tree elements))) }
{
    match Vec::from_array(alloc, elements) {
        Ok(elements) => Ok(Value::Array(elements)),
        Err(_) => Err(OutOfMemory),
    }
}

/// The object of one member.
fn one_member(alloc: Global, name: &str, value: Value) -> Result<Value, OutOfMemory>
    ensures { IfOk result (λ v. tree v ≡ one_member_of name.now (tree value)) }
{
    let mut members = Map::new(alloc);
    put(alloc, &mut members, name, value)?;
    // The keys of both lists of members rise.
    let _members = members.iter();
    Ok(Value::Object(members))
}

/// A string.
fn text(alloc: Global, text: &str) -> Result<Value, OutOfMemory>
    ensures { IfOk result (λ v. tree v ≡ scalar (string_of text.now)) }
{
    Ok(Value::String(String::from_str(alloc, text)?))
}

/// The number that a literal writes.
fn number(literal: &str) -> Value
    requires { (w : Written) × IsNumber literal.now w }
    ensures { (w : Written) → IsNumber literal.now w → tree result ≡ scalar (number_of w) }
{
    match Number::parse(literal) {
        Ok(number) => Value::Number(number),
        Err(_) => unreachable!(),
    }
}
