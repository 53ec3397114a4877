//! Verdicts, over slices and over values in memory.

use crate::nodes::equals;
use crate::texts::{two_of, value_of};
use json_exact::{Map, Value};
use json_semantics::ValueNode;
use json_traits::{Node, Object};
use jsonb::Jsonb;
use judge::{Checks, Fault, JudgeError, KeywordError, judge, judge_values};
use std::alloc::Global;
use std::fmt::{Debug, Display};

// What compiled keywords answer.
fn answered<'a, M: Node<'a>>(
    alloc: Global,
    checks: &Checks,
    document: &M,
) -> Result<bool, KeywordError> {
    match checks.check(alloc, document) {
        Ok(answer) => Ok(answer),
        Err(_) => Err(KeywordError::OutOfMemory),
    }
}

// What the keywords answer, compiled from one node for another.
fn checked<'a, K: Node<'a>, M: Node<'a>>(
    alloc: Global,
    keywords: &K,
    document: &M,
) -> Result<bool, KeywordError> {
    let checks = Checks::compile(alloc, keywords)?;
    answered(alloc, &checks, document)
}

// What one keyword answers, which is the member of this number.
fn member_checked<'a, K: Node<'a>, M: Node<'a>>(
    alloc: Global,
    name: &str,
    value: &K,
    member: usize,
    document: &M,
) -> Result<bool, KeywordError> {
    let checks = Checks::of_member(alloc, name, value, member)?;
    answered(alloc, &checks, document)
}

// What the keywords answer, each compiled alone.
fn each_checked<'a, K: Node<'a>, M: Node<'a>>(
    alloc: Global,
    keywords: &K,
    document: &M,
) -> Result<bool, KeywordError> {
    let Some(object) = keywords.as_object() else {
        return Err(KeywordError::NotAnObject);
    };
    let mut all = true;
    let mut member = 0usize;
    for (name, value) in object.members() {
        all = member_checked(alloc, name, &value, member, document)? && all;
        member = member.wrapping_add(1);
    }
    Ok(all)
}

// What the keywords answer over values in memory, and over one of each kind.
fn answers_in_memory(
    alloc: Global,
    keywords: &[u8],
    document: &[u8],
) -> Option<[Result<bool, KeywordError>; 4]> {
    let keyword_root = Jsonb::root(alloc, keywords).ok()?;
    let root = Jsonb::root(alloc, document).ok()?;
    let keyword_value = value_of(alloc, keywords)?;
    let value = value_of(alloc, document)?;
    Some([
        judge_values(alloc, &keyword_value, &value),
        checked(alloc, &ValueNode::new(&keyword_value), &root),
        checked(alloc, &keyword_root, &ValueNode::new(&value)),
        each_checked(alloc, &keyword_root, &root),
    ])
}

// A verdict, or what its error shows: its name, and its fields.
pub(crate) fn shown<E: Display + Debug>(alloc: Global, answer: &Result<bool, E>) -> Option<String> {
    match answer {
        Ok(true) => String::from_str(alloc, "valid").ok(),
        Ok(false) => String::from_str(alloc, "invalid").ok(),
        Err(error) => format!(in alloc; "{error} {error:?}").ok(),
    }
}

/// The first answer, and each other that is shown otherwise.
pub(crate) fn beside_others<E: Display + Debug>(
    alloc: Global,
    first: &str,
    answers: &[Result<bool, E>],
) -> Option<String> {
    let mut all = String::from_str(alloc, first).ok()?;
    for answer in answers {
        let other = shown(alloc, answer)?;
        if other.as_str() != first {
            write!(all, " but {other}").ok()?;
        }
    }
    Some(all)
}

/// `HEX HEX`: what `judge` answers of keywords and a document, and each other answer that their values have in memory.
pub(crate) fn verdict(alloc: Global, rest: &str) -> Option<String> {
    let (keywords, document) = two_of(alloc, rest)?;
    let first = shown(alloc, &judge(alloc, &keywords, &document))?;
    match answers_in_memory(alloc, &keywords, &document) {
        Some(answers) => beside_others(alloc, &first, &answers),
        None => format!(in alloc; "{first}, as slices").ok(),
    }
}

// Arrays in each other, so many.
fn nested(alloc: Global, depth: usize) -> Option<Value> {
    let mut value = Value::Array(Vec::new(alloc));
    for _ in 1..depth {
        value = Value::Array(vec![in alloc; value].ok()?);
    }
    Some(value)
}

// What a keyword of the value answers.
fn answer_of(alloc: Global, name: &str, value: Value, document: &Value) -> Option<String> {
    let mut keywords = Map::new(alloc);
    keywords
        .insert(String::from_str(alloc, name).ok()?, value)
        .ok()?;
    shown(
        alloc,
        &judge_values(alloc, &Value::Object(keywords), document),
    )
}

/// `COUNT COUNT`: so many arrays in each other beside others: whether they are equal, and what they answer as a constant and as one
/// of a list.
pub(crate) fn deep(alloc: Global, rest: &str) -> Option<String> {
    let (count, other_count) = rest.split_once(' ')?;
    let count = count.parse().ok()?;
    let document = nested(alloc, other_count.parse().ok()?)?;
    let equal = nested_equals(alloc, count, &document)?;
    let one = answer_of(alloc, "const", nested(alloc, count)?, &document)?;
    let other = answer_of(alloc, "enum", list_of_nested(alloc, count)?, &document)?;
    format!(in alloc; "{equal} {one}, {other}").ok()
}

// Whether so many arrays in each other are equal to a document.
fn nested_equals(alloc: Global, count: usize, document: &Value) -> Option<String> {
    let value = nested(alloc, count)?;
    let answer = equals(alloc, &ValueNode::new(&value), document);
    format!(in alloc; "{answer:?}").ok()
}

// The list of so many arrays in each other.
fn list_of_nested(alloc: Global, count: usize) -> Option<Value> {
    let value = nested(alloc, count)?;
    Some(Value::Array(vec![in alloc; value].ok()?))
}

/// How many answers there were of each sort.
#[derive(Clone, Copy, Debug, Default)]
struct Tally {
    valid: u32,
    invalid: u32,
    not_text: u32,
    malformed: u32,
    keywords: u32,
    other: u32,
}

impl Tally {
    fn add(&mut self, answer: Result<bool, JudgeError>) {
        let count = match answer {
            Ok(true) => &mut self.valid,
            Ok(false) => &mut self.invalid,
            Err(JudgeError::Document(Fault::NotText)) => &mut self.not_text,
            Err(JudgeError::Document(Fault::Malformed)) => &mut self.malformed,
            Err(JudgeError::Keywords(Fault::Malformed)) => &mut self.keywords,
            Err(_) => &mut self.other,
        };
        *count = count.saturating_add(1);
    }
}

/// `HEX HEX`: how many answers there are of each sort, where the document, the keywords are cut at each place.
pub(crate) fn cuts(alloc: Global, rest: &str) -> Option<String> {
    let (keywords, document) = two_of(alloc, rest)?;
    let mut tally = Tally::default();
    for end in 0..document.len() {
        tally.add(judge(alloc, &keywords, &document[..end]));
    }
    for end in 0..keywords.len() {
        tally.add(judge(alloc, &keywords[..end], &document));
    }
    format!(in alloc; "{tally:?}").ok()
}

/// `HEX HEX`: how many answers there are of each sort, where each byte of the document becomes each other byte.
pub(crate) fn changes(alloc: Global, rest: &str) -> Option<String> {
    let (keywords, mut document) = two_of(alloc, rest)?;
    let mut tally = Tally::default();
    for place in 0..document.len() {
        for change in 1..=255u8 {
            change_byte(&mut document, place, change);
            tally.add(judge(alloc, &keywords, &document));
            change_byte(&mut document, place, change);
        }
    }
    format!(in alloc; "{tally:?}").ok()
}

// Turns these bits of the byte at a place, where there is one.
fn change_byte(bytes: &mut [u8], place: usize, change: u8) {
    if let Some(byte) = bytes.get_mut(place) {
        *byte ^= change;
    }
}
