//! What nodes answer, as a slice and as a value in memory.

use crate::texts::{bytes_of, first_word, one_or_both, two_of, value_of};
use json_exact::{OutOfMemory, Value};
use json_semantics::cmp::equal;
use json_semantics::conformance::{assert_conformance, document};
use json_semantics::unique::{element_hash, is_unique};
use json_semantics::{SerdeJson, ValueNode};
use json_traits::laws::keys_rise;
use json_traits::{
    Array, FamilyOf, Json, JsonNumber, LazyInstance, Node, NodeIdentity, Object, ValueError,
    equal_nodes,
};
use jsonb::encode::{encode, is_canonical, to_hex};
use jsonb::{Jsonb, JsonbNode};
use std::alloc::Global;

// The value of this number in an array or object.
fn value_in<'a, N: Node<'a>>(node: &N, number: usize) -> Option<N> {
    if let Some(array) = node.as_array() {
        return array.elements().nth(number);
    }
    let (_, value) = node.as_object()?.members().nth(number)?;
    Some(value)
}

// The value at the end of a way: the number of a value, then of one in it, and so on, a digit of base 36 each.
fn value_at<'a, N: Node<'a>>(root: N, way: &str) -> Option<N> {
    let mut node = root;
    for step in way.chars() {
        if let Some(number) = step.to_digit(36) {
            node = value_in(&node, number as usize)?;
        }
    }
    Some(node)
}

// A string or a number as it is written, and of another value its type.
fn short<'a, N: Node<'a>>(alloc: Global, node: &N) -> Option<String> {
    if let Some(text) = node.as_string() {
        return String::from_str(alloc, text).ok();
    }
    match node.as_number() {
        Some(number) => String::from_str(alloc, number.as_str(alloc).ok()?.as_str()).ok(),
        None => node.json_type().to_string(alloc).ok(),
    }
}

// A string or a number as it is written, and of another value its type.
fn add_short<'a, N: Node<'a>>(alloc: Global, all: &mut String, node: &N) -> Option<()> {
    all.push_str(&short(alloc, node)?).ok()
}

// What a node says of itself, and of the values in it.
fn describe<'a, N: Node<'a>>(alloc: Global, node: &N) -> Option<String> {
    let mut all = describe_alone(alloc, node)?;
    if let Some(number) = node.as_number() {
        add_number(&mut all, &number)?;
    }
    if let Some(array) = node.as_array() {
        add_elements(alloc, &mut all, array)?;
    }
    if let Some(object) = node.as_object() {
        add_members(alloc, &mut all, object)?;
    }
    Some(all)
}

// What each node says of itself.
fn describe_alone<'a, N: Node<'a>>(alloc: Global, node: &N) -> Option<String> {
    let kinds = (node.is_null(), node.is_number(), node.is_string());
    let scalar = (node.as_boolean(), node.string_length());
    let text = short(alloc, node)?;
    format!(in alloc; "{} {text} {kinds:?} {scalar:?}", node.json_type()).ok()
}

// The whole numbers that a number is, and how it is written.
fn add_number<M: JsonNumber>(all: &mut String, number: &M) -> Option<()> {
    let whole = (number.as_u64(), number.as_i64());
    let written = (number.is_integer(), number.is_written_as_integer());
    write!(all, " {whole:?} {written:?}").ok()
}

// How many elements there are, whether they differ, and the first 40.
fn add_elements<'a, A: Array<'a, Node: Node<'a>>>(
    alloc: Global,
    all: &mut String,
    array: A,
) -> Option<()> {
    let unique = array.is_unique(alloc).ok()?;
    write!(all, " {} {unique}", array.len()).ok()?;
    for element in array.elements().take(40) {
        all.push(' ').ok()?;
        add_short(alloc, all, &element)?;
    }
    Some(())
}

// How many members there are, and each of them.
fn add_members<'a, O: Object<'a, Node: Node<'a>>>(
    alloc: Global,
    all: &mut String,
    object: O,
) -> Option<()> {
    write!(all, " {} {}", object.len(), object.is_empty()).ok()?;
    for (name, value) in object.members() {
        write!(all, " {name}:").ok()?;
        add_short(alloc, all, &value)?;
    }
    Some(())
}

/// `HEX WAY`: what the value at the end of the way says, as a slice and as a value in memory. Where both say the same, that
/// stands once.
pub(crate) fn node(alloc: Global, rest: &str) -> Option<String> {
    let (hex, others) = rest.split_once(' ').unwrap_or((rest, ""));
    let bytes = bytes_of(alloc, hex)?;
    match Jsonb::root(alloc, &bytes) {
        Ok(root) => describe_both(alloc, root, first_word(others)),
        Err(error) => error.to_string(alloc).ok(),
    }
}

// What the value at the end of the way says, as a slice and as a value in memory.
fn describe_both(alloc: Global, root: JsonbNode<'_>, way: &str) -> Option<String> {
    let in_slice = describe(alloc, &value_at(root, way)?)?;
    match root.to_value(alloc) {
        Ok(value) => {
            let in_memory = describe_in_memory(alloc, &value.into_owned(alloc).ok()?, way)?;
            one_or_both(alloc, &in_slice, &in_memory)
        }
        Err(error) => format!(in alloc; "{in_slice} {error}").ok(),
    }
}

// What the value at the end of the way says in memory.
fn describe_in_memory(alloc: Global, value: &Value, way: &str) -> Option<String> {
    describe(alloc, &value_at(ValueNode::new(value), way)?)
}

/// `HEX WAY`: where the value at the end of the way is, as a value and as a container, in a slice and in memory.
pub(crate) fn place(alloc: Global, rest: &str) -> Option<String> {
    let (hex, way) = rest.split_once(' ')?;
    let bytes = bytes_of(alloc, hex)?;
    let (identity, alike) = place_in_slice(alloc, &bytes, way)?;
    let in_memory = place_in_memory(alloc, &bytes, way)?;
    format!(in alloc; "{identity:?} {alike} {in_memory:?}").ok()
}

// Where the value at the end of the way is in a slice, and whether it is there as a container too.
fn place_in_slice(alloc: Global, bytes: &[u8], way: &str) -> Option<(Option<NodeIdentity>, bool)> {
    let node = value_at(Jsonb::root(alloc, bytes).ok()?, way)?;
    let identity = node.identity();
    Some((identity, identity == node.container_identity()))
}

// Where the value at the end of the way is in memory.
fn place_in_memory(alloc: Global, bytes: &[u8], way: &str) -> Option<Option<NodeIdentity>> {
    let value = value_of(alloc, bytes)?;
    let node = value_at(ValueNode::new(&value), way)?;
    Some(node.identity())
}

// Whether each call that gives a node's value gives one that is equal to another, and the node is equal to that one.
pub(crate) fn equals<'a, N: Node<'a>>(
    alloc: Global,
    node: &N,
    other: &Value,
) -> Result<[bool; 5], ValueError> {
    let owned = owned_equals(alloc, node, other)?;
    let (first, second, last) = lazy_equals(alloc, node, other)?;
    Ok([first, second, last, owned, node.equals_value(other)])
}

// Whether a node's own value is equal to another.
fn owned_equals<'a, N: Node<'a>>(
    alloc: Global,
    node: &N,
    other: &Value,
) -> Result<bool, ValueError> {
    match node.to_value(alloc)?.into_owned(alloc) {
        Ok(owned) => Ok(equal(&owned, other)),
        Err(_) => Err(ValueError::OutOfMemory),
    }
}

// Whether there is a lazy value, and whether it is equal to another, before and after it is taken out.
fn lazy_equals<'a, N: Node<'a>>(
    alloc: Global,
    node: &N,
    other: &Value,
) -> Result<(bool, bool, bool), ValueError> {
    let mut lazy = node.lazy_value();
    let first = lazy.get(alloc).is_ok();
    let second = equal(lazy.get(alloc)?.value(), other);
    let last = equal(lazy.into_cow(alloc)?.value(), other);
    Ok((first, second, last))
}

// Whether two nodes are equal.
fn are_equal<'a, N: Node<'a>>(left: &N, right: &N) -> bool {
    equal_nodes::<FamilyOf<'a, N>>(left, right)
}

/// `HEX HEX`: whether the two are equal, by each call that compares them, as a slice and as a value; and their numbers.
pub(crate) fn equality(alloc: Global, rest: &str) -> Option<String> {
    let (bytes, others) = two_of(alloc, rest)?;
    let other = value_of(alloc, &others)?;
    equality_with(alloc, &bytes, &others, &other)
}

// Whether the two are equal, as a slice and as a value.
fn equality_with(alloc: Global, bytes: &[u8], others: &[u8], other: &Value) -> Option<String> {
    let node = Jsonb::root(alloc, bytes).ok()?;
    let in_slice = equality_in_slice(alloc, &node, &Jsonb::root(alloc, others).ok()?, other)?;
    match node.to_value(alloc) {
        Ok(value) => {
            let in_memory = equality_in_memory(alloc, &value.into_owned(alloc).ok()?, other)?;
            format!(in alloc; "{in_slice} {in_memory}").ok()
        }
        Err(error) => format!(in alloc; "{in_slice} {error:?}").ok(),
    }
}

// Whether a node is equal to the value of another, and to that node.
fn equality_in_slice(
    alloc: Global,
    node: &JsonbNode<'_>,
    other: &JsonbNode<'_>,
    value: &Value,
) -> Option<String> {
    let answer = equals(alloc, node, value);
    format!(in alloc; "{answer:?} {}", are_equal(node, other)).ok()
}

// Whether a value is equal to another, and to its copy.
fn equality_in_memory(alloc: Global, value: &Value, other: &Value) -> Option<String> {
    let copied = equals_its_copy(alloc, value)?;
    let answer = equals(alloc, &ValueNode::new(value), other);
    format!(in alloc; "{answer:?} {copied}").ok()
}

// Whether a value is equal to its copy.
fn equals_its_copy(alloc: Global, value: &Value) -> Option<bool> {
    let copy = value.clone_in(alloc).ok()?;
    let mut ready: LazyInstance<'_, ValueNode<'_>> = LazyInstance::from(&copy);
    Some(equal(ready.get(alloc).ok()?.value(), value))
}

/// `HEX`: the numbers of the value for comparing elements, and whether its bytes are those that PostgreSQL stores.
pub(crate) fn hash(alloc: Global, rest: &str) -> Option<String> {
    let bytes = bytes_of(alloc, first_word(rest))?;
    let value = value_of(alloc, &bytes)?;
    hash_of(alloc, &Jsonb::root(alloc, &bytes).ok()?, &value)
}

// The number of a node, whether it is that of its value, whether the bytes are those that PostgreSQL stores, and whether no two
// elements are equal.
fn hash_of(alloc: Global, node: &JsonbNode<'_>, value: &Value) -> Option<String> {
    keys_rise(node);
    keys_rise(&ValueNode::new(value));
    let in_slice = jsonb::element_hash(alloc, node).ok()?;
    let alike = in_slice == element_hash(alloc, value).ok()?;
    let canonical = is_canonical(alloc, node).ok()?;
    let unique = match value {
        Value::Array(items) => is_unique(alloc, items).ok(),
        _ => None,
    };
    format!(in alloc; "{in_slice:x} {alike} {canonical} {unique:?}").ok()
}

// The value under a name, as a prepared key and as a text finds it.
fn found<'a, F, O>(alloc: Global, object: O, name: &str) -> Option<String>
where
    F: Json<'a>,
    O: Object<'a, Node = F::Node, Key = F::PreparedKey>,
{
    let key = F::prepare_key(alloc, name).ok()?;
    match (object.get(&key), object.get_named(name)) {
        (None, None) => String::from_str(alloc, "-").ok(),
        (Some(one), Some(other)) => format!(in alloc;
            "{}={}",
            short(alloc, &one)?,
            short(alloc, &other)?
        ).ok(),
        _ => None,
    }
}

/// `HEX NAME NAME ..`: the values under the names, in a slice and in memory.
pub(crate) fn find(alloc: Global, rest: &str) -> Option<String> {
    let (hex, names) = rest.split_once(' ')?;
    let bytes = bytes_of(alloc, hex)?;
    let value = value_of(alloc, &bytes)?;
    find_in(alloc, Jsonb::root(alloc, &bytes).ok()?, &value, names)
}

// The values under the names, in a slice and in memory.
fn find_in(alloc: Global, root: JsonbNode<'_>, value: &Value, names: &str) -> Option<String> {
    let mut all = String::new(alloc);
    for name in names.split(' ') {
        if !all.is_empty() {
            all.push(' ').ok()?;
        }
        all.push_str(&find_one(alloc, root, value, name)?).ok()?;
    }
    Some(all)
}

// The value under a name, in a slice and in memory.
fn find_one(alloc: Global, root: JsonbNode<'_>, value: &Value, name: &str) -> Option<String> {
    let one = found::<Jsonb, _>(alloc, root.as_object()?, name)?;
    let other = found::<SerdeJson, _>(alloc, ValueNode::new(value).as_object()?, name)?;
    one_or_both(alloc, &one, &other)
}

// How many code points a string has, counted at its node, and where the node is.
fn string_of<'a, F: Json<'a>>(
    alloc: Global,
    buffer: &'a mut F::StringBuffer,
    string: &str,
) -> Result<(Option<u64>, Option<NodeIdentity>), OutOfMemory> {
    let node = F::string_node(alloc, buffer, string)?;
    Ok((node.string_length(), node.identity()))
}

/// `TEXT`: how many code points the text has, at its node, and where that is, in a slice and in memory.
pub(crate) fn string(alloc: Global, text: &str) -> Option<String> {
    let mut bytes = Jsonb::string_buffer(alloc);
    let mut value = SerdeJson::string_buffer(alloc);
    let in_slice = string_of::<Jsonb>(alloc, &mut bytes, text).ok()?;
    let in_memory = string_of::<SerdeJson>(alloc, &mut value, text).ok()?;
    format!(in alloc; "{in_slice:?} {in_memory:?}").ok()
}

/// `HEX`: the first rule of conformance that the value breaks, as a slice and as a value in memory. Without hex it is the document
/// that conforms.
pub(crate) fn conforms(alloc: Global, rest: &str) -> Option<String> {
    if rest.is_empty() {
        return document_conforms(alloc);
    }
    conformance(alloc, &bytes_of(alloc, first_word(rest))?)
}

// What the document that conforms breaks, and its bytes.
fn document_conforms(alloc: Global) -> Option<String> {
    let bytes = encode(alloc, &document(alloc).ok()?).ok()?;
    let answer = conformance(alloc, &bytes)?;
    let hex = to_hex(alloc, &bytes).ok()?;
    format!(in alloc; "{answer} {hex}").ok()
}

// The first rule of conformance that the value breaks, as a slice and as a value in memory.
fn conformance(alloc: Global, bytes: &[u8]) -> Option<String> {
    let root = Jsonb::root(alloc, bytes).ok()?;
    let value = value_of(alloc, bytes)?;
    let in_slice = assert_conformance::<Jsonb>(alloc, &root);
    let in_memory = assert_conformance::<SerdeJson>(alloc, &ValueNode::new(&value));
    format!(in alloc; "{in_slice:?} {in_memory:?}").ok()
}
