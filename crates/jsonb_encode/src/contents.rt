//! Containers of number literals, of keys and of other containers.

ghost use Rattle.std.specs.Prelude.{◌≡◌, [], ◌+◌, ◌-◌, ◌^◌, ◌<◌, ◌≤◌, ◌++◌, ℕ, List, length, map, string_bytes, IfErr, MatchResult};
ghost use Rattle.json_model.specs.Decimal.{Decimal};
ghost use Rattle.jsonb_encode.specs.Children.{child_item};
ghost use Rattle.jsonb_encode.specs.Literals.{IsNumeral, IsRefused, AreNumerals, AreRefused};
ghost use Rattle.jsonb_encode.specs.inner.Contents.{Placed, placed, numeral_item, key_at, IsAt, AreOf, shape_of, count_in, items_in, IsItemWritten, IsWrittenOf, IsUnwrittenOf, IsRefusedOf, IsEncodedOf, IsNotEncodedOf};
ghost use Rattle.jsonb_encode.specs.inner.Writing.{kind_number};

use crate::buffer::{push_all, push_padding};
use crate::entries::{LIMIT, close_item, open_container};
use crate::error::EncodeError;
use crate::kind::Kind;
use crate::number_form::NumericForm;
use crate::numeral::{push_text, read_numeral};
use jsonb_layout::Form;
use std::alloc::Global;

/// What a container is written of.
#[derive(Clone, Copy)]
pub enum Contents<'a> {
    /// One number literal: a root scalar.
    Numeral(&'a str),
    /// Number literals: an array.
    Numerals(&'a [String]),
    /// Containers, which are not checked: an array.
    Containers(&'a [Vec<u8>]),
    /// A key, and a number literal under it: an object.
    KeyAndNumeral(&'a [u8], &'a str),
    /// A key, and null under it: an object.
    KeyAndNull(&'a [u8]),
}

/// Writes a number literal as an item of a container whose payload begins at `payload`, with the zeros before it.
fn write_numeral(
    bytes: &mut Vec<u8>,
    payload: usize,
    text: &str,
    form: NumericForm,
) -> Result<Kind, EncodeError>
    requires payload { payload ≤ length bytes.old.items }
    ensures { (w : Decimal) → IsNumeral form text.now w → MatchResult result
        (λ kind. IsItemWritten (numeral_item form w (length bytes.old.items - payload)) bytes.old.items bytes.new.items (kind_number kind))
        (λ e. e ≡ EncodeError.OutOfMemory) }
{
    push_padding(bytes, bytes.len() - payload)?;
    push_text(bytes, text, form)?;
    Ok(Kind::Number)
}

/// Writes the bytes of a container, with the zeros before them.
fn write_child(bytes: &mut Vec<u8>, payload: usize, child: &[u8]) -> Result<Kind, EncodeError>
    requires payload { payload ≤ length bytes.old.items }
    ensures { MatchResult result
        (λ kind. IsItemWritten (child_item child.now (length bytes.old.items - payload)) bytes.old.items bytes.new.items (kind_number kind))
        (λ e. e ≡ EncodeError.OutOfMemory) }
{
    let at = bytes.len() - payload;
    push_padding(bytes, at)?;
    push_all(bytes, child)?;
    Ok(Kind::Container)
}

/// Writes a key.
fn write_key(bytes: &mut Vec<u8>, key: &[u8]) -> Result<Kind, EncodeError>
    ensures { (at : ℕ) → MatchResult result
        (λ kind. IsItemWritten (key_at key.now at) bytes.old.items bytes.new.items (kind_number kind))
        (λ e. e ≡ EncodeError.OutOfMemory) }
{
    push_all(bytes, key)?;
    Ok(Kind::String)
}

/// Whether a text is a number literal that has a form: why it is refused, else.
fn check_text(text: &str, form: NumericForm) -> Result<(), EncodeError>
    ensures { MatchResult result (λ _. (w : Decimal) × IsNumeral form text.now w) (λ e. IsRefused form text.now e) }
{
    let _numeral = read_numeral(text, form)?;
    Ok(())
}

/// Whether texts are number literals that have a form. Else, why the first that is refused is.
fn check_texts(texts: &[String], form: NumericForm) -> Result<(), EncodeError>
    ensures { MatchResult result (λ _. (ws : List Decimal) × AreNumerals form (map string_bytes texts.now) ws)
        (λ e. AreRefused form (map string_bytes texts.now) e) }
{
    for index in 0..texts.len() {
        check_text(texts[index].as_str(), form)?;
    }
    Ok(())
}

impl Contents<'_> {
    fn shape(&self) -> Form
        ensures { result ≡ shape_of self.now }
    {
        match self {
            Contents::Numeral(_) => Form::Lone,
            Contents::Numerals(_) => Form::Array,
            Contents::Containers(_) => Form::Array,
            Contents::KeyAndNumeral(_, _) => Form::Object,
            Contents::KeyAndNull(_) => Form::Object,
        }
    }

    /// The count in the header.
    fn count(&self) -> usize
        ensures { result ≡ count_in self.now }
    {
        match self {
            Contents::Numerals(texts) => texts.len(),
            Contents::Containers(children) => children.len(),
            Contents::Numeral(_) => 1,
            Contents::KeyAndNumeral(_, _) => 1,
            Contents::KeyAndNull(_) => 1,
        }
    }

    /// How many items there are.
    fn items(&self) -> usize
        ensures { result ≡ items_in self.now }
    {
        match self {
            Contents::Numerals(texts) => texts.len(),
            Contents::Containers(children) => children.len(),
            Contents::Numeral(_) => 1,
            Contents::KeyAndNumeral(_, _) => 2,
            Contents::KeyAndNull(_) => 2,
        }
    }

    /// Writes the item of a number, behind what is in front of it. Answers its kind.
    fn write_item(
        &self,
        bytes: &mut Vec<u8>,
        payload: usize,
        index: usize,
        form: NumericForm,
    ) -> Result<Kind, EncodeError>
        requires payload { payload ≤ length bytes.old.items }
        requires index { index < items_in self.now }
        requires few { index < 2 ^ 29 }
        ensures { (gs : List Placed) (g : Placed) → AreOf form self.now gs → IsAt index gs g → MatchResult result
            (λ kind. IsItemWritten (g (length bytes.old.items - payload)) bytes.old.items bytes.new.items (kind_number kind))
            (λ e. e ≡ EncodeError.OutOfMemory) }
    {
        match self {
            Contents::Numeral(text) => write_numeral(bytes, payload, text, form),
            Contents::Numerals(texts) => write_numeral(bytes, payload, texts[index].as_str(), form),
            Contents::Containers(children) => {
                write_child(bytes, payload, children[index].as_slice())
            }
            Contents::KeyAndNumeral(key, text) => {
                if index == 0 {
                    write_key(bytes, key)
                } else {
                    write_numeral(bytes, payload, text, form)
                }
            }
            Contents::KeyAndNull(key) => {
                if index == 0 {
                    write_key(bytes, key)
                } else {
                    Ok(Kind::Null)
                }
            }
        }
    }

    /// Writes a container: its header, empty words, and each item with its word.
    fn write(&self, bytes: &mut Vec<u8>, form: NumericForm) -> Result<(), EncodeError>
        requires { (gs : List Placed) × AreOf form self.now gs }
        ensures { (gs : List Placed) → AreOf form self.now gs → MatchResult result
            (λ _. IsWrittenOf self.now gs bytes.old.items bytes.new.items) (λ e. IsUnwrittenOf self.now gs e) }
    {
        let count = self.count();
        if count >= LIMIT {
            return Err(EncodeError::TooLarge);
        }
        let items = self.items();
        let start = bytes.len();
        open_container(bytes, self.shape(), count, items)?;
        for index in 0..items {
            let begin = bytes.len();
            let kind = self.write_item(bytes, start + 4 * items + 4, index, form)?;
            close_item(bytes, start, items, index, begin, kind)?;
        }
        Ok(())
    }

    /// Whether each text is a number literal that has the form: why the first that is none is refused, else.
    fn check(&self, form: NumericForm) -> Result<(), EncodeError>
        ensures { MatchResult result (λ _. (gs : List Placed) × AreOf form self.now gs) (λ e. IsRefusedOf form self.now e) }
    {
        match self {
            Contents::Numeral(text) => check_text(text, form),
            Contents::Numerals(texts) => check_texts(texts, form),
            Contents::Containers(_) => Ok(()),
            Contents::KeyAndNumeral(_, text) => check_text(text, form),
            Contents::KeyAndNull(_) => Ok(()),
        }
    }

    /// The bytes of a container. The texts are read before memory is taken.
    pub fn encode(&self, alloc: Global, form: NumericForm) -> Result<Vec<u8>, EncodeError>
        ensures { MatchResult result (λ bytes. IsEncodedOf form self.now bytes.items) (λ e. IsNotEncodedOf form self.now e) }
    {
        self.check(form)?;
        let mut bytes = Vec::new(alloc);
        match self.write(&mut bytes, form) {
            Ok(()) => Ok(bytes),
            Err(error) => Err(error),
        }
    }
}
