//! Pairs of the program's own, which are judged and counted.
ghost use Rattle.std.specs.Prelude.{◌≡◌, ◌≤◌, ◌↔◌, pos, string_bytes, IfOk, IsTrue};
ghost use Rattle.json_exact.specs.Trees.{tree};
ghost use Rattle.json_exact.specs.Serde.{Writes, whole as whole_tree};
ghost use Rattle.json_model.specs.Tree.{Tree};
ghost use Rattle.jsonb_layout.specs.Stands.{Stands};
ghost use Rattle.line_program.specs.Faults.{CountsOnce, Rose};
ghost use Rattle.judge.specs.Made.{AreValid, Made, document, keywords_text, summary_text};
ghost use Rattle.flat_keywords.specs.Verdict.{Verdict};

use flat_keywords::judge;
use json_exact::{Decimal, Number, Value};
use jsonb::encode::encode;
use line_program::{Sink, SinkError, Status, put_all};
use std::alloc::{AllocError, Global};

const KEYWORDS: &str = "{\"type\":\"array\",\"maxItems\":50,\"uniqueItems\":true}";

/// Judges so many pairs, and writes how many of them are valid.
pub(crate) fn make<K: Sink>(alloc: Global, count: u32, sink: &mut K) -> Status
    ensures made { Made count (K.written sink.old) (K.written sink.new) result }
    ensures write_fault { result ≡ Status.WriteFault
        → Rose (K.faults sink.old) (K.faults sink.new) }
    ensures writes_once { IsTrue K.counts_each
        → CountsOnce Status.WriteFault (K.faults sink.old) (K.faults sink.new) result }
    ensures last_write { result ≡ Status.WriteFault → K.last_failed sink.new }
{
    let Ok(valid) = count_valid(alloc, count) else {
        return Status::OutOfMemory;
    };
    let Ok(text) = summary(alloc, count, valid) else {
        return Status::OutOfMemory;
    };
    match put_all(sink, text.as_bytes()) {
        Ok(()) => Status::Done,
        Err(SinkError::Failed) => Status::WriteFault,
        Err(SinkError::OutOfMemory) => Status::OutOfMemory,
    }
}

// The line that says how many pairs are valid.
fn summary(alloc: Global, count: u32, valid: u32) -> Result<String, AllocError>
    requires { valid ≤ count }
    ensures { IfOk result (λ text. string_bytes text ≡ summary_text count valid) }
{
    let invalid = count - valid;
    format!(in alloc; "pairs {count} valid {valid} invalid {invalid}\n")
}

// How many of the first pairs are valid.
fn count_valid(alloc: Global, count: u32) -> Result<u32, AllocError>
    ensures few { IfOk result (λ valid. valid ≤ count) }
    ensures are { IfOk result (λ valid. (k : Tree) × Writes keywords_text k × AreValid k count valid) }
{
    let keywords = encode_keywords(alloc)?;
    let mut valid = 0u32;
    for number in 0..count {
        if is_valid(alloc, &keywords, number)? {
            valid += 1;
        }
    }
    Ok(valid)
}

// The bytes of the keyword object.
fn encode_keywords(alloc: Global) -> Result<Vec<u8>, AllocError>
    ensures { IfOk result (λ bytes. (k : Tree) × Writes keywords_text k × Stands bytes.items k) }
{
    let Ok(value) = Value::from_json_text(alloc, KEYWORDS) else {
        return Err(AllocError);
    };
    encode(alloc, &value).map_err(|_| AllocError)
}

// Whether the document of a number is valid under keywords.
fn is_valid(alloc: Global, keywords: &[u8], number: u32) -> Result<bool, AllocError>
    ensures { (k : Tree) → Stands keywords.now k
        → IfOk result (λ valid. IsTrue valid ↔ Verdict k (document number)) }
{
    let value = document_of(alloc, number)?;
    let Ok(bytes) = encode(alloc, &value) else {
        return Err(AllocError);
    };
    match judge(alloc, keywords, &bytes) {
        Ok(valid) => Ok(valid),
        Err(_) => Err(AllocError),
    }
}

// The document of a number.
fn document_of(alloc: Global, number: u32) -> Result<Value, AllocError>
    ensures { IfOk result (λ value. tree value ≡ document number) }
{
    let mut elements = Vec::new(alloc);
    for place in 0..number % 100 {
        let remainder = u64::from(number) * u64::from(place) % 101;
        elements.push(whole(remainder))?;
    }
    Ok(Value::Array(elements))
}

// The value of a whole number.
fn whole(number: u64) -> Value
    ensures { tree result ≡ whole_tree (pos number) }
{
    Value::Number(Number::new(Decimal::from_u64(number), 0))
}
