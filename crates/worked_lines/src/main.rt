//! Answers each line of standard input by a line of standard output.
//!
//! The first word of a line says what is asked, and the comment above each function says what its words are. The stored run beside
//! this folder has the worked rows of the project: `stdin` the questions, and `stdout` the answers, which come from outside. For example
//!
//! ```text
//! number 01                      NotANumber
//! map b a                        "a" 1 true, "b" 0 true, Some(1) Some(9) None 2
//! node 01000040040000d000000040  array array (false, false, false) (None, None) 1 true array
//! ```
#![tactic(auto)]

mod counts;
mod encoding;
mod judging;
mod maps;
mod names;
mod nested;
mod nodes;
mod numbers;
mod patterns;
mod regexes;
mod runs;
mod rust_patterns;
mod slow;
mod texts;
mod types;

use std::alloc::Global;
use std::io;

// The answer of a line, or none where it asks for nothing that is known. Each of these functions knows some names, and leaves the
// others to the next.
fn answer(alloc: Global, line: &str) -> Option<String> {
    let (name, rest) = line.split_once(' ').unwrap_or((line, ""));
    match name {
        "count" => counts::count(alloc, rest),
        "number" => numbers::number(alloc, rest),
        "order" => numbers::order(alloc, rest),
        "bound" => numbers::bound(alloc, rest),
        "map" => maps::map(alloc, rest),
        "types" => types::types(alloc, rest),
        "errors" => names::errors(alloc),
        _ => answer_of_nodes(alloc, name, rest),
    }
}

// What nodes and values in them say.
fn answer_of_nodes(alloc: Global, name: &str, rest: &str) -> Option<String> {
    match name {
        "node" => nodes::node(alloc, rest),
        "place" => nodes::place(alloc, rest),
        "equal" => nodes::equality(alloc, rest),
        "hash" => nodes::hash(alloc, rest),
        "find" => nodes::find(alloc, rest),
        "string" => nodes::string(alloc, rest),
        "conforms" => nodes::conforms(alloc, rest),
        _ => answer_of_verdicts(alloc, name, rest),
    }
}

// Verdicts, and runs over lines.
fn answer_of_verdicts(alloc: Global, name: &str, rest: &str) -> Option<String> {
    match name {
        "judge" => judging::verdict(alloc, rest),
        "deep" => judging::deep(alloc, rest),
        "nested" => nested::verdict(alloc, rest),
        "cuts" => judging::cuts(alloc, rest),
        "changes" => judging::changes(alloc, rest),
        "run" => runs::run_row(alloc, rest),
        _ => answer_of_bytes(alloc, name, rest),
    }
}

// Bytes that are made.
fn answer_of_bytes(alloc: Global, name: &str, rest: &str) -> Option<String> {
    match name {
        "json" => encoding::json(alloc, rest),
        "numeric" => encoding::numeric(alloc, rest),
        "containers" => encoding::containers(alloc, rest),
        "stored" => encoding::stored(alloc, rest),
        "hex" => encoding::hex(alloc, rest),
        _ => answer_of_patterns(alloc, name, rest),
    }
}

// Patterns.
fn answer_of_patterns(alloc: Global, name: &str, rest: &str) -> Option<String> {
    match name {
        "pattern" => patterns::pattern(alloc, rest),
        "regex" => regexes::regex(alloc, rest),
        "regex_long" => regexes::long(alloc, rest),
        "rust" => rust_patterns::rust(alloc, rest),
        "rust_long" => rust_patterns::long(alloc, rest),
        _ => None,
    }
}

fn main(rt: HostRuntime) -> io::Result<()> {
    for line in rt.lines(rt.alloc()) {
        match answer(rt.alloc(), &line?) {
            Some(text) => println!(rt; "{text}")?,
            None => println!(rt; "no answer")?,
        }
    }
    Ok(())
}
