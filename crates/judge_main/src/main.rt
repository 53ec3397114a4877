//! Answers the lines of standard input on standard output.
//!
//! With no word, or with the word `check`, it judges the pair of each line, and with `check4` by draft 4. With `encode` it gives the
//! bytes of the JSON text of each, in hex. With `make` and a number it reads nothing, and judges and counts that many pairs of its own.
//! It ends with the code of the run's status; where the words cannot be got from the system, with 7 for want of memory and else with 1,
//! before anything is read.
#![tactic(auto)]

ghost use Rattle.std.specs.Prelude.{◌≡◌, map, string_bytes, IfErr, IfOk};
ghost use Rattle.std.specs.Process.{exit_status};
ghost use Rattle.line_program.specs.Faults.{Rose};
ghost use Rattle.judge_main.specs.Ending.{Ends};

use line_program::{Sink, Source, StdinSource, StdoutSink, words_of};
use std::alloc::Global;
use std::process::ExitCode;

// Runs with these words and gives the code of the run's status, or the code that stands in place of the words.
fn end_code<S: Source, K: Sink>(
    alloc: Global,
    words: Result<Vec<String>, u8>,
    source: &mut S,
    sink: &mut K,
) -> ExitCode
    ensures no_words { IfErr words (λ code. exit_status result ≡ code) }
    ensures ends { IfOk words (λ texts. Ends (map string_bytes texts.items)
        (S.left source.old) (S.left source.new)
        (K.written sink.old) (K.written sink.new)
        (source.new ≡ source.old) ((source.new ≡ source.old) × (sink.new ≡ sink.old))
        (Rose (S.faults source.old) (S.faults source.new))
        (Rose (K.faults sink.old) (K.faults sink.new)) (exit_status result)) }
{
    match words {
        Ok(words) => ExitCode::from(judge::run(alloc, &words, source, sink).code()),
        Err(code) => ExitCode::from(code),
    }
}

fn main(rt: HostRuntime) -> ExitCode {
    let words = words_of(&rt);
    let mut source = StdinSource::new(rt.stdin());
    let mut sink = StdoutSink::new(rt.stdout());
    end_code(rt.alloc(), words, &mut source, &mut sink)
}
