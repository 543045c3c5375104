//! The program that checks a record.
ghost use Rattle.std.specs.Prelude.{◌≡◌, ◌++◌, IfOk, None, codes, false, map, string_bytes, true};
ghost use Rattle.std.specs.Fmt.{decimal};
ghost use Rattle.wt_check.specs.Judged.{said};
ghost use Rattle.wt_check.specs.Outcome.{AnswersInput, RanCheck, asks_check, verdict_outcome};
ghost use Rattle.wt_trace.specs.Asked.{Ran, status_of};
ghost use Rattle.wt_trace.specs.Outside.{seen};

use crate::checking::{Verdicts, check};
use crate::record::read_record;
use std::alloc::Global;
use std::marker::Model;
use wt_trace::asked::{OUT_OF_MEMORY, run_asked};
use wt_trace::command::Command;
use wt_trace::cut_short::CutShort;
use wt_trace::input::{SCRIPT_LIMIT, read_input};
use wt_trace::output::{number_line, write_all};
use wt_trace::outside::{Sink, Source};
use wt_trace::summary::push_number;
use wt_wire::error::OutOfMemory;

/// The status where a pair breaks a rule.
const BROKEN: u8 = 9;

/// A status and a text. Contracts see the outcome.
#[derive(Drop)]
struct Answered {
    status: u8,
    text: String,
}

impl Model for Answered {
    ghost use Rattle.std.specs.Prelude.{string_bytes};
    ghost use Rattle.wt_trace.specs.Outcome.{Outcome};

    ghost Value = { Outcome };

    ghost view = { λ a. record { status = a.status; text = string_bytes a.text } };
}

/// The line on a pair that breaks a rule.
fn broken_line(alloc: Global, at: u64, rule: u8) -> Result<String, OutOfMemory>
    ensures { IfOk result (λ text. string_bytes text ≡ codes "broken " ++ decimal at ++ codes " " ++ decimal rule ++ codes "\n") }
{
    let mut text = String::new(alloc);
    push_number(alloc, &mut text, "broken ", at)?;
    push_number(alloc, &mut text, " ", rule as u64)?;
    text.push_str("\n")?;
    Ok(text)
}

fn told(alloc: Global, verdict: Verdicts) -> Result<Answered, OutOfMemory>
    ensures { IfOk result (λ a. a ≡ verdict_outcome (said verdict)) }
{
    match verdict {
        Verdicts::Accepted => Ok(Answered {
            status: 0,
            text: String::from_str(alloc, "accepted\n")?,
        }),
        Verdicts::Broken { at, rule } => Ok(Answered {
            status: BROKEN,
            text: broken_line(alloc, at, rule)?,
        }),
    }
}

/// What an input is answered.
fn judge_input(alloc: Global, input: &[u8]) -> Result<Answered, OutOfMemory>
    ensures { IfOk result (λ a. AnswersInput input.now a) }
{
    if input.len() > SCRIPT_LIMIT {
        return Ok(Answered {
            status: 7,
            text: String::from_str(alloc, "script too long\n")?,
        });
    }
    match read_record(alloc, input)? {
        Ok(record) => {
            let verdict = check(alloc, record.side, record.pairs.as_slice())?;
            told(alloc, verdict)
        }
        Err(refused) => Ok(Answered {
            status: 2,
            text: number_line(alloc, "line ", refused.line, " refused\n")?,
        }),
    }
}

/// Answers what the source has left.
fn answer_source<S: Source, K: Sink>(
    alloc: Global,
    source: &mut S,
    sink: &mut K,
) -> Result<u8, CutShort>
    ensures { RanCheck (seen (S.left source.old) (S.faults source.old)) (seen (S.left source.new) (S.faults source.new))
        (seen (K.took sink.old) (K.faults sink.old)) (seen (K.took sink.new) (K.faults sink.new)) (status_of result) }
{
    let input = read_input(alloc, source)?;
    let answered = judge_input(alloc, input.as_slice())?;
    write_all(sink, answered.text.as_bytes())?;
    Ok(answered.status)
}

fn run_check<S: Source, K: Sink>(alloc: Global, source: &mut S, sink: &mut K) -> u8
    ensures { RanCheck (seen (S.left source.old) (S.faults source.old)) (seen (S.left source.new) (S.faults source.new))
        (seen (K.took sink.old) (K.faults sink.old)) (seen (K.took sink.new) (K.faults sink.new)) result }
{
    match answer_source(alloc, source, sink) {
        Ok(status) => status,
        Err(CutShort::SourceFailed) => 4,
        Err(CutShort::SinkFailed) => 5,
        Err(CutShort::OutOfMemory) => OUT_OF_MEMORY,
    }
}

/// Whether the words ask for the check.
pub fn asks_check(words: &[String]) -> bool
    ensures { result ≡ asks_check (map string_bytes words.now) }
{
    match words {
        [only] => only.as_bytes() == b"check".as_slice(),
        _ => false,
    }
}

/// Checks a record. With the word `check` it reads a script in which each turn's line is followed by its answer's, and writes the
/// verdict.
///
/// | status | where | text |
/// |---|---|---|
/// | 0 | no pair breaks a rule | `accepted` |
/// | 9 | the pair at this index is the first that breaks a rule, and this is the least that it breaks | `broken <at> <rule>` |
/// | 1, 2, 4, 5, 6, 7 | as [`run_asked`] says | |
pub fn run_check_program<S: Source, K: Sink>(
    alloc: Global,
    words: &[String],
    source: &mut S,
    sink: &mut K,
) -> u8
    ensures asked { asks_check (map string_bytes words.now) ≡ true
        → RanCheck (seen (S.left source.old) (S.faults source.old)) (seen (S.left source.new) (S.faults source.new))
        (seen (K.took sink.old) (K.faults sink.old)) (seen (K.took sink.new) (K.faults sink.new)) result }
    ensures other { asks_check (map string_bytes words.now) ≡ false
        → Ran None (seen (S.left source.old) (S.faults source.old)) (seen (S.left source.new) (S.faults source.new))
        (seen (K.took sink.old) (K.faults sink.old)) (seen (K.took sink.new) (K.faults sink.new)) result }
{
    if asks_check(words) {
        run_check(alloc, source, sink)
    } else {
        run_asked::<Command, S, K>(alloc, None, source, sink)
    }
}
