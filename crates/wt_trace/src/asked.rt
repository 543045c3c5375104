//! Programs by the words that ask for them: how each reads a script and what it answers to one, and the run that they share.
ghost use Rattle.std.specs.Prelude.{◌≡◌, ◌≤◌, ◌≢◌, Err, IfErr, IfOk, IsErr, IsTrue, None, OnOk, Option, Some, length, map, string_bytes};
ghost use Rattle.std.specs.Option.{option_map};
ghost use Rattle.std.specs.Io.KnownBytes.{Appends};
ghost use Rattle.wt_trace.specs.Asked.{Ran, alone, status_of};
ghost use Rattle.wt_trace.specs.Input.{script_limit};
ghost use Rattle.wt_trace.specs.Outcome.{input_outcome, is_input_status, is_script_status, refused_at, usage};
ghost use Rattle.wt_trace.specs.Outside.{AppendsPart, Rose, seen};
ghost use Rattle.wt_trace.specs.declared.cut_short.CutShort.TheVariants as cuts;

use crate::cut_short::CutShort;
use crate::input::{SCRIPT_LIMIT, read_input};
use crate::output::{number_line, write_all};
use crate::outside::{Sink, Source};
use std::alloc::Global;
use wt_script::script::ScriptRefused;
use wt_wire::error::OutOfMemory;

/// The status where a program ran out of memory.
pub const OUT_OF_MEMORY: u8 = 6;

/// A program of the command line: how it reads a script, and what it answers to one.
pub trait Program: Drop {
    ghost use Rattle.std.specs.Prelude.{◌≡◌, ◌≢◌, ℕ, Err, IfOk, IsTrue, List, OnOk, Result};
    ghost use Rattle.std.specs.Io.KnownBytes.{Appends};
    ghost use Rattle.wt_script.specs.declared.script.ScriptRefused.{ScriptRefused};
    ghost use Rattle.wt_trace.specs.Outcome.{Outcome, is_run_status};
    ghost use Rattle.wt_trace.specs.Outside.{AppendsPart, Rose};
    ghost use Rattle.wt_trace.specs.declared.cut_short.CutShort.TheVariants as cuts;

    /// What an input is read as.
    type Script: Drop;

    // The script that an input is, or the first line that refuses it.
    ghost script_of: { Self → List ℕ → Result Self.Script ScriptRefused };

    // The status and the text that a script is answered, where nothing outside fails and memory suffices.
    ghost outcome_of: { Self → Self.Script → Outcome };

    /// Reads an input as a script; the answer `Err` names the first line that isn't in the grammar.
    fn read_script(
        &self,
        alloc: Global,
        input: &[u8],
    ) -> Result<Result<Self::Script, ScriptRefused>, OutOfMemory>
        ensures { IfOk result (λ script. script ≡ script_of self.now input.now) };

    /// Runs a script, writes what there is to say of it, and gives the status.
    fn answer_script<K: Sink>(
        &self,
        alloc: Global,
        script: &Self::Script,
        sink: &mut K,
    ) -> Result<u8, CutShort>
        ensures status { IfOk result (λ status. status ≡ (outcome_of self.now script.now).status) }
        ensures text { OnOk result (Appends (K.took sink.old) (K.took sink.new) (outcome_of self.now script.now).text) }
        ensures part { AppendsPart (K.took sink.old) (K.took sink.new) (outcome_of self.now script.now).text }
        ensures reported { IfOk result (λ status. IsTrue (is_run_status status)) }
        ensures same { result ≢ Err cuts.SinkFailed → K.faults sink.new ≡ K.faults sink.old }
        ensures fault { result ≡ Err cuts.SinkFailed → Rose (K.faults sink.old) (K.faults sink.new) }
        ensures causes { result ≢ Err cuts.SourceFailed };
}

/// The program, where the words are this one alone.
pub fn asked_alone<P: Program>(words: &[String], word: &[u8], program: P) -> Option<P>
    ensures { result ≡ alone word.now program (map string_bytes words.now) }
{
    match words {
        [only] if only.as_bytes() == word => Some(program),
        _ => None,
    }
}

/// Runs the program that is asked for, or says how one is asked, and gives the status. It reads the source to its end, at most
/// 16,777,217 bytes, whatever the status: a byte more than the greatest script has. All text goes to the sink.
///
/// | status | where | text |
/// |---|---|---|
/// | 0, 3, 9 | as the program says of a script | as it says |
/// | 1 | no program is asked for | the usage line |
/// | 2 | line n is the first that isn't in the program's grammar | `line <n> refused` |
/// | 4 | the source failed | nothing |
/// | 5 | the sink failed | a first part of the text |
/// | 6 | the program ran out of memory | a first part of the text |
/// | 7 | the source gave more than 16,777,216 bytes | `script too long` |
pub fn run_asked<P: Program, S: Source, K: Sink>(
    alloc: Global,
    asked: Option<P>,
    source: &mut S,
    sink: &mut K,
) -> u8
    ensures { Ran (option_map (λ p. input_outcome (P.script_of p) (P.outcome_of p)) asked)
        (seen (S.left source.old) (S.faults source.old)) (seen (S.left source.new) (S.faults source.new))
        (seen (K.took sink.old) (K.faults sink.old)) (seen (K.took sink.new) (K.faults sink.new)) result }
{
    match answer(alloc, asked, source, sink) {
        Ok(status) => status,
        Err(CutShort::SourceFailed) => 4,
        Err(CutShort::SinkFailed) => 5,
        Err(CutShort::OutOfMemory) => OUT_OF_MEMORY,
    }
}

fn answer<P: Program, S: Source, K: Sink>(
    alloc: Global,
    asked: Option<P>,
    source: &mut S,
    sink: &mut K,
) -> Result<u8, CutShort>
    ensures { Ran (option_map (λ p. input_outcome (P.script_of p) (P.outcome_of p)) asked)
        (seen (S.left source.old) (S.faults source.old)) (seen (S.left source.new) (S.faults source.new))
        (seen (K.took sink.old) (K.faults sink.old)) (seen (K.took sink.new) (K.faults sink.new)) (status_of result) }
{
    match asked {
        Some(program) => answer_source(alloc, &program, source, sink),
        None => answer_usage(sink),
    }
}

/// Says how the program is asked.
fn answer_usage<K: Sink>(sink: &mut K) -> Result<u8, CutShort>
    ensures status { IfOk result (λ status. status ≡ 1) }
    ensures text { OnOk result (Appends (K.took sink.old) (K.took sink.new) usage.text) }
    ensures part { AppendsPart (K.took sink.old) (K.took sink.new) usage.text }
    ensures same { OnOk result (K.faults sink.new ≡ K.faults sink.old) }
    ensures cause { IfErr result (λ failure. failure ≡ cuts.SinkFailed) }
    ensures fault { IsErr result → Rose (K.faults sink.old) (K.faults sink.new) }
{
    write_all(sink, b"usage: trace | large <n>\n")?;
    Ok(1)
}

/// Answers what the source has left.
fn answer_source<P: Program, S: Source, K: Sink>(
    alloc: Global,
    program: &P,
    source: &mut S,
    sink: &mut K,
) -> Result<u8, CutShort>
    ensures { Ran (Some (input_outcome (P.script_of program.now) (P.outcome_of program.now)))
        (seen (S.left source.old) (S.faults source.old)) (seen (S.left source.new) (S.faults source.new))
        (seen (K.took sink.old) (K.faults sink.old)) (seen (K.took sink.new) (K.faults sink.new)) (status_of result) }
{
    let input = read_input(alloc, source)?;
    answer_input(alloc, program, input.as_slice(), sink)
}

/// Writes what a program answers to an input, and gives the status.
fn answer_input<P: Program, K: Sink>(
    alloc: Global,
    program: &P,
    input: &[u8],
    sink: &mut K,
) -> Result<u8, CutShort>
    ensures status { IfOk result (λ status. status ≡ (input_outcome (P.script_of program.now) (P.outcome_of program.now) input.now).status) }
    ensures text { OnOk result
        (Appends (K.took sink.old) (K.took sink.new) (input_outcome (P.script_of program.now) (P.outcome_of program.now) input.now).text) }
    ensures part { AppendsPart (K.took sink.old) (K.took sink.new) (input_outcome (P.script_of program.now) (P.outcome_of program.now) input.now).text }
    ensures reported { IfOk result (λ status. IsTrue (is_input_status status)) }
    ensures within { IfOk result (λ status. IsTrue (is_script_status status) → length input.now ≤ script_limit) }
    ensures same { result ≢ Err cuts.SinkFailed → K.faults sink.new ≡ K.faults sink.old }
    ensures fault { result ≡ Err cuts.SinkFailed → Rose (K.faults sink.old) (K.faults sink.new) }
    ensures causes { result ≢ Err cuts.SourceFailed }
{
    if input.len() > SCRIPT_LIMIT {
        write_all(sink, b"script too long\n")?;
        return Ok(7);
    }
    match program.read_script(alloc, input)? {
        Ok(script) => program.answer_script(alloc, &script, sink),
        Err(refused) => {
            write_refusal(alloc, refused.line, sink)?;
            Ok(2)
        }
    }
}

fn write_refusal<K: Sink>(alloc: Global, line: u64, sink: &mut K) -> Result<(), CutShort>
    ensures text { OnOk result (Appends (K.took sink.old) (K.took sink.new) (refused_at line).text) }
    ensures part { AppendsPart (K.took sink.old) (K.took sink.new) (refused_at line).text }
    ensures same { result ≢ Err cuts.SinkFailed → K.faults sink.new ≡ K.faults sink.old }
    ensures fault { result ≡ Err cuts.SinkFailed → Rose (K.faults sink.old) (K.faults sink.new) }
    ensures causes { result ≢ Err cuts.SourceFailed }
{
    let text = number_line(alloc, "line ", line, " refused\n")?;
    write_all(sink, text.as_bytes())
}
