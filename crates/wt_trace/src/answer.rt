//! What a command answers to a script.
ghost use Rattle.std.specs.Prelude.{◌≡◌, ◌++◌, ◌≢◌, Err, IfOk, IsTrue, OnOk, codes, length};
ghost use Rattle.std.specs.Io.KnownBytes.{Appends};
ghost use Rattle.wt_trace.specs.Answer.{finished_text, script_outcome, stop_line, stopped_text};
ghost use Rattle.wt_trace.specs.Command.{command_script};
ghost use Rattle.wt_trace.specs.Outside.{AppendsPart, Rose};
ghost use Rattle.wt_trace.specs.Outcome.{is_run_status};
ghost use Rattle.wt_trace.specs.declared.cut_short.CutShort.TheVariants as cuts;

use crate::asked::Program;
use crate::command::Command;
use crate::command_script::script_for;
use crate::cut_short::CutShort;
use crate::output::{number_line, write_all, write_answers, write_summary};
use crate::outside::Sink;
use std::alloc::Global;
use wt_core::trace::{TraceError, run_trace};
use wt_script::script::{Script, ScriptRefused};
use wt_turn::answer::Answer;
use wt_wire::error::OutOfMemory;

impl Program for Command {
    type Script = Script;

    ghost script_of = { command_script };

    ghost outcome_of = { script_outcome };

    fn read_script(
        &self,
        alloc: Global,
        input: &[u8],
    ) -> Result<Result<Script, ScriptRefused>, OutOfMemory> {
        script_for(alloc, *self, input)
    }

    /// Runs the turns of a script, and writes what the command says of the answers: status 0 or 3.
    fn answer_script<K: Sink>(
        &self,
        alloc: Global,
        script: &Script,
        sink: &mut K,
    ) -> Result<u8, CutShort> {
        match run_trace(alloc, script.side, script.turns.as_slice()) {
            Ok(answers) => {
                write_finished(alloc, self, answers.as_slice(), sink)?;
                Ok(0)
            }
            Err(TraceError::Unlawful { at, answers }) => {
                write_stopped(alloc, self, answers.as_slice(), at, sink)?;
                Ok(3)
            }
            Err(TraceError::OutOfMemory) => Err(CutShort::OutOfMemory),
        }
    }
}

/// Writes what the command says of the answers to a whole run.
fn write_finished<K: Sink>(
    alloc: Global,
    command: &Command,
    answers: &[Answer],
    sink: &mut K,
) -> Result<(), CutShort>
    ensures text { OnOk result (Appends (K.took sink.old) (K.took sink.new) (finished_text command.now answers.now)) }
    ensures part { AppendsPart (K.took sink.old) (K.took sink.new) (finished_text command.now answers.now) }
    ensures same { result ≢ Err cuts.SinkFailed → K.faults sink.new ≡ K.faults sink.old }
    ensures fault { result ≡ Err cuts.SinkFailed → Rose (K.faults sink.old) (K.faults sink.new) }
    ensures causes { result ≢ Err cuts.SourceFailed }
{
    match command {
        Command::Trace => write_answers(alloc, answers, "", sink),
        Command::Large(_) => write_summary(alloc, answers, sink),
    }
}

/// Writes what the command says of the answers before the turn at this index, and that there is none to
/// that turn.
fn write_stopped<K: Sink>(
    alloc: Global,
    command: &Command,
    answers: &[Answer],
    index: u64,
    sink: &mut K,
) -> Result<(), CutShort>
    requires { index ≡ length answers.now }
    ensures text { OnOk result (Appends (K.took sink.old) (K.took sink.new) (stopped_text command.now answers.now ++ stop_line answers.now (codes " unlawful\n"))) }
    ensures part { AppendsPart (K.took sink.old) (K.took sink.new) (stopped_text command.now answers.now ++ stop_line answers.now (codes " unlawful\n")) }
    ensures same { result ≢ Err cuts.SinkFailed → K.faults sink.new ≡ K.faults sink.old }
    ensures fault { result ≡ Err cuts.SinkFailed → Rose (K.faults sink.old) (K.faults sink.new) }
    ensures causes { result ≢ Err cuts.SourceFailed }
{
    let stop = number_line(alloc, "turn ", index, " unlawful\n")?;
    match command {
        Command::Trace => write_answers(alloc, answers, stop.as_str(), sink),
        Command::Large(_) => write_all(sink, stop.as_bytes()),
    }
}
