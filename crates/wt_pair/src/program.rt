//! The program with the word `pair`: a script of two ends comes in, the lines of their answers go out.
ghost use Rattle.std.specs.Prelude.{IsTrue, map, string_bytes};
ghost use Rattle.wt_pair.specs.Program.{TellsTwoEnds, pair_asked};
ghost use Rattle.wt_trace.specs.Asked.{Ran};
ghost use Rattle.wt_trace.specs.Outcome.{is_run_status};
ghost use Rattle.wt_trace.specs.Outside.{seen};

use crate::output::write_pair_answers;
use crate::run::{PairError, run_pair};
use crate::script::{PairScript, read_pair_script};
use std::alloc::Global;
use wt_script::script::ScriptRefused;
use wt_trace::asked::{Program, asked_alone, run_asked};
use wt_trace::cut_short::CutShort;
use wt_trace::output::number_line;
use wt_trace::outside::{Sink, Source};
use wt_wire::error::OutOfMemory;

/// The program of two ends, whose word is `pair`.
#[derive(Clone, Copy, PartialEq, Eq, Debug)]
pub struct PairProgram;

impl Program for PairProgram {
    ghost use Rattle.wt_pair.specs.Output.{pair_outcome};
    ghost use Rattle.wt_pair.specs.Script.{pair_script_of};

    type Script = PairScript;

    ghost script_of = { λ _. pair_script_of };

    ghost outcome_of = { λ _. pair_outcome };

    fn read_script(
        &self,
        alloc: Global,
        input: &[u8],
    ) -> Result<Result<PairScript, ScriptRefused>, OutOfMemory> {
        read_pair_script(alloc, input)
    }

    /// Runs the events of a script, and writes a line for each answer: status 0 or 3.
    fn answer_script<K: Sink>(
        &self,
        alloc: Global,
        script: &PairScript,
        sink: &mut K,
    ) -> Result<u8, CutShort> {
        let events = script.events();
        match run_pair(alloc, script.facts(), events) {
            Ok(answers) => {
                write_pair_answers(alloc, events, answers.as_slice(), "", sink)?;
                Ok(0)
            }
            Err(PairError::Refused { at, answers }) => {
                let last = number_line(alloc, "event ", at, " refused\n")?;
                write_pair_answers(alloc, events, answers.as_slice(), last.as_str(), sink)?;
                Ok(3)
            }
            Err(PairError::OutOfMemory) => Err(CutShort::OutOfMemory),
        }
    }
}

/// Runs the program with the word `pair`: reads a script to its end, runs its events at two ends over a link, and writes a line for each
/// answer. The statuses are those of [`run_asked`]: 0 where all events fit, and 3 where the event at an index doesn't, with
/// `event <at> refused` behind the answers before it. With these two the four claims on two ends hold of the answers that it wrote.
pub fn run_pair_program<S: Source, K: Sink>(
    alloc: Global,
    words: &[String],
    source: &mut S,
    sink: &mut K,
) -> u8
    ensures runs { Ran (pair_asked (map string_bytes words.now)) (seen (S.left source.old) (S.faults source.old)) (seen (S.left source.new) (S.faults source.new))
        (seen (K.took sink.old) (K.faults sink.old)) (seen (K.took sink.new) (K.faults sink.new)) result }
    ensures agree { IsTrue (is_run_status result) → TellsTwoEnds (S.left source.old) (S.left source.new) (K.took sink.old) (K.took sink.new) result }
{
    run_asked(
        alloc,
        asked_alone(words, b"pair", PairProgram),
        source,
        sink,
    )
}
