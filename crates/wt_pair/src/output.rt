//! The lines of the answers of two ends.
ghost use Rattle.std.specs.Prelude.{◌≡◌, ◌++◌, ◌≢◌, ◌≤◌, Err, OnOk, length, string_bytes};
ghost use Rattle.std.specs.Io.KnownBytes.{Appends};
ghost use Rattle.wt_pair.specs.Output.{name_text, outcome_text, pair_line, print_pair};
ghost use Rattle.wt_trace.specs.Outside.{AppendsPart, Passes, Rose};
ghost use Rattle.wt_trace.specs.declared.cut_short.CutShort.TheVariants as cuts;

use crate::answer::PairAnswer;
use crate::event::PairEvent;
use std::alloc::Global;
use wt_script::print::push_answer;
use wt_trace::cut_short::CutShort;
use wt_trace::output::{pass_on, write_all};
use wt_trace::outside::Sink;
use wt_wire::error::OutOfMemory;
use wt_wire::side::Side;

/// Writes the lines of the answers to the first of these events, one an answer, and then this text, gathered into pieces.
///
/// # Errors
///
/// `SinkFailed` where the sink failed, `OutOfMemory` where the text found no memory.
pub fn write_pair_answers<K: Sink>(
    alloc: Global,
    events: &[PairEvent],
    answers: &[PairAnswer],
    last: &str,
    sink: &mut K,
) -> Result<(), CutShort>
    requires { length answers.now ≤ length events.now }
    ensures text { OnOk result (Appends (K.took sink.old) (K.took sink.new) (print_pair events.now answers.now ++ last.now)) }
    ensures part { AppendsPart (K.took sink.old) (K.took sink.new) (print_pair events.now answers.now ++ last.now) }
    ensures same { result ≢ Err cuts.SinkFailed → K.faults sink.new ≡ K.faults sink.old }
    ensures fault { result ≡ Err cuts.SinkFailed → Rose (K.faults sink.old) (K.faults sink.new) }
    ensures causes { result ≢ Err cuts.SourceFailed }
{
    let mut gathered = String::new(alloc);
    for (index, answer) in answers.iter().enumerate() {
        if let Err(error) = gather_answer(alloc, &events[index], answer, &mut gathered, sink) {
            return Err(error);
        }
    }
    if gathered.push_str(last).is_err() {
        return Err(CutShort::OutOfMemory);
    }
    write_all(sink, gathered.as_bytes())
}

/// Adds the line of an answer to what was gathered, and writes that where it makes a piece.
fn gather_answer<K: Sink>(
    alloc: Global,
    event: &PairEvent,
    answer: &PairAnswer,
    gathered: &mut String,
    sink: &mut K,
) -> Result<(), CutShort>
    ensures text { OnOk result (Passes (K.took sink.old) (K.took sink.new) (string_bytes gathered.old ++ pair_line event.now answer.now) (string_bytes gathered.new)) }
    ensures part { AppendsPart (K.took sink.old) (K.took sink.new) (string_bytes gathered.old ++ pair_line event.now answer.now) }
    ensures same { result ≢ Err cuts.SinkFailed → K.faults sink.new ≡ K.faults sink.old }
    ensures fault { result ≡ Err cuts.SinkFailed → Rose (K.faults sink.old) (K.faults sink.new) }
    ensures causes { result ≢ Err cuts.SourceFailed }
{
    push_line(alloc, gathered, event, answer)?;
    pass_on(gathered, sink)
}

/// Adds the line of an answer: the end's name, and what became of the event there.
fn push_line(
    alloc: Global,
    text: &mut String,
    event: &PairEvent,
    answer: &PairAnswer,
) -> Result<(), OutOfMemory>
    ensures { OnOk result (string_bytes text.new ≡ string_bytes text.old ++ pair_line event.now answer.now) }
{
    text.push_str(name_of(event.end()))?;
    push_outcome(alloc, text, answer)?;
    text.push_str("\n")?;
    Ok(())
}

fn push_outcome(alloc: Global, text: &mut String, answer: &PairAnswer) -> Result<(), OutOfMemory>
    ensures { OnOk result (string_bytes text.new ≡ string_bytes text.old ++ outcome_text answer.now) }
{
    match answer {
        PairAnswer::Turn(answer) => push_answer(alloc, text, answer)?,
        PairAnswer::Stale => text.push_str("stale")?,
        PairAnswer::Lost => text.push_str("lost")?,
    }
    Ok(())
}

fn name_of(end: Side) -> &'static str
    ensures { result.now ≡ name_text end }
{
    match end {
        Side::Client => "client ",
        Side::Server => "server ",
    }
}
