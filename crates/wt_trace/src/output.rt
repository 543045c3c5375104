//! What the program writes.
ghost use Rattle.std.specs.Prelude.{◌≡◌, ◌++◌, ◌≢◌, Err, IfErr, IfOk, IsErr, OnOk, string_bytes};
ghost use Rattle.std.specs.Fmt.{decimal};
ghost use Rattle.std.specs.Io.KnownBytes.{Appends};
ghost use Rattle.wt_trace.specs.Outside.{AppendsPart, Passes, Rose};
ghost use Rattle.wt_trace.specs.Summary.{summary_line, summary_of};
ghost use Rattle.wt_trace.specs.declared.cut_short.CutShort.TheVariants as cuts;
ghost use Rattle.wt_script.specs.Print.{answer_line, print};

use crate::cut_short::CutShort;
use crate::outside::Sink;
use crate::summary::{Summary, push_number};
use std::alloc::Global;
use wt_script::print::push_answer;
use wt_turn::answer::Answer;
use wt_wire::error::OutOfMemory;

/// The size from which gathered text is written, in bytes: a system call for each line would take most
/// of the time of a long run.
const PIECE_SIZE: usize = 65_536;

/// A number between two texts.
///
/// # Errors
///
/// `OutOfMemory` where the text found no memory.
pub fn number_line(
    alloc: Global,
    before: &str,
    number: u64,
    following: &str,
) -> Result<String, OutOfMemory>
    ensures { IfOk result (λ text. string_bytes text ≡ before.now ++ decimal number ++ following.now) }
{
    let mut text = String::new(alloc);
    push_number(alloc, &mut text, before, number)?;
    text.push_str(following)?;
    Ok(text)
}

/// Writes the line that sums up the answers.
///
/// # Errors
///
/// `SinkFailed` where the sink failed, `OutOfMemory` where the text found no memory.
pub fn write_summary<K: Sink>(
    alloc: Global,
    answers: &[Answer],
    sink: &mut K,
) -> Result<(), CutShort>
    ensures text { OnOk result (Appends (K.took sink.old) (K.took sink.new) (summary_line (summary_of answers.now))) }
    ensures part { AppendsPart (K.took sink.old) (K.took sink.new) (summary_line (summary_of answers.now)) }
    ensures same { result ≢ Err cuts.SinkFailed → K.faults sink.new ≡ K.faults sink.old }
    ensures fault { result ≡ Err cuts.SinkFailed → Rose (K.faults sink.old) (K.faults sink.new) }
    ensures causes { result ≢ Err cuts.SourceFailed }
{
    let line = Summary::of(answers)?.line(alloc)?;
    write_all(sink, line.as_bytes())
}

/// Writes a line for each answer and then this text, gathered into pieces.
///
/// # Errors
///
/// `SinkFailed` where the sink failed, `OutOfMemory` where the text found no memory.
pub fn write_answers<K: Sink>(
    alloc: Global,
    answers: &[Answer],
    last: &str,
    sink: &mut K,
) -> Result<(), CutShort>
    ensures text { OnOk result (Appends (K.took sink.old) (K.took sink.new) (print answers.now ++ last.now)) }
    ensures part { AppendsPart (K.took sink.old) (K.took sink.new) (print answers.now ++ last.now) }
    ensures same { result ≢ Err cuts.SinkFailed → K.faults sink.new ≡ K.faults sink.old }
    ensures fault { result ≡ Err cuts.SinkFailed → Rose (K.faults sink.old) (K.faults sink.new) }
    ensures causes { result ≢ Err cuts.SourceFailed }
{
    let mut gathered = String::new(alloc);
    for answer in answers {
        if let Err(error) = gather_answer(alloc, answer, &mut gathered, sink) {
            return Err(error);
        }
    }
    if gathered.push_str(last).is_err() {
        return Err(CutShort::OutOfMemory);
    }
    write_all(sink, gathered.as_bytes())
}

/// Adds the line of an answer to what was gathered, and writes that where it makes a piece.
fn gather_answer<K: Sink>(
    alloc: Global,
    answer: &Answer,
    gathered: &mut String,
    sink: &mut K,
) -> Result<(), CutShort>
    ensures text { OnOk result (Passes (K.took sink.old) (K.took sink.new) (string_bytes gathered.old ++ answer_line answer.now) (string_bytes gathered.new)) }
    ensures part { AppendsPart (K.took sink.old) (K.took sink.new) (string_bytes gathered.old ++ answer_line answer.now) }
    ensures same { result ≢ Err cuts.SinkFailed → K.faults sink.new ≡ K.faults sink.old }
    ensures fault { result ≡ Err cuts.SinkFailed → Rose (K.faults sink.old) (K.faults sink.new) }
    ensures causes { result ≢ Err cuts.SourceFailed }
{
    push_line(alloc, answer, gathered)?;
    pass_on(gathered, sink)
}

/// Writes what was gathered, where that makes a piece by now.
///
/// # Errors
///
/// `SinkFailed` where the sink failed.
pub fn pass_on<K: Sink>(gathered: &mut String, sink: &mut K) -> Result<(), CutShort>
    ensures text { OnOk result (Passes (K.took sink.old) (K.took sink.new) (string_bytes gathered.old) (string_bytes gathered.new)) }
    ensures part { AppendsPart (K.took sink.old) (K.took sink.new) (string_bytes gathered.old) }
    ensures same { OnOk result (K.faults sink.new ≡ K.faults sink.old) }
    ensures cause { IfErr result (λ failure. failure ≡ cuts.SinkFailed) }
    ensures fault { IsErr result → Rose (K.faults sink.old) (K.faults sink.new) }
{
    if gathered.len() >= PIECE_SIZE {
        write_all(sink, gathered.as_bytes())?;
        gathered.clear();
    }
    Ok(())
}

/// Adds the line of an answer.
fn push_line(alloc: Global, answer: &Answer, text: &mut String) -> Result<(), OutOfMemory>
    ensures { OnOk result (string_bytes text.new ≡ string_bytes text.old ++ answer_line answer.now) }
{
    push_answer(alloc, text, answer)?;
    text.push_str("\n")?;
    Ok(())
}

/// Writes all bytes.
///
/// # Errors
///
/// `SinkFailed` where the sink failed.
pub fn write_all<K: Sink>(sink: &mut K, text: &[u8]) -> Result<(), CutShort>
    ensures text { OnOk result (Appends (K.took sink.old) (K.took sink.new) text.now) }
    ensures part { AppendsPart (K.took sink.old) (K.took sink.new) text.now }
    ensures same { OnOk result (K.faults sink.new ≡ K.faults sink.old) }
    ensures cause { IfErr result (λ failure. failure ≡ cuts.SinkFailed) }
    ensures fault { IsErr result → Rose (K.faults sink.old) (K.faults sink.new) }
{
    let mut offset = 0;
    while offset < text.len() {
        match sink.write(&text[offset..]) {
            Ok(count) => offset += count,
            Err(_) => return Err(CutShort::SinkFailed),
        }
    }
    Ok(())
}
