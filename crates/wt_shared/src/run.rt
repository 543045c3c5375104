//! The command `shared`.
ghost use Rattle.std.specs.Prelude.{◌≡◌, ◌≢◌, ◌<◌, ◌⊎◌, IfOk, None, false, map, string_bytes};
ghost use Rattle.std.specs.Io.KnownBytes.{Appends};
ghost use Rattle.wt_meaning.specs.Meaning.{run};
ghost use Rattle.wt_trace.specs.Outcome.{usage};
ghost use Rattle.wt_trace.specs.Outside.{AppendsPart, Rose};
ghost use Rattle.wt_wire.specs.declared.side.Side.TheVariants.{Server};
ghost use Rattle.wt_shared.specs.SharedRun.{is_stopped, numbers_line, numbers_of, shared_count_of, shared_outcome};

use crate::gate::Gate;
use crate::rounds::shared_history;
use std::alloc::Global;
use std::sync::Wait;
use std::thread::Threads;
use wt_core::trace::{TraceError, run_trace};
use wt_trace::command::{StreamCount, read_streams};
use wt_trace::generate::generate;
use wt_trace::output::write_all;
use wt_trace::outside::Sink;
use wt_trace::program::OUT_OF_MEMORY;
use wt_trace::summary::{Summary, push_number};
use wt_turn::Turn;
use wt_turn::answer::Answers;
use wt_wire::error::OutOfMemory;
use wt_wire::side::Side;

/// Runs `shared <n>`: a generated run with n streams, 1 to 10,000, whose turns two threads make, and writes the line
/// `streams <s> bytes <b>`. Its numbers are those of the same run by one thread, which is made too: no contract can say what
/// the threads' own history comes to. Before each round of at most 16 streams the thread that feeds the transport's turns
/// pauses at `feed`, and the one that accepts and reads at `read`; both go on whatever the pause returns.
///
/// | status | where | text |
/// |---|---|---|
/// | 0 | the run reached its end | the line |
/// | 1 | the words have no such form | the usage line |
/// | 5 | the sink failed | a first part of the text |
/// | 6 | the program ran out of memory | nothing |
///
/// It may wait, and says nothing where it doesn't return.
pub fn run_shared<R: Threads + Wait + Sync, K: Sink, F: Gate + Send, G: Gate + Send>(
    rt: &R,
    alloc: Global,
    words: &[String],
    sink: &mut K,
    feed: &mut F,
    read: &mut G,
) -> u8
    ensures status { is_stopped result ≡ false → result ≡ (shared_outcome (map string_bytes words.now)).status }
    ensures text { is_stopped result ≡ false → Appends (K.took sink.old) (K.took sink.new) (shared_outcome (map string_bytes words.now)).text }
    ensures part { AppendsPart (K.took sink.old) (K.took sink.new) (shared_outcome (map string_bytes words.now)).text }
    ensures fault { result ≡ 5 → Rose (K.faults sink.old) (K.faults sink.new) }
    ensures same { result ≢ 5 → K.faults sink.new ≡ K.faults sink.old }
    ensures nothing { result ≡ 6 → K.took sink.new ≡ K.took sink.old }
    ensures usage { shared_count_of (map string_bytes words.now) ≡ None → (result ≡ 1) ⊎ (result ≡ 5) }
    ensures usage_text { result ≡ 1 → Appends (K.took sink.old) (K.took sink.new) usage.text }
    ensures command { shared_count_of (map string_bytes words.now) ≢ None → result ≢ 1 }
{
    match read_words(words) {
        None => write_text(1, "usage: trace | large <n>\n", sink),
        Some(streams) => match shared_line(rt, alloc, streams, feed, read) {
            Ok(line) => write_text(0, line.as_str(), sink),
            Err(_) => OUT_OF_MEMORY,
        },
    }
}

/// Writes a text. Returns this status, or 5 where the sink failed.
fn write_text<K: Sink>(status: u8, text: &str, sink: &mut K) -> u8
    requires { status < 5 }
    ensures status { is_stopped result ≡ false → result ≡ status }
    ensures text { is_stopped result ≡ false → Appends (K.took sink.old) (K.took sink.new) text.now }
    ensures part { AppendsPart (K.took sink.old) (K.took sink.new) text.now }
    ensures fault { result ≡ 5 → Rose (K.faults sink.old) (K.faults sink.new) }
    ensures same { result ≢ 5 → K.faults sink.new ≡ K.faults sink.old }
    ensures either { (result ≡ status) ⊎ (result ≡ 5) }
{
    match write_all(sink, text.as_bytes()) {
        Ok(()) => status,
        Err(_) => 5,
    }
}

/// How many streams the words ask for; None exactly where they have no form of the command.
fn read_words(words: &[String]) -> Option<StreamCount>
    ensures { result ≡ shared_count_of (map string_bytes words.now) }
{
    match words {
        [word, streams] if word.as_bytes() == b"shared".as_slice() => {
            read_streams(streams.as_bytes())
        }
        _ => None,
    }
}

/// The line of the run, once two threads have made its turns.
fn shared_line<R: Threads + Wait + Sync, F: Gate + Send, G: Gate + Send>(
    rt: &R,
    alloc: Global,
    streams: StreamCount,
    feed: &mut F,
    read: &mut G,
) -> Result<String, OutOfMemory>
    ensures { IfOk result (λ line. string_bytes line ≡ numbers_line (numbers_of streams)) }
{
    // All turns are there before a thread starts: a thread that lacked one would let the other wait for it.
    let turns = generate(alloc, streams.into_u32())?;
    let _history = shared_history(rt, alloc, turns.as_slice(), feed, read)?;
    let numbers = numbers(alloc, streams)?;
    line(alloc, &numbers)
}

/// What one thread's answers to the run come to.
fn numbers(alloc: Global, streams: StreamCount) -> Result<Summary, OutOfMemory>
    ensures { IfOk result (λ numbers. numbers ≡ numbers_of streams) }
{
    let turns = generate(alloc, streams.into_u32())?;
    let answers = answers_to(alloc, turns.as_slice())?;
    let numbers = Summary::of(answers.as_slice())?;
    Ok(numbers)
}

/// A server's answers to these turns, up to the first that isn't lawful.
fn answers_to(alloc: Global, turns: &[Turn]) -> Result<Answers, OutOfMemory>
    ensures { IfOk result (λ answers. answers ≡ (run Server turns.now).answers) }
{
    match run_trace(alloc, Side::Server, turns) {
        Ok(answers) => Ok(answers),
        Err(TraceError::Unlawful { at: _, answers }) => Ok(answers),
        Err(TraceError::OutOfMemory) => Err(OutOfMemory),
    }
}

/// The line that says how many streams were accepted and how many bytes were read.
fn line(alloc: Global, numbers: &Summary) -> Result<String, OutOfMemory>
    ensures { IfOk result (λ line. string_bytes line ≡ numbers_line numbers.now) }
{
    let mut line = String::new(alloc);
    push_number(alloc, &mut line, "streams ", numbers.streams)?;
    push_number(alloc, &mut line, " bytes ", numbers.bytes)?;
    line.push_str("\n")?;
    Ok(line)
}
