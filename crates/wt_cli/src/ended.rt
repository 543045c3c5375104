//! The run of the command line, and the status that it ends with.
ghost use Rattle.std.specs.Prelude.{◌≡◌, ◌≢◌, ◌⊎◌, [], IfOk, IfErr, IfSome, IsTrue, codes, false, map, string_bytes, true};
ghost use Rattle.std.specs.Io.KnownBytes.{Appends};
ghost use Rattle.std.specs.IoError.{error_kind};
ghost use Rattle.std.specs.Process.{exit_status};
ghost use Rattle.wt_trace.specs.Outcome.{usage};
ghost use Rattle.wt_trace.specs.Asked.{is_cut_short};
ghost use Rattle.wt_trace.specs.Outside.{seen};
ghost use Rattle.wt_check.specs.Outcome.{RanCheck, asks_check};
ghost use Rattle.wt_cli.specs.Command.{asks_for, command_outcome};
ghost use Rattle.wt_shared.specs.SharedRun.{shared_outcome};

use std::alloc::Global;
use std::io::{Error, ErrorKind};
use std::marker::Model;
use std::process::{ExitCode, Termination};
use std::sync::Wait;
use std::thread::Threads;
use wt_check::program::{asks_check, run_check_program};
use wt_pair::run_pair_program;
use wt_shared::gate::OpenGate;
use wt_shared::run::run_shared;
use wt_trace::outside::{Sink, Source};
use wt_trace::program::{OUT_OF_MEMORY, run_program};

/// A run that came to its end. Only [`run`] makes one, so `main` can't end with another status than
/// that of its run. Contracts see the status.
#[derive(Drop)]
pub struct Ended {
    status: u8,
}

impl Model for Ended {
    ghost use Rattle.std.specs.Prelude.{ℕ};

    ghost Value = { ℕ };

    ghost view = { λ e. e.status };
}

impl Termination for Ended {
    fn report<R: Eprint>(self, _rt: &R) -> ExitCode
        ensures { exit_status result ≡ self }
    {
        ExitCode::from(self.status)
    }
}

/// Runs the command line of these words: `shared` by threads, with gates that never wait, `pair` as [`run_pair_program`] does, `check` as
/// [`run_check_program`] does, and every other as [`run_program`] does. Where the words couldn't be read it runs with none, which is no form of a command, and where that was
/// out of memory it doesn't run.
pub fn run<R: Threads + Wait + Sync, S: Source, K: Sink>(
    rt: &R,
    alloc: Global,
    words: Result<Vec<String>, Error>,
    source: &mut S,
    sink: &mut K,
) -> Ended
    ensures status { is_cut_short result ≡ false → IfOk words (λ words. asks_check (map string_bytes words.items) ≡ false
        → IfSome (S.left source.old) (λ input. result ≡ (command_outcome (map string_bytes words.items) input).status)) }
    ensures text { is_cut_short result ≡ false → IfOk words (λ words. asks_check (map string_bytes words.items) ≡ false
        → IfSome (S.left source.old) (λ input. Appends (K.took sink.old) (K.took sink.new) (command_outcome (map string_bytes words.items) input).text)) }
    ensures check { IfOk words (λ words. asks_check (map string_bytes words.items) ≡ true
        → RanCheck (seen (S.left source.old) (S.faults source.old)) (seen (S.left source.new) (S.faults source.new))
        (seen (K.took sink.old) (K.faults sink.old)) (seen (K.took sink.new) (K.faults sink.new)) result) }
    ensures shared { is_cut_short result ≡ false
        → IfOk words (λ words. IsTrue (asks_for (codes "shared") (map string_bytes words.items)) → result ≡ (shared_outcome (map string_bytes words.items)).status) }
    ensures memory { IfErr words (λ error. error_kind error ≡ ErrorKind.OutOfMemory → result ≡ 6) }
    ensures unreadable { IfErr words (λ error. error_kind error ≢ ErrorKind.OutOfMemory → (result ≡ 1) ⊎ (result ≡ 5)) }
    ensures usage_text { result ≡ 1 → Appends (K.took sink.old) (K.took sink.new) usage.text }
{
    let words = match words {
        Ok(words) => words,
        Err(error) if error.kind() == ErrorKind::OutOfMemory => {
            return Ended {
                status: OUT_OF_MEMORY,
            };
        }
        Err(_) => Vec::new(alloc),
    };
    let status = run_command(rt, alloc, words.as_slice(), source, sink);
    Ended { status }
}

/// Runs the program that the first word names.
#[tactic(auto, using(crate::proofs::CommandLaws::check_asks_alone))]
fn run_command<R: Threads + Wait + Sync, S: Source, K: Sink>(
    rt: &R,
    alloc: Global,
    words: &[String],
    source: &mut S,
    sink: &mut K,
) -> u8
    ensures status { is_cut_short result ≡ false → asks_check (map string_bytes words.now) ≡ false
        → IfSome (S.left source.old) (λ input. result ≡ (command_outcome (map string_bytes words.now) input).status) }
    ensures text { is_cut_short result ≡ false → asks_check (map string_bytes words.now) ≡ false
        → IfSome (S.left source.old) (λ input. Appends (K.took sink.old) (K.took sink.new) (command_outcome (map string_bytes words.now) input).text) }
    ensures check { asks_check (map string_bytes words.now) ≡ true
        → RanCheck (seen (S.left source.old) (S.faults source.old)) (seen (S.left source.new) (S.faults source.new))
        (seen (K.took sink.old) (K.faults sink.old)) (seen (K.took sink.new) (K.faults sink.new)) result }
    ensures shared { is_cut_short result ≡ false
        → IsTrue (asks_for (codes "shared") (map string_bytes words.now)) → result ≡ (shared_outcome (map string_bytes words.now)).status }
    ensures no_words { words.now ≡ [] → (result ≡ 1) ⊎ (result ≡ 5) }
    ensures usage_text { result ≡ 1 → Appends (K.took sink.old) (K.took sink.new) usage.text }
{
    if asks_check(words) {
        return run_check_program(alloc, words, source, sink);
    }
    if is_named(words, b"shared") {
        return run_shared(rt, alloc, words, sink, &mut OpenGate, &mut OpenGate);
    }
    if is_named(words, b"pair") {
        return run_pair_program(alloc, words, source, sink);
    }
    run_program(alloc, words, source, sink)
}

/// Whether the first word is this one.
fn is_named(words: &[String], name: &[u8]) -> bool
    ensures { result ≡ asks_for name.now (map string_bytes words.now) }
{
    match words {
        [] => false,
        [word, ..] => word.as_bytes() == name,
    }
}
