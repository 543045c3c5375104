//! A recorded case, and whether the program answers it so.
ghost use Rattle.std.specs.Prelude.{◌≡◌, [], IfOk, OnOk, All, IsTrue, Some, false, is_some, map, string_bytes};
ghost use Rattle.wt_cases.specs.Cases.{IsAnswered, case_asked};
ghost use Rattle.wt_check.specs.Outcome.{asks_check};
ghost use Rattle.wt_pair.specs.Program.{pair_asked};
ghost use Rattle.wt_trace.specs.Asked.{Ran, is_cut_short};
ghost use Rattle.wt_trace.specs.Outside.{seen};

use std::alloc::{AllocError, Global};
use wt_check::program::{asks_check, run_check_program};
use wt_pair::run_pair_program;
use wt_trace::outside::mem::{MemSink, MemSource};
use wt_trace::program::run_program;

/// What the program is asked, and what it must answer.
#[derive(Drop)]
pub struct Case {
    /// The words after the program's name.
    pub words: Vec<String>,
    /// Its input.
    pub script: Vec<u8>,
    /// What it must write.
    pub text: Vec<u8>,
    /// Its exit status.
    pub status: u8,
}

impl Case {
    /// Tells whether the program answers so. Where it does, the definitions do; out of memory it
    /// doesn't.
    pub fn agrees(&self, alloc: Global) -> Result<bool, AllocError>
        ensures { IfOk result (λ agrees. IsTrue agrees → IsAnswered self.now) }
    {
        let mut source = MemSource::new(self.script.clone()?, Vec::new(alloc));
        let mut sink = MemSink::new(alloc, Vec::new(alloc));
        let status = run_words(alloc, self.words.as_slice(), &mut source, &mut sink);
        Ok(self.is_answer(status, sink.written()))
    }

    /// Tells whether this is the recorded answer, and no fault, nor out of memory.
    fn is_answer(&self, status: u8, text: &[u8]) -> bool
        ensures whole { IsTrue result → is_cut_short status ≡ false }
        ensures status { IsTrue result → status ≡ self.now.status }
        ensures text { IsTrue result → text.now ≡ self.now.text.items }
    {
        if status == 4 || status == 5 || status == 6 {
            return false;
        }
        status == self.status && text == self.text.as_slice()
    }
}

/// Whether the words ask for the program of two ends.
fn asks_pair(words: &[String]) -> bool
    ensures { result ≡ is_some (pair_asked (map string_bytes words.now)) }
{
    match words {
        [only] => only.as_bytes() == b"pair".as_slice(),
        _ => false,
    }
}

/// Runs the program that the words ask for.
#[tactic(auto, using(crate::proofs::AskedLaws::asks_two_ends, crate::proofs::AskedLaws::asks_one_end))]
fn run_words(alloc: Global, words: &[String], source: &mut MemSource, sink: &mut MemSink) -> u8
    ensures { asks_check (map string_bytes words.now) ≡ false → Ran (case_asked (map string_bytes words.now))
        (seen (Some source.old.bytes) source.old.calls.faults) (seen (Some source.new.bytes) source.new.calls.faults)
        (seen (Some sink.old.bytes) sink.old.calls.faults) (seen (Some sink.new.bytes) sink.new.calls.faults) result }
{
    if asks_check(words) {
        return run_check_program(alloc, words, source, sink);
    }
    if asks_pair(words) {
        return run_pair_program(alloc, words, source, sink);
    }
    run_program(alloc, words, source, sink)
}

/// The numbers of the cases that the program answers otherwise, counted from 0. Where there is none, the
/// definitions answer each case so.
pub fn differing(alloc: Global, cases: &[Case]) -> Result<Vec<usize>, AllocError>
    ensures { IfOk result (λ numbers. numbers.items ≡ [] → All IsAnswered cases.now) }
{
    let mut numbers = Vec::new(alloc);
    for (number, case) in cases.iter().enumerate() {
        push_differing(alloc, &mut numbers, number, case)?;
    }
    Ok(numbers)
}

/// Adds the number of the case where the program answers it otherwise.
fn push_differing(
    alloc: Global,
    numbers: &mut Vec<usize>,
    number: usize,
    case: &Case,
) -> Result<(), AllocError>
    ensures before { OnOk result (numbers.new.items ≡ [] → numbers.old.items ≡ []) }
    ensures agrees { OnOk result (numbers.new.items ≡ [] → IsAnswered case.now) }
{
    if !case.agrees(alloc)? {
        numbers.push(number)?;
    }
    Ok(())
}
