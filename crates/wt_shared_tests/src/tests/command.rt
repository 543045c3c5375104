//! The command `shared`.
use super::gates::{Flag, Flags, TurnGate};
use std::alloc::Global;
use std::process::Abort;
use std::sync::Wait;
use std::thread::Threads;
use wt_shared::rounds::shared_history;
use wt_shared::{Gate, History, OpenGate, run_shared};
use wt_trace::generate::generate;
use wt_trace::outside::mem::MemSink;
use wt_trace::summary::Summary;
use wt_turn::Answers;

/// The words of a line, with one blank between.
fn words(rt: &impl Abort, alloc: Global, line: &str) -> Vec<String> {
    let mut words = Vec::new(alloc);
    for word in line.split(' ') {
        let word = String::from_str(alloc, word).expect(rt, "no memory");
        words.push(word).expect(rt, "no memory");
    }
    words
}

/// The status for the words of this line, with gates that don't wait.
fn status<R: Abort + Threads + Wait + Sync>(
    rt: &R,
    alloc: Global,
    line: &str,
    sink: &mut MemSink,
) -> u8 {
    let words = words(rt, alloc, line);
    run_shared(
        rt,
        alloc,
        words.as_slice(),
        sink,
        &mut OpenGate,
        &mut OpenGate,
    )
}

/// For the words of this line it ends with this status, and writes this text.
fn ends<R: Abort + Threads + Wait + Sync>(rt: &R, alloc: Global, line: &str, want: u8, text: &str) {
    let mut sink = MemSink::new(alloc, Vec::new(alloc));
    assert!(rt; status(rt, alloc, line, &mut sink) == want);
    assert!(rt; sink.written() == text.as_bytes());
}

const USAGE: &str = "usage: trace | large <n>\n";

#[test]
fn its_line_has_the_numbers_of_one_thread(rt: HostRuntime) {
    let alloc = rt.alloc();
    ends(&rt, alloc, "shared 100", 0, "streams 100 bytes 5050\n");
    ends(&rt, alloc, "shared", 1, USAGE);
    ends(&rt, alloc, "shared 0", 1, USAGE);
    ends(&rt, alloc, "shared 01", 1, USAGE);
    ends(&rt, alloc, "shared 10001", 1, USAGE);
    ends(&rt, alloc, "shared 1 1", 1, USAGE);
    ends(&rt, alloc, "large 1", 1, USAGE);
}

#[test]
fn its_sink_may_fail(rt: HostRuntime) {
    let alloc = rt.alloc();
    let failing = vec![in alloc; 0].expect(&rt, "no memory");
    let mut sink = MemSink::new(alloc, failing);
    assert!(&rt; status(&rt, alloc, "shared 1", &mut sink) == 5);
    assert!(&rt; sink.written().is_empty());
}

/// What the answers of the history come to.
fn numbers(rt: &impl Abort, alloc: Global, history: &History) -> Summary {
    let mut answers = Answers::new(alloc);
    for pair in history.as_slice() {
        let answer = pair.1.copy().expect(rt, "no memory");
        answers.push(answer).expect(rt, "no memory");
    }
    Summary::of(answers.as_slice()).expect(rt, "no memory")
}

#[test]
fn the_threads_come_to_the_same(rt: HostRuntime) {
    let alloc = rt.alloc();
    let turns = generate(alloc, 40).expect(&rt, "no memory");
    let history = shared_history(&rt, alloc, turns.as_slice(), &mut OpenGate, &mut OpenGate)
        .expect(&rt, "no memory")
        .expect(&rt, "the handle's calls");
    let copied = history.copy().expect(&rt, "no memory");
    let numbers = numbers(&rt, alloc, &copied);
    assert!(&rt; numbers.streams == 40 && numbers.bytes == 820);
}

#[test]
fn its_threads_run_beside_each_other(rt: HostRuntime) {
    let alloc = rt.alloc();
    let words = words(&rt, alloc, "shared 1");
    let mut sink = MemSink::new(alloc, Vec::new(alloc));
    let flags = Flags::new();
    let mut feed_gate = TurnGate::new(&flags, Flag::First, Flag::Second);
    let mut read_gate = TurnGate::new(&flags, Flag::Second, Flag::First);
    let status = run_shared(
        &rt,
        alloc,
        words.as_slice(),
        &mut sink,
        &mut feed_gate,
        &mut read_gate,
    );
    assert!(&rt; status == 0);
    assert!(&rt; sink.written() == b"streams 1 bytes 1\n".as_slice());
    assert!(&rt; feed_gate.refusals() == 0 && read_gate.refusals() == 0);
    assert!(&rt; flags.is_set(Flag::First) && flags.is_set(Flag::Second));
}
