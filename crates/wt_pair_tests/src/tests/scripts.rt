//! Scripts of two ends, and what the program answers to them.
use std::alloc::Global;
use std::process::Abort;
use wt_pair::run_pair_program;
use wt_trace::outside::mem::{MemSink, MemSource};

/// Both ends are told of the connection, and of each other's control streams with their SETTINGS.
pub const CONNECTED: &str = "\
pair 9 9 1000 1200
client connect https://h v4:7f000001:443 proceed
deliver server 0 0
deliver client 0 0
deliver client 0 0
deliver client 0 25
deliver server 0 0
deliver server 0 25
";

/// Session 0 stands at both ends after it.
pub const ACCEPTED: &str = "\
client handshake
deliver server 0 0
deliver server 0 83
server incoming
server accept
deliver client 0 17
client handshake
";

/// How many events these are, of which the first is the connect.
pub const EVENTS: usize = 14;

pub fn push(rt: &impl Abort, text: &mut String, more: &str) {
    text.push_str(more).expect(rt, "no memory");
}

/// These texts, one behind the other.
pub fn joined(rt: &impl Abort, alloc: Global, texts: &[&str]) -> String {
    let mut all = String::new(alloc);
    for text in texts {
        push(rt, &mut all, text);
    }
    all
}

fn one_word(rt: &impl Abort, alloc: Global, word: &str) -> Vec<String> {
    let mut words = Vec::new(alloc);
    let word = String::from_str(alloc, word).expect(rt, "no memory");
    let added = words.push(word).is_ok();
    assert!(rt; added);
    words
}

/// What the program with this word writes to a script, and its status.
pub fn answered(rt: &impl Abort, alloc: Global, word: &str, script: &str) -> (u8, MemSink) {
    let words = one_word(rt, alloc, word);
    let input = script.as_bytes().to_vec(alloc).expect(rt, "no memory");
    let mut source = MemSource::new(input, Vec::new(alloc));
    let mut sink = MemSink::new(alloc, Vec::new(alloc));
    let status = run_pair_program(alloc, words.as_slice(), &mut source, &mut sink);
    (status, sink)
}

/// Behind a session's handshake these events are answered by these lines, and all fit.
pub fn answers(rt: &impl Abort, alloc: Global, events: &str, lines: &str) {
    let script = joined(rt, alloc, &[CONNECTED, ACCEPTED, events]);
    let (status, sink) = answered(rt, alloc, "pair", script.as_str());
    assert!(rt; status == 0);
    assert_eq!(rt;
        lines_behind(rt, alloc, sink.written(), EVENTS).as_bytes(),
        lines.as_bytes()
    );
}

/// The lines of a text but for the first few.
pub fn lines_behind(rt: &impl Abort, alloc: Global, text: &[u8], count: usize) -> String {
    let text = str::from_utf8(text).expect(rt, "UTF-8");
    let mut behind = String::new(alloc);
    for line in text.lines().skip(count) {
        push(rt, &mut behind, line);
        push(rt, &mut behind, "\n");
    }
    behind
}

/// Of these events the last doesn't fit: status 3, and the last line says which.
pub fn refuses(rt: &impl Abort, alloc: Global, front: &str, events: &str) {
    let script = joined(rt, alloc, &[front, events]);
    let (status, sink) = answered(rt, alloc, "pair", script.as_str());
    assert!(rt; status == 3);
    let lines = script.as_str().lines().count();
    assert!(rt; lines >= 2);
    let at = lines - 2;
    let last = format!(in alloc; "event {at} refused\n").expect(rt, "no memory");
    assert!(rt; sink.written().ends_with(last.as_bytes()));
    let written = str::from_utf8(sink.written()).expect(rt, "UTF-8");
    assert!(rt; written.lines().count() == lines - 1);
}
