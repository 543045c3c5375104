//! Worked cases as lines of text, one after another:
//!
//! ```text
//! bytes 2 40          an event, as a script spells it: the transport takes it
//! > Pending           what is asked here answers this, as it is debugged
//! done ; send 3 00    the actions since the last such line are printed like this
//! ```
//!
//! Each call of a library stands in a function of its own, which promises nothing: a test then
//! knows nothing of its contract, which makes the test cheap to prove.
use super::drivers::stream;
use std::alloc::Global;
use std::fmt::Debug;
use std::process::Abort;
use wt_script::print::print_answer;
use wt_script::script::lines::read_turn;
use wt_seam::Transport;
use wt_turn::{Answer, Reply, Turn};
use wt_wire::side::Side;

/// What is asked again and again, and answers by the transport.
pub trait Subject {
    /// Asks once more.
    fn ask(&mut self, rt: &impl Abort, alloc: Global, t: &mut Transport) -> String;
}

/// A value as it is debugged.
pub fn debugged(rt: &impl Abort, alloc: Global, value: &impl Debug) -> String {
    match format!(in alloc; "{value:?}") {
        Ok(text) => text,
        Err(_) => panic!(rt; "no memory"),
    }
}

/// A value is debugged as this text.
pub fn says(rt: &impl Abort, alloc: Global, value: &impl Debug, text: &str) {
    let said = debugged(rt, alloc, value);
    assert_eq!(rt; said.as_str(), text);
}

/// The event that a line spells.
fn event(rt: &impl Abort, alloc: Global, line: &str) -> Turn {
    let read = read_turn(alloc, line.as_bytes()).expect(rt, "no memory");
    read.expect(rt, "no event")
}

fn take(rt: &impl Abort, t: &mut Transport, turn: &Turn) {
    let fits = t.fits(turn);
    assert!(rt; fits);
    t.take(turn).expect(rt, "no memory");
}

/// The transport of a server after these events.
pub fn server(rt: &impl Abort, alloc: Global, events: &str) -> Transport {
    let mut t = Transport::new(alloc, Side::Server);
    for line in events.lines() {
        take(rt, &mut t, &event(rt, alloc, line));
    }
    t
}

/// How many bytes of a stream are unread.
pub fn unread(t: &Transport, id: u32) -> u64 {
    t.unread(stream(id))
}

/// The actions since the last such call are printed like this.
pub fn acts(rt: &impl Abort, alloc: Global, t: &mut Transport, line: &str) {
    let actions = t.take_actions();
    let reply = Reply::Done;
    let text = print_answer(alloc, &Answer { reply, actions }).expect(rt, "no memory");
    assert_eq!(rt; text.as_str(), line);
}

fn row(rt: &impl Abort, alloc: Global, t: &mut Transport, asked: &mut impl Subject, line: &str) {
    if let Some(answer) = line.strip_prefix("> ") {
        let said = asked.ask(rt, alloc, t);
        assert_eq!(rt; said.as_str(), answer);
        return;
    }
    if line.starts_with("done") {
        acts(rt, alloc, t, line);
        return;
    }
    take(rt, t, &event(rt, alloc, line));
}

/// Goes through the lines of a worked case.
pub fn rows(
    rt: &impl Abort,
    alloc: Global,
    t: &mut Transport,
    asked: &mut impl Subject,
    text: &str,
) {
    for line in text.lines() {
        row(rt, alloc, t, asked, line);
    }
}
