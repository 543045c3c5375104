//! Tests as scripts: each runs twice, with every piece whole and with every piece byte by byte.
//!
//! A script has the lines of docs/FORMATS.md, "Scripts", without that of the side, and the further words of
//! [`super::words`]; blanks around a line are left out. After a line may stand what it answers, as docs/FORMATS.md,
//! "Printed lines", has it, after `> `. A line without that answers `done`, and nothing goes out. For REQUEST stand
//! the bytes of [`REQUEST`]. A `~` stands between cases, each of which has a connection of its own.
use super::drivers::{End, actions, new_end};
use super::words::{is_event, reply};
use std::alloc::Global;
use std::process::Abort;
use wt_script::print::print_answer;
use wt_turn::answer::Answer;
use wt_turn::reply::Reply;
use wt_wire::side::Side;
use wt_wire::text::Text;

/// A request for https://h/, of 83 bytes: HEADERS with five fields.
pub const REQUEST: &str = "014050000027033a617574686f72697479016827003a6d6574686f6407434f4e4e454354\
    253a70617468012f27023a70726f746f636f6c0c7765627472616e73706f727427003a736368656d65056874747073";

/// A server sends its SETTINGS.
pub const SERVER: &str = "
    connected 9 9 1000 1200
    > done ; opened 3 ; send 3 0004160100070008013301ab60374201c0000000c671706a04
";

/// A server with a session: SETTINGS and a request came, and it was accepted.
pub const SESSION: &str = "
    connected 9 9 1000 1200
    > done ; opened 3 ; send 3 0004160100070008013301ab60374201c0000000c671706a04
    peer_uni
    bytes 2 000400
    peer_bi
    bytes 0 REQUEST
    incoming
    > id 0
    accept
    > session 0 ; send 0 010f000027003a73746174757303323030
";

/// A connection in a test.
#[derive(Drop)]
pub struct Run {
    end: End,
    is_whole: bool,
    /// What the last line answered, where no line gave it yet.
    answer: Text,
}

impl Run {
    /// Nothing was reported yet.
    pub fn new(rt: &impl Abort, alloc: Global, side: Side, is_whole: bool) -> Run {
        Run {
            end: new_end(alloc, side),
            is_whole,
            answer: done(rt, alloc),
        }
    }

    /// Takes the lines of a script.
    pub fn take_lines(&mut self, rt: &impl Abort, script: &str) {
        let script = spelled(rt, self.end.alloc, script);
        for line in script.as_str().lines() {
            self.take_line(rt, line.trim());
        }
        self.compare(rt, "done");
    }

    /// Takes the lines that are turns of the transport, which answer `done`.
    pub fn take_events(&mut self, rt: &impl Abort, line: &str) {
        let line = spelled(rt, self.end.alloc, line);
        if is_event(rt, &self.end, line.as_str()) {
            self.take_input(rt, line.as_str());
        }
        self.compare(rt, "done");
    }

    /// Takes a line, whatever it answers.
    pub fn take_any(&mut self, rt: &impl Abort, line: &str) {
        let line = spelled(rt, self.end.alloc, line);
        self.take_input(rt, line.as_str());
        self.answer = done(rt, self.end.alloc);
    }

    fn take_line(&mut self, rt: &impl Abort, line: &str) {
        match line.strip_prefix("> ") {
            Some(expected) => self.compare(rt, expected),
            None => self.take_input(rt, line),
        }
    }

    fn compare(&mut self, rt: &impl Abort, expected: &str) {
        assert_eq!(rt; self.answer.as_str(), expected);
        self.answer = done(rt, self.end.alloc);
    }

    fn take_input(&mut self, rt: &impl Abort, line: &str) {
        assert_eq!(rt; self.answer.as_str(), "done", "before {line}");
        if line.is_empty() || line.starts_with('#') {
            return;
        }
        let reply = reply(rt, &mut self.end, line, self.is_whole);
        self.answer = printed(rt, &mut self.end, reply);
    }
}

fn done(rt: &impl Abort, alloc: Global) -> Text {
    Text::from_text(alloc, "done").expect(rt, "no memory")
}

fn spelled(rt: &impl Abort, alloc: Global, script: &str) -> String {
    let spelled = script.replace(alloc, "REQUEST", REQUEST);
    spelled.expect(rt, "no memory")
}

/// The reply with what went out since the last one.
fn printed(rt: &impl Abort, end: &mut End, reply: Reply) -> Text {
    let actions = actions(&mut end.driver);
    print_answer(end.alloc, &Answer { reply, actions }).expect(rt, "no memory")
}

/// Runs a case after the lines in front of it.
fn run_case(rt: &impl Abort, alloc: Global, side: Side, front: &str, case: &str, is_whole: bool) {
    let mut run = Run::new(rt, alloc, side, is_whole);
    run.take_lines(rt, front);
    run.take_lines(rt, case);
}

/// Runs each case after the lines in front of all, whole and byte by byte.
pub fn runs(rt: &impl Abort, alloc: Global, side: Side, front: &str, cases: &str) {
    for case in cases.split('~') {
        run_case(rt, alloc, side, front, case, true);
        run_case(rt, alloc, side, front, case, false);
    }
}

/// Runs each case with a server that sent its SETTINGS.
pub fn server_runs(rt: &impl Abort, alloc: Global, cases: &str) {
    runs(rt, alloc, Side::Server, SERVER, cases);
}

/// Runs each case with a server that has the session 0.
pub fn session_runs(rt: &impl Abort, alloc: Global, cases: &str) {
    runs(rt, alloc, Side::Server, SESSION, cases);
}
