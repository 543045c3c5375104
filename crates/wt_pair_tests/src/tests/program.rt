//! The program: its words, its grammar, its statuses.
use super::scripts::{answered, joined};
use std::alloc::Global;
use std::process::Abort;
use wt_pair::{PairAnswers, PairError};

/// The script is refused at its line of this number.
fn refuses_line(rt: &impl Abort, alloc: Global, script: &str, number: u64) {
    let (status, sink) = answered(rt, alloc, "pair", script);
    assert!(rt; status == 2);
    let line = format!(in alloc; "line {number} refused\n").expect(rt, "no memory");
    assert_eq!(rt; sink.written(), line.as_bytes());
}

/// Lines that don't give the facts.
const NO_FACTS: &str = "\
server
pair
pair 9 9 1000
pair 9 9 1000 1200 1
pair 9 9 1000 on
pair 09 9 1000 1200
connected 9 9 1000 1200
 pair 9 9 1000 1200";

#[test]
fn the_first_line_gives_the_facts(rt: HostRuntime) {
    let alloc = rt.alloc();
    for line in NO_FACTS.lines() {
        refuses_line(&rt, alloc, line, 1);
    }
    refuses_line(&rt, alloc, "", 1);
    refuses_line(&rt, alloc, "# no facts\n\n", 3);
}

/// Lines that are no event.
const NO_EVENTS: &str = "\
client
client peer_uni
client accept_uni 4 4
deliver
deliver server
deliver server 0
deliver server 0 0 0
deliver 0 0
deliver server -1 0
deliver server 18446744073709551616 0
lose server
lose server 0 0
credit client
credit client accept_uni
credit max_uni 10
pair 9 9 1000 1200
server  accept_uni";

#[test]
fn each_further_line_is_an_event(rt: HostRuntime) {
    let alloc = rt.alloc();
    for line in NO_EVENTS.lines() {
        let script = joined(
            &rt,
            alloc,
            &["# a line is left out\npair 9 9 1000 1200\n\n", line],
        );
        refuses_line(&rt, alloc, script.as_str(), 4);
    }
}

/// A script is refused before its events are run.
#[test]
fn a_refused_script_runs_no_event(rt: HostRuntime) {
    refuses_line(
        &rt,
        rt.alloc(),
        "pair 9 9 1000 1200\ndeliver server 0 0\nlose\n",
        3,
    );
}

#[test]
fn facts_of_datagrams_are_read(rt: HostRuntime) {
    let alloc = rt.alloc();
    for script in [
        "pair 9 9 1000 off",
        "pair 9 9 1000 unsupported\n",
        "pair 0 0 0 0",
    ] {
        let (status, sink) = answered(&rt, alloc, "pair", script);
        assert!(&rt; status == 0);
        assert_eq!(&rt; sink.written(), b"".as_slice());
    }
}

#[test]
fn other_words_get_the_usage_line(rt: HostRuntime) {
    let (status, sink) = answered(&rt, rt.alloc(), "pairs", "pair 9 9 1000 1200");
    assert!(&rt; status == 1);
    assert!(&rt; sink.written().starts_with(b"usage: "));
}

/// The text of an error.
fn shows(rt: &impl Abort, alloc: Global, error: PairError, text: &str) {
    let shown = format!(in alloc; "{error}").expect(rt, "no memory");
    assert_eq!(rt; shown.as_bytes(), text.as_bytes());
}

#[test]
fn errors_have_texts(rt: HostRuntime) {
    let alloc = rt.alloc();
    let refused = PairError::Refused {
        at: 7,
        answers: PairAnswers::new(alloc),
    };
    shows(&rt, alloc, refused, "event 7 refused");
    shows(&rt, alloc, PairError::OutOfMemory, "out of memory");
}
