//! Hostile peers and broken scripts, each by a rule, run by the program's own call: floods, streams and scripts that
//! end anywhere, and a close at any turn.
use super::program::{SESSION, SESSION_TEXT, answers, long, push};
use std::alloc::Global;
use std::process::Abort;
use wt_trace::outside::mem::{MemSink, MemSource};

/// The status of a script's run, and what it writes.
fn traced(rt: &impl Abort, alloc: Global, script: &str) -> (u8, String) {
    let script = script.as_bytes().to_vec(alloc).expect(rt, "no memory");
    let mut source = MemSource::new(script, Vec::new(alloc));
    let mut sink = MemSink::new(alloc, Vec::new(alloc));
    let status = answers(rt, alloc, "trace", &mut source, &mut sink);
    let text = str::from_utf8(sink.written()).expect(rt, "no text");
    let text = String::from_str(alloc, text).expect(rt, "no memory");
    (status, text)
}

/// A script is run to its end, with this text.
fn writes(rt: &impl Abort, alloc: Global, script: &str, text: &str) {
    let (status, written) = traced(rt, alloc, script);
    assert_eq!(rt; status, 0);
    assert!(rt; written.as_str() == text, "to {script}: {written}");
}

const SERVER: &str = "server\nconnected 9 9 1000 1200\n";

const SERVER_TEXT: &str =
    "done ; opened 3 ; send 3 0004160100070008013301ab60374201c0000000c671706a04\n";

#[test]
fn a_flood_of_streams_without_a_byte(rt: HostRuntime) {
    let alloc = rt.alloc();
    let script = long(&rt, alloc, SERVER, "peer_uni\n", 1000);
    let text = long(&rt, alloc, SERVER_TEXT, "done\n", 1000);
    writes(&rt, alloc, script.as_str(), text.as_str());
}

/// Streams of session 4, which there isn't: 16 wait for it, and each later one is stopped.
#[test]
fn a_flood_of_streams_of_another_session(rt: HostRuntime) {
    let alloc = rt.alloc();
    let mut script = long(&rt, alloc, SESSION, "", 0);
    let mut text = long(&rt, alloc, SESSION_TEXT, "", 0);
    for index in 1..1001u32 {
        let id = 4 * index + 2;
        let lines = format!(in alloc; "peer_uni\nbytes {id} 405404\n");
        push(&rt, &mut script, lines.expect(&rt, "no memory").as_str());
        push(&rt, &mut text, "done\ndone");
        if index > 16 {
            let stop = format!(in alloc; " ; stop {id} 966049156");
            push(&rt, &mut text, stop.expect(&rt, "no memory").as_str());
        }
        push(&rt, &mut text, "\n");
    }
    push(&rt, &mut script, "accept_uni\n");
    push(&rt, &mut text, "pending\n");
    writes(&rt, alloc, script.as_str(), text.as_str());
}

#[test]
fn a_flood_of_datagrams_of_another_session(rt: HostRuntime) {
    let alloc = rt.alloc();
    let mut script = long(&rt, alloc, SESSION, "datagram 0161\n", 100);
    push(&rt, &mut script, "receive_datagram\n");
    let mut text = long(&rt, alloc, SESSION_TEXT, "done\n", 100);
    push(&rt, &mut text, "pending\n");
    writes(&rt, alloc, script.as_str(), text.as_str());
}

/// A request, cut after `size` digits.
fn cut_request(rt: &impl Abort, alloc: Global, size: usize) -> String {
    let line = SESSION.lines().nth(5).expect(rt, "the line of the request");
    let cut = line.get(..size).expect(rt, "no place");
    let mut script = long(rt, alloc, SERVER, "peer_bi\n", 1);
    push(rt, &mut script, cut);
    push(rt, &mut script, "\nend 0\n");
    script
}

/// It ends as a stream that is dropped: nothing goes out.
#[test]
fn a_request_may_end_at_any_byte(rt: HostRuntime) {
    let alloc = rt.alloc();
    let text = long(&rt, alloc, SERVER_TEXT, "done\n", 3);
    for size in 1..83usize {
        let script = cut_request(&rt, alloc, 8 + 2 * size);
        writes(&rt, alloc, script.as_str(), text.as_str());
    }
}

fn cut_script(rt: &impl Abort, alloc: Global, size: usize) {
    let cut = SESSION.get(..size).expect(rt, "no place");
    let (status, text) = traced(rt, alloc, cut);
    if status == 0 {
        assert!(rt; SESSION_TEXT.starts_with(text.as_str()), "to {cut}: {text}");
        return;
    }
    assert_eq!(rt; status, 2);
    let line = cut.split('\n').count();
    let refused = format!(in alloc; "line {line} refused\n");
    assert_eq!(rt; text.as_str(), refused.expect(rt, "no memory").as_str());
}

/// What is left are the turns of whole lines, and maybe a shorter last one; else the last line is refused.
#[test]
fn a_script_may_end_at_any_byte(rt: HostRuntime) {
    for size in 0..SESSION.len() {
        cut_script(&rt, rt.alloc(), size);
    }
}

/// A stream of the client's that is accepted, read to its end, stopped and written to.
const STREAM: &str = "\
peer_bi
bytes 4 210040410061626364
accept_bi
read_exact 4 6
read_exact 4 2
end 4
read_exact 4 3
read 4 9
stop_recv 4 5
read 4 9
write 4 61
";

const CLOSE: &str = "endpoint_close 5 -";

/// The lines with a close in front of the one of this number.
fn closed(rt: &impl Abort, alloc: Global, lines: &str, place: usize) -> String {
    let mut script = String::new(alloc);
    for (number, line) in lines.lines().enumerate() {
        if number == place {
            push(rt, &mut script, CLOSE);
            push(rt, &mut script, "\n");
        }
        push(rt, &mut script, line);
        push(rt, &mut script, "\n");
    }
    script
}

fn is_event(line: &str) -> bool {
    line.starts_with("peer_") || line.starts_with("bytes ") || line.starts_with("end ")
}

/// After the close each event is answered `done`, up to the end or a call that isn't lawful any more.
fn stays_closed(rt: &impl Abort, script: &str, text: &str) {
    let mut has_closed = false;
    for (line, answer) in script.lines().skip(1).zip(text.lines()) {
        if line == CLOSE {
            assert_eq!(rt; answer, "done ; close 5 -");
            has_closed = true;
        } else if has_closed && is_event(line) {
            assert_eq!(rt; answer, "done");
        }
    }
    assert!(rt; has_closed);
}

#[test]
fn a_close_may_come_before_any_turn(rt: HostRuntime) {
    let alloc = rt.alloc();
    let lines = long(&rt, alloc, SESSION, STREAM, 1);
    for place in 2..lines.lines().count() {
        let script = closed(&rt, alloc, lines.as_str(), place);
        let (status, text) = traced(&rt, alloc, script.as_str());
        assert!(rt; status == 0 || status == 3);
        stays_closed(&rt, script.as_str(), text.as_str());
    }
}
