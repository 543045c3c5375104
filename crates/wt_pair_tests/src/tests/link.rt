//! What a link does: it delays, cuts, reorders between streams, loses datagrams, and what it delivers too late changes nothing.
use super::scripts::{ACCEPTED, CONNECTED, answered, answers, joined};
use std::alloc::Global;
use std::process::Abort;

/// A unidirectional stream of the client's, with five bytes: its opening, its header and these bytes wait for the server.
const STREAM: &str = "client open_uni\nclient poll_opening 6\nclient write_all 6 68656c6c6f\n";

const STREAM_LINES: &str = "\
client opening 6 ; opened 6
client send_ready 6 ; send 6 405400
client all_written ; send 6 68656c6c6f
";

/// Behind the stream's lines these events are answered by these.
fn stream_answers(rt: &impl Abort, alloc: Global, events: &str, lines: &str) {
    let events = joined(rt, alloc, &[STREAM, events]);
    let lines = joined(rt, alloc, &[STREAM_LINES, lines]);
    answers(rt, alloc, events.as_str(), lines.as_str());
}

/// A read gives what came so far, and waits for the rest.
#[test]
fn a_stream_is_cut_into_bytes(rt: HostRuntime) {
    let events = "\
deliver server 0 0
deliver server 0 1
deliver server 0 1
deliver server 0 1
deliver server 0 1
server accept_uni
server read 6 9
server read 6 9
deliver server 0 1
deliver server 0 3
server read 6 9
";
    let lines = "\
server done
server done
server done
server done
server done
server uni 6
server read 68
server pending
server done
server done
server read 656c6c6f
";
    stream_answers(&rt, rt.alloc(), events, lines);
}

/// The server reads the second stream before anything of the first came.
#[test]
fn a_stream_overtakes_another(rt: HostRuntime) {
    let events = "\
client open_bi
client poll_opening 4
client write_all 4 6869
deliver server 3 0
deliver server 3 3
deliver server 3 2
server accept_uni
server accept_bi
server read 4 9
deliver server 0 0
deliver server 0 3
deliver server 0 5
server accept_uni
server read 6 9
";
    let lines = "\
client opening 4 ; opened 4
client bi_ready 4 ; send 4 404100
client all_written ; send 4 6869
server done
server done
server done
server pending
server bi 4
server read 6869
server done
server done
server done
server uni 6
server read 68656c6c6f
";
    stream_answers(&rt, rt.alloc(), events, lines);
}

#[test]
fn a_datagram_is_lost(rt: HostRuntime) {
    let events = "\
client send_datagram 6f6e65
client send_datagram 74776f
lose server 0
deliver server 0 0
server receive_datagram
server receive_datagram
";
    let lines = "\
client done ; datagram_out 006f6e65
client done ; datagram_out 0074776f
server lost
server done
server datagram 74776f
server pending
";
    answers(&rt, rt.alloc(), events, lines);
}

/// A datagram that was sent later comes first, and one that comes between two parts of a stream.
#[test]
fn datagrams_come_in_any_order(rt: HostRuntime) {
    let events = "\
client send_datagram 6f6e65
client send_datagram 74776f
deliver server 0 0
deliver server 0 1
deliver server 3 0
deliver server 2 0
server receive_datagram
server receive_datagram
";
    let lines = "\
client done ; datagram_out 006f6e65
client done ; datagram_out 0074776f
server done
server done
server done
server done
server datagram 74776f
server datagram 6f6e65
";
    stream_answers(&rt, rt.alloc(), events, lines);
}

/// The end of a stream waits behind its bytes, and is acknowledged once it came.
#[test]
fn an_end_is_acknowledged(rt: HostRuntime) {
    let events = "\
client finish 6
deliver server 0 0
deliver server 0 3
deliver server 0 5
client stopped 6
deliver server 0 0
client stopped 6
deliver client 0 0
client stopped 6
server accept_uni
server read 6 9
server read 6 9
";
    let lines = "\
client pending ; finish 6
server done
server done
server done
client pending
server done
client pending
client done
client stopped_by closed
server uni 6
server read 68656c6c6f
server end
";
    stream_answers(&rt, rt.alloc(), events, lines);
}

/// A reset and a stop cross each other.
#[test]
fn a_reset_and_a_stop_cross(rt: HostRuntime) {
    let events = "\
deliver server 0 0
deliver server 0 3
server accept_uni
server stop_recv 6 5
client reset_send 6 9
deliver server 0 5
deliver server 0 0
deliver client 0 0
";
    let lines = "\
server done
server done
server uni 6
server done ; stop 6 5
client done ; reset 6 9
server done
server done
client done
";
    stream_answers(&rt, rt.alloc(), events, lines);
}

/// The close overtakes a stream: what comes of it later is stale.
#[test]
fn what_comes_behind_the_close_is_stale(rt: HostRuntime) {
    let events = "\
server open_uni
server poll_opening 7
server finish 7
server close 7 627965
deliver client 3 0
client closed
deliver client 0 0
deliver client 0 3
deliver client 0 0
";
    let lines = "\
server opening 7 ; opened 7
server send_ready 7 ; send 7 405400
server pending ; finish 7
server done ; close 7 627965
client done
client closed application_closed 7 627965
client stale
client stale
client stale
";
    answers(&rt, rt.alloc(), events, lines);
}

/// Credit is given, and then the rest is written.
#[test]
fn more_credit_lets_a_write_go_on(rt: HostRuntime) {
    let events = "\
credit client max_uni 10
credit client max_data 6 2000
client write_all 6 6869
";
    let lines = "\
client done
client done
client all_written ; send 6 6869
";
    stream_answers(&rt, rt.alloc(), events, lines);
}

/// Of a stream's two bytes one is delivered, and that one is read.
#[test]
fn what_is_read_is_a_prefix_of_what_was_written(rt: HostRuntime) {
    let events = "\
client open_uni
client poll_opening 6
client write_all 6 6869
deliver server 0 0
deliver server 0 3
deliver server 0 1
server accept_uni
server read 6 9
";
    let lines = "\
client opening 6 ; opened 6
client send_ready 6 ; send 6 405400
client all_written ; send 6 6869
server done
server done
server done
server uni 6
server read 68
";
    answers(&rt, rt.alloc(), events, lines);
}

/// Each end's control stream, the request and the response: the lines of both handshakes.
#[test]
fn a_session_is_established_at_both_ends(rt: HostRuntime) {
    let alloc = rt.alloc();
    let script = joined(&rt, alloc, &[CONNECTED, ACCEPTED]);
    let (status, sink) = answered(&rt, alloc, "pair", script.as_str());
    let written = str::from_utf8(sink.written()).expect(&rt, "UTF-8");
    assert!(&rt; status == 0);
    assert!(&rt; written.starts_with("client pending ; dial "));
    assert!(&rt; written.ends_with("client done\nclient session 0\n"));
}
