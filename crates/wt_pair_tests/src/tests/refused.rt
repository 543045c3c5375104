//! Events that don't fit, each behind events that do.
use super::scripts::{ACCEPTED, CONNECTED, joined, refuses};
use std::alloc::Global;
use std::process::Abort;

/// A client dialled, and nothing else happened.
const DIALLED: &str = "\
pair 9 9 1000 1200
client connect https://h v4:7f000001:443 proceed
";

/// Session 0 stands at both ends, and these events don't fit then, each on a line.
fn refuses_in_session(rt: &impl Abort, alloc: Global, front: &str, lines: &str) {
    let front = joined(rt, alloc, &[CONNECTED, ACCEPTED, front]);
    for line in lines.lines() {
        refuses(rt, alloc, front.as_str(), line);
    }
}

// ---- deliveries

#[test]
fn nothing_waits_there(rt: HostRuntime) {
    let alloc = rt.alloc();
    refuses(&rt, alloc, "pair 9 9 1000 1200\n", "deliver server 0 0");
    refuses(&rt, alloc, DIALLED, "deliver server 1 0");
    refuses(&rt, alloc, DIALLED, "deliver client 18446744073709551615 0");
    refuses_in_session(&rt, alloc, "", "deliver server 0 0\ndeliver client 0 0");
}

/// The server's control stream waits for the client behind the connection.
#[test]
fn the_connection_comes_first(rt: HostRuntime) {
    let told = joined(&rt, rt.alloc(), &[DIALLED, "deliver server 0 0\n"]);
    refuses(&rt, rt.alloc(), told.as_str(), "deliver client 1 0");
}

/// A stream's opening, its bytes and its end wait for the server.
#[test]
fn a_stream_keeps_its_order(rt: HostRuntime) {
    let front =
        "client open_uni\nclient poll_opening 6\nclient write_all 6 6869\nclient finish 6\n";
    refuses_in_session(
        &rt,
        rt.alloc(),
        front,
        "deliver server 1 3\ndeliver server 2 2\ndeliver server 3 0",
    );
}

#[test]
fn a_stream_keeps_its_order_behind_its_opening(rt: HostRuntime) {
    let front =
        "client open_uni\nclient poll_opening 6\nclient write_all 6 6869\nclient finish 6\ndeliver server 0 0\ndeliver server 0 2\n";
    refuses_in_session(
        &rt,
        rt.alloc(),
        front,
        "deliver server 1 2\ndeliver server 2 0",
    );
}

/// Two unidirectional streams are opened, and a bidirectional one, which may come first.
#[test]
fn streams_of_a_kind_open_in_order(rt: HostRuntime) {
    let front = "client open_uni\nclient open_uni\nclient open_bi\n";
    refuses_in_session(&rt, rt.alloc(), front, "deliver server 1 0");
    refuses_in_session(
        &rt,
        rt.alloc(),
        "client open_uni\nclient open_uni\nclient open_bi\ndeliver server 2 0\n",
        "deliver server 1 0",
    );
}

/// A piece comes from its first byte to its last, and nothing else has bytes.
#[test]
fn a_delivery_has_as_many_bytes_as_it_may(rt: HostRuntime) {
    let front = "client open_uni\nclient poll_opening 6\nclient send_datagram 6869\n";
    refuses_in_session(
        &rt,
        rt.alloc(),
        front,
        "deliver server 0 1\ndeliver server 2 1\ndeliver server 2 3",
    );
    refuses_in_session(
        &rt,
        rt.alloc(),
        "client open_uni\nclient poll_opening 6\ndeliver server 0 0\n",
        "deliver server 0 0\ndeliver server 0 4",
    );
}

/// The end of a stream that comes behind the close isn't acknowledged: nothing waits for the server then.
#[test]
fn a_stale_end_is_not_acknowledged(rt: HostRuntime) {
    let front = "\
server open_uni
server poll_opening 7
server finish 7
server close 7 -
deliver client 3 0
deliver client 0 0
deliver client 0 3
deliver client 0 0
";
    refuses_in_session(
        &rt,
        rt.alloc(),
        front,
        "deliver server 0 0\ndeliver client 0 0",
    );
}

// ---- losses, calls, credit

#[test]
fn a_datagram_alone_is_lost(rt: HostRuntime) {
    let front = "client open_uni\nclient send_datagram 6869\n";
    refuses_in_session(
        &rt,
        rt.alloc(),
        front,
        "lose server 0\nlose server 2\nlose client 0",
    );
}

#[test]
fn a_call_is_lawful_where_it_is_made(rt: HostRuntime) {
    let alloc = rt.alloc();
    refuses(&rt, alloc, "pair 9 9 1000 1200\n", "server accept_uni");
    refuses(
        &rt,
        alloc,
        "pair 9 9 1000 1200\n",
        "server connect https://h v4:7f000001:443 proceed",
    );
    refuses(
        &rt,
        alloc,
        DIALLED,
        "client connect https://h v4:7f000001:443 proceed",
    );
    refuses_in_session(
        &rt,
        alloc,
        "",
        "client incoming\nclient handshake\nserver accept",
    );
}

/// Credit never falls, and no other turn of the transport gives any.
#[test]
fn more_credit_alone_is_given(rt: HostRuntime) {
    let lines =
        "credit client max_uni 8\ncredit server max_bi 8\ncredit client max_data 0 999\ncredit client peer_uni\ncredit client datagram_limit 9\ncredit server loss reset";
    refuses_in_session(&rt, rt.alloc(), "", lines);
    refuses(
        &rt,
        rt.alloc(),
        "pair 9 9 1000 1200\n",
        "credit server max_uni 10",
    );
}
