//! What waits for a session.
use super::harness::{Run, SESSION, server_runs, session_runs};
use std::alloc::Global;
use std::process::Abort;
use wt_wire::side::Side;

#[test]
fn streams_of_no_session_wait_apart(rt: HostRuntime) {
    let script = "
        # A stream of session 4.
        peer_uni
        bytes 6 40540461
        # A stream of session 0.
        peer_uni
        bytes 10 40540062
        accept_uni
        > uni 10
        read 10 9
        > read 62
        accept_uni
        > pending
        unread 6
        > count 1
    ";
    session_runs(&rt, rt.alloc(), script);
}

#[test]
fn a_stream_is_read_to_its_end(rt: HostRuntime) {
    let script = "
        peer_uni
        bytes 6 4054006869
        accept_uni
        > uni 6
        read 6 16
        > read 6869
        read 6 16
        > pending
        end 6
        read 6 16
        > end
    ";
    session_runs(&rt, rt.alloc(), script);
}

#[test]
fn what_comes_early_waits_for_its_session(rt: HostRuntime) {
    let script = "
        peer_uni
        bytes 2 000400
        # Streams and a datagram of session 0, which begins later.
        peer_uni
        bytes 6 40540061
        peer_uni
        bytes 10 40540062
        datagram 0063
        peer_bi
        bytes 0 REQUEST
        incoming
        > id 0
        accept
        > session 0 ; send 0 010f000027003a73746174757303323030
        accept_uni
        > uni 6
        accept_uni
        > uni 10
        receive_datagram
        > datagram 63
        receive_datagram
        > pending
    ";
    server_runs(&rt, rt.alloc(), script);
}

#[test]
fn datagrams_come_in_order(rt: HostRuntime) {
    let script = "
        # One of session 4, one of session 0, and one with a quarter id that is cut.
        datagram 0161
        datagram 006869
        datagram 40
        > done ; close 51 -
        receive_datagram
        > datagram 6869
        receive_datagram
        > failed local_h3 51
    ";
    session_runs(&rt, rt.alloc(), script);
}

#[test]
fn a_window_holds_sixteen_datagrams(rt: HostRuntime) {
    let script = "
        # The last finds no room, and is dropped.
        datagram 0000
        datagram 0001
        datagram 0002
        datagram 0003
        datagram 0004
        datagram 0005
        datagram 0006
        datagram 0007
        datagram 0008
        datagram 0009
        datagram 000a
        datagram 000b
        datagram 000c
        datagram 000d
        datagram 000e
        datagram 000f
        datagram 0010
        receive_datagram
        > datagram 00
        receive_datagram
        > datagram 01
        receive_datagram
        > datagram 02
        receive_datagram
        > datagram 03
        receive_datagram
        > datagram 04
        receive_datagram
        > datagram 05
        receive_datagram
        > datagram 06
        receive_datagram
        > datagram 07
        receive_datagram
        > datagram 08
        receive_datagram
        > datagram 09
        receive_datagram
        > datagram 0a
        receive_datagram
        > datagram 0b
        receive_datagram
        > datagram 0c
        receive_datagram
        > datagram 0d
        receive_datagram
        > datagram 0e
        receive_datagram
        > datagram 0f
        receive_datagram
        > pending
        datagram 00ff
        receive_datagram
        > datagram ff
    ";
    session_runs(&rt, rt.alloc(), script);
}

/// The streams 6 to 66 of session 0 wait.
fn full_window(rt: &impl Abort, alloc: Global, run: &mut Run) {
    for index in 1..17u32 {
        let id = 4 * index + 2;
        let lines = format!(in alloc; "peer_uni\nbytes {id} 405400");
        run.take_lines(rt, lines.expect(rt, "no memory").as_str());
    }
}

/// The seventeenth finds no room, and one more comes after a stream was given.
fn window_runs(rt: &impl Abort, alloc: Global, is_whole: bool) {
    let mut run = Run::new(rt, alloc, Side::Server, is_whole);
    run.take_lines(rt, SESSION);
    full_window(rt, alloc, &mut run);
    let lines = "
        peer_uni
        bytes 70 405400
        > done ; stop 70 966049156
        accept_uni
        > uni 6
        peer_uni
        bytes 74 405400
    ";
    run.take_lines(rt, lines);
}

#[test]
fn a_window_holds_sixteen_streams(rt: HostRuntime) {
    window_runs(&rt, rt.alloc(), true);
    window_runs(&rt, rt.alloc(), false);
}
