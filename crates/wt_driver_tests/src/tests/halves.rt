//! The halves of streams.
use super::harness::{Run, runs, session_runs};
use std::alloc::Global;
use std::process::Abort;
use wt_wire::side::Side;

/// A server with a session, and credit for 25 bytes a stream.
const NARROW: &str = "
    connected 9 9 25 1200
    > done ; opened 3 ; send 3 0004160100070008013301ab60374201c0000000c671706a04
    peer_uni
    bytes 2 000400
    peer_bi
    bytes 0 REQUEST
    incoming
    > id 0
    accept
    > session 0 ; send 0 010f000027003a73746174757303323030
";

#[test]
fn a_sending_half_is_written_as_far_as_credit_goes(rt: HostRuntime) {
    let script = "
        open_uni
        > opening 7 ; opened 7
        poll
        > send_ready 7 ; send 7 405400
        write_all 7 6161616161616161616161616161616161616161
        > all_written ; send 7 6161616161616161616161616161616161616161
        write 7 6162636465
        > written 2 ; send 7 6162
        write 7 636465
        > pending
        write 7 -
        > written 0
        max_data 7 28
        write 7 636465
        > written 3 ; send 7 636465
        write_all 7 61
        > count 0
        finish 7
        > pending ; finish 7
        write 7 61
        > write_failed closed
        acked 7
        finish 7
        > finished
        reset_send 7 1
        > closed_stream
        priority 7
        > closed_stream
    ";
    runs(&rt, rt.alloc(), Side::Server, NARROW, script);
}

#[test]
fn both_halves_of_a_stream(rt: HostRuntime) {
    let script = "
        peer_bi
        bytes 4 210040410061626364
        accept_bi
        > bi 4
        read_exact 4 6
        > pending
        read_exact 4 2
        > exact 6162
        end 4
        # The buffer has three bytes.
        read_exact 4 3
        > exact_failed finished_early 2 636400
        read 4 9
        > end
        stop_recv 4 5
        > done ; stop 4 5
        write 4 61
        > written 1 ; send 4 61
    ";
    session_runs(&rt, rt.alloc(), script);
}

#[test]
fn a_datagram_is_sent_by_what_was_reported_last(rt: HostRuntime) {
    let script = "
        datagram_limit 3
        send_datagram 6869
        > done ; datagram_out 006869
        send_datagram 616263
        > datagram_failed too_large
        datagram_limit off
        send_datagram -
        > datagram_failed disabled
    ";
    session_runs(&rt, rt.alloc(), script);
}

/// The turns and calls of a session with a bidirectional stream.
const LINES: &str = "connected 9 9 1000 1200
peer_uni
bytes 2 000400
peer_bi
bytes 0 REQUEST
incoming
accept
peer_bi
bytes 4 210040410061626364
accept_bi
read_exact 4 6
read_exact 4 2
end 4
read_exact 4 3
read 4 9
stop_recv 4 5
write 4 61";

/// The application closes the connection before this line; what the transport reports later changes nothing.
fn close_before(rt: &impl Abort, alloc: Global, place: usize, is_whole: bool) {
    let mut run = Run::new(rt, alloc, Side::Server, is_whole);
    for (index, line) in LINES.lines().enumerate() {
        if index == place {
            run.take_lines(rt, "close 5 -\n> done ; close 5 -");
        }
        if index < place {
            run.take_any(rt, line);
        } else {
            run.take_events(rt, line);
        }
    }
    run.take_lines(rt, "is_open\n> pending");
}

#[test]
fn a_close_may_come_before_each_line(rt: HostRuntime) {
    for place in 1..17 {
        close_before(&rt, rt.alloc(), place, true);
        close_before(&rt, rt.alloc(), place, false);
    }
}
