//! Several sessions of a server.
use super::harness::{runs, server_runs, session_runs};
use wt_wire::side::Side;

/// A server with the sessions 0 and 4.
const TWO: &str = "
    connected 9 9 1000 1200
    > done ; opened 3 ; send 3 0004160100070008013301ab60374201c0000000c671706a04
    peer_uni
    bytes 2 000400
    peer_bi
    bytes 0 REQUEST
    peer_bi
    bytes 4 REQUEST
    incoming
    > id 0
    accept
    > session 0 ; send 0 010f000027003a73746174757303323030
    incoming
    > id 4
    accept
    > session 4 ; send 4 010f000027003a73746174757303323030
";

#[test]
fn four_requests_are_queued(rt: HostRuntime) {
    let script = "
        peer_uni
        bytes 2 000400
        peer_bi
        bytes 0 REQUEST
        peer_bi
        bytes 4 REQUEST
        peer_bi
        bytes 8 REQUEST
        peer_bi
        bytes 12 REQUEST
        peer_bi
        bytes 16 REQUEST
        > done ; stop 16 267
        incoming
        > id 0
        accept
        > session 0 ; send 0 010f000027003a73746174757303323030
        incoming
        > id 4
        accept
        > session 4 ; send 4 010f000027003a73746174757303323030
        living
        > count 2
    ";
    server_runs(&rt, rt.alloc(), script);
}

#[test]
fn the_end_of_its_stream_ends_a_session(rt: HostRuntime) {
    let script = "
        end 0
        > done ; finish 0
        accept_uni
        > failed application_closed 0 -
        closed
        > pending
        living
        > count 0
        is_gone 0
    ";
    session_runs(&rt, rt.alloc(), script);
}

#[test]
fn each_session_has_its_own_end(rt: HostRuntime) {
    let script = "
        peer_uni
        bytes 6 40540061
        peer_uni
        bytes 10 40540462
        accept_uni 4
        > uni 10
        accept_uni
        > uni 6
        end 4
        > done ; finish 4 ; stop 10 386759528
        is_gone 4
        living
        > count 1
        accept_uni 4
        > failed application_closed 0 -
        # What was handed out is read on.
        read 10 9
        > read 62
        # A stream of the session that is gone.
        peer_uni
        bytes 14 405404
        > done ; stop 14 386759528
        accept_uni
        > pending
        end_session
        > done ; finish 0 ; stop 6 386759528
        accept_uni
        > failed locally_closed
        is_gone 0
        closed
        > pending
    ";
    runs(&rt, rt.alloc(), Side::Server, TWO, script);
}

#[test]
fn a_refused_request_makes_room(rt: HostRuntime) {
    let script = "
        peer_uni
        bytes 2 000400
        peer_bi
        bytes 0 REQUEST
        # A stream of session 0, which is refused.
        peer_uni
        bytes 6 40540061
        incoming
        > id 0
        forbidden
        > rejected ; send 0 010f000027003a73746174757303343033 ; stop 6 386759528
        living
        > count 0
        # Its id is gone.
        peer_uni
        bytes 10 405400
        > done ; stop 10 386759528
        peer_bi
        bytes 4 REQUEST
        peer_bi
        bytes 8 REQUEST
        peer_bi
        bytes 12 REQUEST
        peer_bi
        bytes 16 REQUEST
        is_open
    ";
    server_runs(&rt, rt.alloc(), script);
}

#[test]
fn a_session_is_registered_once(rt: HostRuntime) {
    let script = "
        register 0
        > session 0
        living
        > count 1
        end_session 0
        > done ; finish 0
        # It is gone for good; and its end is no second one.
        register 0
        > session 0
        end_session 0
        living
        > count 0
        # No request of this id was given.
        refuse 4
        is_gone 4
        > pending
    ";
    session_runs(&rt, rt.alloc(), script);
}
