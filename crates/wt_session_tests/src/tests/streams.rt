//! Streams and datagrams of several sessions.
use super::script::runs;
use wt_wire::side::Side;

/// Two sessions of a server, on streams 0 and 4; little credit, and no stream of this end beside its control stream.
const TWO: &str = "
    connected 1 0 2 1200
    > done ; opened 3 ; send 3 0004
    max_data 3 25
    > done ; send 3 160100070008013301ab60374201c0000000c671706a04
    peer_uni
    bytes 2 000400
    peer_bi
    bytes 0 REQUEST
    peer_bi
    bytes 4 REQUEST
    max_data 0 100
    max_data 4 100
    incoming
    > request 0 FIELDS
    accept
    > session 0 ; send 0 OK
    incoming
    > request 4 FIELDS
    accept
    > session 4 ; send 4 OK
";

/// Openings without a stream or credit; each fails where its session is gone, or the peer stops its stream.
const OPENINGS: &str = "
    open_uni
    > pending
    open_bi 4
    > pending
    max_uni 3
    max_bi 1
    open_uni
    > opening 7 ; opened 7
    poll_opening 7
    > pending ; send 7 4054
    poll_opening 7
    > pending
    open_uni 4
    > opening 11 ; opened 11
    poll_opening 11
    > pending ; send 11 4054
    open_bi 4
    > opening 1 ; opened 1
    open_bi 4
    > pending
    max_data 7 4
    poll_opening 7
    > send_ready 7 ; send 7 00
    write 7 6869
    > written 1 ; send 7 68
    write 7 69
    > pending
    stop 1 6
    poll_opening 1
    > opening_failed refused
    end_session 4
    > done ; finish 4 ; stop 1 386759528 ; reset 1 386759528 ; reset 11 386759528
    max_data 11 9
    poll_opening 11
    > opening_failed not_connected
    open_uni 4
    > failed locally_closed
    max_data 7 9
    write 7 69
    > written 1 ; send 7 69
    finish 7
    > pending ; finish 7
    acked 7
    finish 7
    > finished
    ~
    max_uni 2
    open_uni
    > opening 7 ; opened 7
    loss timed_out
    poll_opening 7
    > opening_failed not_connected
    open_uni
    > failed timed_out
";

#[test]
fn openings_wait_for_streams_and_credit(rt: HostRuntime) {
    runs(&rt, rt.alloc(), Side::Server, TWO, OPENINGS);
}

/// Datagrams are of the session of which they name the quarter, and of none that is gone.
const DATAGRAMS: &str = "
    datagram 006f6e65
    datagram 0174776f
    datagram 01
    receive_datagram 4
    > datagram 74776f
    receive_datagram
    > datagram 6f6e65
    receive_datagram
    > pending
    receive_datagram 4
    > datagram -
    receive_datagram 4
    > pending
    send_datagram 6869 4
    > done ; datagram_out 016869
    send_datagram 6869
    > done ; datagram_out 006869
    max_datagram_size 4
    > size 1199
    datagram_limit 3
    send_datagram 686968
    > datagram_failed too_large
    max_datagram_size 4
    > size 2
    datagram 0174
    datagram 006f
    end_session 4
    > done ; finish 4
    receive_datagram 4
    > failed locally_closed
    send_datagram 68 4
    > datagram_failed not_connected
    datagram 0174
    receive_datagram
    > datagram 6f
    datagram_limit off
    send_datagram 68
    > datagram_failed disabled
    max_datagram_size
    > size none
    datagram_limit unsupported
    send_datagram 68
    > datagram_failed unsupported
    datagram 0274
    peer_bi
    bytes 8 REQUEST
    max_data 8 100
    incoming
    > request 8 FIELDS
    accept
    > session 8 ; send 8 OK
    receive_datagram 8
    > datagram 74
    ~
    datagram 40
    > done ; close 51 -
    receive_datagram
    > failed local_h3 51
";

#[test]
fn datagrams_go_by_session(rt: HostRuntime) {
    runs(&rt, rt.alloc(), Side::Server, TWO, DATAGRAMS);
}

/// A stream of a gone session is stopped where it waited or was handed out, and so is one that comes later; halves that were reset,
/// finished or given up aren't ended again.
const GONE: &str = "
    peer_uni
    bytes 6 4054046f6e65
    peer_uni
    bytes 10 405404
    peer_bi
    bytes 8 404104
    peer_bi
    bytes 12 404104
    peer_bi
    bytes 16 404104
    end 16
    accept_uni 4
    > uni 6
    accept_bi 4
    > bi 8
    stop_recv 8 6
    > done ; stop 8 6
    accept_bi 4
    > bi 12
    finish 12
    > pending ; finish 12
    bytes 4 000768430400000007
    > done ; reset 4 256 ; stop 6 386759528 ; reset 8 386759528 ; stop 10 386759528 ; stop 12 386759528 ; reset 16 386759528
    accept_uni 4
    > failed application_closed 7 -
    accept_bi 4
    > failed application_closed 7 -
    read 6 64
    > read 6f6e65
    read 6 64
    > pending
    write 8 68
    > write_failed closed
    reset_send 8 5
    > closed_stream
    acked 12
    finish 12
    > finished
    read 12 64
    > pending
    end 12
    read 12 64
    > end
    peer_uni
    bytes 14 405404
    > done ; stop 14 386759528
    peer_bi
    bytes 20 404104
    > done ; stop 20 386759528
    accept_bi 4
    > failed application_closed 7 -
    peer_uni
    bytes 18 405400
    accept_uni
    > uni 18
    ~
    peer_uni
    bytes 6 405408
    peer_bi
    bytes 8 REQUEST
    max_data 8 100
    incoming
    > request 8 FIELDS
    accept
    > session 8 ; send 8 OK
    accept_uni 8
    > uni 6
    ~
    peer_uni
    bytes 6 405401
    > done ; close 264 -
    accept_uni 4
    > failed local_h3 264
";

#[test]
fn streams_of_a_gone_session(rt: HostRuntime) {
    runs(&rt, rt.alloc(), Side::Server, TWO, GONE);
}
