//! A server's sessions one after another, and the requests that it refuses.
use super::script::runs;
use wt_wire::side::Side;

/// A server sent its SETTINGS, and has those of its peer.
const SERVER: &str = "
    connected 9 9 1000 1200
    > done ; opened 3 ; send 3 SETTINGS
    peer_uni
    bytes 2 000400
";

/// The session of stream 0 has a stream of the peer and the one of stream 4 both kinds; the application ends the second, the peer the
/// first by a capsule, and a third one comes and ends by the end of its stream.
const SESSIONS: &str = "
    incoming
    > pending
    peer_bi
    bytes 0 REQUEST
    incoming
    > request 0 FIELDS
    accept
    > session 0 ; send 0 OK
    incoming
    > pending
    peer_bi
    bytes 4 REQUEST
    incoming
    > request 4 FIELDS
    accept
    > session 4 ; send 4 OK
    peer_uni
    bytes 6 40540474776f
    peer_uni
    bytes 10 4054006f6e65
    peer_bi
    bytes 8 4041046269
    accept_uni
    > uni 10
    accept_uni
    > pending
    accept_bi
    > pending
    accept_bi 4
    > bi 8
    accept_uni 4
    > uni 6
    read 6 64
    > read 74776f
    read 8 64
    > read 6269
    write 8 6869
    > written 2 ; send 8 6869
    end_session 4
    > done ; finish 4 ; stop 6 386759528 ; stop 8 386759528 ; reset 8 386759528
    accept_uni 4
    > failed locally_closed
    end_session 4
    write 8 6869
    > write_failed closed
    read 10 64
    > read 6f6e65
    accept_uni
    > pending
    bytes 0 000a684307000000076279
    accept_uni
    > pending
    bytes 0 65
    > done ; reset 0 256 ; stop 10 386759528
    accept_uni
    > failed application_closed 7 627965
    end_session
    accept_uni 4
    > failed locally_closed
    closed
    > pending
    peer_bi
    bytes 12 REQUEST
    incoming
    > request 12 FIELDS
    accept 78=61
    > session 12 ; send 12 0113000027003a73746174757303323030217801\
    61
    open_bi 12
    > opening 1 ; opened 1
    poll_opening 1
    > bi_ready 1 ; send 1 40410c
    end 12
    > done ; finish 12 ; stop 1 386759528 ; reset 1 386759528
    accept_uni 12
    > failed application_closed 0 -
    closed
    > pending
    incoming
    > pending
";

#[test]
fn sessions_come_one_after_another(rt: HostRuntime) {
    runs(&rt, rt.alloc(), Side::Server, SERVER, SESSIONS);
}

/// Without a session a rejection closes with code 0 once the peer has it, or stopped it; beside a session it doesn't close, and the
/// next request is given; a session that is gone doesn't count; what waits for a rejected session is stopped.
const REJECTIONS: &str = "
    peer_bi
    bytes 0 REQUEST
    incoming
    > request 0 FIELDS
    not_found
    > pending ; send 0 010f000027003a73746174757303343034 ; finish 0
    handshake
    > pending
    acked 0
    handshake
    > rejected ; close 0 -
    incoming
    > failed locally_closed
    ~
    peer_bi
    bytes 0 REQUEST
    incoming
    > request 0 FIELDS
    too_many_requests
    > pending ; send 0 010f000027003a73746174757303343239 ; finish 0
    stop 0 5
    handshake
    > rejected ; close 0 -
    ~
    peer_bi
    bytes 0 REQUEST
    incoming
    > request 0 FIELDS
    accept
    > session 0 ; send 0 OK
    peer_bi
    bytes 4 REQUEST
    peer_uni
    bytes 6 405404
    peer_uni
    bytes 10 405400
    incoming
    > request 4 FIELDS
    forbidden
    > pending ; send 4 010f000027003a73746174757303343033 ; finish 4
    handshake
    > pending
    accept_uni
    > uni 10
    acked 4
    handshake
    > rejected ; stop 6 386759528
    closed
    > pending
    accept_uni
    > pending
    peer_bi
    bytes 8 REQUEST
    incoming
    > request 8 FIELDS
    end_session
    > done ; finish 0 ; stop 10 386759528
    forbidden
    > pending ; send 8 010f000027003a73746174757303343033 ; finish 8
    acked 8
    handshake
    > rejected ; close 0 -
    closed
    > closed locally_closed
    ~
    peer_bi
    bytes 0 REQUEST
    incoming
    > request 0 FIELDS
    forbidden
    > pending ; send 0 010f000027003a73746174757303343033 ; finish 0
    loss timed_out
    handshake
    > rejected
    incoming
    > failed timed_out
";

#[test]
fn a_rejection_closes_where_no_session_lives(rt: HostRuntime) {
    runs(&rt, rt.alloc(), Side::Server, SERVER, REJECTIONS);
}

/// Four requests are held at once, answered or not. A fifth is refused, and once one of them is gone another is taken.
const FIFTH: &str = "
    peer_bi
    bytes 0 REQUEST
    peer_bi
    bytes 4 REQUEST
    peer_bi
    bytes 8 REQUEST
    incoming
    > request 0 FIELDS
    accept
    > session 0 ; send 0 OK
    incoming
    > request 4 FIELDS
    accept
    > session 4 ; send 4 OK
    peer_bi
    bytes 12 REQUEST
    peer_bi
    bytes 16 REQUEST
    > done ; stop 16 267
    incoming
    > request 8 FIELDS
    accept
    > session 8 ; send 8 OK
    incoming
    > request 12 FIELDS
    accept
    > session 12 ; send 12 OK
    incoming
    > pending
    peer_bi
    bytes 20 REQUEST
    > done ; stop 20 267
    incoming
    > pending
    end_session 8
    > done ; finish 8
    peer_bi
    bytes 24 REQUEST
    incoming
    > request 24 FIELDS
    accept
    > session 24 ; send 24 OK
    closed
    > pending
";

#[test]
fn a_fifth_request_is_refused(rt: HostRuntime) {
    runs(&rt, rt.alloc(), Side::Server, SERVER, FIFTH);
}

/// The response goes out as credit lets it, poll after poll.
const RESPONSES: &str = "
    connected 9 9 10 1200
    > done ; opened 3 ; send 3 00041601000700080133
    max_data 3 25
    > done ; send 3 01ab60374201c0000000c671706a04
    peer_uni
    bytes 2 000400
    peer_bi
    bytes 0 REQUEST
    incoming
    > request 0 FIELDS
";

const WRITTEN: &str = "
    accept
    > pending ; send 0 010f000027003a737461
    handshake
    > pending
    max_data 0 14
    handshake
    > pending ; send 0 74757303
    max_data 0 17
    handshake
    > session 0 ; send 0 323030
    ~
    not_found
    > pending ; send 0 010f000027003a737461
    handshake
    > pending
    max_data 0 17
    handshake
    > pending ; send 0 74757303343034 ; finish 0
    handshake
    > pending
    acked 0
    handshake
    > rejected ; close 0 -
    ~
    accept
    > pending ; send 0 010f000027003a737461
    stop 0 7
    handshake
    > failed local_h3 260 ; close 260 -
    incoming
    > failed locally_closed
    ~
    forbidden
    > pending ; send 0 010f000027003a737461
    stop 0 7
    handshake
    > rejected ; close 260 -
    ~
    accept
    > pending ; send 0 010f000027003a737461
    loss application 9 -
    handshake
    > failed application_closed 9 -
    ~
    forbidden
    > pending ; send 0 010f000027003a737461
    loss reset
    handshake
    > rejected
";

#[test]
fn a_response_goes_out_as_credit_lets_it(rt: HostRuntime) {
    runs(&rt, rt.alloc(), Side::Server, RESPONSES, WRITTEN);
}
