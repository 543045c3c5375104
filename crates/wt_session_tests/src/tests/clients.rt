//! A client's connect, poll after poll.
use super::script::runs;
use wt_wire::side::Side;

/// Each of its waits: for the connection, for the peer's SETTINGS, for a stream, for credit, for the response.
const WAITS: &str = "
    connect https://h/ v4:7f000001:443 proceed
    > pending ; dial v4:7f000001:443 68
    handshake
    > pending
    handshake
    > pending
    connected 9 0 20 1200
    > done ; opened 2 ; send 2 0004160100070008013301ab60374201c0000000
    handshake
    > pending
    max_data 2 25
    > done ; send 2 c671706a04
    peer_uni
    bytes 3 0004
    handshake
    > pending
    bytes 3 00
    handshake
    > pending
    handshake
    > pending
    max_bi 2
    handshake
    > pending ; opened 0 ; send 0 014050000027033a617574686f72697479016827
    handshake
    > pending
    max_data 0 80
    handshake
    > pending ; send 0 003a6d6574686f6407434f4e4e454354253a70617468012f27023a7072\
    6f746f636f6c0c7765627472616e73706f727427003a736368656d65056874
    handshake
    > pending
    max_data 0 90
    handshake
    > pending ; send 0 747073
    handshake
    > pending
";

const RESPONSES: &str = "
    bytes 0 010f000027003a737461
    handshake
    > pending
    bytes 0 74757303323030
    handshake
    > session 0
    open_bi
    > opening 4 ; opened 4
    poll_opening 4
    > bi_ready 4 ; send 4 404100
    peer_uni
    bytes 7 4054006869
    accept_uni
    > uni 7
    read 7 64
    > read 6869
    end_session
    > done ; finish 0 ; stop 4 386759528 ; reset 4 386759528 ; stop 7 386759528
    accept_uni
    > failed locally_closed
    closed
    > pending
    ~
    bytes 0 010f000027003a73746174757303343034
    handshake
    > connect_failed session_rejected ; close 0 -
    ~
    end 0
    handshake
    > connect_failed connection locally_closed ; close 0 -
    ~
    bytes 0 0000
    handshake
    > connect_failed connection local_h3 261 ; close 261 -
    ~
    loss timed_out
    handshake
    > connect_failed connection timed_out
    ~
    bytes 0 OK000a68430700000007627965
    handshake
    > session 0 ; reset 0 256
    accept_uni
    > failed application_closed 7 627965
    open_uni
    > failed application_closed 7 627965
";

#[test]
fn a_connect_waits_for_each_step(rt: HostRuntime) {
    runs(&rt, rt.alloc(), Side::Client, WAITS, RESPONSES);
}

/// The request for https://h:4433/p?q with two fields more, of which one was set twice.
const WITH_FIELDS: &str = "
    connect https://h:4433/p?q v4:7f000001:4433 proceed 62=32 61=31 62=33
    > pending ; dial v4:7f000001:4433 68
    connected 9 9 1000 1200
    > done ; opened 2 ; send 2 SETTINGS
    peer_uni
    bytes 3 000400
    handshake
    > pending ; opened 0 ; send 0 0140600000\
    27033a617574686f7269747906683a34343333\
    27003a6d6574686f6407434f4e4e454354\
    253a70617468042f703f71\
    27023a70726f746f636f6c0c7765627472616e73706f7274\
    27003a736368656d65056874747073\
    2161013121620133
";

#[test]
fn a_request_has_the_fields_of_its_connect(rt: HostRuntime) {
    runs(&rt, rt.alloc(), Side::Client, "", WITH_FIELDS);
}

/// The connection ends in each of its waits, or its request can't be sent.
const LOST: &str = "
    connect http://h/ v4:7f000001:443 proceed
    > connect_failed invalid_url scheme
    ~
    connect https://h/ none proceed
    > connect_failed dns_not_found
    ~
    connect https://h/ v4:7f000001:443 proceed
    > pending ; dial v4:7f000001:443 68
    handshake
    > pending
    loss timed_out
    handshake
    > connect_failed connection timed_out
    ~
    connect https://h/ v4:7f000001:443 proceed 3a70617468=2f
    > pending ; dial v4:7f000001:443 68
    connected 9 9 1000 1200
    > done ; opened 2 ; send 2 SETTINGS
    handshake
    > pending
    peer_uni
    bytes 3 000400
    handshake
    > connect_failed reserved_header 3a70617468 ; close 0 -
    ~
    connect https://h/ v4:7f000001:443 proceed
    > pending ; dial v4:7f000001:443 68
    connected 9 0 30 1200
    > done ; opened 2 ; send 2 SETTINGS
    peer_uni
    bytes 3 000000
    > done ; close 261 -
    handshake
    > connect_failed connection local_h3 261
    ~
    connect https://h/ v4:7f000001:443 proceed
    > pending ; dial v4:7f000001:443 68
    connected 9 0 30 1200
    > done ; opened 2 ; send 2 SETTINGS
    peer_uni
    bytes 3 000400
    handshake
    > pending
    loss application 9 6f6e
    handshake
    > connect_failed connection application_closed 9 6f6e
    ~
    connect https://h/ v4:7f000001:443 proceed
    > pending ; dial v4:7f000001:443 68
    connected 9 9 30 1200
    > done ; opened 2 ; send 2 SETTINGS
    peer_uni
    bytes 3 000400
    handshake
    > pending ; opened 0 ; send 0 014050000027033a617574686f726974790168\
    27003a6d6574686f640743
    stop 0 5
    handshake
    > connect_failed session_rejected ; close 0 -
    ~
    connect https://h/ v4:7f000001:443 proceed
    > pending ; dial v4:7f000001:443 68
    connected 9 9 30 1200
    > done ; opened 2 ; send 2 SETTINGS
    peer_uni
    bytes 3 000400
    handshake
    > pending ; opened 0 ; send 0 014050000027033a617574686f726974790168\
    27003a6d6574686f640743
    loss reset
    handshake
    > connect_failed connection quic_proto none \
    636f6e6e656374696f6e20686173206265656e207265736574
";

#[test]
fn a_connect_fails_in_each_wait(rt: HostRuntime) {
    runs(&rt, rt.alloc(), Side::Client, "", LOST);
}
