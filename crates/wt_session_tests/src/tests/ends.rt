//! The end of a connection, as each value that the application has then sees it.
use super::script::runs;
use wt_wire::side::Side;

/// The application has two sessions, both halves of stream 8, a stream that is being opened, a finished half, and a request.
const ALL: &str = "
    connected 9 9 1000 1200
    > done ; opened 3 ; send 3 SETTINGS
    peer_uni
    bytes 2 000400
    peer_bi
    bytes 0 REQUEST
    peer_bi
    bytes 4 REQUEST
    incoming
    > request 0 FIELDS
    accept
    > session 0 ; send 0 OK
    incoming
    > request 4 FIELDS
    accept
    > session 4 ; send 4 OK
    peer_bi
    bytes 8 4041046869
    accept_bi 4
    > bi 8
    open_uni
    > opening 7 ; opened 7
    open_uni
    > opening 11 ; opened 11
    poll_opening 11
    > send_ready 11 ; send 11 405400
    finish 11
    > pending ; finish 11
    end_session 4
    > done ; finish 4 ; stop 8 386759528 ; reset 8 386759528
    peer_bi
    bytes 12 REQUEST
    peer_uni
    bytes 6 405400
    datagram 0061
    incoming
    > request 12 FIELDS
";

/// A session that this end ended stays locally closed, however the connection ends; what waits is given before the end is told.
const ENDS: &str = "
    loss application 9 627965
    closed
    > closed application_closed 9 627965
    accept_uni 4
    > failed locally_closed
    accept_uni
    > uni 6
    accept_uni
    > failed application_closed 9 627965
    receive_datagram
    > datagram 61
    receive_datagram
    > failed application_closed 9 627965
    open_bi
    > failed application_closed 9 627965
    open_bi 4
    > failed locally_closed
    send_datagram 61
    > datagram_failed not_connected
    poll_opening 7
    > opening_failed not_connected
    finish 11
    > write_failed not_connected
    read 8 64
    > read 6869
    read 8 64
    > read_failed not_connected
    write 8 68
    > write_failed not_connected
    read 6 64
    > read_failed not_connected
    end_session
    close 1 -
    accept
    > failed application_closed 9 627965
    incoming
    > failed application_closed 9 627965
    ~
    close 3 6f6e
    > done ; close 3 6f6e
    closed
    > closed locally_closed
    accept_uni
    > uni 6
    accept_uni
    > failed locally_closed
    accept
    > failed locally_closed
    incoming
    > failed locally_closed
    poll_opening 7
    > opening_failed not_connected
    close 3 6f6e
    ~
    peer_uni
    bytes 10 00
    > done ; close 259 -
    closed
    > closed locally_closed
    accept_bi
    > failed local_h3 259
    accept_bi 4
    > failed locally_closed
    forbidden
    > rejected
    incoming
    > failed local_h3 259
    ~
    end 2
    > done ; close 260 -
    receive_datagram
    > datagram 61
    receive_datagram
    > failed local_h3 260
    open_uni
    > failed locally_closed
    accept
    > failed locally_closed
    ~
    loss transport 5 6f6e
    closed
    > closed quic_proto 5 6f6e
    accept_bi
    > failed quic_proto 5 6f6e
    accept
    > failed quic_proto 5 6f6e
";

#[test]
fn the_end_of_the_connection(rt: HostRuntime) {
    runs(&rt, rt.alloc(), Side::Server, ALL, ENDS);
}
