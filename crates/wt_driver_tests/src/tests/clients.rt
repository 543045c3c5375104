//! A client's session.
use super::harness::runs;
use wt_wire::side::Side;

/// A client asks for its session. The request is that of the harness.
const ASKED: &str = "
    dial
    > done ; dial v4:7f000001:443 68
    connected 1 1 1000 1200
    > done ; opened 2 ; send 2 0004160100070008013301ab60374201c0000000c671706a04
    handshake
    > pending
    peer_uni
    bytes 3 000400
    settings_came
    ask
    > opening 0 ; opened 0
    write_request
    > all_written ; send 0 REQUEST
";

/// A client has credit for 50 bytes of its request, of 83.
const NARROW: &str = "
    dial
    > done ; dial v4:7f000001:443 68
    connected 1 1 50 1200
    > done ; opened 2 ; send 2 0004160100070008013301ab60374201c0000000c671706a04
    ask
    > opening 0 ; opened 0
    write_request
    > pending ; send 0 014050000027033a617574686f72697479016827003a6d6574686f6407434f4e4e454354253a70617468012f27023a70726f
";

#[test]
fn a_response_is_reported(rt: HostRuntime) {
    let cases = "
        # HEADERS with the status 200, but for the last byte; then that byte, and an empty DATA frame.
        bytes 0 010f000027003a737461747573033230
        handshake
        > pending
        bytes 0 30
        bytes 0 0000
        handshake
        > count 17
        handshake
        > count 17
        unread 0
        > count 2
        begin
        > session 0
        unread 0
        > count 0
        living
        > count 1
        ~
        # The status 404 is no session; who asked decides what follows.
        bytes 0 010f000027003a73746174757303343034
        handshake
        > count 17
        living
        > count 0
        ~
        # The status abc.
        bytes 0 010f000027003a73746174757303616263
        handshake
        > failed local_h3 270
        is_open
        ~
        end 0
        handshake
        > rejected
        ~
        reset 0 3
        handshake
        > rejected
    ";
    runs(&rt, rt.alloc(), Side::Client, ASKED, cases);
}

#[test]
fn a_request_goes_out_as_far_as_credit_goes(rt: HostRuntime) {
    let cases = "
        stop 0 7
        write_request
        > rejected
        is_open
        ~
        max_data 0 83
        write_request
        > all_written ; send 0 746f636f6c0c7765627472616e73706f727427003a736368656d65056874747073
    ";
    runs(&rt, rt.alloc(), Side::Client, NARROW, cases);
}
