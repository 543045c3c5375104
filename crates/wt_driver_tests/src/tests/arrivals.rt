//! What the peer's streams may carry, and what closes the connection.
use super::harness::{runs, server_runs, session_runs};
use wt_wire::side::Side;

#[test]
fn nothing_is_read_before_settings_are_out(rt: HostRuntime) {
    let script = "
        # Credit for all of the control stream's head but its last byte.
        connected 3 1 24 1200
        > done ; opened 3 ; send 3 0004160100070008013301ab60374201c0000000c671706a
        # A control stream with a DATA frame.
        peer_uni
        bytes 2 000000
        is_open
        max_data 3 25
        > done ; send 3 04 ; close 261 -
    ";
    runs(&rt, rt.alloc(), Side::Server, "", script);
}

#[test]
fn a_second_control_stream_is_a_fault(rt: HostRuntime) {
    let script = "
        peer_uni
        bytes 6 00
        > done ; close 259 -
        accept_uni
        > failed local_h3 259
        open_uni
        > failed locally_closed
    ";
    session_runs(&rt, rt.alloc(), script);
}

#[test]
fn what_a_control_stream_carries(rt: HostRuntime) {
    let cases = "
        # An exercise frame before SETTINGS.
        peer_uni
        bytes 2 002100
        > done ; close 266 -
        ~
        # A frame of another type is skipped, with its payload; then SETTINGS.
        peer_uni
        bytes 2 00070501020304050400
        settings_came
        accept_settings
        accept_settings
        > pending
        ~
        # A pair that is cut.
        peer_uni
        bytes 2 00040101
        > done ; close 262 -
        ~
        # The setting 2, which HTTP/3 reserves.
        peer_uni
        bytes 2 0004020200
        > done ; close 265 -
        ~
        # A setting that stands twice.
        peer_uni
        bytes 2 00040401000100
        > done ; close 265 -
        ~
        # SETTINGS of 4,097 bytes.
        peer_uni
        bytes 2 00045001
        > done ; close 263 -
        accept_settings
        > failed local_h3 263
        ~
        # A stream of session 1, which is no id of a session.
        peer_uni
        bytes 2 405401
        > done ; close 264 -
    ";
    server_runs(&rt, rt.alloc(), cases);
}

#[test]
fn what_a_request_stream_carries(rt: HostRuntime) {
    let cases = "
        # DATA.
        peer_bi
        bytes 0 0000
        > done ; close 261 -
        ~
        # HEADERS with a line that names a field of the table.
        peer_bi
        bytes 0 01030000c1
        > done ; close 512 -
        ~
        # HEADERS with the method GET.
        peer_bi
        bytes 0 010f000027003a6d6574686f6403474554
        > done ; stop 0 267
        is_open
        ~
        # HEADERS without a field.
        peer_bi
        bytes 0 01020000
        > done ; stop 0 270
        is_open
    ";
    server_runs(&rt, rt.alloc(), cases);
}

#[test]
fn a_critical_stream_must_not_end(rt: HostRuntime) {
    let cases = "
        # The control stream, after its SETTINGS.
        peer_uni
        bytes 2 000400
        end 2
        > done ; close 260 -
        ~
        # The encoder's stream, of whose bytes none is kept.
        peer_uni
        bytes 2 02aabb
        unread 2
        > count 0
        bytes 2 cc
        unread 2
        > count 0
        reset 2 1
        > done ; close 260 -
        ~
        # The decoder's stream.
        peer_uni
        bytes 2 03aa
        unread 2
        > count 0
        end 2
        > done ; close 260 -
        ~
        # A stream that ends inside its type is none of these.
        peer_uni
        bytes 2 40
        end 2
        is_open
        ~
        # This end's control stream.
        stop 3 1
        > done ; close 260 -
    ";
    server_runs(&rt, rt.alloc(), cases);
}

#[test]
fn a_slot_is_freed_within_a_piece(rt: HostRuntime) {
    let cases = "
        peer_uni
        peer_uni
        peer_uni
        peer_uni
        peer_uni
        # Three streams of session 0.
        bytes 2 405400
        bytes 6 405400
        bytes 10 405400
        # The fifth is a control stream.
        bytes 18 00
        # The fourth is one too, which the first byte says: it is the second one.
        bytes 14 000000
        > done ; close 259 -
        ~
        # The fifth waits behind four headers, until the first byte of the fourth settles that.
        peer_uni
        peer_uni
        peer_uni
        peer_uni
        peer_uni
        bytes 18 00
        bytes 14 000000
        > done ; close 259 -
    ";
    server_runs(&rt, rt.alloc(), cases);
}

#[test]
fn a_fifth_header_waits_for_a_slot(rt: HostRuntime) {
    let script = "
        peer_uni
        peer_uni
        peer_uni
        peer_uni
        peer_uni
        # SETTINGS on the fifth stream, behind four headers without a byte.
        bytes 18 000400
        readers
        > count 4
        peer_bi
        bytes 0 REQUEST
        settings_came
        > pending
        has_request
        # The first turns out to be of a type that is left aside, and the fifth is read.
        bytes 2 21
        settings_came
        incoming
        > id 0
    ";
    server_runs(&rt, rt.alloc(), script);
}
