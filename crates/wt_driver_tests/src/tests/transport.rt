//! The transport by itself, and the halves of its streams.
use super::drivers::stream;
use super::transport_rows::{plays, repeats, server};
use std::alloc::Global;
use std::process::Abort;
use wt_transport::Transport;
use wt_turn::piece::Piece;
use wt_wire::addr::Addr;
use wt_wire::ids::StreamId;
use wt_wire::side::Side;
use wt_wire::text::Text;

fn send(rt: &impl Abort, transport: &mut Transport, id: StreamId, bytes: &[u8]) -> usize {
    let may_send = transport.may_send(id);
    assert!(rt; may_send);
    transport.send(id, bytes).expect(rt, "no memory")
}

/// Consumes `count` bytes, and returns how many are unread then.
fn consume(rt: &impl Abort, transport: &mut Transport, id: StreamId, count: usize) -> u64 {
    let unread = transport.unread(id);
    assert!(rt; count as u64 <= unread);
    transport.consume(id, count);
    transport.unread(id)
}

fn give_up(transport: &mut Transport, id: StreamId) {
    transport.give_up(id);
}

fn dial(rt: &impl Abort, alloc: Global, transport: &mut Transport) {
    let address = Addr::V4 {
        ip: 0x7f00_0001,
        port: 443,
    };
    let name = Text::from_text(alloc, "h").expect(rt, "no memory");
    let is_open = transport.is_open();
    assert!(rt; is_open);
    transport.dial(address, name).expect(rt, "no memory");
}

fn send_datagram(rt: &impl Abort, alloc: Global, transport: &mut Transport, bytes: &[u8]) {
    let piece = Piece::from_slice(alloc, bytes).expect(rt, "no memory");
    let is_open = transport.is_open();
    assert!(rt; is_open);
    transport.datagram_out(piece).expect(rt, "no memory");
}

/// A server that may open one stream and send three bytes on it opens it and sends.
const OPENING: &str = "\
connected 1 0 3 1200: done
open_uni: opening 3
open_uni: pending
open_bi: pending";

/// What went out, and a credit that never falls.
const CREDIT: &str = "\
actions: done ; opened 3 ; send 3 616263
max_data 3 2: unlawful
max_data 3 4: done";

const ARRIVING: &str = "\
peer_uni: done
bytes 2 6162: done";

const LATER: &str = "\
bytes 6 6162: unlawful
read 2 9: read 62
actions: done ; send 3 64";

#[test]
fn a_server_opens_sends_and_receives(rt: HostRuntime) {
    let alloc = rt.alloc();
    let mut transport = server(alloc);
    plays(&rt, alloc, &mut transport, OPENING);
    assert!(rt; send(&rt, &mut transport, stream(3), b"abcd") == 3);
    plays(&rt, alloc, &mut transport, CREDIT);
    assert!(rt; send(&rt, &mut transport, stream(3), b"d") == 1);
    plays(&rt, alloc, &mut transport, ARRIVING);
    assert!(rt; consume(&rt, &mut transport, stream(2), 1) == 1);
    plays(&rt, alloc, &mut transport, LATER);
}

const DIALLED: &str = "\
actions: done ; dial v4:7f000001:443 68 ; datagram_out 6162
actions: done";

#[test]
fn a_client_dials_and_sends_a_datagram(rt: HostRuntime) {
    let alloc = rt.alloc();
    let mut transport = Transport::new(alloc, Side::Client);
    plays(&rt, alloc, &mut transport, "connected 0 0 3 1200: unlawful");
    dial(&rt, alloc, &mut transport);
    plays(&rt, alloc, &mut transport, "connected 0 0 3 1200: done");
    send_datagram(&rt, alloc, &mut transport, b"ab");
    plays(&rt, alloc, &mut transport, DIALLED);
}

const A_STREAM: &str = "\
connected 1 0 3 1200: done
peer_uni: done";

const FIVE_PIECES: &str = "\
bytes 2 00: done
bytes 2 01: done
bytes 2 02: done
bytes 2 03: done
bytes 2 04: done";

const FIVE_READS: &str = "\
read 2 7: read 00010203040001
read 2 7: read 02030400010203
read 2 7: read 04000102030400
read 2 7: read 01020304000102
read 2 7: read 03040001020304";

const LAST_READS: &str = "\
read 2 7: read 00010203040001
read 2 7: read 02030400010203
read 2 7: read 040001020304
read 2 7: pending";

#[test]
fn a_thousand_pieces_are_read_by_sevens(rt: HostRuntime) {
    let alloc = rt.alloc();
    let mut transport = server(alloc);
    plays(&rt, alloc, &mut transport, A_STREAM);
    repeats(&rt, alloc, &mut transport, 200, FIVE_PIECES);
    assert!(rt; transport.pieces() == 1000);
    repeats(&rt, alloc, &mut transport, 28, FIVE_READS);
    assert!(rt; transport.pieces() == 20);
    plays(&rt, alloc, &mut transport, LAST_READS);
}

const LATE_BYTES: &str = "\
bytes 2 6364: done
end 2: done
end 2: unlawful
read 2 9: end";

/// The stream that wasn't there when it was given up.
const NEXT_STREAM: &str = "\
peer_uni: done
bytes 6 65: done
read 6 9: read 65
read 2 9: end";

#[test]
fn a_stream_that_is_given_up_keeps_nothing(rt: HostRuntime) {
    let alloc = rt.alloc();
    let mut transport = server(alloc);
    plays(&rt, alloc, &mut transport, A_STREAM);
    plays(&rt, alloc, &mut transport, "open_uni: opening 3");
    plays(&rt, alloc, &mut transport, FIVE_PIECES);
    // a stream that isn't there, and one on which nothing is received
    give_up(&mut transport, stream(6));
    give_up(&mut transport, stream(3));
    assert!(rt; transport.pieces() == 5);
    give_up(&mut transport, stream(2));
    assert!(rt; transport.pieces() == 0);
    plays(&rt, alloc, &mut transport, LATE_BYTES);
    assert!(rt; transport.pieces() == 0);
    give_up(&mut transport, stream(2));
    plays(&rt, alloc, &mut transport, NEXT_STREAM);
}

/// Cases that rows alone tell.
const CASES: &str = "\
# pieces are kept as they come
connected 1 0 3 1200: done
peer_uni: done
bytes 2 6162: done
bytes 2 -: done
bytes 2 636465: done
read 2 4: read 61626364
read 2 4: read 65
# sends join where nothing is between
connected 2 0 9 1200: done
open_uni: opening 3
write 3 6162: written 2
write 3 6364: written 2
open_uni: opening 7
write 3 65: written 1
write 7 66: written 1
actions: done ; opened 3 ; send 3 61626364 ; opened 7 ; send 3 65 ; send 7 66
actions: done
# a stream that ends early gives its last bytes
connected 1 0 3 1200: done
peer_uni: done
bytes 2 6162: done
read_exact 2 3: pending
end 2: done
read_exact 2 3: exact_failed finished_early 2 6162
read 2 1: end
stop_recv 2 9: done
actions: done ; stop 2 9
# a read of too few bytes takes none: a reset, then a lost connection
connected 1 0 3 1200: done
peer_uni: done
peer_uni: done
bytes 2 6162: done
read_exact 2 3: pending
reset 2 9: done
read_exact 2 3: exact_failed reset 9
read_exact 2 2: exact 6162
bytes 6 63: done
read_exact 6 3: pending
loss timed_out: done
read_exact 6 3: exact_failed not_connected
read_exact 6 1: exact 63
# a late stop after a close only forbids a second
connected 1 0 3 1200: done
open_uni: opening 3
close 5 -: done
stop 3 9: done
stop 3 9: unlawful
finish 3: write_failed not_connected
actions: done ; opened 3 ; close 5 -
# after a close turns are judged and change nothing
connected 1 0 3 1200: done
peer_uni: done
close 5 -: done
bytes 2 6162: done
end 2: done
end 2: unlawful
read 2 9: read_failed not_connected
loss timed_out: done
peer_uni: unlawful
# halves are finished, reset and stopped
connected 2 0 3 1200: done
open_uni: opening 3
open_uni: opening 7
peer_uni: done
finish 3: pending
reset_send 7 9: done
stop_recv 2 9: done
actions: done ; opened 3 ; opened 7 ; finish 3 ; reset 7 9 ; stop 2 9
acked 3: done
acked 7: unlawful
# a half is written, finished and acknowledged
connected 1 0 3 1200: done
open_uni: opening 3
write 3 6162: written 2
write_all 3 6364: count 1
write 3 64: pending
finish 3: pending
acked 3: done
finish 3: finished
write 3 64: write_failed closed
reset_send 3 9: closed_stream
actions: done ; opened 3 ; send 3 616263 ; finish 3";

#[test]
fn rows_are_answered(rt: HostRuntime) {
    let alloc = rt.alloc();
    plays(&rt, alloc, &mut server(alloc), CASES);
}
