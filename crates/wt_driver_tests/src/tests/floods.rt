//! Many streams, requests that are cut, and the pieces that are kept.
use super::harness::{REQUEST, Run, SERVER, SESSION, session_runs};
use std::alloc::Global;
use std::process::Abort;
use wt_wire::side::Side;

#[test]
fn a_thousand_streams_without_a_byte(rt: HostRuntime) {
    let mut run = Run::new(&rt, rt.alloc(), Side::Server, true);
    run.take_lines(&rt, SERVER);
    for _ in 0..1000 {
        run.take_lines(&rt, "peer_uni");
    }
    run.take_lines(&rt, "readers\n> count 4");
}

/// A stream of session 4, for which there is room or not.
fn foreign_stream(rt: &impl Abort, alloc: Global, run: &mut Run, id: u32) {
    let lines = if id <= 66 {
        format!(in alloc; "peer_uni\nbytes {id} 405404")
    } else {
        format!(in alloc; "peer_uni\nbytes {id} 405404\n> done ; stop {id} 966049156")
    };
    run.take_lines(rt, lines.expect(rt, "no memory").as_str());
}

#[test]
fn a_thousand_streams_of_no_session_find_no_room(rt: HostRuntime) {
    let mut run = Run::new(&rt, rt.alloc(), Side::Server, true);
    run.take_lines(&rt, SESSION);
    for index in 1..1001u32 {
        foreign_stream(&rt, rt.alloc(), &mut run, 4 * index + 2);
    }
    run.take_lines(&rt, "accept_uni\n> pending\npieces\n> count 0");
}

/// The first bytes of a request come, which so many digits spell, and then the stream's end.
fn request_is_cut(rt: &impl Abort, alloc: Global, digits: usize, is_whole: bool) {
    let bytes = REQUEST.get(..digits).expect(rt, "no place");
    let lines = format!(in alloc; "peer_bi\nbytes 0 {bytes}\nend 0\nis_open");
    let mut run = Run::new(rt, alloc, Side::Server, is_whole);
    run.take_lines(rt, SERVER);
    run.take_lines(rt, lines.expect(rt, "no memory").as_str());
}

#[test]
fn a_request_that_is_cut_closes_nothing(rt: HostRuntime) {
    for size in 1..83 {
        request_is_cut(&rt, rt.alloc(), 2 * size, true);
        request_is_cut(&rt, rt.alloc(), 2 * size, false);
    }
}

#[test]
fn a_hundred_datagrams_of_no_session(rt: HostRuntime) {
    let mut run = Run::new(&rt, rt.alloc(), Side::Server, true);
    run.take_lines(&rt, SESSION);
    for _ in 0..100 {
        run.take_lines(&rt, "datagram 0161");
    }
    run.take_lines(&rt, "receive_datagram\n> pending");
}

/// What is kept of a stream's five bytes, of which its header's reader takes three.
fn pieces_are(rt: &impl Abort, alloc: Global, is_whole: bool, lines: &str) {
    let mut run = Run::new(rt, alloc, Side::Server, is_whole);
    run.take_lines(rt, SESSION);
    run.take_lines(rt, "peer_uni\nbytes 6 4054006869\nunread 6\n> count 2");
    run.take_lines(rt, lines);
}

#[test]
fn unread_bytes_stay_in_the_piece_that_came(rt: HostRuntime) {
    pieces_are(&rt, rt.alloc(), true, "pieces\n> count 1");
    pieces_are(&rt, rt.alloc(), false, "pieces\n> count 2");
}

#[test]
fn thirteen_readers_are_kept(rt: HostRuntime) {
    let script = "
        # Three more sessions.
        peer_bi
        bytes 4 REQUEST
        incoming
        > id 4
        accept
        > session 4 ; send 4 010f000027003a73746174757303323030
        peer_bi
        bytes 8 REQUEST
        incoming
        > id 8
        accept
        > session 8 ; send 8 010f000027003a73746174757303323030
        peer_bi
        bytes 12 REQUEST
        incoming
        > id 12
        accept
        > session 12 ; send 12 010f000027003a73746174757303323030
        # Five headers of each kind, in each of which a byte is there.
        peer_uni
        peer_uni
        peer_uni
        peer_uni
        peer_uni
        bytes 6 40
        bytes 10 40
        bytes 14 40
        bytes 18 40
        bytes 22 40
        peer_bi
        peer_bi
        peer_bi
        peer_bi
        peer_bi
        bytes 16 40
        bytes 20 40
        bytes 24 40
        bytes 28 40
        bytes 32 40
        readers
        > count 13
        pieces
        > count 2
    ";
    session_runs(&rt, rt.alloc(), script);
}
