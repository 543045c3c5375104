//! Halves that are joined, datagrams that are written, and options of a connect.
use std::alloc::Global;
use std::process::Abort;
use wt_seam::{QuicRecvStream, QuicSendStream};
use wt_session::{
    BiStream, ConnectOptions, ConnectRequestBuilder, Datagram, IntoConnectOptions, RecvStream,
    SendStream,
};
use wt_turn::piece::Piece;
use wt_wire::ids::{SessionId, StreamId};
use wt_wire::varint::VarInt;

/// The stream of this id.
fn stream(id: u32) -> StreamId {
    StreamId::new(VarInt::from_u32(id))
}

fn sending(id: u32) -> SendStream {
    SendStream::from(QuicSendStream::new(stream(id)))
}

fn receiving(id: u32) -> RecvStream {
    RecvStream::from(QuicRecvStream::new(stream(id)))
}

fn are(rt: &impl Abort, send: &SendStream, recv: &RecvStream) {
    assert!(rt; send.id() == stream(12));
    assert!(rt; recv.id() == stream(16));
}

#[test]
fn halves_are_joined_and_split(rt: HostRuntime) {
    let mut both = BiStream::join((sending(4), receiving(8)));
    *both.send_mut() = sending(12);
    *both.recv_mut() = receiving(16);
    are(&rt, both.send(), both.recv());
    let halves: (SendStream, RecvStream) = both.into();
    let (send, recv) = BiStream::from(halves).split();
    are(&rt, &send, &recv);
}

fn write(rt: &impl Abort, alloc: Global, session: SessionId) -> Piece {
    assert_eq!(rt; Datagram::header_size(session), 1);
    Datagram::write(alloc, session, b"hi").expect(rt, "no memory")
}

fn is_hi(rt: &impl Abort, datagram: &Datagram) {
    assert_eq!(rt; datagram.payload(), b"hi".as_slice());
    assert!(rt; datagram.session_id().session_stream() == stream(4));
}

#[test]
fn datagrams_are_written_and_read(rt: HostRuntime) {
    let session = SessionId::try_from_session_stream(stream(4));
    let written = write(&rt, rt.alloc(), session.expect(&rt, "no session's id"));
    assert_eq!(rt; written.as_slice(), b"\x01hi".as_slice());
    match Datagram::read(written) {
        Ok(read) => is_hi(&rt, &read),
        Err(_) => panic!(rt; "it is a datagram"),
    }
}

fn begun(rt: &impl Abort, alloc: Global, url: &str) -> ConnectRequestBuilder {
    ConnectOptions::builder(alloc, url).expect(rt, "no memory")
}

fn add(rt: &impl Abort, builder: ConnectRequestBuilder, value: &str) -> ConnectRequestBuilder {
    builder.add_header("b", value).expect(rt, "no memory")
}

#[test]
fn options_are_built(rt: HostRuntime) {
    let builder = begun(&rt, rt.alloc(), "https://h");
    let builder = add(&rt, builder, "1");
    let built = add(&rt, builder, "3").build();
    let options = built.copy().expect(&rt, "no memory");
    assert_eq!(rt; options.url(), "https://h");
    assert_eq!(rt; options.additional_headers().len(), 1);
    assert_eq!(rt; options.additional_headers().get("b"), Some("3"));
}

/// The URL of what stands for options, through the bound.
fn url_of(rt: &impl Abort, alloc: Global, given: impl IntoConnectOptions, expected: &str) {
    let options = given.into_options(alloc).expect(rt, "no memory");
    assert_eq!(rt; options.url(), expected);
}

#[test]
fn what_stands_for_options(rt: HostRuntime) {
    let alloc = rt.alloc();
    url_of(&rt, alloc, "a", "a");
    url_of(&rt, alloc, begun(&rt, alloc, "b"), "b");
    url_of(&rt, alloc, begun(&rt, alloc, "c").build(), "c");
}
