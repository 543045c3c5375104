//! Tests of frames, requests, responses, capsules and datagrams on bytes that come from outside.
//!
//! Each helper holds few values: a test's proof grows with what is alive at each of its calls.
use crate::tests::shown::{OWN_SETTINGS, REQUEST, shows};
use std::alloc::Global;
use std::process::Abort;
use wt_message::capsule::CloseWebTransportSession;
use wt_message::datagram::H3Datagram;
use wt_message::session::{SessionRequest, SessionResponse};
use wt_proto::outgoing::control_stream_head;
use wt_proto::stream_header::StreamHeader;
use wt_wire::error::OutOfMemory;
use wt_wire::frame::Frame;
use wt_wire::ids::{SessionId, StreamId};
use wt_wire::varint::VarInt;

fn writes(rt: &impl Abort, alloc: Global, frame: &Frame, bytes: &[u8]) {
    let mut out = Vec::new(alloc);
    frame.write(&mut out).expect(rt, "no memory");
    assert_eq!(rt; out.as_slice(), bytes);
}

/// The frame is there, and is written as these bytes; so is a copy of it.
fn is_written(rt: &impl Abort, alloc: Global, frame: Result<Frame, OutOfMemory>, bytes: &[u8]) {
    let frame = frame.expect(rt, "no memory");
    writes(rt, alloc, &frame, bytes);
    let copy = frame.copy().expect(rt, "no memory");
    writes(rt, alloc, &copy, bytes);
}

#[test]
fn frames_of_each_kind_are_written(rt: HostRuntime) {
    let alloc = rt.alloc();
    let data = Frame::new_data(alloc, b"ab");
    is_written(&rt, alloc, data, b"\x00\x02ab");
    let headers = Frame::new_headers(alloc, b"c");
    is_written(&rt, alloc, headers, b"\x01\x01c");
    let settings = Frame::new_settings(alloc, b"d");
    is_written(&rt, alloc, settings, b"\x04\x01d");
    let exercise = Frame::new_exercise(alloc, VarInt::from_u32(0x21), b"ab");
    is_written(&rt, alloc, exercise, b"\x21\x02ab");
}

fn session_four(rt: &impl Abort) -> SessionId {
    let id = StreamId::new(VarInt::from_u32(4));
    SessionId::try_from_session_stream(id).expect(rt, "no session")
}

#[test]
fn signals_are_written(rt: HostRuntime) {
    let session = session_four(&rt);
    let signal = Frame::new_webtransport(rt.alloc(), session);
    is_written(&rt, rt.alloc(), Ok(signal), b"\x40\x41\x04");
    let shown = session.to_string(rt.alloc()).expect(&rt, "no memory");
    assert_eq!(rt; shown.as_str(), "4");
}

#[test]
fn streams_begin(rt: HostRuntime) {
    let head = control_stream_head(rt.alloc()).expect(&rt, "no memory");
    assert_eq!(rt; head.as_slice(), OWN_SETTINGS);
    let mut out = Vec::new(rt.alloc());
    let header = StreamHeader::new_webtransport(session_four(&rt));
    header.write(&mut out).expect(&rt, "no memory");
    assert_eq!(rt; out.as_slice(), b"\x40\x54\x04".as_slice());
}

/// Puts a field into the request.
fn inserts(
    rt: &impl Abort,
    alloc: Global,
    request: &mut SessionRequest,
    field: (&str, &str),
    shown: &str,
) {
    shows(rt, alloc, request.insert(field.0, field.1), shown);
}

fn request_is_copied(rt: &impl Abort, alloc: Global, request: &SessionRequest) {
    let copy = request.copy().expect(rt, "no memory");
    is_written(rt, alloc, copy.generate_frame(), REQUEST);
}

#[test]
fn a_request_is_written_and_takes_fields(rt: HostRuntime) {
    let alloc = rt.alloc();
    let mut request = SessionRequest::new(alloc, "h", "/").expect(&rt, "no memory");
    is_written(&rt, alloc, request.generate_frame(), REQUEST);
    request_is_copied(&rt, alloc, &request);
    let origin = ("origin", "https://o");
    inserts(&rt, alloc, &mut request, origin, "Ok(Ok(()))");
    let path = (":path", "/other");
    inserts(&rt, alloc, &mut request, path, "Ok(Err(ReservedHeader))");
    assert_eq!(rt; request.path(), "/");
    assert_eq!(rt; request.origin(), Some("https://o"));
}

fn response_is_written(
    rt: &impl Abort,
    alloc: Global,
    response: Result<SessionResponse, OutOfMemory>,
    bytes: &[u8],
) {
    let response = response.expect(rt, "no memory");
    is_written(rt, alloc, response.generate_frame(), bytes);
    let copy = response.copy().expect(rt, "no memory");
    is_written(rt, alloc, copy.generate_frame(), bytes);
}

#[test]
fn responses_are_written(rt: HostRuntime) {
    let alloc = rt.alloc();
    let bytes = b"\x01\x0f\x00\x00\x27\x00:status\x03200";
    response_is_written(&rt, alloc, SessionResponse::ok(alloc), bytes);
    let bytes = b"\x01\x0f\x00\x00\x27\x00:status\x03403";
    response_is_written(&rt, alloc, SessionResponse::forbidden(alloc), bytes);
    let bytes = b"\x01\x0f\x00\x00\x27\x00:status\x03404";
    response_is_written(&rt, alloc, SessionResponse::not_found(alloc), bytes);
    let bytes = b"\x01\x0f\x00\x00\x27\x00:status\x03429";
    let too_many = SessionResponse::too_many_requests(alloc);
    response_is_written(&rt, alloc, too_many, bytes);
}

#[test]
fn a_response_takes_fields(rt: HostRuntime) {
    let mut response = SessionResponse::ok(rt.alloc()).expect(&rt, "no memory");
    response.add(":status", "404").expect(&rt, "no memory");
    response.add("server", "s").expect(&rt, "no memory");
    assert_eq!(rt; response.code().into_inner(), 200);
    assert_eq!(rt; response.headers().get("server"), Some("s"));
}

#[test]
fn a_capsule_closes(rt: HostRuntime) {
    let alloc = rt.alloc();
    let close = CloseWebTransportSession::with_capsule(alloc, b"\x00\x00\x01\x02hi");
    let shown =
        "Ok(Ok(CloseWebTransportSession { error_code: VarInt { value: 258 }, reason: Text { text: \"hi\" } }))";
    shows(&rt, alloc, close, shown);
}

#[test]
fn a_datagram_is_read_and_written(rt: HostRuntime) {
    let bytes = b"\x40\x64xy".as_slice();
    let datagram = H3Datagram::read(bytes).expect(&rt, "refused");
    assert_eq!(rt; datagram.qstream_id().into_varint().into_inner(), 100);
    assert_eq!(rt; datagram.payload(), b"xy".as_slice());
    let mut out = Vec::new(rt.alloc());
    datagram.write(&mut out).expect(&rt, "no memory");
    assert_eq!(rt; out.as_slice(), bytes);
}
