//! The text of each error.
use crate::tests::values::{by_application, by_transport, text, transport_error};
use std::alloc::Global;
use std::fmt::Display;
use std::process::Abort;
use wt_config::digest::InvalidDigest;
use wt_config::idle::InvalidIdleTimeout;
use wt_config::verification::PinRefusal;
use wt_message::session::{BadStatus, HeadersParseError, ReservedHeader};
use wt_turn::LossReason;
use wt_turn::connecting_error::{ConnectingError, UrlRefusal};
use wt_turn::connection_error::{ConnectionError, H3Error, QuicProtoError};
use wt_turn::driver_error::DriverError;
use wt_turn::proto_error::{IoReadError, ProtoReadError, ProtoWriteError};
use wt_turn::stream_error::{
    AlreadyStop, ClosedStream, SendDatagramError, StreamOpeningError, StreamReadError,
    StreamReadExactError, StreamWriteError,
};
use wt_wire::addr::Addr;
use wt_wire::error::{ErrorCode, OutOfMemory};
use wt_wire::varint::VarInt;

const CODES: [(ErrorCode, &str); 15] = [
    (ErrorCode::Datagram, "Datagram"),
    (ErrorCode::NoError, "NoError"),
    (ErrorCode::StreamCreation, "StreamCreation"),
    (ErrorCode::ClosedCriticalStream, "ClosedCriticalStream"),
    (ErrorCode::FrameUnexpected, "FrameUnexpected"),
    (ErrorCode::Frame, "Frame"),
    (ErrorCode::ExcessiveLoad, "ExcessiveLoad"),
    (ErrorCode::Id, "Id"),
    (ErrorCode::Settings, "Settings"),
    (ErrorCode::MissingSettings, "MissingSettings"),
    (ErrorCode::RequestRejected, "RequestRejected"),
    (ErrorCode::Message, "Message"),
    (ErrorCode::Decompression, "Decompression"),
    (ErrorCode::SessionGone, "SessionGone"),
    (ErrorCode::BufferedStreamRejected, "BufferedStreamRejected"),
];

const MESSAGES: [(HeadersParseError, &str); 2] = [
    (
        HeadersParseError::MethodNotConnect,
        "the method isn't CONNECT",
    ),
    (
        HeadersParseError::Other,
        "a field of a request for a session is missing or has another value",
    ),
];

const PINS: [(PinRefusal, &str); 5] = [
    (
        PinRefusal::MomentOutOfRange,
        "the moment is after the year 9999",
    ),
    (
        PinRefusal::BadEncoding,
        "the certificate could not be decoded",
    ),
    (PinRefusal::NotValidYet, "the certificate is not valid yet"),
    (PinRefusal::Expired, "the certificate has expired"),
    (PinRefusal::UnknownIssuer, "the certificate is not pinned"),
];

const URLS: [(UrlRefusal, &str); 2] = [
    (UrlRefusal::Parse, "not a valid URL"),
    (
        UrlRefusal::Scheme,
        "WebTransport URL scheme must be 'https'",
    ),
];

const DATAGRAMS: [(SendDatagramError, &str); 4] = [
    (SendDatagramError::NotConnected, "not connected"),
    (
        SendDatagramError::UnsupportedByPeer,
        "peer does not support datagrams",
    ),
    (SendDatagramError::TooLarge, "datagram payload too large"),
    (SendDatagramError::Disabled, "datagrams disabled"),
];

const OPENINGS: [(StreamOpeningError, &str); 2] = [
    (StreamOpeningError::NotConnected, "not connected"),
    (StreamOpeningError::Refused, "opening stream refused"),
];

const READS: [(ProtoReadError, &str); 5] = [
    (ProtoReadError::H3(ErrorCode::Id), "protocol error: Id"),
    (
        ProtoReadError::IO(IoReadError::ImmediateFin),
        "stream ended",
    ),
    (
        ProtoReadError::IO(IoReadError::UnexpectedFin),
        "stream ended inside a frame",
    ),
    (ProtoReadError::IO(IoReadError::Reset), "stream reset"),
    (
        ProtoReadError::IO(IoReadError::NotConnected),
        "not connected",
    ),
];

const WRITES: [(ProtoWriteError, &str); 2] = [
    (ProtoWriteError::NotConnected, "not connected"),
    (ProtoWriteError::Stopped, "stream stopped"),
];

/// Compares what the error shows with its text.
fn shows<T: Display + Drop>(rt: &impl Abort, alloc: Global, error: T, text: &str) {
    let shown = error.to_string(alloc).expect(rt, "no memory");
    assert_eq!(rt; shown.as_str(), text);
}

/// Compares each error with the text beside it.
fn all_show<T: Display>(rt: &impl Abort, alloc: Global, rows: &[(T, &str)]) {
    for (error, text) in rows {
        let shown = error.to_string(alloc).expect(rt, "no memory");
        assert_eq!(rt; shown.as_str(), *text);
    }
}

/// Compares a row for each line `error => text`.
macro_rules! show {
    ($rt:expr, $alloc:expr; $($error:expr => $text:literal,)*) => {
        $(shows($rt, $alloc, $error, $text);)*
    };
}

/// Errors that keep nothing.
fn tables(rt: &impl Abort, alloc: Global) {
    all_show(rt, alloc, &CODES);
    all_show(rt, alloc, &MESSAGES);
    all_show(rt, alloc, &PINS);
    all_show(rt, alloc, &URLS);
    all_show(rt, alloc, &DATAGRAMS);
    all_show(rt, alloc, &OPENINGS);
    all_show(rt, alloc, &READS);
    all_show(rt, alloc, &WRITES);
}

/// Errors that are alone of their kind.
fn singles(rt: &impl Abort, alloc: Global) {
    show!(rt, alloc;
        OutOfMemory => "out of memory",
        ReservedHeader => "a request sets this field itself",
        BadStatus => "the response has no status code",
        InvalidDigest => "cannot parse string as sha256 digest",
        InvalidIdleTimeout => "idle timeout value configuration is invalid",
        ClosedStream => "closed stream",
        AlreadyStop => "stream already stopped",
    );
}

/// Errors of a call on a stream.
fn streams(rt: &impl Abort, alloc: Global) {
    show!(rt, alloc;
        StreamWriteError::NotConnected => "not connected",
        StreamWriteError::Closed => "stream closed",
        StreamWriteError::Stopped(VarInt::from_u32(5)) => "stream stopped (code: 5)",
        StreamWriteError::QuicProto => "QUIC protocol error",
        StreamReadError::NotConnected => "not connected",
        StreamReadError::Reset(VarInt::from_u32(6)) => "stream reset (code: 6)",
        StreamReadError::QuicProto => "QUIC protocol error",
        StreamReadExactError::FinishedEarly(3) => "stream finished too early (3 bytes read)",
        StreamReadExactError::Read(StreamReadError::NotConnected) => "not connected",
    );
}

/// What is reported where a connection ended.
fn reasons(rt: &impl Abort, alloc: Global) {
    show!(rt, alloc;
        by_transport(rt, alloc, b"") => "10",
        by_transport(rt, alloc, b"no") => "no (code 10)",
        by_application(rt, alloc, b"bye") => "bye (code 7)",
        H3Error::new(ErrorCode::Id) => "Id",
        QuicProtoError::new(None, text(rt, alloc, "why")) => "why",
        QuicProtoError::new(Some(VarInt::from_u32(1)), text(rt, alloc, "")) => " (code: 1)",
    );
}

/// A connection that the peer closed, or that is lost.
fn losses(rt: &impl Abort, alloc: Global) {
    show!(rt, alloc;
        ConnectionError::ConnectionClosed(by_transport(rt, alloc, b"\xf0\x9f\x92hi\xc3"))
            => "connection aborted by peer: \u{fffd}hi\u{fffd} (code 10)",
        ConnectionError::ApplicationClosed(by_application(rt, alloc, b"")) => "connection closed by peer: 7",
        ConnectionError::ApplicationClosed(by_application(rt, alloc, b"h\xffi"))
            => "connection closed by peer: h\u{fffd}i (code 7)",
        ConnectionError::from(LossReason::VersionMismatch)
            => "QUIC protocol error: QUIC protocol version mismatched",
        ConnectionError::from(LossReason::Reset) => "QUIC protocol error: connection has been reset",
        ConnectionError::from(transport_error(rt, alloc, 0x3fff_ffff_ffff_ffff))
            => "QUIC protocol error: why (code: 4611686018427387903)",
        ConnectionError::from(transport_error(rt, alloc, 0x4000_0000_0000_0000)) => "QUIC protocol error: why",
    );
}

/// A connection that ended otherwise.
fn ends(rt: &impl Abort, alloc: Global) {
    show!(rt, alloc;
        ConnectionError::LocallyClosed => "connection locally closed",
        ConnectionError::LocalH3Error(H3Error::new(ErrorCode::ClosedCriticalStream))
            => "connection locally aborted: ClosedCriticalStream",
        ConnectionError::TimedOut => "connection timed out",
        ConnectionError::CidsExhausted => "CIDs exhausted",
        ConnectingError::ConnectionError(ConnectionError::TimedOut) => "connection timed out",
        ConnectingError::SessionRejected => "server rejected WebTransport session request",
        ConnectingError::EndpointStopping => "endpoint stopping",
        ConnectingError::CidsExhausted => "CIDs exhausted",
    );
}

/// A driver whose connection ended.
fn drivers(rt: &impl Abort, alloc: Global) {
    show!(rt, alloc;
        DriverError::Proto(ErrorCode::Frame) => "connection locally aborted: Frame",
        DriverError::ApplicationClosed(by_application(rt, alloc, b"bye")) => "session closed by peer: bye (code 7)",
        DriverError::NotConnected => "not connected",
    );
}

/// A connect that came to nothing before a connection was there.
fn connects(rt: &impl Abort, alloc: Global) {
    show!(rt, alloc;
        ConnectingError::InvalidUrl(UrlRefusal::Scheme) => "invalid URL: WebTransport URL scheme must be 'https'",
        ConnectingError::DnsLookup(text(rt, alloc, "why")) => "cannot resolve domain: why",
        ConnectingError::DnsNotFound => "cannot resolve domain",
        ConnectingError::ReservedHeader(text(rt, alloc, ":path")) => "additional header ':path' is reserved",
        ConnectingError::InvalidServerName(text(rt, alloc, "host")) => "invalid server name: host",
        ConnectingError::InvalidRemoteAddress(Addr::V4 { ip: 0x7f00_0001, port: 4433 })
            => "invalid remote address: 127.0.0.1:4433",
        ConnectingError::InvalidRemoteAddress(Addr::V6 { ip: 0x2001_0db8_0000_0000_0000_0000_0000_00ff, port: 0 })
            => "invalid remote address: [2001:db8:0:0:0:0:0:ff]:0",
    );
}

#[test]
fn every_error_has_its_text(rt: HostRuntime) {
    let alloc = rt.alloc();
    tables(&rt, alloc);
    singles(&rt, alloc);
    streams(&rt, alloc);
    reasons(&rt, alloc);
    losses(&rt, alloc);
    ends(&rt, alloc);
    drivers(&rt, alloc);
    connects(&rt, alloc);
}
