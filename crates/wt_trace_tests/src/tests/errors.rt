//! Errors and their lines.
use crate::tests::print::{piece, reply_prints, text};
use std::alloc::Global;
use std::process::Abort;
use wt_turn::connecting_error::{ConnectingError, UrlRefusal};
use wt_turn::connection_error::{ConnectionError, H3Error, QuicProtoError};
use wt_turn::stream_error::{
    SendDatagramError, StreamOpeningError, StreamReadError, StreamReadExactError, StreamWriteError,
};
use wt_turn::{ApplicationClose, ConnectionClose, Reply};
use wt_wire::addr::Addr;
use wt_wire::error::ErrorCode;
use wt_wire::varint::VarInt;

fn failed_prints(rt: &impl Abort, alloc: Global, error: ConnectionError, line: &str) {
    reply_prints(rt, alloc, Reply::Failed(error), line);
}

fn connect_failed_prints(rt: &impl Abort, alloc: Global, error: ConnectingError, line: &str) {
    reply_prints(rt, alloc, Reply::ConnectFailed(error), line);
}

#[test]
fn ends_print(rt: HostRuntime) {
    let alloc = rt.alloc();
    let end = ConnectionError::LocallyClosed;
    reply_prints(&rt, alloc, Reply::Closed(end), "closed locally_closed");
    failed_prints(
        &rt,
        alloc,
        ConnectionError::LocallyClosed,
        "failed locally_closed",
    );
    failed_prints(&rt, alloc, ConnectionError::TimedOut, "failed timed_out");
    failed_prints(
        &rt,
        alloc,
        ConnectionError::CidsExhausted,
        "failed cids_exhausted",
    );
    let end = ConnectionError::LocalH3Error(H3Error::new(ErrorCode::Datagram));
    failed_prints(&rt, alloc, end, "failed local_h3 51");
}

#[test]
fn reported_ends_print(rt: HostRuntime) {
    let alloc = rt.alloc();
    let close = ApplicationClose::new(VarInt::from_u32(0), piece(&rt, alloc, b""));
    let end = ConnectionError::ApplicationClosed(close);
    failed_prints(&rt, alloc, end, "failed application_closed 0 -");
    let close = ConnectionClose::new(VarInt::from_u32(1), piece(&rt, alloc, b""));
    let end = ConnectionError::ConnectionClosed(close);
    failed_prints(&rt, alloc, end, "failed connection_closed 1 -");
    let code = Some(VarInt::from_u32(0));
    let end = ConnectionError::QuicProto(QuicProtoError::new(code, text(&rt, alloc, "é")));
    failed_prints(&rt, alloc, end, "failed quic_proto 0 c3a9");
    let end = ConnectionError::QuicProto(QuicProtoError::new(None, text(&rt, alloc, "n")));
    failed_prints(&rt, alloc, end, "failed quic_proto none 6e");
}

#[test]
fn refused_urls_print(rt: HostRuntime) {
    let alloc = rt.alloc();
    let error = ConnectingError::InvalidUrl(UrlRefusal::Parse);
    connect_failed_prints(&rt, alloc, error, "connect_failed invalid_url parse");
    let error = ConnectingError::InvalidUrl(UrlRefusal::Scheme);
    connect_failed_prints(&rt, alloc, error, "connect_failed invalid_url scheme");
    let error = ConnectingError::DnsLookup(text(&rt, alloc, "n"));
    connect_failed_prints(&rt, alloc, error, "connect_failed dns_lookup 6e");
    let error = ConnectingError::DnsNotFound;
    connect_failed_prints(&rt, alloc, error, "connect_failed dns_not_found");
    let error = ConnectingError::ReservedHeader(text(&rt, alloc, ":path"));
    connect_failed_prints(
        &rt,
        alloc,
        error,
        "connect_failed reserved_header 3a70617468",
    );
}

#[test]
fn failed_connects_print(rt: HostRuntime) {
    let alloc = rt.alloc();
    let end = ConnectionError::LocalH3Error(H3Error::new(ErrorCode::Decompression));
    let error = ConnectingError::ConnectionError(end);
    connect_failed_prints(&rt, alloc, error, "connect_failed connection local_h3 512");
    let error = ConnectingError::SessionRejected;
    connect_failed_prints(&rt, alloc, error, "connect_failed session_rejected");
    let error = ConnectingError::EndpointStopping;
    connect_failed_prints(&rt, alloc, error, "connect_failed endpoint_stopping");
    let error = ConnectingError::CidsExhausted;
    connect_failed_prints(&rt, alloc, error, "connect_failed cids_exhausted");
    let error = ConnectingError::InvalidServerName(text(&rt, alloc, "h"));
    connect_failed_prints(&rt, alloc, error, "connect_failed invalid_server_name 68");
    let error = ConnectingError::InvalidRemoteAddress(Addr::V4 { ip: 0, port: 0 });
    let line = "connect_failed invalid_remote_address v4:00000000:0";
    connect_failed_prints(&rt, alloc, error, line);
}

#[test]
fn failed_writes_print(rt: HostRuntime) {
    let alloc = rt.alloc();
    let error = StreamWriteError::NotConnected;
    reply_prints(
        &rt,
        alloc,
        Reply::WriteFailed(error),
        "write_failed not_connected",
    );
    let error = StreamWriteError::Closed;
    reply_prints(&rt, alloc, Reply::WriteFailed(error), "write_failed closed");
    let error = StreamWriteError::Stopped(VarInt::from_u32(5));
    reply_prints(&rt, alloc, Reply::StoppedBy(error), "stopped_by stopped 5");
    let error = StreamWriteError::QuicProto;
    reply_prints(&rt, alloc, Reply::StoppedBy(error), "stopped_by quic_proto");
}

#[test]
fn failed_reads_print(rt: HostRuntime) {
    let alloc = rt.alloc();
    let error = StreamReadError::NotConnected;
    reply_prints(
        &rt,
        alloc,
        Reply::ReadFailed(error),
        "read_failed not_connected",
    );
    let error = StreamReadError::Reset(VarInt::from_u32(7));
    reply_prints(&rt, alloc, Reply::ReadFailed(error), "read_failed reset 7");
    let error = StreamReadError::QuicProto;
    reply_prints(
        &rt,
        alloc,
        Reply::ReadFailed(error),
        "read_failed quic_proto",
    );
}

fn exact_failed_prints(rt: &impl Abort, alloc: Global, error: StreamReadExactError, line: &str) {
    let none = piece(rt, alloc, b"");
    reply_prints(rt, alloc, Reply::ExactFailed(error, none), line);
}

#[test]
fn failed_exact_reads_print(rt: HostRuntime) {
    let alloc = rt.alloc();
    let error = StreamReadExactError::FinishedEarly(0);
    exact_failed_prints(&rt, alloc, error, "exact_failed finished_early 0 -");
    let error = StreamReadExactError::Read(StreamReadError::NotConnected);
    exact_failed_prints(&rt, alloc, error, "exact_failed not_connected");
}

#[test]
fn failed_openings_and_datagrams_print(rt: HostRuntime) {
    let alloc = rt.alloc();
    let error = StreamOpeningError::NotConnected;
    reply_prints(
        &rt,
        alloc,
        Reply::OpeningFailed(error),
        "opening_failed not_connected",
    );
    let error = StreamOpeningError::Refused;
    reply_prints(
        &rt,
        alloc,
        Reply::OpeningFailed(error),
        "opening_failed refused",
    );
    let error = SendDatagramError::NotConnected;
    reply_prints(
        &rt,
        alloc,
        Reply::DatagramFailed(error),
        "datagram_failed not_connected",
    );
    let error = SendDatagramError::UnsupportedByPeer;
    reply_prints(
        &rt,
        alloc,
        Reply::DatagramFailed(error),
        "datagram_failed unsupported",
    );
    let error = SendDatagramError::TooLarge;
    reply_prints(
        &rt,
        alloc,
        Reply::DatagramFailed(error),
        "datagram_failed too_large",
    );
    let error = SendDatagramError::Disabled;
    reply_prints(
        &rt,
        alloc,
        Reply::DatagramFailed(error),
        "datagram_failed disabled",
    );
}
