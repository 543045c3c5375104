//! The words of a printed line for each error.
ghost use Rattle.std.specs.Prelude.{◌≡◌, ◌++◌, OnOk, codes, string_bytes};
ghost use Rattle.wt_script.specs.PrintErrors.{versioned_address_text, coded_text, proto_text, connection_text, connecting_text, opening_text, refusal_text, write_text, read_error_text, exact_text, datagram_text};

use crate::names;
use crate::print::texts::{
    push_address, push_bytes, push_coded, push_named_text, push_numbered, push_optional, push_text,
    push_word,
};
use std::alloc::Global;
use wt_turn::close::PeerClose;
use wt_turn::connecting_error::{ConnectingError, UrlRefusal};
use wt_turn::connection_error::{ConnectionError, QuicProtoError};
use wt_turn::piece::Piece;
use wt_turn::stream_error::{
    SendDatagramError, StreamOpeningError, StreamReadError, StreamReadExactError, StreamWriteError,
};
use wt_wire::addr::Addr;
use wt_wire::error::OutOfMemory;

fn push_close<B>(
    alloc: Global,
    out: &mut String,
    word: &str,
    close: &PeerClose<B>,
) -> Result<(), OutOfMemory>
    ensures { OnOk result (string_bytes out.new ≡ string_bytes out.old ++ (word.now ++ codes " " ++ coded_text close.now.code close.now.reason)) }
{
    push_coded(alloc, out, word, close.code().into_inner(), close.reason())
}

fn push_finished_early(
    alloc: Global,
    out: &mut String,
    word: &str,
    count: usize,
    bytes: &Piece,
) -> Result<(), OutOfMemory>
    ensures { OnOk result (string_bytes out.new ≡ string_bytes out.old ++ (word.now ++ codes " " ++ coded_text count bytes.now)) }
{
    push_coded(alloc, out, word, count as u64, bytes.as_slice())
}

fn push_proto_error(
    alloc: Global,
    out: &mut String,
    word: &str,
    error: &QuicProtoError,
) -> Result<(), OutOfMemory>
    ensures { OnOk result (string_bytes out.new ≡ string_bytes out.old ++ (word.now ++ codes " " ++ proto_text error.now.code error.now.reason)) }
{
    let code = match error.code() {
        Some(code) => Some(code.into_inner()),
        None => None,
    };
    push_word(out, word)?;
    push_optional(out, code)?;
    push_text(out, " ")?;
    push_bytes(alloc, out, error.reason().as_bytes())
}

/// Adds a name, and how a connection ended.
pub fn push_ended(
    alloc: Global,
    out: &mut String,
    word: &str,
    error: &ConnectionError,
) -> Result<(), OutOfMemory>
    ensures { OnOk result (string_bytes out.new ≡ string_bytes out.old ++ (word.now ++ codes " " ++ connection_text error.now)) }
{
    push_word(out, word)?;
    push_connection(alloc, out, error)
}

fn push_named_address(
    alloc: Global,
    out: &mut String,
    word: &str,
    address: Addr,
) -> Result<(), OutOfMemory>
    ensures { OnOk result (string_bytes out.new ≡ string_bytes out.old ++ (word.now ++ codes " " ++ versioned_address_text address)) }
{
    push_word(out, word)?;
    push_address(alloc, out, address)
}

/// Adds how a connection ended.
fn push_connection(
    alloc: Global,
    out: &mut String,
    error: &ConnectionError,
) -> Result<(), OutOfMemory>
    ensures { OnOk result (string_bytes out.new ≡ string_bytes out.old ++ connection_text error.now) }
{
    match error {
        ConnectionError::ConnectionClosed(close) => {
            push_close(alloc, out, names::CONNECTION_CLOSED, close)
        }
        ConnectionError::ApplicationClosed(close) => {
            push_close(alloc, out, names::APPLICATION_CLOSED, close)
        }
        ConnectionError::LocallyClosed => push_text(out, names::LOCALLY_CLOSED),
        ConnectionError::LocalH3Error(error) => {
            push_numbered(out, names::LOCAL_H3, error.code().to_code().into_inner())
        }
        ConnectionError::TimedOut => push_text(out, names::TIMED_OUT),
        ConnectionError::QuicProto(error) => push_proto_error(alloc, out, names::QUIC_PROTO, error),
        ConnectionError::CidsExhausted => push_text(out, names::CIDS_EXHAUSTED),
    }
}

fn push_refusal(out: &mut String, word: &str, refusal: UrlRefusal) -> Result<(), OutOfMemory>
    ensures { OnOk result (string_bytes out.new ≡ string_bytes out.old ++ (word.now ++ codes " " ++ refusal_text refusal)) }
{
    push_word(out, word)?;
    match refusal {
        UrlRefusal::Parse => push_text(out, names::PARSE),
        UrlRefusal::Scheme => push_text(out, names::SCHEME),
    }
}

/// Adds why a connect failed.
pub fn push_connecting(
    alloc: Global,
    out: &mut String,
    error: &ConnectingError,
) -> Result<(), OutOfMemory>
    ensures { OnOk result (string_bytes out.new ≡ string_bytes out.old ++ connecting_text error.now) }
{
    match error {
        ConnectingError::InvalidUrl(refusal) => push_refusal(out, names::INVALID_URL, *refusal),
        ConnectingError::DnsLookup(reason) => {
            push_named_text(alloc, out, names::DNS_LOOKUP, reason)
        }
        ConnectingError::DnsNotFound => push_text(out, names::DNS_NOT_FOUND),
        ConnectingError::ConnectionError(error) => push_ended(alloc, out, names::CONNECTION, error),
        ConnectingError::SessionRejected => push_text(out, names::SESSION_REJECTED),
        ConnectingError::ReservedHeader(name) => {
            push_named_text(alloc, out, names::RESERVED_HEADER, name)
        }
        ConnectingError::EndpointStopping => push_text(out, names::ENDPOINT_STOPPING),
        ConnectingError::CidsExhausted => push_text(out, names::CIDS_EXHAUSTED),
        ConnectingError::InvalidServerName(name) => {
            push_named_text(alloc, out, names::INVALID_SERVER_NAME, name)
        }
        ConnectingError::InvalidRemoteAddress(address) => {
            push_named_address(alloc, out, names::INVALID_REMOTE_ADDRESS, *address)
        }
    }
}

/// Adds why a stream couldn't be opened.
pub fn push_opening(out: &mut String, error: StreamOpeningError) -> Result<(), OutOfMemory>
    ensures { OnOk result (string_bytes out.new ≡ string_bytes out.old ++ opening_text error) }
{
    match error {
        StreamOpeningError::NotConnected => push_text(out, names::NOT_CONNECTED),
        StreamOpeningError::Refused => push_text(out, names::REFUSED),
    }
}

/// Adds why nothing could be written.
pub fn push_write(out: &mut String, error: StreamWriteError) -> Result<(), OutOfMemory>
    ensures { OnOk result (string_bytes out.new ≡ string_bytes out.old ++ write_text error) }
{
    match error {
        StreamWriteError::NotConnected => push_text(out, names::NOT_CONNECTED),
        StreamWriteError::Closed => push_text(out, names::CLOSED),
        StreamWriteError::Stopped(code) => { push_numbered(out, names::STOPPED, code.into_inner()) }
        StreamWriteError::QuicProto => push_text(out, names::QUIC_PROTO),
    }
}

/// Adds why nothing could be read.
pub fn push_read_error(out: &mut String, error: StreamReadError) -> Result<(), OutOfMemory>
    ensures { OnOk result (string_bytes out.new ≡ string_bytes out.old ++ read_error_text error) }
{
    match error {
        StreamReadError::NotConnected => push_text(out, names::NOT_CONNECTED),
        StreamReadError::Reset(code) => push_numbered(out, names::RESET, code.into_inner()),
        StreamReadError::QuicProto => push_text(out, names::QUIC_PROTO),
    }
}

/// Adds why fewer bytes were read than were asked for.
pub fn push_exact(
    alloc: Global,
    out: &mut String,
    error: StreamReadExactError,
    bytes: &Piece,
) -> Result<(), OutOfMemory>
    ensures { OnOk result (string_bytes out.new ≡ string_bytes out.old ++ exact_text error bytes.now) }
{
    match error {
        StreamReadExactError::FinishedEarly(count) => {
            push_finished_early(alloc, out, names::FINISHED_EARLY, count, bytes)
        }
        StreamReadExactError::Read(error) => push_read_error(out, error),
    }
}

/// Adds why a datagram couldn't be sent.
pub fn push_datagram(out: &mut String, error: SendDatagramError) -> Result<(), OutOfMemory>
    ensures { OnOk result (string_bytes out.new ≡ string_bytes out.old ++ datagram_text error) }
{
    match error {
        SendDatagramError::NotConnected => push_text(out, names::NOT_CONNECTED),
        SendDatagramError::UnsupportedByPeer => push_text(out, names::UNSUPPORTED),
        SendDatagramError::TooLarge => push_text(out, names::TOO_LARGE),
        SendDatagramError::Disabled => push_text(out, names::DISABLED),
    }
}
