//! The head of a reply, and what stands beside it.
ghost use Rattle.std.specs.Prelude.{◌≡◌, length, slice_get, MatchOption, None, Some};
ghost use Rattle.wt_abi.specs.Replies.{address_head, answer_head, bare, chosen, connecting_bytes, connecting_head, connection_bytes, datagram_head, exact_head, no_address, numbered, opening_head, read_head, refusal_number, reply_bytes, reply_fields, reply_head, size_head, with_code, with_connection, with_read, write_head};

use crate::head::{AddressHead, ReplyHead};
use wt_turn::connecting_error::{ConnectingError, UrlRefusal};
use wt_turn::connection_error::ConnectionError;
use wt_turn::stream_error::{
    SendDatagramError, StreamOpeningError, StreamReadError, StreamReadExactError, StreamWriteError,
};
use wt_turn::{Answer, Piece, Reply};
use wt_wire::addr::Addr;
use wt_wire::ids::{SessionId, StreamId};
use wt_wire::varint::VarInt;

/// No address.
pub(crate) fn no_address() -> AddressHead
    ensures { result ≡ no_address }
{
    AddressHead {
        version: 0,
        port: 0,
        high: 0,
        low: 0,
    }
}

/// An address in numbers.
pub(crate) fn address_head(address: Addr) -> AddressHead
    ensures { result ≡ address_head address }
{
    match address {
        Addr::V4 { ip, port } => AddressHead {
            version: 4,
            port,
            high: 0,
            low: ip as u64,
        },
        Addr::V6 { ip, port } => AddressHead {
            version: 6,
            port,
            high: (ip / 0x1_0000_0000_0000_0000) as u64,
            low: (ip % 0x1_0000_0000_0000_0000) as u64,
        },
    }
}

fn bare(kind: u32) -> ReplyHead
    ensures { result ≡ bare kind }
{
    ReplyHead {
        kind,
        choice: 0,
        cause: 0,
        has_code: 0,
        priority: 0,
        number: 0,
        address: no_address(),
        length: 0,
        fields: 0,
        actions: 0,
    }
}

fn numbered(kind: u32, number: u64) -> ReplyHead
    ensures { result ≡ numbered kind number }
{
    let mut head = bare(kind);
    head.number = number;
    head
}

fn on_stream(kind: u32, id: StreamId) -> ReplyHead
    ensures { result ≡ numbered kind id }
{
    numbered(kind, id.into_u64())
}

fn on_session(kind: u32, id: SessionId) -> ReplyHead
    ensures { result ≡ numbered kind id }
{
    on_stream(kind, id.session_stream())
}

fn chosen(kind: u32, choice: u32) -> ReplyHead
    ensures { result ≡ chosen kind choice }
{
    let mut head = bare(kind);
    head.choice = choice;
    head
}

fn size_head(kind: u32, size: Option<u64>) -> ReplyHead
    ensures { result ≡ size_head kind size }
{
    let mut head = bare(kind);
    if let Some(size) = size {
        head.choice = 1;
        head.number = size;
    }
    head
}

fn read_head(kind: u32, read: &Option<Piece>) -> ReplyHead
    ensures { result ≡ read_head kind read.now }
{
    match read {
        None => bare(kind),
        Some(_) => chosen(kind, 1),
    }
}

fn priority_head(kind: u32, priority: i32) -> ReplyHead
    ensures { result ≡ record (bare kind) { priority = priority } }
{
    let mut head = bare(kind);
    head.priority = priority;
    head
}

fn with_cause(mut head: ReplyHead, cause: u32, number: u64) -> ReplyHead
    ensures { result ≡ record head { cause = cause; number = number } }
{
    head.cause = cause;
    head.number = number;
    head
}

fn with_code(mut head: ReplyHead, code: Option<VarInt>) -> ReplyHead
    ensures { result ≡ with_code code head }
{
    if let Some(code) = code {
        head.has_code = 1;
        head.number = code.into_inner();
    }
    head
}

/// With how the connection ended; no number is in the head yet.
fn with_connection(head: ReplyHead, error: &ConnectionError) -> ReplyHead
    requires { head.number ≡ 0 }
    ensures { result ≡ with_connection error.now head }
{
    match error {
        ConnectionError::ConnectionClosed(close) => with_cause(head, 0, close.code().into_inner()),
        ConnectionError::ApplicationClosed(close) => with_cause(head, 1, close.code().into_inner()),
        ConnectionError::LocallyClosed => with_cause(head, 2, 0),
        ConnectionError::LocalH3Error(error) => {
            with_cause(head, 3, error.code().to_code().into_inner())
        }
        ConnectionError::TimedOut => with_cause(head, 4, 0),
        ConnectionError::QuicProto(error) => with_code(with_cause(head, 5, 0), error.code()),
        ConnectionError::CidsExhausted => with_cause(head, 6, 0),
    }
}

fn refusal_number(refusal: UrlRefusal) -> u32
    ensures { result ≡ refusal_number refusal }
{
    match refusal {
        UrlRefusal::Parse => 0,
        UrlRefusal::Scheme => 1,
    }
}

fn remote_head(kind: u32, address: Addr) -> ReplyHead
    ensures { result ≡ record (chosen kind 9) { address = address_head address } }
{
    let mut head = chosen(kind, 9);
    head.address = address_head(address);
    head
}

fn connecting_head(kind: u32, error: &ConnectingError) -> ReplyHead
    ensures { result ≡ connecting_head kind error.now }
{
    match error {
        ConnectingError::InvalidUrl(refusal) => {
            with_cause(chosen(kind, 0), refusal_number(*refusal), 0)
        }
        ConnectingError::DnsLookup(_) => chosen(kind, 1),
        ConnectingError::DnsNotFound => chosen(kind, 2),
        ConnectingError::ConnectionError(error) => with_connection(chosen(kind, 3), error),
        ConnectingError::SessionRejected => chosen(kind, 4),
        ConnectingError::ReservedHeader(_) => chosen(kind, 5),
        ConnectingError::EndpointStopping => chosen(kind, 6),
        ConnectingError::CidsExhausted => chosen(kind, 7),
        ConnectingError::InvalidServerName(_) => chosen(kind, 8),
        ConnectingError::InvalidRemoteAddress(address) => remote_head(kind, *address),
    }
}

fn opening_head(kind: u32, error: StreamOpeningError) -> ReplyHead
    ensures { result ≡ opening_head kind error }
{
    match error {
        StreamOpeningError::NotConnected => chosen(kind, 0),
        StreamOpeningError::Refused => chosen(kind, 1),
    }
}

fn with_number(mut head: ReplyHead, number: u64) -> ReplyHead
    ensures { result ≡ record head { number = number } }
{
    head.number = number;
    head
}

fn write_head(kind: u32, error: StreamWriteError) -> ReplyHead
    ensures { result ≡ write_head kind error }
{
    match error {
        StreamWriteError::NotConnected => chosen(kind, 0),
        StreamWriteError::Closed => chosen(kind, 1),
        StreamWriteError::Stopped(code) => with_number(chosen(kind, 2), code.into_inner()),
        StreamWriteError::QuicProto => chosen(kind, 3),
    }
}

/// With why nothing could be read; no number is in the head yet.
fn with_read(head: ReplyHead, error: StreamReadError) -> ReplyHead
    requires { head.number ≡ 0 }
    ensures { result ≡ with_read error head }
{
    match error {
        StreamReadError::NotConnected => with_cause(head, 0, 0),
        StreamReadError::Reset(code) => with_cause(head, 1, code.into_inner()),
        StreamReadError::QuicProto => with_cause(head, 2, 0),
    }
}

fn exact_head(kind: u32, error: StreamReadExactError) -> ReplyHead
    ensures { result ≡ exact_head kind error }
{
    match error {
        StreamReadExactError::FinishedEarly(count) => with_number(chosen(kind, 0), count as u64),
        StreamReadExactError::Read(error) => with_read(chosen(kind, 1), error),
    }
}

fn datagram_head(kind: u32, error: SendDatagramError) -> ReplyHead
    ensures { result ≡ datagram_head kind error }
{
    match error {
        SendDatagramError::NotConnected => chosen(kind, 0),
        SendDatagramError::UnsupportedByPeer => chosen(kind, 1),
        SendDatagramError::TooLarge => chosen(kind, 2),
        SendDatagramError::Disabled => chosen(kind, 3),
    }
}

/// The head of a reply, with nothing of how much there is to read.
fn reply_head(reply: &Reply) -> ReplyHead
    ensures { result ≡ reply_head reply.now }
{
    match reply {
        Reply::Done => bare(0),
        Reply::Pending => bare(1),
        Reply::NoSession => bare(2),
        Reply::NoStream => bare(3),
        Reply::Request { id, .. } => on_session(4, *id),
        Reply::Session(id) => on_session(5, *id),
        Reply::Rejected => bare(6),
        Reply::Uni(id) => on_stream(7, *id),
        Reply::Bi(id) => on_stream(8, *id),
        Reply::Opening(id) => on_stream(9, *id),
        Reply::SendReady(id) => on_stream(10, *id),
        Reply::BiReady(id) => on_stream(11, *id),
        Reply::Id(id) => on_session(12, *id),
        Reply::Datagram(_) => bare(13),
        Reply::Size(size) => size_head(14, *size),
        Reply::Written(count) => numbered(15, *count),
        Reply::AllWritten => bare(16),
        Reply::Count(count) => numbered(17, *count),
        Reply::Finished => bare(18),
        Reply::Priority(priority) => priority_head(19, *priority),
        Reply::ClosedStream => bare(20),
        Reply::Read(read) => read_head(21, read),
        Reply::Exact(_) => bare(22),
        Reply::Failed(error) => with_connection(bare(23), error),
        Reply::Closed(error) => with_connection(bare(24), error),
        Reply::ConnectFailed(error) => connecting_head(25, error),
        Reply::OpeningFailed(error) => opening_head(26, *error),
        Reply::WriteFailed(error) => write_head(27, *error),
        Reply::StoppedBy(error) => write_head(28, *error),
        Reply::ReadFailed(error) => with_read(bare(29), *error),
        Reply::ExactFailed(error, _) => exact_head(30, *error),
        Reply::DatagramFailed(error) => datagram_head(31, *error),
    }
}

fn connection_bytes(error: &ConnectionError) -> &[u8]
    ensures { result.now ≡ connection_bytes error.now }
{
    match error {
        ConnectionError::ConnectionClosed(close) => close.reason(),
        ConnectionError::ApplicationClosed(close) => close.reason(),
        ConnectionError::QuicProto(error) => error.reason().as_bytes(),
        _ => b"",
    }
}

fn connecting_bytes(error: &ConnectingError) -> &[u8]
    ensures { result.now ≡ connecting_bytes error.now }
{
    match error {
        ConnectingError::DnsLookup(reason) => reason.as_str().as_bytes(),
        ConnectingError::ConnectionError(error) => connection_bytes(error),
        ConnectingError::ReservedHeader(name) => name.as_str().as_bytes(),
        ConnectingError::InvalidServerName(name) => name.as_str().as_bytes(),
        _ => b"",
    }
}

/// The bytes of a reply.
pub fn reply_bytes(reply: &Reply) -> &[u8]
    ensures { result.now ≡ reply_bytes reply.now }
{
    match reply {
        Reply::Datagram(piece) => piece.as_slice(),
        Reply::Read(Some(piece)) => piece.as_slice(),
        Reply::Exact(piece) => piece.as_slice(),
        Reply::Failed(error) => connection_bytes(error),
        Reply::Closed(error) => connection_bytes(error),
        Reply::ConnectFailed(error) => connecting_bytes(error),
        Reply::ExactFailed(_, piece) => piece.as_slice(),
        _ => b"",
    }
}

/// How many header fields a reply has.
fn field_count(reply: &Reply) -> usize
    ensures { result ≡ length (reply_fields reply.now) }
{
    match reply {
        Reply::Request { headers, .. } => headers.len(),
        _ => 0,
    }
}

/// The name and the value of a reply's header field; None where it has no such one.
pub fn reply_field(reply: &Reply, index: usize) -> Option<(&str, &str)>
    ensures { MatchOption result (slice_get (reply_fields reply.now) index ≡ None) (λ f. slice_get (reply_fields reply.now) index ≡ Some (f.0.now, f.1.now)) }
{
    match reply {
        Reply::Request { headers, .. } if index < headers.len() => Some(headers.at(index)),
        _ => None,
    }
}

/// The head of an answer.
pub fn answer_head(answer: &Answer) -> ReplyHead
    ensures { result ≡ answer_head answer.now }
{
    let mut head = reply_head(&answer.reply);
    head.length = reply_bytes(&answer.reply).len() as u64;
    head.fields = field_count(&answer.reply) as u64;
    head.actions = answer.actions.as_slice().len() as u64;
    head
}

/// The head where there is no answer.
pub fn no_answer() -> ReplyHead
    ensures { result ≡ bare 0 }
{
    bare(0)
}
