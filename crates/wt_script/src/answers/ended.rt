//! How a connection ended, and why a connect failed, as they are printed.
ghost use Rattle.std.specs.Prelude.{◌≡◌, IfOk};
ghost use Rattle.wt_script.specs.AnswerErrors.{address_of_word, bare_connecting_of, bare_end_of, close_of, connecting_of, connecting_with, ended_of, ended_with, error_of, if_bare, local_of, optional_code_of, plain_connecting_of, proto_of, refusal_of};
ghost use Rattle.wt_script.specs.Words.{one};

use crate::names;
use crate::script::addresses::read_address;
use crate::script::numbers::{read_code, read_text};
use crate::script::pairs::{code_alone, code_and_bytes, text_alone};
use crate::script::words::{Parts, is_word};
use std::alloc::Global;
use wt_turn::close::PeerClose;
use wt_turn::connecting_error::{ConnectingError, UrlRefusal};
use wt_turn::connection_error::{ConnectionError, H3Error, QuicProtoError};
use wt_wire::addr::Addr;
use wt_wire::error::{ErrorCode, OutOfMemory};
use wt_wire::varint::VarInt;

/// The peer's code and reason.
fn read_close<B>(alloc: Global, fields: &Parts) -> Result<Option<PeerClose<B>>, OutOfMemory>
    ensures { IfOk result (λ close. close ≡ close_of fields.now) }
{
    let fields = code_and_bytes(alloc, fields)?;
    Ok(fields.map(|(code, reason)| PeerClose::new(code, reason)))
}

/// The error of this code.
#[tactic(auto, using(crate::proofs::ErrorLaws::error_is, crate::proofs::ErrorLaws::no_error))]
fn error_of(code: VarInt) -> Option<ErrorCode>
    ensures { result ≡ error_of code }
{
    match ErrorCode::from_code(code) {
        Some(error) => Some(error),
        None => None,
    }
}

/// The code with which this end closed.
fn read_local(fields: &Parts) -> Option<H3Error>
    ensures { result ≡ local_of fields.now }
{
    let error = error_of(code_alone(fields)?)?;
    Some(H3Error::new(error))
}

fn read_optional_code(word: &[u8]) -> Option<Option<VarInt>>
    ensures { result ≡ optional_code_of word.now }
{
    if is_word(word, names::NONE) {
        Some(None)
    } else {
        read_code(word).map(Some)
    }
}

fn read_proto_error(alloc: Global, fields: &Parts) -> Result<Option<QuicProtoError>, OutOfMemory>
    ensures { IfOk result (λ error. error ≡ proto_of fields.now) }
{
    let Some((code, reason)) = fields.two() else {
        return Ok(None);
    };
    let Some(code) = read_optional_code(code) else {
        return Ok(None);
    };
    let reason = read_text(alloc, reason)?;
    Ok(reason.map(|reason| QuicProtoError::new(code, reason)))
}

/// The ends without fields.
fn bare_end(name: &[u8]) -> Option<ConnectionError>
    ensures { result ≡ bare_end_of name.now }
{
    if is_word(name, names::LOCALLY_CLOSED) {
        return Some(ConnectionError::LocallyClosed);
    }
    if is_word(name, names::TIMED_OUT) {
        return Some(ConnectionError::TimedOut);
    }
    if is_word(name, names::CIDS_EXHAUSTED) {
        return Some(ConnectionError::CidsExhausted);
    }
    None
}

/// The ends without fields, where none follows.
fn read_bare_end(name: &[u8], fields: &Parts) -> Option<ConnectionError>
    ensures { result ≡ if_bare bare_end_of name.now fields.now }
{
    if fields.is_empty() {
        bare_end(name)
    } else {
        None
    }
}

fn ended_with(
    alloc: Global,
    name: &[u8],
    fields: &Parts,
) -> Result<Option<ConnectionError>, OutOfMemory>
    ensures { IfOk result (λ error. error ≡ ended_with name.now fields.now) }
{
    if is_word(name, names::CONNECTION_CLOSED) {
        return Ok(read_close(alloc, fields)?.map(ConnectionError::ConnectionClosed));
    }
    if is_word(name, names::APPLICATION_CLOSED) {
        return Ok(read_close(alloc, fields)?.map(ConnectionError::ApplicationClosed));
    }
    if is_word(name, names::LOCAL_H3) {
        return Ok(read_local(fields).map(ConnectionError::LocalH3Error));
    }
    if is_word(name, names::QUIC_PROTO) {
        return Ok(read_proto_error(alloc, fields)?.map(ConnectionError::QuicProto));
    }
    Ok(read_bare_end(name, fields))
}

/// How a connection ended.
pub fn read_ended(alloc: Global, fields: &Parts) -> Result<Option<ConnectionError>, OutOfMemory>
    ensures { IfOk result (λ error. error ≡ ended_of fields.now) }
{
    match fields.split_first() {
        Some((name, fields)) => ended_with(alloc, name, &fields),
        None => Ok(None),
    }
}

fn read_refusal(fields: &Parts) -> Option<UrlRefusal>
    ensures { result ≡ one refusal_of fields.now }
{
    let name = fields.one()?;
    if is_word(name, names::PARSE) {
        return Some(UrlRefusal::Parse);
    }
    if is_word(name, names::SCHEME) {
        return Some(UrlRefusal::Scheme);
    }
    None
}

fn address_alone(fields: &Parts) -> Option<Addr>
    ensures { result ≡ one address_of_word fields.now }
{
    read_address(&Parts::of(b':', fields.one()?))
}

fn bare_connecting(name: &[u8]) -> Option<ConnectingError>
    ensures { result ≡ bare_connecting_of name.now }
{
    if is_word(name, names::DNS_NOT_FOUND) {
        return Some(ConnectingError::DnsNotFound);
    }
    if is_word(name, names::SESSION_REJECTED) {
        return Some(ConnectingError::SessionRejected);
    }
    if is_word(name, names::ENDPOINT_STOPPING) {
        return Some(ConnectingError::EndpointStopping);
    }
    if is_word(name, names::CIDS_EXHAUSTED) {
        return Some(ConnectingError::CidsExhausted);
    }
    None
}

/// The failed connects that carry no text.
fn read_plain_connecting(name: &[u8], fields: &Parts) -> Option<ConnectingError>
    ensures { result ≡ plain_connecting_of name.now fields.now }
{
    if is_word(name, names::INVALID_URL) {
        return read_refusal(fields).map(ConnectingError::InvalidUrl);
    }
    if is_word(name, names::INVALID_REMOTE_ADDRESS) {
        return address_alone(fields).map(ConnectingError::InvalidRemoteAddress);
    }
    if fields.is_empty() {
        bare_connecting(name)
    } else {
        None
    }
}

fn connecting_with(
    alloc: Global,
    name: &[u8],
    fields: &Parts,
) -> Result<Option<ConnectingError>, OutOfMemory>
    ensures { IfOk result (λ error. error ≡ connecting_with name.now fields.now) }
{
    if is_word(name, names::DNS_LOOKUP) {
        return Ok(text_alone(alloc, fields)?.map(ConnectingError::DnsLookup));
    }
    if is_word(name, names::CONNECTION) {
        return Ok(read_ended(alloc, fields)?.map(ConnectingError::ConnectionError));
    }
    if is_word(name, names::RESERVED_HEADER) {
        return Ok(text_alone(alloc, fields)?.map(ConnectingError::ReservedHeader));
    }
    if is_word(name, names::INVALID_SERVER_NAME) {
        return Ok(text_alone(alloc, fields)?.map(ConnectingError::InvalidServerName));
    }
    Ok(read_plain_connecting(name, fields))
}

/// Why a connect failed.
pub fn read_connecting(
    alloc: Global,
    fields: &Parts,
) -> Result<Option<ConnectingError>, OutOfMemory>
    ensures { IfOk result (λ error. error ≡ connecting_of fields.now) }
{
    match fields.split_first() {
        Some((name, fields)) => connecting_with(alloc, name, &fields),
        None => Ok(None),
    }
}
