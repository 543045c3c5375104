//! Replies, as they are printed.
ghost use Rattle.std.specs.Prelude.{◌≡◌, IfOk};
ghost use Rattle.wt_script.specs.AnswerErrors.{if_bare};
ghost use Rattle.wt_script.specs.Answers.{bare_reply_of, data_reply_of, failure_of, id_reply_of, number_reply_of, reply_of_words, reply_with, request_of, size_of, stream_failure_of};
ghost use Rattle.wt_script.specs.Words.{words};

use crate::answers::ended::{read_connecting, read_ended};
use crate::answers::errors::{
    read_datagram_error, read_exact_failed, read_opening, read_read_error, read_write_error,
};
use crate::names;
use crate::script::headers::read_headers;
use crate::script::numbers::{read_count, read_priority, read_session};
use crate::script::pairs::{bytes_alone, count_alone, id_alone, session_alone};
use crate::script::words::{Parts, is_word};
use std::alloc::Global;
use wt_turn::reply::Reply;
use wt_wire::error::OutOfMemory;

fn bare_reply(name: &[u8]) -> Option<Reply>
    ensures { result ≡ bare_reply_of name.now }
{
    if is_word(name, names::DONE) {
        return Some(Reply::Done);
    }
    if is_word(name, names::PENDING) {
        return Some(Reply::Pending);
    }
    if is_word(name, names::NO_SESSION) {
        return Some(Reply::NoSession);
    }
    if is_word(name, names::NO_STREAM) {
        return Some(Reply::NoStream);
    }
    if is_word(name, names::REJECTED) {
        return Some(Reply::Rejected);
    }
    if is_word(name, names::ALL_WRITTEN) {
        return Some(Reply::AllWritten);
    }
    if is_word(name, names::FINISHED) {
        return Some(Reply::Finished);
    }
    if is_word(name, names::CLOSED_STREAM) {
        return Some(Reply::ClosedStream);
    }
    if is_word(name, names::END) {
        return Some(Reply::Read(None));
    }
    None
}

/// The replies without fields.
fn read_bare_reply(name: &[u8], fields: &Parts) -> Option<Reply>
    ensures { result ≡ if_bare bare_reply_of name.now fields.now }
{
    if fields.is_empty() {
        bare_reply(name)
    } else {
        None
    }
}

/// The replies that name a stream or a session.
fn read_id_reply(name: &[u8], fields: &Parts) -> Option<Reply>
    ensures { result ≡ id_reply_of name.now fields.now }
{
    if is_word(name, names::SESSION) {
        return session_alone(fields).map(Reply::Session);
    }
    if is_word(name, names::UNI) {
        return id_alone(fields).map(Reply::Uni);
    }
    if is_word(name, names::BI) {
        return id_alone(fields).map(Reply::Bi);
    }
    if is_word(name, names::OPENING) {
        return id_alone(fields).map(Reply::Opening);
    }
    if is_word(name, names::SEND_READY) {
        return id_alone(fields).map(Reply::SendReady);
    }
    if is_word(name, names::BI_READY) {
        return id_alone(fields).map(Reply::BiReady);
    }
    if is_word(name, names::ID) {
        return session_alone(fields).map(Reply::Id);
    }
    None
}

fn read_size(word: &[u8]) -> Option<Option<u64>>
    ensures { result ≡ size_of word.now }
{
    if is_word(word, names::NONE) {
        Some(None)
    } else {
        read_count(word).map(Some)
    }
}

/// The replies that give a number.
fn read_number_reply(name: &[u8], fields: &Parts) -> Option<Reply>
    ensures { result ≡ number_reply_of name.now fields.now }
{
    if is_word(name, names::SIZE) {
        return read_size(fields.one()?).map(Reply::Size);
    }
    if is_word(name, names::WRITTEN) {
        return count_alone(fields).map(Reply::Written);
    }
    if is_word(name, names::COUNT) {
        return count_alone(fields).map(Reply::Count);
    }
    if is_word(name, names::PRIORITY) {
        return read_priority(fields.one()?).map(Reply::Priority);
    }
    None
}

fn read_request(alloc: Global, fields: &Parts) -> Result<Option<Reply>, OutOfMemory>
    ensures { IfOk result (λ reply. reply ≡ request_of fields.now) }
{
    let Some((id, words)) = fields.split_first() else {
        return Ok(None);
    };
    let Some(id) = read_session(id) else {
        return Ok(None);
    };
    let headers = read_headers(alloc, &words)?;
    Ok(headers.map(|headers| Reply::Request { id, headers }))
}

/// The replies that carry header fields or bytes.
fn read_data_reply(alloc: Global, name: &[u8], fields: &Parts) -> Result<Option<Reply>, OutOfMemory>
    ensures { IfOk result (λ reply. reply ≡ data_reply_of name.now fields.now) }
{
    if is_word(name, names::REQUEST) {
        return read_request(alloc, fields);
    }
    if is_word(name, names::DATAGRAM) {
        return Ok(bytes_alone(alloc, fields)?.map(Reply::Datagram));
    }
    if is_word(name, names::READ) {
        let piece = bytes_alone(alloc, fields)?;
        return Ok(piece.map(|piece| Reply::Read(Some(piece))));
    }
    if is_word(name, names::EXACT) {
        return Ok(bytes_alone(alloc, fields)?.map(Reply::Exact));
    }
    Ok(None)
}

/// The replies that say why a call on a stream or a datagram failed.
fn read_stream_failure(name: &[u8], fields: &Parts) -> Option<Reply>
    ensures { result ≡ stream_failure_of name.now fields.now }
{
    if is_word(name, names::OPENING_FAILED) {
        return read_opening(fields).map(Reply::OpeningFailed);
    }
    if is_word(name, names::WRITE_FAILED) {
        return read_write_error(fields).map(Reply::WriteFailed);
    }
    if is_word(name, names::STOPPED_BY) {
        return read_write_error(fields).map(Reply::StoppedBy);
    }
    if is_word(name, names::READ_FAILED) {
        return read_read_error(fields).map(Reply::ReadFailed);
    }
    if is_word(name, names::DATAGRAM_FAILED) {
        return read_datagram_error(fields).map(Reply::DatagramFailed);
    }
    None
}

/// The other replies that say why a call failed.
fn read_failure(alloc: Global, name: &[u8], fields: &Parts) -> Result<Option<Reply>, OutOfMemory>
    ensures { IfOk result (λ reply. reply ≡ failure_of name.now fields.now) }
{
    if is_word(name, names::FAILED) {
        return Ok(read_ended(alloc, fields)?.map(Reply::Failed));
    }
    if is_word(name, names::CLOSED) {
        return Ok(read_ended(alloc, fields)?.map(Reply::Closed));
    }
    if is_word(name, names::CONNECT_FAILED) {
        return Ok(read_connecting(alloc, fields)?.map(Reply::ConnectFailed));
    }
    if is_word(name, names::EXACT_FAILED) {
        let failed = read_exact_failed(alloc, fields)?;
        return Ok(failed.map(|(error, piece)| Reply::ExactFailed(error, piece)));
    }
    Ok(read_stream_failure(name, fields))
}

/// The reply by its name and its fields.
fn reply_with(alloc: Global, name: &[u8], fields: &Parts) -> Result<Option<Reply>, OutOfMemory>
    ensures { IfOk result (λ reply. reply ≡ reply_with name.now fields.now) }
{
    if let Some(reply) = read_bare_reply(name, fields) {
        return Ok(Some(reply));
    }
    if let Some(reply) = read_id_reply(name, fields) {
        return Ok(Some(reply));
    }
    if let Some(reply) = read_number_reply(name, fields) {
        return Ok(Some(reply));
    }
    if let Some(reply) = read_data_reply(alloc, name, fields)? {
        return Ok(Some(reply));
    }
    read_failure(alloc, name, fields)
}

/// The reply that these bytes spell.
pub fn read_reply(alloc: Global, part: &[u8]) -> Result<Option<Reply>, OutOfMemory>
    ensures { IfOk result (λ reply. reply ≡ reply_of_words (words part.now)) }
{
    match Parts::of_line(part).split_first() {
        Some((name, fields)) => reply_with(alloc, name, &fields),
        None => Ok(None),
    }
}
