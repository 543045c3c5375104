//! Why a call on a stream or a datagram failed, as it is printed.
ghost use Rattle.std.specs.Prelude.{◌≡◌, ◌∷◌, IfOk};
ghost use Rattle.std.specs.Option.{option_map};
ghost use Rattle.wt_script.specs.AnswerErrors.{datagram_error_of, exact_failed_of, opening_of, read_error_of, read_failed_of, with_bytes, write_error_of};
ghost use Rattle.wt_script.specs.Numbers.{bytes_of, count_of};
ghost use Rattle.wt_script.specs.Words.{one, two};

use crate::names;
use crate::script::pairs::{code_alone, count_and_bytes};
use crate::script::words::{Parts, is_word};
use std::alloc::Global;
use wt_turn::piece::Piece;
use wt_turn::stream_error::{
    SendDatagramError, StreamOpeningError, StreamReadError, StreamReadExactError, StreamWriteError,
};
use wt_wire::error::OutOfMemory;

/// Why a stream couldn't be opened.
pub fn read_opening(fields: &Parts) -> Option<StreamOpeningError>
    ensures { result ≡ one opening_of fields.now }
{
    let name = fields.one()?;
    if is_word(name, names::NOT_CONNECTED) {
        return Some(StreamOpeningError::NotConnected);
    }
    if is_word(name, names::REFUSED) {
        return Some(StreamOpeningError::Refused);
    }
    None
}

/// Why a datagram couldn't be sent.
pub fn read_datagram_error(fields: &Parts) -> Option<SendDatagramError>
    ensures { result ≡ one datagram_error_of fields.now }
{
    let name = fields.one()?;
    if is_word(name, names::NOT_CONNECTED) {
        return Some(SendDatagramError::NotConnected);
    }
    if is_word(name, names::UNSUPPORTED) {
        return Some(SendDatagramError::UnsupportedByPeer);
    }
    if is_word(name, names::TOO_LARGE) {
        return Some(SendDatagramError::TooLarge);
    }
    if is_word(name, names::DISABLED) {
        return Some(SendDatagramError::Disabled);
    }
    None
}

/// Why nothing could be written.
pub fn read_write_error(fields: &Parts) -> Option<StreamWriteError>
    ensures { result ≡ write_error_of fields.now }
{
    let (name, fields) = fields.split_first()?;
    if is_word(name, names::NOT_CONNECTED) {
        return fields.alone(StreamWriteError::NotConnected);
    }
    if is_word(name, names::CLOSED) {
        return fields.alone(StreamWriteError::Closed);
    }
    if is_word(name, names::STOPPED) {
        return code_alone(&fields).map(StreamWriteError::Stopped);
    }
    if is_word(name, names::QUIC_PROTO) {
        return fields.alone(StreamWriteError::QuicProto);
    }
    None
}

/// Why nothing could be read.
pub fn read_read_error(fields: &Parts) -> Option<StreamReadError>
    ensures { result ≡ read_error_of fields.now }
{
    let (name, fields) = fields.split_first()?;
    if is_word(name, names::NOT_CONNECTED) {
        return fields.alone(StreamReadError::NotConnected);
    }
    if is_word(name, names::RESET) {
        return code_alone(&fields).map(StreamReadError::Reset);
    }
    if is_word(name, names::QUIC_PROTO) {
        return fields.alone(StreamReadError::QuicProto);
    }
    None
}

/// The stream ended: how many bytes were read, and which.
fn finished_early(
    alloc: Global,
    fields: &Parts,
) -> Result<Option<(StreamReadExactError, Piece)>, OutOfMemory>
    ensures { IfOk result (λ failed. failed ≡ option_map with_bytes (two count_of bytes_of fields.now)) }
{
    match count_and_bytes(alloc, fields)? {
        Some((count, piece)) => Ok(Some((
            StreamReadExactError::FinishedEarly(count as usize),
            piece,
        ))),
        None => Ok(None),
    }
}

/// An error that tells no bytes.
fn read_failed(alloc: Global, fields: &Parts) -> Option<(StreamReadExactError, Piece)>
    ensures { result ≡ read_failed_of fields.now }
{
    let error = read_read_error(fields)?;
    Some((StreamReadExactError::Read(error), Piece::new(alloc)))
}

/// The same as [`read_exact_failed`], by the name and what follows it.
fn exact_failed_with(
    alloc: Global,
    name: &[u8],
    found: &Parts,
    fields: &Parts,
) -> Result<Option<(StreamReadExactError, Piece)>, OutOfMemory>
    requires { fields.now ≡ name.now ∷ found.now }
    ensures { IfOk result (λ failed. failed ≡ exact_failed_of fields.now) }
{
    if is_word(name, names::FINISHED_EARLY) {
        finished_early(alloc, found)
    } else {
        Ok(read_failed(alloc, fields))
    }
}

/// Why fewer bytes were read than were asked for, and the bytes where the stream ended.
pub fn read_exact_failed(
    alloc: Global,
    fields: &Parts,
) -> Result<Option<(StreamReadExactError, Piece)>, OutOfMemory>
    ensures { IfOk result (λ failed. failed ≡ exact_failed_of fields.now) }
{
    match fields.split_first() {
        Some((name, found)) => exact_failed_with(alloc, name, &found, fields),
        None => Ok(read_failed(alloc, fields)),
    }
}
