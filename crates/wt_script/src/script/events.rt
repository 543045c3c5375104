//! The events of the transport that a line spells.
ghost use Rattle.std.specs.Prelude.{◌≡◌, ◌∷◌, [], IfOk, Some, None};
ghost use Rattle.std.specs.Option.{option_map};
ghost use Rattle.wt_script.specs.Events.{bare_loss_of, connected_of, data_event_of, event_of_words, fact_of, limit_event_of, loss_of_words, stream_event_of, coded_loss_of, close_of_words};
ghost use Rattle.wt_script.specs.Numbers.{id_of, text_of_word};
ghost use Rattle.wt_script.specs.Words.{one, two};
ghost use Rattle.wt_turn.specs.declared.loss.LossReason.TheVariants as losses;

use crate::script::numbers::read_count;
use crate::script::pairs::{
    bytes_alone, code_and_bytes, code_and_text, count_alone, id_alone, id_and_bytes, id_and_code,
    id_and_count,
};
use crate::script::words::{Parts, is_name};
use std::alloc::Global;
use wt_turn::close::PeerClose;
use wt_turn::datagram_fact::DatagramFact;
use wt_turn::loss::LossReason;
use wt_turn::turn::Turn;
use wt_wire::error::OutOfMemory;

/// What the transport reports about datagrams.
fn read_fact(word: &[u8]) -> Option<DatagramFact>
    ensures { result ≡ fact_of word.now }
{
    if is_name(word, b"off") {
        return Some(DatagramFact::Disabled);
    }
    if is_name(word, b"unsupported") {
        return Some(DatagramFact::Unsupported);
    }
    let limit = read_count(word)?;
    Some(DatagramFact::Limit(limit))
}

fn fact_alone(fields: &Parts) -> Option<DatagramFact>
    ensures { result ≡ one fact_of fields.now }
{
    read_fact(fields.one()?)
}

fn read_bare_loss(kind: &[u8]) -> Option<LossReason>
    ensures { result ≡ bare_loss_of kind.now }
{
    if is_name(kind, b"version_mismatch") {
        return Some(LossReason::VersionMismatch);
    }
    if is_name(kind, b"reset") {
        return Some(LossReason::Reset);
    }
    if is_name(kind, b"timed_out") {
        return Some(LossReason::TimedOut);
    }
    if is_name(kind, b"cids_exhausted") {
        return Some(LossReason::CidsExhausted);
    }
    None
}

fn read_transport_error(alloc: Global, fields: &Parts) -> Result<Option<LossReason>, OutOfMemory>
    ensures { IfOk result (λ loss. loss ≡ option_map (λ p. losses.TransportError p.0 p.1) (two id_of text_of_word fields.now)) }
{
    match code_and_text(alloc, fields)? {
        Some((code, reason)) => Ok(Some(LossReason::TransportError {
            code: code.into_inner(),
            reason,
        })),
        None => Ok(None),
    }
}

/// A close of the peer: its code and its reason.
fn read_close<B>(alloc: Global, fields: &Parts) -> Result<Option<PeerClose<B>>, OutOfMemory>
    ensures { IfOk result (λ close. close ≡ close_of_words fields.now) }
{
    match code_and_bytes(alloc, fields)? {
        Some((code, reason)) => Ok(Some(PeerClose::new(code, reason))),
        None => Ok(None),
    }
}

fn read_coded_loss(
    alloc: Global,
    kind: &[u8],
    fields: &Parts,
) -> Result<Option<LossReason>, OutOfMemory>
    ensures { IfOk result (λ loss. loss ≡ coded_loss_of kind.now fields.now) }
{
    if is_name(kind, b"transport") {
        return read_transport_error(alloc, fields);
    }
    if is_name(kind, b"connection") {
        let close = read_close(alloc, fields)?;
        return Ok(close.map(LossReason::ConnectionClosed));
    }
    if is_name(kind, b"application") {
        let close = read_close(alloc, fields)?;
        return Ok(close.map(LossReason::ApplicationClosed));
    }
    Ok(None)
}

/// Why the connection is lost.
fn read_loss(alloc: Global, fields: &Parts) -> Result<Option<LossReason>, OutOfMemory>
    ensures { IfOk result (λ loss. loss ≡ loss_of_words fields.now) }
{
    let Some((kind, fields)) = fields.split_first() else {
        return Ok(None);
    };
    if fields.is_empty() {
        return Ok(read_bare_loss(kind));
    }
    read_coded_loss(alloc, kind, &fields)
}

fn connected_with(uni: &[u8], bi: &[u8], credit: &[u8], datagrams: &[u8]) -> Option<Turn>
    ensures { result ≡ connected_of (uni.now ∷ bi.now ∷ credit.now ∷ datagrams.now ∷ []) }
{
    Some(Turn::Connected {
        uni: read_count(uni)?,
        bi: read_count(bi)?,
        credit: read_count(credit)?,
        datagrams: read_fact(datagrams)?,
    })
}

/// The event `connected`, by its fields.
pub fn read_connected(fields: &Parts) -> Option<Turn>
    ensures { result ≡ connected_of fields.now }
{
    let (uni, fields) = fields.split_first()?;
    let (bi, fields) = fields.split_first()?;
    let (credit, datagrams) = fields.two()?;
    connected_with(uni, bi, credit, datagrams)
}

/// The events that carry bytes or a text.
fn read_data_event(alloc: Global, name: &[u8], fields: &Parts) -> Result<Option<Turn>, OutOfMemory>
    ensures { IfOk result (λ turn. turn ≡ data_event_of name.now fields.now) }
{
    if is_name(name, b"bytes") {
        let fields = id_and_bytes(alloc, fields)?;
        return Ok(fields.map(|(id, piece)| Turn::Bytes { id, piece }));
    }
    if is_name(name, b"datagram") {
        let piece = bytes_alone(alloc, fields)?;
        return Ok(piece.map(|piece| Turn::Datagram { piece }));
    }
    if is_name(name, b"loss") {
        let reason = read_loss(alloc, fields)?;
        return Ok(reason.map(|reason| Turn::Loss { reason }));
    }
    Ok(None)
}

/// The events of a stream.
fn read_stream_event(name: &[u8], fields: &Parts) -> Option<Turn>
    ensures { result ≡ stream_event_of name.now fields.now }
{
    if is_name(name, b"peer_uni") {
        return fields.alone(Turn::PeerUni);
    }
    if is_name(name, b"peer_bi") {
        return fields.alone(Turn::PeerBi);
    }
    if is_name(name, b"end") {
        return id_alone(fields).map(|id| Turn::End { id });
    }
    if is_name(name, b"reset") {
        return id_and_code(fields).map(|(id, code)| Turn::Reset { id, code });
    }
    if is_name(name, b"stop") {
        return id_and_code(fields).map(|(id, code)| Turn::Stop { id, code });
    }
    if is_name(name, b"acked") {
        return id_alone(fields).map(|id| Turn::Acked { id });
    }
    None
}

/// The events that tell of limits.
fn read_limit_event(name: &[u8], fields: &Parts) -> Option<Turn>
    ensures { result ≡ limit_event_of name.now fields.now }
{
    if is_name(name, b"connected") {
        return read_connected(fields);
    }
    if is_name(name, b"max_uni") {
        return count_alone(fields).map(|total| Turn::MaxUni { total });
    }
    if is_name(name, b"max_bi") {
        return count_alone(fields).map(|total| Turn::MaxBi { total });
    }
    if is_name(name, b"max_data") {
        return id_and_count(fields).map(|(id, total)| Turn::MaxData { id, total });
    }
    if is_name(name, b"datagram_limit") {
        return fact_alone(fields).map(|fact| Turn::DatagramLimit { fact });
    }
    None
}

/// The event of the transport by its name and its fields.
pub fn read_event(alloc: Global, name: &[u8], fields: &Parts) -> Result<Option<Turn>, OutOfMemory>
    ensures { IfOk result (λ turn. turn ≡ event_of_words name.now fields.now) }
{
    if let Some(turn) = read_data_event(alloc, name, fields)? {
        return Ok(Some(turn));
    }
    if let Some(turn) = read_stream_event(name, fields) {
        return Ok(Some(turn));
    }
    Ok(read_limit_event(name, fields))
}
