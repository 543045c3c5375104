//! The turn of a head and bytes.
ghost use Rattle.std.specs.Prelude.{◌≡◌, [], IfOk};
ghost use Rattle.std.specs.Option.{option_map};
ghost use Rattle.wt_abi.specs.declared.kinds.CallKind.TheVariants as of;
ghost use Rattle.wt_abi.specs.declared.kinds.EventKind.TheVariants as event;
ghost use Rattle.wt_abi.specs.Numbers.{code_of, session_of, stream_of};
ghost use Rattle.wt_abi.specs.Turns.{call_with, event_with, turn_of};

use crate::connecting::{read_connect, read_loss};
use crate::head::TurnHead;
use crate::kinds::{CallKind, EventKind};
use crate::numbers::{read_code, read_fact, read_session, read_stream, read_stream_and_code};
use crate::texts::read_fields;
use std::alloc::Global;
use wt_turn::{Call, Piece, Turn};
use wt_wire::error::OutOfMemory;
use wt_wire::ids::{SessionId, StreamId};
use wt_wire::varint::VarInt;

/// The number of the first kind of calls; those below are events'.
pub const CALLS: u32 = 64;

/// The stream, and the bytes.
fn stream_and_piece(
    alloc: Global,
    head: &TurnHead,
    bytes: &[u8],
) -> Result<Option<(StreamId, Piece)>, OutOfMemory>
    ensures { IfOk result (λ p. p ≡ option_map (λ id. (id, bytes.now)) (stream_of head.now)) }
{
    match read_stream(head) {
        Some(id) => Ok(Some((id, Piece::from_slice(alloc, bytes)?))),
        None => Ok(None),
    }
}

/// The code, and the bytes.
fn code_and_piece(
    alloc: Global,
    head: &TurnHead,
    bytes: &[u8],
) -> Result<Option<(VarInt, Piece)>, OutOfMemory>
    ensures { IfOk result (λ p. p ≡ option_map (λ code. (code, bytes.now)) (code_of head.now)) }
{
    match read_code(head) {
        Some(code) => Ok(Some((code, Piece::from_slice(alloc, bytes)?))),
        None => Ok(None),
    }
}

/// The session, and the bytes.
fn session_and_piece(
    alloc: Global,
    head: &TurnHead,
    bytes: &[u8],
) -> Result<Option<(Option<SessionId>, Piece)>, OutOfMemory>
    ensures { IfOk result (λ p. p ≡ option_map (λ session. (session, bytes.now)) (session_of head.now)) }
{
    match read_session(head) {
        Some(session) => Ok(Some((session, Piece::from_slice(alloc, bytes)?))),
        None => Ok(None),
    }
}

fn read_connected(head: &TurnHead) -> Option<Turn>
    ensures { result ≡ event_with event.Connected head.now [] }
{
    let datagrams = read_fact(head)?;
    Some(Turn::Connected {
        uni: head.uni,
        bi: head.bi,
        credit: head.number,
        datagrams,
    })
}

fn read_max_data(head: &TurnHead) -> Option<Turn>
    ensures { result ≡ event_with event.MaxData head.now [] }
{
    let id = read_stream(head)?;
    Some(Turn::MaxData {
        id,
        total: head.number,
    })
}

/// The event of this kind.
fn read_event(
    alloc: Global,
    kind: EventKind,
    head: &TurnHead,
    bytes: &[u8],
) -> Result<Option<Turn>, OutOfMemory>
    ensures { IfOk result (λ turn. turn ≡ event_with kind head.now bytes.now) }
{
    match kind {
        EventKind::Connected => Ok(read_connected(head)),
        EventKind::PeerUni => Ok(Some(Turn::PeerUni)),
        EventKind::PeerBi => Ok(Some(Turn::PeerBi)),
        EventKind::Bytes => {
            let fields = stream_and_piece(alloc, head, bytes)?;
            Ok(fields.map(|(id, piece)| Turn::Bytes { id, piece }))
        }
        EventKind::End => Ok(read_stream(head).map(|id| Turn::End { id })),
        EventKind::Reset => Ok(read_stream_and_code(head).map(|(id, code)| Turn::Reset {
            id,
            code,
        })),
        EventKind::Stop => Ok(read_stream_and_code(head).map(|(id, code)| Turn::Stop { id, code })),
        EventKind::Acked => Ok(read_stream(head).map(|id| Turn::Acked { id })),
        EventKind::Datagram => Ok(Some(Turn::Datagram {
            piece: Piece::from_slice(alloc, bytes)?,
        })),
        EventKind::MaxUni => Ok(Some(Turn::MaxUni { total: head.number })),
        EventKind::MaxBi => Ok(Some(Turn::MaxBi { total: head.number })),
        EventKind::MaxData => Ok(read_max_data(head)),
        EventKind::DatagramLimit => Ok(read_fact(head).map(|fact| Turn::DatagramLimit { fact })),
        EventKind::Loss => {
            let reason = read_loss(alloc, head, bytes)?;
            Ok(reason.map(|reason| Turn::Loss { reason }))
        }
    }
}

fn read_accept(alloc: Global, head: &TurnHead, bytes: &[u8]) -> Result<Option<Call>, OutOfMemory>
    ensures { IfOk result (λ call. call ≡ call_with of.Accept head.now bytes.now) }
{
    let headers = read_fields(alloc, head.fields, bytes)?;
    Ok(headers.map(|headers| Call::Accept { headers }))
}

fn read_endpoint_close(
    alloc: Global,
    head: &TurnHead,
    bytes: &[u8],
) -> Result<Option<Call>, OutOfMemory>
    ensures { IfOk result (λ call. call ≡ call_with of.EndpointClose head.now bytes.now) }
{
    let fields = code_and_piece(alloc, head, bytes)?;
    Ok(fields.map(|(code, reason)| Call::EndpointClose { code, reason }))
}

fn read_close(alloc: Global, head: &TurnHead, bytes: &[u8]) -> Result<Option<Call>, OutOfMemory>
    ensures { IfOk result (λ call. call ≡ call_with of.Close head.now bytes.now) }
{
    let fields = code_and_piece(alloc, head, bytes)?;
    Ok(fields.map(|(code, reason)| Call::Close { code, reason }))
}

fn read_datagram(alloc: Global, head: &TurnHead, bytes: &[u8]) -> Result<Option<Call>, OutOfMemory>
    ensures { IfOk result (λ call. call ≡ call_with of.SendDatagram head.now bytes.now) }
{
    let fields = session_and_piece(alloc, head, bytes)?;
    Ok(fields.map(|(session, payload)| Call::SendDatagram { payload, session }))
}

fn read_write(alloc: Global, head: &TurnHead, bytes: &[u8]) -> Result<Option<Call>, OutOfMemory>
    ensures { IfOk result (λ call. call ≡ call_with of.Write head.now bytes.now) }
{
    let fields = stream_and_piece(alloc, head, bytes)?;
    Ok(fields.map(|(id, bytes)| Call::Write { id, bytes }))
}

fn read_write_all(alloc: Global, head: &TurnHead, bytes: &[u8]) -> Result<Option<Call>, OutOfMemory>
    ensures { IfOk result (λ call. call ≡ call_with of.WriteAll head.now bytes.now) }
{
    let fields = stream_and_piece(alloc, head, bytes)?;
    Ok(fields.map(|(id, bytes)| Call::WriteAll { id, bytes }))
}

fn read_set_priority(head: &TurnHead) -> Option<Call>
    ensures { result ≡ call_with of.SetPriority head.now [] }
{
    let id = read_stream(head)?;
    Some(Call::SetPriority {
        id,
        priority: head.priority,
    })
}

fn read_read(head: &TurnHead) -> Option<Call>
    ensures { result ≡ call_with of.Read head.now [] }
{
    let id = read_stream(head)?;
    Some(Call::Read {
        id,
        size: head.number,
    })
}

fn read_read_exact(head: &TurnHead) -> Option<Call>
    ensures { result ≡ call_with of.ReadExact head.now [] }
{
    let id = read_stream(head)?;
    Some(Call::ReadExact {
        id,
        size: head.number,
    })
}

/// The call of this kind.
fn read_call(
    alloc: Global,
    kind: CallKind,
    head: &TurnHead,
    bytes: &[u8],
) -> Result<Option<Call>, OutOfMemory>
    ensures { IfOk result (λ call. call ≡ call_with kind head.now bytes.now) }
{
    match kind {
        CallKind::Connect => read_connect(alloc, head, bytes),
        CallKind::Incoming => Ok(Some(Call::Incoming)),
        CallKind::Accept => read_accept(alloc, head, bytes),
        CallKind::Forbidden => Ok(Some(Call::Forbidden)),
        CallKind::NotFound => Ok(Some(Call::NotFound)),
        CallKind::TooManyRequests => Ok(Some(Call::TooManyRequests)),
        CallKind::Handshake => Ok(Some(Call::Handshake)),
        CallKind::EndpointClose => read_endpoint_close(alloc, head, bytes),
        CallKind::AcceptUni => Ok(read_session(head).map(|session| Call::AcceptUni { session })),
        CallKind::AcceptBi => Ok(read_session(head).map(|session| Call::AcceptBi { session })),
        CallKind::ReceiveDatagram => Ok(read_session(head).map(|session| Call::ReceiveDatagram {
            session,
        })),
        CallKind::OpenUni => Ok(read_session(head).map(|session| Call::OpenUni { session })),
        CallKind::OpenBi => Ok(read_session(head).map(|session| Call::OpenBi { session })),
        CallKind::PollOpening => Ok(read_stream(head).map(|id| Call::PollOpening { id })),
        CallKind::SendDatagram => read_datagram(alloc, head, bytes),
        CallKind::EndSession => Ok(read_session(head).map(|session| Call::EndSession { session })),
        CallKind::MaxDatagramSize => Ok(read_session(head).map(|session| Call::MaxDatagramSize {
            session,
        })),
        CallKind::SessionId => Ok(read_session(head).map(|session| Call::SessionId { session })),
        CallKind::Close => read_close(alloc, head, bytes),
        CallKind::Closed => Ok(Some(Call::Closed)),
        CallKind::Write => read_write(alloc, head, bytes),
        CallKind::WriteAll => read_write_all(alloc, head, bytes),
        CallKind::Finish => Ok(read_stream(head).map(|id| Call::Finish { id })),
        CallKind::Stopped => Ok(read_stream(head).map(|id| Call::Stopped { id })),
        CallKind::Priority => Ok(read_stream(head).map(|id| Call::Priority { id })),
        CallKind::SetPriority => Ok(read_set_priority(head)),
        CallKind::ResetSend => Ok(read_stream_and_code(head).map(|(id, code)| Call::ResetSend {
            id,
            code,
        })),
        CallKind::Read => Ok(read_read(head)),
        CallKind::ReadExact => Ok(read_read_exact(head)),
        CallKind::StopRecv => Ok(read_stream_and_code(head).map(|(id, code)| Call::StopRecv {
            id,
            code,
        })),
    }
}

/// The turn of a head and bytes; None where there is no such turn. The error is that memory ran out.
#[tactic(auto, unfolding(crate::specs::Turns::turn_of))]
pub fn read_turn(alloc: Global, head: &TurnHead, bytes: &[u8]) -> Result<Option<Turn>, OutOfMemory>
    ensures { IfOk result (λ turn. turn ≡ turn_of head.now bytes.now) }
{
    if head.kind < CALLS {
        match EventKind::from_number(head.kind as usize) {
            Some(kind) => read_event(alloc, kind, head, bytes),
            None => Ok(None),
        }
    } else {
        match CallKind::from_number((head.kind - CALLS) as usize) {
            Some(kind) => {
                let call = read_call(alloc, kind, head, bytes)?;
                Ok(call.map(Turn::Call))
            }
            None => Ok(None),
        }
    }
}
