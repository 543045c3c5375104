//! The calls past the handshake, by the kind of value that each is made on: each is one call of the value's public type,
//! whose answer is said as a reply.
ghost use Rattle.std.specs.Prelude.{◌≡◌, ◌≤◌, IfOk, OnOk, Some, false, is_some, length, take, true};
ghost use Rattle.wt_driver_laws.specs.Calling.{Does};
ghost use Rattle.wt_driver_laws.specs.Driving.{pieces_of};
ghost use Rattle.wt_driver_laws.specs.Having.{HasReceiving, HasSending, HasSession};
ghost use Rattle.wt_driver_laws.specs.Replies as says;
ghost use Rattle.wt_kept.specs.Kept.{WaitingDatagram};
ghost use Rattle.wt_core.specs.Answering.{Answers, NamedAnswers, OpeningAnswers, SessionAnswers};
ghost use Rattle.wt_core.specs.HeldNow.{SameSessions};
ghost use Rattle.wt_session.specs.Replies.{closed_reply};
ghost use Rattle.wt_turn.specs.declared.reply.Reply.TheVariants as replies;
ghost use Rattle.wt_core.specs.Calls.{named_so, receiving_id, sending_id, session_name};
ghost use Rattle.wt_turn.specs.declared.call.Call.TheVariants as calls;
ghost use Rattle.wt_turn.specs.declared.reply.Reply.{Reply};

use crate::held::{Opening, Sessions, Streams, Way};
use std::alloc::Global;
use wt_driver::Driver;
use wt_session::{
    ClosedStream, Connection, ConnectionError, Datagram, OpeningBiStream, OpeningUniStream, Poll,
    RecvStream, SendDatagramError, SendStream, StreamReadError, StreamReadExactError,
    StreamWriteError, WriteAll,
};
use wt_turn::call::Call;
use wt_turn::piece::Piece;
use wt_turn::reply::Reply;
use wt_wire::error::OutOfMemory;
use wt_wire::ids::{SessionId, StreamId};
use wt_wire::varint::VarInt;

/// The reply to a call.
pub type Replied = Result<Reply, OutOfMemory>;

// ---- on a sending half

/// The reply to a call on the sending half of this stream.
pub fn on_sending(streams: &mut Streams, d: &mut Driver, id: StreamId, call: &Call) -> Replied
    requires { sending_id call.now ≡ Some id }
    ensures answers { Answers d.old streams.old call.now result d.new streams.new }
    ensures pieces { OnOk result (pieces_of d.new ≤ pieces_of d.old) }
{
    let Some(half) = streams.sends.take(id) else {
        d.rests();
        return Ok(Reply::NoStream);
    };
    let mut half = half;
    let reply = sent(&mut half, d, call)?;
    streams.sends.put(id, half)?;
    Ok(reply)
}

/// The reply to a call on this half.
fn sent(half: &mut SendStream, d: &mut Driver, call: &Call) -> Replied
    ensures does { sending_id call.now ≡ Some half.old → IfOk result (Does d.old d.new (HasSending half.old) call.now (λ reply. reply)) }
    ensures same { half.new ≡ half.old }
    ensures pieces { OnOk result (pieces_of d.new ≤ pieces_of d.old) }
{
    match call {
        Call::Write { bytes, .. } => Ok(written(half.write(d, bytes.as_slice())?)),
        Call::WriteAll { bytes, .. } => Ok(all_written(half.write_all(d, bytes.as_slice())?)),
        Call::Finish { .. } => Ok(finished(half.finish(d)?)),
        Call::Stopped { .. } => Ok(stopped(half.stopped(d))),
        Call::Priority { .. } => Ok(priority(half.priority(d))),
        Call::SetPriority { priority, .. } => {
            half.set_priority(d, *priority);
            Ok(Reply::Done)
        }
        Call::ResetSend { code, .. } => Ok(reset(half.reset(d, *code)?)),
        // No other call is made on a sending half.
        _ => Err(OutOfMemory),
    }
}

fn written(answer: Poll<Result<usize, StreamWriteError>>) -> Reply
    ensures { result ≡ says.write_reply answer }
{
    match answer {
        Poll::Ready(Ok(count)) => Reply::Written(count as u64),
        Poll::Ready(Err(error)) => Reply::WriteFailed(error),
        Poll::Pending => Reply::Pending,
    }
}

fn all_written(answer: Result<WriteAll, StreamWriteError>) -> Reply
    ensures { result ≡ says.write_all_reply answer }
{
    match answer {
        Ok(WriteAll::Done) => Reply::AllWritten,
        Ok(WriteAll::Count(count)) => Reply::Count(count as u64),
        Err(error) => Reply::WriteFailed(error),
    }
}

fn finished(answer: Poll<Result<(), StreamWriteError>>) -> Reply
    ensures { result ≡ says.finish_reply answer }
{
    match answer {
        Poll::Ready(Ok(())) => Reply::Finished,
        Poll::Ready(Err(error)) => Reply::WriteFailed(error),
        Poll::Pending => Reply::Pending,
    }
}

fn stopped(answer: Poll<StreamWriteError>) -> Reply
    ensures { result ≡ says.stopped_reply answer }
{
    match answer {
        Poll::Ready(error) => Reply::StoppedBy(error),
        Poll::Pending => Reply::Pending,
    }
}

fn priority(answer: Result<i32, ClosedStream>) -> Reply
    ensures { result ≡ says.priority_reply answer }
{
    match answer {
        Ok(priority) => Reply::Priority(priority),
        Err(_) => Reply::ClosedStream,
    }
}

fn reset(answer: Result<(), ClosedStream>) -> Reply
    ensures { result ≡ says.reset_reply answer }
{
    match answer {
        Ok(()) => Reply::Done,
        Err(_) => Reply::ClosedStream,
    }
}

// ---- on a receiving half

/// The reply to a call on the receiving half of this stream, which stays.
pub fn on_receiving(
    alloc: Global,
    streams: &mut Streams,
    d: &mut Driver,
    id: StreamId,
    call: &Call,
) -> Replied
    requires { receiving_id call.now ≡ Some id }
    ensures answers { Answers d.old streams.old call.now result d.new streams.new }
    ensures pieces { OnOk result (pieces_of d.new ≤ pieces_of d.old) }
{
    let Some(half) = streams.recvs.take(id) else {
        d.rests();
        return Ok(Reply::NoStream);
    };
    let mut half = half;
    let reply = received(alloc, &mut half, d, call)?;
    streams.recvs.put(id, half)?;
    Ok(reply)
}

/// The reply to a call that gives the half up.
pub fn stop_receiving(streams: &mut Streams, d: &mut Driver, id: StreamId, code: VarInt) -> Replied
    ensures answers { Answers d.old streams.old (calls.StopRecv id code) result d.new streams.new }
    ensures pieces { OnOk result (pieces_of d.new ≤ pieces_of d.old) }
{
    let Some(half) = streams.recvs.take(id) else {
        d.rests();
        return Ok(Reply::NoStream);
    };
    half.stop(d, code)?;
    Ok(Reply::Done)
}

/// The reply to a call on this half.
fn received(alloc: Global, half: &mut RecvStream, d: &mut Driver, call: &Call) -> Replied
    ensures does { receiving_id call.now ≡ Some half.old → IfOk result (Does d.old d.new (HasReceiving half.old) call.now (λ reply. reply)) }
    ensures same { half.new ≡ half.old }
    ensures pieces { OnOk result (pieces_of d.new ≤ pieces_of d.old) }
{
    match call {
        Call::Read { size, .. } => read(alloc, half, d, *size),
        Call::ReadExact { size, .. } => read_exact(alloc, half, d, *size),
        // No other call is made on a receiving half.
        _ => Err(OutOfMemory),
    }
}

// A call that finds nothing to read is given a place for one byte, which takes no memory and stays as it is: into an empty
// buffer it would ask for nothing.

fn read(alloc: Global, half: &mut RecvStream, d: &mut Driver, size: u64) -> Replied
    ensures does { IfOk result (Does d.old d.new (HasReceiving half.old) (calls.Read half.old size) (λ reply. reply)) }
    ensures same { half.new ≡ half.old }
    ensures pieces { OnOk result (pieces_of d.new ≤ pieces_of d.old) }
{
    let unread = d.unread(half.id());
    if unread == 0 {
        let mut place = [0u8; 1];
        return read_front(alloc, half, d, &mut place[..size.min(1) as usize]);
    }
    let mut bytes = vec![in alloc; 0u8; size.min(unread) as usize]?;
    let answer = half.read(d, bytes.as_mut_slice());
    Ok(read_whole(answer, bytes))
}

fn read_exact(alloc: Global, half: &mut RecvStream, d: &mut Driver, size: u64) -> Replied
    ensures does { IfOk result (Does d.old d.new (HasReceiving half.old) (calls.ReadExact half.old size) (λ reply. reply)) }
    ensures same { half.new ≡ half.old }
    ensures pieces { OnOk result (pieces_of d.new ≤ pieces_of d.old) }
{
    let unread = d.unread(half.id());
    if unread == 0 {
        let mut place = [0u8; 1];
        return exact_front(alloc, half, d, &mut place[..size.min(1) as usize]);
    }
    // One byte more than there is to read is as much too many as any number.
    let mut bytes = vec![in alloc; 0u8; size.min(unread.saturating_add(1)) as usize]?;
    let answer = half.read_exact(d, bytes.as_mut_slice());
    Ok(exact_whole(answer, bytes))
}

/// A read into this buffer, whose front is copied.
fn read_front(alloc: Global, half: &mut RecvStream, d: &mut Driver, buffer: &mut [u8]) -> Replied
    ensures does { IfOk result (Does d.old d.new (HasReceiving half.old) (calls.Read half.old (length buffer.old)) (λ reply. reply)) }
    ensures same { half.new ≡ half.old }
    ensures pieces { OnOk result (pieces_of d.new ≤ pieces_of d.old) }
{
    match half.read(d, buffer) {
        Poll::Ready(Ok(Some(count))) => {
            let front = Piece::from_slice(alloc, &buffer[..count])?;
            Ok(Reply::Read(Some(front)))
        }
        Poll::Ready(Ok(None)) => Ok(Reply::Read(None)),
        Poll::Ready(Err(error)) => Ok(Reply::ReadFailed(error)),
        Poll::Pending => Ok(Reply::Pending),
    }
}

/// An exact read into this buffer, whose front is copied.
fn exact_front(alloc: Global, half: &mut RecvStream, d: &mut Driver, buffer: &mut [u8]) -> Replied
    ensures does { IfOk result (Does d.old d.new (HasReceiving half.old) (calls.ReadExact half.old (length buffer.old)) (λ reply. reply)) }
    ensures same { half.new ≡ half.old }
    ensures pieces { OnOk result (pieces_of d.new ≤ pieces_of d.old) }
{
    match half.read_exact(d, buffer) {
        Poll::Ready(Ok(())) => Ok(Reply::Exact(Piece::from_slice(alloc, buffer)?)),
        Poll::Ready(Err(error)) => {
            let front = Piece::from_slice(alloc, &buffer[..exact_count(&error)])?;
            Ok(Reply::ExactFailed(error, front))
        }
        Poll::Pending => Ok(Reply::Pending),
    }
}

/// How many bytes a failed exact read gave.
fn exact_count(error: &StreamReadExactError) -> usize
    ensures { result ≡ says.exact_count error.now }
{
    match error {
        StreamReadExactError::FinishedEarly(count) => *count,
        StreamReadExactError::Read(_) => 0,
    }
}

/// The front of a buffer as a piece.
fn front(mut buffer: Vec<u8>, count: usize) -> Piece
    ensures { result ≡ take count buffer.items }
{
    buffer.truncate(count);
    Piece::from_vec(buffer)
}

/// The reply to a read into this buffer.
fn read_whole(answer: Poll<Result<Option<usize>, StreamReadError>>, bytes: Vec<u8>) -> Reply
    ensures { result ≡ says.read_reply bytes.items answer }
{
    match answer {
        Poll::Ready(Ok(Some(count))) => Reply::Read(Some(front(bytes, count))),
        Poll::Ready(Ok(None)) => Reply::Read(None),
        Poll::Ready(Err(error)) => Reply::ReadFailed(error),
        Poll::Pending => Reply::Pending,
    }
}

/// The reply to an exact read into this buffer.
fn exact_whole(answer: Poll<Result<(), StreamReadExactError>>, bytes: Vec<u8>) -> Reply
    ensures { result ≡ says.read_exact_reply bytes.items answer }
{
    match answer {
        Poll::Ready(Ok(())) => Reply::Exact(Piece::from_vec(bytes)),
        Poll::Ready(Err(error)) => {
            let count = exact_count(&error);
            Reply::ExactFailed(error, front(bytes, count))
        }
        Poll::Pending => Reply::Pending,
    }
}

// ---- on a session

/// The reply to a call on the session of this name.
pub fn on_session(
    alloc: Global,
    sessions: &mut Sessions,
    streams: &mut Streams,
    d: &mut Driver,
    name: Option<SessionId>,
    call: &Call,
) -> Replied
    requires { session_name call.now ≡ Some name }
    ensures answers { NamedAnswers d.old sessions.old streams.old call.now result d.new streams.new }
    ensures sessions { OnOk result (SameSessions sessions.old sessions.new) }
    ensures pieces { OnOk result (pieces_of d.new ≤ pieces_of d.old) }
{
    let Some(session) = sessions.named(name) else {
        d.rests();
        return Ok(Reply::NoSession);
    };
    let Some(connection) = sessions.take(session) else {
        d.rests();
        return Ok(Reply::NoSession);
    };
    let mut connection = connection;
    let reply = asked(alloc, &mut connection, streams, d, call)?;
    sessions.put_back(session, connection)?;
    Ok(reply)
}

/// The reply to a call on this session.
fn asked(
    alloc: Global,
    on: &mut Connection,
    streams: &mut Streams,
    d: &mut Driver,
    call: &Call,
) -> Replied
    requires { is_some (session_name call.now) ≡ true }
    ensures answers { SessionAnswers on.old d.old streams.old (named_so on.old call.now) result d.new streams.new }
    ensures same { on.new ≡ on.old }
    ensures pieces { OnOk result (pieces_of d.new ≤ pieces_of d.old) }
{
    match call {
        Call::AcceptUni { .. } => accept_uni(alloc, on, streams, d),
        Call::AcceptBi { .. } => accept_bi(alloc, on, streams, d),
        Call::OpenUni { .. } => open_uni(alloc, on, streams, d),
        Call::OpenBi { .. } => open_bi(alloc, on, streams, d),
        _ => told(alloc, on, d, call),
    }
}

fn accept_uni(alloc: Global, on: &mut Connection, streams: &mut Streams, d: &mut Driver) -> Replied
    ensures answers { SessionAnswers on.old d.old streams.old (calls.AcceptUni (Some on.old)) result d.new streams.new }
    ensures same { on.new ≡ on.old }
    ensures pieces { OnOk result (pieces_of d.new ≤ pieces_of d.old) }
{
    match on.accept_uni(alloc, d)? {
        Poll::Ready(Ok(recv)) => Ok(Reply::Uni(streams.add_recv(recv)?)),
        Poll::Ready(Err(error)) => Ok(Reply::Failed(error)),
        Poll::Pending => Ok(Reply::Pending),
    }
}

fn accept_bi(alloc: Global, on: &mut Connection, streams: &mut Streams, d: &mut Driver) -> Replied
    ensures answers { SessionAnswers on.old d.old streams.old (calls.AcceptBi (Some on.old)) result d.new streams.new }
    ensures same { on.new ≡ on.old }
    ensures pieces { OnOk result (pieces_of d.new ≤ pieces_of d.old) }
{
    match on.accept_bi(alloc, d)? {
        Poll::Ready(Ok(halves)) => {
            let (send, recv) = halves;
            let id = streams.add_send(send)?;
            streams.add_recv(recv)?;
            Ok(Reply::Bi(id))
        }
        Poll::Ready(Err(error)) => Ok(Reply::Failed(error)),
        Poll::Pending => Ok(Reply::Pending),
    }
}

fn open_uni(alloc: Global, on: &mut Connection, streams: &mut Streams, d: &mut Driver) -> Replied
    ensures answers { SessionAnswers on.old d.old streams.old (calls.OpenUni (Some on.old)) result d.new streams.new }
    ensures same { on.new ≡ on.old }
    ensures pieces { OnOk result (pieces_of d.new ≤ pieces_of d.old) }
{
    match on.open_uni(alloc, d)? {
        Poll::Ready(Ok(opening)) => {
            let id = opening.id();
            Ok(Reply::Opening(streams.add_opening(id, Opening::uni(opening))?))
        }
        Poll::Ready(Err(error)) => Ok(Reply::Failed(error)),
        Poll::Pending => Ok(Reply::Pending),
    }
}

fn open_bi(alloc: Global, on: &mut Connection, streams: &mut Streams, d: &mut Driver) -> Replied
    ensures answers { SessionAnswers on.old d.old streams.old (calls.OpenBi (Some on.old)) result d.new streams.new }
    ensures same { on.new ≡ on.old }
    ensures pieces { OnOk result (pieces_of d.new ≤ pieces_of d.old) }
{
    match on.open_bi(alloc, d)? {
        Poll::Ready(Ok(opening)) => {
            let id = opening.id();
            Ok(Reply::Opening(streams.add_opening(id, Opening::bi(opening))?))
        }
        Poll::Ready(Err(error)) => Ok(Reply::Failed(error)),
        Poll::Pending => Ok(Reply::Pending),
    }
}

/// The reply to a call that gives no stream.
fn told(alloc: Global, on: &mut Connection, d: &mut Driver, call: &Call) -> Replied
    ensures does { IfOk result (Does d.old d.new (HasSession on.old) (named_so on.old call.now) (λ reply. reply)) }
    ensures same { on.new ≡ on.old }
    ensures pieces { OnOk result (pieces_of d.new ≤ pieces_of d.old) }
{
    match call {
        Call::ReceiveDatagram { .. } => Ok(received_datagram(on.receive_datagram(alloc, d)?)),
        Call::SendDatagram { payload, .. } => {
            let answer = on.send_datagram(alloc, d, payload.as_slice())?;
            Ok(sent_datagram(answer))
        }
        Call::MaxDatagramSize { .. } => Ok(Reply::Size(on.max_datagram_size(d))),
        Call::SessionId { .. } => {
            d.rests();
            Ok(Reply::Id(on.session_id()))
        }
        Call::EndSession { .. } => {
            on.end_session(alloc, d)?;
            Ok(Reply::Done)
        }
        Call::Close { code, reason } => {
            on.close(alloc, d, *code, reason.as_slice())?;
            Ok(Reply::Done)
        }
        Call::Closed => Ok(closed(on.closed(alloc, d)?)),
        // No other call is made on a session.
        _ => Err(OutOfMemory),
    }
}

fn received_datagram(answer: Poll<Result<Datagram, ConnectionError>>) -> Reply
    ensures { result ≡ says.poll_reply (λ (datagram : WaitingDatagram). replies.Datagram datagram.payload) answer }
{
    match answer {
        Poll::Ready(Ok(datagram)) => Reply::Datagram(datagram.into_payload()),
        Poll::Ready(Err(error)) => Reply::Failed(error),
        Poll::Pending => Reply::Pending,
    }
}

fn sent_datagram(answer: Result<(), SendDatagramError>) -> Reply
    ensures { result ≡ says.datagram_reply answer }
{
    match answer {
        Ok(()) => Reply::Done,
        Err(error) => Reply::DatagramFailed(error),
    }
}

fn closed(answer: Poll<ConnectionError>) -> Reply
    ensures { result ≡ closed_reply answer }
{
    match answer {
        Poll::Ready(error) => Reply::Closed(error),
        Poll::Pending => Reply::Pending,
    }
}

// ---- on a stream that is being opened

/// The reply to a poll of this stream.
pub fn on_opening(
    sessions: &Sessions,
    streams: &mut Streams,
    d: &mut Driver,
    id: StreamId,
) -> Replied
    ensures answers { NamedAnswers d.old sessions.now streams.old (calls.PollOpening id) result d.new streams.new }
    ensures pieces { OnOk result (pieces_of d.new ≤ pieces_of d.old) }
{
    if sessions.named(None).is_none() {
        d.rests();
        return Ok(Reply::NoSession);
    }
    let Some(opening) = streams.openings.take(id) else {
        d.rests();
        return Ok(Reply::NoStream);
    };
    match opening.into_way() {
        Way::Uni(opening) => poll_uni(streams, d, opening),
        Way::Bi(opening) => poll_bi(streams, d, opening),
    }
}

/// The reply to a poll of this unidirectional stream, which the application has no more.
fn poll_uni(streams: &mut Streams, d: &mut Driver, opening: OpeningUniStream) -> Replied
    ensures answers { OpeningAnswers (record { bidirectional = false; opening = opening }) d.old streams.old result d.new streams.new }
    ensures pieces { OnOk result (pieces_of d.new ≤ pieces_of d.old) }
{
    let mut opening = opening;
    let id = opening.id();
    match opening.poll(d)? {
        Poll::Ready(Ok(send)) => Ok(Reply::SendReady(streams.add_send(send)?)),
        Poll::Ready(Err(error)) => Ok(Reply::OpeningFailed(error)),
        Poll::Pending => {
            streams.add_opening(id, Opening::uni(opening))?;
            Ok(Reply::Pending)
        }
    }
}

/// The reply to a poll of this bidirectional stream, which the application has no more.
fn poll_bi(streams: &mut Streams, d: &mut Driver, opening: OpeningBiStream) -> Replied
    ensures answers { OpeningAnswers (record { bidirectional = true; opening = opening }) d.old streams.old result d.new streams.new }
    ensures pieces { OnOk result (pieces_of d.new ≤ pieces_of d.old) }
{
    let mut opening = opening;
    let id = opening.id();
    match opening.poll(d)? {
        Poll::Ready(Ok(halves)) => {
            let (send, recv) = halves;
            let id = streams.add_send(send)?;
            streams.add_recv(recv)?;
            Ok(Reply::BiReady(id))
        }
        Poll::Ready(Err(error)) => Ok(Reply::OpeningFailed(error)),
        Poll::Pending => {
            streams.add_opening(id, Opening::bi(opening))?;
            Ok(Reply::Pending)
        }
    }
}
