//! Calls of a transport and of the halves of its streams, with ample memory.
use std::alloc::Global;
use std::process::Abort;
use wt_transport::{QuicRecvStream, QuicSendStream, Transport};
use wt_turn::call::Call;
use wt_turn::piece::Piece;
use wt_turn::poll::Poll;
use wt_turn::reply::Reply;
use wt_turn::stream_error::{StreamReadError, StreamReadExactError, WriteAll};
use wt_wire::ids::StreamId;
use wt_wire::varint::VarInt;

/// Makes a call of the transport, or of a half of one of its streams.
pub fn make_call(rt: &impl Abort, alloc: Global, transport: &mut Transport, call: &Call) -> Reply {
    match call {
        Call::OpenUni { .. } => open_uni(rt, transport),
        Call::OpenBi { .. } => open_bi(rt, transport),
        Call::Close { code, reason } => close(rt, transport, *code, reason),
        Call::Read { id, size } => read(rt, alloc, transport, *id, *size as usize),
        Call::ReadExact { id, size } => read_exact(rt, alloc, transport, *id, *size as usize),
        Call::StopRecv { id, code } => stop(rt, transport, *id, *code),
        _ => called_sender(rt, transport, call),
    }
}

/// Makes a call of a sending half.
fn called_sender(rt: &impl Abort, transport: &mut Transport, call: &Call) -> Reply {
    match call {
        Call::Write { id, bytes } => write(rt, transport, *id, bytes.as_slice()),
        Call::WriteAll { id, bytes } => write_all(rt, transport, *id, bytes.as_slice()),
        Call::Finish { id } => finish(rt, transport, *id),
        Call::ResetSend { id, code } => reset(rt, transport, *id, *code),
        _ => panic!(rt; "no call of a transport"),
    }
}

fn open_uni(rt: &impl Abort, transport: &mut Transport) -> Reply {
    match transport.open_uni().expect(rt, "no memory") {
        Some(id) => Reply::Opening(id),
        None => Reply::Pending,
    }
}

fn open_bi(rt: &impl Abort, transport: &mut Transport) -> Reply {
    match transport.open_bi().expect(rt, "no memory") {
        Some(id) => Reply::Opening(id),
        None => Reply::Pending,
    }
}

fn close(rt: &impl Abort, transport: &mut Transport, code: VarInt, reason: &Piece) -> Reply {
    let reason = reason.copy().expect(rt, "no memory");
    transport.close(code, reason).expect(rt, "no memory");
    Reply::Done
}

fn write(rt: &impl Abort, transport: &mut Transport, id: StreamId, bytes: &[u8]) -> Reply {
    let can_send = transport.can_send(id);
    assert!(rt; can_send);
    let answer = QuicSendStream::new(id).write(transport, bytes);
    match answer.expect(rt, "no memory") {
        Poll::Pending => Reply::Pending,
        Poll::Ready(Ok(count)) => Reply::Written(count as u64),
        Poll::Ready(Err(error)) => Reply::WriteFailed(error),
    }
}

fn write_all(rt: &impl Abort, transport: &mut Transport, id: StreamId, bytes: &[u8]) -> Reply {
    let can_send = transport.can_send(id);
    assert!(rt; can_send);
    let answer = QuicSendStream::new(id).write_all(transport, bytes);
    match answer.expect(rt, "no memory") {
        Ok(WriteAll::Done) => Reply::AllWritten,
        Ok(WriteAll::Count(count)) => Reply::Count(count as u64),
        Err(error) => Reply::WriteFailed(error),
    }
}

fn finish(rt: &impl Abort, transport: &mut Transport, id: StreamId) -> Reply {
    let can_send = transport.can_send(id);
    assert!(rt; can_send);
    let answer = QuicSendStream::new(id).finish(transport);
    match answer.expect(rt, "no memory") {
        Poll::Pending => Reply::Pending,
        Poll::Ready(Ok(())) => Reply::Finished,
        Poll::Ready(Err(error)) => Reply::WriteFailed(error),
    }
}

fn reset(rt: &impl Abort, transport: &mut Transport, id: StreamId, code: VarInt) -> Reply {
    let can_send = transport.can_send(id);
    assert!(rt; can_send);
    let answer = QuicSendStream::new(id).reset(transport, code);
    match answer.expect(rt, "no memory") {
        Ok(()) => Reply::Done,
        Err(_) => Reply::ClosedStream,
    }
}

fn read_into(
    rt: &impl Abort,
    transport: &mut Transport,
    id: StreamId,
    buffer: &mut [u8],
) -> Poll<Result<Option<usize>, StreamReadError>> {
    let can_receive = transport.can_receive(id);
    assert!(rt; can_receive);
    QuicRecvStream::new(id).read(transport, buffer)
}

fn read_exact_into(
    rt: &impl Abort,
    transport: &mut Transport,
    id: StreamId,
    buffer: &mut [u8],
) -> Poll<Result<(), StreamReadExactError>> {
    let can_receive = transport.can_receive(id);
    assert!(rt; can_receive);
    QuicRecvStream::new(id).read_exact(transport, buffer)
}

/// So many bytes of the buffer's front.
fn front(buffer: Vec<u8>, count: usize) -> Piece {
    let mut buffer = buffer;
    buffer.truncate(count);
    Piece::from_vec(buffer)
}

fn read(
    rt: &impl Abort,
    alloc: Global,
    transport: &mut Transport,
    id: StreamId,
    size: usize,
) -> Reply {
    let mut buffer = vec![in alloc; 0u8; size].expect(rt, "no memory");
    match read_into(rt, transport, id, buffer.as_mut_slice()) {
        Poll::Pending => Reply::Pending,
        Poll::Ready(Ok(None)) => Reply::Read(None),
        Poll::Ready(Ok(Some(count))) => Reply::Read(Some(front(buffer, count))),
        Poll::Ready(Err(error)) => Reply::ReadFailed(error),
    }
}

/// An early end reports the bytes that it leaves in the buffer's front; no other error leaves any.
fn read_exact(
    rt: &impl Abort,
    alloc: Global,
    transport: &mut Transport,
    id: StreamId,
    size: usize,
) -> Reply {
    let mut buffer = vec![in alloc; 0u8; size].expect(rt, "no memory");
    match read_exact_into(rt, transport, id, buffer.as_mut_slice()) {
        Poll::Pending => Reply::Pending,
        Poll::Ready(Ok(())) => Reply::Exact(Piece::from_vec(buffer)),
        Poll::Ready(Err(StreamReadExactError::FinishedEarly(count))) => {
            Reply::ExactFailed(
                StreamReadExactError::FinishedEarly(count),
                front(buffer, count),
            )
        }
        Poll::Ready(Err(error)) => Reply::ExactFailed(error, front(buffer, 0)),
    }
}

fn stop(rt: &impl Abort, transport: &mut Transport, id: StreamId, code: VarInt) -> Reply {
    let can_receive = transport.can_receive(id);
    assert!(rt; can_receive);
    let half = QuicRecvStream::new(id);
    half.stop(transport, code).expect(rt, "no memory");
    Reply::Done
}
