//! The calls of streams and their halves, and of datagrams, with what they answer as a reply.
use super::drivers::End;
use std::alloc::Global;
use std::process::Abort;
use wt_driver::{Driver, RecvStream, SendStream};
use wt_seam::{QuicRecvStream, QuicSendStream};
use wt_turn::connection_error::ConnectionError;
use wt_turn::piece::Piece;
use wt_turn::poll::Poll;
use wt_turn::reply::Reply;
use wt_turn::stream_error::WriteAll;
use wt_wire::ids::{SessionId, StreamId};
use wt_wire::varint::VarInt;

fn sending(id: StreamId) -> SendStream {
    SendStream::from(QuicSendStream::new(id))
}

fn receiving(id: StreamId) -> RecvStream {
    RecvStream::from(QuicRecvStream::new(id))
}

// ---- openings

pub fn open_uni(rt: &impl Abort, end: &mut End, session: SessionId) -> Reply {
    match end.driver.open_uni(session).expect(rt, "no memory") {
        Poll::Ready(Ok(opening)) => {
            let id = opening.id();
            end.opening = Some(opening);
            Reply::Opening(id)
        }
        Poll::Ready(Err(_)) => Reply::Failed(ConnectionError::LocallyClosed),
        Poll::Pending => Reply::Pending,
    }
}

/// The stream that was opened last.
pub fn poll_opening(rt: &impl Abort, end: &mut End) -> Reply {
    let mut opening = end.opening.take().expect(rt, "no opening");
    let answer = opening.poll(&mut end.driver).expect(rt, "no memory");
    end.opening = Some(opening);
    match answer {
        Poll::Ready(Ok(half)) => Reply::SendReady(half.id()),
        Poll::Ready(Err(error)) => Reply::OpeningFailed(error),
        Poll::Pending => Reply::Pending,
    }
}

// ---- sending halves

pub fn write(rt: &impl Abort, driver: &mut Driver, id: StreamId, bytes: &[u8]) -> Reply {
    match sending(id).write(driver, bytes).expect(rt, "no memory") {
        Poll::Ready(Ok(count)) => Reply::Written(count as u64),
        Poll::Ready(Err(error)) => Reply::WriteFailed(error),
        Poll::Pending => Reply::Pending,
    }
}

pub fn write_all(rt: &impl Abort, driver: &mut Driver, id: StreamId, bytes: &[u8]) -> Reply {
    match sending(id).write_all(driver, bytes).expect(rt, "no memory") {
        Ok(WriteAll::Done) => Reply::AllWritten,
        Ok(WriteAll::Count(count)) => Reply::Count(count as u64),
        Err(error) => Reply::WriteFailed(error),
    }
}

pub fn finish(rt: &impl Abort, driver: &mut Driver, id: StreamId) -> Reply {
    match sending(id).finish(driver).expect(rt, "no memory") {
        Poll::Ready(Ok(())) => Reply::Finished,
        Poll::Ready(Err(error)) => Reply::WriteFailed(error),
        Poll::Pending => Reply::Pending,
    }
}

pub fn reset(rt: &impl Abort, driver: &mut Driver, id: StreamId, code: VarInt) -> Reply {
    match sending(id).reset(driver, code).expect(rt, "no memory") {
        Ok(()) => Reply::Done,
        Err(_) => Reply::ClosedStream,
    }
}

pub fn priority(driver: &mut Driver, id: StreamId) -> Reply {
    match sending(id).priority(driver) {
        Ok(priority) => Reply::Priority(priority),
        Err(_) => Reply::ClosedStream,
    }
}

// ---- receiving halves

fn buffer(rt: &impl Abort, alloc: Global, size: u64) -> Vec<u8> {
    let buffer = vec![in alloc; 0u8; size as usize];
    buffer.expect(rt, "no memory")
}

pub fn read(rt: &impl Abort, end: &mut End, id: StreamId, size: u64) -> Reply {
    let mut buffer = buffer(rt, end.alloc, size);
    match receiving(id).read(&mut end.driver, buffer.as_mut_slice()) {
        Poll::Ready(Ok(Some(count))) => {
            buffer.truncate(count);
            Reply::Read(Some(Piece::from_vec(buffer)))
        }
        Poll::Ready(Ok(None)) => Reply::Read(None),
        Poll::Ready(Err(error)) => Reply::ReadFailed(error),
        Poll::Pending => Reply::Pending,
    }
}

/// Where there are fewer bytes, all of the buffer is answered.
pub fn read_exact(rt: &impl Abort, end: &mut End, id: StreamId, size: u64) -> Reply {
    let mut buffer = buffer(rt, end.alloc, size);
    match receiving(id).read_exact(&mut end.driver, buffer.as_mut_slice()) {
        Poll::Ready(Ok(())) => Reply::Exact(Piece::from_vec(buffer)),
        Poll::Ready(Err(error)) => Reply::ExactFailed(error, Piece::from_vec(buffer)),
        Poll::Pending => Reply::Pending,
    }
}

pub fn stop(rt: &impl Abort, driver: &mut Driver, id: StreamId, code: VarInt) -> Reply {
    receiving(id).stop(driver, code).expect(rt, "no memory");
    Reply::Done
}

// ---- datagrams

pub fn send_datagram(rt: &impl Abort, driver: &mut Driver, id: SessionId, bytes: &[u8]) -> Reply {
    match driver.send_datagram(id, bytes).expect(rt, "no memory") {
        Ok(()) => Reply::Done,
        Err(error) => Reply::DatagramFailed(error),
    }
}
