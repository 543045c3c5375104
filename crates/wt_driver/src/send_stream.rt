//! The calls of `QuicSendStream`, with the driver in place of its transport. Where the driver has no such half nothing happens.
ghost use Rattle.std.specs.Prelude.{◌≡◌, IfOk, OnOk};
ghost use Rattle.wt_driver_laws.specs.Passing.{finish_said, on_transport, priority_said, reset_said, stopped_said, then_finish, then_reset, then_set_priority, then_write, write_all_said, write_said};

use crate::driver::Driver;
use wt_transport::QuicSendStream;
use wt_turn::poll::Poll;
use wt_turn::stream_error::{ClosedStream, StreamWriteError, WriteAll};
use wt_wire::error::OutOfMemory;
use wt_wire::varint::VarInt;

/// Writes as many of the bytes as credit is left for, and returns how many; pending where the buffer isn't empty and no
/// credit is left. Fails with `NotConnected` where the connection isn't open or has no such stream, else with `Closed` where
/// this end finished or reset the half, else with `Stopped` where the peer stopped it.
///
/// # Errors
///
/// `OutOfMemory` where what goes out found no memory.
pub fn write(
    half: &mut QuicSendStream,
    d: &mut Driver,
    bytes: &[u8],
) -> Result<Poll<Result<usize, StreamWriteError>>, OutOfMemory>
    ensures answer { IfOk result (λ answer. answer ≡ write_said half.old.id bytes.now d.old.work.transport) }
    ensures driver { OnOk result (d.new ≡ on_transport (then_write half.old.id bytes.now) d.old) }
    ensures same { half.new ≡ half.old }
{
    if d.transport.can_send(half.id()) {
        return half.write(&mut d.transport, bytes);
    }
    Ok(Poll::Ready(Err(StreamWriteError::NotConnected)))
}

/// Writes as many of the bytes as credit is left for, and tells whether these were all. Fails as `write`.
///
/// # Errors
///
/// `OutOfMemory` where what goes out found no memory.
pub fn write_all(
    half: &mut QuicSendStream,
    d: &mut Driver,
    bytes: &[u8],
) -> Result<Result<WriteAll, StreamWriteError>, OutOfMemory>
    ensures answer { IfOk result (λ answer. answer ≡ write_all_said half.old.id bytes.now d.old.work.transport) }
    ensures driver { OnOk result (d.new ≡ on_transport (then_write half.old.id bytes.now) d.old) }
    ensures same { half.new ≡ half.old }
{
    if d.transport.can_send(half.id()) {
        return half.write_all(&mut d.transport, bytes);
    }
    Ok(Err(StreamWriteError::NotConnected))
}

/// Ends the half, and is through once all of it is acknowledged. Fails with `Stopped` where the peer stopped it, else with
/// `NotConnected` where the connection isn't open and not all was acknowledged, or where there is no such stream.
///
/// # Errors
///
/// `OutOfMemory` where what goes out found no memory.
pub fn finish(
    half: &mut QuicSendStream,
    d: &mut Driver,
) -> Result<Poll<Result<(), StreamWriteError>>, OutOfMemory>
    ensures answer { IfOk result (λ answer. answer ≡ finish_said half.old.id d.old.work.transport) }
    ensures driver { OnOk result (d.new ≡ on_transport (then_finish half.old.id) d.old) }
    ensures same { half.new ≡ half.old }
{
    if d.transport.can_send(half.id()) {
        return half.finish(&mut d.transport);
    }
    Ok(Poll::Ready(Err(StreamWriteError::NotConnected)))
}

/// How the half was stopped or closed; pending while it is neither and the connection is open.
pub fn stopped(half: &mut QuicSendStream, d: &mut Driver) -> Poll<StreamWriteError>
    ensures answer { result ≡ stopped_said half.old.id d.old.work.transport }
    ensures driver { d.new ≡ d.old }
    ensures same { half.new ≡ half.old }
{
    if d.transport.can_send(half.id()) {
        return half.stopped(&mut d.transport);
    }
    Poll::Ready(StreamWriteError::NotConnected)
}

/// Resets the half. Fails where it was reset before, or all of it was acknowledged, or where there is no such stream.
///
/// # Errors
///
/// `OutOfMemory` where what goes out found no memory.
pub fn reset(
    half: &mut QuicSendStream,
    d: &mut Driver,
    code: VarInt,
) -> Result<Result<(), ClosedStream>, OutOfMemory>
    ensures answer { IfOk result (λ answer. answer ≡ reset_said half.old.id d.old.work.transport) }
    ensures driver { OnOk result (d.new ≡ on_transport (then_reset half.old.id code) d.old) }
    ensures same { half.new ≡ half.old }
{
    if d.transport.can_send(half.id()) {
        return half.reset(&mut d.transport, code);
    }
    Ok(Err(ClosedStream))
}

/// The priority that was set last, 0 at first. Fails as `reset`.
pub fn priority(half: &QuicSendStream, d: &mut Driver) -> Result<i32, ClosedStream>
    ensures answer { result ≡ priority_said half.now.id d.old.work.transport }
    ensures driver { d.new ≡ d.old }
{
    if d.transport.can_send(half.id()) {
        return half.priority(&mut d.transport);
    }
    Err(ClosedStream)
}

/// Sets the priority; nothing happens where `reset` would fail.
pub fn set_priority(half: &mut QuicSendStream, d: &mut Driver, priority: i32)
    ensures driver { d.new ≡ on_transport (then_set_priority half.old.id priority) d.old }
    ensures same { half.new ≡ half.old }
{
    if d.transport.can_send(half.id()) {
        half.set_priority(&mut d.transport, priority);
    }
}
