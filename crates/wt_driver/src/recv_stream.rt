//! The calls of `QuicRecvStream`, with the driver in place of its transport. Where the driver has no such half nothing happens.
ghost use Rattle.std.specs.Prelude.{◌≡◌, OnOk, length};
ghost use Rattle.wt_driver_laws.specs.Passing.{exact_buffer, exact_said, on_transport, read_buffer, read_said, then_read, then_read_exact, then_stop};

use crate::driver::Driver;
use wt_transport::QuicRecvStream;
use wt_turn::poll::Poll;
use wt_turn::stream_error::{StreamReadError, StreamReadExactError};
use wt_wire::error::OutOfMemory;
use wt_wire::varint::VarInt;

/// Reads unread bytes into the buffer's front, and returns how many; None once all was read and the peer ended the half;
/// pending while nothing is unread. Fails with `Reset` where nothing is unread and the peer reset the half, and with
/// `NotConnected` where nothing is unread and the connection isn't open, or where there is no such stream.
pub fn read(
    half: &mut QuicRecvStream,
    d: &mut Driver,
    buffer: &mut [u8],
) -> Poll<Result<Option<usize>, StreamReadError>>
    ensures answer { result ≡ read_said half.old.id (length buffer.old) d.old.work.transport }
    ensures bytes { buffer.new ≡ read_buffer half.old.id buffer.old d.old.work.transport }
    ensures driver { d.new ≡ on_transport (then_read half.old.id (length buffer.old)) d.old }
    ensures same { half.new ≡ half.old }
{
    if d.transport.can_receive(half.id()) {
        return half.read(&mut d.transport, buffer);
    }
    Poll::Ready(Err(StreamReadError::NotConnected))
}

/// Fills the buffer with unread bytes; pending while there are too few. Fails with `FinishedEarly` where the peer ended the
/// half before, whose last bytes are then in the buffer's front, and with `Read` where too few are unread and the peer reset
/// the half or the connection isn't open, or where there is no such stream.
pub fn read_exact(
    half: &mut QuicRecvStream,
    d: &mut Driver,
    buffer: &mut [u8],
) -> Poll<Result<(), StreamReadExactError>>
    ensures answer { result ≡ exact_said half.old.id (length buffer.old) d.old.work.transport }
    ensures bytes { buffer.new ≡ exact_buffer half.old.id buffer.old d.old.work.transport }
    ensures driver { d.new ≡ on_transport (then_read_exact half.old.id (length buffer.old)) d.old }
    ensures same { half.new ≡ half.old }
{
    if d.transport.can_receive(half.id()) {
        return half.read_exact(&mut d.transport, buffer);
    }
    Poll::Ready(Err(StreamReadExactError::Read(StreamReadError::NotConnected)))
}

/// Gives the half up, and asks the peer to stop it where the connection is open.
///
/// # Errors
///
/// `OutOfMemory` where what goes out found no memory.
pub fn stop(half: QuicRecvStream, d: &mut Driver, code: VarInt) -> Result<(), OutOfMemory>
    ensures { OnOk result (d.new ≡ on_transport (then_stop half.id code) d.old) }
{
    if d.transport.can_receive(half.id()) {
        return half.stop(&mut d.transport, code);
    }
    Ok(())
}
