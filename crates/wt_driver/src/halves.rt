//! The halves of a stream that an application has, over the driver in place of its transport.
ghost use Rattle.std.specs.Prelude.{◌≡◌, ◌≤◌, IfOk, OnOk, length};
ghost use Rattle.wt_driver_laws.specs.Calling.{Does};
ghost use Rattle.wt_driver_laws.specs.Driving.{pieces_of};
ghost use Rattle.wt_driver_laws.specs.Having.{HasReceiving, HasSending};
ghost use Rattle.wt_driver_laws.specs.Passing.{exact_buffer, exact_said, finish_said, on_transport, priority_said, read_buffer, read_said, reset_said, stopped_said, then_finish, then_read, then_read_exact, then_reset, then_set_priority, then_stop, then_write, write_all_said, write_said};
ghost use Rattle.wt_driver_laws.specs.Replies.{done_reply, exact_into, finish_reply, priority_reply, read_exact_reply, read_into, read_reply, reset_reply, stopped_reply, write_all_reply, write_reply};
ghost use Rattle.wt_turn.specs.declared.call.Call.TheVariants as calls;

use crate::driver::Driver;
use crate::{recv_stream, send_stream};
use std::marker::Model;
use wt_transport::{QuicRecvStream, QuicSendStream};
use wt_turn::poll::Poll;
use wt_turn::stream_error::{
    ClosedStream, StreamReadError, StreamReadExactError, StreamWriteError, WriteAll,
};
use wt_wire::error::OutOfMemory;
use wt_wire::ids::StreamId;
use wt_wire::varint::VarInt;

/// A half of a stream on which this end sends (RFC 9000, section 3.1). Contracts see its stream's id.
#[derive(Debug, Drop)]
pub struct SendStream {
    half: QuicSendStream,
}

impl Model for SendStream {
    ghost use Rattle.std.specs.Prelude.{ℕ};

    ghost Value = { ℕ };

    ghost view = { λ s. s.half.id };
}

/// A half of a stream on which this end receives (RFC 9000, section 3.2). Contracts see its stream's id.
#[derive(Debug, Drop)]
pub struct RecvStream {
    half: QuicRecvStream,
}

impl Model for RecvStream {
    ghost use Rattle.std.specs.Prelude.{ℕ};

    ghost Value = { ℕ };

    ghost view = { λ s. s.half.id };
}

impl From<QuicSendStream> for SendStream {
    ghost use Rattle.std.specs.Prelude.{◌≡◌};

    ghost from_gives = { λ half made. made ≡ half.id };

    fn from(half: QuicSendStream) -> SendStream {
        SendStream { half }
    }
}

impl From<QuicRecvStream> for RecvStream {
    ghost use Rattle.std.specs.Prelude.{◌≡◌};

    ghost from_gives = { λ half made. made ≡ half.id };

    fn from(half: QuicRecvStream) -> RecvStream {
        RecvStream { half }
    }
}

impl SendStream {
    /// The stream.
    pub fn id(&self) -> StreamId
        ensures { result ≡ self.now }
    {
        self.half.id()
    }

    /// Writes as many of the bytes as credit is left for, and returns how many; pending where the buffer isn't empty and no
    /// credit is left. Fails with `NotConnected` where the connection isn't open or has no such stream, else with `Closed` where
    /// this end finished or reset the half, else with `Stopped` where the peer stopped it.
    ///
    /// # Errors
    ///
    /// `OutOfMemory` where what goes out found no memory.
    pub fn write(
        &mut self,
        d: &mut Driver,
        bytes: &[u8],
    ) -> Result<Poll<Result<usize, StreamWriteError>>, OutOfMemory>
        ensures answer { IfOk result (λ answer. answer ≡ write_said self.old bytes.now d.old.work.transport) }
        ensures driver { OnOk result (d.new ≡ on_transport (then_write self.old bytes.now) d.old) }
        ensures same { self.new ≡ self.old }
        ensures does { IfOk result (Does d.old d.new (HasSending self.old) (calls.Write self.old bytes.now) write_reply) }
        ensures pieces { OnOk result (pieces_of d.new ≤ pieces_of d.old) }
    {
        send_stream::write(&mut self.half, d, bytes)
    }

    /// Writes as many of the bytes as credit is left for, and tells whether these were all. Fails as `write`.
    ///
    /// # Errors
    ///
    /// `OutOfMemory` where what goes out found no memory.
    pub fn write_all(
        &mut self,
        d: &mut Driver,
        bytes: &[u8],
    ) -> Result<Result<WriteAll, StreamWriteError>, OutOfMemory>
        ensures answer { IfOk result (λ answer. answer ≡ write_all_said self.old bytes.now d.old.work.transport) }
        ensures driver { OnOk result (d.new ≡ on_transport (then_write self.old bytes.now) d.old) }
        ensures same { self.new ≡ self.old }
        ensures does { IfOk result (Does d.old d.new (HasSending self.old) (calls.WriteAll self.old bytes.now) write_all_reply) }
        ensures pieces { OnOk result (pieces_of d.new ≤ pieces_of d.old) }
    {
        send_stream::write_all(&mut self.half, d, bytes)
    }

    /// Ends the half, and is through once all of it is acknowledged. Fails with `Stopped` where the peer stopped it, else with
    /// `NotConnected` where the connection isn't open and not all was acknowledged, or where there is no such stream.
    ///
    /// # Errors
    ///
    /// `OutOfMemory` where what goes out found no memory.
    pub fn finish(
        &mut self,
        d: &mut Driver,
    ) -> Result<Poll<Result<(), StreamWriteError>>, OutOfMemory>
        ensures answer { IfOk result (λ answer. answer ≡ finish_said self.old d.old.work.transport) }
        ensures driver { OnOk result (d.new ≡ on_transport (then_finish self.old) d.old) }
        ensures same { self.new ≡ self.old }
        ensures does { IfOk result (Does d.old d.new (HasSending self.old) (calls.Finish self.old) finish_reply) }
        ensures pieces { OnOk result (pieces_of d.new ≤ pieces_of d.old) }
    {
        send_stream::finish(&mut self.half, d)
    }

    /// How the half was stopped or closed; pending while it is neither and the connection is open.
    pub fn stopped(&mut self, d: &mut Driver) -> Poll<StreamWriteError>
        ensures answer { result ≡ stopped_said self.old d.old.work.transport }
        ensures driver { d.new ≡ d.old }
        ensures same { self.new ≡ self.old }
        ensures does { Does d.old d.new (HasSending self.old) (calls.Stopped self.old) stopped_reply result }
        ensures pieces { pieces_of d.new ≤ pieces_of d.old }
    {
        send_stream::stopped(&mut self.half, d)
    }

    /// Resets the half. Fails where it was reset before, or all of it was acknowledged, or where there is no such stream.
    ///
    /// # Errors
    ///
    /// `OutOfMemory` where what goes out found no memory.
    pub fn reset(
        &mut self,
        d: &mut Driver,
        code: VarInt,
    ) -> Result<Result<(), ClosedStream>, OutOfMemory>
        ensures answer { IfOk result (λ answer. answer ≡ reset_said self.old d.old.work.transport) }
        ensures driver { OnOk result (d.new ≡ on_transport (then_reset self.old code) d.old) }
        ensures same { self.new ≡ self.old }
        ensures does { IfOk result (Does d.old d.new (HasSending self.old) (calls.ResetSend self.old code) reset_reply) }
        ensures pieces { OnOk result (pieces_of d.new ≤ pieces_of d.old) }
    {
        send_stream::reset(&mut self.half, d, code)
    }

    /// The priority that was set last, 0 at first. Fails as `reset`.
    pub fn priority(&self, d: &mut Driver) -> Result<i32, ClosedStream>
        ensures answer { result ≡ priority_said self.now d.old.work.transport }
        ensures driver { d.new ≡ d.old }
        ensures does { Does d.old d.new (HasSending self.now) (calls.Priority self.now) priority_reply result }
        ensures pieces { pieces_of d.new ≤ pieces_of d.old }
    {
        send_stream::priority(&self.half, d)
    }

    /// Sets the priority; nothing happens where `reset` would fail.
    pub fn set_priority(&mut self, d: &mut Driver, priority: i32)
        ensures driver { d.new ≡ on_transport (then_set_priority self.old priority) d.old }
        ensures same { self.new ≡ self.old }
        ensures does { Does d.old d.new (HasSending self.old) (calls.SetPriority self.old priority) done_reply result }
        ensures pieces { pieces_of d.new ≤ pieces_of d.old }
    {
        send_stream::set_priority(&mut self.half, d, priority);
    }
}

impl RecvStream {
    /// The stream.
    pub fn id(&self) -> StreamId
        ensures { result ≡ self.now }
    {
        self.half.id()
    }

    /// Reads unread bytes into the buffer's front, and returns how many; None once all was read and the peer ended the half;
    /// pending while nothing is unread. Fails with `Reset` where nothing is unread and the peer reset the half, and with
    /// `NotConnected` where nothing is unread and the connection isn't open, or where there is no such stream.
    pub fn read(
        &mut self,
        d: &mut Driver,
        buffer: &mut [u8],
    ) -> Poll<Result<Option<usize>, StreamReadError>>
        ensures answer { result ≡ read_said self.old (length buffer.old) d.old.work.transport }
        ensures bytes { buffer.new ≡ read_buffer self.old buffer.old d.old.work.transport }
        ensures driver { d.new ≡ on_transport (then_read self.old (length buffer.old)) d.old }
        ensures same { self.new ≡ self.old }
        ensures does { Does d.old d.new (HasReceiving self.old) (calls.Read self.old (length buffer.old)) (read_reply buffer.new) result }
        ensures size { length buffer.new ≡ length buffer.old }
        ensures within { read_into result ≤ length buffer.old }
        ensures pieces { pieces_of d.new ≤ pieces_of d.old }
    {
        recv_stream::read(&mut self.half, d, buffer)
    }

    /// Fills the buffer with unread bytes; pending while there are too few. Fails with `FinishedEarly` where the peer ended the
    /// half before, whose last bytes are then in the buffer's front, and with `Read` where too few are unread and the peer reset
    /// the half or the connection isn't open, or where there is no such stream.
    pub fn read_exact(
        &mut self,
        d: &mut Driver,
        buffer: &mut [u8],
    ) -> Poll<Result<(), StreamReadExactError>>
        ensures answer { result ≡ exact_said self.old (length buffer.old) d.old.work.transport }
        ensures bytes { buffer.new ≡ exact_buffer self.old buffer.old d.old.work.transport }
        ensures driver { d.new ≡ on_transport (then_read_exact self.old (length buffer.old)) d.old }
        ensures same { self.new ≡ self.old }
        ensures does { Does d.old d.new (HasReceiving self.old) (calls.ReadExact self.old (length buffer.old)) (read_exact_reply buffer.new) result }
        ensures size { length buffer.new ≡ length buffer.old }
        ensures within { exact_into (length buffer.old) result ≤ length buffer.old }
        ensures pieces { pieces_of d.new ≤ pieces_of d.old }
    {
        recv_stream::read_exact(&mut self.half, d, buffer)
    }

    /// Gives the half up, and asks the peer to stop it where the connection is open.
    ///
    /// # Errors
    ///
    /// `OutOfMemory` where what goes out found no memory.
    pub fn stop(self, d: &mut Driver, code: VarInt) -> Result<(), OutOfMemory>
        ensures driver { OnOk result (d.new ≡ on_transport (then_stop self code) d.old) }
        ensures does { IfOk result (Does d.old d.new (HasReceiving self) (calls.StopRecv self code) done_reply) }
        ensures pieces { OnOk result (pieces_of d.new ≤ pieces_of d.old) }
    {
        let RecvStream { half } = self;
        recv_stream::stop(half, d, code)
    }
}
