//! One half of a stream, with the transport that keeps it.
ghost use Rattle.std.specs.Prelude.{◌≡◌, ◌++◌, length, take, drop, IfOk, IsTrue, OnErr, OnOk};
ghost use Rattle.wt_turn.specs.declared.action.Action.TheVariants as actions;
ghost use Rattle.wt_turn.specs.Log.{is_open, with_actions};
ghost use Rattle.wt_turn.specs.Joined.{newest_first};
ghost use Rattle.wt_turn.specs.Outgoing.{if_open};
ghost use Rattle.wt_turn.specs.Unread.{position_after, given_up, unread};
ghost use Rattle.wt_transport.specs.OfLog.{OfEachLog, SendsIfOk, Tells, TellsUnread};
ghost use Rattle.wt_transport.specs.State.{Refines};
ghost use Rattle.wt_transport.specs.Step.{after_consume, after_give_up, after_stop, can_receive_now, can_send_now, unread_now};
ghost use Rattle.wt_transport.specs.HalfRules.{finish_answer, priority_answer, read_answer, read_count, read_exact_answer, read_exact_count, reset_answer, stopped_answer, write_all_answer, write_answer};
ghost use Rattle.wt_transport.specs.Rules.{after_finishing, after_priority_unless_closed, after_reset_unless_closed, after_write, actions_of_finish, log_priority, log_reset, may_write, may_write_now, receiving_half, receiving_half_now, actions_of_reset, sending_half, sending_half_now, actions_of_write};

use crate::transport::Transport;
use wt_turn::poll::Poll;
use wt_turn::stream_error::{
    ClosedStream, StreamReadError, StreamReadExactError, StreamWriteError, WriteAll,
};
use wt_wire::error::OutOfMemory;
use wt_wire::ids::StreamId;
use wt_wire::varint::VarInt;

/// A half of a stream on which this end sends.
#[derive(Debug, Drop)]
pub struct QuicSendStream {
    /// The stream.
    pub id: StreamId,
}

impl QuicSendStream {
    /// The sending half of this stream.
    pub fn new(id: StreamId) -> QuicSendStream
        ensures { result.id ≡ id }
    {
        QuicSendStream { id }
    }

    /// The stream.
    pub fn id(&self) -> StreamId
        ensures { result ≡ self.now.id }
    {
        self.id
    }

    /// Writes as many of the bytes as credit is left for, and returns how many; pending where the buffer
    /// isn't empty and no credit is left. Fails with `NotConnected` where the connection isn't open, else
    /// with `Closed` where this end finished or reset the half, else with `Stopped` where the peer stopped
    /// it.
    pub fn write(
        &mut self,
        t: &mut Transport,
        bytes: &[u8],
    ) -> Result<Poll<Result<usize, StreamWriteError>>, OutOfMemory>
        requires { IsTrue (can_send_now t.old self.old.id) }
        ensures answer { IfOk result (λ a. a ≡ write_answer t.old.is_open (sending_half_now t.old self.old.id) bytes.now) }
        ensures state { OnOk result (t.new ≡ after_write t.old self.old.id bytes.now) }
        ensures err { OnErr result (t.new ≡ t.old) }
        ensures log_answer { Tells t.old (λ side log. IfOk result (λ a. a ≡ write_answer (is_open log) (sending_half log self.old.id) bytes.now)) }
        ensures log { SendsIfOk result t.old t.new (λ side log. actions_of_write side log self.old.id bytes.now) }
        ensures same { self.new ≡ self.old }
    {
        Ok(t.write(self.id, bytes)?.into_write())
    }

    /// Writes as many of the bytes as credit is left for, and returns whether these were all. Fails as
    /// `write`.
    pub fn write_all(
        &mut self,
        t: &mut Transport,
        bytes: &[u8],
    ) -> Result<Result<WriteAll, StreamWriteError>, OutOfMemory>
        requires { IsTrue (can_send_now t.old self.old.id) }
        ensures answer { IfOk result (λ a. a ≡ write_all_answer t.old.is_open (sending_half_now t.old self.old.id) bytes.now) }
        ensures state { OnOk result (t.new ≡ after_write t.old self.old.id bytes.now) }
        ensures err { OnErr result (t.new ≡ t.old) }
        ensures log_answer { Tells t.old (λ side log. IfOk result (λ a. a
            ≡ write_all_answer (is_open log) (sending_half log self.old.id) bytes.now)) }
        ensures log { SendsIfOk result t.old t.new (λ side log. actions_of_write side log self.old.id bytes.now) }
        ensures same { self.new ≡ self.old }
    {
        Ok(t.write(self.id, bytes)?.into_write_all(bytes.len()))
    }

    /// Whether a write isn't closed: the connection has ended, or this end neither finished nor reset the
    /// half.
    pub fn may_write(&self, t: &Transport) -> bool
        requires { IsTrue (can_send_now t.now self.now.id) }
        ensures now { result ≡ may_write_now t.now self.now.id }
        ensures log { Tells t.now (λ side log. result ≡ may_write log self.now.id) }
    {
        t.stream(self.id).is_writable(t.is_open())
    }

    /// Ends the half, and is through once all of it is acknowledged. Fails with `Stopped` where the peer
    /// stopped it, else with `NotConnected` where the connection isn't open and not all was
    /// acknowledged.
    pub fn finish(
        &mut self,
        t: &mut Transport,
    ) -> Result<Poll<Result<(), StreamWriteError>>, OutOfMemory>
        requires { IsTrue (can_send_now t.old self.old.id) }
        ensures answer { IfOk result (λ a. a ≡ finish_answer t.old.is_open (sending_half_now t.old self.old.id)) }
        ensures state { OnOk result (t.new ≡ after_finishing t.old self.old.id) }
        ensures err { OnErr result (t.new ≡ t.old) }
        ensures log_answer { Tells t.old (λ side log. IfOk result (λ a. a ≡ finish_answer (is_open log) (sending_half log self.old.id))) }
        ensures log { SendsIfOk result t.old t.new (λ side log. actions_of_finish side log self.old.id) }
        ensures same { self.new ≡ self.old }
    {
        let answer = t.stream(self.id).finish_answer(t.is_open());
        if t.may_send(self.id) {
            t.finish(self.id)?;
        }
        Ok(answer)
    }

    /// Resets the half. Fails where it was reset before, or all of it was acknowledged.
    pub fn reset(
        &mut self,
        t: &mut Transport,
        code: VarInt,
    ) -> Result<Result<(), ClosedStream>, OutOfMemory>
        requires { IsTrue (can_send_now t.old self.old.id) }
        ensures answer { IfOk result (λ a. a ≡ reset_answer (sending_half_now t.old self.old.id)) }
        ensures state { OnOk result (t.new ≡ after_reset_unless_closed t.old self.old.id code) }
        ensures err { OnErr result (t.new ≡ t.old) }
        ensures log_answer { Tells t.old (λ side log. IfOk result (λ a. a ≡ reset_answer (sending_half log self.old.id))) }
        ensures log { OfEachLog t.old (λ side log position uncollected. OnOk result (Refines side t.new (log_reset log self.old.id code) position (newest_first (actions_of_reset log self.old.id code) uncollected))) }
        ensures same { self.new ≡ self.old }
    {
        if t.stream(self.id).is_closed() {
            return Ok(Err(ClosedStream));
        }
        t.reset(self.id, code)?;
        Ok(Ok(()))
    }

    /// How the half was stopped or closed; pending while it is neither and the connection is open.
    pub fn stopped(&mut self, t: &mut Transport) -> Poll<StreamWriteError>
        requires { IsTrue (can_send_now t.old self.old.id) }
        ensures answer { result ≡ stopped_answer t.old.is_open (sending_half_now t.old self.old.id) }
        ensures log_answer { Tells t.old (λ side log. result ≡ stopped_answer (is_open log) (sending_half log self.old.id)) }
        ensures unchanged { t.new ≡ t.old }
        ensures same { self.new ≡ self.old }
    {
        t.stream(self.id).stopped(t.is_open())
    }

    /// The priority that was set last, 0 at first. Fails as `reset`.
    pub fn priority(&self, t: &mut Transport) -> Result<i32, ClosedStream>
        requires { IsTrue (can_send_now t.old self.now.id) }
        ensures answer { result ≡ priority_answer (sending_half_now t.old self.now.id) }
        ensures log_answer { Tells t.old (λ side log. result ≡ priority_answer (sending_half log self.now.id)) }
        ensures unchanged { t.new ≡ t.old }
    {
        let stream = t.stream(self.id);
        if stream.is_closed() {
            return Err(ClosedStream);
        }
        Ok(stream.priority)
    }

    /// Sets the priority; nothing happens where `reset` would fail.
    pub fn set_priority(&mut self, t: &mut Transport, priority: i32)
        requires { IsTrue (can_send_now t.old self.old.id) }
        ensures state { t.new ≡ after_priority_unless_closed t.old self.old.id priority }
        ensures log { OfEachLog t.old (λ side log position uncollected. Refines side t.new (log_priority log self.old.id priority) position uncollected) }
        ensures same { self.new ≡ self.old }
    {
        if !t.stream(self.id).is_closed() {
            t.set_priority(self.id, priority);
        }
    }
}

/// A half of a stream on which this end receives.
#[derive(Debug, Drop)]
pub struct QuicRecvStream {
    /// The stream.
    pub id: StreamId,
}

impl QuicRecvStream {
    /// The receiving half of this stream.
    pub fn new(id: StreamId) -> QuicRecvStream
        ensures { result.id ≡ id }
    {
        QuicRecvStream { id }
    }

    /// The stream.
    pub fn id(&self) -> StreamId
        ensures { result ≡ self.now.id }
    {
        self.id
    }

    /// Reads unread bytes into the buffer's front, and returns how many; None once all was read and the
    /// peer ended the half; pending while nothing is unread. Fails with `Reset` where nothing is unread
    /// and the peer reset the half, and with `NotConnected` where nothing is unread and the connection
    /// isn't open.
    pub fn read(
        &mut self,
        t: &mut Transport,
        buffer: &mut [u8],
    ) -> Poll<Result<Option<usize>, StreamReadError>>
        requires { IsTrue (can_receive_now t.old self.old.id) }
        ensures answer { result ≡ read_answer t.old.is_open (receiving_half_now t.old self.old.id) (length buffer.old) }
        ensures bytes { buffer.new
            ≡ take (read_count (receiving_half_now t.old self.old.id) (length buffer.old)) (unread_now t.old self.old.id) ++ drop (read_count (receiving_half_now t.old self.old.id) (length buffer.old)) buffer.old }
        ensures state { t.new ≡ after_consume t.old self.old.id (read_count (receiving_half_now t.old self.old.id) (length buffer.old)) }
        ensures log_answer { TellsUnread t.old (λ side log position. result
            ≡ read_answer (is_open log) (receiving_half log position self.old.id) (length buffer.old)) }
        ensures log_bytes { TellsUnread t.old (λ side log position. buffer.new
            ≡ take (read_count (receiving_half log position self.old.id) (length buffer.old)) (unread log position self.old.id) ++ drop (read_count (receiving_half log position self.old.id) (length buffer.old)) buffer.old) }
        ensures log { OfEachLog t.old (λ side log position uncollected. Refines side t.new log (position_after position self.old.id (read_count (receiving_half log position self.old.id) (length buffer.old))) uncollected) }
        ensures same { self.new ≡ self.old }
    {
        let size = buffer.len();
        t.read(self.id, buffer, size.min(1)).into_read(size)
    }

    /// Fills the buffer with unread bytes; pending while there are too few. Fails with `FinishedEarly`
    /// where the peer ended the half before, whose last bytes are then in the buffer's front, and with
    /// `Read` where too few are unread and the peer reset the half or the connection isn't open.
    pub fn read_exact(
        &mut self,
        t: &mut Transport,
        buffer: &mut [u8],
    ) -> Poll<Result<(), StreamReadExactError>>
        requires { IsTrue (can_receive_now t.old self.old.id) }
        ensures answer { result ≡ read_exact_answer t.old.is_open (receiving_half_now t.old self.old.id) (length buffer.old) }
        ensures bytes { buffer.new
            ≡ take (read_exact_count (receiving_half_now t.old self.old.id) (length buffer.old)) (unread_now t.old self.old.id) ++ drop (read_exact_count (receiving_half_now t.old self.old.id) (length buffer.old)) buffer.old }
        ensures state { t.new ≡ after_consume t.old self.old.id (read_exact_count (receiving_half_now t.old self.old.id) (length buffer.old)) }
        ensures log_answer { TellsUnread t.old (λ side log position. result
            ≡ read_exact_answer (is_open log) (receiving_half log position self.old.id) (length buffer.old)) }
        ensures log_bytes { TellsUnread t.old (λ side log position. buffer.new
            ≡ take (read_exact_count (receiving_half log position self.old.id) (length buffer.old)) (unread log position self.old.id) ++ drop (read_exact_count (receiving_half log position self.old.id) (length buffer.old)) buffer.old) }
        ensures log { OfEachLog t.old (λ side log position uncollected. Refines side t.new log (position_after position self.old.id (read_exact_count (receiving_half log position self.old.id) (length buffer.old))) uncollected) }
        ensures same { self.new ≡ self.old }
    {
        let size = buffer.len();
        t.read(self.id, buffer, size).into_read_exact(size)
    }

    /// Gives the half up, and asks the peer to stop it where the connection is open.
    pub fn stop(self, t: &mut Transport, code: VarInt) -> Result<(), OutOfMemory>
        requires { IsTrue (can_receive_now t.old self.id) }
        ensures state { OnOk result (t.new ≡ after_give_up (after_stop t.old self.id code) self.id) }
        ensures err { OnErr result (t.new ≡ t.old) }
        ensures log { OfEachLog t.old (λ side log position uncollected. OnOk result (Refines side t.new (with_actions (if_open log (actions.StopOut self.id code)) log) (given_up position self.id) (newest_first (if_open log (actions.StopOut self.id code)) uncollected))) }
    {
        t.stop(self.id, code)?;
        t.give_up(self.id);
        Ok(())
    }
}
