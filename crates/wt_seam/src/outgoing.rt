//! Bytes that go out as the peer grants credit.
ghost use Rattle.std.specs.Prelude.{◌≡◌, ◌↔◌, ◌<◌, ◌≤◌, [], length, IfOk, IsTrue, OnErr, OnOk};
ghost use Rattle.wt_proto.specs.StreamHeader.{header_bytes};
ghost use Rattle.wt_wire.specs.FrameBytes.{frame_bytes};
ghost use Rattle.wt_transport.specs.Rules.{after_write, may_write_now, sending_half_now};
ghost use Rattle.wt_transport.specs.Step.{can_send_now};
ghost use Rattle.wt_seam.specs.Writing.{Continues, WritesPrefix, after_pending, is_begun, nothing_begun, pending_answer, rest, write_of};
ghost use Rattle.wt_seam.specs.Typed.{can_write_now, signal_bytes};

use std::alloc::Global;
use std::marker::Model;
use wt_proto::stream_header::StreamHeader;
use wt_transport::{QuicSendStream, StreamWriteError, Transport, WriteAll};
use wt_turn::poll::Poll;
use wt_turn::proto_error::ProtoWriteError;
use wt_wire::error::OutOfMemory;
use wt_wire::frame::Frame;
use wt_wire::ids::{SessionId, StreamId};

/// Bytes that are being written to a stream, and how many of them went out; no bytes where nothing is
/// being written. Contracts see both.
#[derive(Debug, Drop)]
pub struct Outgoing {
    bytes: Vec<u8>,
    out: usize,
}

impl Model for Outgoing {
    ghost use Rattle.std.specs.Prelude.{◌≤◌, length};
    ghost use Rattle.wt_seam.specs.Writing.{Pending};

    ghost Value = { Pending };

    ghost view = { λ w. record { bytes = w.bytes.items; out = w.out } };

    ghost invariant = { λ w. w.out ≤ length w.bytes.items };
}

impl Outgoing {
    /// Nothing is being written.
    pub fn new(alloc: Global) -> Outgoing
        ensures { result ≡ nothing_begun }
    {
        Outgoing {
            bytes: Vec::new(alloc),
            out: 0,
        }
    }

    /// Whether a write was begun that isn't through.
    pub fn is_begun(&self) -> bool
        ensures { result ≡ is_begun self.now }
    {
        !self.bytes.is_empty()
    }

    /// Where its memory comes from.
    pub(crate) fn allocator(&self) -> Global {
        *self.bytes.allocator()
    }

    /// Whether a write of this frame may begin or go on: none was begun, or one of the same bytes.
    pub fn continues_frame(&self, frame: &Frame) -> Result<bool, OutOfMemory>
        ensures { IfOk result (λ b. IsTrue b ↔ Continues self.now (frame_bytes frame.now)) }
    {
        let mut bytes = Vec::new(self.allocator());
        frame.write(&mut bytes)?;
        // Half a frame followed by another would be read by the peer as one.
        Ok(self.bytes.is_empty() || self.bytes.as_slice() == bytes.as_slice())
    }

    /// Whether a write of this header may begin or go on.
    pub fn continues_header(&self, header: StreamHeader) -> Result<bool, OutOfMemory>
        ensures { IfOk result (λ b. IsTrue b ↔ Continues self.now (header_bytes header)) }
    {
        let mut bytes = Vec::new(self.allocator());
        header.write(&mut bytes)?;
        Ok(self.bytes.is_empty() || self.bytes.as_slice() == bytes.as_slice())
    }

    /// Whether a write of the signal of this session's stream may begin or go on.
    pub fn continues_signal(&self, session: SessionId) -> Result<bool, OutOfMemory>
        ensures { IfOk result (λ b. IsTrue b ↔ Continues self.now (signal_bytes session)) }
    {
        self.continues_frame(&Frame::new_webtransport(self.allocator(), session))
    }

    /// Begins a write of this frame, unless it was begun.
    fn begin_frame(&mut self, frame: &Frame) -> Result<(), OutOfMemory>
        requires { Continues self.old (frame_bytes frame.now) }
        ensures write { OnOk result (self.new ≡ write_of self.old (frame_bytes frame.now)) }
        ensures err { OnErr result (self.new ≡ self.old) }
    {
        if self.bytes.is_empty() {
            self.out = 0;
            match frame.write(&mut self.bytes) {
                Ok(()) => {}
                Err(error) => {
                    // a part of the bytes would be taken for a write of other bytes
                    self.bytes.clear();
                    return Err(error);
                }
            }
        }
        Ok(())
    }

    /// Begins a write of this header, unless it was begun.
    fn begin_header(&mut self, header: StreamHeader) -> Result<(), OutOfMemory>
        requires { Continues self.old (header_bytes header) }
        ensures write { OnOk result (self.new ≡ write_of self.old (header_bytes header)) }
        ensures err { OnErr result (self.new ≡ self.old) }
    {
        if self.bytes.is_empty() {
            self.out = 0;
            match header.write(&mut self.bytes) {
                Ok(()) => {}
                Err(error) => {
                    // a part of the bytes would be taken for a write of other bytes
                    self.bytes.clear();
                    return Err(error);
                }
            }
        }
        Ok(())
    }

    /// Writes this frame, as far as credit goes.
    pub(crate) fn poll_frame(
        &mut self,
        t: &mut Transport,
        id: StreamId,
        frame: &Frame,
    ) -> Result<Poll<Result<(), ProtoWriteError>>, OutOfMemory>
        requires can { IsTrue (can_write_now t.old id) }
        requires same { Continues self.old (frame_bytes frame.now) }
        ensures answer { IfOk result (λ a. a
            ≡ pending_answer t.old.is_open (sending_half_now t.old id) (rest (write_of self.old (frame_bytes frame.now)))) }
        ensures state { OnOk result (t.new ≡ after_write t.old id (rest (write_of self.old (frame_bytes frame.now)))) }
        ensures write { OnOk result (self.new ≡ after_pending t.old.is_open (sending_half_now t.old id) (write_of self.old (frame_bytes frame.now))) }
        ensures still_going { Continues self.new (frame_bytes frame.now) }
        ensures prefix { OnOk result (WritesPrefix t.old.is_open (sending_half_now t.old id) self.old self.new (frame_bytes frame.now)) }
        ensures err { OnErr result (t.new ≡ t.old) }
        ensures kept { OnErr result (write_of self.new (frame_bytes frame.now) ≡ write_of self.old (frame_bytes frame.now)) }
    {
        self.begin_frame(frame)?;
        self.poll(t, id)
    }

    /// Writes the signal of a stream of this session, as far as credit goes.
    pub(crate) fn poll_signal(
        &mut self,
        t: &mut Transport,
        id: StreamId,
        session: SessionId,
    ) -> Result<Poll<Result<(), ProtoWriteError>>, OutOfMemory>
        requires can { IsTrue (can_write_now t.old id) }
        requires same { Continues self.old (signal_bytes session) }
        ensures answer { IfOk result (λ a. a
            ≡ pending_answer t.old.is_open (sending_half_now t.old id) (rest (write_of self.old (signal_bytes session)))) }
        ensures state { OnOk result (t.new ≡ after_write t.old id (rest (write_of self.old (signal_bytes session)))) }
        ensures write { OnOk result (self.new ≡ after_pending t.old.is_open (sending_half_now t.old id) (write_of self.old (signal_bytes session))) }
        ensures still_going { Continues self.new (signal_bytes session) }
        ensures prefix { OnOk result (WritesPrefix t.old.is_open (sending_half_now t.old id) self.old self.new (signal_bytes session)) }
        ensures err { OnErr result (t.new ≡ t.old) }
        ensures kept { OnErr result (write_of self.new (signal_bytes session) ≡ write_of self.old (signal_bytes session)) }
    {
        let signal = Frame::new_webtransport(self.allocator(), session);
        self.poll_frame(t, id, &signal)
    }

    /// Writes this header, as far as credit goes.
    pub(crate) fn poll_header(
        &mut self,
        t: &mut Transport,
        id: StreamId,
        header: StreamHeader,
    ) -> Result<Poll<Result<(), ProtoWriteError>>, OutOfMemory>
        requires can { IsTrue (can_write_now t.old id) }
        requires same { Continues self.old (header_bytes header) }
        ensures answer { IfOk result (λ a. a
            ≡ pending_answer t.old.is_open (sending_half_now t.old id) (rest (write_of self.old (header_bytes header)))) }
        ensures state { OnOk result (t.new ≡ after_write t.old id (rest (write_of self.old (header_bytes header)))) }
        ensures write { OnOk result (self.new ≡ after_pending t.old.is_open (sending_half_now t.old id) (write_of self.old (header_bytes header))) }
        ensures still_going { Continues self.new (header_bytes header) }
        ensures prefix { OnOk result (WritesPrefix t.old.is_open (sending_half_now t.old id) self.old self.new (header_bytes header)) }
        ensures err { OnErr result (t.new ≡ t.old) }
        ensures kept { OnErr result (write_of self.new (header_bytes header) ≡ write_of self.old (header_bytes header)) }
    {
        self.begin_header(header)?;
        self.poll(t, id)
    }

    /// Writes as many of the bytes that are left as credit covers, and is through once all are out.
    fn poll(
        &mut self,
        t: &mut Transport,
        id: StreamId,
    ) -> Result<Poll<Result<(), ProtoWriteError>>, OutOfMemory>
        requires can { IsTrue (can_send_now t.old id) }
        requires may { IsTrue (may_write_now t.old id) }
        ensures answer { IfOk result (λ a. a ≡ pending_answer t.old.is_open (sending_half_now t.old id) (rest self.old)) }
        ensures state { OnOk result (t.new ≡ after_write t.old id (rest self.old)) }
        ensures write { OnOk result (self.new ≡ after_pending t.old.is_open (sending_half_now t.old id) self.old) }
        ensures err { OnErr result (t.new ≡ t.old) }
        ensures kept { OnErr result (self.new ≡ self.old) }
    {
        match QuicSendStream::new(id).write_all(t, &self.bytes[self.out..])? {
            Ok(WriteAll::Done) => {
                self.bytes.clear();
                self.out = 0;
                Ok(Poll::Ready(Ok(())))
            }
            Ok(WriteAll::Count(count)) => {
                self.out += count;
                Ok(Poll::Pending)
            }
            Err(StreamWriteError::NotConnected) => {
                Ok(Poll::Ready(Err(ProtoWriteError::NotConnected)))
            }
            // Of a half that this end neither finished nor reset, which the caller knows, only a stop is
            // left.
            Err(_) => Ok(Poll::Ready(Err(ProtoWriteError::Stopped))),
        }
    }
}
