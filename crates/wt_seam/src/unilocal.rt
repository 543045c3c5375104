//! Unidirectional streams of this end.
ghost use Rattle.std.specs.Prelude.{◌≡◌, ◌↔◌, IfOk, IsTrue, OnErr, OnOk, false, true};
ghost use Rattle.wt_proto.specs.StreamHeader.{header_bytes, header_kind};
ghost use Rattle.wt_proto.specs.declared.stream_header.StreamKind.TheVariants as kinds;
ghost use Rattle.wt_wire.specs.FrameBytes.{frame_bytes};
ghost use Rattle.wt_turn.specs.Streams.{local_uni};
ghost use Rattle.wt_transport.specs.HalfRules.{stopped_answer};
ghost use Rattle.wt_transport.specs.Rules.{after_write, sending_half_now};
ghost use Rattle.wt_transport.specs.Step.{after_opening, can_send_now, opened_id_now};
ghost use Rattle.wt_seam.specs.Typed.{can_write_now, in_stage, is_through, map_poll};
ghost use Rattle.wt_seam.specs.Writing.{Continues, WritesPrefix, after_pending, is_begun, nothing_begun, pending_answer, rest, write_of};

use crate::outgoing::Outgoing;
use crate::stream::{
    Stream, StreamUniLocalH3, StreamUniLocalWT, UniLocalH3, UniLocalQuic, UniLocalWT, can_write,
};
use std::alloc::Global;
use wt_proto::stream_header::{StreamHeader, StreamKind};
use wt_transport::{QuicSendStream, StreamWriteError, Transport};
use wt_turn::poll::Poll;
use wt_turn::proto_error::ProtoWriteError;
use wt_wire::error::OutOfMemory;
use wt_wire::frame::Frame;
use wt_wire::ids::StreamId;

impl Stream<QuicSendStream, UniLocalQuic> {
    /// Opens this end's next unidirectional stream; None exactly where the connection isn't open or no
    /// more may be opened.
    pub fn open_uni(alloc: Global, t: &mut Transport) -> Result<Option<Self>, OutOfMemory>
        ensures stream { IfOk result (λ s. s
            ≡ in_stage (λ id. record { id = id }) (record { writing = nothing_begun; is_spent = false }) (opened_id_now t.old (local_uni t.old.side))) }
        ensures state { OnOk result (t.new ≡ after_opening t.old (local_uni t.old.side)) }
        ensures err { OnErr result (t.new ≡ t.old) }
    {
        match t.open_uni()? {
            Some(id) => Ok(Some(Stream {
                halves: QuicSendStream::new(id),
                stage: UniLocalQuic {
                    writing: Outgoing::new(alloc),
                    is_spent: false,
                },
            })),
            None => Ok(None),
        }
    }

    /// Writes the header, and hands the upgraded stream out once it is out; this one is spent then.
    /// Pending while a rest of the header lacks credit. Fails with `NotConnected` where the connection
    /// isn't open, else with `Stopped` where the peer stopped the stream.
    pub fn upgrade(
        &mut self,
        t: &mut Transport,
        header: StreamHeader,
    ) -> Result<Poll<Result<StreamUniLocalH3, ProtoWriteError>>, OutOfMemory>
        requires unspent { self.old.stage.is_spent ≡ false }
        requires can { IsTrue (can_write_now t.old self.old.halves.id) }
        requires same { Continues self.old.stage.writing (header_bytes header) }
        ensures answer { IfOk result (λ a. a
            ≡ map_poll (λ through. record { halves = self.old.halves; stage = record { kind = header_kind header; writing = nothing_begun } }) (pending_answer t.old.is_open (sending_half_now t.old self.old.halves.id) (rest (write_of self.old.stage.writing (header_bytes header))))) }
        ensures state { OnOk result (t.new ≡ after_write t.old self.old.halves.id (rest (write_of self.old.stage.writing (header_bytes header)))) }
        ensures still_going { Continues self.new.stage.writing (header_bytes header) }
        ensures prefix { OnOk result (WritesPrefix t.old.is_open (sending_half_now t.old self.old.halves.id) self.old.stage.writing self.new.stage.writing (header_bytes header)) }
        ensures halves { self.new.halves ≡ self.old.halves }
        ensures writing { OnOk result (self.new.stage.writing
            ≡ after_pending t.old.is_open (sending_half_now t.old self.old.halves.id) (write_of self.old.stage.writing (header_bytes header))) }
        ensures spent { IfOk result (λ a. self.new.stage.is_spent ≡ is_through a) }
        ensures err { OnErr result (t.new ≡ t.old) }
        ensures kept { OnErr result (write_of self.new.stage.writing (header_bytes header) ≡ write_of self.old.stage.writing (header_bytes header)) }
        ensures unspent { OnErr result (self.new.stage.is_spent ≡ false) }
    {
        let id = self.halves.id;
        match self.stage.writing.poll_header(t, id, header)? {
            Poll::Pending => Ok(Poll::Pending),
            Poll::Ready(Err(error)) => Ok(Poll::Ready(Err(error))),
            Poll::Ready(Ok(())) => {
                self.stage.is_spent = true;
                Ok(Poll::Ready(Ok(Stream {
                    halves: QuicSendStream::new(id),
                    stage: UniLocalH3 {
                        kind: header.kind(),
                        writing: Outgoing::new(self.stage.writing.allocator()),
                    },
                })))
            }
        }
    }

    /// Whether the upgraded stream was handed out.
    pub fn is_spent(&self) -> bool
        ensures { result ≡ self.now.stage.is_spent }
    {
        self.stage.is_spent
    }

    /// Whether an upgrade may go on: the sending half exists, and this end neither finished nor reset it
    /// while the connection is open.
    pub fn can_write(&self, t: &Transport) -> bool
        ensures { result ≡ can_write_now t.now self.now.halves.id }
    {
        can_write(self.halves.id, t)
    }

    /// Whether an upgrade with this header may begin or go on.
    pub fn continues(&self, header: StreamHeader) -> Result<bool, OutOfMemory>
        ensures { IfOk result (λ b. IsTrue b ↔ Continues self.now.stage.writing (header_bytes header)) }
    {
        self.stage.writing.continues_header(header)
    }

    /// Whether the header was begun.
    pub fn is_writing(&self) -> bool
        ensures { result ≡ is_begun self.now.stage.writing }
    {
        self.stage.writing.is_begun()
    }

    /// The stream.
    pub fn id(&self) -> StreamId
        ensures { result ≡ self.now.halves.id }
    {
        self.halves.id
    }
}

impl Stream<QuicSendStream, UniLocalH3> {
    /// Writes a frame; pending while a rest of it lacks credit, and then the next call goes on with the
    /// same frame. Fails with `NotConnected` where the connection isn't open, else with `Stopped` where
    /// the peer stopped the stream.
    pub fn write_frame(
        &mut self,
        t: &mut Transport,
        frame: &Frame,
    ) -> Result<Poll<Result<(), ProtoWriteError>>, OutOfMemory>
        requires can { IsTrue (can_write_now t.old self.old.halves.id) }
        requires same { Continues self.old.stage.writing (frame_bytes frame.now) }
        ensures answer { IfOk result (λ a. a
            ≡ pending_answer t.old.is_open (sending_half_now t.old self.old.halves.id) (rest (write_of self.old.stage.writing (frame_bytes frame.now)))) }
        ensures state { OnOk result (t.new ≡ after_write t.old self.old.halves.id (rest (write_of self.old.stage.writing (frame_bytes frame.now)))) }
        ensures still_going { Continues self.new.stage.writing (frame_bytes frame.now) }
        ensures prefix { OnOk result (WritesPrefix t.old.is_open (sending_half_now t.old self.old.halves.id) self.old.stage.writing self.new.stage.writing (frame_bytes frame.now)) }
        ensures writing { OnOk result (self.new
            ≡ record self.old { stage = record self.old.stage { writing = after_pending t.old.is_open (sending_half_now t.old self.old.halves.id) (write_of self.old.stage.writing (frame_bytes frame.now)) } }) }
        ensures others { self.new ≡ record self.old { stage = record self.old.stage { writing = self.new.stage.writing } } }
        ensures err { OnErr result (t.new ≡ t.old) }
        ensures kept { OnErr result (write_of self.new.stage.writing (frame_bytes frame.now)
            ≡ write_of self.old.stage.writing (frame_bytes frame.now)) }
    {
        self.stage.writing.poll_frame(t, self.halves.id, frame)
    }

    /// What the stream is for.
    pub fn kind(&self) -> StreamKind
        ensures { result ≡ self.now.stage.kind }
    {
        self.stage.kind
    }

    /// How the stream was stopped or closed; pending while it is neither and the connection is open.
    pub fn stopped(&mut self, t: &mut Transport) -> Poll<StreamWriteError>
        requires { IsTrue (can_send_now t.old self.old.halves.id) }
        ensures answer { result ≡ stopped_answer t.old.is_open (sending_half_now t.old self.old.halves.id) }
        ensures unchanged { t.new ≡ t.old }
        ensures same { self.new ≡ self.old }
    {
        self.halves.stopped(t)
    }

    /// A stream of a session.
    pub fn upgrade(self) -> StreamUniLocalWT
        requires { self.stage.kind ≡ kinds.WebTransport }
        ensures { result.halves ≡ self.halves }
    {
        let Stream { halves, stage: _ } = self;
        Stream {
            halves,
            stage: UniLocalWT,
        }
    }

    /// Whether a write may go on: the sending half exists, and this end neither finished nor reset it
    /// while the connection is open.
    pub fn can_write(&self, t: &Transport) -> bool
        ensures { result ≡ can_write_now t.now self.now.halves.id }
    {
        can_write(self.halves.id, t)
    }

    /// Whether a write of this frame may begin or go on: none was begun that isn't through, or the
    /// same one.
    pub fn continues(&self, frame: &Frame) -> Result<bool, OutOfMemory>
        ensures { IfOk result (λ b. IsTrue b ↔ Continues self.now.stage.writing (frame_bytes frame.now)) }
    {
        self.stage.writing.continues_frame(frame)
    }

    /// Whether a write was begun that isn't through; it may be that nothing of it went out.
    pub fn is_writing(&self) -> bool
        ensures { result ≡ is_begun self.now.stage.writing }
    {
        self.stage.writing.is_begun()
    }

    /// The stream.
    pub fn id(&self) -> StreamId
        ensures { result ≡ self.now.halves.id }
    {
        self.halves.id
    }
}

impl Stream<QuicSendStream, UniLocalWT> {
    /// Its half.
    pub fn into_stream(self) -> QuicSendStream
        ensures { result ≡ self.halves }
    {
        let Stream { halves, stage: _ } = self;
        halves
    }
}
