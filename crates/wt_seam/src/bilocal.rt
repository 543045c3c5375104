//! Bidirectional streams of this end.
ghost use Rattle.std.specs.Prelude.{◌≡◌, ◌↔◌, ◌%◌, IfOk, IsTrue, OnErr, OnOk, false, true};
ghost use Rattle.wt_proto.specs.WalkProgress.{at_item};
ghost use Rattle.wt_turn.specs.Streams.{local_bi};
ghost use Rattle.wt_transport.specs.Rules.{after_write, sending_half_now};
ghost use Rattle.wt_transport.specs.Step.{after_opening, opened_id_now};
ghost use Rattle.wt_seam.specs.declared.next_frame.FrameSource.TheVariants as sources;
ghost use Rattle.wt_seam.specs.Typed.{both, can_write_now, in_stage, is_through, map_poll, signal_bytes};
ghost use Rattle.wt_seam.specs.Writing.{Continues, WritesPrefix, after_pending, is_begun, nothing_begun, pending_answer, rest, write_of};

use crate::next_frame::{FrameReader, FrameSource};
use crate::outgoing::Outgoing;
use crate::stream::{
    BiLocalH3, BiLocalQuic, BiLocalWT, Pair, Session, Stream, StreamBiLocalH3, StreamBiLocalWT,
    StreamSession, can_write, session_of,
};
use std::alloc::Global;
use wt_proto::session::SessionRequest;
use wt_transport::{QuicRecvStream, QuicSendStream, Transport};
use wt_turn::poll::Poll;
use wt_turn::proto_error::ProtoWriteError;
use wt_wire::error::OutOfMemory;
use wt_wire::ids::{SessionId, StreamId};

impl Stream<Pair, BiLocalQuic> {
    /// Opens this end's next bidirectional stream; None exactly where the connection isn't open or no
    /// more may be opened.
    pub fn open_bi(t: &mut Transport) -> Result<Option<Self>, OutOfMemory>
        ensures stream { IfOk result (λ s. s ≡ in_stage both (record {}) (opened_id_now t.old (local_bi t.old.side))) }
        ensures state { OnOk result (t.new ≡ after_opening t.old (local_bi t.old.side)) }
        ensures err { OnErr result (t.new ≡ t.old) }
    {
        match t.open_bi()? {
            Some(id) => Ok(Some(Stream {
                halves: (QuicSendStream::new(id), QuicRecvStream::new(id)),
                stage: BiLocalQuic,
            })),
            None => Ok(None),
        }
    }

    /// A request or the signal of a session is to go out on it.
    pub fn upgrade(self, alloc: Global) -> StreamBiLocalH3
        ensures halves { result.halves ≡ self.halves }
        ensures writing { result.stage.writing ≡ nothing_begun }
        ensures spent { result.stage.is_spent ≡ false }
    {
        let Stream { halves, stage: _ } = self;
        Stream {
            halves,
            stage: BiLocalH3 {
                writing: Outgoing::new(alloc),
                is_spent: false,
            },
        }
    }

    /// The stream.
    pub fn id(&self) -> StreamId
        ensures { result ≡ self.now.halves.0.id }
    {
        self.halves.0.id
    }
}

impl Stream<Pair, BiLocalH3> {
    /// Writes the signal of a stream of this session, and hands the upgraded stream out once it is out;
    /// this one is spent then. Pending while a rest of the signal lacks credit. Fails with
    /// `NotConnected` where the connection isn't open, else with `Stopped` where the peer stopped it.
    pub fn upgrade(
        &mut self,
        t: &mut Transport,
        session: SessionId,
    ) -> Result<Poll<Result<StreamBiLocalWT, ProtoWriteError>>, OutOfMemory>
        requires unspent { self.old.stage.is_spent ≡ false }
        requires can { IsTrue (can_write_now t.old self.old.halves.0.id) }
        requires same { Continues self.old.stage.writing (signal_bytes session) }
        ensures answer { IfOk result (λ a. a
            ≡ map_poll (λ through. record { halves = self.old.halves; stage = record {} }) (pending_answer t.old.is_open (sending_half_now t.old self.old.halves.0.id) (rest (write_of self.old.stage.writing (signal_bytes session))))) }
        ensures state { OnOk result (t.new ≡ after_write t.old self.old.halves.0.id (rest (write_of self.old.stage.writing (signal_bytes session)))) }
        ensures still_going { Continues self.new.stage.writing (signal_bytes session) }
        ensures prefix { OnOk result (WritesPrefix t.old.is_open (sending_half_now t.old self.old.halves.0.id) self.old.stage.writing self.new.stage.writing (signal_bytes session)) }
        ensures halves { self.new.halves ≡ self.old.halves }
        ensures writing { OnOk result (self.new.stage.writing
            ≡ after_pending t.old.is_open (sending_half_now t.old self.old.halves.0.id) (write_of self.old.stage.writing (signal_bytes session))) }
        ensures spent { IfOk result (λ a. self.new.stage.is_spent ≡ is_through a) }
        ensures err { OnErr result (t.new ≡ t.old) }
        ensures kept { OnErr result (write_of self.new.stage.writing (signal_bytes session)
            ≡ write_of self.old.stage.writing (signal_bytes session)) }
        ensures unspent { OnErr result (self.new.stage.is_spent ≡ false) }
    {
        let id = self.halves.0.id;
        match self.stage.writing.poll_signal(t, id, session)? {
            Poll::Pending => Ok(Poll::Pending),
            Poll::Ready(Err(error)) => Ok(Poll::Ready(Err(error))),
            Poll::Ready(Ok(())) => {
                self.stage.is_spent = true;
                Ok(Poll::Ready(Ok(Stream {
                    halves: (
                        QuicSendStream::new(id),
                        QuicRecvStream::new(self.halves.1.id),
                    ),
                    stage: BiLocalWT,
                })))
            }
        }
    }

    /// Whether the upgraded stream was handed out.
    pub fn is_spent(&self) -> bool
        ensures { result ≡ self.now.stage.is_spent }
    {
        self.stage.is_spent
    }

    /// Whether an upgrade may go on: the sending half exists, and this end neither finished nor reset it
    /// while the connection is open.
    pub fn can_write(&self, t: &Transport) -> bool
        ensures { result ≡ can_write_now t.now self.now.halves.0.id }
    {
        can_write(self.halves.0.id, t)
    }

    /// Whether an upgrade for this session may begin or go on.
    pub fn continues(&self, session: SessionId) -> Result<bool, OutOfMemory>
        ensures { IfOk result (λ b. IsTrue b ↔ Continues self.now.stage.writing (signal_bytes session)) }
    {
        self.stage.writing.continues_signal(session)
    }

    /// Whether the signal was begun.
    pub fn is_writing(&self) -> bool
        ensures { result ≡ is_begun self.now.stage.writing }
    {
        self.stage.writing.is_begun()
    }

    /// The stream.
    pub fn id(&self) -> StreamId
        ensures { result ≡ self.now.halves.0.id }
    {
        self.halves.0.id
    }

    /// The stream of the session that this request asks for. It has to be a client's bidirectional
    /// stream, whose id is a multiple of 4.
    pub fn into_session(self, request: SessionRequest) -> StreamSession
        requires { self.halves.0.id % 4 ≡ 0 }
        ensures halves { result.halves ≡ self.halves }
        ensures session { result.stage.session ≡ self.halves.0.id }
        ensures request { result.stage.request ≡ request }
        ensures frames { result.stage.frames ≡ at_item sources.Other }
        ensures writing { result.stage.writing ≡ nothing_begun }
        ensures stopped { result.stage.is_stopped ≡ false }
    {
        let session = session_of(self.id());
        let Stream { halves, stage } = self;
        let alloc = stage.writing.allocator();
        Stream {
            halves,
            stage: Session {
                session,
                request,
                frames: FrameReader::for_frames(alloc, FrameSource::Other),
                writing: Outgoing::new(alloc),
                is_stopped: false,
            },
        }
    }
}

impl Stream<Pair, BiLocalWT> {
    /// Its halves.
    pub fn into_stream(self) -> Pair
        ensures { result ≡ self.halves }
    {
        let Stream { halves, stage: _ } = self;
        halves
    }
}
