//! The stream of a session.
ghost use Rattle.std.specs.Prelude.{◌≡◌, ◌↔◌, IfOk, IsTrue, OnErr, OnOk, false, true};
ghost use Rattle.wt_proto.specs.WalkProgress.{at_item};
ghost use Rattle.wt_wire.specs.FrameBytes.{frame_bytes};
ghost use Rattle.wt_transport.specs.HalfRules.{finish_answer, reset_answer};
ghost use Rattle.wt_transport.specs.Rules.{after_finishing, after_reset_unless_closed, after_write, sending_half_now};
ghost use Rattle.wt_transport.specs.Step.{can_receive_now, can_send_now};
ghost use Rattle.wt_seam.specs.declared.next_frame.FrameSource.TheVariants as sources;
ghost use Rattle.wt_seam.specs.NextFrame.{frame_decides};
ghost use Rattle.wt_seam.specs.Reads.{FailedReadTakes, ReadAnswers, ReadAnswersSince, ReadLeaves, ReadLeavesBegun, ReadTakes};
ghost use Rattle.wt_seam.specs.Typed.{after_stop_once, can_write_now, ready_at_all, stop_answer};
ghost use Rattle.wt_seam.specs.Writing.{Continues, WritesPrefix, after_pending, is_begun, nothing_begun, pending_answer, rest, write_of};

use crate::next_frame::{FrameReader, FrameSource};
use crate::outgoing::Outgoing;
use crate::stream::{Pair, Session, Stream, StreamSession, can_write, stop_once};
use std::alloc::Global;
use wt_proto::session::SessionRequest;
use wt_transport::{ClosedStream, QuicRecvStream, QuicSendStream, Transport};
use wt_turn::poll::Poll;
use wt_turn::proto_error::{ProtoReadError, ProtoWriteError};
use wt_turn::stream_error::AlreadyStop;
use wt_wire::error::OutOfMemory;
use wt_wire::frame::Frame;
use wt_wire::ids::{SessionId, StreamId};
use wt_wire::varint::VarInt;

impl Stream<Pair, Session> {
    /// The stream of a session, of which this request was read or is to be written, and nothing else.
    pub fn of_request(alloc: Global, session: SessionId, request: SessionRequest) -> StreamSession
        ensures sending { result.halves.0.id ≡ session }
        ensures receiving { result.halves.1.id ≡ session }
        ensures session { result.stage.session ≡ session }
        ensures request { result.stage.request ≡ request }
        ensures frames { result.stage.frames ≡ at_item sources.Other }
        ensures writing { result.stage.writing ≡ nothing_begun }
        ensures stopped { result.stage.is_stopped ≡ false }
    {
        let id = session.session_stream();
        Stream {
            halves: (QuicSendStream::new(id), QuicRecvStream::new(id)),
            stage: Session {
                session,
                request,
                frames: FrameReader::for_frames(alloc, FrameSource::Other),
                writing: Outgoing::new(alloc),
                is_stopped: false,
            },
        }
    }

    /// The next frame: DATA, HEADERS or SETTINGS. Other frames are skipped. Otherwise a payload longer
    /// than 4,096 bytes is answered by `H3(ExcessiveLoad)`, a signal by `H3(FrameUnexpected)`, the end
    /// between frames by `IO(ImmediateFin)`, the end inside a frame by `IO(UnexpectedFin)`, a reset by
    /// `IO(Reset)`, and where nothing whole is left on a connection that isn't open
    /// `IO(NotConnected)`.
    pub fn read_frame(
        &mut self,
        t: &mut Transport,
    ) -> Result<Poll<Result<Frame, ProtoReadError>>, OutOfMemory>
        requires { IsTrue (can_receive_now t.old self.old.halves.0.id) }
        ensures answer { ReadAnswers frame_decides self.old.stage.frames t.old self.old.halves.0.id result }
        ensures frame { ReadAnswersSince frame_decides sources.Other self.old.stage.frames t.old self.old.halves.0.id result }
        ensures begun { ReadLeavesBegun frame_decides sources.Other self.old.stage.frames self.new.stage.frames t.old self.old.halves.0.id result }
        ensures left { ReadLeaves frame_decides self.old.stage.frames self.new.stage.frames t.old self.old.halves.0.id result }
        ensures took { ReadTakes frame_decides self.old.stage.frames t.old t.new self.old.halves.0.id result }
        ensures others { self.new ≡ record self.old { stage = record self.old.stage { frames = self.new.stage.frames } } }
        ensures err { FailedReadTakes frame_decides self.old.stage.frames self.new.stage.frames t.old t.new self.old.halves.0.id result }
    {
        self.stage.frames.poll(t, self.halves.0.id)
    }

    /// Writes a frame; pending while a rest of it lacks credit, and then the next call goes on with the
    /// same frame. Fails with `NotConnected` where the connection isn't open, else with `Stopped` where
    /// the peer stopped the stream.
    pub fn write_frame(
        &mut self,
        t: &mut Transport,
        frame: &Frame,
    ) -> Result<Poll<Result<(), ProtoWriteError>>, OutOfMemory>
        requires can { IsTrue (can_write_now t.old self.old.halves.0.id) }
        requires same { Continues self.old.stage.writing (frame_bytes frame.now) }
        ensures answer { IfOk result (λ a. a
            ≡ pending_answer t.old.is_open (sending_half_now t.old self.old.halves.0.id) (rest (write_of self.old.stage.writing (frame_bytes frame.now)))) }
        ensures state { OnOk result (t.new
            ≡ after_write t.old self.old.halves.0.id (rest (write_of self.old.stage.writing (frame_bytes frame.now)))) }
        ensures still_going { Continues self.new.stage.writing (frame_bytes frame.now) }
        ensures prefix { OnOk result (WritesPrefix t.old.is_open (sending_half_now t.old self.old.halves.0.id) self.old.stage.writing self.new.stage.writing (frame_bytes frame.now)) }
        ensures writing { OnOk result (self.new
            ≡ record self.old { stage = record self.old.stage { writing = after_pending t.old.is_open (sending_half_now t.old self.old.halves.0.id) (write_of self.old.stage.writing (frame_bytes frame.now)) } }) }
        ensures others { self.new ≡ record self.old { stage = record self.old.stage { writing = self.new.stage.writing } } }
        ensures err { OnErr result (t.new ≡ t.old) }
        ensures kept { OnErr result (write_of self.new.stage.writing (frame_bytes frame.now)
            ≡ write_of self.old.stage.writing (frame_bytes frame.now)) }
    {
        self.stage.writing.poll_frame(t, self.halves.0.id, frame)
    }

    /// Gives the receiving half up, and asks the peer to stop it where the connection is open. Fails
    /// where an earlier stop succeeded.
    pub fn stop(
        &mut self,
        t: &mut Transport,
        code: VarInt,
    ) -> Result<Result<(), AlreadyStop>, OutOfMemory>
        requires { IsTrue (can_receive_now t.old self.old.halves.0.id) }
        ensures answer { IfOk result (λ a. a ≡ stop_answer self.old.stage.is_stopped) }
        ensures state { OnOk result (t.new ≡ after_stop_once self.old.stage.is_stopped t.old self.old.halves.0.id code) }
        ensures stopped { OnOk result (self.new ≡ record self.old { stage = record self.old.stage { is_stopped = true } }) }
        ensures err { OnErr result ((t.new ≡ t.old) × (self.new ≡ self.old)) }
    {
        stop_once(&mut self.stage.is_stopped, self.halves.0.id, t, code)
    }

    /// The stream.
    pub fn id(&self) -> StreamId
        ensures { result ≡ self.now.halves.0.id }
    {
        self.halves.0.id
    }

    /// The session.
    pub fn session_id(&self) -> SessionId
        ensures { result ≡ self.now.stage.session }
    {
        self.stage.session
    }

    /// The request for the session.
    pub fn request(&self) -> &SessionRequest
        ensures { result.now ≡ self.now.stage.request }
    {
        &self.stage.request
    }

    /// Ends the sending half, and is through once all of it is acknowledged, the peer stopped it, this
    /// end reset it, or the connection isn't open.
    pub fn finish(&mut self, t: &mut Transport) -> Result<Poll<()>, OutOfMemory>
        requires { IsTrue (can_send_now t.old self.old.halves.0.id) }
        ensures answer { IfOk result (λ a. a ≡ ready_at_all (finish_answer t.old.is_open (sending_half_now t.old self.old.halves.0.id))) }
        ensures state { OnOk result (t.new ≡ after_finishing t.old self.old.halves.0.id) }
        ensures same { self.new ≡ self.old }
        ensures err { OnErr result (t.new ≡ t.old) }
    {
        match self.halves.0.finish(t)? {
            Poll::Ready(_) => Ok(Poll::Ready(())),
            Poll::Pending => Ok(Poll::Pending),
        }
    }

    /// Resets the sending half. Fails where it was reset before, or all of it was acknowledged.
    pub fn reset(
        &mut self,
        t: &mut Transport,
        code: VarInt,
    ) -> Result<Result<(), ClosedStream>, OutOfMemory>
        requires { IsTrue (can_send_now t.old self.old.halves.0.id) }
        ensures answer { IfOk result (λ a. a ≡ reset_answer (sending_half_now t.old self.old.halves.0.id)) }
        ensures state { OnOk result (t.new ≡ after_reset_unless_closed t.old self.old.halves.0.id code) }
        ensures same { self.new ≡ self.old }
        ensures err { OnErr result (t.new ≡ t.old) }
    {
        self.halves.0.reset(t, code)
    }

    /// Whether a write may go on: the sending half exists, and this end neither finished nor reset it
    /// while the connection is open.
    pub fn can_write(&self, t: &Transport) -> bool
        ensures { result ≡ can_write_now t.now self.now.halves.0.id }
    {
        can_write(self.halves.0.id, t)
    }

    /// Whether a write of this frame may begin or go on: none was begun that isn't through, or the
    /// same one.
    pub fn continues(&self, frame: &Frame) -> Result<bool, OutOfMemory>
        ensures { IfOk result (λ b. IsTrue b ↔ Continues self.now.stage.writing (frame_bytes frame.now)) }
    {
        self.stage.writing.continues_frame(frame)
    }

    /// Whether a write was begun that isn't through; it may be that nothing of it went out.
    pub fn is_writing(&self) -> bool
        ensures { result ≡ is_begun self.now.stage.writing }
    {
        self.stage.writing.is_begun()
    }
}
