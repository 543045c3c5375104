//! Bidirectional streams that the peer opened.
ghost use Rattle.std.specs.Prelude.{◌≡◌, ◌%◌, IfOk, IfSome, IsTrue, OnErr, OnOk, false, true};
ghost use Rattle.wt_proto.specs.WalkProgress.{at_item};
ghost use Rattle.wt_transport.specs.Accepting.{after_accept_bi, next_peer_bi};
ghost use Rattle.wt_transport.specs.Step.{can_receive_now};
ghost use Rattle.wt_seam.specs.declared.next_frame.FrameSource.TheVariants as sources;
ghost use Rattle.wt_seam.specs.NextFrame.{frame_decides, session_reading};
ghost use Rattle.wt_seam.specs.Reads.{FailedReadTakes, ReadAnswers, ReadAnswersSince, ReadLeaves, ReadLeavesBegun, ReadTakes};
ghost use Rattle.wt_seam.specs.Typed.{after_stop_once, both, has_both, in_stage, stop_answer};
ghost use Rattle.wt_seam.specs.Writing.{nothing_begun};

use crate::next_frame::{FrameReader, FrameSource};
use crate::outgoing::Outgoing;
use crate::stream::{
    BiRemoteH3, BiRemoteQuic, BiRemoteWT, Pair, Session, Stream, StreamBiRemoteH3,
    StreamBiRemoteWT, StreamSession, session_of, stop_once,
};
use std::alloc::Global;
use wt_proto::session::SessionRequest;
use wt_transport::{QuicRecvStream, QuicSendStream, Transport};
use wt_turn::poll::Poll;
use wt_turn::proto_error::ProtoReadError;
use wt_turn::stream_error::AlreadyStop;
use wt_wire::error::OutOfMemory;
use wt_wire::frame::Frame;
use wt_wire::ids::{SessionId, StreamId};
use wt_wire::varint::VarInt;

impl Stream<Pair, BiRemoteQuic> {
    /// The peer's next bidirectional stream: of those that weren't accepted yet the first by its id; None
    /// where each was. The transport counts them, and else stays as it is.
    pub fn accept_bi(t: &mut Transport) -> Option<Self>
        ensures stream { result ≡ in_stage both (record {}) (next_peer_bi t.old) }
        ensures exists { IfSome result (λ s. IsTrue (has_both t.new s.halves)) }
        ensures count { t.new ≡ after_accept_bi t.old }
    {
        let id = t.accept_bi()?;
        Some(Stream {
            halves: (QuicSendStream::new(id), QuicRecvStream::new(id)),
            stage: BiRemoteQuic,
        })
    }

    /// Frames are read of it.
    pub fn upgrade(self, alloc: Global) -> StreamBiRemoteH3
        ensures halves { result.halves ≡ self.halves }
        ensures frames { result.stage.frames ≡ at_item sources.Request }
        ensures stopped { result.stage.is_stopped ≡ false }
    {
        let Stream { halves, stage: _ } = self;
        Stream {
            halves,
            stage: BiRemoteH3 {
                frames: FrameReader::for_frames(alloc, FrameSource::Request),
                is_stopped: false,
            },
        }
    }

    /// The stream.
    pub fn id(&self) -> StreamId
        ensures { result ≡ self.now.halves.0.id }
    {
        self.halves.0.id
    }
}

impl Stream<Pair, BiRemoteH3> {
    /// The next frame: DATA, HEADERS, SETTINGS, or the signal of a WebTransport stream. Other frames are
    /// skipped. Otherwise a payload longer than 4,096 bytes is answered by `H3(ExcessiveLoad)`, a signal
    /// whose id isn't a multiple of 4 by `H3(Id)`, the end between frames by `IO(ImmediateFin)`, the end
    /// inside a frame by `IO(UnexpectedFin)`, a reset by `IO(Reset)`, and where nothing whole is left on a
    /// connection that isn't open `IO(NotConnected)`.
    pub fn read_frame(
        &mut self,
        t: &mut Transport,
    ) -> Result<Poll<Result<Frame, ProtoReadError>>, OutOfMemory>
        requires { IsTrue (can_receive_now t.old self.old.halves.0.id) }
        ensures answer { ReadAnswers frame_decides self.old.stage.frames t.old self.old.halves.0.id result }
        ensures frame { ReadAnswersSince frame_decides sources.Request self.old.stage.frames t.old self.old.halves.0.id result }
        ensures begun { ReadLeavesBegun frame_decides sources.Request self.old.stage.frames self.new.stage.frames t.old self.old.halves.0.id result }
        ensures left { ReadLeaves frame_decides self.old.stage.frames self.new.stage.frames t.old self.old.halves.0.id result }
        ensures took { ReadTakes frame_decides self.old.stage.frames t.old t.new self.old.halves.0.id result }
        ensures others { self.new ≡ record self.old { stage = record self.old.stage { frames = self.new.stage.frames } } }
        ensures err { FailedReadTakes frame_decides self.old.stage.frames self.new.stage.frames t.old t.new self.old.halves.0.id result }
    {
        self.stage.frames.poll(t, self.halves.0.id)
    }

    /// Gives the receiving half up, and asks the peer to stop it where the connection is open. Fails
    /// where an earlier stop succeeded.
    pub fn stop(
        &mut self,
        t: &mut Transport,
        code: VarInt,
    ) -> Result<Result<(), AlreadyStop>, OutOfMemory>
        requires { IsTrue (can_receive_now t.old self.old.halves.0.id) }
        ensures answer { IfOk result (λ a. a ≡ stop_answer self.old.stage.is_stopped) }
        ensures state { OnOk result (t.new ≡ after_stop_once self.old.stage.is_stopped t.old self.old.halves.0.id code) }
        ensures stopped { OnOk result (self.new ≡ record self.old { stage = record self.old.stage { is_stopped = true } }) }
        ensures err { OnErr result ((t.new ≡ t.old) × (self.new ≡ self.old)) }
    {
        stop_once(&mut self.stage.is_stopped, self.halves.0.id, t, code)
    }

    /// A stream of this session, whose signal was read.
    pub fn upgrade(self, session: SessionId) -> StreamBiRemoteWT
        ensures halves { result.halves ≡ self.halves }
        ensures session { result.stage.session ≡ session }
    {
        let Stream { halves, stage: _ } = self;
        Stream {
            halves,
            stage: BiRemoteWT { session },
        }
    }

    /// The stream.
    pub fn id(&self) -> StreamId
        ensures { result ≡ self.now.halves.0.id }
    {
        self.halves.0.id
    }

    /// The stream of the session that this request asks for. It has to be a client's bidirectional
    /// stream, whose id is a multiple of 4.
    pub fn into_session(self, request: SessionRequest) -> StreamSession
        requires { self.halves.0.id % 4 ≡ 0 }
        ensures halves { result.halves ≡ self.halves }
        ensures session { result.stage.session ≡ self.halves.0.id }
        ensures request { result.stage.request ≡ request }
        ensures frames { result.stage.frames ≡ session_reading self.stage.frames }
        ensures writing { result.stage.writing ≡ nothing_begun }
        ensures stopped { result.stage.is_stopped ≡ self.stage.is_stopped }
    {
        let session = session_of(self.id());
        let Stream { halves, stage } = self;
        let BiRemoteH3 { frames, is_stopped } = stage;
        let writing = Outgoing::new(frames.allocator());
        Stream {
            halves,
            stage: Session {
                session,
                request,
                // The reader goes on, so that a frame of which some bytes came isn't lost.
                frames: frames.for_session(),
                writing,
                is_stopped,
            },
        }
    }
}

impl Stream<Pair, BiRemoteWT> {
    /// The stream of this id, whose signal named the session.
    pub fn of_session(id: StreamId, session: SessionId) -> StreamBiRemoteWT
        ensures sending { result.halves.0.id ≡ id }
        ensures receiving { result.halves.1.id ≡ id }
        ensures session { result.stage.session ≡ session }
    {
        Stream {
            halves: (QuicSendStream::new(id), QuicRecvStream::new(id)),
            stage: BiRemoteWT { session },
        }
    }

    /// The session that the stream is of.
    pub fn session_id(&self) -> SessionId
        ensures { result ≡ self.now.stage.session }
    {
        self.stage.session
    }

    /// The stream.
    pub fn id(&self) -> StreamId
        ensures { result ≡ self.now.halves.0.id }
    {
        self.halves.0.id
    }

    /// Its halves.
    pub fn into_stream(self) -> Pair
        ensures { result ≡ self.halves }
    {
        let Stream { halves, stage: _ } = self;
        halves
    }
}
