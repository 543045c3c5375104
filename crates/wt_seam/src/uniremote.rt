//! Unidirectional streams that the peer opened.
ghost use Rattle.std.specs.Prelude.{◌≡◌, ◌++◌, IfOk, IfSome, IsTrue, List, OnErr, false, true, ℕ};
ghost use Rattle.std.specs.Borrow.{sem};
ghost use Rattle.wt_proto.specs.WalkProgress.{at_item, progress_after, reached_in};
ghost use Rattle.wt_proto.specs.Walk.{whole_walk};
ghost use Rattle.wt_proto.specs.declared.stream_header.StreamKind.TheVariants as kinds;
ghost use Rattle.wt_transport.specs.Accepting.{after_accept_uni, next_peer_uni};
ghost use Rattle.wt_transport.specs.Step.{can_receive_now, end_now, unread_now};
ghost use Rattle.wt_seam.specs.declared.uni_header.UniHeader.TheVariants as headers;
ghost use Rattle.wt_seam.specs.Lending.{LendsHalf};
ghost use Rattle.wt_seam.specs.NextFrame.{frame_decides};
ghost use Rattle.wt_seam.specs.Reading.{HasBegun, reached_answer};
ghost use Rattle.wt_seam.specs.Reads.{FailedReadTakes, ReadAnswers, ReadAnswersSince, ReadLeaves, ReadLeavesBegun, ReadTakes};
ghost use Rattle.wt_seam.specs.Typed.{in_stage, is_through, map_poll, source_of};
ghost use Rattle.wt_seam.specs.UniHeader.{header_decides, kind_of};

use crate::next_frame::{FrameReader, FrameSource};
use crate::stream::{
    Stream, StreamUniRemoteH3, StreamUniRemoteWT, UniRemoteH3, UniRemoteQuic, UniRemoteWT,
};
use crate::uni_header::{HeaderReader, UniHeader};
use std::alloc::Global;
use wt_proto::stream_header::StreamKind;
use wt_transport::{QuicRecvStream, Transport};
use wt_turn::poll::Poll;
use wt_turn::proto_error::ProtoReadError;
use wt_wire::error::OutOfMemory;
use wt_wire::frame::Frame;
use wt_wire::ids::{SessionId, StreamId};

/// Which frames a stream with this header gives.
fn source_of(header: &UniHeader) -> FrameSource
    ensures { result ≡ source_of header.now }
{
    match header {
        UniHeader::Control => FrameSource::Control,
        _ => FrameSource::Other,
    }
}

/// The stream after this header.
fn after_header(alloc: Global, id: StreamId, header: UniHeader) -> StreamUniRemoteH3
    ensures { result ≡ record { halves = record { id = id }; stage = record { header = header; frames = at_item (source_of header) } } }
{
    let frames = FrameReader::for_frames(alloc, source_of(&header));
    Stream {
        halves: QuicRecvStream::new(id),
        stage: UniRemoteH3 { header, frames },
    }
}

/// The session that a header names.
fn session_of(header: &UniHeader) -> SessionId
    requires { kind_of header.now ≡ kinds.WebTransport }
    ensures { headers.WebTransport result ≡ header.now }
{
    match header {
        UniHeader::WebTransport(session) => *session,
        _ => unreachable!(),
    }
}

impl Stream<QuicRecvStream, UniRemoteQuic> {
    /// The peer's next unidirectional stream: of those that weren't accepted yet the first by its id; None
    /// where each was. The transport counts them, and else stays as it is.
    pub fn accept_uni(t: &mut Transport) -> Option<Self>
        ensures stream { result ≡ in_stage (λ id. record { id = id }) (record { header = at_item tt; is_spent = false }) (next_peer_uni t.old) }
        ensures exists { IfSome result (λ s. IsTrue (can_receive_now t.new s.halves.id)) }
        ensures count { t.new ≡ after_accept_uni t.old }
    {
        let id = t.accept_uni()?;
        Some(Stream {
            halves: QuicRecvStream::new(id),
            stage: UniRemoteQuic {
                header: HeaderReader::for_header(t.allocator()),
                is_spent: false,
            },
        })
    }

    /// Reads the header, and no byte after it, and hands the upgraded stream out once it is whole; this
    /// one is spent then. A type that is neither known nor reserved is answered by `H3(StreamCreation)`,
    /// a session's id that isn't a multiple of 4 by `H3(Id)`, an end before the header by
    /// `IO(ImmediateFin)`, one inside it by `IO(UnexpectedFin)`, a reset by `IO(Reset)`, and a header
    /// that isn't whole on a connection that isn't open by `IO(NotConnected)`.
    pub fn upgrade(
        &mut self,
        t: &mut Transport,
    ) -> Result<Poll<Result<StreamUniRemoteH3, ProtoReadError>>, OutOfMemory>
        requires unspent { self.old.stage.is_spent ≡ false }
        requires can { IsTrue (can_receive_now t.old self.old.halves.id) }
        ensures answer { IfOk result (λ a. a
            ≡ map_poll (λ header. record { halves = self.old.halves; stage = record { header = header; frames = at_item (source_of header) } }) (reached_answer t.old.is_open (end_now t.old self.old.halves.id) (reached_in (progress_after header_decides self.old.stage.header (unread_now t.old self.old.halves.id))))) }
        ensures header { (bytes : List ℕ) → HasBegun header_decides tt self.old.stage.header bytes
            → IfOk result (λ a. a
            ≡ map_poll (λ header. record { halves = self.old.halves; stage = record { header = header; frames = at_item (source_of header) } }) (reached_answer t.old.is_open (end_now t.old self.old.halves.id) (whole_walk header_decides tt (bytes ++ unread_now t.old self.old.halves.id)))) }
        ensures begun { ReadLeavesBegun header_decides tt self.old.stage.header self.new.stage.header t.old self.old.halves.id result }
        ensures halves { self.new.halves ≡ self.old.halves }
        ensures left { ReadLeaves header_decides self.old.stage.header self.new.stage.header t.old self.old.halves.id result }
        ensures took { ReadTakes header_decides self.old.stage.header t.old t.new self.old.halves.id result }
        ensures spent { IfOk result (λ a. self.new.stage.is_spent ≡ is_through a) }
        ensures unspent { OnErr result (self.new.stage.is_spent ≡ false) }
        ensures err { FailedReadTakes header_decides self.old.stage.header self.new.stage.header t.old t.new self.old.halves.id result }
    {
        let id = self.halves.id;
        let alloc = self.stage.header.allocator();
        match self.stage.header.poll(t, id)? {
            Poll::Pending => Ok(Poll::Pending),
            Poll::Ready(Err(error)) => Ok(Poll::Ready(Err(error))),
            Poll::Ready(Ok(header)) => {
                self.stage.is_spent = true;
                Ok(Poll::Ready(Ok(after_header(alloc, id, header))))
            }
        }
    }

    /// Whether the upgraded stream was handed out.
    pub fn is_spent(&self) -> bool
        ensures { result ≡ self.now.stage.is_spent }
    {
        self.stage.is_spent
    }

    /// The stream.
    pub fn id(&self) -> StreamId
        ensures { result ≡ self.now.halves.id }
    {
        self.halves.id
    }
}

impl Stream<QuicRecvStream, UniRemoteH3> {
    /// The next frame: DATA, HEADERS or SETTINGS, and on a control stream an exercise frame, whose
    /// payload isn't kept. Other frames are skipped. Otherwise a payload longer than 4,096 bytes is
    /// answered by `H3(ExcessiveLoad)`, a signal by `H3(FrameUnexpected)`, the end between frames by
    /// `IO(ImmediateFin)`, the end inside a frame by `IO(UnexpectedFin)`, a reset by `IO(Reset)`, and
    /// where nothing whole is left on a connection that isn't open `IO(NotConnected)`.
    pub fn read_frame(
        &mut self,
        t: &mut Transport,
    ) -> Result<Poll<Result<Frame, ProtoReadError>>, OutOfMemory>
        requires { IsTrue (can_receive_now t.old self.old.halves.id) }
        ensures answer { ReadAnswers frame_decides self.old.stage.frames t.old self.old.halves.id result }
        ensures frame { ReadAnswersSince frame_decides (source_of self.old.stage.header) self.old.stage.frames t.old self.old.halves.id result }
        ensures begun { ReadLeavesBegun frame_decides (source_of self.old.stage.header) self.old.stage.frames self.new.stage.frames t.old self.old.halves.id result }
        ensures left { ReadLeaves frame_decides self.old.stage.frames self.new.stage.frames t.old self.old.halves.id result }
        ensures took { ReadTakes frame_decides self.old.stage.frames t.old t.new self.old.halves.id result }
        ensures others { self.new ≡ record self.old { stage = record self.old.stage { frames = self.new.stage.frames } } }
        ensures err { FailedReadTakes frame_decides self.old.stage.frames self.new.stage.frames t.old t.new self.old.halves.id result }
    {
        self.stage.frames.poll(t, self.halves.id)
    }

    /// What the stream is for.
    pub fn kind(&self) -> StreamKind
        ensures { result ≡ kind_of self.now.stage.header }
    {
        self.stage.header.kind()
    }

    /// A stream of the session that its header names.
    pub fn upgrade(self) -> StreamUniRemoteWT
        requires { kind_of self.stage.header ≡ kinds.WebTransport }
        ensures halves { result.halves ≡ self.halves }
        ensures session { headers.WebTransport result.stage.session ≡ self.stage.header }
    {
        let session = session_of(&self.stage.header);
        let Stream { halves, stage: _ } = self;
        Stream {
            halves,
            stage: UniRemoteWT { session },
        }
    }

    /// Its half.
    pub fn stream_mut(&mut self) -> &mut QuicRecvStream
        ensures half { result.now ≡ self.old.halves }
        ensures* writes_back { sem 𝓛 (LendsHalf self.entry result) }
    {
        &mut self.halves
    }
}

impl Stream<QuicRecvStream, UniRemoteWT> {
    /// The stream of this id, whose header named the session.
    pub fn of_session(id: StreamId, session: SessionId) -> StreamUniRemoteWT
        ensures half { result.halves.id ≡ id }
        ensures session { result.stage.session ≡ session }
    {
        Stream {
            halves: QuicRecvStream::new(id),
            stage: UniRemoteWT { session },
        }
    }

    /// The session that the stream is of.
    pub fn session_id(&self) -> SessionId
        ensures { result ≡ self.now.stage.session }
    {
        self.stage.session
    }

    /// The stream.
    pub fn id(&self) -> StreamId
        ensures { result ≡ self.now.halves.id }
    {
        self.halves.id
    }

    /// Its half.
    pub fn into_stream(self) -> QuicRecvStream
        ensures { result ≡ self.halves }
    {
        let Stream { halves, stage: _ } = self;
        halves
    }
}
