//! A stream with its type.
//!
//! An upgrade is a step to a stage whose calls are others; what a stage doesn't allow has no call there.
//!
//! ```text
//! the peer's  StreamBiRemoteQuic  --> StreamBiRemoteH3 (frames)             --> StreamBiRemoteWT, or StreamSession
//!             StreamUniRemoteQuic --the header is read--> StreamUniRemoteH3 --> StreamUniRemoteWT
//! this end's  StreamBiLocalQuic   --> StreamBiLocalH3 --the signal is out-->  StreamBiLocalWT, or StreamSession
//!             StreamUniLocalQuic  --the header is out--> StreamUniLocalH3   --> StreamUniLocalWT
//! ```
ghost use Rattle.std.specs.Prelude.{◌≡◌, ◌%◌, IfOk, OnErr, OnOk, IsTrue, true};
ghost use Rattle.wt_transport.specs.Step.{can_receive_now};
ghost use Rattle.wt_seam.specs.Typed.{after_stop_once, can_write_now, stop_answer};

use crate::next_frame::FrameReader;
use crate::outgoing::Outgoing;
use crate::uni_header::{HeaderReader, UniHeader};
use std::marker::Model;
use wt_proto::session::SessionRequest;
use wt_proto::stream_header::StreamKind;
use wt_transport::{QuicRecvStream, QuicSendStream, Transport};
use wt_turn::stream_error::AlreadyStop;
use wt_wire::error::OutOfMemory;
use wt_wire::ids::{SessionId, StreamId};
use wt_wire::varint::VarInt;

/// A stream: its halves `S`, and the stage `P` that it has come to. Contracts see both.
#[derive(Drop)]
pub struct Stream<S, P> {
    pub(crate) halves: S,
    pub(crate) stage: P,
}

impl<S, P> Model for Stream<S, P> {
    ghost use Rattle.wt_seam.specs.Typed.{Typed};

    ghost Value = { Typed S P };

    ghost view = { λ s. record { halves = s.halves; stage = s.stage } };
}

/// Both halves of a bidirectional stream, with one id.
pub type Pair = (QuicSendStream, QuicRecvStream);

/// A bidirectional stream that the peer opened, of which nothing was read.
pub type StreamBiRemoteQuic = Stream<Pair, BiRemoteQuic>;

/// A bidirectional stream that the peer opened, on which frames come.
pub type StreamBiRemoteH3 = Stream<Pair, BiRemoteH3>;

/// A bidirectional stream that the peer opened, of a session.
pub type StreamBiRemoteWT = Stream<Pair, BiRemoteWT>;

/// A bidirectional stream of this end.
pub type StreamBiLocalQuic = Stream<Pair, BiLocalQuic>;

/// A bidirectional stream of this end, for a request or for a session.
pub type StreamBiLocalH3 = Stream<Pair, BiLocalH3>;

/// A bidirectional stream of this end, of a session.
pub type StreamBiLocalWT = Stream<Pair, BiLocalWT>;

/// A unidirectional stream that the peer opened, whose header wasn't read.
pub type StreamUniRemoteQuic = Stream<QuicRecvStream, UniRemoteQuic>;

/// A unidirectional stream that the peer opened, after its header.
pub type StreamUniRemoteH3 = Stream<QuicRecvStream, UniRemoteH3>;

/// A unidirectional stream that the peer opened, of a session.
pub type StreamUniRemoteWT = Stream<QuicRecvStream, UniRemoteWT>;

/// A unidirectional stream of this end, whose header isn't out.
pub type StreamUniLocalQuic = Stream<QuicSendStream, UniLocalQuic>;

/// A unidirectional stream of this end, after its header.
pub type StreamUniLocalH3 = Stream<QuicSendStream, UniLocalH3>;

/// A unidirectional stream of this end, of a session.
pub type StreamUniLocalWT = Stream<QuicSendStream, UniLocalWT>;

/// The stream of a session: the one of its request and its response.
pub type StreamSession = Stream<Pair, Session>;

/// The stage of a `StreamBiRemoteQuic`.
#[derive(Debug, Drop)]
pub struct BiRemoteQuic;

/// The stage of a `StreamBiRemoteH3`.
#[derive(Drop)]
pub struct BiRemoteH3 {
    /// The reader of its frames.
    pub frames: FrameReader,
    /// Its receiving half was stopped.
    pub is_stopped: bool,
}

/// The stage of a `StreamBiRemoteWT`.
#[derive(Debug, Drop)]
pub struct BiRemoteWT {
    /// The session that the stream is of.
    pub session: SessionId,
}

/// The stage of a `StreamBiLocalQuic`.
#[derive(Debug, Drop)]
pub struct BiLocalQuic;

/// The stage of a `StreamBiLocalH3`.
#[derive(Debug, Drop)]
pub struct BiLocalH3 {
    /// The signal, as it goes out.
    pub writing: Outgoing,
    /// The upgraded stream was handed out.
    pub is_spent: bool,
}

/// The stage of a `StreamBiLocalWT`.
#[derive(Debug, Drop)]
pub struct BiLocalWT;

/// The stage of a `StreamUniRemoteQuic`.
#[derive(Drop)]
pub struct UniRemoteQuic {
    /// The reader of its header.
    pub header: HeaderReader,
    /// The upgraded stream was handed out.
    pub is_spent: bool,
}

/// The stage of a `StreamUniRemoteH3`.
#[derive(Drop)]
pub struct UniRemoteH3 {
    /// What its header said.
    pub header: UniHeader,
    /// The reader of its frames.
    pub frames: FrameReader,
}

/// The stage of a `StreamUniRemoteWT`.
#[derive(Debug, Drop)]
pub struct UniRemoteWT {
    /// The session that the stream is of.
    pub session: SessionId,
}

/// The stage of a `StreamUniLocalQuic`.
#[derive(Debug, Drop)]
pub struct UniLocalQuic {
    /// The header, as it goes out.
    pub writing: Outgoing,
    /// The upgraded stream was handed out.
    pub is_spent: bool,
}

/// The stage of a `StreamUniLocalH3`.
#[derive(Debug, Drop)]
pub struct UniLocalH3 {
    /// What the stream is for.
    pub kind: StreamKind,
    /// The frame that goes out.
    pub writing: Outgoing,
}

/// The stage of a `StreamUniLocalWT`.
#[derive(Debug, Drop)]
pub struct UniLocalWT;

/// The stage of a `StreamSession`.
#[derive(Drop)]
pub struct Session {
    /// The session.
    pub session: SessionId,
    /// The request for it.
    pub request: SessionRequest,
    /// The reader of its frames.
    pub frames: FrameReader,
    /// The frame that goes out.
    pub writing: Outgoing,
    /// Its receiving half was stopped.
    pub is_stopped: bool,
}

/// Stops a receiving half, unless it was stopped before.
pub(crate) fn stop_once(
    is_stopped: &mut bool,
    id: StreamId,
    t: &mut Transport,
    code: VarInt,
) -> Result<Result<(), AlreadyStop>, OutOfMemory>
    requires { IsTrue (can_receive_now t.old id) }
    ensures answer { IfOk result (λ a. a ≡ stop_answer is_stopped.old) }
    ensures state { OnOk result (t.new ≡ after_stop_once is_stopped.old t.old id code) }
    ensures stopped { OnOk result (is_stopped.new ≡ true) }
    ensures err { OnErr result (t.new ≡ t.old) }
    ensures kept { OnErr result (is_stopped.new ≡ is_stopped.old) }
{
    // A second STOP_SENDING means nothing to the peer (RFC 9000, section 3.5), so it is the caller's mistake.
    if *is_stopped {
        return Ok(Err(AlreadyStop));
    }
    QuicRecvStream::new(id).stop(t, code)?;
    // After the stop, so that one that ran out of memory may be tried again.
    *is_stopped = true;
    Ok(Ok(()))
}

/// Whether the sending half is in the transport, and a write isn't closed.
pub(crate) fn can_write(id: StreamId, t: &Transport) -> bool
    ensures { result ≡ can_write_now t.now id }
{
    t.can_send(id) && QuicSendStream::new(id).may_write(t)
}

/// The session of a client's bidirectional stream, whose id is a multiple of 4.
pub(crate) fn session_of(id: StreamId) -> SessionId
    requires { id % 4 ≡ 0 }
    ensures { result ≡ id }
{
    match SessionId::try_from_session_stream(id) {
        Some(session) => session,
        None => unreachable!(),
    }
}
