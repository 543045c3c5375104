//! The stream of a session, on which the peer closes it (draft-ietf-webtrans-http3, section 5).
ghost use Rattle.std.specs.Prelude.{◌≡◌, ℕ, List, [], IfOk, None, Ok, OnOk, Some, is_some, not};
ghost use Rattle.wt_proto.specs.SessionReader.{session_said};
ghost use Rattle.wt_transport.specs.Step.{end_now, unread_now};
ghost use Rattle.wt_seam.specs.Critical.{after_session_run, session_answer, session_bytes, session_after_run, session_read_on, session_shows, shown_by_walk};
ghost use Rattle.wt_seam.specs.ReadingAll.{SessionWasRead, after_reading_all};

use crate::reading::read_all;
use crate::shown::shown_or_ended;
use crate::stream::StreamSession;
use std::alloc::Global;
use std::marker::Model;
use wt_proto::session_reader::SessionReader;
use wt_proto::session_walk::SessionWalk;
use wt_transport::Transport;
use wt_turn::close::ApplicationClose;
use wt_turn::driver_error::DriverError;
use wt_turn::piece::Piece;
use wt_turn::poll::Poll;
use wt_wire::error::OutOfMemory;
use wt_wire::ids::StreamId;

/// The stream of the session, where it is set, and how far what came on it was read. Contracts see
/// both.
#[derive(Drop)]
pub struct ConnectStream {
    alloc: Global,
    stream: Option<StreamSession>,
    reader: SessionReader,
}

impl Model for ConnectStream {
    ghost use Rattle.wt_proto.specs.SessionReader as readers;
    ghost use Rattle.wt_seam.specs.Critical.{SessionStream, Watched};

    ghost Value = { Watched SessionStream readers.SessionReader };

    ghost view = { λ s. record { stream = s.stream; reading = s.reader } };
}

/// What a session's stream shows.
fn shown_by_walk(alloc: Global, walk: &SessionWalk) -> Result<Option<DriverError>, OutOfMemory>
    ensures { IfOk result (λ shown. shown ≡ shown_by_walk walk.now) }
{
    match walk {
        SessionWalk::Running => Ok(None),
        SessionWalk::Closed(code, reason) => {
            let reason = Piece::from_slice(alloc, reason.as_str().as_bytes())?;
            let close = ApplicationClose::new(*code, reason);
            Ok(Some(DriverError::ApplicationClosed(close)))
        }
        SessionWalk::Fault(code) => Ok(Some(DriverError::Proto(*code))),
    }
}

/// Reads all that has come of a session's stream, and returns what it shows.
fn read_session(
    alloc: Global,
    reader: &mut SessionReader,
    id: StreamId,
    t: &mut Transport,
) -> Result<Option<DriverError>, OutOfMemory>
    ensures shown { IfOk result (λ shown. shown
        ≡ shown_by_walk (session_said (session_read_on reader.old (unread_now t.old id) (end_now t.old id)))) }
    ensures reading { OnOk result (reader.new ≡ session_read_on reader.old (unread_now t.old id) (end_now t.old id)) }
    ensures state { OnOk result (t.new ≡ after_reading_all t.old id) }
{
    read_all(t, id, reader)?;
    shown_by_walk(alloc, reader.outcome())
}

impl ConnectStream {
    /// No stream is set.
    pub fn empty(alloc: Global) -> Result<Self, OutOfMemory>
        ensures stream { IfOk result (λ s. s.stream ≡ None) }
        ensures read { IfOk result (λ s. SessionWasRead s.reading []) }
    {
        Ok(ConnectStream {
            alloc,
            stream: None,
            reader: SessionReader::for_session(alloc),
        })
    }

    /// Whether no stream is set.
    pub fn is_empty(&self) -> bool
        ensures { result ≡ not (is_some self.now.stream) }
    {
        // Read for the proof alone, which takes the reader's invariant from here.
        let _ = &self.reader;
        self.stream.is_none()
    }

    /// Sets the stream. What is unread of it is read by `run`.
    pub fn set_stream(&mut self, stream: StreamSession)
        ensures stream { self.new.stream ≡ Some stream }
        ensures read { SessionWasRead self.new.reading [] }
    {
        self.stream = Some(stream);
        self.reader = SessionReader::for_session(self.alloc);
    }

    /// Reads all that has come. Ready with `ApplicationClosed` where the peer closed the session, by a
    /// capsule or by the end between frames (code 0); with `Proto` and the fault of the stream where it
    /// has one, an end inside a frame and a reset (ClosedCriticalStream) among these; else with
    /// `NotConnected` where the connection isn't open; pending where no stream is set.
    pub fn run(&mut self, t: &mut Transport) -> Result<Poll<DriverError>, OutOfMemory>
        ensures answer { (bytes : List ℕ) → SessionWasRead self.old.reading bytes
            → IfOk result (λ a. a ≡ session_answer self.old.stream t.old bytes) }
        ensures read { (bytes : List ℕ) → SessionWasRead self.old.reading bytes
            → OnOk result (SessionWasRead self.new.reading (session_bytes self.old.stream t.old bytes)) }
        ensures now { IfOk result (λ a. a ≡ session_shows self.old.stream t.old.is_open (session_after_run self.old.stream t.old self.old.reading)) }
        ensures reading { OnOk result (self.new.reading ≡ session_after_run self.old.stream t.old self.old.reading) }
        ensures state { OnOk result (t.new ≡ after_session_run self.old.stream t.old) }
        ensures stream { self.new.stream ≡ self.old.stream }
    {
        // What the peer did to the session counts before the loss that may have come after it.
        let is_open = t.is_open();
        let Some(stream) = &self.stream else {
            return Ok(Poll::Pending);
        };
        let id = stream.id();
        let shown = read_session(self.alloc, &mut self.reader, id, t)?;
        Ok(shown_or_ended(is_open, shown))
    }
}
