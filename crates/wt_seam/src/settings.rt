//! The control streams, on which SETTINGS go (RFC 9114, section 6.2.1).
ghost use Rattle.std.specs.Prelude.{◌≡◌, ◌↔◌, ◌||◌, ℕ, List, [], IfOk, IsTrue, None, Ok, OnErr, OnOk, Some, false, is_some, not, true};
ghost use Rattle.wt_proto.specs.WalkProgress.{read_on};
ghost use Rattle.wt_wire.specs.FrameBytes.{frame_bytes};
ghost use Rattle.wt_wire.specs.declared.side.StreamEnd.TheVariants.{Running};
ghost use Rattle.wt_proto.specs.ControlWalk.{control_decides, control_unfinished, control_walk_of};
ghost use Rattle.wt_proto.specs.Reading.{outcome_in};
ghost use Rattle.wt_proto.specs.declared.stream_header.StreamKind.TheVariants as kinds;
ghost use Rattle.wt_transport.specs.Rules.{after_write, sending_half_now};
ghost use Rattle.wt_transport.specs.Step.{end_now, unread_now};
ghost use Rattle.wt_seam.specs.Typed.{can_write_now, is_through};
ghost use Rattle.wt_seam.specs.UniHeader.{kind_of};
ghost use Rattle.wt_seam.specs.Writing.{Continues, after_pending, pending_answer, rest, write_of};
ghost use Rattle.wt_seam.specs.Critical.{ContinuesSettings, after_frame, after_settings, after_uni_run, can_send_settings, can_write_on, control_answer, control_after_run, control_shows, frame_answer, given_once, local_answer, sent_answer, settings_answer, settings_begun, settings_frame, shown_by_fault, uni_bytes, with_frame, with_settings, driver_write_error, written_answer};
ghost use Rattle.wt_seam.specs.ReadingAll.{WasRead, after_reading_all};

use crate::reading::read_all;
use crate::shown::{id_of, shown_by_fault, shown_by_stop, shown_or_ended};
use crate::stream::{StreamUniLocalH3, StreamUniRemoteH3};
use std::alloc::Global;
use std::marker::Model;
use wt_proto::reader::ControlReader;
use wt_proto::settings::Settings;
use wt_transport::Transport;
use wt_turn::driver_error::DriverError;
use wt_turn::poll::Poll;
use wt_turn::proto_error::ProtoWriteError;
use wt_wire::error::{ErrorCode, OutOfMemory};
use wt_wire::frame::Frame;
use wt_wire::ids::StreamId;

// ---- this end's

/// This end's control stream, where it is set, and whether its SETTINGS are all out. Contracts see both.
#[derive(Drop)]
pub struct LocalSettingsStream {
    alloc: Global,
    stream: Option<StreamUniLocalH3>,
    is_out: bool,
}

impl Model for LocalSettingsStream {
    ghost use Rattle.wt_seam.specs.Critical.{LocalControl};

    ghost Value = { LocalControl };

    ghost view = { λ s. record { stream = s.stream; is_out = s.is_out } };
}

/// Why a frame can't go out, as a driver reports it.
fn write_error(error: ProtoWriteError) -> DriverError
    ensures { result ≡ driver_write_error error }
{
    match error {
        ProtoWriteError::NotConnected => DriverError::NotConnected,
        // A receiver must not ask to close a control stream (RFC 9114, section 6.2.1).
        ProtoWriteError::Stopped => DriverError::Proto(ErrorCode::ClosedCriticalStream),
    }
}

/// What a write of a frame answers, as a driver reports it.
fn written(answer: Poll<Result<(), ProtoWriteError>>) -> Poll<Result<(), DriverError>>
    ensures { result ≡ written_answer answer }
{
    match answer {
        Poll::Ready(Ok(())) => Poll::Ready(Ok(())),
        Poll::Ready(Err(error)) => Poll::Ready(Err(write_error(error))),
        Poll::Pending => Poll::Pending,
    }
}

/// Whether the stream was stopped.
fn run_local(stream: &Option<StreamUniLocalH3>, t: &Transport) -> Poll<DriverError>
    ensures { result ≡ local_answer stream.now t.now }
{
    let Some(stream) = stream else {
        return Poll::Pending;
    };
    shown_or_ended(t.is_open(), shown_by_stop(t.stop_code(stream.id())))
}

/// Writes a frame, as far as credit goes.
fn send_frame(
    stream: &mut StreamUniLocalH3,
    t: &mut Transport,
    frame: &Frame,
) -> Result<Poll<Result<(), DriverError>>, OutOfMemory>
    requires can { IsTrue (can_write_now t.old stream.old.halves.id) }
    requires same { Continues stream.old.stage.writing (frame_bytes frame.now) }
    ensures answer { IfOk result (λ a. a
        ≡ written_answer (pending_answer t.old.is_open (sending_half_now t.old stream.old.halves.id) (rest (write_of stream.old.stage.writing (frame_bytes frame.now))))) }
    ensures state { OnOk result (t.new ≡ after_write t.old stream.old.halves.id (rest (write_of stream.old.stage.writing (frame_bytes frame.now)))) }
    ensures stream { OnOk result (stream.new
        ≡ record stream.old { stage = record stream.old.stage { writing = after_pending t.old.is_open (sending_half_now t.old stream.old.halves.id) (write_of stream.old.stage.writing (frame_bytes frame.now)) } }) }
    ensures still_going { Continues stream.new.stage.writing (frame_bytes frame.now) }
    ensures others { stream.new ≡ record stream.old { stage = record stream.old.stage { writing = stream.new.stage.writing } } }
    ensures err { OnErr result (t.new ≡ t.old) }
    ensures kept { OnErr result (write_of stream.new.stage.writing (frame_bytes frame.now)
        ≡ write_of stream.old.stage.writing (frame_bytes frame.now)) }
{
    let answer = stream.write_frame(t, frame)?;
    Ok(written(answer))
}

/// Writes the frame of this end's SETTINGS on the stream that is set, as far as credit goes.
fn send_on(
    stream: &mut Option<StreamUniLocalH3>,
    t: &mut Transport,
    frame: &Frame,
) -> Result<Poll<Result<(), DriverError>>, OutOfMemory>
    requires settings { frame.now ≡ settings_frame }
    requires can { IsTrue (can_write_on stream.old t.old) }
    requires same { ContinuesSettings stream.old }
    ensures answer { IfOk result (λ a. a ≡ frame_answer stream.old t.old) }
    ensures state { OnOk result (t.new ≡ after_frame stream.old t.old) }
    ensures stream { OnOk result (stream.new ≡ with_frame stream.old t.old) }
    ensures still_going { ContinuesSettings stream.new }
    ensures err { OnErr result (t.new ≡ t.old) }
    ensures kept { OnErr result (settings_begun stream.new ≡ settings_begun stream.old) }
{
    match stream {
        Some(stream) => send_frame(stream, t, frame),
        None => unreachable!(),
    }
}

/// Whether the frame is all out.
fn is_through(answer: &Poll<Result<(), DriverError>>) -> bool
    ensures { result ≡ is_through answer.now }
{
    match answer {
        Poll::Ready(Ok(())) => true,
        Poll::Ready(Err(_)) | Poll::Pending => false,
    }
}

/// What is answered where SETTINGS are out.
fn sent(is_open: bool) -> Poll<Result<(), DriverError>>
    ensures { result ≡ sent_answer is_open }
{
    if is_open {
        return Poll::Ready(Ok(()));
    }
    Poll::Ready(Err(DriverError::NotConnected))
}

/// Whether a stream is set, and a write on it isn't closed.
fn can_write_on(stream: &Option<StreamUniLocalH3>, t: &Transport) -> bool
    ensures { result ≡ can_write_on stream.now t.now }
{
    match stream {
        Some(stream) => stream.can_write(t),
        None => false,
    }
}

impl LocalSettingsStream {
    /// No stream is set.
    pub fn empty(alloc: Global) -> Result<Self, OutOfMemory>
        ensures { result ≡ Ok (record { stream = None; is_out = false }) }
    {
        Ok(LocalSettingsStream {
            alloc,
            stream: None,
            is_out: false,
        })
    }

    /// Whether no stream is set.
    pub fn is_empty(&self) -> bool
        ensures { result ≡ not (is_some self.now.stream) }
    {
        self.stream.is_none()
    }

    /// Sets the stream, which `kind` says to be a control stream.
    pub fn set_stream(&mut self, stream: StreamUniLocalH3)
        requires { stream.stage.kind ≡ kinds.Control }
        ensures { self.new ≡ record { stream = Some stream; is_out = false } }
    {
        self.stream = Some(stream);
        self.is_out = false;
    }

    /// Ready with `Proto(ClosedCriticalStream)` where the peer stopped the stream, else with
    /// `NotConnected` where the connection isn't open; pending where no stream is set.
    pub fn run(&mut self, t: &mut Transport) -> Result<Poll<DriverError>, OutOfMemory>
        ensures answer { result ≡ Ok (local_answer self.old.stream t.old) }
        ensures unchanged { t.new ≡ t.old }
        ensures same { self.new ≡ self.old }
    {
        Ok(run_local(&self.stream, t))
    }

    /// Writes the frame of this end's SETTINGS; pending while a rest of it lacks credit, and then the
    /// next call goes on. Fails with `NotConnected` where the connection isn't open, else with
    /// `Proto(ClosedCriticalStream)` where the peer stopped the stream before all was out. SETTINGS that
    /// are out aren't sent again (RFC 9114, section 7.2.4).
    pub fn send_settings(
        &mut self,
        t: &mut Transport,
    ) -> Result<Poll<Result<(), DriverError>>, OutOfMemory>
        requires can { IsTrue (can_send_settings self.old t.old) }
        requires same { ContinuesSettings self.old.stream }
        ensures answer { IfOk result (λ a. a ≡ settings_answer self.old t.old) }
        ensures state { OnOk result (t.new ≡ after_settings self.old t.old) }
        ensures stream { OnOk result (self.new ≡ with_settings self.old t.old) }
        ensures still_going { ContinuesSettings self.new.stream }
        ensures err { OnErr result (t.new ≡ t.old) }
        ensures kept { OnErr result (settings_begun self.new.stream ≡ settings_begun self.old.stream) }
        ensures out { OnErr result (self.new.is_out ≡ self.old.is_out) }
    {
        // A second SETTINGS frame is a fault of the peer's connection (RFC 9114, section 7.2.4).
        if self.is_out {
            return Ok(sent(t.is_open()));
        }
        let frame = Settings::local().generate_frame(self.alloc)?;
        let answer = send_on(&mut self.stream, t, &frame)?;
        self.is_out = is_through(&answer);
        Ok(answer)
    }

    /// Whether `send_settings` may begin or go on: SETTINGS are out, or a stream is set, its sending half
    /// exists, and this end neither finished nor reset it while the connection is open.
    pub fn can_send(&self, t: &Transport) -> bool
        ensures { result ≡ can_send_settings self.now t.now }
    {
        self.is_out || can_write_on(&self.stream, t)
    }

    /// Whether no write was begun on the stream that isn't through, or that of SETTINGS.
    pub fn continues(&self) -> Result<bool, OutOfMemory>
        ensures { IfOk result (λ b. IsTrue b ↔ ContinuesSettings self.now.stream) }
    {
        let frame = Settings::local().generate_frame(self.alloc)?;
        match &self.stream {
            Some(stream) => stream.continues(&frame),
            None => Ok(true),
        }
    }
}

// ---- the peer's

/// The peer's control stream, where it is set, and how far what came on it was read. Contracts see
/// both.
#[derive(Drop)]
pub struct RemoteSettingsStream {
    alloc: Global,
    stream: Option<StreamUniRemoteH3>,
    reader: ControlReader,
}

impl Model for RemoteSettingsStream {
    ghost use Rattle.std.specs.Prelude.{Option};
    ghost use Rattle.wt_message.specs.declared.settings.Settings.{Settings};
    ghost use Rattle.wt_proto.specs.declared.control_walk.ControlWalk.{ControlWalk};
    ghost use Rattle.wt_proto.specs.WalkProgress.{Reading};
    ghost use Rattle.wt_seam.specs.Critical.{RemoteUni, Watched};

    ghost Value = { Watched RemoteUni (Reading (Option Settings) ControlWalk) };

    ghost view = { λ s. record { stream = s.stream; reading = s.reader } };
}

/// Reads all that has come of a control stream, and returns its fault.
fn read_control(
    reader: &mut ControlReader,
    id: StreamId,
    t: &mut Transport,
) -> Result<Option<DriverError>, OutOfMemory>
    ensures shown { IfOk result (λ shown. shown
        ≡ shown_by_fault (outcome_in control_unfinished (read_on control_decides reader.old (unread_now t.old id) (end_now t.old id))).fault) }
    ensures reading { OnOk result (reader.new ≡ read_on control_decides reader.old (unread_now t.old id) (end_now t.old id)) }
    ensures state { OnOk result (t.new ≡ after_reading_all t.old id) }
{
    read_all(t, id, reader)?;
    Ok(shown_by_fault(reader.outcome().fault))
}

impl RemoteSettingsStream {
    /// No stream is set.
    pub fn empty(alloc: Global) -> Result<Self, OutOfMemory>
        ensures stream { IfOk result (λ s. s.stream ≡ None) }
        ensures read { IfOk result (λ s. WasRead control_decides None s.reading []) }
    {
        Ok(RemoteSettingsStream {
            alloc,
            stream: None,
            reader: ControlReader::new(alloc),
        })
    }

    /// Whether no stream is set.
    pub fn is_empty(&self) -> bool
        ensures { result ≡ not (is_some self.now.stream) }
    {
        // Read for the proof alone, which takes the reader's invariant from here.
        let _ = &self.reader;
        self.stream.is_none()
    }

    /// Sets the stream, which `kind` says to be a control stream. What is unread of it is read by `run`.
    pub fn set_stream(&mut self, stream: StreamUniRemoteH3)
        requires { kind_of stream.stage.header ≡ kinds.Control }
        ensures stream { self.new.stream ≡ Some stream }
        ensures read { WasRead control_decides None self.new.reading [] }
    {
        self.stream = Some(stream);
        // Of another stream nothing was read.
        self.reader = ControlReader::new(self.alloc);
    }

    /// Reads all that has come. Ready with `Proto` and the fault of the stream where it has one, an end
    /// or a reset (ClosedCriticalStream) among these; else with `NotConnected` where the connection
    /// isn't open; pending where no stream is set.
    pub fn run(&mut self, t: &mut Transport) -> Result<Poll<DriverError>, OutOfMemory>
        ensures answer { (bytes : List ℕ) → WasRead control_decides None self.old.reading bytes
            → IfOk result (λ a. a ≡ control_answer self.old.stream t.old bytes) }
        ensures read { (bytes : List ℕ) → WasRead control_decides None self.old.reading bytes
            → OnOk result (WasRead control_decides None self.new.reading (uni_bytes self.old.stream t.old bytes)) }
        ensures now { IfOk result (λ a. a ≡ control_shows self.old.stream t.old.is_open (control_after_run self.old.stream t.old self.old.reading)) }
        ensures reading { OnOk result (self.new.reading ≡ control_after_run self.old.stream t.old self.old.reading) }
        ensures state { OnOk result (t.new ≡ after_uni_run self.old.stream t.old) }
        ensures stream { self.new.stream ≡ self.old.stream }
    {
        let is_open = t.is_open();
        let Some(stream) = &mut self.stream else {
            return Ok(Poll::Pending);
        };
        let id = id_of(stream);
        let shown = read_control(&mut self.reader, id, t)?;
        Ok(shown_or_ended(is_open, shown))
    }

    /// A watcher, which gave nothing yet.
    pub fn subscribe(&self) -> RemoteSettingsWatcher
        ensures { result ≡ false }
    {
        RemoteSettingsWatcher { was_given: false }
    }

    /// The peer's SETTINGS, where the walk over what was read has them.
    fn settings(&self) -> Option<Settings>
        ensures { result ≡ (outcome_in control_unfinished self.now.reading).settings }
    {
        self.reader.outcome().settings
    }
}

/// What waits for the peer's SETTINGS, to give them once. Contracts see whether it gave them.
#[derive(Debug, Drop)]
pub struct RemoteSettingsWatcher {
    was_given: bool,
}

impl Model for RemoteSettingsWatcher {
    ghost use Rattle.std.specs.Prelude.{Bool};

    ghost Value = { Bool };

    ghost view = { λ w. w.was_given };
}

impl RemoteSettingsWatcher {
    /// The SETTINGS, once; pending where no run has read them or this watcher gave them.
    pub fn accept_settings(&mut self, s: &RemoteSettingsStream) -> Poll<Settings>
        ensures answer { (bytes : List ℕ) → WasRead control_decides None s.now.reading bytes
            → result ≡ given_once self.old (control_walk_of bytes Running).settings }
        ensures given { (bytes : List ℕ) → WasRead control_decides None s.now.reading bytes
            → self.new ≡ (self.old || is_some (control_walk_of bytes Running).settings) }
        ensures now { result ≡ given_once self.old (outcome_in control_unfinished s.now.reading).settings }
        ensures now_given { self.new ≡ (self.old || is_some (outcome_in control_unfinished s.now.reading).settings) }
    {
        self.give(s.settings())
    }

    fn give(&mut self, settings: Option<Settings>) -> Poll<Settings>
        ensures answer { result ≡ given_once self.old settings }
        ensures given { self.new ≡ (self.old || is_some settings) }
    {
        match settings {
            Some(settings) if !self.was_given => {
                self.was_given = true;
                Poll::Ready(settings)
            }
            _ => Poll::Pending,
        }
    }
}
