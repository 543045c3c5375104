//! What is asked of a driver, and what it passes on to its transport.
ghost use Rattle.std.specs.Prelude.{◌≡◌, ◌≤◌, ◌+◌, ◌∷◌, ◌==◌, ℕ, [], IfOk, IsTrue, OnOk, is_some, length, not, option_copied, true};
ghost use Rattle.wt_driver_laws.specs.Answering.{gave_settings_now, is_ended_now, result_now, session_result_now, settings_given_now, with_actions_taken, with_dialled};
ghost use Rattle.wt_driver_laws.specs.Calling.{Always};
ghost use Rattle.wt_driver_laws.specs.Driving.{Follows, pieces_of, uncollected_since};
ghost use Rattle.wt_driver_laws.specs.Having.{HasReceiving, HasSession};
ghost use Rattle.wt_kept.specs.Windows.{lives_now};
ghost use Rattle.wt_meaning.specs.Lawful.{is_client};
ghost use Rattle.wt_transport.specs.Step.{fits_now, unread_now};
ghost use Rattle.wt_peer_streams.specs.Critical.{control_count, control_settings};
ghost use Rattle.wt_turn.specs.Arrivals.{fits};
ghost use Rattle.wt_turn.specs.Joined.{joined_actions};
ghost use Rattle.wt_turn.specs.Reports.{datagram_fact, is_connected, loss_of};
ghost use Rattle.wt_sessions.specs.Driver.{has_no_session, is_session_gone, settings_came, stream_table};
ghost use Rattle.wt_sessions.specs.Halves.{unread_body};
ghost use Rattle.wt_turn.specs.Log.{Log, actions_of, events_of, is_open, with_actions};
ghost use Rattle.wt_turn.specs.declared.action.Action.TheVariants as actions;
ghost use Rattle.wt_wire.specs.declared.side.Side.{Side};

use super::Driver;
use wt_peer_streams::SessionEnd;
use wt_proto::settings::Settings;
use wt_turn::action::Actions;
use wt_turn::datagram_fact::DatagramFact;
use wt_turn::driver_error::DriverError;
use wt_turn::loss::LossReason;
use wt_turn::poll::Poll;
use wt_turn::turn::Turn;
use wt_wire::addr::Addr;
use wt_wire::error::{ErrorCode, OutOfMemory};
use wt_wire::ids::{SessionId, StreamId};
use wt_wire::side::Side;
use wt_wire::text::Text;

impl Driver {
    // ---- the transport

    /// This end.
    pub fn side(&self) -> Side
        ensures { result ≡ self.now.work.transport.side }
    {
        self.transport.side()
    }

    /// Whether a turn of the transport is lawful now; a call is none.
    pub fn fits(&self, turn: &Turn) -> bool
        ensures now { result ≡ fits_now self.now.work.transport turn.now }
        ensures log { (side : Side) (log : Log) (collected : ℕ) → Follows side self.now log collected → result ≡ fits side log turn.now }
    {
        self.transport.fits(turn)
    }

    /// Whether the connection is open: no loss came, and no close went out.
    pub fn is_open(&self) -> bool
        ensures now { result ≡ self.now.work.transport.is_open }
        ensures log { (side : Side) (log : Log) (collected : ℕ) → Follows side self.now log collected → result ≡ is_open log }
    {
        self.transport.is_open()
    }

    /// Whether the connection was established.
    pub fn is_connected(&self) -> bool
        ensures now { result ≡ self.now.work.transport.is_connected }
        ensures log { (side : Side) (log : Log) (collected : ℕ) → Follows side self.now log collected → is_open log ≡ true → result ≡ is_connected (events_of log) }
    {
        self.transport.is_connected()
    }

    /// What was reported last of datagrams while the connection was open.
    pub fn datagram_fact(&self) -> Option<DatagramFact>
        ensures now { result ≡ self.now.work.transport.datagram_fact }
        ensures log { (side : Side) (log : Log) (collected : ℕ) → Follows side self.now log collected → result ≡ datagram_fact (events_of log) }
    {
        self.transport.datagram_fact()
    }

    /// The loss that ended the connection.
    pub fn loss(&self) -> Option<&LossReason>
        ensures now { option_copied result ≡ self.now.work.transport.loss }
        ensures log { (side : Side) (log : Log) (collected : ℕ) → Follows side self.now log collected → option_copied result ≡ loss_of (events_of log) }
    {
        self.transport.loss()
    }

    /// How many bytes of the stream came and weren't read.
    pub fn unread(&self, id: StreamId) -> u64
        ensures now { result ≡ length (unread_now self.now.work.transport id) }
        ensures log { Always self.now (λ side log collected. HasReceiving id side log → result ≡ length (unread_body side log id)) }
    {
        self.transport.unread(id)
    }

    /// Of how many pieces an unread byte is kept.
    pub fn pieces(&self) -> u64
        ensures { result ≡ pieces_of self.now }
    {
        self.transport.pieces()
    }

    /// Connects to this address, by this server name; the connection is open.
    pub fn dial(&mut self, address: Addr, name: Text) -> Result<(), OutOfMemory>
        requires { IsTrue self.old.work.transport.is_open }
        ensures driver { OnOk result (self.new ≡ with_dialled address name self.old) }
        ensures log { OnOk result (Always self.old (λ side log collected. is_client side ≡ true → log ≡ []
            → Follows side self.new (with_actions (actions.Dial address name ∷ []) log) collected)) }
        ensures pieces { OnOk result (pieces_of self.new ≤ pieces_of self.old) }
    {
        self.transport.dial(address, name)
    }

    /// The actions since the last such call.
    pub fn take_actions(&mut self) -> Actions
        ensures actions { result ≡ self.old.work.transport.actions }
        ensures driver { self.new ≡ with_actions_taken self.old }
        ensures log_actions { (side : Side) (log : Log) (collected : ℕ) → Follows side self.old log collected → result ≡ joined_actions (uncollected_since collected log) }
        ensures log { (side : Side) (log : Log) (collected : ℕ) → Follows side self.old log collected → Follows side self.new log (length (actions_of log)) }
        ensures pieces { pieces_of self.new ≤ pieces_of self.old }
    {
        self.transport.take_actions()
    }

    /// How many readers are kept: of at most 4 headers of each kind, of the control stream, and of at most 4 sessions; beside that
    /// of a client's response, which is there only until its one session begins.
    pub fn readers(&self) -> usize
        ensures count { result ≡ length self.now.unis.reading + length self.now.bis.reading
            + (control_count self.now.work.dispatched.critical.control + length self.now.work.dispatched.sessions.living) }
        ensures few { result ≤ 13 }
    {
        self.unis.readers()
            + self.bis.readers()
            + (self.dispatched.critical.readers() + self.dispatched.sessions.count())
    }

    // ---- how it ended

    /// The fault by which the driver closed the connection.
    pub fn fault(&self) -> Option<ErrorCode>
        ensures now { result ≡ self.now.work.dispatched.fault }
        ensures log { (side : Side) (log : Log) (collected : ℕ) → Follows side self.now log collected → result ≡ (stream_table side log).progress.fault }
    {
        self.dispatched.fault()
    }

    /// How the connection ended; None while it is open.
    pub fn result(&self) -> Option<DriverError>
        ensures { result ≡ result_now self.now }
    {
        if self.is_open() {
            return None;
        }
        match self.fault() {
            Some(code) => Some(DriverError::Proto(code)),
            None => Some(DriverError::NotConnected),
        }
    }

    /// How the session ended: by the peer's close, by another cause, or with the connection; None while it goes on.
    pub fn session_result(&self, session: SessionId) -> Result<Option<DriverError>, OutOfMemory>
        ensures { IfOk result (λ end. end ≡ session_result_now session self.now) }
    {
        match self.dispatched.sessions.end_of(session) {
            Some(SessionEnd::Closed(close)) => {
                Ok(Some(DriverError::ApplicationClosed(close.copy()?)))
            }
            Some(_) => Ok(Some(DriverError::NotConnected)),
            None => Ok(self.result()),
        }
    }

    /// How many sessions live.
    pub fn living(&self) -> usize
        ensures now { result ≡ length self.now.work.dispatched.sessions.living }
        ensures log { (side : Side) (log : Log) (collected : ℕ) → Follows side self.now log collected → (result == 0) ≡ has_no_session side log }
    {
        self.dispatched.sessions.count()
    }

    /// Whether the session was registered and isn't gone.
    pub fn lives(&self, session: SessionId) -> bool
        ensures { result ≡ lives_now self.now.work.dispatched.sessions session }
    {
        self.dispatched.sessions.lives(session)
    }

    /// Whether the session is gone.
    pub fn is_gone(&self, session: SessionId) -> bool
        ensures now { result ≡ is_ended_now session self.now }
        ensures log { (side : Side) (log : Log) (collected : ℕ) → Follows side self.now log collected → HasSession session side log → result ≡ is_session_gone side log session }
    {
        self.dispatched.sessions.end_of(session).is_some()
    }

    // ---- the peer's SETTINGS

    /// Whether the peer's SETTINGS came.
    pub fn settings_came(&self) -> bool
        ensures now { result ≡ is_some (control_settings self.now.work.dispatched.critical.control) }
        ensures log { (side : Side) (log : Log) (collected : ℕ) → Follows side self.now log collected → result ≡ settings_came side log }
    {
        self.dispatched.critical.settings().is_some()
    }

    /// The peer's SETTINGS, once; later, or without them, the result or Pending.
    pub fn accept_settings(&mut self) -> Poll<Result<Settings, DriverError>>
        ensures answer { result ≡ settings_given_now self.old }
        ensures driver { self.new ≡ gave_settings_now self.old }
    {
        match self.dispatched.critical.settings() {
            Some(settings) if !self.gave_settings => {
                self.gave_settings = true;
                Poll::Ready(Ok(settings))
            }
            _ => self.nothing_left(),
        }
    }

    /// Whether a request is queued.
    pub fn has_request(&self) -> bool
        ensures { result ≡ not (length self.now.work.dispatched.requests.queued == 0) }
    {
        self.dispatched.requests.has_next()
    }
}
