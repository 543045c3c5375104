//! The life of sessions, and the end of the connection.
ghost use Rattle.std.specs.Prelude.{◌≡◌, ◌<◌, ◌≤◌, ℕ, IfOk, OnOk, Some, length};
ghost use Rattle.wt_driver_laws.specs.Calling.{Always, Does, Within, log_record};
ghost use Rattle.wt_driver_laws.specs.Driving.{Follows, pieces_of};
ghost use Rattle.wt_driver_laws.specs.Handing.{Begins, IsAnswering, MayBegin, rejecting_actions};
ghost use Rattle.wt_driver_laws.specs.Having.{HasSession};
ghost use Rattle.wt_driver_laws.specs.Replies.{done_reply};
ghost use Rattle.wt_driver_laws.specs.Sessions.{registered_said, reject_session_now};
ghost use Rattle.wt_kept.specs.Calling.{close_now, end_session_now, may_register, on_sessions, refuse_session_now, register_now, response_over};
ghost use Rattle.wt_kept.specs.Moment.{moment_now};
ghost use Rattle.wt_kept.specs.Windows.{establish_now};
ghost use Rattle.wt_meaning.specs.Lawful.{is_client};
ghost use Rattle.wt_turn.specs.Outgoing.{if_open};
ghost use Rattle.wt_turn.specs.Log.{RequestRejected, with_actions};
ghost use Rattle.wt_turn.specs.declared.action.Action.TheVariants as actions;
ghost use Rattle.wt_turn.specs.declared.call.Call.TheVariants as calls;

use super::Driver;
use std::collections::VecDeque;
use std::marker::Brand;
use std::sync::ledger::{Blank, Ledger};
use wt_peer_streams::SessionEnd;
use wt_proto::steps::Steps;
use wt_seam::StreamSession;
use wt_turn::driver_error::DriverError;
use wt_turn::piece::Piece;
use wt_wire::error::OutOfMemory;
use wt_wire::ids::SessionId;
use wt_wire::side::Side;
use wt_wire::varint::VarInt;

impl Driver {
    // ---- their beginning

    /// Whether the session may be registered: a server has up to 4, a client one.
    fn may_register(&self, session: SessionId) -> bool
        ensures { result ≡ may_register session self.now }
    {
        let sessions = &self.dispatched.sessions;
        let has_place = match self.transport.side() {
            Side::Client => sessions.is_empty(),
            Side::Server => sessions.has_room(),
        };
        has_place && !sessions.lives(session) && !sessions.is_gone(session)
    }

    /// The session may be registered: it lives from now on, and what came on its stream is read, in steps of this ledger.
    fn begin_session<L: Ledger>(
        &mut self,
        session: SessionId,
        blank: Blank,
    ) -> Result<(), OutOfMemory>
        requires name { blank.name ≡ L.name }
        requires parts { blank.parts ≡ L.parts }
        requires some { 0 < L.parts }
        requires few { length self.old.work.dispatched.sessions.living < 4 }
        ensures { OnOk result (self.new ≡ moment_now (on_sessions (establish_now session) (response_over self.old.work.transport.side self.old))) }
    {
        let mut steps = Steps::<L>::new(blank);
        self.end_response(&mut steps)?;
        self.dispatched.sessions.establish(session)?;
        self.moment(&mut steps)
    }

    /// The session lives from now on, and what came on its stream is read. The error is how the connection ended, exactly where it
    /// isn't open. Nothing changes there, or where 4 sessions live, or, on a client, where one was registered before.
    ///
    /// # Errors
    ///
    /// `OutOfMemory` where what is kept or goes out found no memory.
    pub fn register(&mut self, session: SessionId) -> Result<Result<(), DriverError>, OutOfMemory>
        ensures answer { IfOk result (λ answer. answer ≡ registered_said self.old) }
        ensures driver { OnOk result (self.new ≡ register_now session self.old) }
        ensures begins { IfOk result (λ answer. Within self.old (λ side log collected. (offset : ℕ) → MayBegin (is_client side) side log session offset
            → Begins side log collected session offset self.old self.new answer)) }
        ensures pieces { OnOk result (pieces_of self.new ≤ pieces_of self.old) }
    {
        if let Some(error) = self.result() {
            return Ok(Err(error));
        }
        if !self.may_register(session) {
            return Ok(Ok(()));
        }
        self.begin_session::<Brand>(session, Blank::new(1))?;
        Ok(Ok(()))
    }

    /// The same of this stream's session.
    ///
    /// # Errors
    ///
    /// `OutOfMemory` where what is kept or goes out found no memory.
    pub fn register_session(
        &mut self,
        stream: StreamSession,
    ) -> Result<Result<(), DriverError>, OutOfMemory>
        ensures answer { IfOk result (λ answer. answer ≡ registered_said self.old) }
        ensures driver { OnOk result (self.new ≡ register_now stream.stage.session self.old) }
    {
        self.register(stream.session_id())
    }

    // ---- their end

    /// The application ends the session, where it lives and the connection is open; else nothing changes.
    pub fn end_session(&mut self, session: SessionId) -> Result<(), OutOfMemory>
        ensures driver { OnOk result (self.new ≡ end_session_now session self.old) }
        ensures does { IfOk result (Does self.old self.new (HasSession session) (calls.EndSession (Some session)) done_reply) }
        ensures pieces { OnOk result (pieces_of self.new ≤ pieces_of self.old) }
    {
        if !self.is_open() {
            return Ok(());
        }
        if self.lives(session) {
            return self
                .dispatched
                .finish_and_retire(&mut self.transport, session, SessionEnd::Ended);
        }
        Ok(())
    }

    /// The request for the session is rejected, where it was given, but no session stands or stood; else nothing changes. After the
    /// connection's end nothing goes out.
    ///
    /// # Errors
    ///
    /// `OutOfMemory` where what is kept or goes out found no memory.
    pub fn refuse_session(&mut self, session: SessionId) -> Result<(), OutOfMemory>
        ensures { OnOk result (self.new ≡ refuse_session_now session self.old) }
    {
        if !self.dispatched.awaits_answer(session) {
            return Ok(());
        }
        if self.transport.is_open() {
            return self
                .dispatched
                .retire(&mut self.transport, session, SessionEnd::Refused);
        }
        self.dispatched.forget(session, SessionEnd::Refused)
    }

    /// The rejection of the request for the session is over: the streams that came for it end, and then the connection is closed
    /// where a code is given. Nothing goes out where the connection isn't open.
    ///
    /// # Errors
    ///
    /// `OutOfMemory` where what goes out found no memory.
    pub fn reject_session(
        &mut self,
        session: SessionId,
        code: Option<VarInt>,
    ) -> Result<(), OutOfMemory>
        ensures driver { OnOk result (self.new ≡ reject_session_now session code self.old) }
        ensures log { OnOk result (Always self.old (λ side log collected. IsAnswering log session
            → Follows side self.new (log_record side log (rejecting_actions side log session code) (RequestRejected session)) collected)) }
        ensures pieces { OnOk result (pieces_of self.new ≤ pieces_of self.old) }
    {
        self.refuse_session(session)?;
        match code {
            Some(code) => self.close(code, Piece::new(self.alloc)),
            None => Ok(()),
        }
    }

    // ---- the end of the connection

    /// The application, the endpoint or a handshake closes the connection where it is open (RFC 9000, section 10.2).
    pub fn close(&mut self, code: VarInt, reason: Piece) -> Result<(), OutOfMemory>
        ensures driver { OnOk result (self.new ≡ close_now code reason self.old) }
        ensures log { OnOk result (Within self.old (λ side log collected. Follows side self.new (with_actions (if_open log (actions.Close code reason)) log) collected)) }
        ensures pieces { OnOk result (pieces_of self.new ≤ pieces_of self.old) }
    {
        self.datagrams = VecDeque::new(self.alloc);
        self.transport.close(code, reason)
    }
}
