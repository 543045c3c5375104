//! One connection, driven turn by turn.
ghost use Rattle.std.specs.Prelude.{[], ◌+◌, ◌≡◌, ◌≤◌, IfOk, IsErr, IsTrue, None, OnErr, OnOk, Some, false, length, true};
ghost use Rattle.wt_driver_laws.specs.Driving.{Follows, pieces_in, pieces_of};
ghost use Rattle.wt_meaning.specs.Calls.{is_living};
ghost use Rattle.wt_meaning.specs.History.{History, events, is_open};
ghost use Rattle.wt_meaning.specs.Lawful.{is_lawful};
ghost use Rattle.wt_meaning.specs.Meaning.{answer_to, history_after};
ghost use Rattle.wt_core.specs.Calls.{is_handshake, receiving_id, sending_id, session_name};
ghost use Rattle.wt_core.specs.CoreState.{KeepsHistory, Refines, connected_now, living_now, may_come_next, may_turn, open_now};
ghost use Rattle.wt_core.specs.Keeping.{CallAnswers, Stepped, TurnAnswers};
ghost use Rattle.wt_turn.specs.Reports.{is_connected};
ghost use Rattle.wt_sessions.specs.Answers as logs;
ghost use Rattle.wt_turn.specs.Log.{Log, actions_of};
ghost use Rattle.wt_turn.specs.Turns.{is_call};
ghost use Rattle.wt_turn.specs.declared.call.Call.TheVariants as calls;
ghost use Rattle.wt_wire.specs.declared.side.Side.{Side};

use crate::calls::{Replied, on_opening, on_receiving, on_sending, on_session, stop_receiving};
use crate::handshake::{Handshake, Outcome};
use crate::held::{Sessions, Streams};
use std::alloc::Global;
use std::fmt;
use std::marker::Model;
use wt_driver::Driver;
use wt_turn::{Answer, Call, Piece, Reply, Turn};
use wt_wire::error::OutOfMemory;
use wt_wire::ids::{SessionId, StreamId};
use wt_wire::side::Side;
use wt_wire::varint::VarInt;

/// A connection: its driver, and what its application has. Contracts see both, and whether a turn came and one ran out of memory.
pub struct Core {
    alloc: Global,
    /// A turn ran out of memory: no later turn is answered.
    failed: bool,
    /// No turn came yet.
    is_first: bool,
    driver: Driver,
    handshake: Handshake,
    sessions: Sessions,
    streams: Streams,
}

impl Model for Core {
    ghost use Rattle.wt_core.specs.CoreState.{CoreState};

    ghost Value = { CoreState };

    ghost view = { λ c. record {
      failed = c.failed;
      is_first = c.is_first;
      driver = c.driver;
      shake = c.handshake;
      sessions = c.sessions;
      streams = c.streams;
    } };
}

/// Written out, so that a crate that drops one need not prove the drop of each of its parts.
impl Drop for Core {
    fn drop(self) {
        let Core {
            alloc: _,
            failed: _,
            is_first: _,
            driver: _,
            handshake: _,
            sessions: _,
            streams: _,
        } = self;
    }
}

/// The name alone: what it keeps is large, and no text of it is promised.
impl fmt::Debug for Core {
    fn fmt<W: fmt::Write>(&self, f: &mut fmt::Formatter<W>) -> fmt::Result {
        write!(f, "Core {{ .. }}")
    }
}

impl Core {
    /// A connection on this side, before its first turn.
    pub fn new(alloc: Global, side: Side) -> Core
        ensures { KeepsHistory side result [] }
    {
        Core {
            alloc,
            failed: false,
            is_first: true,
            driver: Driver::init(alloc, side),
            handshake: Handshake::new(side),
            sessions: Sessions::new(alloc),
            streams: Streams::new(alloc),
        }
    }

    fn may_come(&self, turn: &Turn) -> bool
        ensures { result ≡ may_come_next self.now turn.now }
    {
        match turn {
            Turn::Call(call) => self.handshake.may(self.is_first, call),
            _ => self.driver.fits(turn),
        }
    }

    /// Whether the turn may come next; after a turn that ran out of memory each one may.
    #[tactic(auto, using(crate::proofs::Histories::may_is))]
    pub fn is_lawful(&self, turn: &Turn) -> bool
        ensures state { result ≡ may_turn self.now turn.now }
        ensures history { (side : Side) (h : History) → KeepsHistory side self.now h → result ≡ is_lawful side h turn.now }
    {
        self.failed || self.may_come(turn)
    }

    /// Whether the connection is open: it wasn't lost, and neither end's close went out.
    #[tactic(auto, using(crate::proofs::Histories::open_is))]
    pub fn is_open(&self) -> bool
        ensures state { result ≡ open_now self.now }
        ensures history { (side : Side) (h : History) → KeepsHistory side self.now h → result ≡ is_open h }
    {
        self.driver.is_open()
    }

    /// Whether an open connection was established. (Of one that ended it may say so later than the definitions.)
    #[tactic(auto, using(crate::proofs::Histories::connected_is))]
    pub fn is_connected(&self) -> bool
        ensures state { result ≡ connected_now self.now }
        ensures history { (side : Side) (h : History) → KeepsHistory side self.now h → is_open h ≡ true → result ≡ is_connected (events h) }
    {
        self.driver.is_connected()
    }

    /// Whether this session was established and isn't gone.
    #[tactic(auto, using(crate::proofs::Histories::lives_is))]
    pub fn lives(&self, session: SessionId) -> bool
        ensures state { result ≡ living_now self.now session }
        ensures history { (side : Side) (h : History) → KeepsHistory side self.now h → result ≡ is_living side h session }
    {
        self.driver.lives(session)
    }

    /// Its driver alone: what the application has by turns goes.
    pub fn into_driver(self) -> Driver
        ensures { (side : Side) (log : Log) → Refines side self log → Follows side result log (length (actions_of log)) }
    {
        let Core {
            alloc: _,
            failed: _,
            is_first: _,
            driver,
            handshake: _,
            sessions: _,
            streams: _,
        } = self;
        driver
    }

    /// How many pieces are kept of which a byte is unread.
    pub fn pieces(&self) -> u64
        ensures { result ≡ pieces_of self.now.driver }
    {
        self.driver.pieces()
    }

    // ---- a call, by the kind of value that it is made on. The rare ones stay functions of their own: at each call a
    // function clears all that it could keep.

    fn sending(&mut self, id: StreamId, call: &Call) -> Replied
        requires { sending_id call.now ≡ Some id }
        ensures answers { CallAnswers self.old call.now result self.new }
        ensures pieces { OnOk result (pieces_of self.new.driver ≤ pieces_of self.old.driver) }
    {
        on_sending(&mut self.streams, &mut self.driver, id, call)
    }

    fn receiving(&mut self, id: StreamId, call: &Call) -> Replied
        requires { receiving_id call.now ≡ Some id }
        ensures answers { CallAnswers self.old call.now result self.new }
        ensures pieces { OnOk result (pieces_of self.new.driver ≤ pieces_of self.old.driver) }
    {
        on_receiving(self.alloc, &mut self.streams, &mut self.driver, id, call)
    }

    #[inline(never)]
    fn stop(&mut self, id: StreamId, code: VarInt) -> Replied
        ensures answers { CallAnswers self.old (calls.StopRecv id code) result self.new }
        ensures pieces { OnOk result (pieces_of self.new.driver ≤ pieces_of self.old.driver) }
    {
        stop_receiving(&mut self.streams, &mut self.driver, id, code)
    }

    #[inline(never)]
    fn opening(&mut self, id: StreamId) -> Replied
        ensures answers { CallAnswers self.old (calls.PollOpening id) result self.new }
        ensures pieces { OnOk result (pieces_of self.new.driver ≤ pieces_of self.old.driver) }
    {
        on_opening(&self.sessions, &mut self.streams, &mut self.driver, id)
    }

    fn session(&mut self, name: Option<SessionId>, call: &Call) -> Replied
        requires { session_name call.now ≡ Some name }
        ensures answers { CallAnswers self.old call.now result self.new }
        ensures pieces { OnOk result (pieces_of self.new.driver ≤ pieces_of self.old.driver) }
    {
        on_session(
            self.alloc,
            &mut self.sessions,
            &mut self.streams,
            &mut self.driver,
            name,
            call,
        )
    }

    #[inline(never)]
    fn shake(&mut self, call: &Call) -> Replied
        requires { is_handshake call.now ≡ true }
        ensures answers { CallAnswers self.old call.now result self.new }
        ensures pieces { OnOk result (pieces_of self.new.driver ≤ pieces_of self.old.driver) }
    {
        match self.handshake.answer(self.alloc, &mut self.driver, call)? {
            Outcome::Reply(reply) => Ok(reply),
            Outcome::Session(session) => self.sessions.establish(session),
        }
    }

    #[inline(never)]
    fn endpoint(&mut self, code: VarInt, reason: &Piece) -> Replied
        ensures answers { CallAnswers self.old (calls.EndpointClose code reason.now) result self.new }
        ensures pieces { OnOk result (pieces_of self.new.driver ≤ pieces_of self.old.driver) }
    {
        self.driver.close(code, reason.copy()?)?;
        self.driver.rests();
        Ok(Reply::Done)
    }

    /// The reply to a call, whose actions stay with the driver.
    fn call(&mut self, call: &Call) -> Replied
        ensures answers { CallAnswers self.old call.now result self.new }
        ensures pieces { OnOk result (pieces_of self.new.driver ≤ pieces_of self.old.driver) }
    {
        match call {
            Call::EndpointClose { code, reason } => self.endpoint(*code, reason),
            Call::AcceptUni { session } => self.session(*session, call),
            Call::AcceptBi { session } => self.session(*session, call),
            Call::OpenUni { session } => self.session(*session, call),
            Call::OpenBi { session } => self.session(*session, call),
            Call::ReceiveDatagram { session } => self.session(*session, call),
            Call::SendDatagram { session, .. } => self.session(*session, call),
            Call::MaxDatagramSize { session } => self.session(*session, call),
            Call::SessionId { session } => self.session(*session, call),
            Call::EndSession { session } => self.session(*session, call),
            Call::Close { .. } => self.session(None, call),
            Call::Closed => self.session(None, call),
            Call::PollOpening { id } => self.opening(*id),
            Call::Write { id, .. } => self.sending(*id, call),
            Call::WriteAll { id, .. } => self.sending(*id, call),
            Call::Finish { id } => self.sending(*id, call),
            Call::Stopped { id } => self.sending(*id, call),
            Call::Priority { id } => self.sending(*id, call),
            Call::SetPriority { id, .. } => self.sending(*id, call),
            Call::ResetSend { id, .. } => self.sending(*id, call),
            Call::Read { id, .. } => self.receiving(*id, call),
            Call::ReadExact { id, .. } => self.receiving(*id, call),
            Call::StopRecv { id, code } => self.stop(*id, *code),
            Call::Connect { .. }
            | Call::Incoming
            | Call::Accept { .. }
            | Call::Forbidden
            | Call::NotFound
            | Call::TooManyRequests
            | Call::Handshake => self.shake(call),
        }
    }

    /// The transport reports something.
    fn event(&mut self, turn: &Turn) -> Replied
        ensures answers { is_call turn.now ≡ false → TurnAnswers self.old turn.now result self.new }
        ensures pieces { OnOk result (pieces_of self.new.driver ≤ pieces_of self.old.driver + pieces_in turn.now) }
    {
        self.driver.event(turn)?;
        Ok(Reply::Done)
    }

    /// The reply to a turn, whose actions stay with the driver.
    fn reply(&mut self, turn: &Turn) -> Replied
        ensures answers { TurnAnswers self.old turn.now result self.new }
        ensures pieces { OnOk result (pieces_of self.new.driver ≤ pieces_of self.old.driver + pieces_in turn.now) }
    {
        match turn {
            Turn::Call(call) => self.call(call),
            _ => self.event(turn),
        }
    }

    /// The answer to a lawful turn, while memory suffices.
    fn step(&mut self, turn: &Turn) -> Result<Answer, OutOfMemory>
        ensures step { (side : Side) (log : Log) → Refines side self.old log → logs.is_lawful side log turn.now ≡ true → IfOk result (λ a. Stepped side log turn.now a self.new) }
        ensures pieces { OnOk result (pieces_of self.new.driver ≤ pieces_of self.old.driver + pieces_in turn.now) }
    {
        let reply = self.reply(turn)?;
        self.is_first = false;
        let actions = self.driver.take_actions();
        Ok(Answer { reply, actions })
    }

    /// The answer to a lawful turn: it is the one answer that the definitions give. Out of memory may come at any turn, and then
    /// at each later one.
    ///
    /// # Errors
    ///
    /// `OutOfMemory` where what is kept or goes out, or the answer, found no memory, now or before.
    pub fn turn(&mut self, turn: &Turn) -> Result<Answer, OutOfMemory>
        ensures answer { (side : Side) (h : History) → KeepsHistory side self.old h → is_lawful side h turn.now ≡ true → IfOk result (λ a. a ≡ answer_to side h turn.now) }
        ensures history { (side : Side) (h : History) → KeepsHistory side self.old h → is_lawful side h turn.now ≡ true → OnOk result (KeepsHistory side self.new (history_after side h turn.now)) }
        ensures failed { IsTrue self.old.failed → IsErr result }
        ensures fails { OnErr result (IsTrue self.new.failed) }
        ensures pieces { OnOk result (pieces_of self.new.driver ≤ pieces_of self.old.driver + pieces_in turn.now) }
    {
        if self.failed {
            return Err(OutOfMemory);
        }
        match self.step(turn) {
            Ok(answer) => Ok(answer),
            Err(error) => {
                self.failed = true;
                Err(error)
            }
        }
    }
}
