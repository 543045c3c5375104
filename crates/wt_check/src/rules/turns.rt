//! Rule 1: the turn may follow the pairs before it.
ghost use Rattle.std.specs.Prelude.{IsTrue};
ghost use Rattle.wt_check.specs.KeptFacts.{HasRoom};

use crate::by_id::ById;
use crate::facts::Facts;
use std::alloc::Global;
use wt_turn::action::Action;
use wt_turn::answer::Answer;
use wt_turn::call::Call;
use wt_turn::reply::Reply;
use wt_turn::turn::Turn;
use wt_wire::error::OutOfMemory;
use wt_wire::ids::StreamId;
use wt_wire::side::Side;

/// The most streams of a kind (RFC 9000, section 4.6).
const MOST_STREAMS: u64 = 1 << 60;

/// The most bytes of a stream (RFC 9000, section 4.1).
const MOST_BYTES: u64 = (1 << 62) - 1;

/// What the turns and actions so far say of a stream.
#[derive(Clone, Copy, PartialEq, Eq, Debug)]
struct Halves {
    /// This side opened it.
    is_opened: bool,
    /// The peer ended its half.
    has_ended: bool,
    /// The peer stopped this side's half.
    is_stopped: bool,
    is_acknowledged: bool,
    /// This side finished its half.
    is_finished: bool,
    /// This side reset its half.
    is_reset: bool,
    /// The credit that came for this side's half.
    credit: Option<u64>,
}

/// A stream of which nothing is said.
const UNKNOWN: Halves = Halves {
    is_opened: false,
    has_ended: false,
    is_stopped: false,
    is_acknowledged: false,
    is_finished: false,
    is_reset: false,
    credit: None,
};

/// How many requests an `Incoming` gave, against how many polls of a connect or a response were answered something other than
/// `Pending`. A request is given where both are equal alone.
#[derive(Clone, Copy, PartialEq, Eq, Debug)]
enum Tally {
    /// As many.
    Even,
    /// One more.
    Due,
    /// Fewer, and so from then on.
    Short,
}

impl Tally {
    /// After one more of these polls.
    fn answered(self) -> Tally {
        match self {
            Tally::Due => Tally::Even,
            Tally::Even | Tally::Short => Tally::Short,
        }
    }
}

/// What the handshake's calls so far say.
#[derive(Clone, Copy, PartialEq, Eq, Debug)]
struct Handshake {
    /// An `Incoming` failed.
    has_failed: bool,
    tally: Tally,
    /// The last `Incoming` gave a request, and no response to it was begun.
    has_request: bool,
    /// The connect or response that was polled last was answered `Pending`.
    is_waiting: bool,
}

/// What the rule keeps.
#[derive(Drop)]
pub struct TurnRule {
    is_first: bool,
    has_dialled: bool,
    is_connected: bool,
    is_lost: bool,
    /// How many streams of each kind the peer allows.
    unis_allowed: u64,
    bis_allowed: u64,
    /// The credit of each half until its own came.
    credit: u64,
    halves: ById<Halves>,
    handshake: Handshake,
}

fn is_response(call: &Call) -> bool {
    matches!(
        call,
        Call::Accept { .. } | Call::Forbidden | Call::NotFound | Call::TooManyRequests
    )
}

/// The call begins a connect or a response, or goes on with it.
fn polls(call: &Call) -> bool {
    matches!(call, Call::Connect { .. } | Call::Handshake) || is_response(call)
}

/// What is said of a stream once the transport reported this of it.
fn after_event(before: Halves, turn: &Turn) -> Halves {
    match turn {
        Turn::End { .. } | Turn::Reset { .. } => Halves {
            has_ended: true,
            ..before
        },
        Turn::Stop { .. } => Halves {
            is_stopped: true,
            ..before
        },
        Turn::Acked { .. } => Halves {
            is_acknowledged: true,
            ..before
        },
        Turn::MaxData { id: _, total } => Halves {
            credit: Some(*total),
            ..before
        },
        _ => before,
    }
}

impl TurnRule {
    /// No pair came.
    pub fn new(alloc: Global) -> TurnRule {
        TurnRule {
            is_first: true,
            has_dialled: false,
            is_connected: false,
            is_lost: false,
            unis_allowed: 0,
            bis_allowed: 0,
            credit: 0,
            halves: ById::new(alloc),
            handshake: Handshake {
                has_failed: false,
                tally: Tally::Even,
                has_request: false,
                is_waiting: false,
            },
        }
    }

    fn halves(&self, id: StreamId) -> Halves {
        match self.halves.get(id) {
            Some(halves) => *halves,
            None => UNKNOWN,
        }
    }

    /// The peer opened it, or an action named it.
    fn is_there(&self, facts: &Facts, id: StreamId) -> bool {
        let is_opened = id.is_local(facts.side()) && self.halves(id).is_opened;
        is_opened || facts.peer_has(id)
    }

    /// Bytes or an end may come.
    fn may_receive(&self, facts: &Facts, id: StreamId) -> bool {
        let has_half = id.is_bidirectional() || !id.is_local(facts.side());
        self.is_there(facts, id) && has_half && !self.halves(id).has_ended
    }

    fn has_sending_half(&self, facts: &Facts, id: StreamId) -> bool {
        self.is_there(facts, id) && (id.is_bidirectional() || id.is_local(facts.side()))
    }

    /// The peer neither stopped this side's half nor acknowledged all of it.
    fn is_awaited(&self, id: StreamId) -> bool {
        let halves = self.halves(id);
        !halves.is_stopped && !halves.is_acknowledged
    }

    fn may_acknowledge(&self, id: StreamId) -> bool {
        let halves = self.halves(id);
        halves.is_finished && !halves.is_reset && self.is_awaited(id)
    }

    fn may_credit(&self, facts: &Facts, id: StreamId, total: u64) -> bool {
        let before = self.halves(id).credit.unwrap_or(self.credit);
        self.has_sending_half(facts, id) && before <= total && total <= MOST_BYTES
    }

    /// A server's connection may come at once, a client's once it dialled.
    fn has_begun(&self, side: Side) -> bool {
        side == Side::Server || self.has_dialled
    }

    fn may_call(&self, side: Side, call: &Call) -> bool {
        let handshake = &self.handshake;
        match call {
            Call::Connect { .. } => side == Side::Client && self.is_first,
            Call::Handshake => handshake.is_waiting,
            _ if self.is_first => false,
            Call::Incoming => {
                side == Side::Server && !handshake.has_failed && handshake.tally == Tally::Even
            }
            _ if is_response(call) => side == Side::Server && handshake.has_request,
            _ => true,
        }
    }

    /// A turn of the transport may come, on a connection that came and isn't lost.
    fn may_come(&self, facts: &Facts, turn: &Turn) -> bool
        ensures room { IsTrue result → HasRoom facts.now.peer_unis facts.now.peer_bis turn.now }
    {
        match turn {
            Turn::PeerUni => facts.peer_unis() < MOST_STREAMS,
            Turn::PeerBi => facts.peer_bis() < MOST_STREAMS,
            Turn::Bytes { id, piece: _ } => self.may_receive(facts, *id),
            Turn::End { id } => self.may_receive(facts, *id),
            Turn::Reset { id, code: _ } => self.may_receive(facts, *id),
            Turn::Stop { id, code: _ } => {
                self.has_sending_half(facts, *id) && self.is_awaited(*id)
            }
            Turn::Acked { id } => self.may_acknowledge(*id),
            Turn::MaxUni { total } => self.unis_allowed <= *total && *total <= MOST_STREAMS,
            Turn::MaxBi { total } => self.bis_allowed <= *total && *total <= MOST_STREAMS,
            Turn::MaxData { id, total } => self.may_credit(facts, *id, *total),
            _ => true,
        }
    }

    /// The connection may come: once, and not after its loss.
    fn may_connect(&self, side: Side, uni: u64, bi: u64, credit: u64) -> bool {
        self.has_begun(side)
            && !self.is_connected
            && !self.is_lost
            && uni <= MOST_STREAMS
            && bi <= MOST_STREAMS
            && credit <= MOST_BYTES
    }

    fn may_lose(&self, side: Side) -> bool {
        self.has_begun(side) && !self.is_lost && (side == Side::Client || self.is_connected)
    }

    /// Whether the turn may follow the pairs so far.
    pub fn may_follow(&self, facts: &Facts, turn: &Turn) -> bool
        ensures room { IsTrue result → HasRoom facts.now.peer_unis facts.now.peer_bis turn.now }
    {
        match turn {
            Turn::Call(call) => self.may_call(facts.side(), call),
            Turn::Connected {
                uni,
                bi,
                credit,
                datagrams: _,
            } => self.may_connect(facts.side(), *uni, *bi, *credit),
            Turn::Loss { .. } => self.may_lose(facts.side()),
            _ => self.is_connected && !self.is_lost && self.may_come(facts, turn),
        }
    }

    fn take_incoming(&mut self, reply: &Reply) {
        let gives = matches!(reply, Reply::Request { .. });
        let has_failed = matches!(reply, Reply::Failed(_));
        let handshake = &mut self.handshake;
        handshake.has_failed = handshake.has_failed || has_failed;
        handshake.has_request = gives;
        if gives {
            handshake.tally = Tally::Due;
        }
    }

    fn take_poll(&mut self, reply: &Reply) {
        let is_waiting = matches!(reply, Reply::Pending);
        self.handshake.is_waiting = is_waiting;
        if !is_waiting {
            self.handshake.tally = self.handshake.tally.answered();
        }
    }

    fn take_call(&mut self, call: &Call, reply: &Reply) -> Result<(), OutOfMemory> {
        if polls(call) {
            self.take_poll(reply);
        }
        match call {
            Call::Incoming => self.take_incoming(reply),
            Call::ResetSend { id, code: _ } if matches!(reply, Reply::Done) => self.reset(*id)?,
            _ if is_response(call) => {
                self.handshake.has_request = matches!(reply, Reply::Request { .. });
            }
            _ => {}
        }
        Ok(())
    }

    /// The turn of the transport with which a half changes.
    fn take_event(&mut self, turn: &Turn) -> Result<(), OutOfMemory> {
        let id = match turn {
            Turn::End { id } => *id,
            Turn::Reset { id, code: _ } => *id,
            Turn::Stop { id, code: _ } => *id,
            Turn::Acked { id } => *id,
            Turn::MaxData { id, total: _ } => *id,
            _ => return Ok(()),
        };
        let halves = after_event(self.halves(id), turn);
        self.halves.put(id, halves)
    }

    fn take_turn(&mut self, turn: &Turn, reply: &Reply) -> Result<(), OutOfMemory> {
        match turn {
            Turn::Call(call) => self.take_call(call, reply)?,
            Turn::Connected {
                uni,
                bi,
                credit,
                datagrams: _,
            } => {
                self.is_connected = true;
                self.unis_allowed = *uni;
                self.bis_allowed = *bi;
                self.credit = *credit;
            }
            Turn::MaxUni { total } => self.unis_allowed = *total,
            Turn::MaxBi { total } => self.bis_allowed = *total,
            Turn::Loss { .. } => self.is_lost = true,
            _ => self.take_event(turn)?,
        }
        Ok(())
    }

    fn open(&mut self, id: StreamId) -> Result<(), OutOfMemory> {
        let before = self.halves(id);
        self.halves.put(
            id,
            Halves {
                is_opened: true,
                ..before
            },
        )
    }

    fn finish(&mut self, id: StreamId) -> Result<(), OutOfMemory> {
        let before = self.halves(id);
        self.halves.put(
            id,
            Halves {
                is_finished: true,
                ..before
            },
        )
    }

    fn reset(&mut self, id: StreamId) -> Result<(), OutOfMemory> {
        let before = self.halves(id);
        self.halves.put(
            id,
            Halves {
                is_reset: true,
                ..before
            },
        )
    }

    fn take_action(&mut self, action: &Action) -> Result<(), OutOfMemory> {
        match action {
            Action::Dial { .. } => {
                self.has_dialled = true;
                Ok(())
            }
            Action::Opened { id } => self.open(*id),
            Action::Finish { id } => self.finish(*id),
            Action::ResetOut { id, code: _ } => self.reset(*id),
            _ => Ok(()),
        }
    }

    /// Takes a pair whose turn could follow.
    pub fn take(&mut self, turn: &Turn, answer: &Answer) -> Result<(), OutOfMemory> {
        self.take_turn(turn, &answer.reply)?;
        for action in answer.actions.as_slice() {
            self.take_action(action)?;
        }
        self.is_first = false;
        Ok(())
    }
}
