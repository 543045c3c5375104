//! The connections of an endpoint, by number.
ghost use Rattle.std.specs.Prelude.{◌≡◌, ◌<◌, ◌≤◌, ◌^◌, [], ◌+◌, ◌-◌, IfOk, IsTrue, OnOk, count_by, if◌then◌else◌, length, map, slice_get, true, ◌++◌, ◌∷◌, List, ℕ};
ghost use Rattle.wt_endpoint.specs.Connections.{AllKeep, ConnectionsState, Refines, accept_now, after_accept, is_live_now, live_now, lives_by, may_connect, may_take, no_cores, takes};
ghost use Rattle.wt_endpoint.specs.Endpoints.{EndpointHistory, closed_at, closing, closings, closings_from, connection_history, endpoint_after, may_come_next, may_name, put_history, turned_if_open};
ghost use Rattle.wt_meaning.specs.History.{History};
ghost use Rattle.wt_meaning.specs.Lawful.{is_lawful};
ghost use Rattle.wt_meaning.specs.Meaning.{answer_to, history_after};
ghost use Rattle.wt_core.specs.CoreState.{KeepsHistory};
ghost use Rattle.wt_wire.specs.declared.side.Side.{Side};

use crate::first::{is_stopping, may_begin};
use crate::turn::{Closings, EndpointTurn};
use std::alloc::Global;
use std::marker::Model;
use wt_core::machine::Core;
use wt_turn::piece::Piece;
use wt_turn::poll::Poll;
use wt_turn::{Answer, Call, Turn};
use wt_wire::error::OutOfMemory;
use wt_wire::ids::SessionId;
use wt_wire::lookup::ConnectOutcome;
use wt_wire::side::Side;
use wt_wire::varint::VarInt;

/// The connections of an endpoint. A connection's number is its index, so that what is asked of one connection takes the
/// same time however many there are. Contracts see a `ConnectionsState`.
///
/// Each call is told on which side the connections are.
#[derive(Drop)]
pub struct Connections {
    alloc: Global,
    cores: Vec<Core>,
    /// How many were accepted: those with the least numbers, since a server's connections begin as they are established.
    accepted: usize,
    closed: bool,
}

impl Model for Connections {
    ghost use Rattle.std.specs.Prelude.{◌^◌, ◌≤◌, length};
    ghost use Rattle.wt_endpoint.specs.Connections.{ConnectionsState};

    ghost Value = { ConnectionsState };

    ghost view = { λ c. record { cores = c.cores.items; accepted = c.accepted; closed = c.closed } };

    ghost invariant = { λ c. length c.cores.items ≤ 2 ^ 32 };
}

impl Connections {
    /// No connections yet.
    pub fn new(alloc: Global) -> Connections
        ensures { result ≡ no_cores }
    {
        Connections {
            alloc,
            cores: Vec::new(alloc),
            accepted: 0,
            closed: false,
        }
    }

    /// How many connections have begun: the number of the next.
    pub fn count(&self) -> usize
        ensures count { result ≡ length self.now.cores }
        ensures numbered { result ≤ 2 ^ 32 }
    {
        self.cores.len()
    }

    /// Whether a connect with this outcome may begin a connection.
    pub fn may_connect(&self, outcome: &ConnectOutcome) -> bool
        ensures { result ≡ may_connect self.now outcome.now }
    {
        self.count() < 1 << 32 && (!self.closed || is_stopping(outcome))
    }

    /// Whether this turn of this connection may come next. It takes no memory.
    pub fn is_lawful(&self, side: Side, number: u32, turn: &Turn) -> bool
        ensures state { result ≡ may_take side self.now number turn.now }
        ensures history { (e : EndpointHistory) → Refines side self.now e → result ≡ may_come_next side e (EndpointTurn.Connection number turn.now) }
    {
        self.may_name(side, number, turn) && self.takes(side, number, turn)
    }

    /// On a server a call names a connection that was accepted.
    fn may_name(&self, side: Side, number: u32, turn: &Turn) -> bool
        ensures { result ≡ may_name side self.now.accepted number turn.now }
    {
        match turn {
            Turn::Call(_) => side == Side::Client || (number as usize) < self.accepted,
            _ => true,
        }
    }

    fn takes(&self, side: Side, number: u32, turn: &Turn) -> bool
        ensures { result ≡ takes side self.now number turn.now (slice_get self.now.cores number) }
    {
        let index = number as usize;
        match self.cores.get(index) {
            Some(core) => core.is_lawful(turn),
            None => index == self.cores.len() && may_begin(side, self.closed, turn),
        }
    }

    /// The answer to a turn of this connection, which begins with it where it is the next.
    pub fn turn(&mut self, side: Side, number: u32, turn: &Turn) -> Result<Answer, OutOfMemory>
        requires { IsTrue (may_take side self.old number turn.now) }
        ensures answer { (e : EndpointHistory) → Refines side self.old e → IfOk result (λ answer. answer ≡ answer_to side (connection_history e number) turn.now) }
        ensures history { (e : EndpointHistory) → Refines side self.old e → OnOk result (Refines side self.new (endpoint_after side e (EndpointTurn.Connection number turn.now))) }
    {
        let index = number as usize;
        if index < self.cores.len() {
            let core = &mut self.cores[index];
            return core.turn(turn);
        }
        self.begin(side, turn)
    }

    /// The next connection begins with this turn.
    fn begin(&mut self, side: Side, turn: &Turn) -> Result<Answer, OutOfMemory>
        requires lawful { is_lawful side [] turn.now ≡ true }
        requires room { length self.old.cores < 2 ^ 32 }
        ensures answer { IfOk result (λ answer. answer ≡ answer_to side [] turn.now) }
        ensures history { (hs : List History) → AllKeep side self.old.cores hs → OnOk result (AllKeep side self.new.cores (put_history hs (length self.old.cores) (history_after side [] turn.now))) }
        ensures same { OnOk result (record self.new { cores = self.old.cores } ≡ self.old) }
    {
        let mut core = Core::new(self.alloc, side);
        let answer = core.turn(turn)?;
        self.cores.push(core)?;
        Ok(answer)
    }

    /// The next connection that was established, in the order in which they were; None once the endpoint is closed.
    pub fn accept(&mut self) -> Option<Poll<u32>>
        ensures answer { result ≡ accept_now self.old }
        ensures state { self.new ≡ after_accept self.old }
    {
        if self.closed {
            return None;
        }
        if self.accepted >= self.cores.len() {
            return Some(Poll::Pending);
        }
        let number = self.accepted as u32;
        self.accepted += 1;
        Some(Poll::Ready(number))
    }

    /// Closes the endpoint, and each connection that is open; their answers by number.
    pub fn close(
        &mut self,
        side: Side,
        code: VarInt,
        reason: &[u8],
    ) -> Result<Closings, OutOfMemory>
        ensures answer { (e : EndpointHistory) → Refines side self.old e → IfOk result (λ given. given ≡ closings side e code reason.now) }
        ensures history { (e : EndpointHistory) → Refines side self.old e → OnOk result (Refines side self.new (endpoint_after side e (EndpointTurn.Close code reason.now))) }
    {
        let reason = Piece::from_slice(self.alloc, reason)?;
        let turn = Turn::Call(Call::EndpointClose { code, reason });
        self.closed = true;
        close_all(self.alloc, self.cores.as_mut_slice(), &turn)
    }

    /// Whether this session of this connection was established and isn't gone.
    pub fn lives(&self, number: u32, session: SessionId) -> bool
        ensures { result ≡ lives_by session (slice_get self.now.cores number) }
    {
        match self.cores.get(number as usize) {
            Some(core) => core.lives(session),
            None => false,
        }
    }

    /// How many connections are established and open.
    pub fn open_connections(&self) -> usize
        ensures { result ≡ live_now self.now }
    {
        live_count(self.cores.as_slice())
    }
}

/// How many of the connections are established and open.
fn live_count(cores: &[Core]) -> usize
    ensures { result ≡ count_by is_live_now cores.now }
{
    let mut count = 0;
    for index in 0..cores.len() {
        count = counted(count, is_live(&cores[index]));
    }
    count
}

/// One more, where the connection counts.
fn counted(count: usize, counts: bool) -> usize
    requires { count < 2 ^ 64 - 1 }
    ensures { result ≡ count + (if counts then 1 else 0) }
{
    if counts { count + 1 } else { count }
}

/// Whether the connection is established and open.
#[tactic(auto, unfolding(crate::specs::Connections::is_live_now))]
fn is_live(core: &Core) -> bool
    ensures { result ≡ is_live_now core.now }
{
    core.is_open() && core.is_connected()
}

/// Closes each connection that is open by this turn, and gives the answers by number.
fn close_all(alloc: Global, cores: &mut [Core], turn: &Turn) -> Result<Closings, OutOfMemory>
    requires numbered { length cores.old ≤ 2 ^ 32 }
    ensures answer { (side : Side) (hs : List History) (code : ℕ) (reason : List ℕ) → turn.now ≡ closing code reason → AllKeep side cores.old hs
        → IfOk result (λ given. given ≡ closings_from side 0 turn.now hs) }
    ensures history { (side : Side) (hs : List History) (code : ℕ) (reason : List ℕ) → turn.now ≡ closing code reason → AllKeep side cores.old hs
        → OnOk result (AllKeep side cores.new (map (turned_if_open side turn.now) hs)) }
{
    let mut closings = Closings::new(alloc);
    for (index, core) in cores.iter_mut().enumerate() {
        close_next(core, index as u32, turn, &mut closings)?;
    }
    Ok(closings)
}

/// Where the connection is open it takes this turn, and its answer goes to the closings.
fn close_next(
    core: &mut Core,
    number: u32,
    turn: &Turn,
    closings: &mut Closings,
) -> Result<(), OutOfMemory>
    ensures answer { (side : Side) (h : History) → KeepsHistory side core.old h → is_lawful side h turn.now ≡ true
        → OnOk result (closings.new ≡ closings.old ++ closed_at side number turn.now h) }
    ensures history { (side : Side) (h : History) → KeepsHistory side core.old h → is_lawful side h turn.now ≡ true
        → OnOk result (KeepsHistory side core.new (turned_if_open side turn.now h)) }
{
    if !core.is_open() {
        return Ok(());
    }
    let answer = core.turn(turn)?;
    closings.push(number, answer)
}
