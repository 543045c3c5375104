//! The endpoint of a relay, and what was answered since the turn began.
ghost use Rattle.std.specs.Prelude.{◌≡◌, ◌++◌, [], IfSome, IsTrue, List, OnOk};
ghost use Rattle.wt_endpoint.specs.Connections.{StandsFor, may_take};
ghost use Rattle.wt_endpoint.specs.Endpoints.{endpoint_history};
ghost use Rattle.wt_endpoint.specs.declared.turn.EndpointTurn.{EndpointTurn};
ghost use Rattle.wt_relay.specs.Calls.{Answers, is_relayed, is_relayed_call, takes, told};
ghost use Rattle.wt_relay.specs.Desk.{Leads};
ghost use Rattle.wt_turn.specs.Turns.{is_call};
ghost use Rattle.wt_wire.specs.declared.side.Side.TheVariants as sides;

use crate::answers::RelayAnswers;
use crate::kept::Kept;
use std::alloc::Global;
use std::marker::Model;
use std::mem;
use wt_config::{Opaque, ServerConfig};
use wt_endpoint::{Endpoint, Server};
use wt_turn::reply::Reply;
use wt_turn::{Answer, Call, Turn};
use wt_wire::error::OutOfMemory;
use wt_wire::header_list::HeaderList;
use wt_wire::ids::SessionId;

/// A server's endpoint, and the answers since the turn began. All that a relay asks of the endpoint is asked here.
///
/// A call's clauses are said of each list of turns that the endpoint stands for before it.
#[derive(Drop)]
pub struct Desk {
    alloc: Global,
    endpoint: Endpoint<Server>,
    answers: RelayAnswers,
}

impl Model for Desk {
    ghost use Rattle.wt_relay.specs.Desk.{DeskState};

    ghost Value = { DeskState };

    ghost view = { λ d. record { connections = d.endpoint.connections; told = d.answers } };
}

impl Desk {
    /// No connection, and nothing answered. Nothing is bound.
    pub fn new(alloc: Global) -> Desk
        ensures { StandsFor sides.Server result.connections [] }
    {
        let config = ServerConfig::builder()
            .with_bind_default(0)
            .with_identity(Opaque(0))
            .build();
        Desk {
            alloc,
            endpoint: Endpoint::server(alloc, config),
            answers: RelayAnswers::new(alloc),
        }
    }

    /// Whether it is a lawful transport turn of this connection.
    pub fn takes(&self, number: u32, turn: &Turn) -> bool
        ensures state { IsTrue result → IsTrue (may_take sides.Server self.now.connections number turn.now) }
        ensures turns { (all : List EndpointTurn) → StandsFor sides.Server self.now.connections all
            → result ≡ takes (endpoint_history sides.Server all) number turn.now }
    {
        if is_call(turn) {
            return false;
        }
        self.endpoint.is_lawful(number, turn)
    }

    /// Takes a turn of this connection, and accepts the connection where it is new. Its answer is the first one.
    ///
    /// # Errors
    ///
    /// `OutOfMemory` may come at any turn.
    pub fn take_turn(
        &mut self,
        kept: &mut Kept,
        number: u32,
        turn: &Turn,
    ) -> Result<(), OutOfMemory>
        requires { IsTrue (may_take sides.Server self.old.connections number turn.now) }
        ensures { (all : List EndpointTurn) → StandsFor sides.Server self.old.connections all
            → OnOk result (Answers all number turn.now self.new.connections self.new.told) }
    {
        self.answers = RelayAnswers::new(self.alloc);
        let first = self.endpoint.turn(number, turn)?;
        let _accepted = self.endpoint.accept();
        kept.mark_actions(number, first.actions.as_slice())?;
        self.answers.push(number, first)?;
        Ok(())
    }

    /// Makes a call: its reply. One that may not come isn't made, and is as good as one that is answered `Pending`. What its
    /// actions changed is due.
    ///
    /// # Errors
    ///
    /// `OutOfMemory` may come at any call.
    pub fn ask(&mut self, kept: &mut Kept, number: u32, call: Call) -> Result<Reply, OutOfMemory>
        requires { IsTrue (is_relayed_call call) }
        ensures { OnOk result (Leads self.old self.new) }
    {
        let turn = Turn::Call(call);
        if !self.endpoint.is_lawful(number, &turn) {
            return Ok(Reply::Pending);
        }
        self.make(kept, number, &turn)
    }

    /// Makes a call that may come.
    fn make(&mut self, kept: &mut Kept, number: u32, turn: &Turn) -> Result<Reply, OutOfMemory>
        requires lawful { IsTrue (may_take sides.Server self.old.connections number turn.now) }
        requires relayed { IsTrue (is_relayed turn.now) }
        ensures { OnOk result (Leads self.old self.new) }
    {
        let answer = self.endpoint.turn(number, turn)?;
        kept.mark_actions(number, answer.actions.as_slice())?;
        let reply = self.tell(number, answer)?;
        Ok(reply)
    }

    /// Tells an answer, and gives its reply.
    fn tell(&mut self, number: u32, answer: Answer) -> Result<Reply, OutOfMemory>
        ensures told { OnOk result (self.new.told ≡ self.old.told ++ told number answer) }
        ensures connections { self.new.connections ≡ self.old.connections }
    {
        let reply = answer.reply.copy(self.alloc)?;
        self.answers.push(number, answer)?;
        Ok(reply)
    }

    /// The call of the connection's handshake that may come now.
    pub fn next_shake(&self, number: u32) -> Option<Call>
        ensures { IfSome result (λ call. IsTrue (is_relayed_call call)) }
    {
        if self.may_call(number, Call::Incoming) {
            return Some(Call::Incoming);
        }
        let headers = HeaderList::new(self.alloc);
        if self.may_call(number, Call::Accept { headers }) {
            let headers = HeaderList::new(self.alloc);
            return Some(Call::Accept { headers });
        }
        if self.may_call(number, Call::Handshake) {
            return Some(Call::Handshake);
        }
        None
    }

    fn may_call(&self, number: u32, call: Call) -> bool {
        self.endpoint.is_lawful(number, &Turn::Call(call))
    }

    /// Whether this session of this connection was established and isn't gone.
    pub fn lives(&self, number: u32, session: SessionId) -> bool {
        self.endpoint.lives(number, session)
    }

    /// The answers since the turn began.
    pub fn take_answers(&mut self) -> RelayAnswers
        ensures answers { result ≡ self.old.told }
        ensures connections { self.new.connections ≡ self.old.connections }
    {
        mem::replace(&mut self.answers, RelayAnswers::new(self.alloc))
    }
}

/// Whether it is a call.
fn is_call(turn: &Turn) -> bool
    ensures { result ≡ is_call turn.now }
{
    matches!(turn, Turn::Call(_))
}
