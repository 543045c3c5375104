//! Endpoints: what listens or dials, with its connections by number.
ghost use Rattle.std.specs.Prelude.{◌≡◌, ◌++◌, ◌∷◌, [], IfOk, IsTrue, List, OnOk, Some, length, ℕ};
ghost use Rattle.wt_endpoint.specs.Connections.{StandsFor, idle_poll, may_connect, may_take};
ghost use Rattle.wt_endpoint.specs.Endpoints.{accept_answer, closings, endpoint_history, live_count, may_come_next, may_connect_next};
ghost use Rattle.wt_endpoint.specs.Isolation.{ClosedApart, begin_established, own_history, own_turns};
ghost use Rattle.wt_endpoint.specs.declared.turn.EndpointTurn.{EndpointTurn};
ghost use Rattle.wt_meaning.specs.Calls.{is_living};
ghost use Rattle.wt_meaning.specs.Meaning.{answer_to};
ghost use Rattle.wt_turn.specs.declared.call.Call.TheVariants as calls;
ghost use Rattle.wt_turn.specs.declared.turn.Turn.TheVariants as turns;
ghost use Rattle.wt_wire.specs.declared.side.Side.TheVariants as sides;

use crate::connections::Connections;
use crate::turn::Closings;
use std::alloc::Global;
use std::marker::Model;
use wt_config::{ClientConfig, ServerConfig};
use wt_session::connect_options::ConnectOptions;
use wt_turn::poll::Poll;
use wt_turn::{Answer, Call, Turn};
use wt_wire::error::OutOfMemory;
use wt_wire::ids::SessionId;
use wt_wire::lookup::{ConnectOutcome, Lookup};
use wt_wire::side::Side;
use wt_wire::varint::VarInt;

/// Which end of its connections an endpoint is.
pub trait EndpointSide: Drop {
    ghost use Rattle.wt_wire.specs.declared.side.Side.{Side};

    /// The end.
    ghost side: { Side };

    /// The end.
    fn side() -> Side
        ensures { result ≡ side };
}

/// Marks a server's endpoint, and holds its configuration.
#[derive(Drop)]
pub struct Server {
    /// The configuration of later connections.
    pub config: ServerConfig,
}

impl EndpointSide for Server {
    ghost use Rattle.wt_wire.specs.declared.side.Side.TheVariants as sides;

    ghost side = { sides.Server };

    fn side() -> Side {
        Side::Server
    }
}

/// Marks a client's endpoint.
#[derive(Drop)]
pub struct Client;

impl EndpointSide for Client {
    ghost use Rattle.wt_wire.specs.declared.side.Side.TheVariants as sides;

    ghost side = { sides.Client };

    fn side() -> Side {
        Side::Client
    }
}

/// An endpoint with its connections by number, from 0. `S` is [`Server`] or [`Client`].
///
/// A call's clauses are said of each list of turns that the endpoint stands for before it: after the call it stands for
/// that list with one turn more. After out of memory nothing is known of it but that its calls are safe and return.
#[derive(Drop)]
pub struct Endpoint<S: EndpointSide> {
    marker: S,
    connections: Connections,
}

impl<S: EndpointSide> Model for Endpoint<S> {
    ghost use Rattle.wt_endpoint.specs.Connections.{EndpointValue};

    ghost Value = { EndpointValue S };

    ghost view = { λ e. record { marker = e.marker; connections = e.connections } };
}

impl<S: EndpointSide> Endpoint<S> {
    /// Whether this turn of this connection may come next: it is lawful in that connection; a new number is the count of
    /// those before; on a server a call names a connection that was accepted; and once the endpoint is closed no
    /// connection begins, but by a connect that is answered with the endpoint's stopping. It takes no memory.
    pub fn is_lawful(&self, number: u32, turn: &Turn) -> bool
        ensures state { result ≡ may_take S.side self.now.connections number turn.now }
        ensures turns { (all : List EndpointTurn) → StandsFor S.side self.now.connections all
            → result ≡ may_come_next S.side (endpoint_history S.side all) (EndpointTurn.Connection number turn.now) }
    {
        self.connections.is_lawful(S::side(), number, turn)
    }

    /// The connection's answer to this turn, which is that to its own turns alone (`apart`).
    ///
    /// # Errors
    ///
    /// `OutOfMemory` may come at any turn.
    pub fn turn(&mut self, number: u32, turn: &Turn) -> Result<Answer, OutOfMemory>
        requires { IsTrue (may_take S.side self.old.connections number turn.now) }
        ensures apart { (all : List EndpointTurn) → StandsFor S.side self.old.connections all
            → IfOk result (λ answer. answer ≡ answer_to S.side (own_history S.side number all) turn.now) }
        ensures turns { (all : List EndpointTurn) → StandsFor S.side self.old.connections all
            → OnOk result (StandsFor S.side self.new.connections (all ++ EndpointTurn.Connection number turn.now ∷ [])) }
        ensures marker { self.new.marker ≡ self.old.marker }
    {
        self.connections.turn(S::side(), number, turn)
    }

    /// Closes the endpoint, and each connection that is open with this code and reason; their answers by number, each of
    /// which is that to its connection's own turns alone (`apart`).
    ///
    /// # Errors
    ///
    /// `OutOfMemory` may come at any close.
    pub fn close(&mut self, code: VarInt, reason: &[u8]) -> Result<Closings, OutOfMemory>
        ensures closings { (all : List EndpointTurn) → StandsFor S.side self.old.connections all
            → IfOk result (λ given. given ≡ closings S.side (endpoint_history S.side all) code reason.now) }
        ensures apart { (all : List EndpointTurn) → StandsFor S.side self.old.connections all
            → IfOk result (ClosedApart S.side all code reason.now) }
        ensures turns { (all : List EndpointTurn) → StandsFor S.side self.old.connections all
            → OnOk result (StandsFor S.side self.new.connections (all ++ EndpointTurn.Close code reason.now ∷ [])) }
        ensures marker { self.new.marker ≡ self.old.marker }
    {
        self.connections.close(S::side(), code, reason)
    }

    /// Whether this session of this connection was established and isn't gone, by the connection's own turns. It takes no memory.
    pub fn lives(&self, number: u32, session: SessionId) -> bool
        ensures { (all : List EndpointTurn) → StandsFor S.side self.now.connections all
            → result ≡ is_living S.side (own_history S.side number all) session }
    {
        self.connections.lives(number, session)
    }

    /// Ready where no connection is established and open.
    pub fn wait_idle(&self) -> Poll<()>
        ensures { (all : List EndpointTurn) → StandsFor S.side self.now.connections all
            → result ≡ idle_poll (live_count (endpoint_history S.side all)) }
    {
        idle_poll(self.connections.open_connections())
    }

    /// How many connections are established and open.
    pub fn open_connections(&self) -> usize
        ensures { (all : List EndpointTurn) → StandsFor S.side self.now.connections all
            → result ≡ live_count (endpoint_history S.side all) }
    {
        self.connections.open_connections()
    }

    /// Its connections alone.
    pub(crate) fn into_connections(self) -> Connections
        ensures { result ≡ self.connections }
    {
        self.connections
    }
}

impl Endpoint<Server> {
    /// A server's endpoint without connections. Nothing is bound.
    pub fn server(alloc: Global, config: ServerConfig) -> Endpoint<Server>
        ensures config { result.marker.config ≡ config }
        ensures turns { StandsFor sides.Server result.connections [] }
    {
        Endpoint {
            marker: Server { config },
            connections: Connections::new(alloc),
        }
    }

    /// Accepts the next connection that was established, in the order in which they were; None exactly once the endpoint
    /// is closed, Pending where each established one was accepted.
    pub fn accept(&mut self) -> Option<Poll<u32>>
        ensures answer { (all : List EndpointTurn) → StandsFor sides.Server self.old.connections all
            → result ≡ accept_answer (endpoint_history sides.Server all) }
        ensures established { (all : List EndpointTurn) (n : ℕ) → StandsFor sides.Server self.old.connections all
            → result ≡ Some (Poll.Ready n) → IsTrue (begin_established (own_turns sides.Server n all)) }
        ensures turns { (all : List EndpointTurn) → StandsFor sides.Server self.old.connections all
            → StandsFor sides.Server self.new.connections (all ++ EndpointTurn.Accept ∷ []) }
        ensures marker { self.new.marker ≡ self.old.marker }
    {
        self.connections.accept()
    }

    /// Keeps another configuration for later connections. The new bind address has no effect.
    pub fn reload_config(&mut self, config: ServerConfig)
        ensures config { self.new.marker.config ≡ config }
        ensures connections { self.new.connections ≡ self.old.connections }
    {
        self.marker = Server { config };
    }

    /// The configuration of later connections.
    pub fn config(&self) -> &ServerConfig
        ensures { result.now ≡ self.now.marker.config }
    {
        &self.marker.config
    }
}

impl Endpoint<Client> {
    /// A client's endpoint without connections. Nothing is bound, and no call of it reads the configuration, which is spent:
    /// the answer of its resolver is handed to each connect.
    pub fn client(alloc: Global, _config: ClientConfig) -> Endpoint<Client>
        ensures { StandsFor sides.Client result.connections [] }
    {
        Endpoint {
            marker: Client,
            connections: Connections::new(alloc),
        }
    }

    /// Whether a connect with this outcome may begin a connection: the endpoint isn't closed, or the outcome is that it
    /// is stopping, and there are fewer than 2^32 connections.
    pub fn may_connect(&self, outcome: &ConnectOutcome) -> bool
        ensures state { result ≡ may_connect self.now.connections outcome.now }
        ensures turns { (all : List EndpointTurn) → StandsFor sides.Client self.now.connections all
            → result ≡ may_connect_next (endpoint_history sides.Client all) outcome.now }
    {
        self.connections.may_connect(outcome)
    }

    /// Begins the next connection: its number, and the connect's answer, which is that of a connection by itself
    /// (`apart`).
    ///
    /// # Errors
    ///
    /// `OutOfMemory` may come at any connect.
    pub fn connect(
        &mut self,
        options: ConnectOptions,
        lookup: Lookup,
        outcome: ConnectOutcome,
    ) -> Result<(u32, Answer), OutOfMemory>
        requires { IsTrue (may_connect self.old.connections outcome) }
        ensures number { IfOk result (λ given. given.0 ≡ length self.old.connections.cores) }
        ensures apart { (all : List EndpointTurn) → StandsFor sides.Client self.old.connections all
            → IfOk result (λ given. given.1 ≡ answer_to sides.Client [] (turns.Call (calls.Connect (options.url, options.headers) lookup outcome))) }
        ensures turns { (all : List EndpointTurn) → StandsFor sides.Client self.old.connections all
            → IfOk result (λ given. StandsFor sides.Client self.new.connections
            (all ++ EndpointTurn.Connection given.0 (turns.Call (calls.Connect (options.url, options.headers) lookup outcome)) ∷ [])) }
        ensures marker { self.new.marker ≡ self.old.marker }
    {
        let number = self.connections.count() as u32;
        let options = options.into_parts();
        let turn = Turn::Call(Call::Connect {
            options,
            lookup,
            outcome,
        });
        let answer = self.connections.turn(Side::Client, number, &turn)?;
        Ok((number, answer))
    }
}

/// A wait's answer while this many connections are established and open.
fn idle_poll(count: usize) -> Poll<()>
    ensures { result ≡ idle_poll count }
{
    if count == 0 {
        return Poll::Ready(());
    }
    Poll::Pending
}
