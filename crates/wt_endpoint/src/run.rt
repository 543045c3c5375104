//! A whole list of an endpoint's turns.
ghost use Rattle.std.specs.Prelude.{◌≡◌, [], IfErr, IfOk, IsTrue, OnOk};
ghost use Rattle.wt_endpoint.specs.Connections.{Refines, StandsFor, may_take_turn};
ghost use Rattle.wt_endpoint.specs.Endpoints.{AllMayCome, EndpointHistory, accept_reply, endpoint_after, endpoint_reply, idle_reply, may_come_next, no_connections};
ghost use Rattle.wt_endpoint.specs.Isolation.{AreApart};
ghost use Rattle.wt_endpoint.specs.Run.{IsEndpointTrace, OfAnswered};

use crate::connections::Connections;
use crate::endpoint::Endpoint;
use crate::turn::{EndpointAnswers, EndpointReply, EndpointTurn};
use std::alloc::Global;
use thiserror::Error;
use wt_config::{ClientConfig, Opaque, ServerConfig};
use wt_turn::poll::Poll;
use wt_wire::error::OutOfMemory;
use wt_wire::side::Side;

/// Why a list of an endpoint's turns has no reply to each.
#[derive(Debug, Drop, Error)]
pub enum EndpointError {
    /// The turn of this index, counted from 0, may not come after those before it, which have these replies.
    #[error("turn {at} unlawful")]
    Unlawful { at: u64, answers: EndpointAnswers },
    /// Out of memory.
    #[error("out of memory")]
    OutOfMemory,
}

impl From<OutOfMemory> for EndpointError {
    ghost use Rattle.wt_endpoint.specs.declared.run.EndpointError.TheVariants as errors;

    ghost from_gives = { λ _ error. error ≡ errors.OutOfMemory };

    fn from(_error: OutOfMemory) -> EndpointError {
        EndpointError::OutOfMemory
    }
}

/// The replies to an endpoint's turns, the first turn first, or to those before the first that may not come.
///
/// `trace` says them whole, and `complete` that a list each of whose turns may come is answered to its end. By `apart` each
/// connection's answers are those to its own turns alone, and these are lawful, so that what is true of every run of a
/// connection is true of each connection here.
///
/// # Errors
///
/// `Unlawful` exactly where a turn may not come, the first such turn; `OutOfMemory` may come at any turn.
pub fn run_endpoint(
    alloc: Global,
    side: Side,
    turns: &[EndpointTurn],
) -> Result<EndpointAnswers, EndpointError>
    ensures trace { IsEndpointTrace side turns.now result }
    ensures complete { AllMayCome side no_connections turns.now → IfErr result (λ error. error ≡ EndpointError.OutOfMemory) }
    ensures apart { OfAnswered (AreApart side) turns.now result }
{
    let mut connections = new_connections(alloc, side);
    run_on(alloc, side, &mut connections, turns)
}

/// The connections of a new endpoint, of which there are none: a server's that is bound to any address, with the identity 0,
/// or a client's of the default configuration.
fn new_connections(alloc: Global, side: Side) -> Connections
    ensures { StandsFor side result [] }
{
    match side {
        Side::Server => {
            let config = ServerConfig::builder()
                .with_bind_default(0)
                .with_identity(Opaque(0))
                .build();
            Endpoint::server(alloc, config).into_connections()
        }
        Side::Client => Endpoint::client(alloc, ClientConfig::default()).into_connections(),
    }
}

/// The replies of connections that took no turn yet.
fn run_on(
    alloc: Global,
    side: Side,
    connections: &mut Connections,
    turns: &[EndpointTurn],
) -> Result<EndpointAnswers, EndpointError>
    requires { StandsFor side connections.old [] }
    ensures trace { IsEndpointTrace side turns.now result }
{
    let mut answers = EndpointAnswers::new(alloc);
    for (index, turn) in turns.iter().enumerate() {
        let at = index as u64;
        if !may_come(connections, side, turn) {
            return Err(EndpointError::Unlawful { at, answers });
        }
        let reply = step(connections, side, turn)?;
        answers.push(reply)?;
    }
    Ok(answers)
}

/// Whether the turn may come next.
fn may_come(connections: &Connections, side: Side, turn: &EndpointTurn) -> bool
    ensures state { IsTrue result → IsTrue (may_take_turn side connections.now turn.now) }
    ensures history { (e : EndpointHistory) → Refines side connections.now e → result ≡ may_come_next side e turn.now }
{
    match turn {
        EndpointTurn::Connection { number, turn } => connections.is_lawful(side, *number, turn),
        EndpointTurn::Accept => matches!(side, Side::Server),
        EndpointTurn::Close { .. } | EndpointTurn::WaitIdle | EndpointTurn::OpenConnections => true,
    }
}

/// The reply to a turn that may come.
fn step(
    connections: &mut Connections,
    side: Side,
    turn: &EndpointTurn,
) -> Result<EndpointReply, OutOfMemory>
    requires { IsTrue (may_take_turn side connections.old turn.now) }
    ensures reply { (e : EndpointHistory) → Refines side connections.old e → IfOk result (λ reply. reply ≡ endpoint_reply side e turn.now) }
    ensures history { (e : EndpointHistory) → Refines side connections.old e → OnOk result (Refines side connections.new (endpoint_after side e turn.now)) }
{
    match turn {
        EndpointTurn::Connection { number, turn } => {
            let answer = connections.turn(side, *number, turn)?;
            Ok(EndpointReply::Turn(answer))
        }
        EndpointTurn::Accept => Ok(accept_reply(connections.accept())),
        EndpointTurn::Close { code, reason } => {
            let closings = connections.close(side, *code, reason.as_slice())?;
            Ok(EndpointReply::Closed(closings))
        }
        EndpointTurn::WaitIdle => Ok(idle_reply(connections.open_connections())),
        EndpointTurn::OpenConnections => {
            Ok(EndpointReply::Count(connections.open_connections() as u64))
        }
    }
}

/// An accept's answer as the endpoint's reply.
fn accept_reply(answer: Option<Poll<u32>>) -> EndpointReply
    ensures { result ≡ accept_reply answer }
{
    match answer {
        None => EndpointReply::NoMore,
        Some(Poll::Ready(number)) => EndpointReply::Incoming(number),
        Some(Poll::Pending) => EndpointReply::Pending,
    }
}

/// A wait's answer while this many connections are established and open.
fn idle_reply(count: usize) -> EndpointReply
    ensures { result ≡ idle_reply count }
{
    if count == 0 {
        return EndpointReply::Done;
    }
    EndpointReply::Pending
}
