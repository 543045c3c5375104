//! What happens to an endpoint, and what it replies.
ghost use Rattle.std.specs.Prelude.{◌≡◌, ◌++◌, ◌∷◌, [], OnErr, OnOk};

use std::alloc::Global;
use std::marker::Model;
use wt_turn::piece::Piece;
use wt_turn::{Answer, Turn};
use wt_wire::error::OutOfMemory;
use wt_wire::varint::VarInt;

/// What happens to an endpoint.
#[derive(Debug, Drop)]
pub enum EndpointTurn {
    /// A turn of the connection with this number.
    Connection { number: u32, turn: Turn },
    /// Asks for the next connection that was established and not yet accepted.
    Accept,
    /// Closes the endpoint, and each connection that is open with this code and reason.
    Close { code: VarInt, reason: Piece },
    /// Asks whether no connection is established and open.
    WaitIdle,
    /// Asks how many connections are established and open.
    OpenConnections,
}

/// What an endpoint replies.
#[derive(Debug, Drop)]
pub enum EndpointReply {
    /// The connection's answer.
    Turn(Answer),
    /// The connection with this number is accepted.
    Incoming(u32),
    /// The endpoint is closed: no connection is accepted any more.
    NoMore,
    /// Nothing to accept is there yet, or a connection is still established and open.
    Pending,
    /// No connection is established and open.
    Done,
    /// This many connections are established and open.
    Count(u64),
    /// The answers of the connections that the close ended.
    Closed(Closings),
}

/// The answers of the connections that a close ended, each after its connection's number, the least number first.
/// Contracts see the list of these pairs.
#[derive(Debug, Drop)]
pub struct Closings {
    pairs: Vec<(u32, Answer)>,
}

impl Model for Closings {
    ghost use Rattle.std.specs.Prelude.{List, ℕ};
    ghost use Rattle.wt_turn.specs.declared.answer.Answer.{Answer};

    ghost Value = { List (ℕ × Answer) };

    ghost view = { λ c. c.pairs.items };
}

impl Closings {
    /// The empty list.
    pub fn new(alloc: Global) -> Closings
        ensures { result ≡ [] }
    {
        Closings {
            pairs: Vec::new(alloc),
        }
    }

    /// Adds a connection's answer at the end. Where no memory is there for it, nothing changes.
    pub fn push(&mut self, number: u32, answer: Answer) -> Result<(), OutOfMemory>
        ensures ok { OnOk result (self.new ≡ self.old ++ (number, answer) ∷ []) }
        ensures err { OnErr result (self.new ≡ self.old) }
    {
        self.pairs.push((number, answer))?;
        Ok(())
    }

    /// The pairs as a slice.
    pub fn as_slice(&self) -> &[(u32, Answer)]
        ensures { result.now ≡ self.now }
    {
        self.pairs.as_slice()
    }
}

/// The replies to an endpoint's turns, one a turn. Contracts see the list of them.
#[derive(Debug, Drop)]
pub struct EndpointAnswers {
    replies: Vec<EndpointReply>,
}

impl Model for EndpointAnswers {
    ghost use Rattle.std.specs.Prelude.{List};
    ghost use Rattle.wt_endpoint.specs.declared.turn.EndpointReply.{EndpointReply};

    ghost Value = { List EndpointReply };

    ghost view = { λ a. a.replies.items };
}

impl EndpointAnswers {
    /// The empty list.
    pub fn new(alloc: Global) -> EndpointAnswers
        ensures { result ≡ [] }
    {
        EndpointAnswers {
            replies: Vec::new(alloc),
        }
    }

    /// Adds a reply at the end. Where no memory is there for it, nothing changes.
    pub fn push(&mut self, reply: EndpointReply) -> Result<(), OutOfMemory>
        ensures ok { OnOk result (self.new ≡ self.old ++ reply ∷ []) }
        ensures err { OnErr result (self.new ≡ self.old) }
    {
        self.replies.push(reply)?;
        Ok(())
    }

    /// The replies as a slice.
    pub fn as_slice(&self) -> &[EndpointReply]
        ensures { result.now ≡ self.now }
    {
        self.replies.as_slice()
    }
}
