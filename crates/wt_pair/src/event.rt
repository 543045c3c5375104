//! What happens to two ends that a link joins.
ghost use Rattle.std.specs.Prelude.{◌≡◌};
ghost use Rattle.wt_pair.specs.Pair.{end_of_event};

use wt_turn::datagram_fact::DatagramFact;
use wt_turn::{Call, Turn};
use wt_wire::side::Side;

/// What each end's `Connected` brings.
#[derive(Clone, Copy, PartialEq, Eq, Debug)]
pub struct PairFacts {
    /// How many unidirectional streams each end may open.
    pub uni: u64,
    /// How many bidirectional streams each end may open.
    pub bi: u64,
    /// How many bytes each end may send on each stream.
    pub credit: u64,
    /// What each end's transport reports about datagrams.
    pub datagrams: DatagramFact,
}

/// One thing that happens to two ends.
#[derive(Debug, Drop)]
pub enum PairEvent {
    /// The application at this end calls.
    Call { end: Side, call: Call },
    /// What waits for this end at this place, counted from 0, is delivered: of a piece of a stream this many bytes from its front, of
    /// everything else 0.
    Deliver { to: Side, place: u64, bytes: u64 },
    /// The datagram that waits for this end at this place, counted from 0, is lost.
    Lose { to: Side, place: u64 },
    /// This end may open or send more: its transport reports a `MaxUni`, a `MaxBi` or a `MaxData`.
    Credit { to: Side, turn: Turn },
}

impl PairEvent {
    /// The end at which it happens.
    pub fn end(&self) -> Side
        ensures { result ≡ end_of_event self.now }
    {
        match self {
            PairEvent::Call { end, .. } => *end,
            PairEvent::Deliver { to, .. } => *to,
            PairEvent::Lose { to, .. } => *to,
            PairEvent::Credit { to, .. } => *to,
        }
    }
}
