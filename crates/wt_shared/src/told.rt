//! What a handle is told of a turn.
use wt_turn::{Answer, Turn};

/// A turn and its answer.
#[derive(Debug, Drop)]
pub struct Told {
    /// Where the two stand in the connection's history, counted from 0.
    pub place: u64,
    pub turn: Turn,
    pub answer: Answer,
}
