//! A whole list of turns.
ghost use Rattle.std.specs.Prelude.{IfOk};
ghost use Rattle.wt_relay.specs.Run.{IsRelayRun};

use crate::answers::RelayAnswers;
use crate::relay::{Relay, RelayError};
use std::alloc::Global;
use wt_turn::Turn;
use wt_wire::error::OutOfMemory;

/// The answers of each turn, and where the turns stop being lawful.
#[derive(Debug, Drop)]
pub struct RelayRun {
    /// The answers, one list a turn.
    pub answers: Vec<RelayAnswers>,
    /// The first turn, counted from 0, that is no lawful transport turn.
    pub unlawful: Option<u64>,
}

/// The answers of a new relay to these turns, each of the connection with the number before it, or to those before the first that is
/// no lawful transport turn. Each connection is answered what its own turns mean, whatever happens on the others.
///
/// # Errors
///
/// `OutOfMemory` may come at any turn.
pub fn run_relay(alloc: Global, turns: &[(u32, Turn)]) -> Result<RelayRun, OutOfMemory>
    ensures { IfOk result (λ run. IsRelayRun turns.now run.answers.items run.unlawful) }
{
    let mut relay = Relay::new(alloc);
    let mut answers = Vec::new(alloc);
    for (index, pair) in turns.iter().enumerate() {
        match relay.turn(pair.0, &pair.1) {
            Ok(more) => answers.push(more)?,
            Err(RelayError::OutOfMemory) => return Err(OutOfMemory),
            Err(RelayError::Unlawful) => {
                let unlawful = Some(index as u64);
                return Ok(RelayRun { answers, unlawful });
            }
        }
    }
    let unlawful = None;
    Ok(RelayRun { answers, unlawful })
}
