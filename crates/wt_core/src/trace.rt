//! A whole list of turns.
ghost use Rattle.std.specs.Prelude.{[], ◌≡◌, IfOk};
ghost use Rattle.wt_core.specs.CoreState.{KeepsHistory};
ghost use Rattle.wt_core.specs.Running.{IsRun};

use crate::machine::Core;
use std::alloc::Global;
use thiserror::Error;
use wt_turn::Turn;
use wt_turn::answer::Answers;
use wt_wire::error::OutOfMemory;
use wt_wire::side::Side;

/// Why a list of turns has no answer to each.
#[derive(Debug, Drop, Error)]
pub enum TraceError {
    /// The turn of this index, counted from 0, isn't lawful after those before it, which have these
    /// answers.
    #[error("turn {at} unlawful")]
    Unlawful { at: u64, answers: Answers },
    /// Out of memory.
    #[error("out of memory")]
    OutOfMemory,
}

impl From<OutOfMemory> for TraceError {
    ghost use Rattle.std.specs.Prelude.{◌≡◌};
    ghost use Rattle.wt_core.specs.declared.trace.TraceError.TheVariants as errors;

    ghost from_gives = { λ _ error. error ≡ errors.OutOfMemory };

    fn from(_error: OutOfMemory) -> TraceError {
        TraceError::OutOfMemory
    }
}

/// The answers to a connection's turns, the first turn first, or to those before the first that isn't
/// lawful: they are what these turns mean (`run` of wt_meaning, of which wt_promise says what it keeps).
///
/// # Errors
///
/// `Unlawful` where a turn isn't lawful after those before it, and `OutOfMemory`, of which nothing is said.
pub fn run_trace(alloc: Global, side: Side, turns: &[Turn]) -> Result<Answers, TraceError>
    ensures { IsRun side turns.now result }
{
    let mut core = Core::new(alloc, side);
    run_on(alloc, side, &mut core, turns)
}

/// No answer yet, and room for this many.
fn no_answers(alloc: Global, count: usize) -> Result<Answers, OutOfMemory>
    ensures { IfOk result (λ answers. answers ≡ []) }
{
    Ok(Answers::from_vec(Vec::with_capacity(alloc, count)?))
}

/// The answers of a core of this side, which took no turn yet.
fn run_on(
    alloc: Global,
    _side: Side,
    core: &mut Core,
    turns: &[Turn],
) -> Result<Answers, TraceError>
    requires { KeepsHistory _side core.old [] }
    ensures { IsRun _side turns.now result }
{
    let mut answers = no_answers(alloc, turns.len())?;
    for (index, turn) in turns.iter().enumerate() {
        let at = index as u64;
        if !core.is_lawful(turn) {
            return Err(TraceError::Unlawful { at, answers });
        }
        let answer = core.turn(turn)?;
        answers.push(answer)?;
    }
    Ok(answers)
}
