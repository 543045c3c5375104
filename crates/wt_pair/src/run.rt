//! A whole list of events.
ghost use Rattle.wt_pair.specs.Claims.{EachMeans, NothingHeldBack, ReadIsWritten, ReceivedAsSent, told};
ghost use Rattle.wt_pair.specs.Keeping.{IsPairRun, KeepsPair, OfAnswers};
ghost use Rattle.wt_pair.specs.Pair.{at_first, run_pair};

use crate::answer::PairAnswers;
use crate::event::{PairEvent, PairFacts};
use crate::pair::Pair;
use std::alloc::Global;
use thiserror::Error;
use wt_wire::error::OutOfMemory;

/// Why a list of events has no answer to each.
#[derive(Debug, Drop, Error)]
pub enum PairError {
    /// The event of this index, counted from 0, is the first that doesn't fit; those before it have these answers.
    #[error("event {at} refused")]
    Refused { at: u64, answers: PairAnswers },
    /// Out of memory.
    #[error("out of memory")]
    OutOfMemory,
}

impl From<OutOfMemory> for PairError {
    ghost use Rattle.std.specs.Prelude.{◌≡◌};
    ghost use Rattle.wt_pair.specs.declared.run.PairError.TheVariants as errors;

    ghost from_gives = { λ _ error. error ≡ errors.OutOfMemory };

    fn from(_error: OutOfMemory) -> PairError {
        PairError::OutOfMemory
    }
}

/// The answers to the events at a client's end and a server's, over a link, the first event first; or to those before the first that
/// doesn't fit.
///
/// # Errors
///
/// `Refused` at the first event that doesn't fit: a call or a turn of more credit that isn't lawful at its end, a delivery of what doesn't
/// wait or must wait on, the loss of what is no datagram. `OutOfMemory`, of which nothing is said.
pub fn run_pair(
    alloc: Global,
    facts: PairFacts,
    events: &[PairEvent],
) -> Result<PairAnswers, PairError>
    ensures run { IsPairRun facts events.now result }
    ensures read { OfAnswers (λ answers. ReadIsWritten (told facts events.now answers)) result }
    ensures received { OfAnswers (λ answers. ReceivedAsSent (told facts events.now answers)) result }
    ensures means { OfAnswers (λ answers. EachMeans facts events.now answers) result }
    ensures whole { OfAnswers (λ answers. NothingHeldBack (run_pair facts events.now).ends (told facts events.now answers)) result }
{
    let mut pair = Pair::new(alloc, facts);
    run_on(alloc, &mut pair, events)
}

/// The answers of two ends that took no turn yet.
fn run_on(alloc: Global, pair: &mut Pair, events: &[PairEvent]) -> Result<PairAnswers, PairError>
    requires { KeepsPair pair.old.facts pair.old at_first }
    ensures { IsPairRun pair.old.facts events.now result }
{
    let mut answers = PairAnswers::new(alloc);
    for (index, event) in events.iter().enumerate() {
        let at = index as u64;
        match pair.step(event)? {
            Some(answer) => answers.push(answer)?,
            None => return Err(PairError::Refused { at, answers }),
        }
    }
    Ok(answers)
}
