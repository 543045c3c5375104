//! What lies under the lock of a shared connection.
ghost use Rattle.std.specs.Prelude.{◌≡◌, ◌≢◌, ◌<◌, ◌^◌, ◌++◌, ◌∷◌, [], Err, IfOk, IsTrue, OnErr, OnOk, false, length, true};
ghost use Rattle.wt_meaning.specs.History as meanings;
ghost use Rattle.wt_meaning.specs.Lawful.{is_lawful};
ghost use Rattle.wt_meaning.specs.Meaning.{answer_to, history_after};
ghost use Rattle.wt_core.specs.CoreState.{KeepsHistory};
ghost use Rattle.wt_turn.specs.declared.call.Call.{Call};
ghost use Rattle.wt_wire.specs.declared.side.Side.{Side};
ghost use Rattle.wt_shared.specs.Calls.{may_come_later};
ghost use Rattle.wt_shared.specs.History.{Replays, changes_in};
ghost use Rattle.wt_shared.specs.Stored.{after_turn, may_come, next_told, nothing_stored, told_at};

use crate::history::History;
use crate::pending::changes_by;
use crate::told::Told;
use std::alloc::Global;
use std::marker::Model;
use thiserror::Error;
use wt_core::machine::Core;
use wt_turn::Turn;
use wt_wire::error::OutOfMemory;
use wt_wire::side::Side;

/// Why a turn has no answer.
#[derive(Clone, Copy, PartialEq, Eq, Debug, Error)]
pub enum StepError {
    /// The turn isn't lawful after the history. Nothing changed.
    #[error("turn unlawful")]
    Unlawful,
    /// Out of memory.
    #[error("out of memory")]
    OutOfMemory,
}

impl From<OutOfMemory> for StepError {
    ghost use Rattle.wt_shared.specs.declared.kept.StepError.TheVariants as errors;

    ghost from_gives = { λ _ error. error ≡ errors.OutOfMemory };

    fn from(_error: OutOfMemory) -> StepError {
        StepError::OutOfMemory
    }
}

/// A connection and its history, which has its first turn. Contracts see the side, the history, and whether a step ran out
/// of memory. Whoever holds the lock finds that the turns of the history replay to each of its answers and, unless a step
/// ran out of memory, lead to the core.
#[derive(Drop)]
pub struct Kept {
    alloc: Global,
    side: Side,
    core: Core,
    history: History,
    changes: u64,
    failed: bool,
}

impl Model for Kept {
    ghost use Rattle.wt_shared.specs.Stored.{ReplaysTo, Stored};

    ghost Value = { Stored };

    ghost view = { λ k. record { side = k.side; history = k.history; failed = k.failed } };

    ghost invariant = { λ k. ReplaysTo k.side k.core k.history k.changes k.failed };
}

impl Kept {
    /// A connection on this side that made its first turn, and what it reports of that turn.
    pub fn new(alloc: Global, side: Side, first: &Turn) -> Result<(Kept, Told), OutOfMemory>
        requires { is_lawful side [] first.now ≡ true }
        ensures kept { IfOk result (λ r. r.0 ≡ after_turn (nothing_stored side) first.now) }
        ensures told { IfOk result (λ r. r.1 ≡ next_told (nothing_stored side) first.now) }
    {
        let mut core = Core::new(alloc, side);
        let mut history = History::new(alloc);
        let told = advance(alloc, &mut core, &mut history, first)?;
        let changes = changes_by(&told.answer);
        let kept = Kept {
            alloc,
            side,
            core,
            history,
            changes,
            failed: false,
        };
        Ok((kept, told))
    }

    /// How many stored replies aren't Pending.
    pub fn changes(&self) -> u64
        ensures { result ≡ changes_in self.now.history }
    {
        self.changes
    }

    /// The history. Its turns are lawful, and each has its one answer: so all that `wt_promise` says of lawful turns holds of it.
    pub fn history(&self) -> &History
        ensures value { result.now ≡ self.now.history }
        ensures some { 0 < length self.now.history }
        ensures replays { Replays self.now.side self.now.history }
    {
        &self.history
    }

    /// Whether a step ran out of memory: then no later step is answered or stored.
    pub fn has_failed(&self) -> bool
        ensures { result ≡ self.now.failed }
    {
        self.failed
    }

    /// Makes one turn, stores it with its answer, and returns both with their place. Waits for nobody.
    ///
    /// # Errors
    ///
    /// `Unlawful` exactly where no step ran out of memory before and the turn isn't lawful after the history, so never for a
    /// call on a session, on a stream or by the endpoint; `OutOfMemory`, and from then on at each step.
    pub fn step(&mut self, turn: &Turn) -> Result<Told, StepError>
        ensures told { IfOk result (λ told. told ≡ next_told self.old turn.now) }
        ensures stored { OnOk result (self.new ≡ after_turn self.old turn.now) }
        ensures lawful { OnOk result (may_come self.old turn.now ≡ true) }
        ensures unlawful { result ≡ Err StepError.Unlawful → (self.old.failed ≡ false) × (may_come self.old turn.now ≡ false) }
        ensures refused { self.old.failed ≡ false → may_come self.old turn.now ≡ false → result ≡ Err StepError.Unlawful }
        ensures same { result ≡ Err StepError.Unlawful → self.new ≡ self.old }
        ensures later { (call : Call) → turn.now ≡ Turn.Call call → IsTrue (may_come_later call) → result ≢ Err StepError.Unlawful }
        ensures failed { IsTrue self.old.failed → result ≡ Err StepError.OutOfMemory }
        ensures fails { result ≡ Err StepError.OutOfMemory → self.new ≡ record self.old { failed = true } }
    {
        if self.failed {
            return Err(StepError::OutOfMemory);
        }
        if !self.is_lawful(turn) {
            return Err(StepError::Unlawful);
        }
        match self.advance(turn) {
            Ok(told) => Ok(told),
            Err(_) => Err(StepError::OutOfMemory),
        }
    }

    /// Whether the turn is lawful after the history.
    fn is_lawful(&self, turn: &Turn) -> bool
        requires { self.now.failed ≡ false }
        ensures { result ≡ may_come self.now turn.now }
    {
        self.core.is_lawful(turn)
    }

    /// Makes a lawful turn.
    fn advance(&mut self, turn: &Turn) -> Result<Told, OutOfMemory>
        requires working { self.old.failed ≡ false }
        requires lawful { may_come self.old turn.now ≡ true }
        ensures told { IfOk result (λ told. told ≡ next_told self.old turn.now) }
        ensures stored { OnOk result (self.new ≡ after_turn self.old turn.now) }
        ensures fails { OnErr result (self.new ≡ record self.old { failed = true }) }
    {
        match advance(self.alloc, &mut self.core, &mut self.history, turn) {
            Ok(told) => {
                self.changes += changes_by(&told.answer);
                Ok(told)
            }
            Err(_) => {
                self.failed = true;
                Err(OutOfMemory)
            }
        }
    }
}

/// Makes a turn that may come, and adds it and its answer to the history. Where memory runs out the history is as before,
/// and nothing is known of the core.
fn advance(
    alloc: Global,
    core: &mut Core,
    history: &mut History,
    turn: &Turn,
) -> Result<Told, OutOfMemory>
    ensures told { IfOk result (λ told. told ≡ told_at (length history.old) turn.now told.answer) }
    ensures stored { IfOk result (λ told. history.new ≡ history.old ++ (turn.now, told.answer) ∷ []) }
    ensures answer { (side : Side) (h : meanings.History) → KeepsHistory side core.old h → is_lawful side h turn.now ≡ true → IfOk result (λ told. told.answer ≡ answer_to side h turn.now) }
    ensures core { (side : Side) (h : meanings.History) → KeepsHistory side core.old h → is_lawful side h turn.now ≡ true → OnOk result (KeepsHistory side core.new (history_after side h turn.now)) }
    ensures room { OnOk result (length history.new < 2 ^ 64) }
    ensures same { OnErr result (history.new ≡ history.old) }
{
    // What is told is copied before the core moves on, and the history's copies are made in one call: each way out of this
    // function drops what it owns, and more of them would outgrow the borrow checker's part of the proof.
    let shown = turn.copy(alloc)?;
    let answer = core.turn(turn)?;
    let place = history.push_copy(turn, &answer)?;
    Ok(Told {
        place,
        turn: shown,
        answer,
    })
}
