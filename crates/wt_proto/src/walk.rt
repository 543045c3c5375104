//! What the front of a run of items does to a walk over them, and what a walk is.
ghost use Rattle.std.specs.Prelude.{◌≡◌, ◌+◌, ℕ, Bool, List, IfOk, IsOk};
ghost use Rattle.wt_wire.specs.declared.side.StreamEnd.{StreamEnd};
ghost use Rattle.wt_proto.specs.declared.walk.Step.{Step};

use std::alloc::Global;
use wt_wire::error::OutOfMemory;
use wt_wire::side::StreamEnd;

/// The item at the front. A size counts the bytes of the whole item, of which not all need be there.
#[derive(Clone, Copy, Debug, PartialEq, Eq, Drop)]
pub enum Step<S, O> {
    /// The bytes end before anything is decided.
    Cut,
    /// After the item the walk goes on in this state.
    Goes(S, u64),
    /// With the item's last byte the walk stops with this outcome.
    Stops(O, u64),
}

/// A walk over the items of a stream, one after the other, up to the one that stops it. What an
/// item does is decided by the state that the items before it left and by the item's own bytes
/// alone.
pub trait Walk {
    /// What the items before leave.
    type State: Drop;
    /// What the walk is for.
    type Outcome: Drop;

    // the state in front of the first item
    ghost start_state: { Self.State };

    // what the item at the front does
    ghost decides: { Self.State → List ℕ → Step Self.State Self.Outcome };

    // how many bytes there have to be at least before anything is decided
    ghost wants: { List ℕ → ℕ };

    // the outcome where no item stopped the walk: by the end, the state, and whether the bytes end between two items
    ghost unfinished_at: { StreamEnd → Self.State → Bool → Self.Outcome };

    // whether an outcome is final: no byte is taken after it
    ghost is_final_outcome: { Self.Outcome → Bool };

    // the outcome of all bytes and the end
    ghost outcome_of: { List ℕ → StreamEnd → Self.Outcome };

    // what shows that a step takes no memory, if anything does
    ghost never_fails: { Type 0 } = { ⊥ };

    /// The state in front of the first item.
    fn start() -> Self::State
        ensures { result ≡ start_state };

    /// What the item at the front does.
    fn step(
        alloc: Global,
        state: &Self::State,
        bytes: &[u8],
    ) -> Result<Step<Self::State, Self::Outcome>, OutOfMemory>
        ensures step { IfOk result (λ step. step ≡ decides state.now bytes.now) }
        ensures never { never_fails → IsOk result };

    /// How many bytes there have to be at least before anything is decided.
    fn wanted(bytes: &[u8]) -> usize
        ensures { result ≡ wants bytes.now };

    /// The outcome where no item stopped the walk.
    fn unfinished(
        alloc: Global,
        end: StreamEnd,
        state: &Self::State,
        between: bool,
    ) -> Self::Outcome
        ensures { result ≡ unfinished_at end state.now between };

    /// Whether the outcome is final, so that no byte is taken after it.
    fn is_final(outcome: &Self::Outcome) -> bool
        ensures { result ≡ is_final_outcome outcome.now };
}

/// The offset after an item. One above 2^64 - 1 is more than any memory counts.
pub(crate) fn after_item(offset: u64, size: u64) -> Result<u64, OutOfMemory>
    ensures { IfOk result (λ next_offset. next_offset ≡ offset + size) }
{
    offset.checked_add(size).ok_or(OutOfMemory)
}
