//! The end of a shared connection: what its handles were told, compared with its history.
ghost use Rattle.std.specs.Prelude.{◌≡◌, ◌↔◌, All, IfOk, IsPermutation, IsTrue, List, MatchOption, OnOk, length};
ghost use Rattle.std.specs.List.Sorted.{IsNonDecreasingBy};
ghost use Rattle.wt_turn.specs.Turns.{is_call};
ghost use Rattle.wt_shared.specs.Closing.{Ascends, CallDiffers, FallsIn, IsClosed, IsDisordered, StandsIn, calls_in, entries_of};
ghost use Rattle.wt_shared.specs.Stored.{told_at};
ghost use Rattle.wt_shared.specs.declared.told.Told.{Told};

use crate::connection::Connection;
use crate::history::History;
use crate::kept::Kept;
use crate::told::Told;
use std::alloc::Global;
use thiserror::Error;
use wt_turn::{Answer, Turn};
use wt_wire::error::OutOfMemory;

/// How what the handles were told differs from the calls of the history after its first turn.
#[derive(Debug, Drop, Error)]
pub enum CloseError {
    /// In number: the history has `kept` calls, and the handles have `told` entries.
    #[error("{kept} calls were made and {told} were answered")]
    Missing {
        kept: u64,
        told: u64,
    },
    /// In one handle's order: it was told the turn at the place `after` next after that at `before`, which isn't below it.
    #[error("turn {after} was answered after turn {before}")]
    Disordered {
        before: u64,
        after: u64,
    },
    /// In order of place, at one position: the history's call there, which has this place, was answered `kept`, and the
    /// handles' entry there has the answer `told`. The two differ in place, turn or answer.
    #[error("turn {place} was answered otherwise")]
    Differs {
        place: u64,
        kept: Answer,
        told: Answer,
    },
}

/// The history of the connection, where the handles' entries are its calls after the first turn, each once. Then each entry
/// stands in the history at its place, and those of one handle stand there in the order in which it was told them.
///
/// # Errors
///
/// `OutOfMemory`; and within, how the two differ: in number, else in the order of one handle, else at one position.
#[tactic(auto, using(crate::proofs::PlaceLaws::closed_stands))]
pub fn close_shared(
    alloc: Global,
    kept: &Kept,
    handles: Vec<Connection>,
) -> Result<Result<History, CloseError>, OutOfMemory>
    ensures closed { IfOk result (IsClosed kept.now.history handles.items) }
    ensures places { IfOk result (λ closed. OnOk closed (All (All (StandsIn kept.now.history)) handles.items)) }
{
    let history = kept.history();
    let disorder = first_disorder(handles.as_slice());
    let entries = gathered(alloc, handles)?;
    compared(history, disorder, entries)
}

/// The history, compared with the entries of handles, of which the first disorder was looked for.
fn compared(
    history: &History,
    disorder: Option<(u64, u64)>,
    entries: Vec<Told>,
) -> Result<Result<History, CloseError>, OutOfMemory>
    ensures { (handles : List (List Told)) → MatchOption disorder (All Ascends handles) (λ places. IsDisordered handles places.0 places.1)
        → entries.items ≡ entries_of handles → IfOk result (IsClosed history.now handles) }
{
    let calls = count_calls(history.as_slice());
    let told = entries.len() as u64;
    if calls != told {
        return Ok(Err(CloseError::Missing { kept: calls, told }));
    }
    if let Some((before, after)) = disorder {
        return Ok(Err(CloseError::Disordered { before, after }));
    }
    let entries = by_place(entries)?;
    match first_difference(history.as_slice(), entries.as_slice())? {
        Some((place, kept, told)) => Ok(Err(CloseError::Differs { place, kept, told })),
        None => Ok(Ok(history.copy()?)),
    }
}

/// The entries of all handles, those of one after those of another.
fn gathered(alloc: Global, handles: Vec<Connection>) -> Result<Vec<Told>, OutOfMemory>
    ensures { IfOk result (λ entries. entries.items ≡ entries_of handles.items) }
{
    let mut entries = Vec::new(alloc);
    for handle in handles {
        let mut told = handle.into_told();
        entries.append(&mut told)?;
    }
    Ok(entries)
}

/// The entries in order of place.
fn by_place(mut entries: Vec<Told>) -> Result<Vec<Told>, OutOfMemory>
    ensures same { IfOk result (λ sorted. IsPermutation entries.items sorted.items) }
    ensures order { IfOk result (λ sorted. IsNonDecreasingBy (λ (t : Told). t.place) sorted.items) }
{
    entries.sort_by_key(|entry| entry.place)?;
    Ok(entries)
}

/// The places of the first entry of any handle that isn't above the one before it, that one's place first.
fn first_disorder(handles: &[Connection]) -> Option<(u64, u64)>
    ensures { MatchOption result (All Ascends handles.now) (λ places. IsDisordered handles.now places.0 places.1) }
{
    for handle in handles {
        let falls = first_fall(handle.told());
        if falls.is_some() {
            return falls;
        }
    }
    None
}

/// The same among the entries of one handle.
fn first_fall(entries: &[Told]) -> Option<(u64, u64)>
    ensures { MatchOption result (Ascends entries.now) (λ places. FallsIn entries.now places.0 places.1) }
{
    for index in 1..entries.len() {
        let before = entries[index - 1].place;
        let after = entries[index].place;
        if after <= before {
            return Some((before, after));
        }
    }
    None
}

fn is_call_turn(turn: &Turn) -> bool
    ensures { result ≡ is_call turn.now }
{
    matches!(turn, Turn::Call(_))
}

/// How many turns after the first are calls.
fn count_calls(history: &[(Turn, Answer)]) -> u64
    ensures { result ≡ length (calls_in history.now) }
{
    let mut count = 0;
    for index in 1..history.len() {
        if is_call_turn(&history[index].0) {
            count += 1;
        }
    }
    count
}

/// Whether the entry is the turn with its answer that stands at this place.
fn is_told(place: u64, pair: &(Turn, Answer), entry: &Told) -> bool
    ensures { IsTrue result ↔ (told_at place pair.now.0 pair.now.1 ≡ entry.now) }
{
    place == entry.place && pair.0.is_equal(&entry.turn) && pair.1.is_equal(&entry.answer)
}

/// The first call of the history that isn't the entry at its position: its place, its answer and the entry's.
fn first_difference(
    history: &[(Turn, Answer)],
    entries: &[Told],
) -> Result<Option<(u64, Answer, Answer)>, OutOfMemory>
    requires { length entries.now ≡ length (calls_in history.now) }
    ensures { IfOk result (λ r. MatchOption r (entries.now ≡ calls_in history.now) (λ d. CallDiffers history.now entries.now d.0 d.1 d.2)) }
{
    let mut next = 0;
    for index in 1..history.len() {
        let pair = &history[index];
        if is_call_turn(&pair.0) {
            let entry = &entries[next];
            if !is_told(index as u64, pair, entry) {
                return Ok(Some((index as u64, pair.1.copy()?, entry.answer.copy()?)));
            }
            next += 1;
        }
    }
    Ok(None)
}
