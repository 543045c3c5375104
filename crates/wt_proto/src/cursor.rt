//! How far a walk is, and how code goes over bytes.
ghost use Rattle.std.specs.Prelude.{◌≡◌, ◌≤◌, ◌<◌, ◌==◌, ◌&&◌, ◌-◌, ℕ, [], None, length, IfOk, OnErr, OnOk, IsOk, IsSome, Some, is_some, take, true, false};
ghost use Rattle.wt_proto.specs.Cursor.{IsPlaced, passed_outcome, progress_of, progress_passed};
ghost use Rattle.wt_proto.specs.WalkProgress.{Advances, AdvancesSome, IsProper, at_item, progress_past};
ghost use Rattle.wt_proto.specs.Steady.{IsAwaited, IsLawful, IsSteady, size_of_step};

use crate::walk::{Step, Walk};
use std::alloc::Global;
use wt_wire::error::OutOfMemory;
use wt_wire::side::StreamEnd;

/// Where a walk over whole bytes ended: what it stopped with after the bytes to skip, how many
/// these are, the offset of an item that isn't decided, and how many bytes were taken.
#[derive(Drop)]
pub(crate) struct PassedItems<O> {
    pub(crate) stop: Option<O>,
    pub(crate) skip: u64,
    pub(crate) rest: usize,
    pub(crate) consumed: usize,
}

impl<O> PassedItems<O> {
    /// Nothing stopped the walk.
    fn running(skip: u64, rest: usize, consumed: usize) -> PassedItems<O>
        ensures { result ≡ record { stop = None; skip = skip; rest = rest; consumed = consumed } }
    {
        PassedItems {
            stop: None,
            skip,
            rest,
            consumed,
        }
    }

    /// An item stopped it.
    fn stopped(outcome: O, skip: u64, consumed: usize) -> PassedItems<O>
        ensures { result ≡ record { stop = Some outcome; skip = skip; rest = consumed; consumed = consumed } }
    {
        PassedItems {
            stop: Some(outcome),
            skip,
            rest: consumed,
            consumed,
        }
    }
}

/// Goes over the items of the bytes, from this state to the one where they end, or up to the item
/// that stops the walk.
pub(crate) fn go_over<W: Walk>(
    alloc: Global,
    state: &mut W::State,
    bytes: &[u8],
) -> Result<PassedItems<W::Outcome>, OutOfMemory>
    requires { IsSteady W.decides }
    ensures advances { IfOk result (λ p. Advances W.decides (at_item state.old) (progress_passed state.new p bytes.now) bytes.now p.consumed) }
    ensures proper { IfOk result (λ p. IsProper W.decides (progress_passed state.new p bytes.now)) }
    ensures ordered { IfOk result (λ p. p.rest ≤ p.consumed) }
    ensures all { IfOk result (λ p. p.consumed < length bytes.now → (p.skip ≡ 0) × IsSome p.stop) }
    ensures some { IfOk result (λ p. 0 < length bytes.now → 1 ≤ p.consumed) }
    ensures rest { IfOk result (λ p. p.rest < p.consumed → Advances W.decides (at_item state.old) (at_item state.new) bytes.now p.rest) }
    ensures lost { OnErr result (AdvancesSome W.decides (at_item state.old) (at_item state.new) bytes.now) }
    ensures never { W.never_fails → IsOk result }
{
    let mut offset = 0;
    while offset < bytes.len() {
        let left = (bytes.len() - offset) as u64;
        match W::step(alloc, state, &bytes[offset..]) {
            Err(error) => return Err(error),
            // What is left of an item is kept by the caller, so every byte was taken.
            Ok(Step::Cut) => return Ok(PassedItems::running(0, offset, bytes.len())),
            Ok(Step::Goes(moved, size)) => {
                *state = moved;
                if left < size {
                    return Ok(PassedItems::running(size - left, bytes.len(), bytes.len()));
                }
                offset += size as usize;
            }
            Ok(Step::Stops(outcome, size)) => {
                let n = size.min(left);
                return Ok(PassedItems::stopped(outcome, size - n, offset + n as usize));
            }
        }
    }
    Ok(PassedItems::running(0, offset, offset))
}

/// The walk over whole bytes and the end.
pub(crate) fn walk_over<W: Walk>(
    alloc: Global,
    bytes: &[u8],
    end: StreamEnd,
) -> Result<W::Outcome, OutOfMemory>
    requires { IsLawful W.start_state W.decides W.wants W.unfinished_at W.is_final_outcome W.outcome_of }
    ensures outcome { IfOk result (λ outcome. outcome ≡ W.outcome_of bytes.now end) }
    ensures never { W.never_fails → IsOk result }
{
    let mut state = W::start();
    match go_over::<W>(alloc, &mut state, bytes) {
        Err(error) => Err(error),
        Ok(passed) => Ok(outcome_passed::<W>(alloc, end, &state, passed)),
    }
}

/// What the walk is that went over bytes.
fn outcome_passed<W: Walk>(
    alloc: Global,
    end: StreamEnd,
    state: &W::State,
    passed: PassedItems<W::Outcome>,
) -> W::Outcome
    requires { passed.rest ≤ passed.consumed }
    ensures { result ≡ passed_outcome W.unfinished_at end state.now passed }
{
    let PassedItems {
        stop,
        skip,
        rest,
        consumed,
    } = passed;
    match stop {
        // An outcome counts with the last byte of the item that decides it: until then the end may come
        // first.
        Some(outcome) if skip == 0 => outcome,
        _ => W::unfinished(alloc, end, state, skip == 0 && rest == consumed),
    }
}

/// What a reader keeps of a walk.
#[derive(Drop)]
pub(crate) struct Cursor<S, O> {
    pub(crate) state: S,
    pub(crate) stop: Option<O>,
    pub(crate) skip: u64,
    pub(crate) kept: Vec<u8>,
    pub(crate) wanted: usize,
}

impl<S, O> Cursor<S, O> {
    /// In front of an item.
    pub(crate) fn at_item(alloc: Global, state: S) -> Cursor<S, O>
        ensures progress { progress_of result ≡ at_item state }
        ensures wanted { result.wanted ≡ 0 }
    {
        Cursor {
            state,
            stop: None,
            skip: 0,
            kept: Vec::new(alloc),
            wanted: 0,
        }
    }

    /// Whether the walk stopped.
    pub(crate) fn is_over(&self) -> bool
        ensures { result ≡ (is_some self.now.stop && self.now.skip == 0) }
    {
        self.stop.is_some() && self.skip == 0
    }

    /// Whether it is between two items.
    pub(crate) fn is_between(&self) -> bool
        ensures { result ≡ (self.now.skip == 0 && length self.now.kept.items == 0) }
    {
        self.skip == 0 && self.kept.is_empty()
    }

    /// Drops an item of `size` bytes, of which those that are kept were taken.
    fn leave_item(&mut self, size: u64)
        requires { length self.old.kept.items ≤ size }
        ensures kept { self.new ≡ record self.old { skip = size - length self.old.kept.items; kept = self.new.kept } }
        ensures none { self.new.kept.items ≡ [] }
    {
        self.skip = size - self.kept.as_slice().len() as u64;
        self.kept.clear();
    }
}

fn skip_some<W: Walk>(cursor: &mut Cursor<W::State, W::Outcome>, piece: &[u8]) -> usize
    requires steady { IsSteady W.decides }
    requires placed { IsPlaced W.decides cursor.old }
    requires skips { 0 < cursor.old.skip }
    requires some { 0 < length piece.now }
    ensures advances { Advances W.decides (progress_of cursor.old) (progress_of cursor.new) piece.now result }
    ensures placed { IsPlaced W.decides cursor.new }
    ensures some { 1 ≤ result }
{
    let n = cursor.skip.min(piece.len() as u64);
    cursor.skip -= n;
    n as usize
}

/// Judges the bytes that are kept; where memory is short the first `had` of them stay.
fn decide_kept<W: Walk>(
    cursor: &mut Cursor<W::State, W::Outcome>,
    had: usize,
) -> Result<(), OutOfMemory>
    requires steady { IsSteady W.decides }
    requires awaited { IsAwaited W.decides W.wants }
    requires bare { (cursor.old.stop ≡ None) × (cursor.old.skip ≡ 0) }
    requires few { cursor.old.wanted ≤ 4112 }
    requires whole { (m : ℕ) → size_of_step (W.decides cursor.old.state cursor.old.kept.items) ≡ Some m → length cursor.old.kept.items ≤ m }
    ensures passed { OnOk result (progress_of cursor.new
        ≡ progress_past cursor.old.state (W.decides cursor.old.state cursor.old.kept.items) (length cursor.old.kept.items) cursor.old.kept.items) }
    ensures placed { OnOk result (IsPlaced W.decides cursor.new) }
    ensures lost { OnErr result (cursor.new ≡ record cursor.old { kept = cursor.new.kept }) }
    ensures back { OnErr result (cursor.new.kept.items ≡ take had cursor.old.kept.items) }
{
    let alloc = *cursor.kept.allocator();
    match W::step(alloc, &cursor.state, cursor.kept.as_slice()) {
        Err(error) => {
            // So that the reader stands where it stood, and may be fed the same bytes again.
            cursor.kept.truncate(had);
            return Err(error);
        }
        Ok(Step::Cut) => {
            cursor.wanted = W::wanted(cursor.kept.as_slice());
        }
        Ok(Step::Goes(moved, size)) => {
            cursor.state = moved;
            cursor.leave_item(size);
        }
        Ok(Step::Stops(outcome, size)) => {
            cursor.stop = Some(outcome);
            cursor.leave_item(size);
        }
    }
    Ok(())
}

/// Takes bytes up to those that were wanted.
fn keep_some<W: Walk>(
    cursor: &mut Cursor<W::State, W::Outcome>,
    piece: &[u8],
) -> Result<usize, OutOfMemory>
    requires steady { IsSteady W.decides }
    requires awaited { IsAwaited W.decides W.wants }
    requires placed { IsPlaced W.decides cursor.old }
    requires kept { 0 < length cursor.old.kept.items }
    requires some { 0 < length piece.now }
    ensures advances { IfOk result (λ n. Advances W.decides (progress_of cursor.old) (progress_of cursor.new) piece.now n) }
    ensures placed { OnOk result (IsPlaced W.decides cursor.new) }
    ensures some { IfOk result (λ n. 1 ≤ n) }
    ensures lost { OnErr result (progress_of cursor.new ≡ progress_of cursor.old) }
    ensures still { OnErr result (IsPlaced W.decides cursor.new) }
{
    let had = cursor.kept.as_slice().len();
    let n = (cursor.wanted - had).min(piece.len());
    cursor.kept.extend_from_slice(&piece[..n])?;
    // With fewer bytes nothing can be decided, so none is looked at twice: an item costs its length, however
    // it is cut.
    if had + n == cursor.wanted {
        decide_kept::<W>(cursor, had)?;
    }
    Ok(n)
}

/// Goes over the items of a piece, and keeps what is left of it.
fn pass_items<W: Walk>(
    cursor: &mut Cursor<W::State, W::Outcome>,
    piece: &[u8],
) -> Result<usize, OutOfMemory>
    requires steady { IsSteady W.decides }
    requires awaited { IsAwaited W.decides W.wants }
    requires placed { IsPlaced W.decides cursor.old }
    requires bare { progress_of cursor.old ≡ at_item cursor.old.state }
    requires some { 0 < length piece.now }
    ensures advances { IfOk result (λ n. Advances W.decides (progress_of cursor.old) (progress_of cursor.new) piece.now n) }
    ensures placed { OnOk result (IsPlaced W.decides cursor.new) }
    ensures some { IfOk result (λ n. 1 ≤ n) }
    ensures all { IfOk result (λ n. n < length piece.now → (cursor.new.skip ≡ 0) × IsSome cursor.new.stop) }
    ensures lost { OnErr result (AdvancesSome W.decides (progress_of cursor.old) (progress_of cursor.new) piece.now) }
    ensures still { OnErr result (IsPlaced W.decides cursor.new) }
    ensures moved { OnErr result (progress_of cursor.new ≡ record (progress_of cursor.old) { state = cursor.new.state }) }
{
    let alloc = *cursor.kept.allocator();
    let passed = go_over::<W>(alloc, &mut cursor.state, piece)?;
    let rest = &piece[passed.rest..passed.consumed];
    cursor.kept.extend_from_slice(rest)?;
    cursor.stop = passed.stop;
    cursor.skip = passed.skip;
    cursor.wanted = W::wanted(rest);
    Ok(passed.consumed)
}

/// Takes some bytes of a piece, of which there are some, in a walk that didn't stop. Where memory is short, nothing but the state changed.
pub(crate) fn advance<W: Walk>(
    cursor: &mut Cursor<W::State, W::Outcome>,
    piece: &[u8],
) -> Result<usize, OutOfMemory>
    requires steady { IsSteady W.decides }
    requires awaited { IsAwaited W.decides W.wants }
    requires placed { IsPlaced W.decides cursor.old }
    requires goes { (is_some cursor.old.stop && cursor.old.skip == 0) ≡ false }
    requires some { 0 < length piece.now }
    ensures advances { IfOk result (λ n. Advances W.decides (progress_of cursor.old) (progress_of cursor.new) piece.now n) }
    ensures placed { IsPlaced W.decides cursor.new }
    ensures some { IfOk result (λ n. 1 ≤ n) }
    ensures lost { OnErr result (AdvancesSome W.decides (progress_of cursor.old) (progress_of cursor.new) piece.now) }
    ensures moved { OnErr result (progress_of cursor.new ≡ record (progress_of cursor.old) { state = cursor.new.state }) }
{
    if cursor.skip > 0 {
        Ok(skip_some::<W>(cursor, piece))
    } else if cursor.kept.as_slice().is_empty() {
        pass_items::<W>(cursor, piece)
    } else {
        keep_some::<W>(cursor, piece)
    }
}

/// Takes the bytes of a piece up to the one with which the walk stops, else all of them.
pub(crate) fn take_in<W: Walk>(
    cursor: &mut Cursor<W::State, W::Outcome>,
    piece: &[u8],
) -> Result<usize, OutOfMemory>
    requires steady { IsSteady W.decides }
    requires awaited { IsAwaited W.decides W.wants }
    requires placed { IsPlaced W.decides cursor.old }
    ensures advances { IfOk result (λ n. Advances W.decides (progress_of cursor.old) (progress_of cursor.new) piece.now n) }
    ensures placed { IsPlaced W.decides cursor.new }
    ensures all { IfOk result (λ n. n < length piece.now → (is_some cursor.new.stop && cursor.new.skip == 0) ≡ true) }
    ensures lost { OnErr result (AdvancesSome W.decides (progress_of cursor.old) (progress_of cursor.new) piece.now) }
{
    let mut consumed = 0;
    while consumed < piece.len() && !cursor.is_over() {
        match advance::<W>(cursor, &piece[consumed..]) {
            Ok(n) => consumed += n,
            Err(error) => return Err(error),
        }
    }
    Ok(consumed)
}
