//! Readers, which are fed a stream's bytes in pieces and keep no more of them than they need.
ghost use Rattle.std.specs.Prelude.{◌≡◌, ◌≤◌, ◌<◌, ◌+◌, ℕ, [], ◌++◌, List, None, length, take, IfOk, OnErr, OnOk, true, false};
ghost use Rattle.wt_proto.specs.Bi.{bi_decides};
ghost use Rattle.wt_proto.specs.ControlWalk.{control_decides};
ghost use Rattle.wt_proto.specs.ResponseWalk.{response_decides};
ghost use Rattle.wt_proto.specs.Uni.{uni_decides};
ghost use Rattle.wt_proto.specs.WalkProgress.{Advances, AdvancesSome, HasRead, Reading, fed_reading};
ghost use Rattle.wt_proto.specs.Reading.{outcome_in};
ghost use Rattle.wt_proto.specs.Steady.{IsLawful};
ghost use Rattle.wt_wire.specs.declared.side.StreamEnd.{StreamEnd};
ghost use Rattle.wt_wire.specs.declared.side.StreamEnd.TheVariants.{Running};

use crate::bi::BiHeader;
use crate::control_walk::ControlWalk;
use crate::cursor::{Cursor, take_in};
use crate::response_walk::ResponseWalk;
use crate::session_reader::SessionReader;
use crate::session_walk::SessionWalk;
use crate::steps::Steps;
use crate::verdict::UniHeader;
use crate::walk::Walk;
use std::alloc::Global;
use std::marker::Model;
use std::sync::ledger::Ledger;
use wt_wire::error::OutOfMemory;
use wt_wire::side::StreamEnd;

/// A reader of a peer's unidirectional stream up to its verdict.
pub type UniReader = StreamReader<UniHeader>;

/// A reader of a peer's bidirectional stream up to its verdict.
pub type BiReader = StreamReader<BiHeader>;

/// A reader of the peer's control stream after its type.
pub type ControlReader = StreamReader<ControlWalk>;

/// A walk over a stream of a session, and the reader that goes over it.
pub trait FrameWalk {
    type Reader;
}

impl FrameWalk for SessionWalk {
    type Reader = SessionReader;
}

impl FrameWalk for ResponseWalk {
    type Reader = StreamReader<ResponseWalk>;
}

/// A reader of frames: of a session's stream after the frame that established the session
/// (`SessionWalk`), or of a client's session stream from its first byte (`ResponseWalk`).
pub type FrameReader<W> = <W as FrameWalk>::Reader;

/// A reader of a stream that is fed its bytes in pieces. It keeps no more of them than the front of
/// an item that isn't decided, which is at most 4,112 bytes: a type and a length of 8 bytes each, and
/// a payload of 4,096. Contracts see how far the walk over all bytes is, as data.
#[derive(Drop)]
pub struct StreamReader<W: Walk> {
    cursor: Cursor<W::State, W::Outcome>,
    end: StreamEnd,
    unfinished: W::Outcome,
}

impl<W: Walk> Model for StreamReader<W> {
    ghost use Rattle.wt_proto.specs.WalkProgress.{Reading};
    ghost use Rattle.wt_proto.specs.Cursor.{progress_of};
    ghost use Rattle.wt_proto.specs.Reading.{IsReading};

    ghost Value = { Reading W.State W.Outcome };

    ghost view = { λ r. record { progress = progress_of r.cursor; end = r.end } };

    ghost invariant = { λ r. IsReading W.start_state W.decides W.wants W.unfinished_at W.is_final_outcome W.outcome_of r.cursor r.end r.unfinished };
}

impl<W: Walk> StreamReader<W> {
    /// A reader of a lawful walk that took no bytes.
    fn empty(alloc: Global) -> Self
        requires { IsLawful W.start_state W.decides W.wants W.unfinished_at W.is_final_outcome W.outcome_of }
        ensures { HasRead W.decides W.start_state result [] Running }
    {
        let state = W::start();
        let unfinished = W::unfinished(alloc, StreamEnd::Running, &state, true);
        StreamReader {
            cursor: Cursor::at_item(alloc, state),
            end: StreamEnd::Running,
            unfinished,
        }
    }

    /// What stopped the walk, else what the end makes of where it stands.
    fn current(&self) -> &W::Outcome
        ensures { result.now ≡ outcome_in W.unfinished_at self.now }
    {
        match &self.cursor.stop {
            Some(outcome) if self.cursor.skip == 0 => outcome,
            _ => &self.unfinished,
        }
    }

    /// The same by value.
    fn into_current(self) -> W::Outcome
        ensures { result ≡ outcome_in W.unfinished_at self }
    {
        let StreamReader {
            cursor,
            end: _,
            unfinished,
        } = self;
        let Cursor {
            state: _,
            stop,
            skip,
            kept: _,
            wanted: _,
        } = cursor;
        match stop {
            Some(outcome) if skip == 0 => outcome,
            _ => unfinished,
        }
    }

    /// Takes bytes of the piece, and sees what the end makes of where the walk stands then.
    fn take_piece(&mut self, piece: &[u8]) -> Result<usize, OutOfMemory>
        ensures advances { IfOk result (λ n. Advances W.decides self.old.progress self.new.progress piece.now n) }
        ensures end { self.new.end ≡ self.old.end }
        ensures running { IfOk result (λ n. 0 < n → W.is_final_outcome (outcome_in W.unfinished_at self.old) ≡ false) }
        ensures all { IfOk result (λ n. n < length piece.now → W.is_final_outcome (outcome_in W.unfinished_at self.new) ≡ true) }
        ensures lost { OnErr result (AdvancesSome W.decides self.old.progress self.new.progress piece.now) }
    {
        // What comes after belongs to whoever reads the stream next.
        if W::is_final(self.current()) {
            return Ok(0);
        }
        let alloc = *self.cursor.kept.allocator();
        let consumed = take_in::<W>(&mut self.cursor, piece);
        let between = self.cursor.is_between();
        self.unfinished = W::unfinished(alloc, self.end, &self.cursor.state, between);
        consumed
    }

    /// Takes the bytes of the piece up to the one with which the outcome is final, else all of them,
    /// and returns how many. It counts one step. Where memory is short, the reader stands after some
    /// first bytes of the piece.
    pub fn feed<L: Ledger>(
        &mut self,
        piece: &[u8],
        steps: &mut Steps<L>,
    ) -> Result<usize, OutOfMemory>
        ensures within { IfOk result (λ n. n ≤ length piece.now) }
        ensures fed { IfOk result (λ n. self.new ≡ fed_reading W.decides self.old (take n piece.now)) }
        ensures read { (bytes : List ℕ) (end : StreamEnd) → HasRead W.decides W.start_state self.old bytes end →
            IfOk result (λ n. HasRead W.decides W.start_state self.new (bytes ++ take n piece.now) end) }
        ensures running { (bytes : List ℕ) (end : StreamEnd) (k : ℕ) → HasRead W.decides W.start_state self.old bytes end →
            IfOk result (λ n. k < n → W.is_final_outcome (W.outcome_of (bytes ++ take k piece.now) end) ≡ false) }
        ensures stopped { (bytes : List ℕ) (end : StreamEnd) → HasRead W.decides W.start_state self.old bytes end →
            IfOk result (λ n. n < length piece.now → W.is_final_outcome (W.outcome_of (bytes ++ take n piece.now) end) ≡ true) }
        ensures open { (k : ℕ) → IfOk result (λ n. k < n → W.is_final_outcome (outcome_in W.unfinished_at (fed_reading W.decides self.old (take k piece.now))) ≡ false) }
        ensures stops_short { IfOk result (λ n. n < length piece.now → W.is_final_outcome (outcome_in W.unfinished_at self.new) ≡ true) }
        ensures idle { W.is_final_outcome (outcome_in W.unfinished_at self.old) ≡ true → IfOk result (λ n. n ≡ 0) }
        ensures joins { (xs ys : List ℕ) → fed_reading W.decides (fed_reading W.decides self.old xs) ys ≡ fed_reading W.decides self.old (xs ++ ys) }
        ensures none { fed_reading W.decides self.old [] ≡ self.old }
        ensures steps { steps.new ≡ steps.old + 1 }
        ensures lost { OnErr result ((k : ℕ) × (k ≤ length piece.now) × (self.new ≡ fed_reading W.decides self.old (take k piece.now))) }
    {
        // Read for the proof alone, which takes the reader's invariant from here.
        let _ = &self.end;
        steps.tick();
        self.take_piece(piece)
    }

    /// Notes the end after the bytes that were taken.
    pub fn end(&mut self, end: StreamEnd)
        ensures value { self.new ≡ record self.old { end = end } }
        ensures read { (bytes : List ℕ) (before : StreamEnd) → HasRead W.decides W.start_state self.old bytes before
            → HasRead W.decides W.start_state self.new bytes end }
    {
        let alloc = *self.cursor.kept.allocator();
        let between = self.cursor.is_between();
        self.end = end;
        self.unfinished = W::unfinished(alloc, self.end, &self.cursor.state, between);
    }

    /// Whether the outcome is final.
    pub fn is_over(&self) -> bool
        ensures answer { result ≡ W.is_final_outcome (outcome_in W.unfinished_at self.now) }
        ensures joins { (xs ys : List ℕ) → fed_reading W.decides (fed_reading W.decides self.now xs) ys ≡ fed_reading W.decides self.now (xs ++ ys) }
        ensures none { fed_reading W.decides self.now [] ≡ self.now }
    {
        // Read for the proof alone, which takes the reader's invariant from here.
        let _ = &self.end;
        W::is_final(self.current())
    }

    /// The outcome of all bytes that were taken and the end.
    pub fn outcome(&self) -> &W::Outcome
        ensures value { result.now ≡ outcome_in W.unfinished_at self.now }
        ensures read { (bytes : List ℕ) (end : StreamEnd) → HasRead W.decides W.start_state self.now bytes end → result.now ≡ W.outcome_of bytes end }
    {
        // Read for the proof alone, which takes the reader's invariant from here.
        let _ = &self.end;
        self.current()
    }

    /// The outcome of all bytes that were taken and the end, by value.
    pub fn into_outcome(self) -> W::Outcome
        ensures value { result ≡ outcome_in W.unfinished_at self }
        ensures read { (bytes : List ℕ) (end : StreamEnd) → HasRead W.decides W.start_state self bytes end → result ≡ W.outcome_of bytes end }
    {
        // Read for the proof alone, which takes the reader's invariant from here.
        let _ = &self.end;
        self.into_current()
    }

    /// How many bytes it keeps: those of an item that isn't decided. Bytes to skip aren't kept.
    pub fn kept(&self) -> usize
        ensures bytes { result ≡ length self.now.progress.kept }
        ensures few { result ≤ 4112 }
    {
        self.cursor.kept.as_slice().len()
    }
}

impl StreamReader<UniHeader> {
    /// A reader that took no bytes.
    #[tactic(auto, using(crate::proofs::UniReading::uni_lawful))]
    pub fn new(alloc: Global) -> Self
        ensures { HasRead uni_decides tt result [] Running }
    {
        StreamReader::empty(alloc)
    }
}

impl StreamReader<BiHeader> {
    /// A reader that took no bytes.
    #[tactic(auto, using(crate::proofs::BiReading::bi_lawful))]
    pub fn new(alloc: Global) -> Self
        ensures { HasRead bi_decides 0 result [] Running }
    {
        StreamReader::empty(alloc)
    }
}

impl StreamReader<ControlWalk> {
    /// A reader that took no bytes.
    #[tactic(auto, using(crate::proofs::ControlReading::control_lawful))]
    pub fn new(alloc: Global) -> Self
        ensures { HasRead control_decides None result [] Running }
    {
        StreamReader::empty(alloc)
    }
}

impl StreamReader<ResponseWalk> {
    /// A reader that took no bytes.
    #[tactic(auto, using(crate::proofs::ResponseReading::response_lawful))]
    pub fn for_response(alloc: Global) -> Self
        ensures { HasRead response_decides 0 result [] Running }
    {
        StreamReader::empty(alloc)
    }
}
