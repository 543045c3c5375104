//! What each reader of a stream does.
ghost use Rattle.std.specs.Prelude.{◌≡◌, ◌≤◌, ◌<◌, ◌+◌, ℕ, Bool, [], ◌++◌, List, length, take, IfOk, OnErr, false, true};
ghost use Rattle.wt_wire.specs.declared.side.StreamEnd.{StreamEnd};

use crate::reader::StreamReader;
use crate::session_reader::SessionReader;
use crate::session_walk::SessionWalk;
use crate::steps::Steps;
use crate::walk::Walk;
use std::sync::ledger::Ledger;
use wt_wire::error::OutOfMemory;
use wt_wire::side::StreamEnd;

/// A reader of a stream, which is fed its bytes in pieces and told its end.
pub trait Reader {
    /// What the bytes and the end say.
    type Outcome: Drop;

    // its value after more bytes
    ghost fed: { Self → List ℕ → Self };

    // its value once the end is known
    ghost ended: { StreamEnd → Self → Self };

    // what the bytes that it took and the end say
    ghost said: { Self → Self.Outcome };

    // whether that is final, so that no byte is taken after it
    ghost is_final: { Self → Bool };

    /// Takes the bytes of the piece up to the one with which the outcome is final, else all of them, and returns how many. It
    /// counts one step. Where memory is short, the reader stands after some first bytes of the piece.
    fn take<L: Ledger>(&mut self, piece: &[u8], steps: &mut Steps<L>) -> Result<usize, OutOfMemory>
        ensures within { IfOk result (λ n. n ≤ length piece.now) }
        ensures value { IfOk result (λ n. self.new ≡ fed self.old (take n piece.now)) }
        ensures open { (k : ℕ) → IfOk result (λ n. k < n → is_final (fed self.old (take k piece.now)) ≡ false) }
        ensures stops_short { IfOk result (λ n. n < length piece.now → is_final self.new ≡ true) }
        ensures idle { is_final self.old ≡ true → IfOk result (λ n. n ≡ 0) }
        ensures joins { (xs ys : List ℕ) → fed (fed self.old xs) ys ≡ fed self.old (xs ++ ys) }
        ensures none { fed self.old [] ≡ self.old }
        ensures steps { steps.new ≡ steps.old + 1 }
        ensures lost { OnErr result ((k : ℕ) × (k ≤ length piece.now) × (self.new ≡ fed self.old (take k piece.now))) };

    /// Notes the end after the bytes that were taken.
    fn note(&mut self, end: StreamEnd)
        ensures { self.new ≡ ended end self.old };

    /// The outcome of all bytes that were taken and the end.
    fn says(&self) -> &Self::Outcome
        ensures { result.now ≡ said self.now };

    /// The same by value.
    fn into_says(self) -> Self::Outcome
        ensures { result ≡ said self };

    /// Whether the outcome is final, so that no byte is taken after it.
    fn is_final(&self) -> bool
        ensures answer { result ≡ is_final self.now }
        ensures joins { (xs ys : List ℕ) → fed (fed self.now xs) ys ≡ fed self.now (xs ++ ys) }
        ensures none { fed self.now [] ≡ self.now };
}

impl<W: Walk> Reader for StreamReader<W> {
    type Outcome = W::Outcome;

    ghost use Rattle.wt_proto.specs.WalkProgress.{fed_reading};
    ghost use Rattle.wt_proto.specs.Reading.{outcome_in};

    ghost fed = { fed_reading W.decides };

    ghost ended = { λ end r. record r { end = end } };

    ghost said = { outcome_in W.unfinished_at };

    ghost is_final = { λ r. W.is_final_outcome (outcome_in W.unfinished_at r) };

    fn take<L: Ledger>(
        &mut self,
        piece: &[u8],
        steps: &mut Steps<L>,
    ) -> Result<usize, OutOfMemory> {
        self.feed(piece, steps)
    }

    fn note(&mut self, end: StreamEnd) {
        self.end(end);
    }

    fn says(&self) -> &W::Outcome {
        self.outcome()
    }

    fn into_says(self) -> W::Outcome {
        self.into_outcome()
    }

    fn is_final(&self) -> bool {
        self.is_over()
    }
}

impl Reader for SessionReader {
    type Outcome = SessionWalk;

    ghost use Rattle.wt_proto.specs.SessionWalk.{is_over};
    ghost use Rattle.wt_proto.specs.SessionReader.{session_ended, session_fed, session_said};

    ghost fed = { session_fed };

    ghost ended = { session_ended };

    ghost said = { session_said };

    ghost is_final = { λ r. is_over (session_said r) };

    fn take<L: Ledger>(
        &mut self,
        piece: &[u8],
        steps: &mut Steps<L>,
    ) -> Result<usize, OutOfMemory> {
        self.feed(piece, steps)
    }

    fn note(&mut self, end: StreamEnd) {
        self.end(end);
    }

    fn says(&self) -> &SessionWalk {
        self.outcome()
    }

    fn into_says(self) -> SessionWalk {
        self.into_outcome()
    }

    fn is_final(&self) -> bool {
        self.is_over()
    }
}
