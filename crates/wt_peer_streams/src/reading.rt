//! Reading on: a reader is fed what is unread of its stream, piece after piece.
ghost use Rattle.std.specs.Prelude.{◌≡◌, ◌<◌, ◌+◌, ◌==◌, ◌&&◌, ◌++◌, ℕ, List, [], IfOk, OnOk, false, length, nat_lt, not};
ghost use Rattle.wt_kept.specs.Counting.{CountsRead};
ghost use Rattle.wt_kept.specs.Pieces.{feeds};
ghost use Rattle.wt_kept.specs.Readers.{fed_piece_by, noted_if, reads_on};
ghost use Rattle.wt_transport.specs.Step.{end_now, unread_now};
ghost use Rattle.wt_turn.specs.Reports.{is_running};

use std::marker::Model;
use std::sync::ledger::Ledger;
use wt_proto::Reader;
use wt_proto::steps::Steps;
use wt_transport::Transport;
use wt_wire::error::OutOfMemory;
use wt_wire::ids::StreamId;
use wt_wire::side::StreamEnd;

/// Whether the peer's half goes on.
pub(crate) fn is_running(end: StreamEnd) -> bool
    ensures { result ≡ is_running end }
{
    match end {
        StreamEnd::Running => true,
        StreamEnd::Fin | StreamEnd::Reset(_) => false,
    }
}

/// What a reader did with a piece.
#[derive(Clone, Copy)]
pub struct Fed {
    /// How many bytes of it it took.
    pub taken: usize,
    /// Whether its outcome is final, so that it takes no more.
    pub is_final: bool,
}

impl Model for Fed {
    ghost use Rattle.wt_kept.specs.Pieces.{FedNow};

    ghost Value = { FedNow };

    ghost view = { λ f. record { taken = f.taken; is_final = f.is_final } };

    ghost inverse = { λ f. record { taken = f.taken; is_final = f.is_final } };
}

/// A stream, and the reader of what comes on it.
#[derive(Drop)]
pub struct Reading<R: Reader> {
    /// The stream.
    pub id: StreamId,
    /// The reader.
    pub reader: R,
}

impl<R: Reader> Model for Reading<R> {
    ghost use Rattle.wt_kept.specs.Readers.{Slot};

    ghost Value = { Slot R };

    ghost view = { λ s. record { id = s.id; reader = s.reader } };
}

impl<R: Reader> Reading<R> {
    /// What the stream says.
    pub fn outcome(&self) -> &R::Outcome
        ensures { result.now ≡ R.said self.now.reader }
    {
        self.reader.says()
    }

    /// Feeds the reader bytes as they come.
    pub fn feed<L: Ledger>(
        &mut self,
        piece: &[u8],
        steps: &mut Steps<L>,
    ) -> Result<Fed, OutOfMemory>
        ensures fed { IfOk result (λ fed. fed ≡ feeds R.is_final R.fed self.old.reader piece.now) }
        ensures reader { OnOk result (self.new ≡ record self.old { reader = fed_piece_by R.is_final R.fed self.old.reader piece.now }) }
        ensures stream { self.new.id ≡ self.old.id }
        ensures steps { steps.new ≡ steps.old + 1 }
    {
        let taken = self.reader.take(piece, steps)?;
        Ok(Fed {
            taken,
            is_final: self.reader.is_final(),
        })
    }

    /// Whether the outcome is final, so that no byte is taken after it.
    pub fn is_final(&self) -> bool
        ensures answer { result ≡ R.is_final self.now.reader }
        ensures joins { (xs ys : List ℕ) → R.fed (R.fed self.now.reader xs) ys ≡ R.fed self.now.reader (xs ++ ys) }
        ensures none { R.fed self.now.reader [] ≡ self.now.reader }
    {
        self.reader.is_final()
    }

    /// Whether something is unread, and the outcome isn't final.
    fn goes_on(&self, t: &Transport) -> bool
        ensures { result ≡ (not (R.is_final self.now.reader) && nat_lt 0 (length (unread_now t.now self.now.id))) }
    {
        !self.reader.is_final() && t.unread(self.id) > 0
    }

    /// Notes the end, which counts once all bytes before it were taken.
    fn note_end(&mut self, t: &Transport)
        ensures { self.new ≡ record self.old { reader = noted_if R.ended (not (is_running (end_now t.now self.old.id)) && length (unread_now t.now self.old.id) == 0) (end_now t.now self.old.id) self.old.reader } }
    {
        if !is_running(t.end(self.id)) && t.unread(self.id) == 0 {
            self.reader.note(t.end(self.id));
        }
    }

    /// Reads on what came and is unread, up to the byte with which the outcome is final, unless it is that already, and then
    /// notes the end.
    pub fn read<L: Ledger>(
        &mut self,
        t: &mut Transport,
        steps: &mut Steps<L>,
    ) -> Result<(), OutOfMemory>
        ensures read { OnOk result (record { reader = self.new.reader; transport = t.new } ≡ reads_on R.is_final R.fed R.ended self.old.id self.old.reader t.old) }
        ensures stream { self.new.id ≡ self.old.id }
        ensures steps { OnOk result (CountsRead R.is_final self.old.id t.old (record { reader = self.new.reader; transport = t.new }) steps.old steps.new) }
    {
        if self.is_final() {
            return Ok(());
        }
        while self.goes_on(t) {
            let piece = t.peek(self.id);
            let taken = self.reader.take(piece, steps)?;
            t.consume(self.id, taken);
        }
        self.note_end(t);
        Ok(())
    }
}
