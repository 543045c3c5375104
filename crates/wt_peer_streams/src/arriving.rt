//! The peer's streams of one kind whose header is read, and those that wait for that.
ghost use Rattle.std.specs.List.{position};
ghost use Rattle.std.specs.Prelude.{◌≡◌, ◌≤◌, ◌<◌, ◌+◌, ◌==◌, IfOk, OnOk, false, length, true};
ghost use Rattle.wt_kept.specs.Arriving.{none_arriving, scan_now};
ghost use Rattle.wt_kept.specs.Classifying.{classify_now};
ghost use Rattle.wt_kept.specs.Counting.{feed_steps, scan_left, scan_most};
ghost use Rattle.wt_kept.specs.Pieces.{fed_at, fed_slots, slot_of};
ghost use Rattle.wt_kept.specs.Readers.{nothing_read};
ghost use Rattle.wt_peer_streams.specs.Scanning.{header_rules, is_decided, is_incomplete, looked_at, scanned, takes_next_now};

use crate::dispatched::Dispatched;
use crate::reading::{Fed, Reading};
use std::alloc::Global;
use std::marker::Model;
use std::sync::ledger::Ledger;
use wt_proto::steps::Steps;
use wt_proto::verdict::Verdict;
use wt_proto::{BiReader, Reader, UniReader};
use wt_transport::Transport;
use wt_wire::error::OutOfMemory;
use wt_wire::ids::StreamId;

/// How many headers of a kind are read at once (this repository's rule; RFC 9114, section 6.2, has a peer be allowed three
/// unidirectional streams at least).
const SLOTS: usize = 4;

/// A reader of a stream's header.
pub trait HeaderReader: Reader<Outcome = Verdict> + Drop {
    // one that took nothing
    ghost start: { Self };

    /// One that took nothing.
    fn fresh(alloc: Global) -> Self
        ensures { result ≡ start };

    // a final outcome is a verdict
    ghost decides: { (r : Self) → Self.Reader.is_final r ≡ true → is_incomplete (Self.Reader.said r) ≡ false };
}

impl HeaderReader for UniReader {
    ghost start = { nothing_read tt };

    ghost decides = { λ r. is_decided (Self.Reader.said r) };

    fn fresh(alloc: Global) -> Self {
        UniReader::new(alloc)
    }
}

impl HeaderReader for BiReader {
    ghost start = { nothing_read 0 };

    ghost decides = { λ r. is_decided (Self.Reader.said r) };

    fn fresh(alloc: Global) -> Self {
        BiReader::new(alloc)
    }
}

/// The peer's streams of one kind that have no verdict: of at most 4 the header is read, the first of them by id; those from
/// `next` on wait, as many as the transport counts.
///
/// ```text
/// opened --> waits --fewer than 4 are read--> read --its verdict is final--> classified
/// ```
#[derive(Drop)]
pub struct Arriving<R: HeaderReader> {
    /// Which kind it is.
    bidirectional: bool,
    reading: Vec<Reading<R>>,
    next: u64,
}

impl<R: HeaderReader> Model for Arriving<R> {
    ghost use Rattle.std.specs.Prelude.{◌≤◌, length};
    ghost use Rattle.wt_kept.specs.Kept.{ArrivingNow};

    ghost Value = { ArrivingNow R };

    ghost view = { λ a. record { bidirectional = a.bidirectional; reading = a.reading.items; next = a.next } };

    ghost invariant = { λ a. length a.reading.items ≤ 4 };
}

impl<R: HeaderReader> Arriving<R> {
    /// Those of this kind; none came.
    pub fn new(alloc: Global, bidirectional: bool) -> Self
        ensures { result ≡ none_arriving bidirectional }
    {
        Arriving {
            bidirectional,
            reading: Vec::new(alloc),
            next: 0,
        }
    }

    /// How many headers are read.
    pub fn readers(&self) -> usize
        ensures count { result ≡ length self.now.reading }
        ensures few { result ≤ 4 }
    {
        self.reading.len()
    }

    /// Where the reader of the stream's header stands.
    fn index_of(&self, id: StreamId) -> Option<usize>
        ensures { result ≡ position (λ slot. slot.id == id) self.now.reading }
    {
        self.reading.iter().position(|slot| slot.id == id)
    }

    /// Feeds the reader of the stream's header; None where it isn't read.
    pub fn feed<L: Ledger>(
        &mut self,
        id: StreamId,
        piece: &[u8],
        steps: &mut Steps<L>,
    ) -> Result<Option<Fed>, OutOfMemory>
        ensures fed { IfOk result (λ fed. fed ≡ fed_at (header_rules R.start R.Reader.fed R.Reader.ended R.Reader.said R.Reader.is_final) piece.now (slot_of id self.old.reading)) }
        ensures reading { OnOk result (self.new ≡ record self.old { reading = fed_slots (header_rules R.start R.Reader.fed R.Reader.ended R.Reader.said R.Reader.is_final) id piece.now self.old.reading }) }
        ensures steps { IfOk result (λ fed. steps.new ≡ steps.old + feed_steps fed) }
    {
        match self.index_of(id) {
            Some(index) => {
                let slot = &mut self.reading[index];
                Ok(Some(slot.feed(piece, steps)?))
            }
            None => Ok(None),
        }
    }

    /// Takes the next stream that waits, where there is one and fewer than 4 are read.
    fn takes_next(&mut self, t: &Transport) -> Result<bool, OutOfMemory>
        ensures taken { IfOk result (λ takes. record { takes = takes; arriving = self.new } ≡ takes_next_now R.start t.now self.old) }
        ensures kind { self.new.bidirectional ≡ self.old.bidirectional }
    {
        if self.reading.len() >= SLOTS {
            return Ok(false);
        }
        let Some(id) = t.peer_stream(self.bidirectional, self.next) else {
            return Ok(false);
        };
        let reader = R::fresh(*self.reading.allocator());
        self.reading.push(Reading { id, reader })?;
        self.next += 1;
        Ok(true)
    }

    /// Reads on the header at this index. Where it has a verdict, its stream goes on, and its place is free.
    fn look<L: Ledger>(
        &mut self,
        index: usize,
        t: &mut Transport,
        to: &mut Dispatched,
        steps: &mut Steps<L>,
    ) -> Result<bool, OutOfMemory>
        requires { index < length self.old.reading }
        ensures looked { IfOk result (λ stays. record { stays = stays; arriving = self.new; work = record { transport = t.new; dispatched = to.new } }
            ≡ looked_at (header_rules R.start R.Reader.fed R.Reader.ended R.Reader.said R.Reader.is_final) index self.old (record { transport = t.old; dispatched = to.old })) }
        ensures kind { self.new.bidirectional ≡ self.old.bidirectional }
        ensures steps { OnOk result (steps.new + scan_left self.new (record { transport = t.new; dispatched = to.new }) ≤ steps.old + scan_most self.old t.old) }
    {
        let slot = &mut self.reading[index];
        slot.read(t, steps)?;
        if let Verdict::Incomplete = slot.outcome() {
            return Ok(true);
        }
        let over = self.reading.remove(index);
        let Reading { id, reader } = over;
        to.classify(t, id, reader.into_says())?;
        Ok(false)
    }

    /// Reads on by id, and takes streams that wait where fewer than 4 are read; each whose verdict is final goes on, up to the
    /// first fault.
    pub fn scan<L: Ledger>(
        &mut self,
        t: &mut Transport,
        to: &mut Dispatched,
        steps: &mut Steps<L>,
    ) -> Result<(), OutOfMemory>
        ensures scan { OnOk result (scanned self.new t.new to.new
            ≡ scan_now (header_rules R.start R.Reader.fed R.Reader.ended R.Reader.said R.Reader.is_final) classify_now self.old (record { transport = t.old; dispatched = to.old })) }
        ensures kind { self.new.bidirectional ≡ self.old.bidirectional }
        ensures steps { OnOk result (steps.new + scan_left self.new (record { transport = t.new; dispatched = to.new }) ≤ steps.old + scan_left self.old (record { transport = t.old; dispatched = to.old })) }
    {
        let mut index = 0;
        while to.fault().is_none() && (index < self.readers() || self.takes_next(t)?) {
            if self.look(index, t, to, steps)? {
                index += 1;
            }
        }
        Ok(())
    }
}
