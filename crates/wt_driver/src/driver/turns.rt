//! Turns of the transport.
ghost use Rattle.std.specs.Prelude.{◌≡◌, ◌≤◌, ◌<◌, ◌+◌, ◌*◌, OnOk, true};
ghost use Rattle.wt_driver_laws.specs.Calling.{Always};
ghost use Rattle.wt_driver_laws.specs.Driving.{Follows, pieces_in, pieces_of};
ghost use Rattle.wt_kept.specs.Calling.{turn_now, with_datagram_queued};
ghost use Rattle.wt_transport.specs.StreamState.{piece_count};
ghost use Rattle.wt_turn.specs.Arrivals.{fits};
ghost use Rattle.wt_sessions.specs.Answers.{log_after};

use super::Driver;
use std::marker::Brand;
use std::sync::ledger::{Blank, Ledger};
use wt_proto::steps::Steps;
use wt_turn::turn::Turn;
use wt_wire::error::OutOfMemory;

impl Driver {
    /// A datagram waits to be looked at.
    fn queue_datagram(&mut self, turn: &Turn) -> Result<(), OutOfMemory>
        ensures { OnOk result (self.new ≡ with_datagram_queued turn.now self.old) }
    {
        if let Turn::Datagram { piece } = turn {
            self.datagrams.push_back(piece.copy()?)?;
        }
        Ok(())
    }

    /// Takes a turn of the transport, and does the work of its moments: each byte of a piece is one. A turn that may not come
    /// changes nothing.
    pub fn turn<L: Ledger>(&mut self, turn: &Turn, steps: &mut Steps<L>) -> Result<(), OutOfMemory>
        ensures driver { OnOk result (self.new ≡ turn_now turn.now self.old) }
        ensures log { OnOk result (Always self.old (λ side log collected. fits side log turn.now ≡ true → Follows side self.new (log_after side log turn.now) collected)) }
        ensures pieces { OnOk result (pieces_of self.new ≤ pieces_of self.old + pieces_in turn.now) }
        ensures steps { OnOk result (Always self.old (λ side log collected. steps.new ≤ steps.old + 2 * (piece_count self.old.work.transport.streams + 1))) }
    {
        if !self.transport.fits(turn) {
            return Ok(());
        }
        if !self.transport.is_open() {
            // It decides what else may come, and nothing more.
            return self.transport.take(turn);
        }
        if let Turn::Bytes { id, piece } = turn {
            return self.take_bytes(*id, piece.as_slice(), steps);
        }
        self.transport.take(turn)?;
        self.queue_datagram(turn)?;
        self.moment(steps)
    }

    /// Takes a turn of the transport as [`Driver::turn`] does, where nobody counts steps.
    pub fn event(&mut self, turn: &Turn) -> Result<(), OutOfMemory>
        ensures driver { OnOk result (self.new ≡ turn_now turn.now self.old) }
        ensures log { OnOk result (Always self.old (λ side log collected. fits side log turn.now ≡ true → Follows side self.new (log_after side log turn.now) collected)) }
        ensures pieces { OnOk result (pieces_of self.new ≤ pieces_of self.old + pieces_in turn.now) }
    {
        take::<Brand>(self, turn, Blank::new(1))
    }
}

/// The driver takes a turn, and its steps are counted in a ledger of their own.
fn take<L: Ledger>(d: &mut Driver, turn: &Turn, blank: Blank) -> Result<(), OutOfMemory>
    requires name { blank.name ≡ L.name }
    requires parts { blank.parts ≡ L.parts }
    requires some { 0 < L.parts }
    ensures driver { OnOk result (d.new ≡ turn_now turn.now d.old) }
    ensures log { OnOk result (Always d.old (λ side log collected. fits side log turn.now ≡ true → Follows side d.new (log_after side log turn.now) collected)) }
    ensures pieces { OnOk result (pieces_of d.new ≤ pieces_of d.old + pieces_in turn.now) }
{
    let mut steps = Steps::<L>::new(blank);
    d.turn(turn, &mut steps)
}
