//! Turns of a driver. Each call stands in a function of its own that promises nothing, so that what calls it is cheap to prove.
ghost use Rattle.std.specs.Prelude.{◌≡◌, ◌<◌};

use std::alloc::Global;
use std::marker::Brand;
use std::process::Abort;
use std::sync::ledger::{Blank, Ledger};
use wt_driver::Driver;
use wt_proto::steps::Steps;
use wt_turn::piece::Piece;
use wt_turn::turn::Turn;
use wt_wire::ids::StreamId;

fn take_counting<L: Ledger>(rt: &impl Abort, driver: &mut Driver, turn: &Turn, blank: Blank)
    requires name { blank.name ≡ L.name }
    requires parts { blank.parts ≡ L.parts }
    requires some { 0 < L.parts }
{
    let mut steps = Steps::<L>::new(blank);
    driver.turn(turn, &mut steps).expect(rt, "no memory");
}

fn take(rt: &impl Abort, driver: &mut Driver, turn: &Turn) {
    let fits = driver.fits(turn);
    assert!(rt; fits);
    take_counting::<Brand>(rt, driver, turn, Blank::new(1));
}

fn take_byte(rt: &impl Abort, alloc: Global, driver: &mut Driver, id: StreamId, byte: u8) {
    let piece = Piece::from_slice(alloc, &[byte]).expect(rt, "no memory");
    take(rt, driver, &Turn::Bytes { id, piece });
}

/// The driver takes a turn of the transport, a piece whole or in turns of one byte.
pub fn take_event(
    rt: &impl Abort,
    alloc: Global,
    driver: &mut Driver,
    event: &Turn,
    is_whole: bool,
) {
    match event {
        Turn::Bytes { id, piece } if !is_whole => {
            for byte in piece.as_slice() {
                take_byte(rt, alloc, driver, *id, *byte);
            }
        }
        _ => take(rt, driver, event),
    }
}
