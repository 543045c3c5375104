//! Readers that are fed a piece.
ghost use Rattle.std.specs.Prelude.{◌≡◌, ◌≤◌, ◌<◌, IfOk, length};

use std::marker::Brand;
use std::sync::ledger::{Blank, Ledger};
use wt_proto::reader::StreamReader;
use wt_proto::steps::Steps;
use wt_proto::walk::Walk;
use wt_wire::error::OutOfMemory;

fn feed_counted<W: Walk, L: Ledger>(
    reader: &mut StreamReader<W>,
    piece: &[u8],
    blank: Blank,
) -> Result<usize, OutOfMemory>
    requires name { blank.name ≡ L.name }
    requires parts { blank.parts ≡ L.parts }
    requires some { 0 < L.parts }
    ensures { IfOk result (λ n. n ≤ length piece.now) }
{
    let mut steps = Steps::<L>::new(blank);
    reader.feed(piece, &mut steps)
}

/// Feeds a reader bytes of the piece up to the one with which its outcome is final, else all, and returns how many.
pub fn feed<W: Walk>(reader: &mut StreamReader<W>, piece: &[u8]) -> Result<usize, OutOfMemory>
    ensures { IfOk result (λ n. n ≤ length piece.now) }
{
    feed_counted::<W, Brand>(reader, piece, Blank::new(1))
}
