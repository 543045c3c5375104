//! Reading on: a stream's reader is fed all that is unread of it.
ghost use Rattle.std.specs.Prelude.{◌≡◌, ◌<◌, ◌≤◌, ◌++◌, ℕ, List, Bool, IfOk, OnOk, [], length, take, true, false};
ghost use Rattle.wt_wire.specs.declared.side.StreamEnd.TheVariants.{Running};
ghost use Rattle.wt_transport.specs.Step.{end_now, unread_now};
ghost use Rattle.wt_seam.specs.ReadingAll.{Joins, ReadsSome, Stays, after_reading_all};

use std::marker::Brand;
use std::sync::ledger::{Blank, Ledger};
use wt_proto::read::Reader;
use wt_proto::steps::Steps;
use wt_transport::Transport;
use wt_wire::error::OutOfMemory;
use wt_wire::ids::StreamId;
use wt_wire::side::StreamEnd;

/// Feeds a reader a piece, and returns how many bytes of it the reader took.
fn feed_counted<R: Reader, L: Ledger>(
    reader: &mut R,
    piece: &[u8],
    blank: Blank,
) -> Result<usize, OutOfMemory>
    requires name { blank.name ≡ L.name }
    requires parts { blank.parts ≡ L.parts }
    requires some { 0 < L.parts }
    ensures within { IfOk result (λ n. n ≤ length piece.now) }
    ensures fed { IfOk result (λ n. reader.new ≡ R.fed reader.old (take n piece.now)) }
    ensures stops_short { IfOk result (λ n. n < length piece.now → R.is_final reader.new ≡ true) }
{
    let mut steps = Steps::<L>::new(blank);
    reader.take(piece, &mut steps)
}

/// Feeds a reader a piece, of which it needs nothing after its final outcome.
fn feed<R: Reader>(reader: &mut R, piece: &[u8]) -> Result<(), OutOfMemory>
    requires joins { Joins R.fed reader.old }
    requires stays { Stays R.fed R.is_final reader.old }
    ensures { OnOk result (reader.new ≡ R.fed reader.old piece.now) }
{
    let consumed = feed_counted::<R, Brand>(reader, piece, Blank::new(1));
    match consumed {
        Ok(_) => Ok(()),
        Err(error) => Err(error),
    }
}

/// Feeds a reader the first unread piece, and returns whether there was one.
fn read_piece<R: Reader>(
    t: &mut Transport,
    id: StreamId,
    reader: &mut R,
) -> Result<bool, OutOfMemory>
    requires joins { Joins R.fed reader.old }
    requires stays { Stays R.fed R.is_final reader.old }
    ensures some { IfOk result (λ more. (count : ℕ) × ReadsSome R.fed reader.old reader.new t.old t.new id count) }
    ensures more { IfOk result (λ more. more ≡ true → length (unread_now t.new id) < length (unread_now t.old id)) }
    ensures none { IfOk result (λ more. more ≡ false → unread_now t.new id ≡ []) }
{
    let piece = t.peek(id);
    let size = piece.len();
    feed(reader, piece)?;
    t.consume(id, size);
    Ok(size > 0)
}

/// Feeds a reader all that is unread.
fn read_pieces<R: Reader>(
    t: &mut Transport,
    id: StreamId,
    reader: &mut R,
) -> Result<(), OutOfMemory>
    requires joins { Joins R.fed reader.old }
    requires stays { Stays R.fed R.is_final reader.old }
    ensures reading { OnOk result (reader.new ≡ R.fed reader.old (unread_now t.old id)) }
    ensures state { OnOk result (t.new ≡ after_reading_all t.old id) }
{
    let mut goes = read_piece(t, id, reader)?;
    while goes {
        goes = read_piece(t, id, reader)?;
    }
    Ok(())
}

/// Feeds a reader all that is unread, and the end.
pub(crate) fn read_all<R: Reader>(
    t: &mut Transport,
    id: StreamId,
    reader: &mut R,
) -> Result<(), OutOfMemory>
    requires { Stays R.fed R.is_final (R.ended Running reader.old) }
    ensures reading { OnOk result (reader.new ≡ R.ended (end_now t.old id) (R.fed (R.ended Running reader.old) (unread_now t.old id))) }
    ensures state { OnOk result (t.new ≡ after_reading_all t.old id) }
{
    let end = t.end(id);
    // Bytes that are unread came before the end, so the reader has to see them first.
    reader.note(StreamEnd::Running);
    // Asked for the proof alone, which takes from here that bytes may come in pieces.
    let _ = reader.is_final();
    read_pieces(t, id, reader)?;
    reader.note(end);
    Ok(())
}
