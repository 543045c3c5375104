//! What sources and their copies are asked.
#![tactic(auto, using(crate::proofs::Leading::leads_refl, crate::proofs::Leading::leads_trans))]

ghost use Rattle.std.specs.Prelude.{IsTrue, OnOk};
ghost use Rattle.wt_relay.specs.Calls.{is_relayed_call};
ghost use Rattle.wt_relay.specs.Desk.{Leads};

use crate::desk::Desk;
use crate::kept::{Ask, Kept, Step};
use crate::source::Progress;
use wt_turn::Call;
use wt_turn::piece::Piece;
use wt_turn::reply::Reply;
use wt_turn::stream_error::StreamReadError;
use wt_wire::error::OutOfMemory;
use wt_wire::ids::StreamId;
use wt_wire::varint::VarInt;

/// How many bytes of a source are read at once.
const READ_SIZE: u64 = 4096;

/// The code of a stream whose session is gone, 0x170d7b68 (draft-ietf-webtrans-http3, section 8.5): that of a copy whose source
/// can't be read any more.
const SESSION_GONE: u32 = 386_759_528;

/// How a source ends, and with it its copies.
#[derive(Clone, Copy)]
enum Ending {
    /// Each copy is finished.
    Finish,
    /// Each copy is reset with this code.
    Reset(VarInt),
}

impl Ending {
    /// That of a source whose session is gone.
    fn gone() -> Ending {
        Ending::Reset(VarInt::from_u32(SESSION_GONE))
    }

    /// The call that ends this copy.
    fn call(self, id: StreamId) -> Call
        ensures { IsTrue (is_relayed_call result) }
    {
        match self {
            Ending::Finish => Call::Finish { id },
            Ending::Reset(code) => Call::ResetSend { id, code },
        }
    }

    /// That of a source to whose read this was the reply, which gave nothing more of it.
    fn following(reply: &Reply) -> Ending {
        match reply {
            Reply::Read(None) => Ending::Finish,
            Reply::ReadFailed(StreamReadError::Reset(code)) => Ending::Reset(*code),
            _ => Ending::gone(),
        }
    }
}

/// Asks what is due, by order of acceptance.
///
/// # Errors
///
/// `OutOfMemory` may come at any call.
pub fn serve(desk: &mut Desk, kept: &mut Kept) -> Result<(), OutOfMemory>
    ensures { OnOk result (Leads desk.old desk.new) }
{
    let due = kept.take_due();
    for ask in due.as_slice() {
        serve_one(desk, kept, *ask)?;
    }
    Ok(())
}

fn serve_one(desk: &mut Desk, kept: &mut Kept, ask: Ask) -> Result<(), OutOfMemory>
    ensures { OnOk result (Leads desk.old desk.new) }
{
    match ask.step {
        Step::Open => poll_copy(desk, kept, ask.source, ask.copy),
        Step::Write => write_copy(desk, kept, ask.source, ask.copy),
        Step::Read => read(desk, kept, ask.source),
    }
}

/// Goes on with a copy that is being opened.
fn poll_copy(
    desk: &mut Desk,
    kept: &mut Kept,
    source: usize,
    copy: usize,
) -> Result<(), OutOfMemory>
    ensures { OnOk result (Leads desk.old desk.new) }
{
    let Some(copied) = kept.copied(source, copy) else {
        return Ok(());
    };
    if copied.progress != Progress::Opening {
        return Ok(());
    }
    let id = copied.id;
    let reply = desk.ask(kept, copied.member.number, Call::PollOpening { id })?;
    match reply {
        Reply::Pending => {}
        Reply::SendReady(_) => kept.set(source, copy, Progress::Level),
        _ => kept.end_copy(source, copy),
    }
    Ok(())
}

/// Writes what a copy lacks of the piece.
fn write_copy(
    desk: &mut Desk,
    kept: &mut Kept,
    source: usize,
    copy: usize,
) -> Result<(), OutOfMemory>
    ensures { OnOk result (Leads desk.old desk.new) }
{
    let Some(copied) = kept.copied(source, copy) else {
        return Ok(());
    };
    let Some(bytes) = kept.rest_of(source, copied.progress)? else {
        return Ok(());
    };
    let id = copied.id;
    let reply = desk.ask(kept, copied.member.number, Call::Write { id, bytes })?;
    match reply {
        Reply::Pending => {}
        Reply::Written(count) => kept.accept(source, copy, count as usize),
        _ => kept.end_copy(source, copy),
    }
    Ok(())
}

/// Reads a source that no copy holds.
fn read(desk: &mut Desk, kept: &mut Kept, source: usize) -> Result<(), OutOfMemory>
    ensures { OnOk result (Leads desk.old desk.new) }
{
    let Some((number, id)) = kept.free_source(source) else {
        return Ok(());
    };
    let size = READ_SIZE;
    let reply = desk.ask(kept, number, Call::Read { id, size })?;
    take_read(desk, kept, source, reply)
}

/// What follows a read.
fn take_read(
    desk: &mut Desk,
    kept: &mut Kept,
    source: usize,
    reply: Reply,
) -> Result<(), OutOfMemory>
    ensures { OnOk result (Leads desk.old desk.new) }
{
    match reply {
        Reply::Pending => Ok(()),
        Reply::Read(Some(piece)) => pass_on(desk, kept, source, piece),
        ended => {
            let ending = Ending::following(&ended);
            end_source(desk, kept, source, &ending)
        }
    }
}

/// Writes the piece to each copy. The source is read on in the next pass, unless a copy holds it. No read gives more than was asked
/// for, so that no more is kept.
fn pass_on(desk: &mut Desk, kept: &mut Kept, source: usize, piece: Piece) -> Result<(), OutOfMemory>
    ensures { OnOk result (Leads desk.old desk.new) }
{
    if piece.as_slice().len() > READ_SIZE as usize {
        return end_source(desk, kept, source, &Ending::gone());
    }
    kept.take_piece(source, piece);
    for copy in 0..kept.copy_count(source) {
        write_copy(desk, kept, source, copy)?;
    }
    kept.end_piece(source)?;
    Ok(())
}

/// The source ended: each copy ends as it did.
fn end_source(
    desk: &mut Desk,
    kept: &mut Kept,
    source: usize,
    ending: &Ending,
) -> Result<(), OutOfMemory>
    ensures { OnOk result (Leads desk.old desk.new) }
{
    for copy in 0..kept.copy_count(source) {
        end_copy(desk, kept, source, copy, ending)?;
    }
    kept.end_source(source);
    Ok(())
}

fn end_copy(
    desk: &mut Desk,
    kept: &mut Kept,
    source: usize,
    copy: usize,
    ending: &Ending,
) -> Result<(), OutOfMemory>
    ensures { OnOk result (Leads desk.old desk.new) }
{
    let Some(copied) = kept.copied(source, copy) else {
        return Ok(());
    };
    if copied.progress == Progress::Over {
        return Ok(());
    }
    kept.end_copy(source, copy);
    let _reply = desk.ask(kept, copied.member.number, ending.call(copied.id))?;
    Ok(())
}
