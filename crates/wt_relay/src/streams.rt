//! New streams: each is a source, with a copy on each other session of its room.
#![tactic(auto, using(crate::proofs::Leading::leads_refl, crate::proofs::Leading::leads_trans))]

ghost use Rattle.std.specs.Prelude.{OnOk};
ghost use Rattle.wt_relay.specs.Desk.{Leads};

use crate::desk::Desk;
use crate::kept::Kept;
use crate::room::Member;
use crate::source::Source;
use wt_turn::Call;
use wt_turn::reply::Reply;
use wt_wire::error::OutOfMemory;
use wt_wire::ids::StreamId;
use wt_wire::varint::VarInt;

/// Accepts the streams of the connection's sessions, by their ids. Those that are gone leave their rooms first.
///
/// # Errors
///
/// `OutOfMemory` may come at any call.
pub fn accept_streams(desk: &mut Desk, kept: &mut Kept, number: u32) -> Result<(), OutOfMemory>
    ensures { OnOk result (Leads desk.old desk.new) }
{
    forget_gone(desk, kept, number)?;
    let members = kept.sessions_of(number)?;
    for member in members.as_slice() {
        accept_of(desk, kept, member)?;
    }
    Ok(())
}

/// The connection's sessions that are gone aren't asked any more.
fn forget_gone(desk: &Desk, kept: &mut Kept, number: u32) -> Result<(), OutOfMemory> {
    let members = kept.sessions_of(number)?;
    for member in members.as_slice() {
        if !desk.lives(number, member.session) {
            kept.forget(member);
        }
    }
    Ok(())
}

/// Accepts the session's streams, and opens the copies of each.
fn accept_of(desk: &mut Desk, kept: &mut Kept, member: &Member) -> Result<(), OutOfMemory>
    ensures { OnOk result (Leads desk.old desk.new) }
{
    let given = accept_each(desk, kept, member)?;
    for id in given.as_slice() {
        open_copies(desk, kept, member, *id)?;
    }
    Ok(())
}

/// The streams that the session gives. Where it answers `Failed`, it isn't asked any more.
fn accept_each(
    desk: &mut Desk,
    kept: &mut Kept,
    member: &Member,
) -> Result<Vec<StreamId>, OutOfMemory>
    ensures { OnOk result (Leads desk.old desk.new) }
{
    let mut given = Vec::new(kept.alloc());
    'streams: for _ in 0..u64::MAX {
        match accept_one(desk, kept, member)? {
            Some(id) => given.push(id)?,
            None => return Ok(given),
        }
    }
    Ok(given)
}

/// The next stream of the session.
fn accept_one(
    desk: &mut Desk,
    kept: &mut Kept,
    member: &Member,
) -> Result<Option<StreamId>, OutOfMemory>
    ensures { OnOk result (Leads desk.old desk.new) }
{
    let session = Some(member.session);
    let reply = desk.ask(kept, member.number, Call::AcceptUni { session })?;
    match reply {
        Reply::Uni(id) => Ok(Some(id)),
        Reply::Failed(_) => {
            kept.forget(member);
            Ok(None)
        }
        _ => Ok(None),
    }
}

/// The stream is a source, of which a copy is opened on each other session of the room. Where none opens, it is stopped.
fn open_copies(
    desk: &mut Desk,
    kept: &mut Kept,
    member: &Member,
    id: StreamId,
) -> Result<(), OutOfMemory>
    ensures { OnOk result (Leads desk.old desk.new) }
{
    let mut source = Source::new(kept.alloc(), member, id);
    let roommates = kept.roommates(member)?;
    for other in roommates.as_slice() {
        open_copy(desk, kept, &mut source, other)?;
    }
    if source.copies().is_empty() {
        let code = VarInt::from_u32(0);
        let _reply = desk.ask(kept, member.number, Call::StopRecv { id, code })?;
        return Ok(());
    }
    kept.add_source(source)?;
    Ok(())
}

/// Opens a copy on the other session, where it is another one.
fn open_copy(
    desk: &mut Desk,
    kept: &mut Kept,
    source: &mut Source,
    other: &Member,
) -> Result<(), OutOfMemory>
    ensures { OnOk result (Leads desk.old desk.new) }
{
    if !source.member.is_across(other) {
        return Ok(());
    }
    let session = Some(other.session);
    let reply = desk.ask(kept, other.number, Call::OpenUni { session })?;
    if let Reply::Opening(id) = reply {
        source.add_copy(other, id)?;
    }
    Ok(())
}
