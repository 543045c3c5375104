//! The passes that follow a turn.
#![tactic(auto, using(crate::proofs::Leading::leads_refl, crate::proofs::Leading::leads_trans))]

ghost use Rattle.std.specs.Prelude.{◌≡◌, IfOk, IsTrue, List, OnOk};
ghost use Rattle.wt_endpoint.specs.Connections.{StandsFor, may_take};
ghost use Rattle.wt_endpoint.specs.declared.turn.EndpointTurn.{EndpointTurn};
ghost use Rattle.wt_relay.specs.Calls.{Answers};
ghost use Rattle.wt_relay.specs.Desk.{Leads};
ghost use Rattle.wt_wire.specs.declared.side.Side.TheVariants as sides;

use crate::answers::RelayAnswers;
use crate::copies::serve;
use crate::desk::Desk;
use crate::kept::Kept;
use crate::streams::accept_streams;
use wt_turn::Turn;
use wt_turn::reply::Reply;
use wt_wire::error::OutOfMemory;

/// The answers to a turn of this connection, and to the calls that follow from it.
///
/// # Errors
///
/// `OutOfMemory` may come at any turn.
pub fn take_turn(
    desk: &mut Desk,
    kept: &mut Kept,
    number: u32,
    turn: &Turn,
) -> Result<RelayAnswers, OutOfMemory>
    requires { IsTrue (may_take sides.Server desk.old.connections number turn.now) }
    ensures { (all : List EndpointTurn) → StandsFor sides.Server desk.old.connections all
        → IfOk result (λ given. Answers all number turn.now desk.new.connections given) }
{
    kept.take_turn(number, turn)?;
    desk.take_turn(kept, number, turn)?;
    make_passes(desk, kept, number)?;
    Ok(desk.take_answers())
}

/// Makes passes until one changed nothing. Handshakes and new streams are those of the turn's connection; they may go on after a
/// handshake that failed.
fn make_passes(desk: &mut Desk, kept: &mut Kept, number: u32) -> Result<(), OutOfMemory>
    ensures { OnOk result (Leads desk.old desk.new) }
{
    let mut goes_on = true;
    'passes: for _ in 0..u64::MAX {
        if !goes_on && kept.is_at_rest() {
            return Ok(());
        }
        goes_on = make_pass(desk, kept, number, goes_on)?;
    }
    Ok(())
}

/// Makes one pass, with handshakes and new streams where they may go on: whether they still may.
fn make_pass(
    desk: &mut Desk,
    kept: &mut Kept,
    number: u32,
    goes_on: bool,
) -> Result<bool, OutOfMemory>
    ensures { OnOk result (Leads desk.old desk.new) }
{
    if !goes_on {
        serve(desk, kept)?;
        return Ok(false);
    }
    let goes_on = shake_hands(desk, kept, number)?;
    accept_streams(desk, kept, number)?;
    serve(desk, kept)?;
    Ok(goes_on)
}

/// Accepts the connection's requests, until a call answers `Pending` or `Failed`: whether the last one failed, after which another
/// request may be there.
fn shake_hands(desk: &mut Desk, kept: &mut Kept, number: u32) -> Result<bool, OutOfMemory>
    ensures { OnOk result (Leads desk.old desk.new) }
{
    'shakes: for _ in 0..u64::MAX {
        let Some(call) = desk.next_shake(number) else {
            return Ok(false);
        };
        let reply = desk.ask(kept, number, call)?;
        if let Some(failed) = end_of_shakes(&reply) {
            return Ok(failed);
        }
        kept.take_shake(number, &reply)?;
    }
    Ok(false)
}

/// Whether the reply ends the handshakes by failing; None where they go on.
fn end_of_shakes(reply: &Reply) -> Option<bool> {
    match reply {
        Reply::Pending => Some(false),
        Reply::Failed(_) => Some(true),
        _ => None,
    }
}
