//! The head of an action, and its bytes.
ghost use Rattle.std.specs.Prelude.{◌≡◌};
ghost use Rattle.wt_abi.specs.Actions.{action_bytes, action_head, action_numbers, on_stream};
ghost use Rattle.wt_abi.specs.Replies.{address_head};

use crate::head::ActionHead;
use crate::replies::{address_head, no_address};
use wt_turn::Action;
use wt_wire::addr::Addr;
use wt_wire::ids::StreamId;

fn numbered(kind: u32, id: u64, code: u64) -> ActionHead
    ensures { result ≡ on_stream kind id code }
{
    ActionHead {
        kind,
        id,
        code,
        address: no_address(),
        length: 0,
    }
}

fn on_stream(kind: u32, id: StreamId, code: u64) -> ActionHead
    ensures { result ≡ on_stream kind id code }
{
    numbered(kind, id.into_u64(), code)
}

fn dial_head(address: Addr) -> ActionHead
    ensures { result ≡ record { kind = 0; id = 0; code = 0; address = address_head address; length = 0 } }
{
    ActionHead {
        kind: 0,
        id: 0,
        code: 0,
        address: address_head(address),
        length: 0,
    }
}

/// The numbers of an action.
fn action_numbers(action: &Action) -> ActionHead
    ensures { result ≡ action_numbers action.now }
{
    match action {
        Action::Dial { address, .. } => dial_head(*address),
        Action::Opened { id } => on_stream(1, *id, 0),
        Action::Send { id, .. } => on_stream(2, *id, 0),
        Action::Finish { id } => on_stream(3, *id, 0),
        Action::ResetOut { id, code } => on_stream(4, *id, code.into_inner()),
        Action::StopOut { id, code } => on_stream(5, *id, code.into_inner()),
        Action::DatagramOut { .. } => numbered(6, 0, 0),
        Action::Close { code, .. } => numbered(7, 0, code.into_inner()),
    }
}

/// The bytes of an action.
pub fn action_bytes(action: &Action) -> &[u8]
    ensures { result.now ≡ action_bytes action.now }
{
    match action {
        Action::Dial { name, .. } => name.as_str().as_bytes(),
        Action::Send { piece, .. } => piece.as_slice(),
        Action::DatagramOut { piece } => piece.as_slice(),
        Action::Close { reason, .. } => reason.as_slice(),
        _ => b"",
    }
}

/// The head of an action.
pub fn action_head(action: &Action) -> ActionHead
    ensures { result ≡ action_head action.now }
{
    let mut head = action_numbers(action);
    head.length = action_bytes(action).len() as u64;
    head
}
