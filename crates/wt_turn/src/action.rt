//! What goes out to the transport.
ghost use Rattle.std.specs.Prelude.{◌≡◌, ◌↔◌, IfOk, IsTrue};

use crate::piece::Piece;
use crate::sequence::{Element, Sequence};
use std::alloc::Global;
use wt_wire::addr::Addr;
use wt_wire::error::OutOfMemory;
use wt_wire::ids::StreamId;
use wt_wire::text::Text;
use wt_wire::varint::VarInt;

/// What the transport is to do.
#[derive(PartialEq, Eq, Debug, Drop)]
pub enum Action {
    /// Connects to an address, with this server name.
    Dial { address: Addr, name: Text },
    /// Opens this end's next stream of the id's kind.
    Opened { id: StreamId },
    /// Sends bytes on a stream.
    Send { id: StreamId, piece: Piece },
    /// Ends this end's half of a stream (RFC 9000, section 3.1).
    Finish { id: StreamId },
    /// Resets this end's half of a stream (RFC 9000, section 19.4).
    ResetOut { id: StreamId, code: VarInt },
    /// Asks the peer to stop its half of a stream (RFC 9000, section 19.5).
    StopOut { id: StreamId, code: VarInt },
    /// Sends a datagram (RFC 9221).
    DatagramOut { piece: Piece },
    /// Closes the connection.
    Close { code: VarInt, reason: Piece },
}

impl Action {
    /// An action that is equal to this one.
    pub fn copy(&self, alloc: Global) -> Result<Action, OutOfMemory>
        ensures { IfOk result (λ a. a ≡ self.now) }
    {
        Ok(match self {
            Action::Dial { address, name } => Action::Dial {
                address: *address,
                name: Text::from_text(alloc, name.as_str())?,
            },
            Action::Opened { id } => Action::Opened { id: *id },
            Action::Send { id, piece } => Action::Send {
                id: *id,
                piece: piece.copy()?,
            },
            Action::Finish { id } => Action::Finish { id: *id },
            Action::ResetOut { id, code } => Action::ResetOut {
                id: *id,
                code: *code,
            },
            Action::StopOut { id, code } => Action::StopOut {
                id: *id,
                code: *code,
            },
            Action::DatagramOut { piece } => Action::DatagramOut {
                piece: piece.copy()?,
            },
            Action::Close { code, reason } => Action::Close {
                code: *code,
                reason: reason.copy()?,
            },
        })
    }

    /// Whether both are the same action with the same fields.
    pub fn is_equal(&self, other: &Action) -> bool
        ensures { IsTrue result ↔ (self.now ≡ other.now) }
    {
        match self {
            Action::Dial { address, name } =>
                matches!(other, Action::Dial { address: other_address, name: other_name } if address == other_address && name.is_equal(other_name)),
            Action::Opened { id } =>
                matches!(other, Action::Opened { id: other_id } if id == other_id),
            Action::Send { id, piece } =>
                matches!(other, Action::Send { id: other_id, piece: other_piece } if id == other_id && piece.is_equal(other_piece)),
            Action::Finish { id } =>
                matches!(other, Action::Finish { id: other_id } if id == other_id),
            Action::ResetOut { id, code } =>
                matches!(other, Action::ResetOut { id: other_id, code: other_code } if id == other_id && code == other_code),
            Action::StopOut { id, code } =>
                matches!(other, Action::StopOut { id: other_id, code: other_code } if id == other_id && code == other_code),
            Action::DatagramOut { piece } =>
                matches!(other, Action::DatagramOut { piece: other_piece } if piece.is_equal(other_piece)),
            Action::Close { code, reason } =>
                matches!(other, Action::Close { code: other_code, reason: other_reason } if code == other_code && reason.is_equal(other_reason)),
        }
    }
}

impl Element for Action {
    fn copied(&self, alloc: Global) -> Result<Action, OutOfMemory> {
        self.copy(alloc)
    }

    fn is_same(&self, other: &Action) -> bool {
        self.is_equal(other)
    }
}

/// A list of actions, in the order in which they go out.
pub type Actions = Sequence<Action>;
