//! What happens to a connection, one turn after another.
ghost use Rattle.std.specs.Prelude.{◌≡◌, ◌↔◌, IfOk, IsTrue};

use crate::call::Call;
use crate::datagram_fact::DatagramFact;
use crate::loss::LossReason;
use crate::piece::Piece;
use crate::sequence::{Element, Sequence};
use std::alloc::Global;
use wt_wire::error::OutOfMemory;
use wt_wire::ids::StreamId;
use wt_wire::varint::VarInt;

/// One event of the QUIC transport, or one call of the application.
#[derive(PartialEq, Eq, Debug, Drop)]
pub enum Turn {
    /// The connection is established: how many streams of each kind this end may open, how many bytes each
    /// sending half may send, and what holds of datagrams.
    Connected {
        uni: u64,
        bi: u64,
        credit: u64,
        datagrams: DatagramFact,
    },
    /// The peer opened its next unidirectional stream.
    PeerUni,
    /// The peer opened its next bidirectional stream.
    PeerBi,
    /// Bytes arrived on a stream.
    Bytes {
        id: StreamId,
        piece: Piece,
    },
    /// The peer ended its half of a stream (RFC 9000, section 3.2).
    End {
        id: StreamId,
    },
    /// The peer reset its half of a stream (RFC 9000, section 19.4).
    Reset {
        id: StreamId,
        code: VarInt,
    },
    /// The peer stopped this end's half of a stream (RFC 9000, section 19.5).
    Stop {
        id: StreamId,
        code: VarInt,
    },
    /// All that was sent on a finished half is acknowledged.
    Acked {
        id: StreamId,
    },
    /// A datagram arrived (RFC 9221).
    Datagram {
        piece: Piece,
    },
    /// How many unidirectional streams this end may open in all (RFC 9000, section 19.11).
    MaxUni {
        total: u64,
    },
    /// How many bidirectional streams this end may open in all (RFC 9000, section 19.11).
    MaxBi {
        total: u64,
    },
    /// How many bytes this end may send on a stream in all (RFC 9000, section 19.10).
    MaxData {
        id: StreamId,
        total: u64,
    },
    /// What holds of datagrams from now on.
    DatagramLimit {
        fact: DatagramFact,
    },
    /// The connection is lost.
    Loss {
        reason: LossReason,
    },
    /// The application called.
    Call(Call),
}

impl Turn {
    /// A turn that is equal to this one.
    pub fn copy(&self, alloc: Global) -> Result<Turn, OutOfMemory>
        ensures { IfOk result (λ a. a ≡ self.now) }
    {
        Ok(match self {
            Turn::Connected {
                uni,
                bi,
                credit,
                datagrams,
            } => Turn::Connected {
                uni: *uni,
                bi: *bi,
                credit: *credit,
                datagrams: *datagrams,
            },
            Turn::PeerUni => Turn::PeerUni,
            Turn::PeerBi => Turn::PeerBi,
            Turn::Bytes { id, piece } => Turn::Bytes {
                id: *id,
                piece: piece.copy()?,
            },
            Turn::End { id } => Turn::End { id: *id },
            Turn::Reset { id, code } => Turn::Reset {
                id: *id,
                code: *code,
            },
            Turn::Stop { id, code } => Turn::Stop {
                id: *id,
                code: *code,
            },
            Turn::Acked { id } => Turn::Acked { id: *id },
            Turn::Datagram { piece } => Turn::Datagram {
                piece: piece.copy()?,
            },
            Turn::MaxUni { total } => Turn::MaxUni { total: *total },
            Turn::MaxBi { total } => Turn::MaxBi { total: *total },
            Turn::MaxData { id, total } => Turn::MaxData {
                id: *id,
                total: *total,
            },
            Turn::DatagramLimit { fact } => Turn::DatagramLimit { fact: *fact },
            Turn::Loss { reason } => Turn::Loss {
                reason: reason.copy(alloc)?,
            },
            Turn::Call(call) => Turn::Call(call.copy(alloc)?),
        })
    }

    /// Whether both are the same turn with the same fields.
    pub fn is_equal(&self, other: &Turn) -> bool
        ensures { IsTrue result ↔ (self.now ≡ other.now) }
    {
        match self {
            Turn::Connected {
                uni,
                bi,
                credit,
                datagrams,
            } =>
                matches!(other, Turn::Connected { uni: other_uni, bi: other_bi, credit: other_credit, datagrams: other_datagrams } if uni == other_uni && bi == other_bi && credit == other_credit && datagrams == other_datagrams),
            Turn::PeerUni => matches!(other, Turn::PeerUni),
            Turn::PeerBi => matches!(other, Turn::PeerBi),
            Turn::Bytes { id, piece } =>
                matches!(other, Turn::Bytes { id: other_id, piece: other_piece } if id == other_id && piece.is_equal(other_piece)),
            Turn::End { id } => matches!(other, Turn::End { id: other_id } if id == other_id),
            Turn::Reset { id, code } =>
                matches!(other, Turn::Reset { id: other_id, code: other_code } if id == other_id && code == other_code),
            Turn::Stop { id, code } =>
                matches!(other, Turn::Stop { id: other_id, code: other_code } if id == other_id && code == other_code),
            Turn::Acked { id } => matches!(other, Turn::Acked { id: other_id } if id == other_id),
            Turn::Datagram { piece } =>
                matches!(other, Turn::Datagram { piece: other_piece } if piece.is_equal(other_piece)),
            Turn::MaxUni { total } =>
                matches!(other, Turn::MaxUni { total: other_total } if total == other_total),
            Turn::MaxBi { total } =>
                matches!(other, Turn::MaxBi { total: other_total } if total == other_total),
            Turn::MaxData { id, total } =>
                matches!(other, Turn::MaxData { id: other_id, total: other_total } if id == other_id && total == other_total),
            Turn::DatagramLimit { fact } =>
                matches!(other, Turn::DatagramLimit { fact: other_fact } if fact == other_fact),
            Turn::Loss { reason } =>
                matches!(other, Turn::Loss { reason: other_reason } if reason.is_equal(other_reason)),
            Turn::Call(call) =>
                matches!(other, Turn::Call(other_call) if call.is_equal(other_call)),
        }
    }
}

impl Element for Turn {
    fn copied(&self, alloc: Global) -> Result<Turn, OutOfMemory> {
        self.copy(alloc)
    }

    fn is_same(&self, other: &Turn) -> bool {
        self.is_equal(other)
    }
}

/// A list of turns, in the order in which they come.
pub type Turns = Sequence<Turn>;
