//! The texts and closes of which errors are made.
use std::alloc::Global;
use std::process::Abort;
use wt_turn::{ApplicationClose, ConnectionClose, LossReason, Piece};
use wt_wire::text::Text;
use wt_wire::varint::VarInt;

pub fn text(rt: &impl Abort, alloc: Global, text: &str) -> Text {
    Text::from_text(alloc, text).expect(rt, "no memory")
}

pub fn piece(rt: &impl Abort, alloc: Global, bytes: &[u8]) -> Piece {
    Piece::from_slice(alloc, bytes).expect(rt, "no memory")
}

/// The application at the peer closed the connection with code 7.
pub fn by_application(rt: &impl Abort, alloc: Global, reason: &[u8]) -> ApplicationClose {
    ApplicationClose::new(VarInt::from_u32(7), piece(rt, alloc, reason))
}

/// The peer's transport closed the connection with code 10.
pub fn by_transport(rt: &impl Abort, alloc: Global, reason: &[u8]) -> ConnectionClose {
    ConnectionClose::new(VarInt::from_u32(10), piece(rt, alloc, reason))
}

/// This end's transport met an error.
pub fn transport_error(rt: &impl Abort, alloc: Global, code: u64) -> LossReason {
    let reason = text(rt, alloc, "why");
    LossReason::TransportError { code, reason }
}
