//! The ends of connections and of streams.

use crate::varint::VarInt;

/// An end of a connection.
#[derive(Clone, Copy, Debug, PartialEq, Eq)]
pub enum Side {
    /// The end that asks for the connection.
    Client,
    /// The end that answers.
    Server,
}

/// The state of a peer's half of a stream (RFC 9000, section 3.2).
///
/// ```text
/// Running --FIN--> Fin
///         --RESET_STREAM--> Reset
/// ```
#[derive(Clone, Copy, Debug, PartialEq, Eq)]
pub enum StreamEnd {
    /// Bytes may follow.
    Running,
    /// It ended cleanly.
    Fin,
    /// It was reset with this code.
    Reset(VarInt),
}
