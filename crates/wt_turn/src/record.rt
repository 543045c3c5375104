//! What a call of the application did.

use crate::piece::Piece;
use wt_wire::ids::{SessionId, StreamId};
use wt_wire::text::Text;
use wt_wire::varint::VarInt;

/// What a call of the application did, as the log has it.
#[derive(Debug, Drop)]
pub enum Record {
    /// It dialled; once SETTINGS came it fails for a reserved name or sends this request.
    ConnectStarted(Option<Text>, Piece),
    /// The request of this stream was given.
    RequestDelivered(StreamId),
    /// This response is to be sent; whether it accepts.
    ResponseStarted(bool, Piece),
    /// The rejection of this stream's request is over: there is no session.
    RequestRejected(StreamId),
    /// The acceptance of the request failed: there is no session.
    AcceptanceFailed,
    /// A connect failed, or no request comes any more: there is no session.
    HandshakeOver,
    /// The session's part of its stream begins at this offset.
    SessionEstablished(StreamId, usize),
    /// An accept gave this stream of the session, or an opening that is through.
    StreamAccepted(StreamId, SessionId),
    /// An accept met this stream of another session.
    StreamPassed(StreamId),
    /// A stream is being opened for a session.
    OpeningStarted(StreamId, SessionId),
    /// An opening failed.
    OpeningFailed(StreamId),
    /// This number of bytes of a stream was read.
    BytesRead(StreamId, usize),
    /// The application stopped the receiving half of this stream.
    StreamGivenUp(StreamId),
    /// A reset after the end: it counts, and nothing goes out.
    ResetUnsent(StreamId, VarInt),
    /// The priority of a sending half.
    PrioritySet(StreamId, i32),
    /// The application took the next datagram of its session: its index among all that came, from 0.
    DatagramReceived(u64),
    /// A receive met a datagram of another session.
    DatagramPassed,
    /// Every other call.
    Polled,
}
