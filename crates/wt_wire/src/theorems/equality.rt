//! `==` of small values is their equality.
ghost use Rattle.std.specs.Prelude.{◌≡◌, ◌↔◌, IsTrue};

use crate::error::ErrorCode;
use crate::ids::{QStreamId, SessionId, StreamId};
use crate::side::{Side, StreamEnd};
use crate::status::StatusCode;
use crate::varint::VarInt;

/// Of variable-length integers.
pub fn varints_are_equal(first: VarInt, second: VarInt) -> bool
    ensures { IsTrue result ↔ (first ≡ second) }
{
    first == second
}

/// Of stream ids.
pub fn stream_ids_are_equal(first: StreamId, second: StreamId) -> bool
    ensures { IsTrue result ↔ (first ≡ second) }
{
    first == second
}

/// Of session ids.
pub fn session_ids_are_equal(first: SessionId, second: SessionId) -> bool
    ensures { IsTrue result ↔ (first ≡ second) }
{
    first == second
}

/// Of quarter stream ids.
pub fn quarter_ids_are_equal(first: QStreamId, second: QStreamId) -> bool
    ensures { IsTrue result ↔ (first ≡ second) }
{
    first == second
}

/// Of status codes.
pub fn status_codes_are_equal(first: StatusCode, second: StatusCode) -> bool
    ensures { IsTrue result ↔ (first ≡ second) }
{
    first == second
}

/// Of error codes.
pub fn error_codes_are_equal(first: ErrorCode, second: ErrorCode) -> bool
    ensures { IsTrue result ↔ (first ≡ second) }
{
    first == second
}

/// Of the ends of a connection.
pub fn sides_are_equal(first: Side, second: Side) -> bool
    ensures { IsTrue result ↔ (first ≡ second) }
{
    first == second
}

/// Of the states of a peer's half of a stream.
pub fn stream_ends_are_equal(first: StreamEnd, second: StreamEnd) -> bool
    ensures { IsTrue result ↔ (first ≡ second) }
{
    first == second
}
