//! Kinds of streams, and the place of a stream among those of its kind, by its id (RFC 9000, section 2.1).
ghost use Rattle.std.specs.Prelude.{◌≡◌, ◌<◌, ◌+◌, ◌*◌, ◌/◌, ◌%◌, ◌^◌};
ghost use Rattle.wt_transport.specs.Kind.{local_kind, peer_kind};

use wt_wire::ids::StreamId;
use wt_wire::side::Side;
use wt_wire::varint::VarInt;

/// How many streams of a kind there can be: no id names one beyond them (RFC 9000, section 4.6).
pub const MOST_STREAMS: u64 = 1 << 60;

/// The kind of a stream: the low two bits of its id.
pub fn kind_of(id: StreamId) -> usize
    ensures kind { result ≡ id % 4 }
    ensures small { result < 4 }
{
    (id.into_u64() % 4) as usize
}

/// How many streams of its kind come before a stream.
pub fn index_of(id: StreamId) -> usize
    ensures { result ≡ id / 4 }
{
    (id.into_u64() / 4) as usize
}

/// The id of a kind's stream, by how many come before it.
pub fn stream_id(kind: usize, index: u64) -> StreamId
    requires kind { kind < 4 }
    requires index { index < 2 ^ 60 }
    ensures { result ≡ 4 * index + kind }
{
    StreamId::new(VarInt::from_u64(4 * index + kind as u64))
}

/// The kind of the streams that this end opens: the lowest bit says who opens them, the next one whether
/// both ends send.
pub fn local_kind(side: Side, bidirectional: bool) -> usize
    ensures kind { result ≡ local_kind bidirectional side }
    ensures small { result < 4 }
{
    match (side, bidirectional) {
        (Side::Client, true) => 0,
        (Side::Server, true) => 1,
        (Side::Client, false) => 2,
        (Side::Server, false) => 3,
    }
}

/// The kind of the streams that the peer opens.
pub fn peer_kind(side: Side, bidirectional: bool) -> usize
    ensures kind { result ≡ peer_kind bidirectional side }
    ensures small { result < 4 }
{
    match side {
        Side::Client => local_kind(Side::Server, bidirectional),
        Side::Server => local_kind(Side::Client, bidirectional),
    }
}
