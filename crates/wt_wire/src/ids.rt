//! Ids of streams and sessions (RFC 9000, section 2.1; draft-ietf-webtrans-http3, section 4).
ghost use Rattle.std.specs.Prelude.{◌≡◌, ◌<◌, ◌^◌, ◌*◌, ◌/◌, ◌%◌, ◌↔◌, IfSome, IsSome};
ghost use Rattle.wt_wire.specs.Ids.{is_bidirectional, is_client_initiated, is_local};

use crate::side::Side;
use crate::varint::VarInt;
use std::fmt;
use std::marker::Model;

/// The id of a QUIC stream (RFC 9000, section 2.1). Its lowest bit says who opened it, the next one
/// whether it is bidirectional.
#[derive(Clone, Copy, Debug, PartialEq, Eq)]
pub struct StreamId {
    id: VarInt,
}

impl Model for StreamId {
    ghost use Rattle.std.specs.Prelude.{ℕ};

    ghost Value = { ℕ };

    ghost view = { λ s. s.id };

    ghost inverse = { λ n. record { id = n } };
}

impl StreamId {
    /// The id of this number.
    pub fn new(id: VarInt) -> StreamId
        ensures { result ≡ id }
    {
        StreamId { id }
    }

    /// The id as it is written.
    pub fn into_varint(self) -> VarInt
        ensures { result ≡ self }
    {
        self.id
    }

    /// The number.
    pub fn into_u64(self) -> u64
        ensures value { result ≡ self }
        ensures small { result < 2 ^ 62 }
    {
        self.id.into_inner()
    }

    /// Whether both ends send on it, by its second lowest bit (RFC 9000, section 2.1).
    pub fn is_bidirectional(self) -> bool
        ensures { result ≡ is_bidirectional self }
    {
        self.into_u64() / 2 % 2 == 0
    }

    /// Whether the client opened it, by its lowest bit (RFC 9000, section 2.1).
    pub fn is_client_initiated(self) -> bool
        ensures { result ≡ is_client_initiated self }
    {
        self.into_u64() % 2 == 0
    }

    /// Whether this side opened it.
    pub fn is_local(self, side: Side) -> bool
        ensures { result ≡ is_local side self }
    {
        match side {
            Side::Client => self.is_client_initiated(),
            Side::Server => !self.is_client_initiated(),
        }
    }
}

/// The id in decimal digits.
impl fmt::Display for StreamId {
    ghost use Rattle.std.specs.Prelude.{Some};
    ghost use Rattle.std.specs.Fmt.{decimal};

    ghost output = { λ s. Some (decimal s) };

    fn fmt<W: fmt::Write>(&self, f: &mut fmt::Formatter<W>) -> fmt::Result {
        let id = self.into_u64();
        write!(f, "{id}")
    }
}

/// The id of a session: that of the client's bidirectional stream that asked for it, so a multiple
/// of 4.
#[derive(Clone, Copy, Debug, PartialEq, Eq)]
pub struct SessionId {
    id: StreamId,
}

impl Model for SessionId {
    ghost use Rattle.std.specs.Prelude.{ℕ, ◌≡◌, ◌%◌};

    ghost Value = { ℕ };

    ghost view = { λ s. s.id };

    ghost invariant = { λ s. s.id % 4 ≡ 0 };

    ghost inverse = { λ n. record { id = n } };
}

impl SessionId {
    /// None exactly where the id isn't a multiple of 4.
    pub fn try_from_session_stream(id: StreamId) -> Option<SessionId>
        ensures some { IsSome result ↔ (id % 4 ≡ 0) }
        ensures value { IfSome result (λ s. s ≡ id) }
    {
        // A CONNECT request comes on a bidirectional stream that the client opened, and both low bits of its
        // id are 0.
        if id.into_u64() % 4 == 0 {
            Some(SessionId { id })
        } else {
            None
        }
    }

    /// The stream that asked for the session.
    pub fn session_stream(self) -> StreamId
        ensures stream { result ≡ self }
        ensures multiple { result % 4 ≡ 0 }
    {
        self.id
    }
}

/// The id in decimal digits.
impl fmt::Display for SessionId {
    ghost use Rattle.std.specs.Prelude.{Some};
    ghost use Rattle.std.specs.Fmt.{decimal};

    ghost output = { λ s. Some (decimal s) };

    fn fmt<W: fmt::Write>(&self, f: &mut fmt::Formatter<W>) -> fmt::Result {
        let id = self.id.into_u64();
        write!(f, "{id}")
    }
}

/// The quarter of a session's id, which names the session in its datagrams (RFC 9297, section 2.1).
#[derive(Clone, Copy, Debug, PartialEq, Eq)]
pub struct QStreamId {
    quarter: VarInt,
}

impl Model for QStreamId {
    ghost use Rattle.std.specs.Prelude.{ℕ, ◌<◌, ◌^◌};

    ghost Value = { ℕ };

    ghost view = { λ q. q.quarter };

    ghost invariant = { λ q. q.quarter < 2 ^ 60 };

    ghost inverse = { λ n. record { quarter = n } };
}

impl QStreamId {
    /// The quarter that names this session (RFC 9297, section 2.1).
    pub fn from_session_id(id: SessionId) -> QStreamId
        ensures { result ≡ id / 4 }
    {
        let id = id.session_stream().into_u64();
        QStreamId {
            quarter: VarInt::from_u64(id / 4),
        }
    }

    /// The quarter stream id of a datagram; None exactly above 2^60 - 1, where four times it is no
    /// stream's id.
    pub fn try_from_varint(quarter: VarInt) -> Option<QStreamId>
        ensures some { IsSome result ↔ (quarter < 2 ^ 60) }
        ensures value { IfSome result (λ q. q ≡ quarter) }
    {
        // Four times a greater one is no id that a stream can have, so it names no session (RFC 9297, section
        // 2.1).
        if quarter.into_inner() < 1 << 60 {
            Some(QStreamId { quarter })
        } else {
            None
        }
    }

    /// The number in a datagram.
    pub fn into_varint(self) -> VarInt
        ensures value { result ≡ self }
        ensures small { result < 2 ^ 60 }
    {
        self.quarter
    }

    /// The session that it names, whose id is four times it.
    pub fn into_session_id(self) -> SessionId
        ensures { result ≡ 4 * self }
    {
        let id = 4 * self.quarter.into_inner();
        SessionId {
            id: StreamId::new(VarInt::from_u64(id)),
        }
    }
}
