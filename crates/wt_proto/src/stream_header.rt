//! The header of a unidirectional stream.
ghost use Rattle.std.specs.Prelude.{◌≡◌, ◌++◌, ◌<◌, ◌^◌, OnOk, Some, None, List, ℕ};
ghost use Rattle.wt_proto.specs.StreamHeader.{header_bytes, header_kind, header_verdict, kind_of_type, stream_type};
ghost use Rattle.wt_proto.specs.Uni.{uni_verdict_of};
ghost use Rattle.wt_wire.specs.declared.side.StreamEnd.{StreamEnd};

use std::marker::Model;
use wt_wire::error::OutOfMemory;
use wt_wire::exercise::is_exercise;
use wt_wire::ids::{SessionId, StreamId};
use wt_wire::varint::{VarInt, write_varint};

/// The type of a control stream (RFC 9114, section 6.2.1).
const CONTROL: u64 = 0x00;

/// The type of the stream of a QPACK encoder (RFC 9204, section 4.2).
const QPACK_ENCODER: u64 = 0x02;

/// The type of the stream of a QPACK decoder (RFC 9204, section 4.2).
const QPACK_DECODER: u64 = 0x03;

/// The type of a WebTransport stream (draft-ietf-webtrans-http3, section 4.2).
const WEBTRANSPORT: u64 = 0x54;

/// What a unidirectional stream is for.
#[derive(Clone, Copy, Debug, PartialEq, Eq)]
pub enum StreamKind {
    /// 0x00 (RFC 9114, section 6.2.1).
    Control,
    /// 0x02 (RFC 9204, section 4.2).
    QPackEncoder,
    /// 0x03 (RFC 9204, section 4.2).
    QPackDecoder,
    /// 0x54, which a session's id follows (draft-ietf-webtrans-http3, section 4.2).
    WebTransport,
    /// A reserved type, 0x1f * N + 0x21 (RFC 9114, section 6.2.3).
    Exercise(VarInt),
}

impl StreamKind {
    /// The stream's type on the wire.
    pub fn number(self) -> VarInt
        ensures { result ≡ stream_type self }
    {
        match self {
            StreamKind::Control => VarInt::from_u64(CONTROL),
            StreamKind::QPackEncoder => VarInt::from_u64(QPACK_ENCODER),
            StreamKind::QPackDecoder => VarInt::from_u64(QPACK_DECODER),
            StreamKind::WebTransport => VarInt::from_u64(WEBTRANSPORT),
            StreamKind::Exercise(number) => number,
        }
    }

    /// The kind of a type on the wire; None exactly for a type that is neither known nor reserved.
    pub fn of_number(number: VarInt) -> Option<StreamKind>
        ensures { result ≡ kind_of_type number }
    {
        match number.into_inner() {
            CONTROL => Some(StreamKind::Control),
            QPACK_ENCODER => Some(StreamKind::QPackEncoder),
            QPACK_DECODER => Some(StreamKind::QPackDecoder),
            WEBTRANSPORT => Some(StreamKind::WebTransport),
            n if is_exercise(n) => Some(StreamKind::Exercise(number)),
            _ => None,
        }
    }
}

/// The header of a unidirectional stream that this side opens: the control stream or a stream of a
/// session. Contracts see the session, or None for the control stream.
#[derive(Clone, Copy, Debug, PartialEq, Eq)]
pub struct StreamHeader {
    session: Option<SessionId>,
}

impl Model for StreamHeader {
    ghost use Rattle.std.specs.Prelude.{ℕ, Option};

    ghost Value = { Option ℕ };

    ghost view = { λ h. h.session };

    ghost inverse = { λ s. record { session = s } };
}

impl StreamHeader {
    /// The header of a control stream.
    pub fn new_control() -> StreamHeader
        ensures { result ≡ None }
    {
        StreamHeader { session: None }
    }

    /// The header of a stream of this session.
    pub fn new_webtransport(session: SessionId) -> StreamHeader
        ensures { result ≡ Some session }
    {
        StreamHeader {
            session: Some(session),
        }
    }

    /// What the stream is for.
    pub fn kind(&self) -> StreamKind
        ensures { result ≡ header_kind self.now }
    {
        match self.session {
            None => StreamKind::Control,
            Some(_) => StreamKind::WebTransport,
        }
    }

    /// The session that the stream is of; None for the control stream.
    pub fn session_id(&self) -> Option<SessionId>
        ensures { result ≡ self.now }
    {
        self.session
    }

    /// Appends the stream's type, and the session's id; the peer reads that header again.
    #[tactic(auto, using(crate::proofs::HeaderAgain::control_again, crate::proofs::HeaderAgain::session_again))]
    pub fn write(&self, out: &mut Vec<u8>) -> Result<(), OutOfMemory>
        ensures bytes { OnOk result (out.new.items ≡ out.old.items ++ header_bytes self.now) }
        ensures again { OnOk result ((more : List ℕ) (end : StreamEnd)
            → uni_verdict_of (header_bytes self.now ++ more) end ≡ header_verdict self.now) }
    {
        match self.session {
            None => write_varint(StreamKind::Control.number(), out),
            Some(session) => write_session(session.session_stream(), out),
        }
    }
}

fn write_session(session: StreamId, out: &mut Vec<u8>) -> Result<(), OutOfMemory>
    ensures bytes { OnOk result (out.new.items ≡ out.old.items ++ header_bytes (Some session)) }
    ensures small { OnOk result (session < 2 ^ 62) }
{
    write_varint(StreamKind::WebTransport.number(), out)?;
    write_varint(session.into_varint(), out)
}
