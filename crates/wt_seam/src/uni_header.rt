//! The header of a unidirectional stream that the peer opened.
ghost use Rattle.std.specs.Prelude.{◌≡◌, ◌≤◌, Some};
ghost use Rattle.wt_wire.specs.Varint.{varint_at};
ghost use Rattle.wt_proto.specs.WalkProgress.{at_item};
ghost use Rattle.wt_seam.specs.UniHeader.{header_at, kind_of, session_header, with_session_id};

use crate::item_reader::{Grammar, ItemReader};
use std::alloc::Global;
use wt_proto::stream_header::StreamKind;
use wt_proto::walk::Step;
use wt_wire::error::{ErrorCode, OutOfMemory};
use wt_wire::exercise::is_exercise;
use wt_wire::ids::{SessionId, StreamId};
use wt_wire::varint::{VarInt, read_varint};

/// What a stream's header says.
#[derive(Clone, Copy, Debug, PartialEq, Eq)]
pub enum UniHeader {
    /// The control stream (RFC 9114, section 6.2.1).
    Control,
    /// The stream of a QPACK encoder (RFC 9204, section 4.2).
    QPackEncoder,
    /// The stream of a QPACK decoder (RFC 9204, section 4.2).
    QPackDecoder,
    /// A stream of this session (draft-ietf-webtrans-http3, section 4.2).
    WebTransport(SessionId),
    /// A stream of a reserved type, 0x1f * N + 0x21 (RFC 9114, section 6.2.3).
    Exercise(VarInt),
}

impl UniHeader {
    /// What the stream is for.
    pub fn kind(&self) -> StreamKind
        ensures { result ≡ kind_of self.now }
    {
        match self {
            UniHeader::Control => StreamKind::Control,
            UniHeader::QPackEncoder => StreamKind::QPackEncoder,
            UniHeader::QPackDecoder => StreamKind::QPackDecoder,
            UniHeader::WebTransport(_) => StreamKind::WebTransport,
            UniHeader::Exercise(number) => StreamKind::Exercise(*number),
        }
    }
}

/// The session that a header names.
fn of_session(id: VarInt) -> Result<UniHeader, ErrorCode>
    ensures { result ≡ session_header id }
{
    match SessionId::try_from_session_stream(StreamId::new(id)) {
        Some(session) => Ok(UniHeader::WebTransport(session)),
        // No CONNECT request can have come on a stream of this id.
        None => Err(ErrorCode::Id),
    }
}

/// The id of a session, after a type of `offset` bytes.
fn with_session(bytes: &[u8], offset: usize) -> Option<(Result<UniHeader, ErrorCode>, usize)>
    requires { offset ≤ 8 }
    ensures { result ≡ with_session_id offset (varint_at bytes.now) }
{
    let (id, length) = read_varint(bytes)?;
    Some((of_session(id), offset + length))
}

/// The header at the front of the bytes, and how many bytes it has; None where they end inside it.
#[tactic(auto, unfolding(crate::specs::UniHeader::header_at))]
fn read_header(bytes: &[u8]) -> Option<(Result<UniHeader, ErrorCode>, usize)>
    ensures { result ≡ header_at bytes.now }
{
    let (number, offset) = read_varint(bytes)?;
    match number.into_inner() {
        0x00 => Some((Ok(UniHeader::Control), offset)),
        0x02 => Some((Ok(UniHeader::QPackEncoder), offset)),
        0x03 => Some((Ok(UniHeader::QPackDecoder), offset)),
        0x54 => with_session(&bytes[offset..], offset),
        n if is_exercise(n) => Some((Ok(UniHeader::Exercise(number)), offset)),
        // What a caller does about it is its own matter: an unknown type must not end the connection (RFC
        // 9114, section 6.2).
        _ => Some((Err(ErrorCode::StreamCreation), offset)),
    }
}

/// The one item of the header's reader: the header.
pub struct HeaderFront;

impl Grammar for HeaderFront {
    type State = ();

    type Item = UniHeader;

    ghost use Rattle.wt_seam.specs.UniHeader.{header_decides};

    ghost decides = { header_decides };

    #[tactic(auto, unfolding(crate::specs::UniHeader::header_decides))]
    fn step(
        _alloc: Global,
        _state: &(),
        bytes: &[u8],
    ) -> Result<Step<(), Result<UniHeader, ErrorCode>>, OutOfMemory> {
        match read_header(bytes) {
            Some((header, size)) => Ok(Step::Stops(header, size as u64)),
            None => Ok(Step::Cut),
        }
    }
}

/// A reader of a stream's header.
pub type HeaderReader = ItemReader<HeaderFront>;

impl ItemReader<HeaderFront> {
    /// A reader that took no bytes.
    #[tactic(auto, using(crate::proofs::HeaderLaws::header_steady))]
    pub(crate) fn for_header(alloc: Global) -> Self
        ensures { result ≡ at_item tt }
    {
        ItemReader::new(alloc, ())
    }
}
