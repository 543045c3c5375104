//! The frame at the front of some bytes (RFC 9114, section 7.1).
ghost use Rattle.std.specs.Prelude.{◌≡◌, ◌≤◌, ◌<◌, ◌^◌, List, ℕ, Option, length};
ghost use Rattle.wt_wire.specs.Frames.{frame_at, frame_with_header};
ghost use Rattle.wt_wire.specs.ParsedFrame.{LiesWithin, parsed_value};

use crate::frame::{DATA, HEADERS, SETTINGS, WEBTRANSPORT};
use crate::varint::{VarInt, read_varint};

/// The longest payload of a frame of a known type, in bytes (this repository's rule; RFC 9114,
/// section 7.1, sets no bound).
const LONGEST_PAYLOAD: u64 = 4096;

/// The frame at the front of some bytes. A payload is the offset of its first byte and its length.
#[derive(Clone, Copy, Debug, PartialEq, Eq)]
pub enum ParsedFrame {
    /// The bytes end inside the header, or inside the payload of a frame of a known type.
    Incomplete,
    /// The signal of a WebTransport stream; the id of its session begins at this offset.
    Signal(usize),
    /// The payload of a frame of a known type has more than 4,096 bytes; this many bytes
    /// are its header.
    TooLong(usize),
    /// The payload of a DATA frame (RFC 9114, section 7.2.1).
    Data(usize, usize),
    /// The payload of a HEADERS frame (RFC 9114, section 7.2.2).
    Headers(usize, usize),
    /// The payload of a SETTINGS frame (RFC 9114, section 7.2.4).
    Settings(usize, usize),
    /// A frame of this type, which isn't known, and how many bytes it has.
    Skipped(VarInt, u64),
}

/// The frame of this type with a header of `header` bytes and a payload of `size` bytes.
fn frame_after_header(bytes: &[u8], kind: VarInt, header: usize, size: VarInt) -> ParsedFrame
    requires some { 1 ≤ header }
    requires few { header ≤ 16 }
    requires within { header ≤ length bytes.now }
    ensures frame { (id_at : List ℕ → Option (ℕ × ℕ)) → parsed_value id_at bytes.now result ≡ frame_with_header bytes.now kind header size }
    ensures within { LiesWithin (length bytes.now) result }
{
    let number = kind.into_inner();
    let size = size.into_inner();
    // A frame of a type that isn't known is skipped, whatever its length (RFC 9114, section 9): its payload
    // needn't be here.
    if number != DATA && number != HEADERS && number != SETTINGS {
        return ParsedFrame::Skipped(kind, header as u64 + size);
    }
    // By its header alone: a peer can't make this end keep, or wait for, a payload that it will refuse (RFC
    // 9114, section 10.5).
    if size > LONGEST_PAYLOAD {
        return ParsedFrame::TooLong(header);
    }
    let size = size as usize;
    // A known type means something only as a whole.
    if bytes.len() < header + size {
        return ParsedFrame::Incomplete;
    }
    match number {
        DATA => ParsedFrame::Data(header, size),
        HEADERS => ParsedFrame::Headers(header, size),
        _ => ParsedFrame::Settings(header, size),
    }
}

/// The frame at the front of the bytes (RFC 9114, section 7.1), which lies within them.
#[tactic(auto, unfolding(crate::specs::Frames::frame_at))]
pub fn parse_frame(bytes: &[u8]) -> ParsedFrame
    ensures frame { (id_at : List ℕ → Option (ℕ × ℕ)) → parsed_value id_at bytes.now result ≡ frame_at id_at bytes.now }
    ensures within { LiesWithin (length bytes.now) result }
{
    let Some((kind, offset)) = read_varint(bytes) else {
        return ParsedFrame::Incomplete;
    };
    // It has no length. The session's id follows, and then the application's bytes
    // (draft-ietf-webtrans-http3, section 4.3).
    if kind.into_inner() == WEBTRANSPORT {
        return ParsedFrame::Signal(offset);
    }
    let Some((size, length)) = read_varint(&bytes[offset..]) else {
        return ParsedFrame::Incomplete;
    };
    frame_after_header(bytes, kind, offset + length, size)
}
