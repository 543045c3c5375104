//! How many bytes there have to be at least before what stands at the front can be decided.
ghost use Rattle.std.specs.Prelude.{◌≡◌, ◌≤◌, ◌<◌, ◌^◌, drop, length};
ghost use Rattle.wt_proto.specs.Wanted.{frame_wants, length_wants, payload_wants, uni_wants, varint_wants};
ghost use Rattle.wt_proto.specs.SessionReader.{capsule_length_wants, capsule_wants, header_length_wants, header_wants, value_wants};
ghost use Rattle.wt_wire.specs.Varint.{varint_at};

use crate::session_walk::{CLOSE_WEBTRANSPORT_SESSION, LONGEST_CLOSE, SHORTEST_CLOSE};
use wt_wire::varint::read_varint;

/// The longest payload of a frame that is given (this repository's rule; RFC 9114, section 7.1,
/// sets no bound).
pub(crate) const LONGEST_PAYLOAD: u64 = 4096;

/// Of a variable-length integer, by its first byte (RFC 9000, section 16).
fn varint_wanted(bytes: &[u8]) -> usize
    ensures value { result ≡ varint_wants bytes.now }
    ensures few { result ≤ 8 }
{
    if bytes.is_empty() {
        return 1;
    }
    match bytes[0] {
        0..=63 => 1,
        64..=127 => 2,
        128..=191 => 4,
        _ => 8,
    }
}

fn payload_wanted(kind: u64, header: usize, size: u64) -> usize
    requires { header ≤ 16 }
    ensures { result ≡ payload_wants kind header size }
{
    // An unknown type is decided by its header alone, and so is a payload that is too long.
    if (kind == 0x00 || kind == 0x01 || kind == 0x04) && size <= LONGEST_PAYLOAD {
        header + size as usize
    } else {
        header
    }
}

fn length_wanted(bytes: &[u8], kind: u64, offset: usize) -> usize
    requires within { offset ≤ length bytes.now }
    requires few { offset ≤ 8 }
    ensures { result ≡ length_wants bytes.now kind offset (varint_at (drop offset bytes.now)) }
{
    match read_varint(&bytes[offset..]) {
        None => offset + varint_wanted(&bytes[offset..]),
        Some((size, length)) => payload_wanted(kind, offset + length, size.into_inner()),
    }
}

/// Of a frame; where the id after a signal is read, of that too (RFC 9114, section 7.1).
#[tactic(auto, unfolding(crate::specs::Wanted::frame_wants))]
pub(crate) fn frame_wanted(bytes: &[u8], reads_id: bool) -> usize
    ensures { result ≡ frame_wants reads_id bytes.now }
{
    match read_varint(bytes) {
        None => varint_wanted(bytes),
        Some((kind, offset)) => {
            if kind.into_inner() != 0x41 {
                length_wanted(bytes, kind.into_inner(), offset)
            } else if reads_id {
                offset + varint_wanted(&bytes[offset..])
            } else {
                offset
            }
        }
    }
}

/// Of the header of a unidirectional stream (RFC 9114, section 6.2).
#[tactic(auto, unfolding(crate::specs::Wanted::uni_wants))]
pub(crate) fn uni_wanted(bytes: &[u8]) -> usize
    ensures { result ≡ uni_wants bytes.now }
{
    match read_varint(bytes) {
        None => varint_wanted(bytes),
        Some((kind, offset)) => {
            if kind.into_inner() == 0x54 {
                offset + varint_wanted(&bytes[offset..])
            } else {
                offset
            }
        }
    }
}

/// Of the header of a frame on a session's stream, after a type of `offset` bytes.
fn header_length_wanted(bytes: &[u8], offset: usize) -> usize
    requires within { offset ≤ length bytes.now }
    requires few { offset ≤ 8 }
    ensures { result ≡ header_length_wants bytes.now offset (varint_at (drop offset bytes.now)) }
{
    match read_varint(&bytes[offset..]) {
        None => offset + varint_wanted(&bytes[offset..]),
        Some((_, length)) => offset + length,
    }
}

/// Of the header of a frame on a session's stream, whose payload is another walk's (RFC 9114, section 7.1).
#[tactic(auto, unfolding(crate::specs::SessionReader::header_wants))]
pub(crate) fn header_wanted(bytes: &[u8]) -> usize
    ensures { result ≡ header_wants bytes.now }
{
    match read_varint(bytes) {
        None => varint_wanted(bytes),
        Some((kind, offset)) => {
            // The signal of a stream of a session has no length.
            if kind.into_inner() == 0x41 {
                offset
            } else {
                header_length_wanted(bytes, offset)
            }
        }
    }
}

/// Of a capsule with a header of so many bytes: its value, where it may close the session.
fn value_wanted(kind: u64, header: usize, size: u64) -> usize
    requires { header ≤ 16 }
    ensures { result ≡ value_wants kind header size }
{
    let may_close = SHORTEST_CLOSE <= size && size <= LONGEST_CLOSE;
    if kind == CLOSE_WEBTRANSPORT_SESSION && may_close {
        header + size as usize
    } else {
        header
    }
}

/// Of a capsule with a type of `offset` bytes.
fn capsule_length_wanted(bytes: &[u8], kind: u64, offset: usize) -> usize
    requires within { offset ≤ length bytes.now }
    requires few { offset ≤ 8 }
    ensures { result ≡ capsule_length_wants bytes.now kind offset (varint_at (drop offset bytes.now)) }
{
    match read_varint(&bytes[offset..]) {
        None => offset + varint_wanted(&bytes[offset..]),
        Some((size, length)) => value_wanted(kind, offset + length, size.into_inner()),
    }
}

/// Of a capsule (RFC 9297, section 3.2).
#[tactic(auto, unfolding(crate::specs::SessionReader::capsule_wants))]
pub(crate) fn capsule_wanted(bytes: &[u8]) -> usize
    ensures { result ≡ capsule_wants bytes.now }
{
    match read_varint(bytes) {
        None => varint_wanted(bytes),
        Some((kind, offset)) => capsule_length_wanted(bytes, kind.into_inner(), offset),
    }
}
