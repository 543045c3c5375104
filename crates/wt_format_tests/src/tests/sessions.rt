//! Streams of a session, whole and in pieces, and what all readers have in common.
ghost use Rattle.std.specs.Prelude.{◌≡◌, ◌<◌};

use crate::tests::shown::{CLOSE_SHOWN, shows};
use std::marker::Brand;
use std::process::Abort;
use std::sync::ledger::{Blank, Ledger};
use wt_proto::session_walk::{SessionWalk, session_walk};
use wt_proto::steps::Steps;
use wt_proto::{FrameReader, Reader, SessionReader, UniReader};
use wt_wire::side::StreamEnd;
use wt_wire::varint::VarInt;

fn put_counting<R: Reader, L: Ledger>(
    rt: &impl Abort,
    reader: &mut R,
    piece: &[u8],
    blank: Blank,
) -> usize
    requires name { blank.name ≡ L.name }
    requires parts { blank.parts ≡ L.parts }
    requires some { 0 < L.parts }
{
    let mut steps = Steps::<L>::new(blank);
    match reader.take(piece, &mut steps) {
        Ok(taken) => taken,
        Err(_) => panic!(rt; "no memory"),
    }
}

/// How many bytes any reader takes of the piece.
fn put<R: Reader>(rt: &impl Abort, reader: &mut R, piece: &[u8]) -> usize {
    put_counting::<R, Brand>(rt, reader, piece, Blank::new(1))
}

/// A session's stream after its request, its end, and how the walk over it is shown.
type Row = (&'static [u8], StreamEnd, &'static str);

const ROWS: [Row; 15] = [
    // A capsule that closes the session: in one frame, behind an empty capsule, and over two frames.
    (
        b"\x00\x0a\x68\x43\x07\x00\x00\x00\x07bye",
        StreamEnd::Running,
        CLOSE_SHOWN,
    ),
    (
        b"\x00\x0c\x00\x00\x68\x43\x07\x00\x00\x00\x07bye",
        StreamEnd::Running,
        CLOSE_SHOWN,
    ),
    (
        b"\x00\x03\x68\x43\x07\x00\x07\x00\x00\x00\x07bye",
        StreamEnd::Running,
        CLOSE_SHOWN,
    ),
    // The end at once, between two frames and two capsules, inside a capsule, and inside a frame; and a reset.
    (
        b"",
        StreamEnd::Fin,
        "Closed(VarInt { value: 0 }, Text { text: \"\" })",
    ),
    (
        b"\x00\x00",
        StreamEnd::Fin,
        "Closed(VarInt { value: 0 }, Text { text: \"\" })",
    ),
    (b"\x00\x03\x68\x43\x07", StreamEnd::Fin, "Fault(Message)"),
    (
        b"\x00\x03\x68\x43",
        StreamEnd::Fin,
        "Fault(ClosedCriticalStream)",
    ),
    (
        b"",
        StreamEnd::Reset(VarInt::MAX),
        "Fault(ClosedCriticalStream)",
    ),
    // A payload of 4,097 bytes: of DATA it may have any length, of HEADERS not.
    (b"\x00\x50\x01", StreamEnd::Running, "Running"),
    (b"\x01\x50\x01", StreamEnd::Running, "Fault(ExcessiveLoad)"),
    // A capsule that closes the session has a value of at least 4 and at most 1,028 bytes, of which the reason is UTF-8.
    (
        b"\x00\x03\x68\x43\x03",
        StreamEnd::Running,
        "Fault(Message)",
    ),
    (
        b"\x00\x04\x68\x43\x44\x05",
        StreamEnd::Running,
        "Fault(Message)",
    ),
    (
        b"\x00\x08\x68\x43\x05\x00\x00\x00\x07\xff",
        StreamEnd::Running,
        "Fault(Message)",
    ),
    // SETTINGS, and the signal of a stream of a session.
    (b"\x04\x00", StreamEnd::Running, "Fault(FrameUnexpected)"),
    (b"\x40\x41", StreamEnd::Running, "Fault(FrameUnexpected)"),
];

#[test]
fn sessions_are_read_whole_and_byte_by_byte(rt: HostRuntime) {
    let alloc = rt.alloc();
    for (bytes, end, shown) in &ROWS {
        let walk = session_walk(alloc, bytes, *end).expect(&rt, "no memory");
        shows(&rt, alloc, &walk, shown);
        let mut reader = FrameReader::<SessionWalk>::for_session(alloc);
        for byte in bytes.chunks(1) {
            assert_eq!(&rt; put(&rt, &mut reader, byte), 1);
        }
        reader.end(*end);
        shows(&rt, alloc, reader.outcome(), shown);
    }
}

#[test]
fn a_capsule_that_is_cut_is_kept_up_to_its_last_byte(rt: HostRuntime) {
    let mut reader = SessionReader::for_session(rt.alloc());
    assert_eq!(&rt; put(&rt, &mut reader, b"\x00\x03\x68\x43\x07\x00"), 6);
    assert_eq!(&rt; reader.kept(), 4);
    assert_eq!(&rt; put(&rt, &mut reader, b"\x07\x00\x00\x00"), 4);
    assert!(&rt; !reader.is_final());
    assert_eq!(&rt; put(&rt, &mut reader, b"\x07byeb"), 4);
    assert_eq!(&rt; reader.kept(), 0);
    assert!(&rt; reader.is_closed_by_capsule());
    // What comes after belongs to nobody.
    assert_eq!(&rt; put(&rt, &mut reader, b"\x00"), 0);
    shows(&rt, rt.alloc(), &reader.into_says(), CLOSE_SHOWN);
}

#[test]
fn a_header_is_read_like_a_session(rt: HostRuntime) {
    let mut reader = UniReader::new(rt.alloc());
    assert_eq!(&rt; put(&rt, &mut reader, b"\x40"), 1);
    reader.note(StreamEnd::Running);
    assert_eq!(&rt; put(&rt, &mut reader, b"\x54\x04!"), 2);
    assert!(&rt; reader.is_final());
    shows(
        &rt,
        rt.alloc(),
        reader.says(),
        "WebTransport(SessionId { id: StreamId { id: VarInt { value: 4 } } }, 3)",
    );
}
