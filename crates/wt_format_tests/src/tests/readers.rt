//! Tests of the readers on bytes that come from outside, in pieces.
ghost use Rattle.std.specs.Prelude.{◌≡◌, ◌<◌};

use crate::tests::shown::{REQUEST, REQUEST_SHOWN, RESPONSE, RESPONSE_SHOWN, shows};
use std::alloc::Global;
use std::fmt::Debug;
use std::marker::Brand;
use std::process::Abort;
use std::sync::ledger::{Blank, Ledger};
use wt_proto::response_walk::ResponseWalk;
use wt_proto::steps::Steps;
use wt_proto::walk::Walk;
use wt_proto::{BiReader, ControlReader, FrameReader, StreamReader, UniReader};
use wt_wire::side::StreamEnd;

fn feed_counting<W: Walk, L: Ledger>(
    rt: &impl Abort,
    reader: &mut StreamReader<W>,
    piece: &[u8],
    blank: Blank,
) -> usize
    requires name { blank.name ≡ L.name }
    requires parts { blank.parts ≡ L.parts }
    requires some { 0 < L.parts }
{
    let mut steps = Steps::<L>::new(blank);
    match reader.feed(piece, &mut steps) {
        Ok(consumed) => consumed,
        Err(_) => panic!(rt; "no memory"),
    }
}

/// How many bytes the reader takes of the piece.
fn fed<W: Walk>(rt: &impl Abort, reader: &mut StreamReader<W>, piece: &[u8]) -> usize {
    feed_counting::<W, Brand>(rt, reader, piece, Blank::new(1))
}

/// A piece, how many of its bytes are taken, and how many bytes are kept then.
type Piece<'a> = (&'a [u8], usize, usize);

fn feed_pieces<W: Walk>(rt: &impl Abort, reader: &mut StreamReader<W>, pieces: &[Piece]) {
    for (piece, consumed, kept) in pieces {
        assert_eq!(rt; fed(rt, reader, piece), *consumed);
        assert_eq!(rt; reader.kept(), *kept);
    }
}

/// The reader takes the pieces and the end, and the outcome is shown like this.
fn reads<W: Walk>(
    rt: &impl Abort,
    alloc: Global,
    mut reader: StreamReader<W>,
    pieces: &[Piece],
    end: StreamEnd,
    shown: &str,
)
where
    W::Outcome: Debug,
{
    feed_pieces(rt, &mut reader, pieces);
    reader.end(end);
    shows(rt, alloc, reader.into_outcome(), shown);
}

#[test]
fn a_request_is_read_up_to_its_last_byte(rt: HostRuntime) {
    let alloc = rt.alloc();
    let pieces = [(&REQUEST[..82], 82, 82), (b"sa", 1, 0), (b"a", 0, 0)];
    let reader = BiReader::new(alloc);
    reads(
        &rt,
        alloc,
        reader,
        &pieces,
        StreamEnd::Running,
        REQUEST_SHOWN,
    );
}

/// SETTINGS, byte by byte.
const SETTINGS: [Piece; 4] = [
    (b"\x04", 1, 1),
    (b"\x02", 1, 2),
    (b"\x08", 1, 3),
    (b"\x01", 1, 0),
];

/// The walk over these settings, after which the stream ends.
const SETTINGS_SHOWN: &str =
    "ControlWalk { settings: Some(Settings { qpack_max_table_capacity: None, max_field_section_size: None, qpack_blocked_streams: None, enable_connect_protocol: Some(VarInt { value: 1 }), h3_datagram: None, enable_webtransport: None, webtransport_max_sessions: None }), fault: Some(ClosedCriticalStream) }";

#[test]
fn the_control_stream_is_read_byte_by_byte(rt: HostRuntime) {
    let alloc = rt.alloc();
    let reader = ControlReader::new(alloc);
    reads(
        &rt,
        alloc,
        reader,
        &SETTINGS,
        StreamEnd::Fin,
        SETTINGS_SHOWN,
    );
}

/// A frame to skip, whose type and length have two bytes each, of which six payload bytes are there.
const SKIPPED: [Piece; 3] = [
    (b"\x40\x0d\x41", 3, 3),
    (b"\x00ab", 3, 0),
    (b"\x04\x02\x08\x01", 4, 0),
];

#[test]
fn a_skipped_frame_is_not_kept(rt: HostRuntime) {
    let alloc = rt.alloc();
    let reader = ControlReader::new(alloc);
    let shown = "ControlWalk { settings: None, fault: None }";
    reads(&rt, alloc, reader, &SKIPPED, StreamEnd::Running, shown);
}

/// The header of a stream of session 4, and a byte after it.
const HEADER: [Piece; 2] = [(b"\x40\x54", 2, 2), (b"\x04a", 1, 0)];

#[test]
fn a_header_is_read_in_twos(rt: HostRuntime) {
    let alloc = rt.alloc();
    let shown = "WebTransport(SessionId { id: StreamId { id: VarInt { value: 4 } } }, 3)";
    reads(
        &rt,
        alloc,
        UniReader::new(alloc),
        &HEADER,
        StreamEnd::Running,
        shown,
    );
}

#[test]
fn a_response_is_read(rt: HostRuntime) {
    let alloc = rt.alloc();
    let reader = FrameReader::<ResponseWalk>::for_response(alloc);
    let whole = [(RESPONSE, 17, 0)];
    reads(
        &rt,
        alloc,
        reader,
        &whole,
        StreamEnd::Running,
        RESPONSE_SHOWN,
    );
}
