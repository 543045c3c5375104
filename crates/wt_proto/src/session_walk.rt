//! The walks over a session's stream: one over frames up to the header of the next DATA frame, and one over the capsules in the
//! joined payloads (RFC 9297, section 3.2).
ghost use Rattle.std.specs.Prelude.{◌≡◌, ◌≤◌, ◌<◌, ◌^◌, ◌+◌, IfOk, length};
ghost use Rattle.wt_proto.specs.SessionWalk.{capsule_decides, capsule_with_header, closed_by, is_over, session_walk_of};
ghost use Rattle.wt_message.specs.Capsule.{close_of};
ghost use Rattle.wt_proto.specs.SessionWords.{ended_between, fault_in, payload_in};
ghost use Rattle.wt_proto.specs.SessionReader.{Faulty, Payload, Waiting, header_decides, header_with_size, is_header};

use crate::session_reader::SessionReader;
use crate::walk::{Step, Walk};
use crate::wanted::{LONGEST_PAYLOAD, capsule_wanted, header_wanted};
use std::alloc::Global;
use std::marker::Model;
use wt_message::capsule::CloseWebTransportSession;
use wt_wire::error::{ErrorCode, OutOfMemory};
use wt_wire::side::StreamEnd;
use wt_wire::text::Text;
use wt_wire::varint::{VarInt, read_varint};

/// What a session's stream said up to now.
///
/// ```text
/// Running --capsules that close nothing, HEADERS, unknown frames--> Running
///         --a capsule that closes, or a clean end between frames and capsules--> Closed
///         --another frame, a malformed capsule, another end--> Fault
/// ```
#[derive(Debug, PartialEq, Eq, Drop)]
pub enum SessionWalk {
    /// The session goes on.
    Running,
    /// The peer closed the session with this code and reason.
    Closed(VarInt, Text),
    /// The connection closes with this code.
    Fault(ErrorCode),
}

/// The type of the capsule CLOSE_WEBTRANSPORT_SESSION (draft-ietf-webtrans-http3, section 5).
pub(crate) const CLOSE_WEBTRANSPORT_SESSION: u64 = 0x2843;

/// The shortest value of that capsule: a code of 4 bytes.
pub(crate) const SHORTEST_CLOSE: u64 = 4;

/// The longest: a reason of 1,024 bytes too.
pub(crate) const LONGEST_CLOSE: u64 = 1028;

/// Whether more bytes and an end don't change it.
pub(crate) fn is_over(walk: &SessionWalk) -> bool
    ensures { result ≡ is_over walk.now }
{
    match walk {
        SessionWalk::Running => false,
        SessionWalk::Closed(_, _) | SessionWalk::Fault(_) => true,
    }
}

// ---- frames

/// What frames may say.
#[derive(Drop)]
enum Said {
    /// No DATA yet.
    Waiting,
    /// DATA, with a payload of so many bytes.
    Payload(u64),
    /// A fault.
    Faulty(ErrorCode),
}

/// What the frames on a session's stream said, up to the header of a DATA frame. Contracts see that as data.
#[derive(Drop)]
pub(crate) struct FrameSays {
    said: Said,
}

impl Model for FrameSays {
    ghost use Rattle.wt_proto.specs.SessionReader.{HeaderWalk};

    ghost Value = { HeaderWalk };

    ghost use Rattle.wt_proto.specs.SessionWords.{said_of};

    ghost view = { λ f. said_of f.said };
}

impl FrameSays {
    /// No DATA yet.
    fn waiting() -> FrameSays
        ensures { result ≡ Waiting }
    {
        FrameSays {
            said: Said::Waiting,
        }
    }

    /// DATA, with a payload of so many bytes.
    fn payload_of(size: u64) -> FrameSays
        ensures { result ≡ Payload size }
    {
        FrameSays {
            said: Said::Payload(size),
        }
    }

    /// A fault.
    fn faulty(code: ErrorCode) -> FrameSays
        ensures { result ≡ Faulty code }
    {
        FrameSays {
            said: Said::Faulty(code),
        }
    }

    /// How long the payload is, where it is DATA.
    pub(crate) fn payload(&self) -> Option<u64>
        ensures { result ≡ payload_in self.now }
    {
        match &self.said {
            Said::Payload(size) => Some(*size),
            Said::Waiting | Said::Faulty(_) => None,
        }
    }

    /// Its fault.
    pub(crate) fn fault(&self) -> Option<ErrorCode>
        ensures { result ≡ fault_in self.now }
    {
        match &self.said {
            Said::Faulty(code) => Some(*code),
            Said::Waiting | Said::Payload(_) => None,
        }
    }

    /// Whether the walk is decided.
    fn is_decided(&self) -> bool
        ensures { result ≡ is_header self.now }
    {
        match &self.said {
            Said::Waiting => false,
            Said::Payload(_) | Said::Faulty(_) => true,
        }
    }
}

/// The frame with a header of `header` bytes and a payload of `size` bytes (RFC 9114, section 7.1).
fn header_step(kind: u64, header: u64, size: u64) -> Step<(), FrameSays>
    requires header { header ≤ 16 }
    requires size { size < 2 ^ 62 }
    ensures { result ≡ header_with_size kind header size }
{
    match kind {
        // Its payload, of any length, belongs to the capsules (RFC 9297, section 3.2).
        0x00 => Step::Stops(FrameSays::payload_of(size), header),
        0x01 | 0x04 if size > LONGEST_PAYLOAD => {
            Step::Stops(FrameSays::faulty(ErrorCode::ExcessiveLoad), header)
        }
        // SETTINGS belong on the control stream (RFC 9114, section 7.2.4).
        0x04 => Step::Stops(FrameSays::faulty(ErrorCode::FrameUnexpected), header + size),
        // HEADERS are skipped, as in the Rust crate, and unknown types are (RFC 9114, section 9).
        _ => Step::Goes((), header + size),
    }
}

/// What the frame at the front does.
#[tactic(auto, unfolding(crate::specs::SessionReader::header_decides))]
fn frame_step(bytes: &[u8]) -> Step<(), FrameSays>
    ensures { result ≡ header_decides tt bytes.now }
{
    let Some((kind, offset)) = read_varint(bytes) else {
        return Step::Cut;
    };
    // The signal of a stream of a session has no length.
    if kind.into_inner() == 0x41 {
        let fault = FrameSays::faulty(ErrorCode::FrameUnexpected);
        return Step::Stops(fault, offset as u64);
    }
    match read_varint(&bytes[offset..]) {
        Some((size, length)) => {
            let header = (offset + length) as u64;
            header_step(kind.into_inner(), header, size.into_inner())
        }
        None => Step::Cut,
    }
}

/// The walk over frames up to the header of a DATA frame.
pub(crate) struct FrameHeaders;

impl Walk for FrameHeaders {
    type State = ();

    type Outcome = FrameSays;

    ghost use Rattle.wt_proto.specs.SessionReader.{header_decides, header_unfinished, header_walk_of, header_wants, is_header};

    ghost start_state = { tt };

    ghost decides = { header_decides };

    ghost wants = { header_wants };

    ghost unfinished_at = { header_unfinished };

    ghost is_final_outcome = { is_header };

    ghost outcome_of = { header_walk_of };

    fn start() {}

    fn step(_alloc: Global, _state: &(), bytes: &[u8]) -> Result<Step<(), FrameSays>, OutOfMemory> {
        Ok(frame_step(bytes))
    }

    fn wanted(bytes: &[u8]) -> usize {
        header_wanted(bytes)
    }

    fn unfinished(_alloc: Global, _end: StreamEnd, _state: &(), _between: bool) -> FrameSays {
        FrameSays::waiting()
    }

    fn is_final(frame: &FrameSays) -> bool {
        frame.is_decided()
    }
}

// ---- capsules

/// What CLOSE_WEBTRANSPORT_SESSION with this value says (draft-ietf-webtrans-http3, section 5).
fn closed_by(alloc: Global, value: &[u8]) -> Result<SessionWalk, OutOfMemory>
    ensures { IfOk result (λ walk. walk ≡ closed_by (close_of value.now)) }
{
    match CloseWebTransportSession::with_capsule(alloc, value)? {
        Ok(close) => {
            let (code, reason) = close.into_parts();
            Ok(SessionWalk::Closed(code, reason))
        }
        // A close that can't be read isn't taken for one: a malformed message (RFC 9297, section 3.3).
        Err(fault) => Ok(SessionWalk::Fault(fault)),
    }
}

/// The capsule of this type at the front, with a header of `header` bytes and a value of `size` bytes.
fn capsule_step(
    alloc: Global,
    bytes: &[u8],
    kind: u64,
    header: usize,
    size: u64,
) -> Result<Step<(), SessionWalk>, OutOfMemory>
    requires within { header ≤ length bytes.now }
    requires header { header ≤ 16 }
    requires size { size < 2 ^ 62 }
    ensures { IfOk result (λ step. step ≡ capsule_with_header bytes.now kind header size) }
{
    // Every other capsule is skipped, whatever its length (RFC 9297, section 3.2).
    if kind != CLOSE_WEBTRANSPORT_SESSION {
        return Ok(Step::Goes((), header as u64 + size));
    }
    // By its length alone, so that a peer can't make this end wait for a value that it will refuse.
    if size < SHORTEST_CLOSE || size > LONGEST_CLOSE {
        return Ok(Step::Stops(SessionWalk::Fault(ErrorCode::Message), header as u64));
    }
    let end = header + size as usize;
    if bytes.len() < end {
        return Ok(Step::Cut);
    }
    Ok(Step::Stops(closed_by(alloc, &bytes[header..end])?, end as u64))
}

/// What the capsule at the front does.
#[tactic(auto, unfolding(crate::specs::SessionWalk::capsule_decides))]
fn typed_capsule_step(alloc: Global, bytes: &[u8]) -> Result<Step<(), SessionWalk>, OutOfMemory>
    ensures { IfOk result (λ step. step ≡ capsule_decides tt bytes.now) }
{
    let Some((kind, offset)) = read_varint(bytes) else {
        return Ok(Step::Cut);
    };
    match read_varint(&bytes[offset..]) {
        Some((size, length)) => {
            let header = offset + length;
            capsule_step(alloc, bytes, kind.into_inner(), header, size.into_inner())
        }
        None => Ok(Step::Cut),
    }
}

/// The walk over the capsules in the joined payloads of DATA frames (RFC 9297, section 3.2).
pub(crate) struct Capsules;

impl Walk for Capsules {
    type State = ();

    type Outcome = SessionWalk;

    ghost use Rattle.wt_proto.specs.SessionWalk.{capsule_decides, is_over};
    ghost use Rattle.wt_proto.specs.SessionReader.{capsule_unfinished, capsule_walk_of, capsule_wants};

    ghost start_state = { tt };

    ghost decides = { capsule_decides };

    ghost wants = { capsule_wants };

    ghost unfinished_at = { capsule_unfinished };

    ghost is_final_outcome = { is_over };

    ghost outcome_of = { capsule_walk_of };

    fn start() {}

    fn step(
        alloc: Global,
        _state: &(),
        bytes: &[u8],
    ) -> Result<Step<(), SessionWalk>, OutOfMemory> {
        typed_capsule_step(alloc, bytes)
    }

    fn wanted(bytes: &[u8]) -> usize {
        capsule_wanted(bytes)
    }

    fn unfinished(alloc: Global, end: StreamEnd, _state: &(), between: bool) -> SessionWalk {
        at_session_end(alloc, end, true, between)
    }

    fn is_final(walk: &SessionWalk) -> bool {
        is_over(walk)
    }
}

// ---- the end

/// What the end makes of a session's stream: whether it stands between two frames, and between two capsules.
pub(crate) fn at_session_end(
    alloc: Global,
    end: StreamEnd,
    between_frames: bool,
    between_capsules: bool,
) -> SessionWalk
    ensures { result ≡ ended_between end between_frames between_capsules }
{
    match end {
        StreamEnd::Running => SessionWalk::Running,
        // An end with no capsule is a close with code 0 and no reason (draft-ietf-webtrans-http3, section 5).
        StreamEnd::Fin if between_frames && between_capsules => {
            SessionWalk::Closed(VarInt::from_u32(0), Text::from_string(String::new(alloc)))
        }
        // A capsule that the end cuts is a malformed message (RFC 9297, section 3.3).
        StreamEnd::Fin if between_frames => SessionWalk::Fault(ErrorCode::Message),
        // Cut inside a frame, or reset: this repository's code, as in the Rust crate.
        StreamEnd::Fin | StreamEnd::Reset(_) => SessionWalk::Fault(ErrorCode::ClosedCriticalStream),
    }
}

/// The walk over a session's stream, over the bytes after the frame that established the session and its end
/// (draft-ietf-webtrans-http3, section 5; RFC 9297, section 3.2). The payloads of DATA frames, of any length, are joined, and
/// capsules are read there: the first CLOSE_WEBTRANSPORT_SESSION closes the session, or is a fault (Message) where its length is
/// below 4 or above 1,028 or its reason isn't UTF-8. SETTINGS and the signal of a WebTransport stream are faults
/// (FrameUnexpected), and so are HEADERS and SETTINGS above 4,096 bytes (ExcessiveLoad). A clean end between frames closes the
/// session with code 0 where it stands between capsules too, else it is a fault (Message); every other end is a fault
/// (ClosedCriticalStream).
pub fn session_walk(alloc: Global, bytes: &[u8], end: StreamEnd) -> Result<SessionWalk, OutOfMemory>
    ensures { IfOk result (λ walk. walk ≡ session_walk_of bytes.now end) }
{
    let mut reader = SessionReader::for_session(alloc);
    reader.take_piece(bytes)?;
    reader.end(end);
    Ok(reader.into_outcome())
}
