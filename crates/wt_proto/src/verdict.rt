//! What a peer's stream turns out to be.
ghost use Rattle.std.specs.Prelude.{◌≡◌, ◌≤◌};
ghost use Rattle.wt_proto.specs.Uni.{at_stream_end, is_final, session_header_at, session_verdict, uni_header_at, uni_verdict_of};
ghost use Rattle.wt_wire.specs.Varint.{varint_at};

use crate::walk::{Step, Walk};
use crate::wanted::uni_wanted;
use std::alloc::Global;
use wt_message::session::SessionRequest;
use wt_wire::error::{ErrorCode, OutOfMemory};
use wt_wire::ids::{SessionId, StreamId};
use wt_wire::side::StreamEnd;
use wt_wire::varint::{VarInt, read_varint};

/// What the front of a peer's stream says. A number is the offset of the first byte after what was
/// read.
///
/// ```text
/// Incomplete --more bytes--> Incomplete
///            --a whole header--> WebTransport, Control, Encoder, Decoder, Request, Refused, Dropped or Fault
///            --the end inside the header--> Dropped
/// ```
///
/// Every verdict but Incomplete is final: no byte and no end changes it.
#[derive(Debug, Drop)]
pub enum Verdict {
    /// More bytes or an end have to come first.
    Incomplete,
    /// A stream of this session.
    WebTransport(SessionId, usize),
    /// The control stream (RFC 9114, section 6.2.1).
    Control(usize),
    /// The stream of the peer's QPACK encoder (RFC 9204, section 4.2).
    Encoder(usize),
    /// The stream of the peer's QPACK decoder (RFC 9204, section 4.2).
    Decoder(usize),
    /// A request for a session.
    Request(SessionRequest, usize),
    /// The request is refused with this code, and the connection goes on.
    Refused(ErrorCode),
    /// The stream is of no use.
    Dropped,
    /// The connection closes with this code.
    Fault(ErrorCode),
}

/// What a header that the end cuts says.
pub(crate) fn verdict_at_stream_end(end: StreamEnd) -> Verdict
    ensures { result ≡ at_stream_end end }
{
    match end {
        StreamEnd::Running => Verdict::Incomplete,
        // A stream may be given up before its header is whole (RFC 9114, section 6.2), so that is no fault.
        StreamEnd::Fin | StreamEnd::Reset(_) => Verdict::Dropped,
    }
}

/// The session that a stream names in front of this offset.
pub(crate) fn of_session(id: VarInt, offset: usize) -> Verdict
    ensures { result ≡ session_verdict id offset }
{
    match SessionId::try_from_session_stream(StreamId::new(id)) {
        Some(session) => Verdict::WebTransport(session, offset),
        // H3_ID_ERROR: no CONNECT request can have come on a stream of this id (draft-ietf-webtrans-http3,
        // section 4).
        None => Verdict::Fault(ErrorCode::Id),
    }
}

impl Verdict {
    /// Whether it stays, whatever bytes and end come.
    pub(crate) fn is_final(&self) -> bool
        ensures { result ≡ is_final self.now }
    {
        match self {
            Verdict::Incomplete => false,
            _ => true,
        }
    }
}

/// What the header in front of the bytes says, and how many bytes it takes.
fn uni_header(bytes: &[u8]) -> Option<(Verdict, usize)>
    ensures { result ≡ uni_header_at bytes.now }
{
    let (kind, offset) = read_varint(bytes)?;
    match kind.into_inner() {
        0x00 => Some((Verdict::Control(offset), offset)),
        0x02 => Some((Verdict::Encoder(offset), offset)),
        0x03 => Some((Verdict::Decoder(offset), offset)),
        0x54 => session_header(&bytes[offset..], offset),
        // A type that isn't known must not be treated as an error (RFC 9114, section 6.2); push streams are
        // treated alike (this repository's rule).
        _ => Some((Verdict::Dropped, offset)),
    }
}

/// The id of a session, after a type of `offset` bytes.
fn session_header(bytes: &[u8], offset: usize) -> Option<(Verdict, usize)>
    requires { offset ≤ 8 }
    ensures { result ≡ session_header_at offset (varint_at bytes.now) }
{
    let (id, length) = read_varint(bytes)?;
    Some((of_session(id, offset + length), offset + length))
}

/// The walk over the header of a peer's unidirectional stream.
pub struct UniHeader;

impl Walk for UniHeader {
    type State = ();

    type Outcome = Verdict;

    ghost use Rattle.std.specs.Prelude.{⊤};
    ghost use Rattle.wt_proto.specs.Uni.{is_final, uni_decides, uni_unfinished, uni_verdict_of};
    ghost use Rattle.wt_proto.specs.Wanted.{uni_wants};

    ghost start_state = { tt };

    ghost decides = { uni_decides };

    ghost wants = { uni_wants };

    ghost unfinished_at = { uni_unfinished };

    ghost is_final_outcome = { is_final };

    ghost outcome_of = { uni_verdict_of };

    ghost never_fails = { ⊤ };

    fn start() {}

    #[tactic(auto, unfolding(crate::specs::Uni::uni_decides))]
    fn step(_alloc: Global, _state: &(), bytes: &[u8]) -> Result<Step<(), Verdict>, OutOfMemory> {
        match uni_header(bytes) {
            Some((verdict, size)) => Ok(Step::Stops(verdict, size as u64)),
            None => Ok(Step::Cut),
        }
    }

    fn wanted(bytes: &[u8]) -> usize {
        uni_wanted(bytes)
    }

    fn unfinished(_alloc: Global, end: StreamEnd, _state: &(), _between: bool) -> Verdict {
        verdict_at_stream_end(end)
    }

    fn is_final(verdict: &Verdict) -> bool {
        verdict.is_final()
    }
}

/// The verdict of a peer's unidirectional stream over its bytes and its end: its type stands in
/// front (RFC 9114, section 6.2; RFC 9204, section 4.2; draft-ietf-webtrans-http3, section 4.2).
#[tactic(auto, unfolding(crate::specs::Uni::uni_verdict_of))]
pub fn uni_verdict(bytes: &[u8], end: StreamEnd) -> Verdict
    ensures { result ≡ uni_verdict_of bytes.now end }
{
    match uni_header(bytes) {
        Some((verdict, _)) => verdict,
        None => verdict_at_stream_end(end),
    }
}
