//! The verdict of a bidirectional stream.
ghost use Rattle.std.specs.Prelude.{◌≡◌, IfOk};
ghost use Rattle.wt_proto.specs.Bi.{bi_decides, bi_verdict_of, headers_verdict, parsed_verdict};
ghost use Rattle.wt_wire.specs.FieldSection.{headers_of};
ghost use Rattle.wt_message.specs.Requests.{request_of};

use crate::cursor::walk_over;
use crate::verdict::{Verdict, of_session, verdict_at_stream_end};
use crate::walk::{Step, Walk, after_item};
use crate::wanted::frame_wanted;
use std::alloc::Global;
use wt_message::session::{HeadersParseError, SessionRequest};
use wt_wire::error::{ErrorCode, OutOfMemory};
use wt_wire::headers::Headers;
use wt_wire::parsed_frame::{ParsedFrame, parse_frame};
use wt_wire::side::StreamEnd;
use wt_wire::varint::read_varint;

/// What a request in front of this offset says.
fn of_request(headers: Headers, offset: usize) -> Verdict
    ensures { result ≡ parsed_verdict offset (request_of headers) }
{
    match SessionRequest::try_from(headers) {
        Ok(request) => Verdict::Request(request, offset),
        // A plain HTTP request is one that this end doesn't serve; an extended CONNECT that isn't well formed
        // is a malformed message (RFC 9114, section 4.1.2). Either way the stream alone is refused.
        Err(HeadersParseError::MethodNotConnect) => Verdict::Refused(ErrorCode::RequestRejected),
        Err(HeadersParseError::Other) => Verdict::Refused(ErrorCode::Message),
    }
}

/// What a HEADERS frame of this payload, of `size` bytes in all, does in front of an offset.
fn headers_step(
    alloc: Global,
    payload: &[u8],
    next_offset: u64,
    size: usize,
) -> Result<Step<u64, Verdict>, OutOfMemory>
    ensures { IfOk result (λ step. step ≡ Step.Stops (headers_verdict next_offset (headers_of payload.now)) size) }
{
    match Headers::with_payload(alloc, payload)? {
        Ok(headers) => Ok(Step::Stops(of_request(headers, next_offset as usize), size as u64)),
        Err(fault) => Ok(faulty(fault, size)),
    }
}

fn faulty(fault: ErrorCode, size: usize) -> Step<u64, Verdict>
    ensures { result ≡ Step.Stops (Verdict.Fault fault) size }
{
    Step::Stops(Verdict::Fault(fault), size as u64)
}

/// What the frame at this offset, from which the bytes stand, does. An offset above 2^64 - 1 is
/// more than any memory counts.
#[tactic(auto, unfolding(crate::specs::Bi::bi_decides))]
fn bi_step(alloc: Global, offset: u64, bytes: &[u8]) -> Result<Step<u64, Verdict>, OutOfMemory>
    ensures { IfOk result (λ step. step ≡ bi_decides offset bytes.now) }
{
    match parse_frame(bytes) {
        ParsedFrame::Incomplete => Ok(Step::Cut),
        // The signal makes the stream one of a session; it has no length (draft-ietf-webtrans-http3, section
        // 4.3).
        ParsedFrame::Signal(id_at) => match read_varint(&bytes[id_at..]) {
            Some((id, length)) => {
                let size = (id_at + length) as u64;
                let next_offset = after_item(offset, size)?;
                Ok(Step::Stops(of_session(id, next_offset as usize), size))
            }
            None => Ok(Step::Cut),
        },
        ParsedFrame::TooLong(header) => Ok(faulty(ErrorCode::ExcessiveLoad, header)),
        ParsedFrame::Headers(header, size) => {
            let payload = &bytes[header..header + size];
            let next_offset = after_item(offset, (header + size) as u64)?;
            headers_step(alloc, payload, next_offset, header + size)
        }
        // A request begins with HEADERS, and SETTINGS belong on the control stream (RFC 9114, sections 4.1
        // and 7.2.4).
        ParsedFrame::Data(header, size) | ParsedFrame::Settings(header, size) => {
            Ok(faulty(ErrorCode::FrameUnexpected, header + size))
        }
        // Unknown types are skipped in front of a request too, the reserved ones among them (RFC 9114,
        // section 9).
        ParsedFrame::Skipped(_, size) => Ok(Step::Goes(after_item(offset, size)?, size)),
    }
}

/// The walk over a peer's bidirectional stream up to its first frame that isn't skipped.
pub struct BiHeader;

impl Walk for BiHeader {
    type State = u64;

    type Outcome = Verdict;

    ghost use Rattle.std.specs.Prelude.{true};
    ghost use Rattle.wt_proto.specs.Bi.{bi_decides, bi_unfinished, bi_verdict_of};
    ghost use Rattle.wt_proto.specs.Uni.{is_final};
    ghost use Rattle.wt_proto.specs.Wanted.{frame_wants};

    ghost start_state = { 0 };

    ghost decides = { bi_decides };

    ghost wants = { frame_wants true };

    ghost unfinished_at = { bi_unfinished };

    ghost is_final_outcome = { is_final };

    ghost outcome_of = { bi_verdict_of };

    fn start() -> u64 {
        0
    }

    fn step(alloc: Global, offset: &u64, bytes: &[u8]) -> Result<Step<u64, Verdict>, OutOfMemory> {
        bi_step(alloc, *offset, bytes)
    }

    fn wanted(bytes: &[u8]) -> usize {
        frame_wanted(bytes, true)
    }

    fn unfinished(_alloc: Global, end: StreamEnd, _at: &u64, _between: bool) -> Verdict {
        verdict_at_stream_end(end)
    }

    fn is_final(verdict: &Verdict) -> bool {
        verdict.is_final()
    }
}

/// The verdict of a peer's bidirectional stream over its bytes and its end (RFC 9114, section 7;
/// RFC 9220, section 3; draft-ietf-webtrans-http3, sections 3.3 and 4.3). Frames of other types are
/// skipped. Then the signal of a WebTransport stream names its session, which is a fault where the
/// id isn't a multiple of 4 (Id); a HEADERS frame is a request, a refused one (RequestRejected where
/// its method isn't CONNECT, else Message), or a fault of its field section (Decompression); DATA
/// and SETTINGS are faults (FrameUnexpected), and so is a payload longer than 4,096 bytes
/// (ExcessiveLoad).
#[tactic(auto, using(crate::proofs::BiReading::bi_lawful))]
pub fn bi_verdict(alloc: Global, bytes: &[u8], end: StreamEnd) -> Result<Verdict, OutOfMemory>
    ensures { IfOk result (λ verdict. verdict ≡ bi_verdict_of bytes.now end) }
{
    walk_over::<BiHeader>(alloc, bytes, end)
}
