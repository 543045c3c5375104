//! The walk over a client's session stream up to the response.
ghost use Rattle.std.specs.Prelude.{◌≡◌, ℕ, Bool, IfOk};
ghost use Rattle.wt_wire.specs.FieldSection.{headers_of};
ghost use Rattle.wt_proto.specs.ResponseWalk.{headers_response, parsed_response, response_decides, response_unfinished, response_walk_of};
ghost use Rattle.wt_message.specs.Responses.{response_of};

use crate::cursor::walk_over;
use crate::walk::{Step, Walk, after_item};
use crate::wanted::frame_wanted;
use std::alloc::Global;
use wt_message::session::SessionResponse;
use wt_wire::error::{ErrorCode, OutOfMemory};
use wt_wire::headers::Headers;
use wt_wire::parsed_frame::{ParsedFrame, parse_frame};
use wt_wire::side::StreamEnd;

/// What a server answered up to now.
///
/// ```text
/// Incomplete --unknown frames--> Incomplete --the end--> Ended
///            --HEADERS--> Response, or Fault where they are none
///            --another frame--> Fault
/// ```
///
/// Ended isn't final: bytes that came before the end may still be read.
#[derive(Debug, Drop)]
pub enum ResponseWalk {
    /// No response came yet.
    Waiting,
    /// A response, and the offset of the first byte after it.
    Response(SessionResponse, usize),
    /// The stream ended before a response.
    Ended,
    /// The connection closes with this code.
    Fault(ErrorCode),
}

/// What a response in front of this offset says.
fn of_response(headers: Headers, offset: usize) -> ResponseWalk
    ensures { result ≡ parsed_response offset (response_of headers) }
{
    match SessionResponse::try_from(headers) {
        Ok(response) => ResponseWalk::Response(response, offset),
        // A response without a status code is malformed (RFC 9114, section 4.3.2).
        Err(_) => ResponseWalk::Fault(ErrorCode::Message),
    }
}

fn faulty(fault: ErrorCode, size: usize) -> Step<u64, ResponseWalk>
    ensures { result ≡ Step.Stops (ResponseWalk.Fault fault) size }
{
    Step::Stops(ResponseWalk::Fault(fault), size as u64)
}

/// What a HEADERS frame of this payload, of `size` bytes in all, does in front of an offset.
fn headers_step(
    alloc: Global,
    payload: &[u8],
    next_offset: u64,
    size: usize,
) -> Result<Step<u64, ResponseWalk>, OutOfMemory>
    ensures { IfOk result (λ step. step ≡ Step.Stops (headers_response next_offset (headers_of payload.now)) size) }
{
    match Headers::with_payload(alloc, payload)? {
        Ok(headers) => Ok(Step::Stops(of_response(headers, next_offset as usize), size as u64)),
        Err(fault) => Ok(faulty(fault, size)),
    }
}

/// What the frame at this offset, from which the bytes stand, does. An offset above 2^64 - 1 is
/// more than any memory counts.
#[tactic(auto, unfolding(crate::specs::ResponseWalk::response_decides))]
fn response_step(
    alloc: Global,
    offset: u64,
    bytes: &[u8],
) -> Result<Step<u64, ResponseWalk>, OutOfMemory>
    ensures { IfOk result (λ step. step ≡ response_decides offset bytes.now) }
{
    match parse_frame(bytes) {
        ParsedFrame::Incomplete => Ok(Step::Cut),
        ParsedFrame::Signal(id_at) => Ok(faulty(ErrorCode::FrameUnexpected, id_at)),
        ParsedFrame::TooLong(header) => Ok(faulty(ErrorCode::ExcessiveLoad, header)),
        ParsedFrame::Headers(header, size) => {
            let payload = &bytes[header..header + size];
            let next_offset = after_item(offset, (header + size) as u64)?;
            headers_step(alloc, payload, next_offset, header + size)
        }
        // A response begins with HEADERS (RFC 9114, section 4.1).
        ParsedFrame::Data(header, size) | ParsedFrame::Settings(header, size) => {
            Ok(faulty(ErrorCode::FrameUnexpected, header + size))
        }
        ParsedFrame::Skipped(_, size) => Ok(Step::Goes(after_item(offset, size)?, size)),
    }
}

/// The walk where no frame stopped it.
fn ended(end: StreamEnd) -> ResponseWalk
    ensures { (offset : ℕ) (between : Bool) → result ≡ response_unfinished end offset between }
{
    match end {
        StreamEnd::Running => ResponseWalk::Waiting,
        StreamEnd::Fin | StreamEnd::Reset(_) => ResponseWalk::Ended,
    }
}

impl Walk for ResponseWalk {
    type State = u64;

    type Outcome = ResponseWalk;

    ghost use Rattle.std.specs.Prelude.{false};
    ghost use Rattle.wt_proto.specs.ResponseWalk.{is_response_final, response_decides, response_unfinished, response_walk_of};
    ghost use Rattle.wt_proto.specs.Wanted.{frame_wants};

    ghost start_state = { 0 };

    ghost decides = { response_decides };

    ghost wants = { frame_wants false };

    ghost unfinished_at = { response_unfinished };

    ghost is_final_outcome = { is_response_final };

    ghost outcome_of = { response_walk_of };

    fn start() -> u64 {
        0
    }

    fn step(
        alloc: Global,
        offset: &u64,
        bytes: &[u8],
    ) -> Result<Step<u64, ResponseWalk>, OutOfMemory> {
        response_step(alloc, *offset, bytes)
    }

    fn wanted(bytes: &[u8]) -> usize {
        frame_wanted(bytes, false)
    }

    fn unfinished(_alloc: Global, end: StreamEnd, _at: &u64, _between: bool) -> ResponseWalk {
        ended(end)
    }

    fn is_final(walk: &ResponseWalk) -> bool {
        match walk {
            ResponseWalk::Waiting | ResponseWalk::Ended => false,
            ResponseWalk::Response(_, _) | ResponseWalk::Fault(_) => true,
        }
    }
}

/// The walk over a client's session stream from its first byte, over its bytes and its end
/// (RFC 9114, section 4.1; RFC 9220, section 3). Frames of other types are skipped. Then a HEADERS
/// frame is the response, or a fault of its field section (Decompression) or of its status
/// (Message); DATA, SETTINGS and the signal of a WebTransport stream are faults (FrameUnexpected),
/// and so is a payload longer than 4,096 bytes (ExcessiveLoad).
#[tactic(auto, using(crate::proofs::ResponseReading::response_lawful))]
pub fn response_walk(
    alloc: Global,
    bytes: &[u8],
    end: StreamEnd,
) -> Result<ResponseWalk, OutOfMemory>
    ensures { IfOk result (λ walk. walk ≡ response_walk_of bytes.now end) }
{
    walk_over::<ResponseWalk>(alloc, bytes, end)
}
