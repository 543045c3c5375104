//! The next frame on a stream.
ghost use Rattle.std.specs.Prelude.{◌≡◌, ◌≤◌, IfOk, [], None, drop, length};
ghost use Rattle.wt_wire.specs.Frames.{signal_with_id};
ghost use Rattle.wt_wire.specs.Varint.{varint_at};
ghost use Rattle.wt_proto.specs.FrameSteps.{step_of_item};
ghost use Rattle.wt_wire.specs.declared.frame.FrameKind.TheVariants as kinds;
ghost use Rattle.wt_proto.specs.WalkProgress.{at_item};
ghost use Rattle.wt_seam.specs.NextFrame.{frame_decides, frame_effect, given_frame, given_signal, id_at, is_signal_type, on_unknown_frame, session_reading};

use crate::item_reader::{Grammar, ItemReader};
use std::alloc::Global;
use wt_proto::walk::Step;
use wt_wire::error::{ErrorCode, OutOfMemory};
use wt_wire::exercise::is_exercise;
use wt_wire::frame::Frame;
use wt_wire::ids::{SessionId, StreamId};
use wt_wire::parsed_frame::{ParsedFrame, parse_frame};
use wt_wire::varint::{VarInt, read_varint};

/// Where frames stand, which decides what a signal and an exercise frame do.
#[derive(Clone, Copy, Debug, PartialEq, Eq)]
pub enum FrameSource {
    /// A bidirectional stream that the peer opened: the signal of a WebTransport stream may stand there.
    Request,
    /// A control stream: exercise frames are given.
    Control,
    /// Every other stream.
    Other,
}

type FrameStep = Step<FrameSource, Result<Frame, ErrorCode>>;

/// The signal of a stream of this session.
fn signal(alloc: Global, id: VarInt) -> Result<Frame, ErrorCode>
    ensures { result ≡ given_signal id }
{
    match SessionId::try_from_session_stream(StreamId::new(id)) {
        Some(session) => Ok(Frame::new_webtransport(alloc, session)),
        None => Err(ErrorCode::Id),
    }
}

/// What a signal at the front does, whose type has `offset` bytes.
fn signal_step(alloc: Global, source: FrameSource, bytes: &[u8], offset: usize) -> FrameStep
    requires within { offset ≤ length bytes.now }
    requires few { offset ≤ 8 }
    ensures { result ≡ step_of_item (frame_effect source) (signal_with_id offset (id_at source (drop offset bytes.now))) }
{
    match source {
        FrameSource::Request => match read_varint(&bytes[offset..]) {
            Some((id, length)) => Step::Stops(signal(alloc, id), (offset + length) as u64),
            None => Step::Cut,
        },
        // The signal has no length, so nothing after it on such a stream could be read
        // (draft-ietf-webtrans-http3, section 4.3).
        FrameSource::Control | FrameSource::Other => {
            Step::Stops(Err(ErrorCode::FrameUnexpected), offset as u64)
        }
    }
}

/// What a frame of an unknown type does, which has `size` bytes.
fn skipped_step(
    alloc: Global,
    source: FrameSource,
    kind: VarInt,
    size: u64,
) -> Result<FrameStep, OutOfMemory>
    ensures { IfOk result (λ step. step ≡ on_unknown_frame source size kind) }
{
    match source {
        FrameSource::Control if is_exercise(kind.into_inner()) => {
            // Its payload means nothing and may have any length, so none is kept.
            let frame = Frame::new_exercise(alloc, kind, &[])?;
            Ok(Step::Stops(Ok(frame), size))
        }
        _ => Ok(Step::Goes(source, size)),
    }
}

/// The frames of a stream.
pub struct NextFrame;

/// What the frame at the front does.
#[tactic(auto, unfolding(crate::specs::NextFrame::frame_decides))]
fn frame_step(alloc: Global, source: FrameSource, bytes: &[u8]) -> Result<FrameStep, OutOfMemory>
    ensures { IfOk result (λ step. step ≡ frame_decides source bytes.now) }
{
    match parse_frame(bytes) {
        ParsedFrame::Incomplete => Ok(Step::Cut),
        ParsedFrame::Signal(offset) => Ok(signal_step(alloc, source, bytes, offset)),
        ParsedFrame::TooLong(header) => {
            Ok(Step::Stops(Err(ErrorCode::ExcessiveLoad), header as u64))
        }
        ParsedFrame::Data(header, size) => {
            let frame = Frame::new_data(alloc, &bytes[header..header + size])?;
            Ok(Step::Stops(Ok(frame), (header + size) as u64))
        }
        ParsedFrame::Headers(header, size) => {
            let frame = Frame::new_headers(alloc, &bytes[header..header + size])?;
            Ok(Step::Stops(Ok(frame), (header + size) as u64))
        }
        ParsedFrame::Settings(header, size) => {
            let frame = Frame::new_settings(alloc, &bytes[header..header + size])?;
            Ok(Step::Stops(Ok(frame), (header + size) as u64))
        }
        ParsedFrame::Skipped(kind, size) => skipped_step(alloc, source, kind, size),
    }
}

impl Grammar for NextFrame {
    type State = FrameSource;

    type Item = Frame;

    ghost use Rattle.wt_proto.specs.WalkProgress.{at_item};
    ghost use Rattle.wt_seam.specs.NextFrame.{frame_decides};

    ghost decides = { frame_decides };

    fn step(alloc: Global, source: &FrameSource, bytes: &[u8]) -> Result<FrameStep, OutOfMemory> {
        frame_step(alloc, *source, bytes)
    }
}

/// A reader of a stream's frames.
pub type FrameReader = ItemReader<NextFrame>;

impl ItemReader<NextFrame> {
    /// A reader that took no bytes.
    #[tactic(auto, using(crate::proofs::NextFrameLaws::frame_steady))]
    pub(crate) fn for_frames(alloc: Global, source: FrameSource) -> Self
        ensures { result ≡ at_item source }
    {
        ItemReader::new(alloc, source)
    }

    /// The reader of a session's frames, which goes on where this one is.
    pub(crate) fn for_session(self) -> Self
        ensures { result ≡ session_reading self }
    {
        let ItemReader {
            state: _,
            stop,
            skip,
            mut kept,
        } = self;
        // It was lawful on a stream of requests; now that the stream is a session's it isn't.
        if begins_with_signal(kept.as_slice()) {
            kept.clear();
            return ItemReader {
                state: FrameSource::Other,
                stop: Some(Err(ErrorCode::FrameUnexpected)),
                skip: 0,
                kept,
            };
        }
        ItemReader {
            state: FrameSource::Other,
            stop,
            skip,
            kept,
        }
    }
}

/// Whether the type of the signal stands at the front.
fn begins_with_signal(bytes: &[u8]) -> bool
    ensures { result ≡ is_signal_type (varint_at bytes.now) }
{
    match read_varint(bytes) {
        Some((kind, _)) => kind.into_inner() == 0x41,
        None => false,
    }
}
