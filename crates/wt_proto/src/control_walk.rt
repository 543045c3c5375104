//! The walk over the peer's control stream.
ghost use Rattle.std.specs.Prelude.{◌≡◌, ◌≤◌, ◌<◌, ◌^◌, ℕ, length, Ok};
ghost use Rattle.wt_proto.specs.ControlWalk.{control_decides, control_unfinished, control_walk_of, control_fault, on_settings, on_skipped};

use crate::cursor::walk_over;
use crate::walk::{Step, Walk};
use crate::wanted::frame_wanted;
use std::alloc::Global;
use wt_message::settings::Settings;
use wt_wire::error::{ErrorCode, OutOfMemory};
use wt_wire::exercise::is_exercise;
use wt_wire::parsed_frame::{ParsedFrame, parse_frame};
use wt_wire::side::StreamEnd;
use wt_wire::varint::VarInt;

/// What the peer's control stream said up to now: its settings, and the fault with which it ended.
/// Settings that came before a fault stay.
///
/// ```text
/// no SETTINGS --unknown frames, but no reserved one--> no SETTINGS
///             --SETTINGS--> SETTINGS --unknown frames, reserved ones too--> SETTINGS
/// in both: another frame, or the end, is the fault
/// ```
#[derive(Clone, Copy, Debug, PartialEq, Eq)]
pub struct ControlWalk {
    pub settings: Option<Settings>,
    pub fault: Option<ErrorCode>,
}

fn faulty(
    settings: Option<Settings>,
    fault: ErrorCode,
    size: u64,
) -> Step<Option<Settings>, ControlWalk>
    ensures { result ≡ control_fault settings fault size }
{
    let walk = ControlWalk {
        settings,
        fault: Some(fault),
    };
    Step::Stops(walk, size)
}

fn settings_step(
    settings: Option<Settings>,
    payload: &[u8],
    size: u64,
) -> Step<Option<Settings>, ControlWalk>
    ensures { result ≡ on_settings settings size payload.now }
{
    // Settings can't change: a second frame of them is unexpected (RFC 9114, section 7.2.4).
    if settings.is_some() {
        return faulty(settings, ErrorCode::FrameUnexpected, size);
    }
    match Settings::with_payload(payload) {
        Ok(settings) => Step::Goes(Some(settings), size),
        // Nothing of a faulty frame is kept.
        Err(fault) => faulty(None, fault, size),
    }
}

fn skipped_step(
    settings: Option<Settings>,
    kind: VarInt,
    size: u64,
) -> Step<Option<Settings>, ControlWalk>
    ensures { result ≡ on_skipped settings size kind }
{
    // SETTINGS must be the first frame (RFC 9114, section 6.2.1). Of others that come before it the reserved
    // ones are a fault here, as in the Rust crate; unknown ones are skipped.
    if settings.is_none() && is_exercise(kind.into_inner()) {
        faulty(None, ErrorCode::MissingSettings, size)
    } else {
        Step::Goes(settings, size)
    }
}

/// What the frame at the front does.
#[tactic(auto, unfolding(crate::specs::ControlWalk::control_decides))]
fn control_step(settings: &Option<Settings>, bytes: &[u8]) -> Step<Option<Settings>, ControlWalk>
    ensures { result ≡ control_decides settings.now bytes.now }
{
    match parse_frame(bytes) {
        ParsedFrame::Incomplete => Step::Cut,
        // DATA, HEADERS and the signal belong on other streams (RFC 9114, section 7.2).
        ParsedFrame::Signal(offset) => faulty(*settings, ErrorCode::FrameUnexpected, offset as u64),
        ParsedFrame::TooLong(header) => faulty(*settings, ErrorCode::ExcessiveLoad, header as u64),
        ParsedFrame::Data(header, size) | ParsedFrame::Headers(header, size) => {
            let whole = (header + size) as u64;
            faulty(*settings, ErrorCode::FrameUnexpected, whole)
        }
        ParsedFrame::Settings(header, size) => {
            let payload = &bytes[header..header + size];
            settings_step(*settings, payload, (header + size) as u64)
        }
        ParsedFrame::Skipped(kind, size) => skipped_step(*settings, kind, size),
    }
}

/// The walk where no frame stopped it.
fn ended(settings: Option<Settings>, end: StreamEnd, between: bool) -> ControlWalk
    ensures { result ≡ control_unfinished end settings between }
{
    let fault = match end {
        StreamEnd::Running => None,
        // Neither end may close the control stream (RFC 9114, section 6.2.1).
        StreamEnd::Fin | StreamEnd::Reset(_) => Some(ErrorCode::ClosedCriticalStream),
    };
    ControlWalk { settings, fault }
}

impl Walk for ControlWalk {
    type State = Option<Settings>;

    type Outcome = ControlWalk;

    ghost use Rattle.std.specs.Prelude.{None, false, is_some, ⊤};
    ghost use Rattle.wt_proto.specs.ControlWalk.{control_decides, control_unfinished, control_walk_of};
    ghost use Rattle.wt_proto.specs.Wanted.{frame_wants};

    ghost start_state = { None };

    ghost decides = { control_decides };

    ghost wants = { frame_wants false };

    ghost unfinished_at = { control_unfinished };

    ghost is_final_outcome = { λ w. is_some w.fault };

    ghost outcome_of = { control_walk_of };

    ghost never_fails = { ⊤ };

    fn start() -> Option<Settings> {
        None
    }

    fn step(
        _alloc: Global,
        settings: &Option<Settings>,
        bytes: &[u8],
    ) -> Result<Step<Option<Settings>, ControlWalk>, OutOfMemory> {
        Ok(control_step(settings, bytes))
    }

    fn wanted(bytes: &[u8]) -> usize {
        frame_wanted(bytes, false)
    }

    fn unfinished(
        _alloc: Global,
        end: StreamEnd,
        settings: &Option<Settings>,
        between: bool,
    ) -> ControlWalk {
        ended(*settings, end, between)
    }

    fn is_final(walk: &ControlWalk) -> bool {
        walk.fault.is_some()
    }
}

/// The walk over the peer's control stream, over the bytes after its type and its end
/// (RFC 9114, sections 6.2.1 and 7.2.4). Frames are judged one after another up to the first fault:
/// DATA, HEADERS, a second SETTINGS or the signal of a WebTransport stream (FrameUnexpected), a
/// payload longer than 4,096 bytes (ExcessiveLoad), a fault of the settings, an exercise frame
/// before them (MissingSettings), and an end (ClosedCriticalStream).
#[tactic(auto, using(crate::proofs::ControlReading::control_lawful))]
pub fn control_walk(alloc: Global, bytes: &[u8], end: StreamEnd) -> Result<ControlWalk, OutOfMemory>
    ensures { result ≡ Ok (control_walk_of bytes.now end) }
{
    walk_over::<ControlWalk>(alloc, bytes, end)
}
