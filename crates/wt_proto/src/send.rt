//! The readers of streams may cross threads.
use crate::control_walk::ControlWalk;
use crate::reader::{BiReader, ControlReader, FrameReader, UniReader};
use crate::response_walk::ResponseWalk;
use crate::session_walk::SessionWalk;
use crate::stream_header::{StreamHeader, StreamKind};
use crate::verdict::Verdict;

fn is_send<T: Send>() {}

/// Each reader is `Send`, and so is what it finds: that this compiles is the proof.
pub fn all_are_send() {
    is_send::<UniReader>();
    is_send::<BiReader>();
    is_send::<ControlReader>();
    is_send::<FrameReader<SessionWalk>>();
    is_send::<FrameReader<ResponseWalk>>();
    is_send::<Verdict>();
    is_send::<ControlWalk>();
    is_send::<SessionWalk>();
    is_send::<ResponseWalk>();
    is_send::<StreamHeader>();
    is_send::<StreamKind>();
}
