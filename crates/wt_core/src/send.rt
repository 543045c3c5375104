//! What a connection keeps may cross threads.
use crate::handshake::Handshake;
use crate::held::{Sessions, Streams};
use crate::machine::Core;
use crate::trace::TraceError;

fn is_send<T: Send>() {}

/// Each type that a connection keeps or answers is `Send`: that this compiles is the proof.
pub fn all_are_send() {
    is_send::<Handshake>();
    is_send::<Sessions>();
    is_send::<Streams>();
    is_send::<Core>();
    is_send::<TraceError>();
}
