//! Relays and their answers may cross threads.
use crate::answers::RelayAnswers;
use crate::relay::{Relay, RelayError};

fn is_send<T: Send>() {}

/// Each of these types is `Send`: that this compiles is the proof.
pub fn all_are_send() {
    is_send::<Relay>();
    is_send::<RelayAnswers>();
    is_send::<RelayError>();
}
