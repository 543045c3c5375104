//! What a script says may cross threads.
use crate::script::{Script, ScriptRefused};

fn is_send<T: Send>() {}

/// Each type that a script is read into is `Send`: that this compiles is the proof.
pub fn all_are_send() {
    is_send::<Script>();
    is_send::<ScriptRefused>();
}
