//! What may cross threads.
use crate::close::CloseError;
use crate::connection::{Connection, SharedError};
use crate::gate::{CondvarGate, OpenGate};
use crate::history::History;
use crate::kept::{Kept, StepError};
use crate::shared::Shared;
use crate::told::Told;

fn is_send<T: Send>() {}

fn is_sync<T: Sync>() {}

/// The locked value, handles, gates, errors and what handles were told may go to another thread, and the lock may be
/// shared: that this compiles is the proof.
pub fn may_cross_threads() {
    is_send::<Kept>();
    is_send::<History>();
    is_send::<Told>();
    is_send::<Connection>();
    is_send::<OpenGate>();
    is_send::<CondvarGate>();
    is_send::<StepError>();
    is_send::<SharedError>();
    is_send::<CloseError>();
    is_sync::<Shared>();
}
