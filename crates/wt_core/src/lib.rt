//! One connection, driven turn by turn, and runs: a list of turns in, the one answer to each out.
//!
//! A [`Core`] is a driver and what its application has: the handshake that goes on, the sessions that were established and
//! the streams that were handed out, each a value of the public types of wt_session. A turn that is a call is one call of a
//! public type, whose answer becomes the reply. [`run_trace`] answers a list of turns.
#![tactic(auto)]

pub mod calls;
pub mod handshake;
pub mod held;
pub mod machine;
pub mod rows;
pub mod send;
pub mod trace;

pub use machine::Core;
pub use trace::{TraceError, run_trace};
