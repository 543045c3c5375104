//! A relay of rooms: what arrives on a stream of one session goes out on a stream of each other session of its room.
//!
//! A [`Relay`] keeps a server's endpoint. It takes one transport turn of one connection at a time, and makes the calls that follow
//! from it: it accepts requests and streams, opens copies, and passes pieces on. The room of a session is the path of its request.
#![tactic(auto)]

pub mod answers;
mod connection;
mod copies;
mod desk;
mod kept;
mod passes;
pub mod relay;
mod room;
pub mod run;
pub mod send;
mod source;
mod streams;

pub use answers::RelayAnswers;
pub use relay::{Relay, RelayError};
pub use run::{RelayRun, run_relay};
