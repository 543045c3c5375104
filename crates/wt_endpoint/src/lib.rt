//! Endpoints: what listens or dials, with its connections by number.
//!
//! An [`Endpoint`] keeps a core for each connection, and answers each connection's turns. Its contract says each answer over
//! the list of the endpoint's turns, and that each connection is answered as if it were alone.
#![tactic(auto)]

mod connections;
pub mod endpoint;
mod first;
pub mod run;
pub mod send;
pub mod turn;

pub use endpoint::{Client, Endpoint, EndpointSide, Server};
pub use run::{EndpointError, run_endpoint};
pub use turn::{Closings, EndpointAnswers, EndpointReply, EndpointTurn};
