//! A server of one connection over the public types alone, as a user writes one: it sends back what comes.
#![tactic(auto)]

pub mod server;

pub use server::EchoServer;
