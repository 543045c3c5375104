//! Tests of the transport, its streams, and the driver of a connection: worked sessions, floods and single calls. There are tests here and
//! no code.
#![tactic(auto)]

#[cfg(test)]
mod tests;
