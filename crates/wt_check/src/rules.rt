//! The six rules, each with what it keeps of the pairs so far.
//!
//! A rule says of each pair whether it holds up to and with it, where all rules held before and the turn may follow. What a turn of the
//! transport brings counts whole, also where its own answer has the first close. No rule sees what another keeps.

pub mod accepts;
pub mod datagrams;
pub mod reads;
pub mod sends;
pub mod sessions;
pub mod turns;
