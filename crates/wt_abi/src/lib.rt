//! The flat form of turns and answers: a head of numbers, and bytes beside it.
#![tactic(auto)]

pub mod actions;
pub mod connecting;
pub mod head;
pub mod kinds;
pub mod numbers;
pub mod replies;
pub mod texts;
pub mod theorems;
pub mod turns;

pub use actions::{action_bytes, action_head};
pub use head::{ActionHead, AddressHead, ReplyHead, TurnHead};
pub use replies::{answer_head, no_answer, reply_bytes, reply_field};
pub use turns::read_turn;
