//! Two ends over a link that delays, cuts, reorders between streams and loses datagrams: what each read is what the other wrote.
//!
//! A client's core and a server's, and for each what the other did and it wasn't told yet: a [`Link`]. A list of events says what the
//! applications call, what is delivered and in which parts, and which datagram is lost. [`run_pair`] answers it, and
//! [`run_pair_program`] is the program that reads such a list.
#![tactic(auto)]

ghost use Rattle.std.specs.Prelude.{List};
ghost use Rattle.wt_pair.specs.Claims.{TwoEnds};
ghost use Rattle.wt_pair.specs.Pair.{run_pair};
ghost use Rattle.wt_pair.specs.declared.event.PairEvent.{PairEvent};
ghost use Rattle.wt_pair.specs.declared.event.PairFacts.{PairFacts};

pub mod answer;
pub mod event;
pub mod item;
pub mod link;
pub mod output;
pub mod pair;
pub mod program;
pub mod run;
pub mod script;
pub mod send;

pub use answer::{PairAnswer, PairAnswers};
pub use event::{PairEvent, PairFacts};
pub use link::Link;
pub use pair::Pair;
pub use program::run_pair_program;
pub use run::{PairError, run_pair};

/// Of each list of events, as far as they fit: what one end read on a stream is a prefix of what the other's writes accepted there, each payload was
/// received at most as often as the other sent it, each end's answers are what its own turns mean, and where nothing waits for an end that is open,
/// all that the other sent on a stream came there.
pub fn two_ends_agree()
    ensures agree { (f : PairFacts) (events : List PairEvent) → TwoEnds f events (run_pair f events).answers }
{}
