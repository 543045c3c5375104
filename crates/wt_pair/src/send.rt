//! Two ends, their events and their answers may cross threads.
use crate::answer::{PairAnswer, PairAnswers};
use crate::event::{PairEvent, PairFacts};
use crate::item::Item;
use crate::link::Link;
use crate::pair::Pair;
use crate::run::PairError;

fn is_send<T: Send>() {}

/// Each type of this crate is `Send`: that this compiles is the proof.
pub fn all_are_send() {
    is_send::<Pair>();
    is_send::<PairFacts>();
    is_send::<PairEvent>();
    is_send::<PairAnswer>();
    is_send::<PairAnswers>();
    is_send::<PairError>();
    is_send::<Item>();
    is_send::<Link>();
}
