//! What becomes of what happens to two ends.
ghost use Rattle.std.specs.Prelude.{◌≡◌, ◌++◌, ◌∷◌, [], OnErr, OnOk};

use std::alloc::Global;
use std::marker::Model;
use wt_turn::Answer;
use wt_wire::error::OutOfMemory;

/// What becomes of an event.
#[derive(Debug, Drop)]
pub enum PairAnswer {
    /// The end takes a turn, and answers it.
    Turn(Answer),
    /// What was delivered isn't lawful at that end any more: nothing changes there.
    Stale,
    /// A datagram is lost.
    Lost,
}

/// The answers to a list of events, one an event. Contracts see the list of them.
#[derive(Debug, Drop)]
pub struct PairAnswers {
    answers: Vec<PairAnswer>,
}

impl Model for PairAnswers {
    ghost use Rattle.std.specs.Prelude.{List};
    ghost use Rattle.wt_pair.specs.declared.answer.PairAnswer.{PairAnswer};

    ghost Value = { List PairAnswer };

    ghost view = { λ a. a.answers.items };
}

impl PairAnswers {
    /// The empty list.
    pub fn new(alloc: Global) -> PairAnswers
        ensures { result ≡ [] }
    {
        PairAnswers {
            answers: Vec::new(alloc),
        }
    }

    /// Adds an answer at the end. Where no memory is there for it, nothing changes.
    ///
    /// # Errors
    ///
    /// `OutOfMemory` where the longer list found no memory.
    pub fn push(&mut self, answer: PairAnswer) -> Result<(), OutOfMemory>
        ensures ok { OnOk result (self.new ≡ self.old ++ answer ∷ []) }
        ensures err { OnErr result (self.new ≡ self.old) }
    {
        self.answers.push(answer)?;
        Ok(())
    }

    /// The answers as a slice.
    pub fn as_slice(&self) -> &[PairAnswer]
        ensures { result.now ≡ self.now }
    {
        self.answers.as_slice()
    }
}
