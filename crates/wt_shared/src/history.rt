//! The history of a connection.
ghost use Rattle.std.specs.Prelude.{◌≡◌, ◌<◌, ◌^◌, ◌++◌, ◌∷◌, [], IfOk, OnErr, OnOk, length};

use std::alloc::Global;
use std::marker::Model;
use wt_turn::{Answer, Turn};
use wt_wire::error::OutOfMemory;

/// All turns of a connection, each with its answer, the first first. Contracts see the list of these pairs.
#[derive(Debug, Drop)]
pub struct History {
    pairs: Vec<(Turn, Answer)>,
}

impl Model for History {
    ghost use Rattle.wt_shared.specs.History.{Pairs};

    ghost Value = { Pairs };

    ghost view = { λ h. h.pairs.items };
}

impl History {
    /// No turn yet.
    pub fn new(alloc: Global) -> History
        ensures { result ≡ [] }
    {
        History {
            pairs: Vec::new(alloc),
        }
    }

    /// Adds a turn and its answer at the end. Where no memory is there for them, nothing changes.
    pub fn push(&mut self, turn: Turn, answer: Answer) -> Result<(), OutOfMemory>
        ensures ok { OnOk result (self.new ≡ self.old ++ (turn, answer) ∷ []) }
        ensures err { OnErr result (self.new ≡ self.old) }
    {
        self.pairs.push((turn, answer))?;
        Ok(())
    }

    /// Adds copies of a turn and its answer at the end, and returns their place. Where no memory is there for them, nothing
    /// changes.
    pub fn push_copy(&mut self, turn: &Turn, answer: &Answer) -> Result<u64, OutOfMemory>
        ensures place { IfOk result (λ place. place ≡ length self.old) }
        ensures ok { OnOk result (self.new ≡ self.old ++ (turn.now, answer.now) ∷ []) }
        ensures room { OnOk result (length self.new < 2 ^ 64) }
        ensures err { OnErr result (self.new ≡ self.old) }
    {
        let place = self.len() as u64;
        let alloc = *self.pairs.allocator();
        let turn = turn.copy(alloc)?;
        let answer = answer.copy()?;
        self.push(turn, answer)?;
        // (the length that is read here is known to fit)
        let _count = self.len();
        Ok(place)
    }

    /// How many turns there were.
    pub fn len(&self) -> usize
        ensures value { result ≡ length self.now }
        ensures bound { length self.now < 2 ^ 64 }
    {
        self.pairs.len()
    }

    /// The turns with their answers, the first first.
    pub fn as_slice(&self) -> &[(Turn, Answer)]
        ensures { result.now ≡ self.now }
    {
        self.pairs.as_slice()
    }

    /// A history that is equal to this one.
    pub fn copy(&self) -> Result<History, OutOfMemory>
        ensures { IfOk result (λ copied. copied ≡ self.now) }
    {
        let alloc = *self.pairs.allocator();
        let mut copied = History::new(alloc);
        for pair in self.pairs.as_slice() {
            let turn = pair.0.copy(alloc)?;
            let answer = pair.1.copy()?;
            copied.push(turn, answer)?;
        }
        Ok(copied)
    }
}
