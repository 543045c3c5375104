//! What a relay answers.
ghost use Rattle.std.specs.Prelude.{◌≡◌, ◌++◌, [], OnErr, OnOk};
ghost use Rattle.wt_relay.specs.Calls.{is_idle, told};

use std::alloc::Global;
use std::marker::Model;
use wt_turn::Answer;
use wt_turn::reply::Reply;
use wt_wire::error::OutOfMemory;

/// The answers of a turn and of the calls that followed it, each after the number of its connection, in the order in which they
/// were made. One that is `Pending` and has no action isn't there. Contracts see the list of these pairs.
#[derive(Debug, Drop)]
pub struct RelayAnswers {
    pairs: Vec<(u32, Answer)>,
}

impl Model for RelayAnswers {
    ghost use Rattle.std.specs.Prelude.{List, ℕ};
    ghost use Rattle.wt_turn.specs.declared.answer.Answer.{Answer};

    ghost Value = { List (ℕ × Answer) };

    ghost view = { λ a. a.pairs.items };
}

impl RelayAnswers {
    /// No answer.
    pub fn new(alloc: Global) -> RelayAnswers
        ensures { result ≡ [] }
    {
        RelayAnswers {
            pairs: Vec::new(alloc),
        }
    }

    /// Adds a connection's answer at the end, where something came of it. Where no memory is there for it, nothing changes.
    ///
    /// # Errors
    ///
    /// `OutOfMemory` where the longer list found no memory.
    pub fn push(&mut self, number: u32, answer: Answer) -> Result<(), OutOfMemory>
        ensures ok { OnOk result (self.new ≡ self.old ++ told number answer) }
        ensures err { OnErr result (self.new ≡ self.old) }
    {
        if is_idle(&answer) {
            return Ok(());
        }
        self.pairs.push((number, answer))?;
        Ok(())
    }

    /// The pairs as a slice.
    pub fn as_slice(&self) -> &[(u32, Answer)]
        ensures { result.now ≡ self.now }
    {
        self.pairs.as_slice()
    }
}

/// Whether nothing came of a call.
fn is_idle(answer: &Answer) -> bool
    ensures { result ≡ is_idle answer.now }
{
    matches!(answer.reply, Reply::Pending) && answer.actions.as_slice().is_empty()
}
