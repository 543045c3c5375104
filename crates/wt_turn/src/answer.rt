//! Answers: the reply to a turn, and the actions that go out.
ghost use Rattle.std.specs.Prelude.{◌≡◌, ◌↔◌, IfOk, IsTrue};

use crate::action::Actions;
use crate::reply::Reply;
use crate::sequence::{Element, Sequence};
use std::alloc::Global;
use wt_wire::error::OutOfMemory;

/// The answer to one turn.
#[derive(PartialEq, Eq, Debug, Drop)]
pub struct Answer {
    /// What the caller is answered.
    pub reply: Reply,
    /// What goes out, in order.
    pub actions: Actions,
}

impl Answer {
    /// An answer that is equal to this one.
    pub fn copy(&self) -> Result<Answer, OutOfMemory>
        ensures { IfOk result (λ a. a ≡ self.now) }
    {
        let alloc = *self.actions.allocator();
        Ok(Answer {
            reply: self.reply.copy(alloc)?,
            actions: self.actions.copy()?,
        })
    }

    /// Whether both have the same reply and the same actions.
    pub fn is_equal(&self, other: &Answer) -> bool
        ensures { IsTrue result ↔ (self.now ≡ other.now) }
    {
        self.reply.is_equal(&other.reply) && self.actions.is_equal(&other.actions)
    }
}

impl Element for Answer {
    fn copied(&self, _alloc: Global) -> Result<Answer, OutOfMemory> {
        self.copy()
    }

    fn is_same(&self, other: &Answer) -> bool {
        self.is_equal(other)
    }
}

/// A list of answers, one a turn.
pub type Answers = Sequence<Answer>;
