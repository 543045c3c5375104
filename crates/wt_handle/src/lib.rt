//! A connection that C holds by its address: a core, and its last answer.
#![tactic(auto)]

ghost use Rattle.std.specs.Prelude.{[], ◌≡◌, ◌≢◌, IsTrue, None, Some, MatchOption, false, slice_get, IsSomeAnd};
ghost use Rattle.std.specs.Option.{option_copied};
ghost use Rattle.std_alloc.specs.Box.Ownership.{box_owns};
ghost use Rattle.wt_abi.specs.Turns.{turn_of};
ghost use Rattle.wt_core.specs.CoreState.{KeepsHistory};
ghost use Rattle.wt_handle.specs.Token.{heap_token};
ghost use Rattle.wt_handle.specs.contracts.State.{the_row};
ghost use Rattle.wt_handle.specs.declared.State.{State};
ghost use Rattle.wt_handle.specs.declared.Status.TheVariants as statuses;
ghost use Rattle.wt_meaning.specs.History.{History};
ghost use Rattle.wt_meaning.specs.Lawful.{is_lawful};
ghost use Rattle.wt_wire.specs.declared.side.Side.{Side};

pub mod lend;
pub mod loose;

use std::alloc::Global;
use std::marker::Model;
use wt_abi::{ReplyHead, TurnHead, answer_head, no_answer, read_turn, reply_bytes, reply_field};
use wt_core::Core;
use wt_turn::{Action, Answer, Turn};
use wt_wire::side::Side;

/// What became of a turn.
#[derive(Clone, Copy)]
pub enum Status {
    /// It is answered.
    Done,
    /// The head and the bytes are no turn's. Nothing changed.
    Malformed,
    /// The turn may not come now. Nothing changed.
    Unlawful,
    /// There was no memory for the turn. Nothing changed.
    OutOfMemory,
    /// Memory ran out while the turn was answered: from now on each turn fails.
    Failed,
}

/// A connection, and the answer to its last turn.
#[derive(Drop)]
pub struct State {
    /// The connection.
    pub core: Core,
    /// The answer that can be read.
    pub last: Option<Answer>,
}

impl State {
    ghost use Rattle.wt_handle.specs.Answers.{Answered, HasFailed, ChangesNothing, last_actions, last_bytes, last_fields, last_head};

    /// A connection on this side, before its first turn.
    pub fn new(alloc: Global, side: Side) -> State
        ensures core { KeepsHistory side result.core [] }
        ensures last { result.last ≡ None }
    {
        State {
            core: Core::new(alloc, side),
            last: None,
        }
    }

    /// Makes a turn. After one that failed none is done.
    fn answer(&mut self, turn: &Turn) -> Status
        ensures done { result ≡ statuses.Done → (side : Side) (h : History) → KeepsHistory side self.old.core h → Answered side h turn.now self.new }
        ensures unlawful { result ≡ statuses.Unlawful → (side : Side) (h : History) → KeepsHistory side self.old.core h → is_lawful side h turn.now ≡ false }
        ensures same { ChangesNothing result → self.new ≡ self.old }
        ensures failed { result ≡ statuses.Failed → HasFailed self.new }
        ensures told { result ≢ statuses.Malformed }
        ensures stays { IsTrue self.old.core.failed → result ≢ statuses.Done }
    {
        if !self.core.is_lawful(turn) {
            return Status::Unlawful;
        }
        match self.core.turn(turn) {
            Ok(answer) => {
                self.last = Some(answer);
                Status::Done
            }
            Err(_) => {
                self.last = None;
                Status::Failed
            }
        }
    }

    /// Makes the turn of a head and bytes. Memory may be short at any turn.
    pub fn turn(&mut self, alloc: Global, head: &TurnHead, bytes: &[u8]) -> Status
        ensures done { result ≡ statuses.Done → (side : Side) (h : History) → KeepsHistory side self.old.core h
            → IsSomeAnd (turn_of head.now bytes.now) (λ turn. Answered side h turn self.new) }
        ensures malformed { result ≡ statuses.Malformed → turn_of head.now bytes.now ≡ None }
        ensures unlawful { result ≡ statuses.Unlawful → (side : Side) (h : History) → KeepsHistory side self.old.core h
            → IsSomeAnd (turn_of head.now bytes.now) (λ turn. is_lawful side h turn ≡ false) }
        ensures same { ChangesNothing result → self.new ≡ self.old }
        ensures failed { result ≡ statuses.Failed → HasFailed self.new }
        ensures stays { IsTrue self.old.core.failed → result ≢ statuses.Done }
    {
        match read_turn(alloc, head, bytes) {
            Ok(read) => match read {
                Some(turn) => self.answer(&turn),
                None => Status::Malformed,
            },
            Err(_) => Status::OutOfMemory,
        }
    }

    /// The head of the last answer.
    pub fn head(&self) -> ReplyHead
        ensures { result ≡ last_head self.now.last }
    {
        match &self.last {
            Some(answer) => answer_head(answer),
            None => no_answer(),
        }
    }

    /// The bytes of its reply.
    pub fn bytes(&self) -> &[u8]
        ensures { result.now ≡ last_bytes self.now.last }
    {
        match &self.last {
            Some(answer) => reply_bytes(&answer.reply),
            None => b"",
        }
    }

    /// The name and the value of a header field of its reply.
    pub fn field(&self, index: usize) -> Option<(&str, &str)>
        ensures { MatchOption result (slice_get (last_fields self.now.last) index ≡ None) (λ f. slice_get (last_fields self.now.last) index ≡ Some (f.0.now, f.1.now)) }
    {
        match &self.last {
            Some(answer) => reply_field(&answer.reply, index),
            None => None,
        }
    }

    /// An action that goes out with it.
    pub fn action(&self, index: usize) -> Option<&Action>
        ensures { option_copied result ≡ slice_get (last_actions self.now.last) index }
    {
        match &self.last {
            Some(answer) => answer.actions.as_slice().get(index),
            None => None,
        }
    }
}

/// What C holds only the address of.
#[repr(C)]
pub struct Opaque {
    byte: u8,
}

/// A connection, as C holds it.
#[repr(C)]
pub struct Handle {
    pub(crate) at: *mut Opaque,
    pub ghost value: { State },
}

impl Model for Handle {
    ghost also_owns = { λ h. box_owns heap_token the_row h.at h.value };
}

// What it owns may cross.
unsafe impl Send for Handle {}
