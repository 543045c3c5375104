//! What goes out, until it is collected.
ghost use Rattle.std.specs.Prelude.{◌≡◌, ◌++◌, ◌∷◌, [], OnErr, OnOk, IsTrue, List};
ghost use Rattle.wt_turn.specs.Joined.{join_one};
ghost use Rattle.wt_transport.specs.LastAction.{ends_with_send, is_other, is_send, with_more};

use std::alloc::Global;
use std::marker::Model;
use std::mem;
use wt_turn::action::{Action, Actions};
use wt_turn::piece::Piece;
use wt_turn::sequence::Sequence;
use wt_wire::error::OutOfMemory;
use wt_wire::ids::StreamId;

/// Actions in the order in which they go out. Contracts see the list of them.
#[derive(Debug, Drop)]
pub struct Outbox {
    items: Vec<Action>,
}

impl Model for Outbox {
    ghost use Rattle.std.specs.Prelude.{List};
    ghost use Rattle.wt_turn.specs.declared.action.Action.{Action};

    ghost Value = { List Action };

    ghost view = { λ o. o.items.items };
}

impl Outbox {
    /// No actions.
    pub fn new(alloc: Global) -> Outbox
        ensures { result ≡ [] }
    {
        Outbox {
            items: Vec::new(alloc),
        }
    }

    /// All of them.
    pub fn into_actions(self) -> Actions
        ensures { result ≡ self }
    {
        Sequence::from_vec(self.items)
    }

    /// Adds an action that sends no bytes. Where no memory is there for it, nothing changes.
    #[tactic(auto, using(crate::proofs::Joining::join_other))]
    pub fn put(&mut self, action: Action) -> Result<(), OutOfMemory>
        requires { IsTrue (is_other action) }
        ensures ok { OnOk result (self.new ≡ join_one self.old action) }
        ensures err { OnErr result (self.new ≡ self.old) }
    {
        self.items.push(action)?;
        Ok(())
    }

    /// Sends bytes on a stream; they join those of the last action where it sends on the same one. Where no
    /// memory is there for them, nothing changes.
    #[tactic(auto, using(crate::proofs::Joining::join_elsewhere))]
    pub fn send(&mut self, alloc: Global, id: StreamId, bytes: &[u8]) -> Result<(), OutOfMemory>
        ensures ok { OnOk result (self.new ≡ join_one self.old (Action.Send id bytes.now)) }
        ensures err { OnErr result (self.new ≡ self.old) }
    {
        if self.ends_with_send(id) {
            return self.append(alloc, id, bytes);
        }
        let piece = Piece::from_slice(alloc, bytes)?;
        self.items.push(Action::Send { id, piece })?;
        Ok(())
    }

    /// The last action sends on this stream.
    #[tactic(auto, using(crate::proofs::Joining::last_sends))]
    fn ends_with_send(&self, id: StreamId) -> bool
        ensures { result ≡ ends_with_send self.now id }
    {
        let count = self.items.len();
        if count == 0 {
            return false;
        }
        sends_on(&self.items[count - 1], id)
    }

    #[tactic(auto, using(crate::proofs::Joining::join_here, crate::proofs::Joining::some_sends))]
    fn append(&mut self, alloc: Global, id: StreamId, bytes: &[u8]) -> Result<(), OutOfMemory>
        requires { IsTrue (ends_with_send self.old id) }
        ensures ok { OnOk result (self.new ≡ join_one self.old (Action.Send id bytes.now)) }
        ensures err { OnErr result (self.new ≡ self.old) }
    {
        let last = self.items.len() - 1;
        append_to(alloc, &mut self.items[last], bytes)
    }

    /// Takes the last action back.
    pub fn undo(&mut self)
        ensures { (before : List Action) (a : Action) → self.old ≡ before ++ a ∷ [] → self.new ≡ before }
    {
        self.items.pop();
    }
}

/// The action sends on this stream.
fn sends_on(action: &Action, id: StreamId) -> bool
    ensures { result ≡ is_send action.now id }
{
    match action {
        Action::Send { id: other, .. } => *other == id,
        _ => false,
    }
}

/// Adds bytes to those that the action sends. Where no memory is there for them, nothing changes.
fn append_to(alloc: Global, action: &mut Action, bytes: &[u8]) -> Result<(), OutOfMemory>
    ensures ok { OnOk result (action.new ≡ with_more action.old bytes.now) }
    ensures err { OnErr result (action.new ≡ action.old) }
{
    match action {
        Action::Send { piece, .. } => extend(alloc, piece, bytes),
        _ => Ok(()),
    }
}

/// Adds bytes to a piece, in its own memory.
fn extend(alloc: Global, piece: &mut Piece, bytes: &[u8]) -> Result<(), OutOfMemory>
    ensures ok { OnOk result (piece.new ≡ piece.old ++ bytes.now) }
    ensures err { OnErr result (piece.new ≡ piece.old) }
{
    let mut all = mem::replace(piece, Piece::new(alloc)).into_vec();
    let extended = all.extend_from_slice(bytes);
    *piece = Piece::from_vec(all);
    extended?;
    Ok(())
}
