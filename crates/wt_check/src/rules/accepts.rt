//! Rule 3: a stream that a reply accepts was opened by the peer, no earlier reply handed it out, and at its front stands the header of the
//! session that the call names.

use crate::by_id::ById;
use crate::facts::Facts;
use crate::front::Front;
use std::alloc::Global;
use wt_turn::reply::Reply;
use wt_turn::turn::Turn;
use wt_wire::error::OutOfMemory;
use wt_wire::ids::StreamId;

/// What the rule keeps: which streams were handed out.
#[derive(Drop)]
pub struct AcceptRule {
    handed_out: ById<()>,
}

/// The stream that a reply hands out.
pub fn handed_in(reply: &Reply) -> Option<StreamId> {
    match reply {
        Reply::Uni(id) | Reply::Bi(id) | Reply::SendReady(id) | Reply::BiReady(id) => Some(*id),
        _ => None,
    }
}

/// The stream that a reply accepts.
fn accepted_in(reply: &Reply) -> Option<StreamId> {
    match reply {
        Reply::Uni(id) | Reply::Bi(id) => Some(*id),
        _ => None,
    }
}

impl AcceptRule {
    /// No stream was handed out.
    pub fn new(alloc: Global) -> AcceptRule {
        AcceptRule {
            handed_out: ById::new(alloc),
        }
    }

    fn may_accept(&self, facts: &Facts, turn: &Turn, id: StreamId) -> bool {
        let Some(named) = facts.named(turn) else {
            return false;
        };
        facts.front(id) == Some(Front::WebTransport(named)) && self.handed_out.get(id).is_none()
    }

    /// Whether the rule holds with this pair.
    pub fn holds(
        &mut self,
        facts: &Facts,
        turn: &Turn,
        reply: &Reply,
    ) -> Result<bool, OutOfMemory> {
        let holds = match accepted_in(reply) {
            Some(id) => self.may_accept(facts, turn, id),
            None => true,
        };
        if let Some(id) = handed_in(reply) {
            self.handed_out.put(id, ())?;
        }
        Ok(holds)
    }
}
