//! The peer's requests for sessions.
ghost use Rattle.std.specs.List.{position};
ghost use Rattle.std.specs.Prelude.{◌≡◌, ◌==◌, [], IfOk, not, length};
ghost use Rattle.wt_kept.specs.Calling.{is_held, is_queued_now, take_request_now, was_given_now};
ghost use Rattle.wt_kept.specs.Classifying.{admitted_request};
ghost use Rattle.wt_kept.specs.Ending.{forget_request};

use std::alloc::Global;
use std::marker::Model;
use wt_proto::session::SessionRequest;
use wt_wire::error::OutOfMemory;
use wt_wire::ids::{SessionId, StreamId};

/// How many requests are held at once (this repository's rule; the own SETTINGS say as many sessions).
const MOST_HELD: usize = 4;

/// A request that waits until a call takes it.
#[derive(Drop)]
struct Queued {
    id: StreamId,
    request: SessionRequest,
}

impl Model for Queued {
    ghost use Rattle.wt_kept.specs.Kept.{QueuedRequest};

    ghost Value = { QueuedRequest };

    ghost view = { λ q. record { id = q.id; fields = q.request } };
}

/// The requests: those that are queued until a call takes them, and the streams of all whose session isn't gone.
#[derive(Drop)]
pub struct Requests {
    queued: Vec<Queued>,
    held: Vec<StreamId>,
}

impl Model for Requests {
    ghost use Rattle.std.specs.Prelude.{◌≤◌, length};
    ghost use Rattle.wt_kept.specs.Kept.{RequestsNow};

    ghost Value = { RequestsNow };

    ghost view = { λ r. record { queued = r.queued.items; held = r.held.items } };

    ghost invariant = { λ r. length r.held.items ≤ 4 };
}

impl Requests {
    /// None came.
    pub fn new(alloc: Global) -> Requests
        ensures { result ≡ record { queued = []; held = [] } }
    {
        Requests {
            queued: Vec::new(alloc),
            held: Vec::new(alloc),
        }
    }

    /// One more is queued and held, where fewer than 4 are held; false where it finds no room.
    pub fn admit(&mut self, id: StreamId, request: SessionRequest) -> Result<bool, OutOfMemory>
        ensures { IfOk result (λ has_room. record { has_room = has_room; requests = self.new } ≡ admitted_request id request self.old) }
    {
        if self.held.len() >= MOST_HELD {
            return Ok(false);
        }
        self.queued.push(Queued { id, request })?;
        self.held.push(id)?;
        Ok(true)
    }

    /// Whether one is queued.
    pub fn has_next(&self) -> bool
        ensures { result ≡ not (length self.now.queued == 0) }
    {
        !self.queued.is_empty()
    }

    /// The next one, which is queued no more. A client's peer opens no session's stream: what came there stays queued (RFC 9220,
    /// section 3).
    pub fn take_next(&mut self) -> Option<(SessionId, SessionRequest)>
        ensures { record { request = result; requests = self.new } ≡ take_request_now self.old }
    {
        if self.queued.is_empty() {
            return None;
        }
        let session = SessionId::try_from_session_stream(self.queued[0].id)?;
        let Queued { id: _, request } = self.queued.remove(0);
        Some((session, request))
    }

    /// Where the stream's request stands among those that are held.
    fn place_of(&self, id: StreamId) -> Option<usize>
        ensures { result ≡ position (λ held. held == id) self.now.held }
    {
        self.held.iter().position(|held| *held == id)
    }

    fn is_held(&self, id: StreamId) -> bool
        ensures { result ≡ is_held self.now id }
    {
        self.held.iter().any(|held| *held == id)
    }

    fn is_queued(&self, id: StreamId) -> bool
        ensures { result ≡ is_queued_now self.now id }
    {
        self.queued.iter().any(|queued| queued.id == id)
    }

    /// Whether the stream's request is held, and was given.
    pub fn was_given(&self, id: StreamId) -> bool
        ensures { result ≡ was_given_now self.now id }
    {
        self.is_held(id) && !self.is_queued(id)
    }

    /// The stream's session is gone: its request is held no more.
    pub fn forget(&mut self, id: StreamId)
        ensures { self.new ≡ forget_request id self.old }
    {
        match self.place_of(id) {
            Some(index) => {
                let _gone = self.held.remove(index);
            }
            None => {}
        }
    }
}
