//! What waits for a session's accepts and receives.
ghost use Rattle.std.specs.List.{position};
ghost use Rattle.std.specs.Prelude.{◌≡◌, ◌≤◌, ◌+◌, ◌++◌, ◌==◌, ℕ, IfOk, OnOk, filter, length, not};
ghost use Rattle.wt_kept.specs.Ending.{waiting_ids};
ghost use Rattle.wt_kept.specs.Windows.{after_first, empty_window, first_datagram, first_stream_id, is_of_kind, part_of, with_datagram, with_stream, without, without_taken};
ghost use Rattle.wt_peer_streams.specs.Admitting.{admission_now};

use crate::datagram::Datagram;
use std::alloc::Global;
use std::marker::Model;
use wt_wire::error::OutOfMemory;
use wt_wire::ids::{SessionId, StreamId};

/// How many streams, and how many datagrams, may wait in a window (draft-ietf-webtrans-http3, section 4.5, has an endpoint limit
/// them; the number is this repository's rule).
const ROOM: usize = 16;

/// What names a session.
pub(crate) trait Named {
    // the session
    ghost names: { Self → ℕ };

    fn session(&self) -> SessionId
        ensures { result ≡ names self.now };
}

/// A stream that waits for its session's accepts.
#[derive(Clone, Copy)]
pub(crate) struct Waiting {
    id: StreamId,
    session: SessionId,
}

impl Model for Waiting {
    ghost use Rattle.wt_sessions.specs.StreamTable as streams;

    ghost Value = { streams.Waiting };

    ghost view = { λ w. record { id = w.id; session = w.session } };

    ghost inverse = { λ w. record { id = w.id; session = w.session } };
}

impl Named for Waiting {
    ghost names = { λ w. w.session };

    fn session(&self) -> SessionId {
        self.session
    }
}

/// What names the session goes to the end of `part`; the rest stays, in its order, and takes no memory.
fn split<T: Named + Drop>(
    from: &mut Vec<T>,
    session: SessionId,
    part: &mut Vec<T>,
) -> Result<(), OutOfMemory>
    ensures rest { OnOk result (from.new.items ≡ filter (λ x. not (T.names x == session)) from.old.items) }
    ensures part { OnOk result (part.new.items ≡ part.old.items ++ filter (λ x. T.names x == session) from.old.items) }
    ensures few { length from.new.items ≤ length from.old.items }
    ensures few_more { length part.new.items ≤ length part.old.items + length from.old.items }
{
    let mut index = 0;
    while index < from.len() {
        if from[index].session() == session {
            part.push(from.remove(index))?;
        } else {
            index += 1;
        }
    }
    Ok(())
}

/// Whether what comes for a session finds a place.
#[derive(Clone, Copy)]
pub enum Admission {
    /// It waits now.
    Admitted,
    /// As many wait as may.
    Full,
    /// The session is gone.
    Gone,
}

/// A window: streams in the order in which they became ripe, and datagrams in that in which they came, at most 16 of each. A
/// session that lives has one of its own; all ids that name no session share another.
#[derive(Drop)]
pub struct Window {
    streams: Vec<Waiting>,
    datagrams: Vec<Datagram>,
}

impl Model for Window {
    ghost use Rattle.std.specs.Prelude.{◌≤◌, length};
    ghost use Rattle.wt_kept.specs.Kept.{WindowNow};

    ghost Value = { WindowNow };

    ghost view = { λ w. record { streams = w.streams.items; datagrams = w.datagrams.items } };

    ghost invariant = { λ w. (length w.streams.items ≤ 16) × (length w.datagrams.items ≤ 16) };
}

impl Window {
    /// Nothing waits.
    pub fn new(alloc: Global) -> Window
        ensures { result ≡ empty_window }
    {
        Window {
            streams: Vec::new(alloc),
            datagrams: Vec::new(alloc),
        }
    }

    /// A stream waits, where fewer than 16 do.
    pub fn admit_stream(
        &mut self,
        id: StreamId,
        session: SessionId,
    ) -> Result<Admission, OutOfMemory>
        ensures { IfOk result (λ a. record { admission = admission_now a; window = self.new } ≡ with_stream (record { id = id; session = session }) self.old) }
    {
        if self.streams.len() >= ROOM {
            return Ok(Admission::Full);
        }
        self.streams.push(Waiting { id, session })?;
        Ok(Admission::Admitted)
    }

    /// A datagram waits, where fewer than 16 do.
    pub fn admit_datagram(&mut self, datagram: Datagram) -> Result<Admission, OutOfMemory>
        ensures { IfOk result (λ a. record { admission = admission_now a; window = self.new } ≡ with_datagram datagram self.old) }
    {
        if self.datagrams.len() >= ROOM {
            return Ok(Admission::Full);
        }
        self.datagrams.push(datagram)?;
        Ok(Admission::Admitted)
    }

    /// Where the first stream of this kind stands.
    fn index_of(&self, bidirectional: bool) -> Option<usize>
        ensures { result ≡ position (λ waiting. is_of_kind bidirectional waiting.id) self.now.streams }
    {
        self.streams
            .iter()
            .position(|waiting| waiting.id.is_bidirectional() == bidirectional)
    }

    /// The first stream of this kind, which waits no longer.
    pub fn take_stream(&mut self, bidirectional: bool) -> Option<StreamId>
        ensures stream { result ≡ first_stream_id bidirectional self.old.streams }
        ensures rest { self.new ≡ without_taken (first_stream_id bidirectional self.old.streams) self.old }
    {
        match self.index_of(bidirectional) {
            Some(index) => {
                let waiting = self.streams.remove(index);
                Some(waiting.id)
            }
            None => None,
        }
    }

    /// The first datagram, which waits no longer.
    pub fn take_datagram(&mut self) -> Option<Datagram>
        ensures datagram { result ≡ first_datagram self.old.datagrams }
        ensures rest { self.new ≡ record self.old { datagrams = after_first self.old.datagrams } }
    {
        if self.datagrams.is_empty() {
            return None;
        }
        Some(self.datagrams.remove(0))
    }

    /// What waits for the session, as a window of its own; the rest stays.
    pub fn part_of(&mut self, session: SessionId) -> Result<Window, OutOfMemory>
        ensures part { IfOk result (λ part. part ≡ part_of session self.old) }
        ensures rest { OnOk result (self.new ≡ without session self.old) }
    {
        let mut part = Window::new(*self.streams.allocator());
        split(&mut self.streams, session, &mut part.streams)?;
        split(&mut self.datagrams, session, &mut part.datagrams)?;
        Ok(part)
    }

    /// The streams that wait.
    pub fn into_streams(self) -> Result<Vec<StreamId>, OutOfMemory>
        ensures { IfOk result (λ ids. ids.items ≡ waiting_ids self.streams) }
    {
        let mut ids = Vec::new(*self.streams.allocator());
        for waiting in self.streams.as_slice() {
            ids.push(waiting.id)?;
        }
        Ok(ids)
    }
}
