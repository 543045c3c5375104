//! The sessions that are gone.
ghost use Rattle.std.specs.Prelude.{◌≡◌, ◌==◌, [], OnOk, length, option_copied, option_map};
ghost use Rattle.wt_kept.specs.Ending.{with_gone};
ghost use Rattle.wt_kept.specs.Windows.{end_in};
ghost use Rattle.wt_peer_streams.specs.Gone.{end_now};

use crate::numbered::{Numbered, place_of};
use std::alloc::Global;
use std::marker::Model;
use wt_turn::close::ApplicationClose;
use wt_wire::error::OutOfMemory;
use wt_wire::ids::SessionId;

/// How a session became gone.
#[derive(Drop)]
pub enum SessionEnd {
    /// Its request was refused, surplus or rejected: it was never established.
    Refused,
    /// The application ended it.
    Ended,
    /// The peer closed it with this code and reason (draft-ietf-webtrans-http3, section 5).
    Closed(ApplicationClose),
}

/// A session that is gone.
#[derive(Drop)]
pub(crate) struct GoneSession {
    session: SessionId,
    end: SessionEnd,
}

impl Model for GoneSession {
    ghost use Rattle.wt_kept.specs.Kept.{GoneNow};
    ghost use Rattle.wt_peer_streams.specs.Gone.{end_now};

    ghost Value = { GoneNow };

    ghost view = { λ g. record { id = g.session; end = end_now g.end } };
}

impl Numbered for GoneSession {
    ghost number_of = { λ g. g.id };

    fn number(&self) -> u64 {
        self.session.session_stream().into_u64()
    }
}

/// The sessions that are gone, by id. A stream or a datagram may name any of them at any time, so none is forgotten.
#[derive(Drop)]
pub struct GoneSessions {
    sessions: Vec<GoneSession>,
}

impl Model for GoneSessions {
    ghost use Rattle.std.specs.Prelude.{List};
    ghost use Rattle.wt_kept.specs.Kept.{GoneNow};
    ghost use Rattle.wt_peer_streams.specs.ByNumber.{IsOrdered};

    ghost Value = { List GoneNow };

    ghost view = { λ g. g.sessions.items };

    ghost invariant = { λ g. IsOrdered (λ (x : GoneNow). x.id) g.sessions.items };
}

impl GoneSessions {
    /// None is gone.
    pub fn new(alloc: Global) -> GoneSessions
        ensures { result ≡ [] }
    {
        GoneSessions {
            sessions: Vec::new(alloc),
        }
    }

    /// Whether none is gone.
    pub fn is_empty(&self) -> bool
        ensures { result ≡ (length self.now == 0) }
    {
        self.sessions.is_empty()
    }

    /// How the session became gone; None where it isn't.
    pub fn end_of(&self, session: SessionId) -> Option<&SessionEnd>
        ensures { option_map end_now (option_copied result) ≡ end_in self.now session }
    {
        let place = place_of(
            self.sessions.as_slice(),
            session.session_stream().into_u64(),
        );
        if place >= self.sessions.len() {
            return None;
        }
        let gone = &self.sessions[place];
        if gone.session == session {
            return Some(&gone.end);
        }
        None
    }

    /// The session becomes gone.
    pub fn add(&mut self, session: SessionId, end: SessionEnd) -> Result<(), OutOfMemory>
        ensures { OnOk result (self.new ≡ with_gone (record { id = session; end = end_now end }) self.old) }
    {
        let place = place_of(
            self.sessions.as_slice(),
            session.session_stream().into_u64(),
        );
        self.sessions.insert(place, GoneSession { session, end })?;
        Ok(())
    }
}
