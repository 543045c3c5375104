//! Where streams, requests and datagrams went, once it was known what they are.
ghost use Rattle.std.specs.Prelude.{◌≡◌, OnOk};
ghost use Rattle.wt_kept.specs.Calling.{awaits_answer_now};
ghost use Rattle.wt_kept.specs.Classifying.{fail_with};
ghost use Rattle.wt_kept.specs.Looking.{fail_if_closed};
ghost use Rattle.wt_kept.specs.Moment.{closed_with};
ghost use Rattle.wt_peer_streams.specs.Dispatched.{nothing_dispatched};

mod admitting;
mod ending;
mod reading;

use crate::critical::CriticalStreams;
use crate::requests::Requests;
use crate::sessions::Sessions;
use std::alloc::Global;
use std::marker::Model;
use wt_transport::Transport;
use wt_turn::piece::Piece;
use wt_wire::error::{ErrorCode, OutOfMemory};
use wt_wire::ids::SessionId;

/// Where streams, requests and datagrams went, and the fault that came with one of them. Nothing goes on after a fault.
#[derive(Drop)]
pub struct Dispatched {
    alloc: Global,
    /// The peer's streams on which the connection rests.
    pub critical: CriticalStreams,
    /// The peer's requests for sessions.
    pub requests: Requests,
    /// The sessions.
    pub sessions: Sessions,
    fault: Option<ErrorCode>,
}

impl Model for Dispatched {
    ghost use Rattle.wt_kept.specs.Kept.{DispatchedNow};

    ghost Value = { DispatchedNow };

    ghost view = { λ d. record { critical = d.critical; requests = d.requests; sessions = d.sessions; fault = d.fault } };
}

impl Dispatched {
    /// Nothing came.
    pub fn new(alloc: Global) -> Dispatched
        ensures { result ≡ nothing_dispatched }
    {
        Dispatched {
            alloc,
            critical: CriticalStreams::new(),
            requests: Requests::new(alloc),
            sessions: Sessions::new(alloc),
            fault: None,
        }
    }

    /// The fault by which the connection closes.
    pub fn fault(&self) -> Option<ErrorCode>
        ensures { result ≡ self.now.fault }
    {
        self.fault
    }

    fn fail(&mut self, code: ErrorCode)
        ensures { self.new ≡ fail_with code self.old }
    {
        self.fault = Some(code);
    }

    /// Critical streams must not end (RFC 9114, section 6.2.1; RFC 9204, section 4.2).
    pub fn fail_if_closed(&mut self, is_closed: bool)
        ensures { self.new ≡ fail_if_closed is_closed self.old }
    {
        if is_closed && self.fault.is_none() {
            self.fail(ErrorCode::ClosedCriticalStream);
        }
    }

    /// A fault closes the connection with its code (RFC 9114, section 8).
    pub fn close_at_fault(&self, t: &mut Transport) -> Result<(), OutOfMemory>
        ensures { OnOk result (t.new ≡ closed_with self.now.fault t.old) }
    {
        match self.fault {
            Some(code) => t.close(code.to_code(), Piece::new(self.alloc)),
            None => Ok(()),
        }
    }

    /// Whether the session's request was given, and the session neither lives nor is gone.
    pub fn awaits_answer(&self, session: SessionId) -> bool
        ensures { result ≡ awaits_answer_now session self.now }
    {
        self.requests.was_given(session.session_stream()) && !self.sessions.lives(session)
    }
}
