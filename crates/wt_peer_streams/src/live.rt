//! A session that lives.
ghost use Rattle.std.specs.Prelude.{◌≡◌, [], IfOk, OnOk};
ghost use Rattle.wt_kept.specs.Counting.{CountsRead};
ghost use Rattle.wt_kept.specs.Kept.{WorkNow};
ghost use Rattle.wt_kept.specs.Readers.{read_on, session_rules};
ghost use Rattle.wt_kept.specs.Windows.{first_stream_id};
ghost use Rattle.wt_peer_streams.specs.Living.{after_news, live_taken, news_by, with_reader};

use crate::numbered::StreamIds;
use crate::reading::Reading;
use crate::window::Window;
use std::alloc::Global;
use std::marker::Model;
use std::sync::ledger::Ledger;
use wt_proto::SessionReader;
use wt_proto::session_walk::SessionWalk;
use wt_proto::steps::Steps;
use wt_transport::Transport;
use wt_turn::close::ApplicationClose;
use wt_turn::piece::Piece;
use wt_wire::error::{ErrorCode, OutOfMemory};
use wt_wire::ids::{SessionId, StreamId};

/// What the stream of a session that lived says.
#[derive(Drop)]
pub enum News {
    /// The connection closes with this code.
    Fault(ErrorCode),
    /// The peer closed the session, by a capsule.
    Capsule(ApplicationClose),
    /// The peer closed the session, by a clean end.
    CleanEnd(ApplicationClose),
}

/// A session that lives: the reader of its stream, what waits for it, and the streams that calls accepted or began to open, by id.
#[derive(Drop)]
pub(crate) struct LiveSession {
    pub(crate) id: SessionId,
    pub(crate) reading: Reading<SessionReader>,
    pub(crate) window: Window,
    pub(crate) members: StreamIds,
}

impl Model for LiveSession {
    ghost use Rattle.std.specs.Prelude.{◌≡◌};
    ghost use Rattle.wt_kept.specs.Kept.{LiveNow};

    ghost Value = { LiveNow };

    ghost view = { λ s. record { id = s.id; reader = s.reading.reader; window = s.window; members = s.members } };

    ghost invariant = { λ s. s.reading.id ≡ s.id };
}

impl LiveSession {
    /// It lives from now on, with what waited early for it.
    pub(crate) fn begin(alloc: Global, id: SessionId, window: Window) -> LiveSession
        ensures { result ≡ record { id = id; reader = session_rules.start; window = window; members = [] } }
    {
        LiveSession {
            id,
            reading: Reading {
                id: id.session_stream(),
                reader: SessionReader::for_session(alloc),
            },
            window,
            members: StreamIds::new(alloc),
        }
    }

    /// What its stream says; None while the session goes on.
    fn news(&self, alloc: Global) -> Result<Option<News>, OutOfMemory>
        ensures { (w : WorkNow) → IfOk result (λ news. after_news self.now.id news w ≡ news_by self.now.id self.now.reader w) }
    {
        match self.reading.outcome() {
            SessionWalk::Running => Ok(None),
            SessionWalk::Fault(code) => Ok(Some(News::Fault(*code))),
            SessionWalk::Closed(code, reason) => {
                let reason = Piece::from_slice(alloc, reason.as_str().as_bytes())?;
                let close = ApplicationClose::new(*code, reason);
                if self.reading.reader.is_closed_by_capsule() {
                    return Ok(Some(News::Capsule(close)));
                }
                Ok(Some(News::CleanEnd(close)))
            }
        }
    }

    /// Reads on what came on its stream, and tells what it says.
    pub(crate) fn read<L: Ledger>(
        &mut self,
        t: &mut Transport,
        steps: &mut Steps<L>,
    ) -> Result<Option<News>, OutOfMemory>
        ensures read { OnOk result (record { reader = self.new.reader; transport = t.new } ≡ read_on session_rules self.old.id self.old.reader t.old) }
        ensures live { self.new ≡ with_reader self.new.reader self.old }
        ensures news { (w : WorkNow) → IfOk result (λ news. after_news self.old.id news w ≡ news_by self.old.id self.new.reader w) }
        ensures steps { OnOk result (CountsRead session_rules.has_said self.old.id t.old (record { reader = self.new.reader; transport = t.new }) steps.old steps.new) }
    {
        self.reading.read(t, steps)?;
        self.news(t.allocator())
    }

    /// The next stream of this kind that waits, which it has from now on.
    pub(crate) fn take_stream(
        &mut self,
        bidirectional: bool,
    ) -> Result<Option<StreamId>, OutOfMemory>
        ensures stream { IfOk result (λ id. id ≡ first_stream_id bidirectional self.old.window.streams) }
        ensures live { IfOk result (λ id. self.new ≡ live_taken id self.old) }
    {
        let Some(id) = self.window.take_stream(bidirectional) else {
            return Ok(None);
        };
        self.members.add(id)?;
        Ok(Some(id))
    }

    /// What waits for it, and its streams.
    pub(crate) fn into_parts(self) -> (Window, StreamIds)
        ensures window { result.0 ≡ self.window }
        ensures members { result.1 ≡ self.members }
    {
        let LiveSession {
            id: _,
            reading: _,
            window,
            members,
        } = self;
        (window, members)
    }
}
