//! The sessions of a connection.
ghost use Rattle.std.specs.List.{position};
ghost use Rattle.std.specs.Prelude.{◌≡◌, ◌≤◌, ◌<◌, ◌+◌, [], IfOk, OnOk, length, nat_lt, option_copied, option_map, slice_get};
ghost use Rattle.wt_kept.specs.Calling.{has_no_session_now};
ghost use Rattle.wt_kept.specs.Counting.{CountsLive, feed_steps};
ghost use Rattle.wt_kept.specs.Ending.{ended_by, remains_of};
ghost use Rattle.wt_kept.specs.Kept.{LiveNow, WorkNow};
ghost use Rattle.wt_kept.specs.Windows.{admit_datagram_now, admit_stream_now, empty_window, end_in, establish_now, first_datagram, first_stream_id, is_gone_now, is_live, live_in, lives_now};
ghost use Rattle.wt_peer_streams.specs.Admitting.{admission_now};
ghost use Rattle.wt_peer_streams.specs.Gone.{end_now};
ghost use Rattle.wt_sessions.specs.StreamTable.{with_ids};
ghost use Rattle.wt_peer_streams.specs.Living.{after_news, datagram_given, datagrams_of, ids_of, joined_live, live_read, news_of_reader, session_fed_at, session_feed_at, some_ids, stream_given, streams_of_live};

use crate::datagram::Datagram;
use crate::gone::{GoneSessions, SessionEnd};
use crate::live::LiveSession;
pub use crate::live::News;
use crate::numbered::StreamIds;
use crate::reading::Fed;
use crate::window::{Admission, Window};
use std::alloc::Global;
use std::marker::Model;
use std::sync::ledger::Ledger;
use wt_proto::steps::Steps;
use wt_transport::Transport;
use wt_wire::error::OutOfMemory;
use wt_wire::ids::{SessionId, StreamId};

/// How many sessions live at once (this repository's rule; the own SETTINGS say so).
const MOST_LIVING: usize = 4;

/// The streams of a session that becomes gone.
#[derive(Drop)]
pub struct Remains {
    /// All of them, by id.
    pub(crate) streams: StreamIds,
    /// Those that waited for it.
    pub(crate) waiting: Vec<StreamId>,
}

impl Model for Remains {
    ghost use Rattle.wt_kept.specs.Ending as ending;

    ghost Value = { ending.Remains };

    ghost view = { λ r. record { streams = r.streams; waiting = r.waiting.items } };
}

impl Remains {
    /// Those that calls accepted or began to open, by id, and those that waited.
    fn of(members: StreamIds, waiting: Vec<StreamId>) -> Result<Remains, OutOfMemory>
        ensures { IfOk result (λ r. r ≡ record { streams = with_ids waiting.items members; waiting = waiting.items }) }
    {
        let mut streams = members;
        streams.add_all(waiting.as_slice())?;
        Ok(Remains { streams, waiting })
    }
}

/// The sessions: those that live, by id, those that are gone, and what waits for ids that name none of either.
#[derive(Drop)]
pub struct Sessions {
    living: Vec<LiveSession>,
    gone: GoneSessions,
    early: Window,
}

impl Model for Sessions {
    ghost use Rattle.std.specs.Prelude.{◌≤◌, length};
    ghost use Rattle.wt_kept.specs.Kept.{SessionsNow};

    ghost Value = { SessionsNow };

    ghost view = { λ s. record { living = s.living.items; gone = s.gone; early = s.early } };

    ghost invariant = { λ s. length s.living.items ≤ 4 };
}

impl Sessions {
    /// None was established.
    pub fn new(alloc: Global) -> Sessions
        ensures { result ≡ record { living = []; gone = []; early = empty_window } }
    {
        Sessions {
            living: Vec::new(alloc),
            gone: GoneSessions::new(alloc),
            early: Window::new(alloc),
        }
    }

    // ---- which there are

    /// How many live.
    pub fn count(&self) -> usize
        ensures count { result ≡ length self.now.living }
        ensures few { result ≤ 4 }
    {
        self.living.len()
    }

    /// Whether one more may live.
    pub fn has_room(&self) -> bool
        ensures { result ≡ nat_lt (length self.now.living) 4 }
    {
        self.living.len() < MOST_LIVING
    }

    /// Whether none lives and none is gone.
    pub fn is_empty(&self) -> bool
        ensures { result ≡ has_no_session_now self.now }
    {
        self.living.is_empty() && self.gone.is_empty()
    }

    /// The session at this place by id, of those that live.
    fn id_at(&self, index: usize) -> Option<SessionId>
        ensures { result ≡ option_map (λ (x : LiveNow). x.id) (slice_get self.now.living index) }
    {
        if index < self.living.len() {
            let live = &self.living[index];
            return Some(live.id);
        }
        None
    }

    /// Those that live, by id.
    pub fn living(&self) -> [Option<SessionId>; 4]
        ensures ids { some_ids result ≡ ids_of self.now.living }
        ensures places { length result ≡ 4 }
    {
        // Read for the proof alone, which takes the number of those that live from here.
        let _ = &self.living;
        [self.id_at(0), self.id_at(1), self.id_at(2), self.id_at(3)]
    }

    /// Where the session stands whose own stream this is, of those that live.
    fn index_of(&self, own: StreamId) -> Option<usize>
        ensures { result ≡ position (is_live own) self.now.living }
    {
        self.living
            .iter()
            .position(|live| live.id.session_stream() == own)
    }

    /// Whether the session lives.
    pub fn lives(&self, session: SessionId) -> bool
        ensures { result ≡ lives_now self.now session }
    {
        self.living.iter().any(|live| live.id == session)
    }

    /// How the session became gone; None where it isn't.
    pub fn end_of(&self, session: SessionId) -> Option<&SessionEnd>
        ensures { option_map end_now (option_copied result) ≡ end_in self.now.gone session }
    {
        self.gone.end_of(session)
    }

    /// Whether the session is gone.
    pub fn is_gone(&self, session: SessionId) -> bool
        ensures { result ≡ is_gone_now self.now session }
    {
        self.end_of(session).is_some()
    }

    // ---- what comes for them

    /// A stream waits in the window of the session that it names: its own where it lives, the early one where it neither lives
    /// nor is gone.
    pub fn admit_stream(
        &mut self,
        id: StreamId,
        session: SessionId,
    ) -> Result<Admission, OutOfMemory>
        ensures { IfOk result (λ a. record { admission = admission_now a; sessions = self.new } ≡ admit_stream_now id session self.old) }
    {
        match self.index_of(session.session_stream()) {
            Some(index) => {
                let live = &mut self.living[index];
                live.window.admit_stream(id, session)
            }
            None if self.is_gone(session) => Ok(Admission::Gone),
            None => self.early.admit_stream(id, session),
        }
    }

    /// A datagram waits alike.
    pub fn admit_datagram(&mut self, datagram: Datagram) -> Result<Admission, OutOfMemory>
        ensures { IfOk result (λ a. record { admission = admission_now a; sessions = self.new } ≡ admit_datagram_now datagram.session datagram.payload self.old) }
    {
        let session = datagram.session_id();
        match self.index_of(session.session_stream()) {
            Some(index) => {
                let live = &mut self.living[index];
                live.window.admit_datagram(datagram)
            }
            None if self.is_gone(session) => Ok(Admission::Gone),
            None => self.early.admit_datagram(datagram),
        }
    }

    /// Feeds the reader of the session that has this stream bytes as they come; None where none that lives has it.
    pub fn feed<L: Ledger>(
        &mut self,
        id: StreamId,
        piece: &[u8],
        steps: &mut Steps<L>,
    ) -> Result<Option<Fed>, OutOfMemory>
        ensures fed { IfOk result (λ fed. fed ≡ session_feed_at piece.now (live_in self.old id)) }
        ensures sessions { OnOk result (self.new ≡ session_fed_at id piece.now (live_in self.old id) self.old) }
        ensures steps { IfOk result (λ fed. steps.new ≡ steps.old + feed_steps fed) }
    {
        match self.index_of(id) {
            Some(index) => {
                let live = &mut self.living[index];
                Ok(Some(live.reading.feed(piece, steps)?))
            }
            None => Ok(None),
        }
    }

    /// Reads on what came on the stream of a session that lives, and tells what it says, where that ends the session or the
    /// connection.
    pub fn read<L: Ledger>(
        &mut self,
        id: StreamId,
        t: &mut Transport,
        steps: &mut Steps<L>,
    ) -> Result<Option<News>, OutOfMemory>
        ensures read { OnOk result (record { sessions = self.new; transport = t.new } ≡ live_read id (live_in self.old id) self.old t.old) }
        ensures news { (w : WorkNow) → IfOk result (λ news. after_news id news w ≡ news_of_reader id (live_in self.old id) t.old w) }
        ensures steps { OnOk result (CountsLive id (live_in self.old id) t.old steps.old steps.new) }
    {
        match self.index_of(id) {
            Some(index) => {
                let live = &mut self.living[index];
                live.read(t, steps)
            }
            None => Ok(None),
        }
    }

    // ---- what calls take and add

    /// The session's next stream of this kind that waits, which it has from now on.
    pub fn take_stream(
        &mut self,
        session: SessionId,
        bidirectional: bool,
    ) -> Result<Option<StreamId>, OutOfMemory>
        ensures stream { IfOk result (λ id. id ≡ first_stream_id bidirectional (streams_of_live (live_in self.old session))) }
        ensures sessions { IfOk result (λ id. self.new ≡ stream_given session id self.old) }
    {
        match self.index_of(session.session_stream()) {
            Some(index) => {
                let live = &mut self.living[index];
                live.take_stream(bidirectional)
            }
            None => Ok(None),
        }
    }

    /// The session's next datagram that waits.
    pub fn take_datagram(&mut self, session: SessionId) -> Option<Datagram>
        ensures datagram { result ≡ first_datagram (datagrams_of (live_in self.old session)) }
        ensures sessions { self.new ≡ datagram_given session self.old }
    {
        match self.index_of(session.session_stream()) {
            Some(index) => {
                let live = &mut self.living[index];
                live.window.take_datagram()
            }
            None => None,
        }
    }

    /// The session, where it lives, has one more stream, which a call began to open.
    pub fn join(&mut self, session: SessionId, id: StreamId) -> Result<(), OutOfMemory>
        ensures { OnOk result (self.new ≡ joined_live session id self.old) }
    {
        match self.index_of(session.session_stream()) {
            Some(index) => {
                let live = &mut self.living[index];
                live.members.add(id)
            }
            None => Ok(()),
        }
    }

    // ---- their life

    /// The session lives from now on, where there is room.
    pub fn establish(&mut self, session: SessionId) -> Result<(), OutOfMemory>
        requires { length self.old.living < 4 }
        ensures { OnOk result (self.new ≡ establish_now session self.old) }
    {
        let window = self.early.part_of(session)?;
        let live = LiveSession::begin(*self.living.allocator(), session, window);
        let place = self
            .living
            .iter()
            .position(|other| session.session_stream().into_u64()
                < other.id.session_stream().into_u64())
            .unwrap_or(self.living.len());
        self.living.insert(place, live)?;
        Ok(())
    }

    /// The session becomes gone: the streams that it leaves.
    pub fn end(&mut self, session: SessionId, end: SessionEnd) -> Result<Remains, OutOfMemory>
        ensures remains { IfOk result (λ remains. remains ≡ remains_of self.old session (live_in self.old session)) }
        ensures sessions { OnOk result (self.new ≡ ended_by self.old session (end_now end) (live_in self.old session)) }
    {
        self.gone.add(session, end)?;
        match self.index_of(session.session_stream()) {
            Some(index) => {
                let (window, members) = self.living.remove(index).into_parts();
                Remains::of(members, window.into_streams()?)
            }
            None => {
                let part = self.early.part_of(session)?;
                Remains::of(
                    StreamIds::new(*self.living.allocator()),
                    part.into_streams()?,
                )
            }
        }
    }
}
