//! What comes on the streams that went somewhere.
ghost use Rattle.std.specs.Prelude.{◌≡◌, ◌≤◌, ◌+◌, IfOk, OnOk};
ghost use Rattle.wt_kept.specs.Counting.{feed_steps, reads_left};
ghost use Rattle.wt_kept.specs.Looking.{check_qpack_now, read_control, read_session, read_sessions};
ghost use Rattle.wt_kept.specs.Pieces.{body_fed, body_feed};
ghost use Rattle.wt_transport.specs.StreamState.{piece_count};
ghost use Rattle.wt_peer_streams.specs.Living.{after_news};

use super::Dispatched;
use crate::gone::SessionEnd;
use crate::live::News;
use crate::reading::Fed;
use std::sync::ledger::Ledger;
use wt_proto::steps::Steps;
use wt_transport::Transport;
use wt_wire::error::OutOfMemory;
use wt_wire::ids::{SessionId, StreamId};

impl Dispatched {
    /// Feeds the reader of the stream bytes as they come: the control stream's, or that of a session that lives; None where it
    /// has none.
    pub fn feed<L: Ledger>(
        &mut self,
        id: StreamId,
        piece: &[u8],
        steps: &mut Steps<L>,
    ) -> Result<Option<Fed>, OutOfMemory>
        ensures fed { IfOk result (λ fed. fed ≡ body_feed id piece.now self.old) }
        ensures dispatched { OnOk result (self.new ≡ body_fed id piece.now self.old) }
        ensures steps { IfOk result (λ fed. steps.new ≡ steps.old + feed_steps fed) }
    {
        match self.critical.feed(id, piece, steps)? {
            Some(fed) => Ok(Some(fed)),
            None => self.sessions.feed(id, piece, steps),
        }
    }

    /// The streams of the sessions that live, by id, up to the first fault.
    pub fn read_sessions<L: Ledger>(
        &mut self,
        t: &mut Transport,
        steps: &mut Steps<L>,
    ) -> Result<(), OutOfMemory>
        ensures read { OnOk result (record { transport = t.new; dispatched = self.new } ≡ read_sessions (record { transport = t.old; dispatched = self.old })) }
        ensures steps { OnOk result (steps.new + reads_left (record { transport = t.new; dispatched = self.new }) ≤ steps.old + reads_left (record { transport = t.old; dispatched = self.old })) }
    {
        let living = self.sessions.living();
        for place in living {
            match place {
                Some(session) => {
                    if self.fault().is_none() {
                        self.read_session(t, session, steps)?;
                    }
                }
                None => {}
            }
        }
        Ok(())
    }

    /// Reads on what came on the session's stream, and does what follows.
    fn read_session<L: Ledger>(
        &mut self,
        t: &mut Transport,
        session: SessionId,
        steps: &mut Steps<L>,
    ) -> Result<(), OutOfMemory>
        ensures read { OnOk result (record { transport = t.new; dispatched = self.new } ≡ read_session session (record { transport = t.old; dispatched = self.old })) }
        ensures steps { OnOk result (steps.new + reads_left (record { transport = t.new; dispatched = self.new }) ≤ steps.old + piece_count t.old.streams) }
    {
        let news = self.sessions.read(session.session_stream(), t, steps)?;
        self.follow(t, session, news)
    }

    /// The peer closed the session: by a capsule, after which this end's half of its stream is reset, or by a clean end, after
    /// which that is finished (draft-ietf-webtrans-http3, section 5).
    fn follow(
        &mut self,
        t: &mut Transport,
        session: SessionId,
        news: Option<News>,
    ) -> Result<(), OutOfMemory>
        ensures { OnOk result (record { transport = t.new; dispatched = self.new } ≡ after_news session news (record { transport = t.old; dispatched = self.old })) }
    {
        match news {
            None => Ok(()),
            Some(News::Fault(code)) => {
                self.fail(code);
                Ok(())
            }
            Some(News::Capsule(close)) => {
                self.reset_and_retire(t, session, SessionEnd::Closed(close))
            }
            Some(News::CleanEnd(close)) => {
                self.finish_and_retire(t, session, SessionEnd::Closed(close))
            }
        }
    }

    /// The peer's control stream after its type (RFC 9114, section 6.2.1).
    pub fn read_control<L: Ledger>(
        &mut self,
        t: &mut Transport,
        steps: &mut Steps<L>,
    ) -> Result<(), OutOfMemory>
        ensures read { OnOk result (record { transport = t.new; dispatched = self.new } ≡ read_control (record { transport = t.old; dispatched = self.old })) }
        ensures steps { OnOk result (steps.new + reads_left (record { transport = t.new; dispatched = self.new }) ≤ steps.old + reads_left (record { transport = t.old; dispatched = self.old })) }
    {
        if self.fault.is_none() {
            self.fault = self.critical.read(t, steps)?;
        }
        Ok(())
    }

    /// The peer's QPACK streams (RFC 9204, section 4.2).
    pub fn check_qpack(&mut self, t: &Transport)
        ensures { record { transport = t.now; dispatched = self.new } ≡ check_qpack_now (record { transport = t.now; dispatched = self.old }) }
    {
        let has_ended = self.critical.has_qpack_ended(t);
        self.fail_if_closed(has_ended);
    }
}
