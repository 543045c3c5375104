//! The end of sessions.
ghost use Rattle.std.specs.Prelude.{◌≡◌, OnOk};
ghost use Rattle.wt_kept.specs.Ending.{end_streams, finish_and_retire, finish_running, forget_session, give_up_all, give_up_now, reset_and_retire, retire_now};
ghost use Rattle.wt_peer_streams.specs.Gone.{end_now};

use super::Dispatched;
use crate::gone::SessionEnd;
use wt_transport::Transport;
use wt_wire::error::{ErrorCode, OutOfMemory};
use wt_wire::ids::{SessionId, StreamId};

/// Nothing of the stream is kept, where this end receives on it.
pub(super) fn give_up(t: &mut Transport, id: StreamId)
    ensures { t.new ≡ give_up_now t.old id }
{
    if t.can_receive(id) {
        t.give_up(id);
    }
}

/// Nothing of these streams is kept.
fn give_up_all(t: &mut Transport, ids: &[StreamId])
    ensures { t.new ≡ give_up_all t.old ids.now }
{
    for id in ids {
        give_up(t, *id);
    }
}

/// Each half of these streams that still runs is stopped or reset.
fn end_all(t: &mut Transport, ids: &[StreamId]) -> Result<(), OutOfMemory>
    ensures { OnOk result (t.new ≡ end_streams t.old ids.now) }
{
    let code = ErrorCode::SessionGone.to_code();
    for id in ids {
        t.stop_running(*id, code)?;
        t.reset_running(*id, code)?;
    }
    Ok(())
}

impl Dispatched {
    /// The session becomes gone. Each half of its streams that still runs is stopped or reset, by id, and nothing more is kept of
    /// its own stream and of those that waited for it (draft-ietf-webtrans-http3, section 5).
    pub fn retire(
        &mut self,
        t: &mut Transport,
        session: SessionId,
        end: SessionEnd,
    ) -> Result<(), OutOfMemory>
        ensures { OnOk result (record { transport = t.new; dispatched = self.new } ≡ retire_now session (end_now end) (record { transport = t.old; dispatched = self.old })) }
    {
        let remains = self.sessions.end(session, end)?;
        end_all(t, remains.streams.as_slice())?;
        give_up_all(t, remains.waiting.as_slice());
        let own = session.session_stream();
        give_up(t, own);
        self.requests.forget(own);
        Ok(())
    }

    /// The session becomes gone after the connection's end: no stream of it ends any more.
    pub fn forget(&mut self, session: SessionId, end: SessionEnd) -> Result<(), OutOfMemory>
        ensures { OnOk result (self.new ≡ forget_session session (end_now end) self.old) }
    {
        self.sessions.end(session, end)?;
        self.requests.forget(session.session_stream());
        Ok(())
    }

    /// The session's own stream is finished, where this end may still send on it, and the session becomes gone.
    pub fn finish_and_retire(
        &mut self,
        t: &mut Transport,
        session: SessionId,
        end: SessionEnd,
    ) -> Result<(), OutOfMemory>
        ensures { OnOk result (record { transport = t.new; dispatched = self.new } ≡ finish_and_retire session (end_now end) (record { transport = t.old; dispatched = self.old })) }
    {
        finish_running(t, session.session_stream())?;
        self.retire(t, session, end)
    }

    /// The session's own stream is reset, where this end still sends on it, and the session becomes gone.
    pub(super) fn reset_and_retire(
        &mut self,
        t: &mut Transport,
        session: SessionId,
        end: SessionEnd,
    ) -> Result<(), OutOfMemory>
        ensures { OnOk result (record { transport = t.new; dispatched = self.new } ≡ reset_and_retire session (end_now end) (record { transport = t.old; dispatched = self.old })) }
    {
        t.reset_running(session.session_stream(), ErrorCode::NoError.to_code())?;
        self.retire(t, session, end)
    }
}

/// The stream is finished, where this end may still send on it.
fn finish_running(t: &mut Transport, id: StreamId) -> Result<(), OutOfMemory>
    ensures { OnOk result (t.new ≡ finish_running t.old id) }
{
    if t.may_send(id) {
        t.finish(id)?;
    }
    Ok(())
}
