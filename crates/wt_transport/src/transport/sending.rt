//! What goes out on streams.
ghost use Rattle.std.specs.Prelude.{◌≡◌, ◌≤◌, ◌^◌, ◌∷◌, [], Some, None, IfOk, IsTrue, OnErr, OnOk, length, min, false};
ghost use Rattle.wt_turn.specs.Log.{Called, PrioritySet};
ghost use Rattle.wt_turn.specs.Streams.{local_bi, local_uni};
ghost use Rattle.wt_turn.specs.Joined.{newest_first};
ghost use Rattle.wt_turn.specs.Outgoing.{credit_left, if_open, may_send, opened_id, actions_to_open, reset_entry, actions_to_send};
ghost use Rattle.wt_transport.specs.StreamState.{credit_of, has_stream, stream_at, with_sent};
ghost use Rattle.wt_transport.specs.Deciding.{write_decision};
ghost use Rattle.wt_transport.specs.Kind.{local_kind};
ghost use Rattle.wt_transport.specs.OfLog.{OfEachLog, SendsIfOk, Tells};
ghost use Rattle.wt_transport.specs.Rules.{after_write, sending_half_now};
ghost use Rattle.wt_transport.specs.State.{Refines};
ghost use Rattle.wt_transport.specs.Step.{after_finish, after_opening, after_priority, after_reset, after_send, after_stop, can_receive_now, can_send_now, covered_now, may_send_now, opened_id_now, streams_allowed_now, with_change, with_send};

use super::Transport;
use crate::decision::Decision;
use crate::kind::{index_of, kind_of, local_kind, stream_id};
use wt_turn::action::Action;
use wt_turn::stream_error::StreamWriteError;
use wt_wire::error::OutOfMemory;
use wt_wire::ids::StreamId;
use wt_wire::varint::VarInt;

impl Transport {
    // ---- opening

    /// Opens this end's next unidirectional stream; None exactly where the connection isn't open or no
    /// more may be opened (RFC 9000, sections 2.1 and 4.6).
    pub fn open_uni(&mut self) -> Result<Option<StreamId>, OutOfMemory>
        ensures id { IfOk result (λ id. id ≡ opened_id_now self.old (local_uni self.old.side)) }
        ensures state { OnOk result (self.new ≡ after_opening self.old (local_uni self.old.side)) }
        ensures err { OnErr result (self.new ≡ self.old) }
        ensures log_id { Tells self.old (λ side log. IfOk result (λ id. id ≡ opened_id side log (local_uni side))) }
        ensures log { SendsIfOk result self.old self.new (λ side log. actions_to_open side log (local_uni side)) }
    {
        self.open(false)
    }

    /// Opens this end's next bidirectional stream, alike.
    pub fn open_bi(&mut self) -> Result<Option<StreamId>, OutOfMemory>
        ensures id { IfOk result (λ id. id ≡ opened_id_now self.old (local_bi self.old.side)) }
        ensures state { OnOk result (self.new ≡ after_opening self.old (local_bi self.old.side)) }
        ensures err { OnErr result (self.new ≡ self.old) }
        ensures log_id { Tells self.old (λ side log. IfOk result (λ id. id ≡ opened_id side log (local_bi side))) }
        ensures log { SendsIfOk result self.old self.new (λ side log. actions_to_open side log (local_bi side)) }
    {
        self.open(true)
    }

    fn open(&mut self, bidirectional: bool) -> Result<Option<StreamId>, OutOfMemory>
        ensures id { IfOk result (λ id. id ≡ opened_id_now self.old (local_kind bidirectional self.old.side)) }
        ensures state { OnOk result (self.new ≡ after_opening self.old (local_kind bidirectional self.old.side)) }
        ensures err { OnErr result (self.new ≡ self.old) }
    {
        let kind = local_kind(self.side, bidirectional);
        let count = self.count(kind);
        if !(self.is_open && count < self.allowed(bidirectional)) {
            return Ok(None);
        }
        let id = stream_id(kind, count);
        self.outbox.put(Action::Opened { id })?;
        match self.open_stream(kind) {
            Ok(()) => Ok(Some(id)),
            Err(error) => {
                // So that a turn that ran out of memory leaves the transport as it was.
                self.outbox.undo();
                Err(error)
            }
        }
    }

    /// How many streams of a kind this end may open in all: MAX_STREAMS is a total and no addition
    /// (RFC 9000, section 4.6).
    fn allowed(&self, bidirectional: bool) -> u64
        ensures count { result ≡ streams_allowed_now self.now (local_kind bidirectional self.now.side) }
        ensures small { result ≤ 2 ^ 60 }
    {
        if bidirectional {
            self.bis_allowed
        } else {
            self.unis_allowed
        }
    }

    // ---- sending

    /// Whether the sending half of this stream can still send: it exists, and is neither finished,
    /// reset nor stopped, and the connection is open.
    pub fn may_send(&self, id: StreamId) -> bool
        ensures now { result ≡ may_send_now self.now id }
        ensures log { Tells self.now (λ side log. result ≡ may_send side log id) }
    {
        self.can_send(id) && self.stream(id).write_refusal(self.is_open).is_none()
    }

    /// Sends as many of the bytes as credit is left for, and returns how many (RFC 9000, section 4.1).
    pub fn send(&mut self, id: StreamId, bytes: &[u8]) -> Result<usize, OutOfMemory>
        requires { IsTrue (may_send_now self.old id) }
        ensures count { IfOk result (λ n. n ≡ length (covered_now self.old id bytes.now)) }
        ensures state { OnOk result (self.new ≡ after_send self.old id bytes.now) }
        ensures err { OnErr result (self.new ≡ self.old) }
        ensures log_count { Tells self.old (λ side log. IfOk result (λ n. n ≡ min (length bytes.now) (credit_left log id))) }
        ensures log { SendsIfOk result self.old self.new (λ side log. actions_to_send log id bytes.now) }
    {
        let count = self.stream(id).covered(bytes.len());
        self.send_all(id, &bytes[..count])?;
        Ok(count)
    }

    /// Sends what a write of these bytes takes now.
    #[tactic(auto, using(crate::proofs::Decisions::write_within, crate::proofs::Decisions::after_write_is))]
    pub(crate) fn write(
        &mut self,
        id: StreamId,
        bytes: &[u8],
    ) -> Result<Decision<StreamWriteError>, OutOfMemory>
        requires { IsTrue (can_send_now self.old id) }
        ensures decision { IfOk result (λ d. d ≡ write_decision self.old.is_open (sending_half_now self.old id) (length bytes.now)) }
        ensures state { OnOk result (self.new ≡ after_write self.old id bytes.now) }
        ensures err { OnErr result (self.new ≡ self.old) }
    {
        let decision = self.stream(id).decide_write(self.is_open, bytes.len());
        self.send_all(id, &bytes[..decision.taken()])?;
        Ok(decision)
    }

    fn send_all(&mut self, id: StreamId, bytes: &[u8]) -> Result<(), OutOfMemory>
        requires has { IsTrue (has_stream self.old.streams id) }
        requires room { length bytes.now ≤ credit_of (stream_at self.old.streams id) }
        ensures now { OnOk result (self.new ≡ with_send self.old id bytes.now) }
        ensures err { OnErr result (self.new ≡ self.old) }
    {
        if bytes.is_empty() {
            return Ok(());
        }
        self.outbox.send(self.alloc, id, bytes)?;
        self.count_sent(id, bytes.len() as u64);
        Ok(())
    }

    fn count_sent(&mut self, id: StreamId, count: u64)
        requires has { IsTrue (has_stream self.old.streams id) }
        requires room { count ≤ credit_of (stream_at self.old.streams id) }
        ensures { self.new ≡ with_change self.old id (with_sent count) }
    {
        let stream = self.rows[kind_of(id)].stream_mut(index_of(id));
        let _credit = stream.credit;
        stream.sent += count;
    }

    // ---- the end of a half

    /// Ends the sending half: nothing more is sent on it (RFC 9000, section 3.1).
    pub fn finish(&mut self, id: StreamId) -> Result<(), OutOfMemory>
        requires { IsTrue (may_send_now self.old id) }
        ensures now { OnOk result (self.new ≡ after_finish self.old id) }
        ensures err { OnErr result (self.new ≡ self.old) }
        ensures log { SendsIfOk result self.old self.new (λ side log. Action.Finish id ∷ []) }
    {
        self.outbox.put(Action::Finish { id })?;
        self.rows[kind_of(id)].stream_mut(index_of(id)).finished = true;
        Ok(())
    }

    /// Resets the sending half (RFC 9000, section 19.4). It counts also where the connection has ended
    /// and nothing goes out.
    pub fn reset(&mut self, id: StreamId, code: VarInt) -> Result<(), OutOfMemory>
        requires { IsTrue (can_send_now self.old id) }
        ensures now { OnOk result (self.new ≡ after_reset self.old id code) }
        ensures err { OnErr result (self.new ≡ self.old) }
        ensures log { OfEachLog self.old (λ side log position uncollected. OnOk result (Refines side self.new (reset_entry log id code ∷ log) position (newest_first (if_open log (Action.ResetOut id code)) uncollected))) }
    {
        if self.is_open {
            self.outbox.put(Action::ResetOut { id, code })?;
        }
        self.rows[kind_of(id)].stream_mut(index_of(id)).reset = true;
        Ok(())
    }

    /// Asks the peer to stop its half, where the connection is open; else nothing happens (RFC 9000,
    /// section 19.5).
    pub fn stop(&mut self, id: StreamId, code: VarInt) -> Result<(), OutOfMemory>
        requires { IsTrue (can_receive_now self.old id) }
        ensures now { OnOk result (self.new ≡ after_stop self.old id code) }
        ensures err { OnErr result (self.new ≡ self.old) }
        ensures log { SendsIfOk result self.old self.new (λ side log. if_open log (Action.StopOut id code)) }
    {
        if !self.is_open {
            return Ok(());
        }
        self.outbox.put(Action::StopOut { id, code })?;
        Ok(())
    }

    /// Sets the priority of the sending half.
    pub fn set_priority(&mut self, id: StreamId, priority: i32)
        requires { IsTrue (can_send_now self.old id) }
        ensures now { self.new ≡ after_priority self.old id priority }
        ensures log { OfEachLog self.old (λ side log position uncollected. Refines side self.new (Called (PrioritySet id priority) ∷ log) position uncollected) }
    {
        self.rows[kind_of(id)].stream_mut(index_of(id)).priority = priority;
    }
}
