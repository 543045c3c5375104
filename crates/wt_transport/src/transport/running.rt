//! What still runs of a stream.
ghost use Rattle.std.specs.Prelude.{◌≡◌, length, OnErr, OnOk, ◌==◌, ◌&&◌};
ghost use Rattle.wt_turn.specs.Log.{events_of, with_actions};
ghost use Rattle.wt_turn.specs.Streams.{stream_count};
ghost use Rattle.wt_turn.specs.Reports.{end_of, is_running};
ghost use Rattle.wt_turn.specs.Joined.{newest_first};
ghost use Rattle.wt_turn.specs.Unread.{unread};
ghost use Rattle.wt_transport.specs.Accepting.{stream_after};
ghost use Rattle.wt_transport.specs.Kind.{peer_kind};
ghost use Rattle.wt_transport.specs.OfLog.{OfEachLog, Tells, TellsUnread};
ghost use Rattle.wt_transport.specs.State.{Refines};
ghost use Rattle.wt_transport.specs.Running.{actions_of_reset_running, actions_of_stop_running, is_quiet_now, log_reset_running, peer_stream_now, reset_running_now, still_receives_now, still_sends_now, stop_running_now};

use super::Transport;
use crate::kind::{MOST_STREAMS, peer_kind, stream_id};
use crate::stream::is_running;
use wt_wire::error::OutOfMemory;
use wt_wire::ids::StreamId;
use wt_wire::varint::VarInt;

impl Transport {
    fn still_receives(&self, id: StreamId) -> bool
        ensures { result ≡ still_receives_now self.now id }
    {
        self.can_receive(id) && self.stream(id).still_receives()
    }

    fn still_sends(&self, id: StreamId) -> bool
        ensures { result ≡ still_sends_now self.now id }
    {
        self.can_send(id) && self.stream(id).still_sends()
    }

    /// Asks the peer to stop its half where it still runs: it exists, hasn't ended and wasn't given up; else
    /// nothing happens (RFC 9000, section 3.2). Where the connection isn't open, nothing goes out.
    pub fn stop_running(&mut self, id: StreamId, code: VarInt) -> Result<(), OutOfMemory>
        ensures state { OnOk result (self.new ≡ stop_running_now self.old id code) }
        ensures err { OnErr result (self.new ≡ self.old) }
        ensures log { OfEachLog self.old (λ side log position uncollected. OnOk result (Refines side self.new (with_actions (actions_of_stop_running side log position id code) log) position (newest_first (actions_of_stop_running side log position id code) uncollected))) }
    {
        if self.still_receives(id) {
            return self.stop(id, code);
        }
        Ok(())
    }

    /// Resets the sending half where it still runs: it exists, and was neither finished nor reset; else
    /// nothing happens (RFC 9000, section 3.1). Where the connection isn't open it counts, and nothing goes out.
    pub fn reset_running(&mut self, id: StreamId, code: VarInt) -> Result<(), OutOfMemory>
        ensures state { OnOk result (self.new ≡ reset_running_now self.old id code) }
        ensures err { OnErr result (self.new ≡ self.old) }
        ensures log { OfEachLog self.old (λ side log position uncollected. OnOk result (Refines side self.new (log_reset_running side log id code) position (newest_first (actions_of_reset_running side log id code) uncollected))) }
    {
        if self.still_sends(id) {
            return self.reset(id, code);
        }
        Ok(())
    }

    /// Whether nothing of a stream is unread and its end is still to come.
    pub fn is_quiet(&self, id: StreamId) -> bool
        ensures now { result ≡ is_quiet_now self.now id }
        ensures log { TellsUnread self.now (λ side log position. result ≡ ((length (unread log position id) == 0) && is_running (end_of (events_of log) id))) }
    {
        self.unread(id) == 0 && is_running(&self.end(id))
    }

    /// Of the peer's streams of a kind, the one that comes after `count` others by its id; None where there
    /// is none (RFC 9000, section 2.1).
    pub fn peer_stream(&self, bidirectional: bool, count: u64) -> Option<StreamId>
        ensures now { result ≡ peer_stream_now self.now bidirectional count }
        ensures log { Tells self.now (λ side log. result ≡ stream_after (stream_count side log (peer_kind bidirectional side)) (peer_kind bidirectional side) count) }
    {
        let kind = peer_kind(self.side, bidirectional);
        if count < MOST_STREAMS && count < self.count(kind) {
            return Some(stream_id(kind, count));
        }
        None
    }
}
