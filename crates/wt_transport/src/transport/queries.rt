//! What was reported, and what went out.
ghost use Rattle.std.specs.Prelude.{◌≡◌, length, true};
ghost use Rattle.wt_turn.specs.Log.{actions_of, all_events_of, events_of, is_open};
ghost use Rattle.wt_turn.specs.Streams.{peer_bi, peer_uni, stream_count};
ghost use Rattle.wt_turn.specs.Reports.{bis_allowed, credit, is_acknowledged, is_connected, stop_of, unis_allowed};
ghost use Rattle.wt_turn.specs.Sent.{is_finished, is_reset, sent_on};
ghost use Rattle.wt_transport.specs.OfLog.{Tells};
ghost use Rattle.wt_transport.specs.Step.{count_now, credit_now, is_acknowledged_now, is_finished_now, is_reset_now, sent_now, stop_now};

use super::Transport;
use crate::kind::peer_kind;
use wt_wire::ids::StreamId;
use wt_wire::varint::VarInt;

impl Transport {
    /// Whether the connection was established.
    #[tactic(auto, using(crate::proofs::Asking::refined_connected, crate::proofs::Asking::open_connected))]
    pub fn is_connected(&self) -> bool
        ensures now { result ≡ self.now.is_connected }
        ensures log { Tells self.now (λ side log. result ≡ is_connected (all_events_of log)) }
        ensures log_open { Tells self.now (λ side log. is_open log ≡ true → result ≡ is_connected (events_of log)) }
    {
        self.is_connected
    }

    /// How many unidirectional streams this end may open in all (RFC 9000, section 4.6).
    #[tactic(auto, using(crate::proofs::Asking::refined_unis_allowed, crate::proofs::Asking::open_unis_allowed))]
    pub fn unis_allowed(&self) -> u64
        ensures now { result ≡ self.now.unis_allowed }
        ensures log { Tells self.now (λ side log. result ≡ unis_allowed (all_events_of log)) }
        ensures log_open { Tells self.now (λ side log. is_open log ≡ true → result ≡ unis_allowed (events_of log)) }
    {
        self.unis_allowed
    }

    /// How many bidirectional streams this end may open in all.
    #[tactic(auto, using(crate::proofs::Asking::refined_bis_allowed, crate::proofs::Asking::open_bis_allowed))]
    pub fn bis_allowed(&self) -> u64
        ensures now { result ≡ self.now.bis_allowed }
        ensures log { Tells self.now (λ side log. result ≡ bis_allowed (all_events_of log)) }
        ensures log_open { Tells self.now (λ side log. is_open log ≡ true → result ≡ bis_allowed (events_of log)) }
    {
        self.bis_allowed
    }

    /// How many unidirectional streams the peer opened.
    pub fn peer_unis(&self) -> u64
        ensures now { result ≡ count_now self.now (peer_uni self.now.side) }
        ensures log { Tells self.now (λ side log. result ≡ stream_count side log (peer_uni side)) }
    {
        self.count(peer_kind(self.side, false))
    }

    /// How many bidirectional streams the peer opened.
    pub fn peer_bis(&self) -> u64
        ensures now { result ≡ count_now self.now (peer_bi self.now.side) }
        ensures log { Tells self.now (λ side log. result ≡ stream_count side log (peer_bi side)) }
    {
        self.count(peer_kind(self.side, true))
    }

    /// How many bytes may go out on a stream in all (RFC 9000, section 4.1). On one that wasn't opened yet it
    /// is the credit of a new stream.
    pub fn credit(&self, id: StreamId) -> u64
        ensures now { result ≡ credit_now self.now id }
        ensures log { Tells self.now (λ side log. result ≡ credit (all_events_of log) id) }
        ensures log_open { Tells self.now (λ side log. is_open log ≡ true → result ≡ credit (events_of log) id) }
    {
        if self.has(id) {
            self.stream(id).credit
        } else {
            self.initial_credit
        }
    }

    /// The code with which the peer stopped the sending half (RFC 9000, section 3.5).
    pub fn stop_code(&self, id: StreamId) -> Option<VarInt>
        ensures now { result ≡ stop_now self.now id }
        ensures log { Tells self.now (λ side log. result ≡ stop_of (events_of log) id) }
    {
        if self.has(id) {
            self.stream(id).stop.in_time(None)
        } else {
            None
        }
    }

    /// How many bytes went out on a stream.
    pub fn sent(&self, id: StreamId) -> u64
        ensures now { result ≡ sent_now self.now id }
        ensures log { Tells self.now (λ side log. result ≡ length (sent_on (actions_of log) id)) }
    {
        if self.has(id) {
            self.stream(id).sent
        } else {
            0
        }
    }

    /// Whether this end finished its half (RFC 9000, section 3.1).
    pub fn is_finished(&self, id: StreamId) -> bool
        ensures now { result ≡ is_finished_now self.now id }
        ensures log { Tells self.now (λ side log. result ≡ is_finished (actions_of log) id) }
    {
        if self.has(id) {
            self.stream(id).finished
        } else {
            false
        }
    }

    /// Whether this end reset its half (RFC 9000, section 3.1).
    pub fn is_reset(&self, id: StreamId) -> bool
        ensures now { result ≡ is_reset_now self.now id }
        ensures log { Tells self.now (λ side log. result ≡ is_reset log id) }
    {
        if self.has(id) {
            self.stream(id).reset
        } else {
            false
        }
    }

    /// Whether all of this end's finished half was acknowledged (RFC 9000, section 3.1).
    pub fn is_acknowledged(&self, id: StreamId) -> bool
        ensures now { result ≡ is_acknowledged_now self.now id }
        ensures log { Tells self.now (λ side log. result ≡ is_acknowledged (events_of log) id) }
    {
        if self.has(id) {
            self.stream(id).acknowledged.in_time(false)
        } else {
            false
        }
    }
}
