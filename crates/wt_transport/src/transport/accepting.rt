//! Which of the peer's streams were accepted. Nothing here takes memory.
ghost use Rattle.std.specs.Prelude.{◌≡◌, IfSome, IsTrue, ◌&&◌};
ghost use Rattle.wt_turn.specs.Streams.{peer_bi, peer_uni, stream_count};
ghost use Rattle.wt_transport.specs.Accepting.{after_accept_bi, after_accept_uni, next_peer_bi, next_peer_uni, stream_after};
ghost use Rattle.wt_transport.specs.OfLog.{OfEachLog, Tells};
ghost use Rattle.wt_transport.specs.State.{Refines};
ghost use Rattle.wt_transport.specs.Step.{can_receive_now, can_send_now};

use super::Transport;
use wt_wire::ids::StreamId;

impl Transport {
    /// Accepts a unidirectional stream of the peer's: of those that weren't accepted yet the first by its id,
    /// also where the connection isn't open any more; None where each was (RFC 9000, section 2.1).
    #[tactic(auto, using(crate::proofs::AcceptLaws::uni_there))]
    pub fn accept_uni(&mut self) -> Option<StreamId>
        ensures stream { result ≡ next_peer_uni self.old }
        ensures count { self.new ≡ after_accept_uni self.old }
        ensures exists { IfSome result (λ id. IsTrue (can_receive_now self.new id)) }
        ensures log_stream { Tells self.old (λ side log. result
            ≡ stream_after (stream_count side log (peer_uni side)) (peer_uni side) self.old.accepted.uni) }
        ensures log { OfEachLog self.old (λ side log position uncollected. Refines side self.new log position uncollected) }
    {
        let id = self.peer_stream(false, self.unis_accepted)?;
        self.unis_accepted += 1;
        Some(id)
    }

    /// Accepts a bidirectional stream of the peer's: of those that weren't accepted yet the first by its id,
    /// also where the connection isn't open any more; None where each was.
    #[tactic(auto, using(crate::proofs::AcceptLaws::bi_there))]
    pub fn accept_bi(&mut self) -> Option<StreamId>
        ensures stream { result ≡ next_peer_bi self.old }
        ensures count { self.new ≡ after_accept_bi self.old }
        ensures exists { IfSome result (λ id. IsTrue (can_send_now self.new id && can_receive_now self.new id)) }
        ensures log_stream { Tells self.old (λ side log. result
            ≡ stream_after (stream_count side log (peer_bi side)) (peer_bi side) self.old.accepted.bi) }
        ensures log { OfEachLog self.old (λ side log position uncollected. Refines side self.new log position uncollected) }
    {
        let id = self.peer_stream(true, self.bis_accepted)?;
        self.bis_accepted += 1;
        Some(id)
    }
}
