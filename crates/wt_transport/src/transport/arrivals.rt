//! Turns of the transport: which may come, and what each leaves.
ghost use Rattle.std.specs.Prelude.{◌≡◌, ◌<◌, ◌≤◌, ◌^◌, Some, IsTrue, OnErr, OnOk, ◌&&◌, not, nat_lt, is_some, List, ℕ};
ghost use Rattle.wt_turn.specs.Log.{Acked, Connected, DatagramLimit, Loss, MaxData, Stop};
ghost use Rattle.wt_wire.specs.declared.side.Side.{Side};
ghost use Rattle.wt_turn.specs.Reports.{is_running};
ghost use Rattle.wt_turn.specs.Arrivals.{fits, log_turn};
ghost use Rattle.wt_transport.specs.StreamState.{has_stream, signal, stream_at, with_end};
ghost use Rattle.wt_transport.specs.OfLog.{OfEachLog, Tells};
ghost use Rattle.wt_transport.specs.State.{Refines};
ghost use Rattle.wt_transport.specs.Step.{after_bytes, after_event, after_in_place, after_turn, count_now, fits_now, may_ack_now, may_be_lost_now, may_begin_now, may_come_now, may_connect_now, may_raise_now, may_receive_now, may_stop_now, with_change, with_new_stream};

use super::Transport;
use crate::kind::{MOST_STREAMS, index_of, kind_of, peer_kind};
use crate::stream::is_running;
use wt_turn::datagram_fact::DatagramFact;
use wt_turn::loss::LossReason;
use wt_turn::turn::Turn;
use wt_wire::error::OutOfMemory;
use wt_wire::ids::StreamId;
use wt_wire::side::{Side, StreamEnd};
use wt_wire::varint::VarInt;

/// The greatest total of bytes that can be written (RFC 9000, section 16).
const MOST_BYTES: u64 = (1 << 62) - 1;

impl Transport {
    // ---- which may come

    fn may_connect(&self, uni: u64, bi: u64, credit: u64) -> bool
        ensures { result ≡ may_connect_now self.now uni bi credit }
    {
        self.may_begin()
            && !self.is_connected
            && uni <= MOST_STREAMS
            && bi <= MOST_STREAMS
            && credit <= MOST_BYTES
    }

    fn may_begin(&self) -> bool
        ensures { result ≡ may_begin_now self.now self.now.side }
    {
        match self.side {
            // A client's transport connects because it was asked to.
            Side::Client => self.has_dialled,
            Side::Server => true,
        }
    }

    fn may_be_lost(&self) -> bool
        ensures { result ≡ may_be_lost_now self.now self.now.side }
    {
        match self.side {
            Side::Client => self.has_dialled,
            Side::Server => self.is_connected,
        }
    }

    fn may_peer_open(&self, kind: usize) -> bool
        requires { kind < 4 }
        ensures { result ≡ (self.now.is_connected && nat_lt (count_now self.now kind) (2 ^ 60)) }
    {
        self.is_connected && self.count(kind) < MOST_STREAMS
    }

    fn may_receive(&self, id: StreamId) -> bool
        ensures { result ≡ may_receive_now self.now id }
    {
        self.is_connected && self.can_receive(id) && is_running(&self.stream(id).end.value)
    }

    fn may_stop(&self, id: StreamId) -> bool
        ensures { result ≡ may_stop_now self.now id }
    {
        self.is_connected && self.can_send(id) && self.stream(id).may_be_stopped()
    }

    fn may_ack(&self, id: StreamId) -> bool
        ensures { result ≡ may_ack_now self.now id }
    {
        self.is_connected && self.has(id) && self.stream(id).may_be_acknowledged()
    }

    fn may_raise(&self, id: StreamId, total: u64) -> bool
        ensures { result ≡ may_raise_now self.now id total }
    {
        // Limits never fall; a lower one is out of date (RFC 9000, section 4.1).
        self.is_connected
            && self.can_send(id)
            && total >= self.stream(id).credit
            && total <= MOST_BYTES
    }

    fn may_come(&self, turn: &Turn) -> bool
        ensures { result ≡ may_come_now self.now turn.now }
    {
        match turn {
            Turn::Connected {
                uni,
                bi,
                credit,
                ..
            } => self.may_connect(*uni, *bi, *credit),
            Turn::PeerUni => self.may_peer_open(peer_kind(self.side, false)),
            Turn::PeerBi => self.may_peer_open(peer_kind(self.side, true)),
            Turn::Bytes { id, .. } | Turn::End { id } | Turn::Reset { id, .. } => self.may_receive(
                *id,
            ),
            Turn::Stop { id, .. } => self.may_stop(*id),
            Turn::Acked { id } => self.may_ack(*id),
            Turn::MaxUni { total } => {
                self.is_connected && *total >= self.unis_allowed && *total <= MOST_STREAMS
            }
            Turn::MaxBi { total } => {
                self.is_connected && *total >= self.bis_allowed && *total <= MOST_STREAMS
            }
            Turn::MaxData { id, total } => self.may_raise(*id, *total),
            Turn::Datagram { .. } | Turn::DatagramLimit { .. } => self.is_connected,
            Turn::Loss { .. } => self.may_be_lost(),
            Turn::Call(_) => false,
        }
    }

    /// Whether a turn of the transport is lawful now, before and after the end of the connection. A
    /// call is no turn of the transport.
    pub fn fits(&self, turn: &Turn) -> bool
        ensures now { result ≡ fits_now self.now turn.now }
        ensures log { Tells self.now (λ side log. result ≡ fits side log turn.now) }
    {
        // After this end closed, the transport still reports what was under way; after a loss, nothing.
        self.may_come(turn) && !self.is_lost
    }

    // ---- what each leaves

    fn allow_unis(&mut self, total: u64)
        requires { total ≤ 2 ^ 60 }
        ensures { self.new ≡ record self.old { unis_allowed = total } }
    {
        self.unis_allowed = total;
    }

    fn allow_bis(&mut self, total: u64)
        requires { total ≤ 2 ^ 60 }
        ensures { self.new ≡ record self.old { bis_allowed = total } }
    {
        self.bis_allowed = total;
    }

    fn connect(&mut self, uni: u64, bi: u64, credit: u64, datagrams: DatagramFact)
        requires uni { uni ≤ 2 ^ 60 }
        requires bi { bi ≤ 2 ^ 60 }
        ensures { self.new ≡ after_event self.old (Connected uni bi credit datagrams) }
    {
        self.is_connected = true;
        self.unis_allowed = uni;
        self.bis_allowed = bi;
        self.initial_credit = credit;
        self.limit_datagrams(datagrams);
    }

    fn limit_datagrams(&mut self, fact: DatagramFact)
        ensures { self.new ≡ after_event self.old (DatagramLimit fact) }
    {
        if self.is_open {
            self.datagram_fact = Some(fact);
        }
    }

    pub(super) fn open_stream(&mut self, kind: usize) -> Result<(), OutOfMemory>
        requires { kind < 4 }
        ensures now { OnOk result (self.new ≡ with_new_stream self.old kind) }
        ensures err { OnErr result (self.new ≡ self.old) }
    {
        self.rows[kind].open(self.alloc, self.initial_credit)
    }

    fn receive(&mut self, id: StreamId, bytes: &[u8]) -> Result<(), OutOfMemory>
        requires { IsTrue (has_stream self.old.streams id) }
        ensures now { OnOk result (self.new ≡ after_bytes self.old id bytes.now) }
        ensures err { OnErr result (self.new ≡ self.old) }
    {
        if !self.is_open {
            return Ok(());
        }
        let alloc = self.alloc;
        self.rows[kind_of(id)]
            .stream_mut(index_of(id))
            .receive(alloc, bytes)
    }

    fn note_end(&mut self, id: StreamId, end: &StreamEnd)
        requires has { IsTrue (has_stream self.old.streams id) }
        requires once { IsTrue (is_running (stream_at self.old.streams id).all_signals.end) }
        ensures { self.new ≡ with_change self.old id (signal self.old.is_open (with_end end.now)) }
    {
        let counts = self.is_open;
        self.rows[kind_of(id)]
            .stream_mut(index_of(id))
            .end(counts, end);
    }

    fn note_stop(&mut self, id: StreamId, code: VarInt)
        requires has { IsTrue (has_stream self.old.streams id) }
        requires once { IsTrue (not (is_some (stream_at self.old.streams id).all_signals.stop)) }
        ensures { self.new ≡ after_event self.old (Stop id code) }
    {
        let counts = self.is_open;
        self.rows[kind_of(id)]
            .stream_mut(index_of(id))
            .stop(counts, code);
    }

    fn note_ack(&mut self, id: StreamId)
        requires has { IsTrue (has_stream self.old.streams id) }
        requires once { IsTrue (not (stream_at self.old.streams id).all_signals.acknowledged) }
        ensures { self.new ≡ after_event self.old (Acked id) }
    {
        let counts = self.is_open;
        self.rows[kind_of(id)]
            .stream_mut(index_of(id))
            .acknowledge(counts);
    }

    fn raise(&mut self, id: StreamId, total: u64)
        requires { IsTrue (has_stream self.old.streams id) }
        ensures { self.new ≡ after_event self.old (MaxData id total) }
    {
        self.rows[kind_of(id)].stream_mut(index_of(id)).credit = total;
    }

    fn lose(&mut self, reason: &LossReason) -> Result<(), OutOfMemory>
        ensures now { OnOk result (self.new ≡ after_event self.old (Loss reason.now)) }
        ensures err { OnErr result (self.new ≡ self.old) }
    {
        if self.is_open {
            self.loss = Some(reason.copy(self.alloc)?);
        }
        self.is_open = false;
        self.is_lost = true;
        Ok(())
    }

    fn note(&mut self, turn: &Turn) -> Result<(), OutOfMemory>
        requires { IsTrue (may_come_now self.old turn.now) }
        ensures now { OnOk result (self.new ≡ after_turn self.old turn.now) }
        ensures err { OnErr result (self.new ≡ self.old) }
    {
        match turn {
            Turn::PeerUni => self.open_stream(peer_kind(self.side, false)),
            Turn::PeerBi => self.open_stream(peer_kind(self.side, true)),
            Turn::Bytes { id, piece } => self.receive(*id, piece.as_slice()),
            Turn::Loss { reason } => self.lose(reason),
            _ => {
                self.note_in_place(turn);
                Ok(())
            }
        }
    }

    /// Records a turn that takes no memory; any other is left.
    fn note_in_place(&mut self, turn: &Turn)
        requires { IsTrue (may_come_now self.old turn.now) }
        ensures { self.new ≡ after_in_place self.old turn.now }
    {
        match turn {
            Turn::Connected {
                uni,
                bi,
                credit,
                datagrams,
            } => self.connect(*uni, *bi, *credit, *datagrams),
            Turn::End { id } => self.note_end(*id, &StreamEnd::Fin),
            Turn::Reset { id, code } => self.note_end(*id, &StreamEnd::Reset(*code)),
            Turn::Stop { id, code } => self.note_stop(*id, *code),
            Turn::Acked { id } => self.note_ack(*id),
            Turn::MaxUni { total } => self.allow_unis(*total),
            Turn::MaxBi { total } => self.allow_bis(*total),
            Turn::MaxData { id, total } => self.raise(*id, *total),
            Turn::DatagramLimit { fact } => self.limit_datagrams(*fact),
            _ => {}
        }
    }

    /// Records a turn of the transport. After the end of the connection it only decides what may come
    /// next.
    #[tactic(auto, using(crate::proofs::Refining::turn_refines))]
    pub fn take(&mut self, turn: &Turn) -> Result<(), OutOfMemory>
        requires { IsTrue (fits_now self.old turn.now) }
        ensures now { OnOk result (self.new ≡ after_turn self.old turn.now) }
        ensures err { OnErr result (self.new ≡ self.old) }
        ensures log { OfEachLog self.old (λ side log position uncollected. OnOk result (Refines side self.new (log_turn log turn.now) position uncollected)) }
    {
        self.note(turn)
    }

    /// Whether bytes, the end or a reset of this stream may come now.
    pub fn bytes_fit(&self, id: StreamId) -> bool
        ensures now { result ≡ (may_receive_now self.now id && not self.now.is_lost) }
        ensures log { Tells self.now (λ side log. (bytes : List ℕ) → result ≡ fits side log (Turn.Bytes id bytes)) }
    {
        self.may_receive(id) && !self.is_lost
    }

    /// Records bytes that arrived on a stream, as a turn with a piece of these bytes does.
    #[tactic(auto, using(crate::proofs::Refining::bytes_refine))]
    pub fn take_bytes(&mut self, id: StreamId, bytes: &[u8]) -> Result<(), OutOfMemory>
        requires { IsTrue (may_receive_now self.old id && not self.old.is_lost) }
        ensures now { OnOk result (self.new ≡ after_bytes self.old id bytes.now) }
        ensures err { OnErr result (self.new ≡ self.old) }
        ensures log { OfEachLog self.old (λ side log position uncollected. OnOk result (Refines side self.new (log_turn log (Turn.Bytes id bytes.now)) position uncollected)) }
    {
        self.receive(id, bytes)
    }
}
