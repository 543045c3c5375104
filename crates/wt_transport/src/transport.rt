//! What is kept of the transport: the streams, what may go out on them, and whether the connection is open or how it ended.
ghost use Rattle.std.specs.Prelude.{◌≡◌, ◌<◌, ◌≤◌, ◌^◌, ◌∷◌, [], None, IsTrue, OnErr, OnOk, false, option_copied};
ghost use Rattle.wt_turn.specs.Log.{events_of, is_open};
ghost use Rattle.wt_turn.specs.Reports.{datagram_fact, loss_of};
ghost use Rattle.wt_turn.specs.Joined.{joined_actions};
ghost use Rattle.wt_turn.specs.Outgoing.{if_open};
ghost use Rattle.wt_turn.specs.Unread.{at_start};
ghost use Rattle.wt_transport.specs.StreamState.{has_stream, stream_at};
ghost use Rattle.wt_transport.specs.OfLog.{OfEachLog, SendsIfOk, Tells, TellsUnread};
ghost use Rattle.wt_transport.specs.State.{Refines, TransportState};
ghost use Rattle.wt_transport.specs.Step.{after_close, after_dial, can_receive_now, can_send_now, count_now, nothing_connected, with_action};

mod accepting;
mod arrivals;
mod queries;
mod reading;
mod running;
mod sending;

use crate::kind::{index_of, kind_of, local_kind, peer_kind};
use crate::outbox::Outbox;
use crate::row::Row;
use crate::stream::Stream;
use std::alloc::Global;
use std::marker::Model;
use std::mem;
use wt_turn::action::{Action, Actions};
use wt_turn::datagram_fact::DatagramFact;
use wt_turn::loss::LossReason;
use wt_turn::piece::Piece;
use wt_wire::addr::Addr;
use wt_wire::error::OutOfMemory;
use wt_wire::ids::StreamId;
use wt_wire::side::Side;
use wt_wire::text::Text;
use wt_wire::varint::VarInt;

/// The transport of one connection, as far as it was reported to this end. Contracts see what it keeps as
/// a record, and tie that record to each log that it refines. Each call that takes memory answers
/// `OutOfMemory` where none is there, and then leaves all as it was.
#[derive(Debug)]
pub struct Transport {
    alloc: Global,
    side: Side,
    is_open: bool,
    has_dialled: bool,
    is_connected: bool,
    is_lost: bool,
    unis_allowed: u64,
    bis_allowed: u64,
    initial_credit: u64,
    datagram_fact: Option<DatagramFact>,
    loss: Option<LossReason>,
    /// The streams of each kind, by the low two bits of their ids.
    rows: [Row; 4],
    /// How many of the peer's unidirectional streams were accepted.
    unis_accepted: u64,
    /// How many of its bidirectional ones.
    bis_accepted: u64,
    outbox: Outbox,
}

/// Written out, so that a crate that lets one go need not prove the drop of each of its parts.
impl Drop for Transport {
    fn drop(self) {
        let Transport {
            alloc: _,
            side: _,
            is_open: _,
            has_dialled: _,
            is_connected: _,
            is_lost: _,
            unis_allowed: _,
            bis_allowed: _,
            initial_credit: _,
            datagram_fact: _,
            loss: _,
            rows: _,
            unis_accepted: _,
            bis_accepted: _,
            outbox: _,
        } = self;
    }
}

impl Model for Transport {
    ghost use Rattle.std.specs.Prelude.{◌≤◌, ◌^◌};
    ghost use Rattle.wt_transport.specs.State.{TransportState};

    ghost Value = { TransportState };

    ghost view = { λ t. record { side = t.side; is_open = t.is_open; has_dialled = t.has_dialled; is_connected = t.is_connected; is_lost = t.is_lost; unis_allowed = t.unis_allowed; bis_allowed = t.bis_allowed; initial_credit = t.initial_credit; datagram_fact = t.datagram_fact; loss = t.loss; streams = t.rows; accepted = record { uni = t.unis_accepted; bi = t.bis_accepted }; actions = t.outbox } };

    ghost invariant = { λ t. (t.unis_allowed ≤ 2 ^ 60) × (t.bis_allowed ≤ 2 ^ 60) };
}

impl Transport {
    /// The transport of a connection of which nothing was reported yet.
    #[tactic(auto, using(crate::proofs::Refining::new_refines))]
    pub fn new(alloc: Global, side: Side) -> Transport
        ensures now { result ≡ nothing_connected side }
        ensures log { Refines side result [] at_start [] }
    {
        Transport {
            alloc,
            side,
            is_open: true,
            has_dialled: false,
            is_connected: false,
            is_lost: false,
            unis_allowed: 0,
            bis_allowed: 0,
            initial_credit: 0,
            datagram_fact: None,
            loss: None,
            rows: [
                Row::new(alloc),
                Row::new(alloc),
                Row::new(alloc),
                Row::new(alloc),
            ],
            unis_accepted: 0,
            bis_accepted: 0,
            outbox: Outbox::new(alloc),
        }
    }

    /// Where it takes memory.
    pub fn allocator(&self) -> Global {
        self.alloc
    }

    // ---- the streams

    fn has(&self, id: StreamId) -> bool
        ensures { result ≡ has_stream self.now.streams id }
    {
        index_of(id) < self.rows[kind_of(id)].len()
    }

    pub(crate) fn stream(&self, id: StreamId) -> &Stream
        requires { IsTrue (has_stream self.now.streams id) }
        ensures { result.now ≡ stream_at self.now.streams id }
    {
        self.rows[kind_of(id)].stream(index_of(id))
    }

    fn count(&self, kind: usize) -> u64
        requires { kind < 4 }
        ensures { result ≡ count_now self.now kind }
    {
        self.rows[kind].len() as u64
    }

    /// Whether the stream exists and has a receiving half.
    pub fn can_receive(&self, id: StreamId) -> bool
        ensures now { result ≡ can_receive_now self.now id }
    {
        self.has(id) && kind_of(id) != local_kind(self.side, false)
    }

    /// Whether the stream exists and has a sending half.
    pub fn can_send(&self, id: StreamId) -> bool
        ensures now { result ≡ can_send_now self.now id }
    {
        self.has(id) && kind_of(id) != peer_kind(self.side, false)
    }

    // ---- the connection

    /// This end.
    #[tactic(auto, using(crate::proofs::Refining::refined_side))]
    pub fn side(&self) -> Side
        ensures now { result ≡ self.now.side }
        ensures log { Tells self.now (λ side log. result ≡ side) }
    {
        self.side
    }

    /// Whether the connection is open: no loss came, and no close went out.
    #[tactic(auto, using(crate::proofs::Refining::refined_open))]
    pub fn is_open(&self) -> bool
        ensures now { result ≡ self.now.is_open }
        ensures log { Tells self.now (λ side log. result ≡ is_open log) }
    {
        self.is_open
    }

    /// What was reported last of datagrams while the connection was open.
    #[tactic(auto, using(crate::proofs::Refining::refined_datagram_fact))]
    pub fn datagram_fact(&self) -> Option<DatagramFact>
        ensures now { result ≡ self.now.datagram_fact }
        ensures log { Tells self.now (λ side log. result ≡ datagram_fact (events_of log)) }
    {
        self.datagram_fact
    }

    /// The loss that ended the connection.
    #[tactic(auto, using(crate::proofs::Refining::refined_loss))]
    pub fn loss(&self) -> Option<&LossReason>
        ensures now { option_copied result ≡ self.now.loss }
        ensures log { Tells self.now (λ side log. option_copied result ≡ loss_of (events_of log)) }
    {
        self.loss.as_ref()
    }

    /// Connects to this address, by this server name.
    pub fn dial(&mut self, address: Addr, name: Text) -> Result<(), OutOfMemory>
        requires { IsTrue self.old.is_open }
        ensures now { OnOk result (self.new ≡ after_dial self.old address name) }
        ensures err { OnErr result (self.new ≡ self.old) }
        ensures log { SendsIfOk result self.old self.new (λ side log. Action.Dial address name ∷ []) }
    {
        self.outbox.put(Action::Dial { address, name })?;
        self.has_dialled = true;
        Ok(())
    }

    /// Sends a datagram (RFC 9221, section 5).
    pub fn datagram_out(&mut self, piece: Piece) -> Result<(), OutOfMemory>
        requires { IsTrue self.old.is_open }
        ensures now { OnOk result (self.new ≡ with_action self.old (Action.DatagramOut piece)) }
        ensures err { OnErr result (self.new ≡ self.old) }
        ensures log { SendsIfOk result self.old self.new (λ side log. Action.DatagramOut piece ∷ []) }
    {
        self.outbox.put(Action::DatagramOut { piece })?;
        Ok(())
    }

    /// Closes the connection where it is open; else nothing happens (RFC 9000, section 10.2).
    pub fn close(&mut self, code: VarInt, reason: Piece) -> Result<(), OutOfMemory>
        ensures now { OnOk result (self.new ≡ after_close self.old code reason) }
        ensures err { OnErr result (self.new ≡ self.old) }
        ensures log { SendsIfOk result self.old self.new (λ side log. if_open log (Action.Close code reason)) }
    {
        if !self.is_open {
            return Ok(());
        }
        self.outbox.put(Action::Close { code, reason })?;
        self.is_open = false;
        Ok(())
    }

    /// The actions since the last such call, in the order in which they go out.
    pub fn take_actions(&mut self) -> Actions
        ensures actions { result ≡ self.old.actions }
        ensures state { self.new ≡ record self.old { actions = [] } }
        ensures log_actions { OfEachLog self.old (λ side log position uncollected. result ≡ joined_actions uncollected) }
        ensures log { TellsUnread self.old (λ side log position. Refines side self.new log position []) }
    {
        let empty = Outbox::new(self.alloc);
        mem::replace(&mut self.outbox, empty).into_actions()
    }
}
