//! Rule 5: the payloads that were received for a session are some of those that came for it, in their order.
ghost use Rattle.std.specs.Prelude.{◌≡◌, ◌==◌, ◌++◌, ◌∷◌, ℕ, [], IfOk, MatchBool, None, OnOk, Some, if◌then◌else◌, is_some, true};
ghost use Rattle.wt_check.specs.Datagrams.{receives_rightly};
ghost use Rattle.wt_check.specs.Keeps.{FactsSay};
ghost use Rattle.wt_check.specs.KeptDatagrams.{DatagramsFollow, arriving, behind, came_for, left_after, payloads_of, received_by, rest_behind, was_there};
ghost use Rattle.wt_meaning.specs.History.{History, Pair};
ghost use Rattle.wt_wire.specs.declared.side.Side.{Side};

use crate::by_id::ById;
use crate::facts::Facts;
use std::alloc::Global;
use std::collections::VecDeque;
use std::marker::Model;
use wt_message::datagram::H3Datagram;
use wt_turn::piece::Piece;
use wt_turn::reply::Reply;
use wt_turn::turn::Turn;
use wt_wire::error::OutOfMemory;
use wt_wire::ids::{SessionId, StreamId};

/// The payloads of a session behind the last that was received. Contracts see the list of them.
#[derive(Drop)]
struct Payloads {
    items: VecDeque<Piece>,
}

impl Model for Payloads {
    ghost use Rattle.std.specs.Prelude.{List, ℕ};

    ghost Value = { List (List ℕ) };

    ghost view = { λ p. p.items.items };
}

impl Payloads {
    fn new(alloc: Global) -> Payloads
        ensures { result ≡ [] }
    {
        Payloads {
            items: VecDeque::new(alloc),
        }
    }

    fn push(&mut self, payload: Piece) -> Result<(), OutOfMemory>
        ensures { OnOk result (self.new ≡ self.old ++ payload ∷ []) }
    {
        self.items.push_back(payload)?;
        Ok(())
    }

    /// Takes payloads out up to and with the first that is this one; false where there is none.
    fn take_up_to(&mut self, payload: &Piece) -> bool
        ensures { MatchBool result (behind payload.now self.old ≡ Some self.new) (behind payload.now self.old ≡ None) }
    {
        while let Some(first) = self.items.pop_front() {
            if payload.as_slice() == first.as_slice() {
                return true;
            }
        }
        false
    }
}

/// What the rule keeps, by session.
#[derive(Drop)]
pub struct DatagramRule {
    alloc: Global,
    left: ById<Payloads>,
}

impl DatagramRule {
    /// No datagram came.
    #[tactic(auto, using(crate::proofs::DatagramSteps::follow_none))]
    pub fn new(alloc: Global) -> DatagramRule
        ensures { DatagramsFollow result.left [] }
    {
        let left = ById::new(alloc);
        DatagramRule { alloc, left }
    }

    /// Takes the payloads of a session out.
    fn take_out(&mut self, session: StreamId) -> Payloads
        ensures value { result ≡ payloads_of self.old.left session }
        ensures others { (k : ℕ) → payloads_of self.new.left k ≡ (if k == session then [] else payloads_of self.old.left k) }
    {
        match self.left.take(session) {
            Some(left) => left,
            None => Payloads::new(self.alloc),
        }
    }

    /// A datagram came; one that names no session counts for none.
    fn arrive(&mut self, bytes: &[u8]) -> Result<(), OutOfMemory>
        ensures { OnOk result ((k : ℕ) → payloads_of self.new.left k ≡ payloads_of self.old.left k ++ came_for k bytes.now) }
    {
        let Ok(datagram) = H3Datagram::read(bytes) else {
            return Ok(());
        };
        let session = datagram.qstream_id().into_session_id().session_stream();
        let payload = Piece::from_slice(self.alloc, datagram.payload())?;
        let mut left = self.take_out(session);
        left.push(payload)?;
        self.left.put(session, left)
    }

    /// Whether this payload came for the session behind the last that was received.
    fn receive(&mut self, session: StreamId, payload: &Piece) -> Result<bool, OutOfMemory>
        ensures came { IfOk result (λ came. came ≡ is_some (behind payload.now (payloads_of self.old.left session))) }
        ensures left { OnOk result ((k : ℕ) → is_some (behind payload.now (payloads_of self.old.left session)) ≡ true
            → payloads_of self.new.left k ≡ (if k == session then rest_behind payload.now (payloads_of self.old.left session) else payloads_of self.old.left k)) }
    {
        let mut left = self.take_out(session);
        let came = left.take_up_to(payload);
        self.left.put(session, left)?;
        Ok(came)
    }

    /// Takes the datagram that the turn brings, while the connection is open.
    fn take_turn(&mut self, facts: &Facts, turn: &Turn) -> Result<(), OutOfMemory>
        ensures { OnOk result ((k : ℕ) → payloads_of self.new.left k ≡ payloads_of self.old.left k ++ arriving k facts.now.is_open turn.now) }
    {
        match turn {
            Turn::Datagram { piece } if facts.is_open() => self.arrive(piece.as_slice()),
            _ => Ok(()),
        }
    }

    /// Whether what the reply gives the session came for it behind the last that was received.
    fn take_reply(&mut self, name: Option<SessionId>, reply: &Reply) -> Result<bool, OutOfMemory>
        ensures answer { IfOk result (λ holds. holds ≡ was_there (received_by name reply.now) self.old.left) }
        ensures left { OnOk result (was_there (received_by name reply.now) self.old.left ≡ true → (k : ℕ) → payloads_of self.new.left k ≡ left_after (received_by name reply.now) self.old.left k) }
    {
        match (name, reply) {
            (Some(session), Reply::Datagram(payload)) => {
                self.receive(session.session_stream(), payload)
            }
            _ => Ok(true),
        }
    }

    /// Whether the rule holds with this pair.
    #[tactic(auto, using(crate::proofs::DatagramSteps::rightly, crate::proofs::DatagramSteps::kept_by))]
    pub fn holds(&mut self, facts: &Facts, turn: &Turn, reply: &Reply) -> Result<bool, OutOfMemory>
        ensures answer { (side : Side) (h : History) (p : Pair) → p.turn ≡ turn.now → p.answer.reply ≡ reply.now → FactsSay side facts.now h
            → DatagramsFollow self.old.left h → IfOk result (λ holds. holds ≡ receives_rightly side h p) }
        ensures kept { (side : Side) (h : History) (p : Pair) → p.turn ≡ turn.now → p.answer.reply ≡ reply.now → FactsSay side facts.now h
            → DatagramsFollow self.old.left h → IfOk result (λ holds. holds ≡ true → DatagramsFollow self.new.left (p ∷ h)) }
    {
        self.take_turn(facts, turn)?;
        self.take_reply(facts.named(turn), reply)
    }
}
