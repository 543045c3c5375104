//! What waits for one end.
ghost use Rattle.std.specs.Prelude.{[], ℕ, ◌++◌, ◌∷◌, ◌≡◌, ◌≤◌, IfOk, IsTrue, OnOk, length, option_to_list, take};
ghost use Rattle.std.specs.List.{list_any};
ghost use Rattle.std.specs.Option.{option_map};
ghost use Rattle.wt_pair.specs.Kept.{delivered_from, is_ready, lost_from, no_link, ready_at, with_came, with_more, with_rest, without};
ghost use Rattle.wt_pair.specs.Streams.{delivered_on, item_marks, waiting_on};
ghost use Rattle.wt_pair.specs.Link.{connects, delivered_turn, first_of, is_before, is_datagram, item_at, left_of, may_deliver, takes_bytes};

use crate::item::Item;
use std::alloc::Global;
use std::collections::VecDeque;
use std::marker::Model;
use wt_turn::Turn;
use wt_wire::error::OutOfMemory;

/// What waits for one end, in the order in which the other end did it, and whether the connection was delivered. Contracts see both.
///
/// It changes no byte, and no order within a stream. It delays, delivers a piece of a stream in parts, brings what waits of several
/// streams in any order, and loses datagrams. So of each stream what was delivered and what waits, joined, is what was added: that is
/// the clause `streams` of each call.
#[derive(Drop)]
pub struct Link {
    items: VecDeque<Item>,
    connected: bool,
}

impl Model for Link {
    ghost use Rattle.wt_pair.specs.Kept.{LinkNow};

    ghost Value = { LinkNow };

    ghost view = { λ l. record {
      waiting = l.items.items;
      came = l.connected;
    } };
}

impl Link {
    /// Nothing waits.
    pub fn new(alloc: Global) -> Link
        ensures { result ≡ no_link }
    {
        Link {
            items: VecDeque::new(alloc),
            connected: false,
        }
    }

    /// One item more waits, behind the others.
    ///
    /// # Errors
    ///
    /// `OutOfMemory` where the longer list found no memory.
    #[tactic(auto, using(crate::proofs::StreamLaws::added_on))]
    pub fn add(&mut self, item: Item) -> Result<(), OutOfMemory>
        ensures all { OnOk result (self.new ≡ with_more (item ∷ []) self.old) }
        ensures streams { OnOk result ((k : ℕ) → waiting_on k self.new ≡ waiting_on k self.old ++ item_marks k item) }
    {
        self.items.push_back(item)?;
        Ok(())
    }

    /// What waits at this place, counted from 0.
    fn at(&self, place: usize) -> Option<&Item>
        ensures { option_map (λ x. x.now) result ≡ item_at self.now.waiting place }
    {
        self.items.get(place)
    }

    /// Takes what waits at this place out.
    fn take(&mut self, place: usize) -> Option<Item>
        ensures item { result ≡ item_at self.old.waiting place }
        ensures rest { self.new ≡ without place self.old }
    {
        self.items.remove(place)
    }

    /// What is left of an item waits on in its place.
    fn put_back(&mut self, place: usize, rest: Option<Item>) -> Result<(), OutOfMemory>
        requires { place ≤ length self.old.waiting }
        ensures { OnOk result (self.new ≡ with_rest place (option_to_list rest) self.old) }
    {
        if let Some(rest) = rest {
            self.items.insert(place, rest)?;
        }
        Ok(())
    }

    /// Whether one of the items in front of this place must be delivered before this.
    fn must_wait(&self, place: usize, item: &Item) -> bool
        ensures { result ≡ list_any (λ x. is_before x item.now) (take place self.now.waiting) }
    {
        self.items
            .iter()
            .take(place)
            .any(|before| before.is_before(item))
    }

    /// Whether this, which waits at this place, may be delivered now, and of a piece of a stream this many bytes.
    fn is_due(&self, place: usize, bytes: u64, item: &Item) -> bool
        ensures { result ≡ may_deliver self.now.came self.now.waiting place bytes item.now }
    {
        (self.connected || item.connects()) && !self.must_wait(place, item) && item.takes(bytes)
    }

    /// Whether what waits at this place, counted from 0, may be delivered now, and of a piece of a stream this many bytes.
    pub fn may_deliver(&self, place: u64, bytes: u64) -> bool
        ensures { result ≡ is_ready self.now place bytes }
    {
        let place = place as usize;
        match self.at(place) {
            Some(item) => self.is_due(place, bytes, item),
            None => false,
        }
    }

    /// Delivers what waits at this place, of a piece of a stream this many bytes: the turn that it makes. The rest of a piece waits on
    /// in its place. None where it may not be delivered now, which changes nothing.
    ///
    /// # Errors
    ///
    /// `OutOfMemory` where the part of a piece found no memory.
    #[tactic(auto, using(crate::proofs::StreamLaws::delivered_waits))]
    pub fn deliver(&mut self, place: u64, bytes: u64) -> Result<Option<Turn>, OutOfMemory>
        ensures turn { IfOk result (λ turn. turn ≡ delivered_turn bytes (ready_at self.old place bytes)) }
        ensures rest { OnOk result (self.new ≡ delivered_from place bytes self.old (ready_at self.old place bytes)) }
        ensures streams { IfOk result (λ turn. (k : ℕ) → waiting_on k self.old ≡ delivered_on k (ready_at self.old place bytes) turn ++ waiting_on k self.new) }
    {
        if !self.may_deliver(place, bytes) {
            return Ok(None);
        }
        let place = place as usize;
        let Some(item) = self.take(place) else {
            return Ok(None);
        };
        let turn = self.deliver_item(place, bytes as usize, item)?;
        Ok(Some(turn))
    }

    /// Delivers this, which was taken out at this place, and of a piece of a stream this many bytes.
    fn deliver_item(&mut self, place: usize, bytes: usize, item: Item) -> Result<Turn, OutOfMemory>
        requires within { place ≤ length self.old.waiting }
        requires bytes { IsTrue (takes_bytes item.turn bytes) }
        ensures turn { IfOk result (λ turn. turn ≡ first_of bytes item.turn) }
        ensures rest { OnOk result (self.new ≡ with_rest place (left_of bytes item.stream item.turn) (with_came (connects item.turn) self.old)) }
    {
        self.came(item.connects());
        let alloc = *self.items.allocator();
        let (turn, rest) = item.split(alloc, bytes)?;
        self.put_back(place, rest)?;
        Ok(turn)
    }

    /// The connection was delivered, where it is what is delivered now.
    fn came(&mut self, connects: bool)
        ensures { self.new ≡ with_came connects self.old }
    {
        self.connected = self.connected || connects;
    }

    /// Loses the datagram that waits at this place, counted from 0; false where none does, which changes nothing.
    pub fn lose(&mut self, place: u64) -> bool
        ensures lost { result ≡ is_datagram (item_at self.old.waiting place) }
        ensures rest { self.new ≡ lost_from place self.old result }
        ensures streams { (k : ℕ) → waiting_on k self.new ≡ waiting_on k self.old }
    {
        let place = place as usize;
        if !self.has_datagram(place) {
            return false;
        }
        let _lost = self.take(place);
        true
    }

    /// Whether a datagram waits at this place.
    fn has_datagram(&self, place: usize) -> bool
        ensures { result ≡ is_datagram (item_at self.now.waiting place) }
    {
        match self.at(place) {
            Some(item) => item.is_datagram(),
            None => false,
        }
    }
}
