//! Lists by number.
ghost use Rattle.std.specs.Prelude.{◌≡◌, ℕ, [], OnOk};
ghost use Rattle.wt_peer_streams.specs.ByNumber.{IsOrdered, place_by};
ghost use Rattle.wt_sessions.specs.StreamTable.{with_id, with_ids};

use std::alloc::Global;
use std::marker::Model;
use wt_wire::error::OutOfMemory;
use wt_wire::ids::StreamId;

/// What has a number.
pub(crate) trait Numbered {
    // the number
    ghost number_of: { Self → ℕ };

    fn number(&self) -> u64
        ensures { result ≡ number_of self.now };
}

impl Numbered for StreamId {
    ghost number_of = { λ id. id };

    fn number(&self) -> u64 {
        self.into_u64()
    }
}

/// How many stand in front of the place of this number. Most come in the order of their numbers, so the last is looked at first.
pub(crate) fn place_of<T: Numbered>(items: &[T], wanted: u64) -> usize
    requires { IsOrdered T.number_of items.now }
    ensures { result ≡ place_by T.number_of wanted items.now }
{
    let mut low = 0;
    let mut high = items.len();
    if high > 0 && items[high - 1].number() < wanted {
        return high;
    }
    while low < high {
        let middle = low + (high - low) / 2;
        if items[middle].number() < wanted {
            low = middle + 1;
        } else {
            high = middle;
        }
    }
    low
}

/// The ids of streams, each once, by their numbers.
#[derive(Drop)]
pub struct StreamIds {
    ids: Vec<StreamId>,
}

impl Model for StreamIds {
    ghost use Rattle.std.specs.Prelude.{List, ℕ};
    ghost use Rattle.wt_peer_streams.specs.ByNumber.{IsOrdered};

    ghost Value = { List ℕ };

    ghost view = { λ s. s.ids.items };

    ghost invariant = { λ s. IsOrdered (λ id. id) s.ids.items };
}

impl StreamIds {
    /// None.
    pub fn new(alloc: Global) -> StreamIds
        ensures { result ≡ [] }
    {
        StreamIds {
            ids: Vec::new(alloc),
        }
    }

    /// One more, where it isn't there.
    pub fn add(&mut self, id: StreamId) -> Result<(), OutOfMemory>
        ensures { OnOk result (self.new ≡ with_id id self.old) }
    {
        let place = place_of(self.ids.as_slice(), id.into_u64());
        if place < self.ids.len() && self.ids[place] == id {
            return Ok(());
        }
        self.ids.insert(place, id)?;
        Ok(())
    }

    /// More of them, where they aren't there.
    pub fn add_all(&mut self, ids: &[StreamId]) -> Result<(), OutOfMemory>
        ensures { OnOk result (self.new ≡ with_ids ids.now self.old) }
    {
        for id in ids {
            self.add(*id)?;
        }
        Ok(())
    }

    /// In their order.
    pub fn as_slice(&self) -> &[StreamId]
        ensures { result.now ≡ self.now }
    {
        self.ids.as_slice()
    }
}
