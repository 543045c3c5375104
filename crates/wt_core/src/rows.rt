//! Values by the streams that have them.
ghost use Rattle.std.specs.Prelude.{◌≡◌, ◌+◌, ◌<◌, ℕ, [], None, OnOk, Some, length};
ghost use Rattle.wt_core.specs.Rows.{HasPut, IsPut, in_row, value_at};

use std::alloc::Global;
use std::marker::Model;
use wt_wire::error::OutOfMemory;
use wt_wire::ids::StreamId;

/// Values of the streams of one kind, by how many of the kind were opened before (RFC 9000, section 2.1). Contracts see the places.
#[derive(Drop)]
pub struct Row<T: Drop> {
    places: Vec<Option<T>>,
}

impl<T: Drop> Model for Row<T> {
    ghost use Rattle.std.specs.Prelude.{List, Option};

    ghost Value = { List (Option T) };

    ghost view = { λ r. r.places.items };
}

impl<T: Drop> Row<T> {
    /// No value.
    fn new(alloc: Global) -> Row<T>
        ensures { result ≡ [] }
    {
        Row {
            places: Vec::new(alloc),
        }
    }

    /// One place more, without a value.
    #[tactic(auto, using(crate::proofs::Places::push_same))]
    fn push(&mut self) -> Result<(), OutOfMemory>
        ensures same { OnOk result ((n : ℕ) → in_row self.new n ≡ in_row self.old n) }
        ensures longer { OnOk result (length self.new ≡ length self.old + 1) }
    {
        self.places.push(None)?;
        Ok(())
    }

    fn grow(&mut self, index: usize) -> Result<(), OutOfMemory>
        ensures same { OnOk result ((n : ℕ) → in_row self.new n ≡ in_row self.old n) }
        ensures long { OnOk result (index < length self.new) }
    {
        while self.places.len() <= index {
            self.push()?;
        }
        Ok(())
    }

    /// This place has this value.
    fn put(&mut self, index: usize, value: T) -> Result<(), OutOfMemory>
        ensures { OnOk result (IsPut self.old self.new index (Some value)) }
    {
        self.grow(index)?;
        self.places[index] = Some(value);
        Ok(())
    }

    /// The value of this place, which has none any more.
    fn take(&mut self, index: usize) -> Option<T>
        ensures value { result ≡ in_row self.old index }
        ensures rest { IsPut self.old self.new index None }
    {
        if index < self.places.len() {
            return self.places[index].take();
        }
        None
    }
}

/// Values of streams, in a row a kind: its opener and direction. Contracts see the rows.
#[derive(Drop)]
pub struct Rows<T: Drop> {
    kinds: [Row<T>; 4],
}

impl<T: Drop> Model for Rows<T> {
    ghost use Rattle.std.specs.Prelude.{List, Option};

    ghost Value = { List (List (Option T)) };

    ghost view = { λ r. r.kinds };
}

impl<T: Drop> Rows<T> {
    /// No value.
    #[tactic(auto, using(crate::proofs::Places::none_at))]
    pub fn new(alloc: Global) -> Rows<T>
        ensures { (k : ℕ) → value_at result k ≡ None }
    {
        Rows {
            kinds: [
                Row::new(alloc),
                Row::new(alloc),
                Row::new(alloc),
                Row::new(alloc),
            ],
        }
    }

    /// This stream has this value.
    #[tactic(auto, using(crate::proofs::Places::put_at))]
    pub fn put(&mut self, id: StreamId, value: T) -> Result<(), OutOfMemory>
        ensures { OnOk result (HasPut self.old self.new id (Some value)) }
    {
        let id = id.into_u64();
        let row = &mut self.kinds[(id % 4) as usize];
        row.put((id / 4) as usize, value)
    }

    /// The value of this stream, which has none any more.
    #[tactic(auto, using(crate::proofs::Places::put_at))]
    pub fn take(&mut self, id: StreamId) -> Option<T>
        ensures value { result ≡ value_at self.old id }
        ensures rest { HasPut self.old self.new id None }
    {
        let id = id.into_u64();
        let row = &mut self.kinds[(id % 4) as usize];
        row.take((id / 4) as usize)
    }
}
