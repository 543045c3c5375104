//! Values by the ids of streams.
ghost use Rattle.std.specs.Prelude.{◌≡◌, ◌==◌, ℕ, None, OnOk, Some, if◌then◌else◌};
ghost use Rattle.std.specs.Option.{option_copied};
ghost use Rattle.wt_check.specs.ById.{value_at};

use std::alloc::Global;
use std::collections::BTreeMap;
use std::marker::Model;
use wt_wire::error::OutOfMemory;
use wt_wire::ids::StreamId;

/// At most one value a stream, whatever the ids. Contracts see a list of ids with their values.
#[derive(Drop)]
pub struct ById<T: Drop> {
    values: BTreeMap<u64, T>,
}

impl<T: Drop> Model for ById<T> {
    ghost use Rattle.std.specs.Prelude.{List, ℕ};

    ghost Value = { List (ℕ × T) };

    ghost view = { λ m. m.values.entries };
}

impl<T: Drop> ById<T> {
    /// No values.
    pub fn new(alloc: Global) -> ById<T>
        ensures { (k : ℕ) → value_at result k ≡ None }
    {
        ById {
            values: BTreeMap::new(alloc),
        }
    }

    /// The stream's value.
    pub fn get(&self, id: StreamId) -> Option<&T>
        ensures { option_copied result ≡ value_at self.now id }
    {
        self.values.get(&id.into_u64())
    }

    /// Takes the stream's value out.
    pub fn take(&mut self, id: StreamId) -> Option<T>
        ensures value { result ≡ value_at self.old id }
        ensures others { (k : ℕ) → value_at self.new k ≡ (if k == id then None else value_at self.old k) }
    {
        self.values.remove(&id.into_u64())
    }

    /// Gives the stream this value.
    pub fn put(&mut self, id: StreamId, value: T) -> Result<(), OutOfMemory>
        ensures { OnOk result ((k : ℕ) → value_at self.new k ≡ (if k == id then Some value else value_at self.old k)) }
    {
        self.values.insert(id.into_u64(), value)?;
        Ok(())
    }
}
