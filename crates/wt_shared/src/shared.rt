//! The lock of a shared connection.
ghost use Rattle.std.specs.Prelude.{◌≡◌, [], IfOk};

use crate::connection::Connection;
use crate::kept::Kept;
use std::alloc::Global;
use std::sync::{Arc, Condvar, Mutex};
use wt_wire::error::OutOfMemory;

/// The connection under its one lock, and what wakes those that wait for a change of it.
#[derive(Drop)]
pub(crate) struct Locked {
    pub(crate) kept: Mutex<Kept>,
    pub(crate) changed: Condvar,
}

/// A connection under a lock. What was done under the lock no contract of this type can say; those of [`Kept`] and of
/// [`Connection::call`] say it of the value that is lent to them.
#[derive(Drop)]
pub struct Shared {
    locked: Arc<Locked, Global>,
}

impl Shared {
    /// Puts the connection under a lock.
    pub fn new(alloc: Global, kept: Kept) -> Result<Shared, OutOfMemory> {
        let locked = Locked {
            kept: Mutex::new(kept),
            changed: Condvar::new(),
        };
        match Arc::new(alloc, locked) {
            Ok(locked) => Ok(Shared { locked }),
            Err(_) => Err(OutOfMemory),
        }
    }

    /// The lock. Whoever makes a turn on its value by `Kept::step` or `Connection::call` unlocks it, and then calls
    /// [`Shared::wake`]; the calls that wait do both by themselves.
    pub fn kept(&self) -> &Mutex<Kept> {
        &self.locked.kept
    }

    /// Wakes those that wait for a change.
    pub fn wake(&self) {
        self.locked.changed.notify_all();
    }

    /// A handle that was told nothing yet.
    pub fn connection(&self, alloc: Global) -> Result<Connection, OutOfMemory>
        ensures { IfOk result (λ handle. handle ≡ []) }
    {
        let locked = Arc::try_clone(&self.locked)?;
        Ok(Connection::of(alloc, locked))
    }
}
