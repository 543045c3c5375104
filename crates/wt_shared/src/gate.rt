//! How a call waits.
ghost use Rattle.std.specs.Prelude.{◌≡◌, ℕ, MatchBool};
ghost use Rattle.wt_trace.specs.Outside.{Rose};

use crate::shared::Locked;
use std::alloc::Global;
use std::sync::{Arc, Wait};

/// How a call waits. A gate may give up, and counts how often it did.
pub trait Gate {
    // How often it gave up.
    ghost refused: { Self → ℕ };

    /// Waits. Returns true when there may be more changes than `changes`, which the caller found; false is to give up.
    fn pause<R: Wait>(&mut self, rt: &R, changes: u64) -> bool
        ensures { MatchBool result (refused self.new ≡ refused self.old) (Rose (refused self.old) (refused self.new)) };

    /// How often it gave up.
    fn refusals(&self) -> u64
        ensures { result ≡ refused self.now };
}

/// Doesn't wait, and never gives up: a call asks again at once.
#[derive(Clone, Copy, PartialEq, Eq, Debug)]
pub struct OpenGate;

impl Gate for OpenGate {
    ghost refused = { λ _. 0 };

    fn pause<R: Wait>(&mut self, _rt: &R, _changes: u64) -> bool {
        true
    }

    fn refusals(&self) -> u64 {
        0
    }
}

/// Waits until the connection has another count of changes or ran out of memory, and never gives up. Made by
/// [`Connection::gate`](crate::connection::Connection::gate).
#[derive(Drop)]
pub struct CondvarGate {
    locked: Arc<Locked, Global>,
}

impl CondvarGate {
    pub(crate) fn of(locked: Arc<Locked, Global>) -> CondvarGate {
        CondvarGate { locked }
    }
}

impl Gate for CondvarGate {
    ghost refused = { λ _. 0 };

    fn pause<R: Wait>(&mut self, rt: &R, changes: u64) -> bool {
        let kept = self.locked.kept.lock(rt);
        // A connection that ran out of memory changes no more, and whoever waits for it has to learn that.
        let kept = self.locked.changed.wait_while(rt, kept, |kept| {
            kept.changes() == changes && !kept.has_failed()
        });
        drop(kept);
        true
    }

    fn refusals(&self) -> u64 {
        0
    }
}
