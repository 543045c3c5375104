//! Gates of the tests.
ghost use Rattle.std.specs.Prelude.{◌≡◌};

use std::sync::Wait;
use std::sync::atomic::{AtomicBool, Ordering};
use wt_shared::Gate;

/// How often a flag is read before whoever waits for it gives up.
const MOST_READS: u32 = 200_000_000;

/// One of two flags.
#[derive(Clone, Copy, PartialEq, Eq, Debug)]
pub enum Flag {
    First,
    Second,
}

/// Two flags, by which two threads tell each other how far they are.
#[derive(Drop)]
pub struct Flags {
    first: AtomicBool,
    second: AtomicBool,
}

impl Flags {
    /// None is set.
    pub fn new() -> Flags {
        Flags {
            first: AtomicBool::new(false),
            second: AtomicBool::new(false),
        }
    }

    pub fn set(&self, flag: Flag) {
        match flag {
            Flag::First => self.first.store(true, Ordering::SeqCst),
            Flag::Second => self.second.store(true, Ordering::SeqCst),
        }
    }

    pub fn is_set(&self, flag: Flag) -> bool {
        match flag {
            Flag::First => self.first.load(Ordering::SeqCst),
            Flag::Second => self.second.load(Ordering::SeqCst),
        }
    }

    /// Reads the flag until it is set. Returns false where that took too many reads.
    pub fn is_set_at_last(&self, flag: Flag) -> bool {
        for _ in 0..MOST_READS {
            if self.is_set(flag) {
                return true;
            }
        }
        false
    }
}

/// A gate whose pause sets one flag, and then reads the other, which someone else sets, until that is set.
#[derive(Drop)]
pub struct TurnGate<'a> {
    flags: &'a Flags,
    sets: Flag,
    waits_for: Flag,
    refusals: u64,
}

impl<'a> TurnGate<'a> {
    pub fn new(flags: &'a Flags, sets: Flag, waits_for: Flag) -> TurnGate<'a> {
        TurnGate {
            flags,
            sets,
            waits_for,
            refusals: 0,
        }
    }
}

impl Gate for TurnGate<'_> {
    ghost refused = { λ g. g.refusals };

    fn pause<R: Wait>(&mut self, _rt: &R, _changes: u64) -> bool {
        self.flags.set(self.sets);
        if self.flags.is_set_at_last(self.waits_for) {
            return true;
        }
        self.refusals = self.refusals.saturating_add(1);
        false
    }

    fn refusals(&self) -> u64 {
        self.refusals
    }
}

/// A gate that gives up at once.
#[derive(Drop)]
pub struct ShutGate {
    refusals: u64,
}

impl ShutGate {
    pub fn new() -> ShutGate {
        ShutGate { refusals: 0 }
    }
}

impl Gate for ShutGate {
    ghost refused = { λ g. g.refusals };

    fn pause<R: Wait>(&mut self, _rt: &R, _changes: u64) -> bool {
        self.refusals = self.refusals.saturating_add(1);
        false
    }

    fn refusals(&self) -> u64 {
        self.refusals
    }
}
