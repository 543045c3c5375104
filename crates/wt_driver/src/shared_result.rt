//! A result that is set once, for all who wait for it.
ghost use Rattle.std.specs.Prelude.{◌≡◌, ◌↔◌, IsTrue};
ghost use Rattle.std.specs.Option.{option_copied};
ghost use Rattle.wt_driver.specs.Poll.{is_ready, poll_map};
ghost use Rattle.wt_driver.specs.SharedResult.{after_add_setter, after_leave_getter, after_leave_setter, after_set, after_subscribe, fresh, may_set, result_of};

use std::marker::Model;
use wt_turn::poll::Poll;

/// A result that several setters may set: the first `set` sets it, and it stays. It is the core of a
/// shared one, without a lock: who shares it puts it under a lock of their own.
///
/// It counts its setters and its getters. Where the last setter leaves before a `set`, there is no
/// result and never will be one. No call takes memory.
#[derive(Debug, Drop)]
pub struct SharedResult<T> {
    value: Option<T>,
    setters: u64,
    getters: u64,
}

impl<T> Model for SharedResult<T> {
    ghost use Rattle.wt_driver.specs.SharedResult.{Shared};

    ghost Value = { Shared T };

    ghost view = { λ shared. record {
      value = shared.value;
      setters = shared.setters;
      getters = shared.getters;
    } };
}

impl<T: Drop> SharedResult<T> {
    /// A result with one setter and no getter, which isn't set.
    pub fn new() -> SharedResult<T>
        ensures { result ≡ fresh }
    {
        SharedResult {
            value: None,
            setters: 1,
            getters: 0,
        }
    }

    /// Sets the result, where none is set and a setter is left; otherwise nothing changes and the
    /// value is gone. Answers whether it was set.
    pub fn set(&mut self, value: T) -> bool
        ensures answer { result ≡ may_set self.old }
        ensures state { self.new ≡ after_set value self.old }
    {
        // Getters that were answered None may have gone on without a value, so none may come later.
        if self.setters == 0 || self.value.is_some() {
            return false;
        }
        self.value = Some(value);
        true
    }

    /// One more getter. The count stands still at 2^64 - 1.
    pub fn subscribe(&mut self)
        ensures { self.new ≡ after_subscribe self.old }
    {
        // A count that wrapped would report a result as closed that still has getters.
        self.getters = self.getters.saturating_add(1);
    }

    /// One more setter, where one is left; otherwise nothing changes. The count stands still at
    /// 2^64 - 1.
    pub fn add_setter(&mut self)
        ensures { self.new ≡ after_add_setter self.old }
    {
        if self.setters > 0 {
            self.setters = self.setters.saturating_add(1);
        }
    }

    /// One setter fewer, where there is one.
    pub fn leave_setter(&mut self)
        ensures { self.new ≡ after_leave_setter self.old }
    {
        self.setters = self.setters.saturating_sub(1);
    }

    /// One getter fewer, where there is one.
    pub fn leave_getter(&mut self)
        ensures { self.new ≡ after_leave_getter self.old }
    {
        self.getters = self.getters.saturating_sub(1);
    }

    /// The value where it is set; None where it isn't and no setter is left; else Pending.
    pub fn result(&self) -> Poll<Option<&T>>
        ensures { poll_map option_copied result ≡ result_of self.now }
    {
        match &self.value {
            Some(value) => Poll::Ready(Some(value)),
            None if self.setters == 0 => Poll::Ready(None),
            None => Poll::Pending,
        }
    }

    /// Ready exactly where no getter is left.
    pub fn closed(&self) -> Poll<()>
        ensures { IsTrue (is_ready result) ↔ (self.now.getters ≡ 0) }
    {
        if self.getters == 0 {
            Poll::Ready(())
        } else {
            Poll::Pending
        }
    }
}
