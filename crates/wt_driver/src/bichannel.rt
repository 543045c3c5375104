//! A channel between two ends, with a queue of bounded length each way.
ghost use Rattle.std.specs.Prelude.{◌≡◌, ◌≤◌, [], ◌∷◌, ◌++◌, IfOk, length, nat_le, if◌then◌else◌};
ghost use Rattle.wt_driver.specs.BiChannel.{HasRoom, after_leave, after_recv, after_send, empty_channel, is_closed, recv_answer, send_answer, try_send_answer};

use std::alloc::Global;
use std::collections::VecDeque;
use std::marker::Model;
use thiserror::Error;
use wt_turn::poll::Poll;
use wt_wire::error::OutOfMemory;

/// One of the two ends of a channel.
#[derive(Clone, Copy, Debug, PartialEq, Eq)]
pub enum ChannelEnd {
    /// The one end.
    Left,
    /// The other end.
    Right,
}

/// Why a value wasn't sent; it carries the value.
#[derive(Debug, PartialEq, Eq, Drop, Error)]
pub enum TrySendError<T> {
    /// The queue to the other end holds as many values as it may.
    #[error("channel full")]
    Full(T),
    /// One of the two ends left.
    #[error("channel closed")]
    Closed(T),
}

/// What became of a value that is sent.
#[derive(Debug, PartialEq, Eq, Drop)]
pub enum SendOutcome<T> {
    /// The value was sent.
    Sent,
    /// The queue to the other end holds as many values as it may; here is the value.
    NotYet(T),
    /// One of the two ends left, and the value is gone.
    Closed,
}

/// A channel between two ends: what one end sends, the other receives, in order. It is the core of a
/// shared one, without a lock: who shares it puts it under a lock of their own.
///
/// Each way it holds as many values as its capacity says, and no more. Once one of the ends left,
/// nothing more is sent, and what was sent before is still received.
#[derive(Debug, Drop)]
pub struct BiChannel<T> {
    capacity: usize,
    to_left: VecDeque<T>,
    to_right: VecDeque<T>,
    has_left_gone: bool,
    has_right_gone: bool,
}

impl<T> Model for BiChannel<T> {
    ghost use Rattle.wt_driver.specs.BiChannel.{Channel};

    ghost Value = { Channel T };

    ghost view = { λ c. record {
      capacity = c.capacity;
      left = record { queue = c.to_left.items; has_left = c.has_left_gone };
      right = record { queue = c.to_right.items; has_left = c.has_right_gone };
    } };

    ghost use Rattle.wt_driver.specs.BiChannel.{HasRoom};

    ghost invariant = { λ c. HasRoom c.capacity c.to_left × HasRoom c.capacity c.to_right };
}

/// Puts the value at the queue's end, or gives it back where the queue is full.
fn push_below<T>(queue: &mut VecDeque<T>, capacity: usize, value: T) -> Result<(), T>
    requires { HasRoom capacity queue.old }
    ensures answer { result ≡ (if nat_le capacity (length queue.old.items) then Err value else Ok tt) }
    ensures items { queue.new.items ≡ (if nat_le capacity (length queue.old.items) then queue.old.items else queue.old.items ++ value ∷ []) }
    ensures room { HasRoom capacity queue.new }
{
    if queue.len() >= capacity {
        return Err(value);
    }
    // Its memory was taken with the channel, so a send never runs out of it.
    queue.push_back_reserved(value);
    Ok(())
}

impl<T: Drop> BiChannel<T> {
    /// A channel of this capacity each way, in which nothing was sent.
    pub(crate) fn new(alloc: Global, capacity: usize) -> Result<BiChannel<T>, OutOfMemory>
        ensures { IfOk result (λ channel. channel ≡ empty_channel capacity) }
    {
        Ok(BiChannel {
            capacity,
            to_left: VecDeque::with_capacity(alloc, capacity)?,
            to_right: VecDeque::with_capacity(alloc, capacity)?,
            has_left_gone: false,
            has_right_gone: false,
        })
    }

    /// Whether one of the two ends left.
    fn is_closed(&self) -> bool
        ensures { result ≡ is_closed self.now }
    {
        self.has_left_gone || self.has_right_gone
    }

    /// Sends a value from this end to the other.
    ///
    /// # Errors
    ///
    /// `Closed` exactly where one of the two ends left; otherwise `Full` exactly where the queue to
    /// the other end holds as many values as the capacity says. Both carry the value, and nothing
    /// changes.
    pub fn try_send(&mut self, end: ChannelEnd, value: T) -> Result<(), TrySendError<T>>
        ensures answer { result ≡ try_send_answer end value self.old }
        ensures state { self.new ≡ after_send end value self.old }
    {
        if self.is_closed() {
            return Err(TrySendError::Closed(value));
        }
        let pushed = match end {
            ChannelEnd::Left => push_below(&mut self.to_right, self.capacity, value),
            ChannelEnd::Right => push_below(&mut self.to_left, self.capacity, value),
        };
        match pushed {
            Ok(()) => Ok(()),
            Err(value) => Err(TrySendError::Full(value)),
        }
    }

    /// Sends a value from this end to the other: `Closed` exactly where one of the two ends left,
    /// otherwise `NotYet` with the value exactly where the queue to the other end holds as many
    /// values as the capacity says, else `Sent`. Only with `Sent` something changes.
    pub fn send(&mut self, end: ChannelEnd, value: T) -> SendOutcome<T>
        ensures answer { result ≡ send_answer end value self.old }
        ensures state { self.new ≡ after_send end value self.old }
    {
        match self.try_send(end, value) {
            Ok(()) => SendOutcome::Sent,
            Err(TrySendError::Full(value)) => SendOutcome::NotYet(value),
            Err(TrySendError::Closed(_)) => SendOutcome::Closed,
        }
    }

    /// Receives the oldest value that was sent to this end. Where there is none, it answers None
    /// where one of the two ends left, else Pending.
    pub fn recv(&mut self, end: ChannelEnd) -> Poll<Option<T>>
        ensures answer { result ≡ recv_answer end self.old }
        ensures state { self.new ≡ after_recv end self.old }
    {
        let received = match end {
            ChannelEnd::Left => self.to_left.pop_front(),
            ChannelEnd::Right => self.to_right.pop_front(),
        };
        match received {
            Some(value) => Poll::Ready(Some(value)),
            // What was sent before an end left is received first.
            None if self.is_closed() => Poll::Ready(None),
            None => Poll::Pending,
        }
    }

    /// This end leaves. A second time it changes nothing.
    pub fn leave(&mut self, end: ChannelEnd)
        ensures { self.new ≡ after_leave end self.old }
    {
        match end {
            ChannelEnd::Left => self.has_left_gone = true,
            ChannelEnd::Right => self.has_right_gone = true,
        }
    }
}
