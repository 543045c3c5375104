//! Bytes that wait to be matched.
ghost use Rattle.std.specs.Prelude.{◌≡◌, ◌++◌, ◌==◌, [], OnOk, drop, length};

use std::alloc::Global;
use std::marker::Model;
use wt_wire::error::OutOfMemory;

/// Bytes in their order: those in front are taken out first, and others are added at the end. Contracts see the list of them.
#[derive(Drop)]
pub struct ByteQueue {
    bytes: Vec<u8>,
    /// How many in front were taken out.
    start: usize,
}

impl Model for ByteQueue {
    ghost use Rattle.std.specs.Prelude.{List, ℕ, ◌≤◌, drop, length};

    ghost Value = { List ℕ };

    ghost view = { λ q. drop q.start q.bytes.items };

    ghost invariant = { λ q. q.start ≤ length q.bytes.items };
}

impl ByteQueue {
    /// No bytes.
    pub fn new(alloc: Global) -> ByteQueue
        ensures { result ≡ [] }
    {
        ByteQueue::from_vec(Vec::new(alloc))
    }

    /// These bytes.
    pub fn from_vec(bytes: Vec<u8>) -> ByteQueue
        ensures { result ≡ bytes.items }
    {
        ByteQueue { bytes, start: 0 }
    }

    /// The bytes.
    pub fn as_slice(&self) -> &[u8]
        ensures { result.now ≡ self.now }
    {
        &self.bytes[self.start..]
    }

    /// Whether there are none.
    pub fn is_empty(&self) -> bool
        ensures { result ≡ (length self.now == 0) }
    {
        self.as_slice().is_empty()
    }

    /// Gives the room of bytes that were taken out back, where that moves fewer than those.
    fn make_room(&mut self)
        ensures { self.new ≡ self.old }
    {
        if self.start > self.bytes.len() - self.start {
            drop(self.bytes.drain(..self.start));
            self.start = 0;
        }
    }

    /// Adds bytes at the end.
    pub fn push(&mut self, piece: &[u8]) -> Result<(), OutOfMemory>
        ensures { OnOk result (self.new ≡ self.old ++ piece.now) }
    {
        self.make_room();
        self.bytes.extend_from_slice(piece)?;
        Ok(())
    }

    /// Takes bytes out against a piece, as long as both last, and returns what is left of the piece; None where they differ.
    pub fn match_with<'a>(&mut self, piece: &'a [u8]) -> Option<&'a [u8]> {
        let count = self.as_slice().len().min(piece.len());
        if self.as_slice()[..count] != piece[..count] {
            return None;
        }
        self.start += count;
        Some(&piece[count..])
    }

    /// Takes so many bytes out of the front; all, where there are fewer.
    pub fn take_out(&mut self, count: usize)
        ensures { self.new ≡ drop count self.old }
    {
        self.start += count.min(self.as_slice().len());
    }

    /// Takes a piece out of the front; false where it isn't there.
    pub fn take_front(&mut self, piece: &[u8]) -> bool {
        match self.match_with(piece) {
            Some(rest) => rest.is_empty(),
            None => false,
        }
    }
}
