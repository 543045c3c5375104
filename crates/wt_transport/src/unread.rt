//! The bytes of a stream that came and weren't read.
ghost use Rattle.std.specs.Prelude.{◌≡◌, ◌≤◌, ◌<◌, ◌+◌, ◌-◌, ◌++◌, [], length, min, take, drop, OnErr, OnOk};
ghost use Rattle.std.specs.List.{concat};
ghost use Rattle.std.specs.VecDeque.{deque_capacity, deque_len};
ghost use Rattle.wt_transport.specs.Pieces.{AreFilled, first_piece, skip, with_piece};

use bytes::Bytes;
use std::alloc::Global;
use std::collections::VecDeque;
use std::marker::Model;
use wt_wire::error::OutOfMemory;

/// For how many pieces a queue that is empty keeps room.
const ROOM_KEPT: usize = 4;

/// Unread bytes, in the shared pieces in which they came. Contracts see the list of the pieces.
#[derive(Debug, Drop)]
pub struct Unread {
    /// The pieces, none of them empty.
    pieces: VecDeque<Bytes<Global>>,
    /// How many bytes they have.
    count: u64,
}

impl Model for Unread {
    ghost use Rattle.std.specs.Prelude.{List, ℕ, length, ◌≡◌, ◌≤◌};
    ghost use Rattle.std.specs.List.{concat};
    ghost use Rattle.std.specs.VecDeque.{deque_capacity, deque_len};
    ghost use Rattle.wt_transport.specs.Pieces.{AreFilled};

    ghost Value = { List (List ℕ) };

    ghost view = { λ u. u.pieces.items };

    ghost invariant = { λ u. (AreFilled u.pieces.items) × (u.count ≡ length (concat u.pieces.items)) × (deque_len u.pieces ≡ 0 → deque_capacity u.pieces ≤ 4) };
}

impl Unread {
    /// No bytes.
    pub fn new(alloc: Global) -> Unread
        ensures { result ≡ [] }
    {
        Unread {
            pieces: VecDeque::from_vec(Vec::new(alloc)),
            count: 0,
        }
    }

    /// How many bytes are unread.
    pub fn count(&self) -> u64
        ensures { result ≡ length (concat self.now) }
    {
        self.count
    }

    /// How many pieces have an unread byte.
    pub fn pieces(&self) -> u64
        ensures { result ≡ length self.now }
    {
        // Read for the proof alone.
        let _pieces = &self.pieces;
        self.pieces.len() as u64
    }

    /// The unread bytes of the first piece.
    pub fn first(&self) -> &[u8]
        ensures piece { result.now ≡ first_piece self.now }
        ensures some { 0 < length (concat self.now) → 0 < length result.now }
    {
        match self.pieces.front() {
            Some(piece) => piece.as_slice(),
            None => &[],
        }
    }

    /// One more piece. Where no memory is there for it, nothing changes.
    #[tactic(auto, using(crate::proofs::PieceLaws::filled_pushed, crate::proofs::PieceLaws::length_push, crate::proofs::PieceLaws::more_piece, crate::proofs::PieceLaws::no_piece))]
    pub fn push(&mut self, piece: Bytes<Global>) -> Result<(), OutOfMemory>
        ensures ok { OnOk result (self.new ≡ with_piece self.old piece) }
        ensures err { OnErr result (self.new ≡ self.old) }
    {
        if piece.is_empty() {
            return Ok(());
        }
        // No stream has so many bytes (RFC 9000, section 4.5), and no memory; no clause says so of a turn.
        let Some(count) = self.count.checked_add(piece.len() as u64) else {
            return Err(OutOfMemory);
        };
        if self.pieces.push_back(piece).is_err() {
            give_room_back(&mut self.pieces);
            return Err(OutOfMemory);
        }
        self.count = count;
        Ok(())
    }

    /// Copies bytes into the buffer's front, as many as there are and fit, and returns how many. They stay
    /// unread.
    pub fn copy_to(&self, buffer: &mut [u8]) -> usize
        ensures count { result ≡ min (length buffer.old) (length (concat self.now)) }
        ensures bytes { buffer.new ≡ take result (concat self.now) ++ drop result buffer.old }
    {
        copy_pieces(&self.pieces, buffer)
    }

    /// Leaves out bytes in front. A piece of which none is left is dropped; so is the queue's room beyond a
    /// few pieces, once all of them are.
    #[tactic(auto, using(crate::proofs::PieceLaws::length_skip))]
    pub fn consume(&mut self, count: usize)
        requires { count ≤ length (concat self.old) }
        ensures { self.new ≡ skip count self.old }
    {
        skip_bytes(&mut self.pieces, count);
        self.count -= count as u64;
        give_room_back(&mut self.pieces);
    }

    /// Lets all bytes go, and the queue's room beyond a few pieces.
    pub fn clear(&mut self)
        ensures { self.new ≡ [] }
    {
        self.pieces.clear();
        self.count = 0;
        give_room_back(&mut self.pieces);
    }
}

/// Lets the room of an empty queue go, but for a few pieces.
fn give_room_back(pieces: &mut VecDeque<Bytes<Global>>)
    ensures items { pieces.new.items ≡ pieces.old.items }
    ensures len { deque_len pieces.new ≡ deque_len pieces.old }
    ensures room { deque_len pieces.new ≡ 0 → deque_capacity pieces.new ≤ 4 }
{
    if pieces.is_empty() && pieces.capacity() > ROOM_KEPT {
        pieces.shrink_to(0);
    }
}

/// Leaves out bytes in front of these pieces.
#[tactic(auto, using(crate::proofs::PieceLaws::skip_none))]
fn skip_bytes(pieces: &mut VecDeque<Bytes<Global>>, count: usize)
    requires { AreFilled pieces.old.items }
    ensures skipped { pieces.new.items ≡ skip count pieces.old.items }
    ensures filled { AreFilled pieces.new.items }
{
    let mut left = count;
    while left > 0 {
        match pieces.pop_front() {
            None => return,
            Some(mut piece) => {
                if left < piece.len() {
                    piece.advance(left);
                    pieces.push_front_reserved(piece);
                    return;
                }
                left -= piece.len();
            }
        }
    }
}

/// Copies bytes of these pieces into the buffer's front, as many as there are and fit, and returns how
/// many.
fn copy_pieces(pieces: &VecDeque<Bytes<Global>>, buffer: &mut [u8]) -> usize
    ensures count { result ≡ min (length buffer.old) (length (concat pieces.now.items)) }
    ensures bytes { buffer.new ≡ take result (concat pieces.now.items) ++ drop result buffer.old }
{
    let mut offset = 0;
    let mut index = 0;
    while index < pieces.len() {
        offset += copy_at(buffer, offset, pieces[index].as_slice());
        index += 1;
    }
    offset
}

/// Copies as many of these bytes as fit to this place of the buffer, and returns how many.
fn copy_at(buffer: &mut [u8], offset: usize, bytes: &[u8]) -> usize
    requires { offset ≤ length buffer.old }
    ensures count { result ≡ min (length bytes.now) (length buffer.old - offset) }
    ensures bytes { buffer.new ≡ take offset buffer.old ++ take result bytes.now ++ drop (offset + result) buffer.old }
{
    let count = bytes.len().min(buffer.len() - offset);
    buffer[offset..offset + count].copy_from_slice(&bytes[..count]);
    count
}
