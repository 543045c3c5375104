//! Sources and their copies.
ghost use Rattle.std.specs.Prelude.{◌≡◌, ◌≤◌, IfOk, length, true};
ghost use Rattle.std.specs.List.{list_any};
ghost use Rattle.wt_relay.specs.Progress.{rest_of};
ghost use Rattle.wt_relay.specs.Source.{copy_holds};
ghost use Rattle.wt_relay.specs.Copies.{are_across};
ghost use Rattle.wt_relay.specs.Rooms.{is_across};
ghost use Rattle.wt_relay.specs.declared.source.Progress.TheVariants.{Behind};

use crate::room::Member;
use std::alloc::Global;
use wt_turn::piece::Piece;
use wt_wire::error::OutOfMemory;
use wt_wire::ids::StreamId;

/// How far a copy is.
#[derive(Clone, Copy, PartialEq)]
pub enum Progress {
    /// It is being opened.
    Opening,
    /// All that was read of the source was accepted.
    Level,
    /// So many bytes of the piece were accepted, and more are left.
    Behind(usize),
    /// It is finished, reset or given up.
    Over,
}

/// A stream that a source is copied to.
#[derive(Clone, Copy)]
pub struct Copied {
    /// The session on which it was opened.
    pub member: Member,
    /// The stream.
    pub id: StreamId,
    /// How far it is.
    pub progress: Progress,
}

/// Whether the source isn't read until the copy gets on.
fn holds(copied: &Copied) -> bool
    ensures { result ≡ copy_holds copied.now }
{
    matches!(copied.progress, Progress::Opening | Progress::Behind(_))
}

/// Whether one of the copies holds the source.
fn is_held(copies: &[Copied]) -> bool
    ensures { result ≡ list_any copy_holds copies.now }
{
    copies.iter().any(holds)
}

/// A stream that is read, and its copies, in the order of opening.
#[derive(Drop)]
pub struct Source {
    alloc: Global,
    /// The session that gave it.
    pub member: Member,
    /// The stream.
    pub id: StreamId,
    /// It is asked no more.
    over: bool,
    /// What was read last, while a copy lacks some of it.
    piece: Piece,
    copies: Vec<Copied>,
    ghost across: { are_across member copies.items ≡ true },
    ghost little: { length piece ≤ 4096 },
}

impl Source {
    ghost use Rattle.wt_relay.specs.Source.{is_free};

    /// A source with no copy.
    pub fn new(alloc: Global, member: &Member, id: StreamId) -> Source {
        Source {
            alloc,
            member: *member,
            id,
            over: false,
            piece: Piece::new(alloc),
            copies: Vec::new(alloc),
        }
    }

    /// Its copies.
    pub fn copies(&self) -> &[Copied] {
        self.copies.as_slice()
    }

    /// Whether it may be read: no copy is being opened or lacks some of the piece.
    pub fn is_free(&self) -> bool
        ensures { result ≡ is_free self.now.over self.now.copies.items }
    {
        !self.over && !is_held(self.copies.as_slice())
    }

    /// One copy more, which is being opened, on another session of the room.
    ///
    /// # Errors
    ///
    /// `OutOfMemory` where the longer list found no memory.
    #[tactic(auto, using(crate::proofs::CopyLaws::across_more))]
    pub fn add_copy(&mut self, member: &Member, id: StreamId) -> Result<(), OutOfMemory>
        requires { is_across self.old.member member.now ≡ true }
    {
        self.copies.push(Copied {
            member: *member,
            id,
            progress: Progress::Opening,
        })?;
        Ok(())
    }

    /// The copy is so far now.
    pub fn set(&mut self, copy: usize, progress: Progress) {
        if copy < self.copies.len() {
            self.copies[copy].progress = progress;
        }
    }

    /// The copy accepted so many bytes more of the piece.
    pub fn accept(&mut self, copy: usize, count: usize) {
        let Some(Progress::Behind(accepted)) = self.progress(copy) else {
            return;
        };
        let accepted = accepted.saturating_add(count);
        if accepted < self.piece.as_slice().len() {
            self.set(copy, Progress::Behind(accepted));
        } else {
            self.set(copy, Progress::Level);
        }
    }

    /// What a copy lacks of the piece that accepted so many bytes of it.
    ///
    /// # Errors
    ///
    /// `OutOfMemory` where the bytes found no memory.
    pub fn rest(&self, accepted: usize) -> Result<Piece, OutOfMemory>
        ensures { IfOk result (λ rest. rest ≡ rest_of self.now.piece (Behind accepted)) }
    {
        match self.piece.as_slice().get(accepted..) {
            Some(rest) => Piece::from_slice(self.alloc, rest),
            None => Ok(Piece::new(self.alloc)),
        }
    }

    /// This piece was read, of which the copies have accepted nothing yet.
    pub fn take_piece(&mut self, piece: Piece)
        requires { length piece ≤ 4096 }
    {
        self.piece = piece;
        for copy in 0..self.copies.len() {
            if self.progress(copy) == Some(Progress::Level) {
                self.set(copy, Progress::Behind(0));
            }
        }
    }

    /// Keeps no piece.
    pub fn drop_piece(&mut self) {
        self.piece = Piece::new(self.alloc);
    }

    /// It is asked no more, and its copies are forgotten.
    pub fn end(&mut self) {
        self.over = true;
        self.piece = Piece::new(self.alloc);
        self.copies = Vec::new(self.alloc);
    }

    fn progress(&self, copy: usize) -> Option<Progress> {
        Some(self.copies.get(copy)?.progress)
    }
}
