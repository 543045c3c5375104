//! Items that are read from a stream, each up to its last byte.
ghost use Rattle.std.specs.Prelude.{◌≡◌, ◌<◌, ◌≤◌, ◌&&◌, ◌==◌, ℕ, [], ◌∷◌, List, Option, length, take, IfOk, IsTrue, OnErr, OnOk, is_some, false, true};
ghost use Rattle.std.specs.Prelude.{Result};
ghost use Rattle.wt_wire.specs.declared.error.ErrorCode.{ErrorCode};
ghost use Rattle.wt_proto.specs.declared.walk.Step.{Step};
ghost use Rattle.wt_proto.specs.WalkProgress.{Advances, at_item, progress_over, reached_in};
ghost use Rattle.wt_proto.specs.Steady.{IsSteady};
ghost use Rattle.wt_transport.specs.Step.{can_receive_now, unread_now};
ghost use Rattle.wt_seam.specs.Reading.{Took, after_read, answer_at_end, is_over, reached_answer};
ghost use Rattle.wt_seam.specs.Reads.{FailedReadTakes, ReadAnswers, ReadAnswersSince, ReadLeaves, ReadTakes};

use std::alloc::Global;
use std::marker::Model;
use wt_proto::walk::Step;
use wt_transport::Transport;
use wt_turn::poll::Poll;
use wt_turn::proto_error::{IoReadError, ProtoReadError};
use wt_wire::error::{ErrorCode, OutOfMemory};
use wt_wire::ids::StreamId;
use wt_wire::side::StreamEnd;

/// What items stand on a stream, one after the other. What the item at the front does is decided by the
/// state that the items before it left and by its own bytes alone: it is skipped, or it stops the reader
/// with what is given, or with a fault.
pub trait Grammar {
    /// What the items before leave.
    type State: Drop;
    /// What is given.
    type Item: Drop;

    // what the item at the front does
    ghost decides: { Self.State → List ℕ → Step Self.State (Result Self.Item ErrorCode) };

    /// What the item at the front does.
    fn step(
        alloc: Global,
        state: &Self::State,
        bytes: &[u8],
    ) -> Result<Step<Self::State, Result<Self::Item, ErrorCode>>, OutOfMemory>
        ensures { IfOk result (λ step. step ≡ decides state.now bytes.now) };
}

/// A reader of the items of a stream. It takes no byte after the item that it gives, and keeps the bytes
/// of an item that isn't whole. Contracts see how far the walk over the items is.
#[derive(Drop)]
pub struct ItemReader<G: Grammar> {
    pub(crate) state: G::State,
    pub(crate) stop: Option<Result<G::Item, ErrorCode>>,
    pub(crate) skip: u64,
    pub(crate) kept: Vec<u8>,
}

impl<G: Grammar> Model for ItemReader<G> {
    ghost use Rattle.std.specs.Prelude.{Result};
    ghost use Rattle.wt_wire.specs.declared.error.ErrorCode.{ErrorCode};
    ghost use Rattle.wt_proto.specs.WalkProgress.{WalkProgress};
    ghost use Rattle.wt_seam.specs.Reading.{IsReader};

    ghost Value = { WalkProgress G.State (Result G.Item ErrorCode) };

    ghost view = { λ r. record { state = r.state; stop = r.stop; skip = r.skip; kept = r.kept.items } };

    ghost invariant = { λ r. IsReader G.decides (record { state = r.state; stop = r.stop; skip = r.skip; kept = r.kept.items }) };
}

/// What is answered where the bytes end before an item is whole.
fn ended<T>(is_open: bool, end: StreamEnd, between: bool) -> Poll<Result<T, ProtoReadError>>
    ensures { result ≡ answer_at_end is_open end between }
{
    let error = match end {
        StreamEnd::Running if is_open => return Poll::Pending,
        // What came before the connection ended is read first; only then is its end the answer.
        StreamEnd::Running => IoReadError::NotConnected,
        StreamEnd::Fin if between => IoReadError::ImmediateFin,
        StreamEnd::Fin => IoReadError::UnexpectedFin,
        StreamEnd::Reset(_) => IoReadError::Reset,
    };
    Poll::Ready(Err(ProtoReadError::IO(error)))
}

/// The next unread byte of a stream that has one.
fn next_byte(t: &Transport, id: StreamId) -> u8
    requires some { 0 < length (unread_now t.now id) }
    ensures byte { result ∷ [] ≡ take 1 (unread_now t.now id) }
{
    let piece = t.peek(id);
    piece[0]
}

impl<G: Grammar> ItemReader<G> {
    /// A reader that took no bytes.
    pub(crate) fn new(alloc: Global, state: G::State) -> Self
        requires { IsSteady G.decides }
        ensures { result ≡ at_item state }
    {
        ItemReader {
            state,
            stop: None,
            skip: 0,
            kept: Vec::new(alloc),
        }
    }

    /// Where its memory comes from.
    pub(crate) fn allocator(&self) -> Global {
        *self.kept.allocator()
    }

    fn is_over(&self) -> bool
        ensures { result ≡ is_over self.now }
    {
        self.stop.is_some() && self.skip == 0
    }

    /// Skips `count` bytes.
    fn skip_some(&mut self, count: u64)
        requires some { 1 ≤ count }
        requires within { count ≤ self.old.skip }
        ensures advances { (piece : List ℕ) → count ≤ length piece → Advances G.decides self.old self.new piece count }
    {
        self.skip -= count;
    }

    /// Takes one more byte of an item.
    fn keep(&mut self, byte: u8) -> Result<(), OutOfMemory>
        requires bare { self.old.skip ≡ 0 }
        requires goes { is_some self.old.stop ≡ false }
        ensures advances { OnOk result ((later : List ℕ) → Advances G.decides self.old self.new (byte ∷ later) 1) }
        ensures err { OnErr result (self.new ≡ self.old) }
    {
        // Byte by byte: the item's last byte has to be known, as nothing after it may be taken.
        self.kept.push(byte)?;
        let alloc = *self.kept.allocator();
        match G::step(alloc, &self.state, self.kept.as_slice()) {
            Err(error) => {
                self.kept.pop();
                return Err(error);
            }
            Ok(Step::Cut) => {}
            Ok(Step::Goes(moved, size)) => {
                self.state = moved;
                self.skip = size - self.kept.as_slice().len() as u64;
                self.kept.clear();
            }
            Ok(Step::Stops(outcome, size)) => {
                self.stop = Some(outcome);
                self.skip = size - self.kept.as_slice().len() as u64;
                self.kept.clear();
            }
        }
        Ok(())
    }

    /// Takes unread bytes of the stream up to the end of the first item that stops the reader, else all
    /// of them, and returns how many.
    fn take_unread(&mut self, t: &mut Transport, id: StreamId) -> Result<u64, OutOfMemory>
        requires { IsTrue (can_receive_now t.old id) }
        ensures took { IfOk result (λ n. Took G.decides self.old self.new t.old t.new id n) }
        ensures err { FailedReadTakes G.decides self.old self.new t.old t.new id result }
    {
        // Read for the proof alone, which takes the reader's invariant from here.
        let _ = &self.state;
        let unread = t.unread(id);
        let mut consumed = 0;
        while consumed < unread && !self.is_over() {
            if self.skip > 0 {
                let count = self.skip.min(unread - consumed);
                t.consume(id, count as usize);
                self.skip_some(count);
                consumed += count;
            } else {
                let byte = next_byte(t, id);
                match self.keep(byte) {
                    Ok(()) => {
                        t.consume(id, 1);
                        consumed += 1;
                    }
                    // the byte that isn't kept stays unread
                    Err(error) => return Err(error),
                }
            }
        }
        Ok(consumed)
    }

    /// What the reader has to give, and otherwise why it has nothing. What is given is handed out.
    fn answer(&mut self, is_open: bool, end: StreamEnd) -> Poll<Result<G::Item, ProtoReadError>>
        ensures answer { result ≡ reached_answer is_open end (reached_in self.old) }
        ensures left { self.new ≡ after_read self.old }
    {
        if !self.is_over() {
            return ended(is_open, end, self.skip == 0 && self.kept.is_empty());
        }
        match self.stop.take() {
            Some(Ok(given)) => Poll::Ready(Ok(given)),
            Some(Err(fault)) => {
                // A fault is of the whole stream, so each later read answers it too.
                self.stop = Some(Err(fault));
                Poll::Ready(Err(ProtoReadError::H3(fault)))
            }
            None => unreachable!(),
        }
    }

    /// Reads the next item that is given.
    pub(crate) fn poll(
        &mut self,
        t: &mut Transport,
        id: StreamId,
    ) -> Result<Poll<Result<G::Item, ProtoReadError>>, OutOfMemory>
        requires { IsTrue (can_receive_now t.old id) }
        ensures answer { ReadAnswers G.decides self.old t.old id result }
        ensures begun { (state : G.State) → ReadAnswersSince G.decides state self.old t.old id result }
        ensures left { ReadLeaves G.decides self.old self.new t.old id result }
        ensures took { ReadTakes G.decides self.old t.old t.new id result }
        ensures err { FailedReadTakes G.decides self.old self.new t.old t.new id result }
    {
        // Read for the proof alone, which takes the reader's invariant from here.
        let _ = &self.state;
        let is_open = t.is_open();
        let end = t.end(id);
        match self.take_unread(t, id) {
            Ok(_) => Ok(self.answer(is_open, end)),
            Err(error) => Err(error),
        }
    }
}
