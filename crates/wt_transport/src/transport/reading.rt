//! What came for streams, as their readers take it. Nothing here takes memory.
ghost use Rattle.std.specs.Prelude.{◌≡◌, ◌<◌, ◌≤◌, ◌^◌, ◌-◌, ◌++◌, [], IsTrue, length, min, take, drop, false};
ghost use Rattle.wt_turn.specs.Log.{events_of};
ghost use Rattle.wt_wire.specs.declared.side.StreamEnd.{StreamEnd};
ghost use Rattle.wt_wire.specs.declared.side.StreamEnd.TheVariants as ends;
ghost use Rattle.wt_turn.specs.Streams.{can_receive};
ghost use Rattle.wt_turn.specs.Reports.{end_of};
ghost use Rattle.wt_transport.specs.Pieces.{first_piece};
ghost use Rattle.wt_turn.specs.Unread.{GivenUp, IsFront, position_after, given_up, unread};
ghost use Rattle.wt_transport.specs.StreamState.{piece_count};
ghost use Rattle.wt_transport.specs.Deciding.{read_decision, taken};
ghost use Rattle.wt_transport.specs.Rules.{receiving_half_now};
ghost use Rattle.wt_transport.specs.OfLog.{OfEachLog, Tells, TellsUnread};
ghost use Rattle.wt_transport.specs.State.{Refines};
ghost use Rattle.wt_transport.specs.Step.{after_consume, after_give_up, can_receive_now, end_now, pieces_now, unread_now};

use super::Transport;
use crate::decision::Decision;
use crate::kind::{index_of, kind_of};
use crate::row::Row;
use wt_turn::stream_error::StreamReadError;
use wt_wire::ids::StreamId;
use wt_wire::side::StreamEnd;

impl Transport {
    /// Unread bytes of a stream, from the first one on: those of the first piece. There are none where
    /// nothing is unread, as where the stream has no receiving half.
    pub fn peek(&self, id: StreamId) -> &[u8]
        ensures now { result.now ≡ first_piece (pieces_now self.now id) }
        ensures some { 0 < length (unread_now self.now id) → 0 < length result.now }
        ensures log { TellsUnread self.now (λ side log position. IsFront result.now (unread log position id)) }
        ensures no_half { Tells self.now (λ side log. can_receive side log id ≡ false → result.now ≡ []) }
    {
        if self.has(id) {
            self.stream(id).unread.first()
        } else {
            &[]
        }
    }

    /// How many bytes of a stream are unread.
    pub fn unread(&self, id: StreamId) -> u64
        ensures now { result ≡ length (unread_now self.now id) }
        ensures log { TellsUnread self.now (λ side log position. result ≡ length (unread log position id)) }
        ensures no_half { Tells self.now (λ side log. can_receive side log id ≡ false → result ≡ 0) }
    {
        if self.has(id) {
            self.stream(id).unread.count()
        } else {
            0
        }
    }

    /// How many bytes are kept of a stream: those that are unread.
    pub fn held(&self, id: StreamId) -> u64
        ensures now { result ≡ length (unread_now self.now id) }
        ensures log { TellsUnread self.now (λ side log position. result ≡ length (unread log position id)) }
    {
        self.unread(id)
    }

    /// Of how many pieces an unread byte is kept, over all streams. The count stands still at its
    /// type's end.
    pub fn pieces(&self) -> u64
        ensures now { result ≡ min (piece_count self.now.streams) (2 ^ 64 - 1) }
    {
        let rows: &[Row] = &self.rows;
        let mut count: u64 = 0;
        for row in rows {
            count = count.saturating_add(row.pieces());
        }
        count
    }

    /// Reads n bytes of a stream.
    pub fn consume(&mut self, id: StreamId, count: usize)
        requires { count ≤ length (unread_now self.old id) }
        ensures now { self.new ≡ after_consume self.old id count }
        ensures log { OfEachLog self.old (λ side log position uncollected. Refines side self.new log (position_after position id count) uncollected) }
    {
        if self.has(id) {
            self.rows[kind_of(id)]
                .stream_mut(index_of(id))
                .consume(count);
        }
    }

    /// Reads unread bytes into the buffer's front, once this many are there.
    #[tactic(auto, using(crate::proofs::Decisions::read_within))]
    pub(crate) fn read(
        &mut self,
        id: StreamId,
        buffer: &mut [u8],
        least: usize,
    ) -> Decision<StreamReadError>
        requires { least ≤ length buffer.old }
        ensures decision { result ≡ read_decision self.old.is_open (receiving_half_now self.old id) least (length buffer.old) }
        ensures bytes { buffer.new ≡ take (taken result) (unread_now self.old id) ++ drop (taken result) buffer.old }
        ensures state { self.new ≡ after_consume self.old id (taken result) }
    {
        let decision = decide_read(
            self.is_open,
            self.unread(id),
            &self.end(id),
            least,
            buffer.len(),
        );
        let count = decision.taken();
        self.copy_front(id, &mut buffer[..count]);
        self.consume(id, count);
        decision
    }

    /// Fills the buffer with unread bytes, which stay unread.
    fn copy_front(&self, id: StreamId, buffer: &mut [u8])
        requires { length buffer.old ≤ length (unread_now self.now id) }
        ensures { buffer.new ≡ take (length buffer.old) (unread_now self.now id) }
    {
        if self.has(id) {
            self.stream(id).unread.copy_to(buffer);
        }
    }

    /// Gives a receiving half up: its bytes are dropped, and so are those that come later. Nothing changes
    /// where the stream isn't there or has no receiving half, or where it was given up before.
    pub fn give_up(&mut self, id: StreamId)
        ensures now { IsTrue (can_receive_now self.old id) → self.new ≡ after_give_up self.old id }
        ensures no_half { can_receive_now self.old id ≡ false → self.new ≡ self.old }
        ensures log { IsTrue (can_receive_now self.old id)
            → OfEachLog self.old (λ side log position uncollected. Refines side self.new log (given_up position id) uncollected) }
        ensures again { TellsUnread self.old (λ side log position. position id ≡ GivenUp → self.new ≡ self.old) }
    {
        if self.can_receive(id) {
            self.rows[kind_of(id)].stream_mut(index_of(id)).give_up();
        }
    }

    /// How a receiving half ended; Running where there is none (RFC 9000, section 3.2).
    pub fn end(&self, id: StreamId) -> StreamEnd
        ensures now { result ≡ end_now self.now id }
        ensures log { Tells self.now (λ side log. result ≡ end_of (events_of log) id) }
        ensures no_half { Tells self.now (λ side log. can_receive side log id ≡ false → result ≡ ends.Running) }
    {
        if self.has(id) {
            self.stream(id).ended()
        } else {
            StreamEnd::Running
        }
    }
}

/// What a read of at most so many bytes comes to that waits for the least number of them.
fn decide_read(
    is_open: bool,
    unread: u64,
    end: &StreamEnd,
    least: usize,
    size: usize,
) -> Decision<StreamReadError>
    ensures { result ≡ read_decision is_open (record { unread = unread; end = end.now }) least size }
{
    // What came is given before the end or the loss that came after it.
    if unread >= least as u64 {
        return Decision::Take(size.min(unread as usize));
    }
    match end {
        StreamEnd::Fin => Decision::Take(unread as usize),
        StreamEnd::Reset(code) => Decision::Refused(StreamReadError::Reset(*code)),
        StreamEnd::Running => {
            if is_open {
                Decision::Wait
            } else {
                Decision::Refused(StreamReadError::NotConnected)
            }
        }
    }
}
