//! Rule 4: on each stream that a reply handed out, what reads gave, joined, is a prefix of what follows the header; a read says that the
//! stream ended, or was reset, only once that came.

ghost use Rattle.std.specs.Prelude.{◌≡◌};
ghost use Rattle.wt_check.specs.Reads.{read_in};

use crate::by_id::ById;
use crate::facts::Facts;
use crate::front::Front;
use crate::queue::ByteQueue;
use crate::rules::accepts::handed_in;
use std::alloc::Global;
use wt_turn::call::Call;
use wt_turn::reply::Reply;
use wt_turn::stream_error::{StreamReadError, StreamReadExactError};
use wt_turn::turn::Turn;
use wt_wire::error::OutOfMemory;
use wt_wire::ids::StreamId;
use wt_wire::side::StreamEnd;

/// What is kept of a stream. Reads before a stream is handed out are judged as it is, so they may give bytes that come later.
#[derive(Drop)]
struct Body {
    is_handed_out: bool,
    /// What reads gave differs from what came, or an end was told that hadn't come.
    is_broken: bool,
    /// What came behind the header, and wasn't given.
    unread: ByteQueue,
    /// What was given, and didn't come. One of both is empty.
    owed: ByteQueue,
    end: StreamEnd,
}

/// What the rule keeps, by stream.
#[derive(Drop)]
pub struct ReadRule {
    alloc: Global,
    bodies: ById<Body>,
}

/// The stream that the turn reads.
fn read_in(turn: &Turn) -> Option<StreamId>
    ensures { result ≡ read_in turn.now }
{
    match turn {
        Turn::Call(Call::Read { id, size: _ } | Call::ReadExact { id, size: _ }) => Some(*id),
        _ => None,
    }
}

/// Whether what comes on the stream may be read: of the peer's streams only a session's.
fn is_readable(facts: &Facts, id: StreamId) -> bool {
    match facts.front(id) {
        Some(Front::WebTransport(_)) | None => true,
        Some(_) => false,
    }
}

impl Body {
    fn new(alloc: Global) -> Body {
        Body {
            is_handed_out: false,
            is_broken: false,
            unread: ByteQueue::new(alloc),
            owed: ByteQueue::new(alloc),
            end: StreamEnd::Running,
        }
    }

    /// Bytes came.
    fn come(&mut self, bytes: &[u8]) -> Result<(), OutOfMemory> {
        match self.owed.match_with(bytes) {
            Some(rest) => self.unread.push(rest),
            None => {
                self.is_broken = true;
                Ok(())
            }
        }
    }

    /// A read gave bytes.
    fn give(&mut self, bytes: &[u8]) -> Result<(), OutOfMemory> {
        match self.unread.match_with(bytes) {
            Some(rest) => self.owed.push(rest),
            None => {
                self.is_broken = true;
                Ok(())
            }
        }
    }

    /// A read said that the stream ended so.
    fn tell(&mut self, end: StreamEnd) {
        self.is_broken = self.is_broken || end != self.end;
    }

    /// A read said so after all bytes.
    fn tell_after_all(&mut self, end: StreamEnd) {
        self.tell(end);
        self.is_broken = self.is_broken || !self.unread.is_empty() || !self.owed.is_empty();
    }

    /// A read was answered so.
    fn take_reply(&mut self, reply: &Reply) -> Result<(), OutOfMemory> {
        match reply {
            Reply::Read(Some(piece))
            | Reply::Exact(piece)
            | Reply::ExactFailed(StreamReadExactError::FinishedEarly(_), piece) => {
                return self.give(piece.as_slice());
            }
            Reply::Read(None) => self.tell_after_all(StreamEnd::Fin),
            Reply::ReadFailed(StreamReadError::Reset(code)) => {
                self.tell_after_all(StreamEnd::Reset(*code));
            }
            Reply::ExactFailed(StreamReadExactError::Read(StreamReadError::Reset(code)), _) => {
                self.tell(StreamEnd::Reset(*code));
            }
            _ => {}
        }
        Ok(())
    }

    /// Whether the rule holds on the stream.
    fn holds(&self) -> bool {
        !self.is_handed_out || (!self.is_broken && self.owed.is_empty())
    }
}

impl ReadRule {
    /// Nothing came.
    pub fn new(alloc: Global) -> ReadRule {
        ReadRule {
            alloc,
            bodies: ById::new(alloc),
        }
    }

    /// Takes what is kept of a stream out.
    fn take_out(&mut self, id: StreamId) -> Body {
        match self.bodies.take(id) {
            Some(body) => body,
            None => Body::new(self.alloc),
        }
    }

    fn take_bytes(&mut self, id: StreamId, bytes: &[u8]) -> Result<(), OutOfMemory> {
        let mut body = self.take_out(id);
        body.come(bytes)?;
        self.bodies.put(id, body)
    }

    fn take_end(&mut self, id: StreamId, end: StreamEnd) -> Result<(), OutOfMemory> {
        let mut body = self.take_out(id);
        body.end = end;
        self.bodies.put(id, body)
    }

    fn take_turn(&mut self, facts: &Facts, turn: &Turn) -> Result<(), OutOfMemory> {
        if let Some((id, bytes)) = facts.bytes_in(turn) {
            if is_readable(facts, id) {
                return self.take_bytes(id, bytes);
            }
        }
        match facts.end_in(turn) {
            Some((id, end)) => self.take_end(id, end),
            None => Ok(()),
        }
    }

    /// Whether the rule holds on the stream where the turn's read was answered so.
    fn take_read(&mut self, id: StreamId, reply: &Reply) -> Result<bool, OutOfMemory> {
        let mut body = self.take_out(id);
        body.take_reply(reply)?;
        let holds = body.holds();
        self.bodies.put(id, body)?;
        Ok(holds)
    }

    /// Whether the rule holds on a stream that is handed out.
    fn hand_out(&mut self, id: StreamId) -> Result<bool, OutOfMemory> {
        let mut body = self.take_out(id);
        body.is_handed_out = true;
        let holds = body.holds();
        self.bodies.put(id, body)?;
        Ok(holds)
    }

    /// Whether the rule holds with this pair.
    pub fn holds(
        &mut self,
        facts: &Facts,
        turn: &Turn,
        reply: &Reply,
    ) -> Result<bool, OutOfMemory> {
        self.take_turn(facts, turn)?;
        let reads = match read_in(turn) {
            Some(id) => self.take_read(id, reply)?,
            None => true,
        };
        let hands_out = match handed_in(reply) {
            Some(id) => self.hand_out(id)?,
            None => true,
        };
        Ok(reads && hands_out)
    }
}
