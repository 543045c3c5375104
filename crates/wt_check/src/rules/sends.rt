//! Rule 6: what went out on a stream that was opened for a session, or on a bidirectional one that was accepted, is a prefix of the stream's
//! header, where this side opened it, followed by what writes accepted.

use crate::by_id::ById;
use crate::facts::Facts;
use crate::queue::ByteQueue;
use std::alloc::Global;
use wt_turn::action::Action;
use wt_turn::answer::Answer;
use wt_turn::call::Call;
use wt_turn::reply::Reply;
use wt_turn::turn::Turn;
use wt_wire::error::OutOfMemory;
use wt_wire::ids::{SessionId, StreamId};
use wt_wire::side::Side;
use wt_wire::varint::{VarInt, write_varint};

/// The type of a session's unidirectional stream (draft-ietf-webtrans-http3, section 4.2).
const UNI_TYPE: u32 = 0x54;

/// The signal of a session's bidirectional stream (draft-ietf-webtrans-http3, section 4.3).
const BI_SIGNAL: u32 = 0x41;

/// The most bytes of a header. Two headers of one stream differ within the shorter one, so a stream on which more went out keeps its
/// session.
const LONGEST_HEADER: usize = 10;

/// What is kept of a stream's sending half.
#[derive(Drop)]
struct Half {
    /// The rule stands on it.
    is_watched: bool,
    /// The session for which this side opened it.
    session: Option<SessionId>,
    /// What went out, until no other header can come.
    out: Vec<u8>,
    is_settled: bool,
    /// What writes accepted; once the rule stands, of the header and that what didn't go out.
    left: ByteQueue,
}

/// What the rule keeps, by stream.
#[derive(Drop)]
pub struct SendRule {
    alloc: Global,
    halves: ById<Half>,
}

/// Of the bytes of a write, those that the reply accepts.
fn part_of<'a>(reply: &Reply, bytes: &'a [u8]) -> &'a [u8] {
    match reply {
        Reply::Written(count) | Reply::Count(count) => {
            &bytes[..(*count).min(bytes.len() as u64) as usize]
        }
        Reply::AllWritten => bytes,
        _ => &[],
    }
}

/// The stream that the turn writes to, and those of its bytes that the reply accepts.
fn accepted_by<'a>(turn: &'a Turn, reply: &Reply) -> Option<(StreamId, &'a [u8])> {
    match turn {
        Turn::Call(Call::Write { id, bytes } | Call::WriteAll { id, bytes }) => {
            Some((*id, part_of(reply, bytes.as_slice())))
        }
        _ => None,
    }
}

/// The stream that the pair begins to open.
fn opened_by(turn: &Turn, reply: &Reply) -> Option<StreamId> {
    match (turn, reply) {
        (Turn::Call(Call::OpenUni { .. } | Call::OpenBi { .. }), Reply::Opening(id)) => Some(*id),
        _ => None,
    }
}

/// The stream on which the rule stands from this reply on.
fn watched_in(reply: &Reply) -> Option<StreamId> {
    match reply {
        Reply::Uni(id) if id.is_bidirectional() => Some(*id),
        Reply::Bi(id) | Reply::SendReady(id) | Reply::BiReady(id) => Some(*id),
        _ => None,
    }
}

/// The header of a stream that this side opened for a session.
fn header(alloc: Global, id: StreamId, session: Option<SessionId>) -> Result<Vec<u8>, OutOfMemory> {
    let mut bytes = Vec::new(alloc);
    if let Some(session) = session {
        let kind = if id.is_bidirectional() {
            BI_SIGNAL
        } else {
            UNI_TYPE
        };
        write_varint(VarInt::from_u32(kind), &mut bytes)?;
        write_varint(session.session_stream().into_varint(), &mut bytes)?;
    }
    Ok(bytes)
}

impl Half {
    fn new(alloc: Global) -> Half {
        Half {
            is_watched: false,
            session: None,
            out: Vec::new(alloc),
            is_settled: false,
            left: ByteQueue::new(alloc),
        }
    }

    /// Whether what went out stands in front of this header and what was accepted, of which nothing is taken out.
    fn begin(&mut self, header: Vec<u8>) -> Result<bool, OutOfMemory> {
        let mut all = header;
        all.extend_from_slice(self.left.as_slice())?;
        self.left = ByteQueue::from_vec(all);
        Ok(self.left.take_front(self.out.as_slice()))
    }

    /// What went out isn't kept once no other header can come: on the peer's streams, and where more went out than a header takes.
    fn settle(&mut self, is_local: bool) {
        let has_header = self.session.is_some() && self.out.len() > LONGEST_HEADER;
        if self.is_watched && (!is_local || has_header) {
            self.out.clear();
            self.is_settled = true;
        }
    }

    /// Whether these bytes may go out next.
    fn send(&mut self, is_local: bool, piece: &[u8]) -> Result<bool, OutOfMemory> {
        let holds = !self.is_watched || self.left.take_front(piece);
        if !self.is_settled {
            self.out.extend_from_slice(piece)?;
            self.settle(is_local);
        }
        Ok(holds)
    }

    /// The rule stands on the stream: whether it holds of what went out.
    fn watch(&mut self, alloc: Global, is_local: bool, id: StreamId) -> Result<bool, OutOfMemory> {
        if self.is_watched {
            return Ok(true);
        }
        self.is_watched = true;
        let holds = self.begin(header(alloc, id, self.session)?)?;
        self.settle(is_local);
        Ok(holds)
    }

    /// What writes accepted, all of it, of a stream that is watched.
    fn accepted(&self, alloc: Global, id: StreamId) -> Result<ByteQueue, OutOfMemory> {
        let count = header(alloc, id, self.session)?.len();
        let mut all = Vec::from_slice(alloc, self.out.as_slice())?;
        all.extend_from_slice(self.left.as_slice())?;
        let mut accepted = ByteQueue::from_vec(all);
        accepted.take_out(count);
        Ok(accepted)
    }

    /// This side opens the stream for a session: whether the rule holds then.
    fn open(
        &mut self,
        alloc: Global,
        id: StreamId,
        session: SessionId,
    ) -> Result<bool, OutOfMemory> {
        if self.session == Some(session) {
            return Ok(true);
        }
        if !self.is_watched {
            self.session = Some(session);
            return Ok(true);
        }
        if self.is_settled {
            return Ok(false);
        }
        self.left = self.accepted(alloc, id)?;
        self.session = Some(session);
        let holds = self.begin(header(alloc, id, self.session)?)?;
        self.settle(true);
        Ok(holds)
    }
}

impl SendRule {
    /// Nothing went out.
    pub fn new(alloc: Global) -> SendRule {
        SendRule {
            alloc,
            halves: ById::new(alloc),
        }
    }

    /// Takes what is kept of a stream out.
    fn take_out(&mut self, id: StreamId) -> Half {
        match self.halves.take(id) {
            Some(half) => half,
            None => Half::new(self.alloc),
        }
    }

    /// A write is answered: of its bytes these are accepted.
    fn accept(&mut self, id: StreamId, bytes: &[u8]) -> Result<(), OutOfMemory> {
        let mut half = self.take_out(id);
        half.left.push(bytes)?;
        self.halves.put(id, half)
    }

    /// Whether the rule still holds where this side opens a stream for a session.
    fn open(&mut self, id: StreamId, session: SessionId) -> Result<bool, OutOfMemory> {
        let mut half = self.take_out(id);
        let holds = half.open(self.alloc, id, session)?;
        self.halves.put(id, half)?;
        Ok(holds)
    }

    /// Whether these bytes may go out.
    fn send(&mut self, side: Side, id: StreamId, piece: &[u8]) -> Result<bool, OutOfMemory> {
        let mut half = self.take_out(id);
        let holds = half.send(id.is_local(side), piece)?;
        self.halves.put(id, half)?;
        Ok(holds)
    }

    /// Whether what goes out may go out.
    fn take_actions(&mut self, side: Side, actions: &[Action]) -> Result<bool, OutOfMemory> {
        let mut holds = true;
        for action in actions {
            if let Action::Send { id, piece } = action {
                holds = self.send(side, *id, piece.as_slice())? && holds;
            }
        }
        Ok(holds)
    }

    /// Whether the rule holds on a stream from now on.
    fn watch(&mut self, side: Side, id: StreamId) -> Result<bool, OutOfMemory> {
        let mut half = self.take_out(id);
        let holds = half.watch(self.alloc, id.is_local(side), id)?;
        self.halves.put(id, half)?;
        Ok(holds)
    }

    /// Whether the rule holds with this pair.
    pub fn holds(
        &mut self,
        facts: &Facts,
        turn: &Turn,
        answer: &Answer,
    ) -> Result<bool, OutOfMemory> {
        let side = facts.side();
        if let Some((id, bytes)) = accepted_by(turn, &answer.reply) {
            self.accept(id, bytes)?;
        }
        let opens = match (opened_by(turn, &answer.reply), facts.named(turn)) {
            (Some(id), Some(session)) if id.is_local(side) => self.open(id, session)?,
            _ => true,
        };
        let sends = self.take_actions(side, answer.actions.as_slice())?;
        let watches = match watched_in(&answer.reply) {
            Some(id) => self.watch(side, id)?,
            None => true,
        };
        Ok(opens && sends && watches)
    }
}
