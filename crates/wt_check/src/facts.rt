//! What all rules ask of the pairs so far: whether the connection is open, which session a call names, and what stands at the fronts of
//! the peer's streams.
ghost use Rattle.std.specs.Prelude.{◌≡◌, ◌≤◌, ◌+◌, ◌*◌, ◌<◌, ◌^◌, ◌||◌, [], ◌∷◌, MatchOption, None, Some, length};
ghost use Rattle.std.specs.List.{list_any};
ghost use Rattle.std.specs.Option.{option_or};
ghost use Rattle.wt_check.specs.Keeps.{FactsSay, SaysTheSame};
ghost use Rattle.wt_check.specs.KeptFacts.{HasRoom, bytes_now, end_now, peer_has_now};
ghost use Rattle.wt_check.specs.Records.{field_of, named_of};
ghost use Rattle.wt_meaning.specs.History.{History, Pair, loses};
ghost use Rattle.wt_meaning.specs.Windows.{session_in};
ghost use Rattle.wt_turn.specs.Log.{closes};
ghost use Rattle.wt_wire.specs.declared.side.Side.{Side};
ghost use Rattle.wt_wire.specs.declared.side.Side.{Side};

use crate::by_id::ById;
use crate::front::{Front, Header};
use std::alloc::Global;
use wt_turn::action::Action;
use wt_turn::answer::Answer;
use wt_turn::call::Call;
use wt_turn::reply::Reply;
use wt_turn::turn::Turn;
use wt_wire::error::OutOfMemory;
use wt_wire::ids::{SessionId, StreamId};
use wt_wire::side::{Side, StreamEnd};
use wt_wire::varint::VarInt;

/// What the pairs so far say.
#[derive(Drop)]
pub struct Facts {
    alloc: Global,
    side: Side,
    is_open: bool,
    first_session: Option<SessionId>,
    /// How many streams the peer opened of each kind.
    peer_unis: u64,
    peer_bis: u64,
    /// Of the streams that the peer opened while the connection was open.
    headers: ById<Header>,
    /// How many bytes of the turn belong to a stream's header.
    in_header: usize,
}

/// The session in a call, where it has that field.
fn field_of(turn: &Turn) -> Option<Option<SessionId>>
    ensures { result ≡ field_of turn.now }
{
    let Turn::Call(call) = turn else {
        return None;
    };
    match call {
        Call::AcceptUni { session }
        | Call::AcceptBi { session }
        | Call::ReceiveDatagram { session }
        | Call::OpenUni { session }
        | Call::OpenBi { session }
        | Call::SendDatagram {
            payload: _,
            session,
        }
        | Call::EndSession { session }
        | Call::MaxDatagramSize { session }
        | Call::SessionId { session } => Some(*session),
        _ => None,
    }
}

/// How many actions stand in front of the first that closes the connection; all, where none does.
pub fn count_before_close(actions: &[Action]) -> usize
    ensures { result ≤ length actions.now }
{
    for (index, action) in actions.iter().enumerate() {
        if let Action::Close { .. } = action {
            return index;
        }
    }
    actions.len()
}

fn is_close(action: &Action) -> bool
    ensures { result ≡ closes action.now }
{
    matches!(action, Action::Close { .. })
}

/// Whether an action closes the connection.
fn closes(actions: &[Action]) -> bool
    ensures { result ≡ list_any closes actions.now }
{
    actions.iter().any(is_close)
}

/// Whether the turn reports that the connection is lost.
fn loses(turn: &Turn) -> bool
    ensures { result ≡ loses turn.now }
{
    matches!(turn, Turn::Loss { .. })
}

/// Whether the turn or its answer ends the connection.
fn ends(turn: &Turn, answer: &Answer) -> bool
    ensures { result ≡ (loses turn.now || list_any closes answer.now.actions) }
{
    loses(turn) || closes(answer.actions.as_slice())
}

/// The id of the n-th stream of a kind (RFC 9000, section 2.1).
fn nth_stream(place: u64, kind: u64) -> StreamId
    requires place { place < 2 ^ 60 }
    requires kind { kind < 4 }
    ensures { result ≡ 4 * place + kind }
{
    StreamId::new(VarInt::from_u64(4 * place + kind))
}

impl Facts {
    /// No pair came.
    pub fn new(alloc: Global, side: Side) -> Facts
        ensures { FactsSay side result [] }
    {
        Facts {
            alloc,
            side,
            is_open: true,
            first_session: None,
            peer_unis: 0,
            peer_bis: 0,
            headers: ById::new(alloc),
            in_header: 0,
        }
    }

    /// The side that answers.
    pub fn side(&self) -> Side
        ensures { result ≡ self.now.side }
    {
        self.side
    }

    /// Whether the connection is open.
    pub fn is_open(&self) -> bool
        ensures { result ≡ self.now.is_open }
    {
        self.is_open
    }

    /// How many unidirectional streams the peer opened.
    pub fn peer_unis(&self) -> u64
        ensures { result ≡ self.now.peer_unis }
    {
        self.peer_unis
    }

    /// How many bidirectional streams the peer opened.
    pub fn peer_bis(&self) -> u64
        ensures { result ≡ self.now.peer_bis }
    {
        self.peer_bis
    }

    /// Whether the peer opened the stream, at any time.
    pub fn peer_has(&self, id: StreamId) -> bool
        ensures { result ≡ peer_has_now self.now.side self.now.peer_unis self.now.peer_bis id }
    {
        let place = id.into_u64() / 4;
        match (id.is_local(self.side), id.is_bidirectional()) {
            (true, _) => false,
            (false, true) => place < self.peer_bis,
            (false, false) => place < self.peer_unis,
        }
    }

    /// What stands at the front of a stream; None where the peer didn't open it while the connection was open.
    pub fn front(&self, id: StreamId) -> Option<Front> {
        match self.headers.get(id) {
            Some(header) => Some(header.front()),
            None => None,
        }
    }

    /// The session that the turn names: a call that may name one and doesn't means the first that was established.
    pub fn named(&self, turn: &Turn) -> Option<SessionId>
        ensures { result ≡ named_of self.now.first_session (field_of turn.now) }
    {
        match field_of(turn) {
            Some(Some(session)) => Some(session),
            Some(None) => self.first_session,
            None => None,
        }
    }

    /// The peer opens its next unidirectional stream.
    fn open_uni(&mut self) -> Result<(), OutOfMemory>
        requires { self.old.peer_unis < 2 ^ 60 }
        ensures { SaysTheSame self.old self.new }
    {
        let kind = match self.side {
            Side::Server => 2,
            Side::Client => 3,
        };
        let id = nth_stream(self.peer_unis, kind);
        self.peer_unis += 1;
        if self.is_open {
            self.headers.put(id, Header::uni(self.alloc))?;
        }
        Ok(())
    }

    /// The peer opens its next bidirectional stream.
    fn open_bi(&mut self) -> Result<(), OutOfMemory>
        requires { self.old.peer_bis < 2 ^ 60 }
        ensures { SaysTheSame self.old self.new }
    {
        let kind = match self.side {
            Side::Server => 0,
            Side::Client => 1,
        };
        let id = nth_stream(self.peer_bis, kind);
        self.peer_bis += 1;
        if self.is_open {
            self.headers.put(id, Header::bi(self.alloc))?;
        }
        Ok(())
    }

    fn take_bytes(&mut self, id: StreamId, piece: &[u8]) -> Result<(), OutOfMemory>
        ensures { SaysTheSame self.old self.new }
    {
        match self.headers.take(id) {
            Some(header) => {
                let (header, count) = header.fed(piece)?;
                self.in_header = count;
                self.headers.put(id, header)
            }
            None => Ok(()),
        }
    }

    fn take_end(&mut self, id: StreamId, end: StreamEnd) -> Result<(), OutOfMemory>
        ensures { SaysTheSame self.old self.new }
    {
        match self.headers.take(id) {
            Some(header) => self.headers.put(id, header.ended(end)),
            None => Ok(()),
        }
    }

    /// Takes a turn that may follow.
    pub fn take_turn(&mut self, turn: &Turn) -> Result<(), OutOfMemory>
        requires { HasRoom self.old.peer_unis self.old.peer_bis turn.now }
        ensures { SaysTheSame self.old self.new }
    {
        self.in_header = 0;
        match turn {
            Turn::PeerUni => self.open_uni(),
            Turn::PeerBi => self.open_bi(),
            _ if !self.is_open => Ok(()),
            Turn::Bytes { id, piece } => self.take_bytes(*id, piece.as_slice()),
            Turn::End { id } => self.take_end(*id, StreamEnd::Fin),
            Turn::Reset { id, code } => self.take_end(*id, StreamEnd::Reset(*code)),
            _ => Ok(()),
        }
    }

    /// The bytes that the turn brings on a stream while the connection is open; on a peer's stream those behind its header.
    pub fn bytes_in<'a>(&self, turn: &'a Turn) -> Option<(StreamId, &'a [u8])>
        ensures { MatchOption result (bytes_now self.now.is_open self.now.in_header turn.now ≡ None)
            (λ b. bytes_now self.now.is_open self.now.in_header turn.now ≡ Some (b.0, b.1.now)) }
    {
        match turn {
            Turn::Bytes { id, piece } if self.is_open => {
                let piece = piece.as_slice();
                Some((*id, &piece[self.in_header.min(piece.len())..]))
            }
            _ => None,
        }
    }

    /// The end that the turn brings on a stream while the connection is open.
    pub fn end_in(&self, turn: &Turn) -> Option<(StreamId, StreamEnd)>
        ensures { result ≡ end_now self.now.is_open turn.now }
    {
        match turn {
            Turn::End { id } if self.is_open => Some((*id, StreamEnd::Fin)),
            Turn::Reset { id, code } if self.is_open => Some((*id, StreamEnd::Reset(*code))),
            _ => None,
        }
    }

    /// Takes the first session that a reply gives.
    fn take_reply(&mut self, reply: &Reply)
        ensures side { self.new.side ≡ self.old.side }
        ensures still_open { self.new.is_open ≡ self.old.is_open }
        ensures first { self.new.first_session ≡ option_or self.old.first_session (session_in reply.now) }
    {
        if let (None, Reply::Session(session)) = (self.first_session, reply) {
            self.first_session = Some(*session);
        }
    }

    /// Takes the answer to the turn.
    pub fn take_answer(&mut self, turn: &Turn, answer: &Answer)
        ensures { (side : Side) (h : History) (p : Pair) → p.turn ≡ turn.now → p.answer ≡ answer.now → FactsSay side self.old h → FactsSay side self.new (p ∷ h) }
    {
        self.take_reply(&answer.reply);
        if ends(turn, answer) {
            self.is_open = false;
        }
    }
}
