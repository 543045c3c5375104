//! What waits for an end.
ghost use Rattle.std.specs.Prelude.{◌==◌, ◌≡◌, ◌≤◌, IfOk, IsTrue, None, Some, drop, if◌then◌else◌, length, option_to_list, take};
ghost use Rattle.wt_pair.specs.Link.{brings_datagram, closed_turn, connects, first_of, is_before, is_same_stream, item_of, left_of, on_no_stream, on_stream, open_alike, opened_turn, takes_bytes};
ghost use Rattle.wt_pair.specs.Pair.{acknowledgement, connected};
ghost use Rattle.wt_turn.specs.declared.turn.Turn.TheVariants as turns;

use crate::event::PairFacts;
use std::alloc::Global;
use wt_turn::close::PeerClose;
use wt_turn::loss::LossReason;
use wt_turn::piece::Piece;
use wt_turn::{Action, Turn};
use wt_wire::error::OutOfMemory;
use wt_wire::ids::StreamId;
use wt_wire::varint::VarInt;

/// What one end did, while it waits for the other: the turn that it will be there, and the stream that it names.
#[derive(Debug, Drop)]
pub struct Item {
    /// The stream, also where the turn opens it.
    pub stream: Option<StreamId>,
    /// The turn, as the other end's transport will report it.
    pub turn: Turn,
}

/// The turn that opens the stream at the end that didn't open it.
fn opened_turn(id: StreamId) -> Turn
    ensures { result ≡ opened_turn id }
{
    if id.is_bidirectional() {
        Turn::PeerBi
    } else {
        Turn::PeerUni
    }
}

/// The loss of the connection by the other end's close.
fn closed_turn(code: VarInt, reason: &Piece) -> Result<Turn, OutOfMemory>
    ensures { IfOk result (λ turn. turn ≡ closed_turn code reason.now) }
{
    let close = PeerClose::new(code, reason.copy()?);
    Ok(Turn::Loss {
        reason: LossReason::ApplicationClosed(close),
    })
}

/// Both are the same stream.
fn is_same_stream(first: Option<StreamId>, second: Option<StreamId>) -> bool
    ensures { result ≡ is_same_stream first second }
{
    match (first, second) {
        (Some(first), Some(second)) => first == second,
        _ => false,
    }
}

/// Both open a stream, of one kind.
fn open_alike(first: &Turn, second: &Turn) -> bool
    ensures { result ≡ open_alike first.now second.now }
{
    match first {
        Turn::PeerUni => matches!(second, Turn::PeerUni),
        Turn::PeerBi => matches!(second, Turn::PeerBi),
        _ => false,
    }
}

impl Item {
    /// A turn that names this stream.
    fn on(id: StreamId, turn: Turn) -> Item
        ensures { Some result ≡ on_stream id turn }
    {
        Item {
            stream: Some(id),
            turn,
        }
    }

    /// A turn that names no stream.
    fn bare(turn: Turn) -> Item
        ensures { Some result ≡ on_no_stream turn }
    {
        Item { stream: None, turn }
    }

    /// The connection, as both ends' transports will report it.
    pub fn connected(facts: &PairFacts) -> Item
        ensures { result ≡ connected facts.now }
    {
        Item::bare(Turn::Connected {
            uni: facts.uni,
            bi: facts.bi,
            credit: facts.credit,
            datagrams: facts.datagrams,
        })
    }

    /// That all which was sent on the stream arrived.
    pub fn acknowledged(id: StreamId) -> Item
        ensures { result ≡ record { stream = Some id; turn = turns.Acked id } }
    {
        Item::on(id, Turn::Acked { id })
    }

    /// What an action of one end comes to at the other. A dial comes to none: it brings the connection to both ends.
    ///
    /// # Errors
    ///
    /// `OutOfMemory` where the bytes found no memory.
    pub fn of_action(action: &Action) -> Result<Option<Item>, OutOfMemory>
        ensures { IfOk result (λ item. item ≡ item_of action.now) }
    {
        Ok(Some(match action {
            Action::Dial { .. } => return Ok(None),
            Action::Opened { id } => Item::on(*id, opened_turn(*id)),
            Action::Send { id, piece } => {
                let piece = piece.copy()?;
                Item::on(*id, Turn::Bytes { id: *id, piece })
            }
            Action::Finish { id } => Item::on(*id, Turn::End { id: *id }),
            Action::ResetOut { id, code } => {
                let code = *code;
                Item::on(*id, Turn::Reset { id: *id, code })
            }
            Action::StopOut { id, code } => {
                let code = *code;
                Item::on(*id, Turn::Stop { id: *id, code })
            }
            Action::DatagramOut { piece } => {
                let piece = piece.copy()?;
                Item::bare(Turn::Datagram { piece })
            }
            Action::Close { code, reason } => Item::bare(closed_turn(*code, reason)?),
        }))
    }

    // ---- what may be delivered

    /// Whether it brings the connection.
    pub fn connects(&self) -> bool
        ensures { result ≡ connects self.now.turn }
    {
        matches!(self.turn, Turn::Connected { .. })
    }

    /// Whether it is a datagram.
    pub fn is_datagram(&self) -> bool
        ensures { result ≡ brings_datagram self.now.turn }
    {
        matches!(self.turn, Turn::Datagram { .. })
    }

    /// Whether this many bytes of it may be delivered at once: of a piece of a stream at least one and no more than there are, of
    /// everything else none.
    pub fn takes(&self, bytes: u64) -> bool
        ensures { result ≡ takes_bytes self.now.turn bytes }
    {
        match &self.turn {
            Turn::Bytes { piece, .. } => 1 <= bytes && bytes <= piece.as_slice().len() as u64,
            _ => bytes == 0,
        }
    }

    /// Whether this must be delivered before what waits behind it: both name one stream, or both open one of a kind.
    pub fn is_before(&self, later: &Item) -> bool
        ensures { result ≡ is_before self.now later.now }
    {
        is_same_stream(self.stream, later.stream) || open_alike(&self.turn, &later.turn)
    }

    // ---- delivering

    /// The turn that this many bytes of it make, and what of it waits on.
    ///
    /// # Errors
    ///
    /// `OutOfMemory` where the first bytes of a piece found no memory.
    pub fn split(self, alloc: Global, bytes: usize) -> Result<(Turn, Option<Item>), OutOfMemory>
        requires { IsTrue (takes_bytes self.turn bytes) }
        ensures turn { IfOk result (λ p. p.0 ≡ first_of bytes self.turn) }
        ensures rest { IfOk result (λ p. option_to_list p.1 ≡ left_of bytes self.stream self.turn) }
    {
        let Item { stream, turn } = self;
        match turn {
            Turn::Bytes { id, piece } => {
                let (front, rest) = split_piece(alloc, piece, bytes)?;
                let rest = rest.map(|piece| Item {
                    stream,
                    turn: Turn::Bytes { id, piece },
                });
                Ok((Turn::Bytes { id, piece: front }, rest))
            }
            turn => Ok((turn, None)),
        }
    }
}

/// The first bytes of a piece, this many, and the others where there are some.
fn split_piece(
    alloc: Global,
    piece: Piece,
    count: usize,
) -> Result<(Piece, Option<Piece>), OutOfMemory>
    requires { count ≤ length piece }
    ensures front { IfOk result (λ p. p.0 ≡ take count piece) }
    ensures rest { IfOk result (λ p. p.1 ≡ (if count == length piece then None else Some (drop count piece))) }
{
    if count == piece.as_slice().len() {
        return Ok((piece, None));
    }
    let front = Piece::from_slice(alloc, &piece.as_slice()[..count])?;
    Ok((front, Some(piece.without_front(count))))
}
