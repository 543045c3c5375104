//! What the caller of a turn is answered.
ghost use Rattle.std.specs.Prelude.{◌≡◌, ◌↔◌, IfOk, IsTrue};

use crate::connecting_error::ConnectingError;
use crate::connection_error::ConnectionError;
use crate::piece::Piece;
use crate::stream_error::{
    SendDatagramError, StreamOpeningError, StreamReadError, StreamReadExactError, StreamWriteError,
};
use std::alloc::Global;
use wt_wire::error::OutOfMemory;
use wt_wire::header_list::HeaderList;
use wt_wire::ids::{SessionId, StreamId};

/// The reply to one turn.
#[derive(PartialEq, Eq, Debug, Drop)]
pub enum Reply {
    /// The turn was taken.
    Done,
    /// Nothing is there to give yet.
    Pending,
    /// No session is established.
    NoSession,
    /// The stream wasn't handed out, has no such half, or the half was given up.
    NoStream,
    /// A request: the id of its session, and its header fields.
    Request { id: SessionId, headers: HeaderList },
    /// The session is established.
    Session(SessionId),
    /// The request is rejected.
    Rejected,
    /// An accepted unidirectional stream.
    Uni(StreamId),
    /// An accepted bidirectional stream.
    Bi(StreamId),
    /// A stream that is being opened.
    Opening(StreamId),
    /// An opened unidirectional stream.
    SendReady(StreamId),
    /// An opened bidirectional stream.
    BiReady(StreamId),
    /// The session's id.
    Id(SessionId),
    /// The payload of a datagram.
    Datagram(Piece),
    /// The greatest payload of a datagram, in bytes; None where none can be sent.
    Size(Option<u64>),
    /// This number of bytes was written.
    Written(u64),
    /// All bytes were written.
    AllWritten,
    /// This number of bytes was written, and the rest lacks credit.
    Count(u64),
    /// The sending half is finished, and all of it acknowledged.
    Finished,
    /// The priority of a sending half.
    Priority(i32),
    /// The sending half was reset, or is finished and acknowledged.
    ClosedStream,
    /// Bytes that were read; None where the stream has ended.
    Read(Option<Piece>),
    /// As many bytes as were asked for.
    Exact(Piece),
    /// The connection ended, so the call fails.
    Failed(ConnectionError),
    /// How the connection ended.
    Closed(ConnectionError),
    /// The connect failed.
    ConnectFailed(ConnectingError),
    /// The stream couldn't be opened.
    OpeningFailed(StreamOpeningError),
    /// Nothing could be written.
    WriteFailed(StreamWriteError),
    /// Why nothing can be written any more.
    StoppedBy(StreamWriteError),
    /// Nothing could be read.
    ReadFailed(StreamReadError),
    /// There weren't as many bytes as were asked for; the bytes that were there.
    ExactFailed(StreamReadExactError, Piece),
    /// The datagram couldn't be sent.
    DatagramFailed(SendDatagramError),
}

fn copied_piece(piece: &Option<Piece>) -> Result<Option<Piece>, OutOfMemory>
    ensures { IfOk result (λ p. p ≡ piece.now) }
{
    match piece {
        None => Ok(None),
        Some(piece) => Ok(Some(piece.copy()?)),
    }
}

fn is_same_piece(piece: &Option<Piece>, other: &Option<Piece>) -> bool
    ensures { IsTrue result ↔ (piece.now ≡ other.now) }
{
    match piece {
        None => other.is_none(),
        Some(piece) => match other {
            None => false,
            Some(other) => piece.is_equal(other),
        },
    }
}

impl Reply {
    /// A reply that is equal to this one.
    pub fn copy(&self, alloc: Global) -> Result<Reply, OutOfMemory>
        ensures { IfOk result (λ a. a ≡ self.now) }
    {
        Ok(match self {
            Reply::Done => Reply::Done,
            Reply::Pending => Reply::Pending,
            Reply::NoSession => Reply::NoSession,
            Reply::NoStream => Reply::NoStream,
            Reply::Request { id, headers } => Reply::Request {
                id: *id,
                headers: headers.copy()?,
            },
            Reply::Session(id) => Reply::Session(*id),
            Reply::Rejected => Reply::Rejected,
            Reply::Uni(id) => Reply::Uni(*id),
            Reply::Bi(id) => Reply::Bi(*id),
            Reply::Opening(id) => Reply::Opening(*id),
            Reply::SendReady(id) => Reply::SendReady(*id),
            Reply::BiReady(id) => Reply::BiReady(*id),
            Reply::Id(id) => Reply::Id(*id),
            Reply::Datagram(piece) => Reply::Datagram(piece.copy()?),
            Reply::Size(size) => Reply::Size(*size),
            Reply::Written(count) => Reply::Written(*count),
            Reply::AllWritten => Reply::AllWritten,
            Reply::Count(count) => Reply::Count(*count),
            Reply::Finished => Reply::Finished,
            Reply::Priority(priority) => Reply::Priority(*priority),
            Reply::ClosedStream => Reply::ClosedStream,
            Reply::Read(piece) => Reply::Read(copied_piece(piece)?),
            Reply::Exact(piece) => Reply::Exact(piece.copy()?),
            Reply::Failed(error) => Reply::Failed(error.copy(alloc)?),
            Reply::Closed(error) => Reply::Closed(error.copy(alloc)?),
            Reply::ConnectFailed(error) => Reply::ConnectFailed(error.copy(alloc)?),
            Reply::OpeningFailed(error) => Reply::OpeningFailed(*error),
            Reply::WriteFailed(error) => Reply::WriteFailed(*error),
            Reply::StoppedBy(error) => Reply::StoppedBy(*error),
            Reply::ReadFailed(error) => Reply::ReadFailed(*error),
            Reply::ExactFailed(error, piece) => Reply::ExactFailed(*error, piece.copy()?),
            Reply::DatagramFailed(error) => Reply::DatagramFailed(*error),
        })
    }

    /// Whether both are the same reply with the same fields.
    pub fn is_equal(&self, other: &Reply) -> bool
        ensures { IsTrue result ↔ (self.now ≡ other.now) }
    {
        match self {
            Reply::Done => matches!(other, Reply::Done),
            Reply::Pending => matches!(other, Reply::Pending),
            Reply::NoSession => matches!(other, Reply::NoSession),
            Reply::NoStream => matches!(other, Reply::NoStream),
            Reply::Request { id, headers } =>
                matches!(other, Reply::Request { id: other_id, headers: other_headers } if id == other_id && headers.is_equal(other_headers)),
            Reply::Session(id) => matches!(other, Reply::Session(other_id) if id == other_id),
            Reply::Rejected => matches!(other, Reply::Rejected),
            Reply::Uni(id) => matches!(other, Reply::Uni(other_id) if id == other_id),
            Reply::Bi(id) => matches!(other, Reply::Bi(other_id) if id == other_id),
            Reply::Opening(id) => matches!(other, Reply::Opening(other_id) if id == other_id),
            Reply::SendReady(id) => matches!(other, Reply::SendReady(other_id) if id == other_id),
            Reply::BiReady(id) => matches!(other, Reply::BiReady(other_id) if id == other_id),
            Reply::Id(id) => matches!(other, Reply::Id(other_id) if id == other_id),
            Reply::Datagram(piece) =>
                matches!(other, Reply::Datagram(other_piece) if piece.is_equal(other_piece)),
            Reply::Size(size) => matches!(other, Reply::Size(other_size) if size == other_size),
            Reply::Written(count) =>
                matches!(other, Reply::Written(other_count) if count == other_count),
            Reply::AllWritten => matches!(other, Reply::AllWritten),
            Reply::Count(count) =>
                matches!(other, Reply::Count(other_count) if count == other_count),
            Reply::Finished => matches!(other, Reply::Finished),
            Reply::Priority(priority) =>
                matches!(other, Reply::Priority(other_priority) if priority == other_priority),
            Reply::ClosedStream => matches!(other, Reply::ClosedStream),
            Reply::Read(piece) =>
                matches!(other, Reply::Read(other_piece) if is_same_piece(piece, other_piece)),
            Reply::Exact(piece) =>
                matches!(other, Reply::Exact(other_piece) if piece.is_equal(other_piece)),
            Reply::Failed(error) =>
                matches!(other, Reply::Failed(other_error) if error.is_equal(other_error)),
            Reply::Closed(error) =>
                matches!(other, Reply::Closed(other_error) if error.is_equal(other_error)),
            Reply::ConnectFailed(error) =>
                matches!(other, Reply::ConnectFailed(other_error) if error.is_equal(other_error)),
            Reply::OpeningFailed(error) =>
                matches!(other, Reply::OpeningFailed(other_error) if error == other_error),
            Reply::WriteFailed(error) =>
                matches!(other, Reply::WriteFailed(other_error) if error == other_error),
            Reply::StoppedBy(error) =>
                matches!(other, Reply::StoppedBy(other_error) if error == other_error),
            Reply::ReadFailed(error) =>
                matches!(other, Reply::ReadFailed(other_error) if error == other_error),
            Reply::ExactFailed(error, piece) =>
                matches!(other, Reply::ExactFailed(other_error, other_piece) if error == other_error && piece.is_equal(other_piece)),
            Reply::DatagramFailed(error) =>
                matches!(other, Reply::DatagramFailed(other_error) if error == other_error),
        }
    }
}
