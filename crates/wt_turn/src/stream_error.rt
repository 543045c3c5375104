//! Why a call on a stream, an opening or a datagram failed.

use thiserror::Error;
use wt_wire::varint::VarInt;

/// Why nothing can be written to a stream.
#[derive(Clone, Copy, PartialEq, Eq, Debug, Error)]
pub enum StreamWriteError {
    /// The connection isn't open.
    #[error("not connected")]
    NotConnected,
    /// This end finished or reset the stream.
    #[error("stream closed")]
    Closed,
    /// The peer stopped the stream with this code.
    #[error("stream stopped (code: {0})")]
    Stopped(VarInt),
    /// An error of the QUIC protocol. It never comes.
    #[error("QUIC protocol error")]
    QuicProto,
}

/// Why nothing can be read of a stream.
#[derive(Clone, Copy, PartialEq, Eq, Debug, Error)]
pub enum StreamReadError {
    /// The connection isn't open.
    #[error("not connected")]
    NotConnected,
    /// The peer reset the stream with this code.
    #[error("stream reset (code: {0})")]
    Reset(VarInt),
    /// An error of the QUIC protocol. It never comes.
    #[error("QUIC protocol error")]
    QuicProto,
}

/// Why fewer bytes than were asked for were read.
#[derive(Clone, Copy, PartialEq, Eq, Debug, Error)]
pub enum StreamReadExactError {
    /// The stream ended after this number of bytes.
    #[error("stream finished too early ({0} bytes read)")]
    FinishedEarly(usize),
    /// Nothing could be read.
    #[error(transparent)]
    Read(StreamReadError),
}

/// Why a datagram can't be sent.
#[derive(Clone, Copy, PartialEq, Eq, Debug, Error)]
pub enum SendDatagramError {
    /// The connection isn't open.
    #[error("not connected")]
    NotConnected,
    /// The peer doesn't take datagrams.
    #[error("peer does not support datagrams")]
    UnsupportedByPeer,
    /// The datagram is larger than the peer takes.
    #[error("datagram payload too large")]
    TooLarge,
    /// This end doesn't use datagrams.
    #[error("datagrams disabled")]
    Disabled,
}

/// Why a stream of a session couldn't be opened.
#[derive(Clone, Copy, PartialEq, Eq, Debug, Error)]
pub enum StreamOpeningError {
    /// The connection isn't open.
    #[error("not connected")]
    NotConnected,
    /// The peer stopped the stream before its header was out.
    #[error("opening stream refused")]
    Refused,
}

/// The sending half was reset, or is finished and acknowledged.
#[derive(Clone, Copy, Debug, Error)]
#[error("closed stream")]
pub struct ClosedStream;

/// The receiving half was stopped before.
#[derive(Clone, Copy, Debug, Error)]
#[error("stream already stopped")]
pub struct AlreadyStop;

/// How far a write of all bytes came.
#[derive(Clone, Copy, PartialEq, Eq, Debug)]
pub enum WriteAll {
    /// All bytes were written.
    Done,
    /// This number of bytes was written, and the rest lacks credit.
    Count(usize),
}
