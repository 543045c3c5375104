//! Why a frame or a header couldn't be read from or written to a stream.

use thiserror::Error;
use wt_wire::error::ErrorCode;

/// Why a stream gave no whole frame.
#[derive(Clone, Copy, PartialEq, Eq, Debug, Error)]
pub enum IoReadError {
    /// The stream ended between two frames.
    #[error("stream ended")]
    ImmediateFin,
    /// The stream ended inside a frame.
    #[error("stream ended inside a frame")]
    UnexpectedFin,
    /// The peer reset the stream.
    #[error("stream reset")]
    Reset,
    /// The connection isn't open.
    #[error("not connected")]
    NotConnected,
}

/// Why a stream gave no frame that is known.
#[derive(Clone, Copy, PartialEq, Eq, Debug, Error)]
pub enum ProtoReadError {
    /// The bytes break a rule of HTTP/3 or of WebTransport.
    #[error("protocol error: {0}")]
    H3(ErrorCode),
    /// The stream ended.
    #[error(transparent)]
    IO(IoReadError),
}

/// Why a frame or a header wasn't written whole.
#[derive(Clone, Copy, PartialEq, Eq, Debug, Error)]
pub enum ProtoWriteError {
    /// The connection isn't open.
    #[error("not connected")]
    NotConnected,
    /// The peer stopped the stream before all was out.
    #[error("stream stopped")]
    Stopped,
}
