//! The QUIC transport as the session layer sees it (RFC 9000).
//!
//! A [`Transport`] takes what the transport reports of one connection, turn after turn, keeps the bytes
//! that came in the pieces in which they came, and collects what is to go out. The definitions beside
//! it say the same of the whole log of a connection.
#![tactic(auto)]

pub mod decision;
pub mod halves;
pub mod kind;
pub mod outbox;
pub mod reported;
pub mod row;
pub mod send;
pub mod stream;
pub mod transport;
pub mod unread;

pub use halves::{QuicRecvStream, QuicSendStream};
pub use transport::Transport;
pub use wt_turn::stream_error::{
    ClosedStream, StreamReadError, StreamReadExactError, StreamWriteError, WriteAll,
};
pub use wt_wire::side::{Side, StreamEnd};
