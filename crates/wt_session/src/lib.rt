//! The public types of a WebTransport session, over a driver: a server's handshake, a client's connect, and the session
//! that is established with its streams and datagrams.
//!
//! The halves of streams, the streams that are being opened and the datagrams are the driver's, and are offered here again.
//! [`endpoint`], [`stream`] and [`error`] gather all of them as the Rust crate `wtransport` does.
#![tactic(auto)]

pub mod accepting;
pub mod bi_stream;
pub mod connect_options;
pub mod connect_target;
pub mod connecting;
pub mod connection;
pub mod incoming;
pub mod rejecting;
mod response;
pub mod send;
mod stage;

pub use accepting::Accepting;
pub use bi_stream::BiStream;
pub use connect_options::{ConnectOptions, ConnectRequestBuilder, IntoConnectOptions};
pub use connecting::Connecting;
pub use connection::Connection;
pub use incoming::{IncomingSession, IncomingSessionFuture, SessionRequest};
pub use rejecting::Rejecting;
pub use wt_driver::{Datagram, OpeningBiStream, OpeningUniStream, RecvStream, SendStream};
pub use wt_turn::connecting_error::{ConnectingError, UrlRefusal};
pub use wt_turn::connection_error::{ConnectionError, H3Error, QuicProtoError};
pub use wt_turn::stream_error::{
    ClosedStream, SendDatagramError, StreamOpeningError, StreamReadError, StreamReadExactError,
    StreamWriteError, WriteAll,
};
pub use wt_turn::{
    ApplicationClose, ConnectionClose, Poll, connecting_error, connection_error, stream_error,
};

/// How a session begins: a server's handshake and a client's connect, by the names of the Rust crate's module `endpoint`.
pub mod endpoint {
    pub use crate::accepting::Accepting;
    pub use crate::connect_options::{ConnectOptions, ConnectRequestBuilder, IntoConnectOptions};
    pub use crate::connecting::Connecting;
    pub use crate::incoming::{IncomingSession, IncomingSessionFuture, SessionRequest};
    pub use crate::rejecting::Rejecting;
}

/// The streams of a session, by the names of the Rust crate's module `stream`.
pub mod stream {
    pub use crate::bi_stream::BiStream;
    pub use wt_driver::{OpeningBiStream, OpeningUniStream, RecvStream, SendStream};
}

/// The errors of a session, by the names of the Rust crate's module `error`.
pub mod error {
    pub use wt_turn::connecting_error::{ConnectingError, UrlRefusal};
    pub use wt_turn::connection_error::{ConnectionError, H3Error, QuicProtoError};
    pub use wt_turn::stream_error::{
        ClosedStream, SendDatagramError, StreamOpeningError, StreamReadError, StreamReadExactError,
        StreamWriteError, WriteAll,
    };
    pub use wt_turn::{ApplicationClose, ConnectionClose};
}
