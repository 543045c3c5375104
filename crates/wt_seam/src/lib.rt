//! The seam between QUIC and the session layer (RFC 9000): turns, calls, actions and answers, the transport as a core sees it, the
//! typed streams over it, and the streams on which a connection rests.
//!
//! Each upgrade of a stream is a type, so that its calls are those of its stage. Who attaches a QUIC stack finds all words here: those
//! of wt_turn, and the [`Transport`] with its halves of wt_transport.
#![tactic(auto)]

pub mod bilocal;
pub mod biremote;
pub mod connect;
pub mod item_reader;
pub mod next_frame;
pub mod outgoing;
pub mod qpack;
mod reading;
pub mod send;
pub mod session;
pub mod settings;
mod shown;
pub mod stream;
pub mod theorems;
pub mod uni_header;
pub mod unilocal;
pub mod uniremote;

pub use connect::ConnectStream;
pub use qpack::{RemoteQPackDecStream, RemoteQPackEncStream, RemoteQPackStream};
pub use settings::{LocalSettingsStream, RemoteSettingsStream, RemoteSettingsWatcher};
pub use stream::{
    Pair, Stream, StreamBiLocalH3, StreamBiLocalQuic, StreamBiLocalWT, StreamBiRemoteH3,
    StreamBiRemoteQuic, StreamBiRemoteWT, StreamSession, StreamUniLocalH3, StreamUniLocalQuic,
    StreamUniLocalWT, StreamUniRemoteH3, StreamUniRemoteQuic, StreamUniRemoteWT,
};
pub use wt_transport::{QuicRecvStream, QuicSendStream, Transport, halves, transport};
pub use wt_turn::driver_error::DriverError;
pub use wt_turn::proto_error::{IoReadError, ProtoReadError, ProtoWriteError};
pub use wt_turn::stream_error::{
    AlreadyStop, ClosedStream, StreamReadError, StreamReadExactError, StreamWriteError, WriteAll,
};
pub use wt_turn::{
    Action, Actions, Answer, Answers, ApplicationClose, Call, ConnectionClose, DatagramFact,
    LossReason, Piece, Poll, Reply, Turn, Turns, action, answer, call, close, datagram_fact, loss,
    piece, poll, proto_error, reply, stream_error, turn,
};
pub use wt_wire::side::{Side, StreamEnd};
