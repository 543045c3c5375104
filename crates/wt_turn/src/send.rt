//! What is reported of a connection, and what it is told, may cross threads.
use crate::connecting_error::{ConnectingError, UrlRefusal};
use crate::connection_error::{ConnectionError, H3Error, QuicProtoError};
use crate::driver_error::DriverError;
use crate::proto_error::{IoReadError, ProtoReadError, ProtoWriteError};
use crate::stream_error::{
    AlreadyStop, ClosedStream, SendDatagramError, StreamOpeningError, StreamReadError,
    StreamReadExactError, StreamWriteError, WriteAll,
};
use crate::{
    Action, Actions, Answer, Answers, ApplicationClose, Call, ConnectionClose, DatagramFact,
    LossReason, Piece, Poll, Record, Reply, Turn, Turns,
};

fn is_send<T: Send>() {}

/// Each type that reports something of a connection is `Send`: that this compiles is the proof.
pub fn all_are_send() {
    is_send::<Piece>();
    is_send::<Call>();
    is_send::<LossReason>();
    is_send::<Turn>();
    is_send::<Turns>();
    is_send::<Action>();
    is_send::<Actions>();
    is_send::<Reply>();
    is_send::<Answer>();
    is_send::<Answers>();
    is_send::<Record>();
    is_send::<Poll<Reply>>();
    is_send::<ApplicationClose>();
    is_send::<ConnectionClose>();
    is_send::<DatagramFact>();
    is_send::<ConnectionError>();
    is_send::<H3Error>();
    is_send::<QuicProtoError>();
    is_send::<UrlRefusal>();
    is_send::<ConnectingError>();
    is_send::<DriverError>();
    is_send::<IoReadError>();
    is_send::<ProtoReadError>();
    is_send::<ProtoWriteError>();
    is_send::<ClosedStream>();
    is_send::<AlreadyStop>();
    is_send::<WriteAll>();
    is_send::<StreamOpeningError>();
    is_send::<StreamReadError>();
    is_send::<StreamReadExactError>();
    is_send::<StreamWriteError>();
    is_send::<SendDatagramError>();
}
