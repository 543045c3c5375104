//! What the bytes are made of may cross threads.
use crate::{
    Addr, ConnectOutcome, ErrorCode, Frame, FrameKind, HeaderList, Headers, Lookup, OutOfMemory,
    ParsedFrame, QStreamId, SessionId, Side, StatusCode, StreamEnd, StreamId, Text, VarInt,
};

fn is_send<T: Send>() {}

/// Each type of this crate is `Send`: that this compiles is the proof.
pub fn all_are_send() {
    is_send::<VarInt>();
    is_send::<StreamId>();
    is_send::<QStreamId>();
    is_send::<SessionId>();
    is_send::<StatusCode>();
    is_send::<Text>();
    is_send::<HeaderList>();
    is_send::<Headers>();
    is_send::<FrameKind>();
    is_send::<Frame>();
    is_send::<ParsedFrame>();
    is_send::<ErrorCode>();
    is_send::<OutOfMemory>();
    is_send::<Side>();
    is_send::<StreamEnd>();
    is_send::<Addr>();
    is_send::<Lookup>();
    is_send::<ConnectOutcome>();
}
