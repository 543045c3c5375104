//! The bytes of WebTransport over HTTP/3: what a peer's bytes say, and the bytes that this side writes.
#![tactic(auto)]

pub mod alpn;
pub mod bi;
pub mod control_walk;
mod cursor;
pub mod outgoing;
pub mod read;
pub mod reader;
pub mod response_walk;
pub mod send;
pub mod session_reader;
pub mod session_walk;
pub mod steps;
pub mod stream_header;
pub mod theorems;
pub mod verdict;
pub mod walk;
mod wanted;

pub use alpn::WEBTRANSPORT_ALPN;
pub use bi::bi_verdict;
pub use control_walk::ControlWalk;
pub use read::Reader;
pub use reader::{BiReader, ControlReader, FrameReader, StreamReader, UniReader};
pub use response_walk::ResponseWalk;
pub use session_reader::SessionReader;
pub use session_walk::SessionWalk;
pub use steps::Steps;
pub use stream_header::{StreamHeader, StreamKind};
pub use verdict::{Verdict, uni_verdict};
pub use wt_message::{
    BadStatus, CloseWebTransportSession, H3Datagram, HeadersParseError, ReservedHeader,
    SessionRequest, SessionResponse, SettingId, Settings, SettingsBuilder, capsule, datagram,
    session, settings,
};
pub use wt_wire::{
    Addr, ConnectOutcome, ErrorCode, Frame, FrameKind, HeaderList, Headers, Lookup, OutOfMemory,
    QStreamId, SessionId, Side, StatusCode, StreamEnd, StreamId, Text, VarInt, addr, error, frame,
    header_list, headers, ids, lookup, side, status, text, varint,
};
