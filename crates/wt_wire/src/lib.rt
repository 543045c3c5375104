//! The parts of which the bytes of WebTransport over HTTP/3 are made, read and written: integers,
//! ids, codes, texts, lists of fields and frames; and what crates that don't depend on each
//! other name: ends, addresses and lookups.
#![tactic(auto)]

pub mod addr;
pub mod error;
pub mod exercise;
mod field_section;
pub mod frame;
pub mod header_list;
pub mod headers;
pub mod ids;
pub mod lookup;
pub mod parsed_frame;
mod prefixed_integer;
pub mod send;
pub mod side;
pub mod status;
pub mod text;
pub mod theorems;
pub mod utf8;
pub mod varint;

pub use addr::Addr;
pub use error::{ErrorCode, OutOfMemory};
pub use frame::{Frame, FrameKind};
pub use header_list::HeaderList;
pub use headers::Headers;
pub use ids::{QStreamId, SessionId, StreamId};
pub use lookup::{ConnectOutcome, Lookup};
pub use parsed_frame::ParsedFrame;
pub use side::{Side, StreamEnd};
pub use status::StatusCode;
pub use text::Text;
pub use varint::VarInt;
