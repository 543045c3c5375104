//! Error codes on the wire, and out of memory.
ghost use Rattle.std.specs.Prelude.{◌≡◌, ◌≢◌, IfSome, IsNone, codes};
ghost use Rattle.wt_wire.specs.Codes.{code_of};
ghost use Rattle.wt_wire.specs.declared.error.ErrorCode.{ErrorCode};

use crate::varint::VarInt;
use std::alloc::{AllocError, AllocFailed};
use std::fmt;
use thiserror::Error;

/// Out of memory: an allocation failed for what a call had to keep. It may come from each call that
/// answers it, and from no other.
#[derive(Clone, Copy, Debug, PartialEq, Eq, Error)]
#[error("out of memory")]
pub struct OutOfMemory;

impl From<AllocError> for OutOfMemory {
    fn from(_error: AllocError) -> OutOfMemory {
        OutOfMemory
    }
}

impl<T: Drop> From<AllocFailed<T>> for OutOfMemory {
    fn from(_error: AllocFailed<T>) -> OutOfMemory {
        OutOfMemory
    }
}

/// The error codes that HTTP/3, QPACK, HTTP datagrams and WebTransport give to streams and
/// connections (RFC 9114, section 8.1; RFC 9204, section 8.3; RFC 9297, section 5.2;
/// draft-ietf-webtrans-http3, section 8).
#[derive(Clone, Copy, Debug, PartialEq, Eq)]
pub enum ErrorCode {
    /// 0x33, H3_DATAGRAM_ERROR: a datagram is malformed (RFC 9297, section 5.2).
    Datagram = 0x33,
    /// 0x100, H3_NO_ERROR: nothing is wrong, and the connection or stream closes (RFC 9114,
    /// section 8.1).
    NoError = 0x100,
    /// 0x103, H3_STREAM_CREATION_ERROR: the peer opened a stream that it may not open (RFC 9114,
    /// section 8.1).
    StreamCreation = 0x103,
    /// 0x104, H3_CLOSED_CRITICAL_STREAM: a stream that the connection needs ended (RFC 9114,
    /// section 8.1).
    ClosedCriticalStream = 0x104,
    /// 0x105, H3_FRAME_UNEXPECTED: a frame may not come there (RFC 9114, section 8.1).
    FrameUnexpected = 0x105,
    /// 0x106, H3_FRAME_ERROR: a frame is malformed (RFC 9114, section 8.1).
    Frame = 0x106,
    /// 0x107, H3_EXCESSIVE_LOAD: the peer asks for too much (RFC 9114, section 8.1).
    ExcessiveLoad = 0x107,
    /// 0x108, H3_ID_ERROR: an id is used that may not be used there (RFC 9114, section 8.1).
    Id = 0x108,
    /// 0x109, H3_SETTINGS_ERROR: the payload of a SETTINGS frame is at fault (RFC 9114,
    /// section 8.1).
    Settings = 0x109,
    /// 0x10a, H3_MISSING_SETTINGS: no SETTINGS frame begins the control stream (RFC 9114,
    /// section 8.1).
    MissingSettings = 0x10a,
    /// 0x10b, H3_REQUEST_REJECTED: a request isn't processed (RFC 9114, section 8.1).
    RequestRejected = 0x10b,
    /// 0x10e, H3_MESSAGE_ERROR: a message of HTTP is malformed (RFC 9114, section 8.1).
    Message = 0x10e,
    /// 0x200, QPACK_DECOMPRESSION_FAILED: a field section can't be read (RFC 9204, section 8.3).
    Decompression = 0x200,
    /// 0x170d7b68, WEBTRANSPORT_SESSION_GONE: the session of a stream is over
    /// (draft-ietf-webtrans-http3, section 8).
    SessionGone = 0x170d_7b68,
    /// 0x3994bd84, WEBTRANSPORT_BUFFERED_STREAM_REJECTED: a stream came before its session, and too
    /// many wait (draft-ietf-webtrans-http3, section 8).
    BufferedStreamRejected = 0x3994_bd84,
}

impl ErrorCode {
    /// The number on the wire.
    pub fn to_code(self) -> VarInt
        ensures { result ≡ code_of self }
    {
        VarInt::from_u32(self as u32)
    }

    /// The error of a number on the wire; None exactly for a number that isn't in the table.
    pub fn from_code(code: VarInt) -> Option<ErrorCode>
        ensures code { IfSome result (λ e. code_of e ≡ code) }
        ensures none { IsNone result → (e : ErrorCode) → code_of e ≢ code }
    {
        let error = match code.into_inner() {
            0x33 => ErrorCode::Datagram,
            0x100 => ErrorCode::NoError,
            0x103 => ErrorCode::StreamCreation,
            0x104 => ErrorCode::ClosedCriticalStream,
            0x105 => ErrorCode::FrameUnexpected,
            0x106 => ErrorCode::Frame,
            0x107 => ErrorCode::ExcessiveLoad,
            0x108 => ErrorCode::Id,
            0x109 => ErrorCode::Settings,
            0x10a => ErrorCode::MissingSettings,
            0x10b => ErrorCode::RequestRejected,
            0x10e => ErrorCode::Message,
            0x200 => ErrorCode::Decompression,
            0x170d_7b68 => ErrorCode::SessionGone,
            0x3994_bd84 => ErrorCode::BufferedStreamRejected,
            _ => return None,
        };
        Some(error)
    }
}

/// The variant's name.
impl fmt::Display for ErrorCode {
    ghost use Rattle.std.specs.Prelude.{Some};
    ghost use Rattle.wt_wire.specs.Codes.{name_of};

    ghost output = { λ e. Some (name_of e) };

    fn fmt<W: fmt::Write>(&self, f: &mut fmt::Formatter<W>) -> fmt::Result {
        match self {
            ErrorCode::Datagram => write!(f, "Datagram"),
            ErrorCode::NoError => write!(f, "NoError"),
            ErrorCode::StreamCreation => write!(f, "StreamCreation"),
            ErrorCode::ClosedCriticalStream => write!(f, "ClosedCriticalStream"),
            ErrorCode::FrameUnexpected => write!(f, "FrameUnexpected"),
            ErrorCode::Frame => write!(f, "Frame"),
            ErrorCode::ExcessiveLoad => write!(f, "ExcessiveLoad"),
            ErrorCode::Id => write!(f, "Id"),
            ErrorCode::Settings => write!(f, "Settings"),
            ErrorCode::MissingSettings => write!(f, "MissingSettings"),
            ErrorCode::RequestRejected => write!(f, "RequestRejected"),
            ErrorCode::Message => write!(f, "Message"),
            ErrorCode::Decompression => write!(f, "Decompression"),
            ErrorCode::SessionGone => write!(f, "SessionGone"),
            ErrorCode::BufferedStreamRejected => write!(f, "BufferedStreamRejected"),
        }
    }
}
