//! How a connection ended.
ghost use Rattle.std.specs.Prelude.{◌≡◌, ◌↔◌, IfOk, IsTrue};
ghost use Rattle.wt_turn.specs.ProtoReason.{reason_text};

use crate::close::{ApplicationClose, ConnectionClose};
use crate::loss::LossReason;
use std::alloc::Global;
use std::fmt;
use std::marker::Model;
use thiserror::Error;
use wt_wire::error::{ErrorCode, OutOfMemory};
use wt_wire::text::Text;
use wt_wire::varint::VarInt;

/// This end closed the connection since the peer broke a rule of HTTP/3 or of WebTransport.
#[derive(Clone, Copy, PartialEq, Eq, Debug)]
pub struct H3Error {
    code: ErrorCode,
}

impl Model for H3Error {
    ghost use Rattle.wt_wire.specs.declared.error.ErrorCode.{ErrorCode};

    ghost Value = { ErrorCode };

    ghost view = { λ e. e.code };

    ghost inverse = { λ c. record { code = c } };
}

impl H3Error {
    /// The error of this code.
    pub fn new(code: ErrorCode) -> H3Error
        ensures { result ≡ code }
    {
        H3Error { code }
    }

    /// The code with which the connection was closed.
    pub fn code(&self) -> ErrorCode
        ensures { result ≡ self.now }
    {
        self.code
    }
}

/// The code's name.
impl fmt::Display for H3Error {
    ghost use Rattle.std.specs.Prelude.{Some};
    ghost use Rattle.wt_wire.specs.Codes.{name_of};

    ghost output = { λ e. Some (name_of e) };

    fn fmt<W: fmt::Write>(&self, f: &mut fmt::Formatter<W>) -> fmt::Result {
        let code = self.code;
        write!(f, "{code}")
    }
}

impl std::error::Error for H3Error {}

/// What a reason says: a text that is always the same takes no memory.
#[derive(Debug, Drop)]
enum Reason {
    VersionMismatched,
    HasBeenReset,
    Described(Text),
}

impl Reason {
    fn as_str(&self) -> &str
        ensures { result.now ≡ reason_text self.now }
    {
        match self {
            Reason::VersionMismatched => "QUIC protocol version mismatched",
            Reason::HasBeenReset => "connection has been reset",
            Reason::Described(text) => text.as_str(),
        }
    }
}

/// An error of the QUIC protocol ended the connection.
#[derive(Debug, Drop)]
pub struct QuicProtoError {
    code: Option<VarInt>,
    reason: Reason,
}

impl Model for QuicProtoError {
    ghost use Rattle.wt_turn.specs.ProtoReason.{ProtoError, reason_text};

    ghost Value = { ProtoError };

    ghost view = { λ e. record { code = e.code; reason = reason_text e.reason } };
}

impl QuicProtoError {
    /// An error with this code, where it has one, and this reason.
    pub fn new(code: Option<VarInt>, reason: Text) -> QuicProtoError
        ensures { result ≡ record { code = code; reason = reason } }
    {
        QuicProtoError {
            code,
            reason: Reason::Described(reason),
        }
    }

    /// The code; None where it has none.
    pub fn code(&self) -> Option<VarInt>
        ensures { result ≡ self.now.code }
    {
        self.code
    }

    /// The reason.
    pub fn reason(&self) -> &str
        ensures { result.now ≡ self.now.reason }
    {
        self.reason.as_str()
    }

    /// An error with the same code and the same reason.
    pub fn copy(&self, alloc: Global) -> Result<QuicProtoError, OutOfMemory>
        ensures { IfOk result (λ e. e ≡ self.now) }
    {
        Ok(QuicProtoError::new(self.code, Text::from_text(alloc, self.reason())?))
    }

    /// Whether both have the same code and the same reason.
    pub fn is_equal(&self, other: &QuicProtoError) -> bool
        ensures { IsTrue result ↔ (self.now ≡ other.now) }
    {
        self.code == other.code && self.reason().as_bytes() == other.reason().as_bytes()
    }
}

impl PartialEq for QuicProtoError {
    ghost use Rattle.std.specs.Cmp.{partial_equiv_from_equiv};
    ghost use Rattle.wt_turn.specs.ProtoReason.{proto_error_eq, proto_error_equiv};

    ghost eq = { proto_error_eq };

    ghost laws = { partial_equiv_from_equiv proto_error_equiv };

    fn eq(&self, other: &QuicProtoError) -> bool {
        self.code == other.code && self.reason().as_bytes() == other.reason().as_bytes()
    }
}

impl Eq for QuicProtoError {
    ghost use Rattle.wt_turn.specs.ProtoReason.{proto_error_equiv};

    ghost laws = { proto_error_equiv };
}

/// The reason, and the code where there is one.
impl fmt::Display for QuicProtoError {
    ghost use Rattle.std.specs.Prelude.{Some};
    ghost use Rattle.wt_turn.specs.ProtoReason.{proto_error_text};

    ghost output = { λ e. Some (proto_error_text e.code e.reason) };

    fn fmt<W: fmt::Write>(&self, f: &mut fmt::Formatter<W>) -> fmt::Result {
        let reason = self.reason();
        match self.code {
            None => write!(f, "{reason}"),
            Some(code) => write!(f, "{reason} (code: {code})"),
        }
    }
}

impl std::error::Error for QuicProtoError {}

/// How a connection ended.
#[derive(PartialEq, Eq, Debug, Drop, Error)]
pub enum ConnectionError {
    /// The peer's transport closed the connection.
    #[error("connection aborted by peer: {0}")]
    ConnectionClosed(ConnectionClose),
    /// The application at the peer closed the connection.
    #[error("connection closed by peer: {0}")]
    ApplicationClosed(ApplicationClose),
    /// This end closed the connection.
    #[error("connection locally closed")]
    LocallyClosed,
    /// This end closed the connection since the peer broke a rule.
    #[error("connection locally aborted: {0}")]
    LocalH3Error(H3Error),
    /// Nothing came for too long.
    #[error("connection timed out")]
    TimedOut,
    /// An error of the QUIC protocol.
    #[error("QUIC protocol error: {0}")]
    QuicProto(QuicProtoError),
    /// There are no more connection ids.
    #[error("CIDs exhausted")]
    CidsExhausted,
}

impl ConnectionError {
    /// An error that is equal to this one.
    pub fn copy(&self, alloc: Global) -> Result<ConnectionError, OutOfMemory>
        ensures { IfOk result (λ e. e ≡ self.now) }
    {
        Ok(match self {
            ConnectionError::ConnectionClosed(close) => {
                ConnectionError::ConnectionClosed(close.copy()?)
            }
            ConnectionError::ApplicationClosed(close) => {
                ConnectionError::ApplicationClosed(close.copy()?)
            }
            ConnectionError::LocallyClosed => ConnectionError::LocallyClosed,
            ConnectionError::LocalH3Error(error) => ConnectionError::LocalH3Error(*error),
            ConnectionError::TimedOut => ConnectionError::TimedOut,
            ConnectionError::QuicProto(error) => ConnectionError::QuicProto(error.copy(alloc)?),
            ConnectionError::CidsExhausted => ConnectionError::CidsExhausted,
        })
    }

    /// Whether both are the same error with the same fields.
    pub fn is_equal(&self, other: &ConnectionError) -> bool
        ensures { IsTrue result ↔ (self.now ≡ other.now) }
    {
        match self {
            ConnectionError::ConnectionClosed(close) => {
                matches!(other, ConnectionError::ConnectionClosed(c) if close.is_equal(c))
            }
            ConnectionError::ApplicationClosed(close) => {
                matches!(other, ConnectionError::ApplicationClosed(c) if close.is_equal(c))
            }
            ConnectionError::LocallyClosed => matches!(other, ConnectionError::LocallyClosed),
            ConnectionError::LocalH3Error(error) => {
                matches!(other, ConnectionError::LocalH3Error(e) if error == e)
            }
            ConnectionError::TimedOut => matches!(other, ConnectionError::TimedOut),
            ConnectionError::QuicProto(error) => {
                matches!(other, ConnectionError::QuicProto(e) if error.is_equal(e))
            }
            ConnectionError::CidsExhausted => matches!(other, ConnectionError::CidsExhausted),
        }
    }
}

/// A connection that is lost is reported by this error from then on. No memory is taken.
impl From<LossReason> for ConnectionError {
    ghost use Rattle.wt_turn.specs.ProtoError.{error_of_loss};

    ghost from_gives = { λ reason error. error ≡ error_of_loss reason };

    fn from(reason: LossReason) -> ConnectionError {
        match reason {
            LossReason::VersionMismatch => ConnectionError::QuicProto(QuicProtoError {
                code: None,
                reason: Reason::VersionMismatched,
            }),
            LossReason::TransportError { code, reason } => {
                ConnectionError::QuicProto(QuicProtoError::new(VarInt::try_from_u64(code), reason))
            }
            LossReason::ConnectionClosed(close) => ConnectionError::ConnectionClosed(close),
            LossReason::ApplicationClosed(close) => ConnectionError::ApplicationClosed(close),
            LossReason::Reset => ConnectionError::QuicProto(QuicProtoError {
                code: None,
                reason: Reason::HasBeenReset,
            }),
            LossReason::TimedOut => ConnectionError::TimedOut,
            LossReason::CidsExhausted => ConnectionError::CidsExhausted,
        }
    }
}
