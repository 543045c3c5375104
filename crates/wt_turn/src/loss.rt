//! Why a connection is lost.
ghost use Rattle.std.specs.Prelude.{◌≡◌, ◌↔◌, IfOk, IsTrue};

use crate::close::{ApplicationClose, ConnectionClose};
use std::alloc::Global;
use wt_wire::error::OutOfMemory;
use wt_wire::text::Text;

/// Why a connection is lost, as the transport reports it.
#[derive(Debug, Drop, PartialEq, Eq)]
pub enum LossReason {
    /// The peer speaks no version of QUIC that this end speaks (RFC 9000, section 6).
    VersionMismatch,
    /// This end's transport met an error (RFC 9000, section 20.1).
    TransportError { code: u64, reason: Text },
    /// The peer's transport closed the connection.
    ConnectionClosed(ConnectionClose),
    /// The application at the peer closed the connection.
    ApplicationClosed(ApplicationClose),
    /// The peer lost the connection's state (RFC 9000, section 10.3).
    Reset,
    /// Nothing came for too long (RFC 9000, section 10.1).
    TimedOut,
    /// There are no more connection ids.
    CidsExhausted,
}

impl LossReason {
    /// A reason that is equal to this one.
    pub fn copy(&self, alloc: Global) -> Result<LossReason, OutOfMemory>
        ensures { IfOk result (λ r. r ≡ self.now) }
    {
        Ok(match self {
            LossReason::VersionMismatch => LossReason::VersionMismatch,
            LossReason::TransportError { code, reason } => LossReason::TransportError {
                code: *code,
                reason: Text::from_text(alloc, reason.as_str())?,
            },
            LossReason::ConnectionClosed(close) => LossReason::ConnectionClosed(close.copy()?),
            LossReason::ApplicationClosed(close) => LossReason::ApplicationClosed(close.copy()?),
            LossReason::Reset => LossReason::Reset,
            LossReason::TimedOut => LossReason::TimedOut,
            LossReason::CidsExhausted => LossReason::CidsExhausted,
        })
    }

    /// Whether both are the same reason with the same fields.
    pub fn is_equal(&self, other: &LossReason) -> bool
        ensures { IsTrue result ↔ (self.now ≡ other.now) }
    {
        match self {
            LossReason::VersionMismatch => matches!(other, LossReason::VersionMismatch),
            LossReason::TransportError { code, reason } =>
                matches!(other, LossReason::TransportError { code: c, reason: r } if code == c && reason.is_equal(r)),
            LossReason::ConnectionClosed(close) => {
                matches!(other, LossReason::ConnectionClosed(c) if close.is_equal(c))
            }
            LossReason::ApplicationClosed(close) => {
                matches!(other, LossReason::ApplicationClosed(c) if close.is_equal(c))
            }
            LossReason::Reset => matches!(other, LossReason::Reset),
            LossReason::TimedOut => matches!(other, LossReason::TimedOut),
            LossReason::CidsExhausted => matches!(other, LossReason::CidsExhausted),
        }
    }
}
