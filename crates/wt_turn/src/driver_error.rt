//! Why a driver has nothing more to give.
ghost use Rattle.std.specs.Prelude.{◌≡◌, ◌↔◌, IfOk, IsTrue};

use crate::close::ApplicationClose;
use thiserror::Error;
use wt_wire::error::{ErrorCode, OutOfMemory};

/// How the connection of a driver ended.
#[derive(PartialEq, Eq, Debug, Drop, Error)]
pub enum DriverError {
    /// The driver closed it, since the peer broke a rule.
    #[error("connection locally aborted: {0}")]
    Proto(ErrorCode),
    /// The peer ended the session.
    #[error("session closed by peer: {0}")]
    ApplicationClosed(ApplicationClose),
    /// It was lost, or closed by the application, the endpoint or the handshake.
    #[error("not connected")]
    NotConnected,
}

impl DriverError {
    /// An error that is equal to this one.
    pub fn copy(&self) -> Result<DriverError, OutOfMemory>
        ensures { IfOk result (λ e. e ≡ self.now) }
    {
        Ok(match self {
            DriverError::Proto(code) => DriverError::Proto(*code),
            DriverError::ApplicationClosed(close) => DriverError::ApplicationClosed(close.copy()?),
            DriverError::NotConnected => DriverError::NotConnected,
        })
    }

    /// Whether both are the same error with the same fields.
    pub fn is_equal(&self, other: &DriverError) -> bool
        ensures { IsTrue result ↔ (self.now ≡ other.now) }
    {
        match self {
            DriverError::Proto(code) => matches!(other, DriverError::Proto(c) if code == c),
            DriverError::ApplicationClosed(close) => {
                matches!(other, DriverError::ApplicationClosed(c) if close.is_equal(c))
            }
            DriverError::NotConnected => matches!(other, DriverError::NotConnected),
        }
    }
}
