//! Why no session came about.
ghost use Rattle.std.specs.Prelude.{◌≡◌, ◌↔◌, IfOk, IsTrue};

use crate::connection_error::ConnectionError;
use std::alloc::Global;
use thiserror::Error;
use wt_wire::addr::Addr;
use wt_wire::error::OutOfMemory;
use wt_wire::text::Text;

/// Why a URL isn't one of a WebTransport session.
#[derive(Clone, Copy, PartialEq, Eq, Debug, Error)]
pub enum UrlRefusal {
    /// The text is no URL.
    #[error("not a valid URL")]
    Parse,
    /// The scheme isn't `https`.
    #[error("WebTransport URL scheme must be 'https'")]
    Scheme,
}

/// Why a connect failed.
#[derive(PartialEq, Eq, Debug, Drop, Error)]
pub enum ConnectingError {
    /// The URL is refused.
    #[error("invalid URL: {0}")]
    InvalidUrl(UrlRefusal),
    /// The lookup of the host failed, for this reason.
    #[error("cannot resolve domain: {reason}", reason = .0.as_str())]
    DnsLookup(Text),
    /// The host has no address.
    #[error("cannot resolve domain")]
    DnsNotFound,
    /// The connection ended.
    #[error(transparent)]
    ConnectionError(ConnectionError),
    /// The server answered the request by another status than 2xx.
    #[error("server rejected WebTransport session request")]
    SessionRejected,
    /// An additional header field has a name that the request itself uses.
    #[error("additional header '{name}' is reserved", name = .0.as_str())]
    ReservedHeader(Text),
    /// The endpoint is stopping.
    #[error("endpoint stopping")]
    EndpointStopping,
    /// There are no more connection ids.
    #[error("CIDs exhausted")]
    CidsExhausted,
    /// The name of the server isn't lawful.
    #[error("invalid server name: {name}", name = .0.as_str())]
    InvalidServerName(Text),
    /// The address isn't one that can be reached.
    #[error("invalid remote address: {0}")]
    InvalidRemoteAddress(Addr),
}

impl ConnectingError {
    /// An error that is equal to this one.
    pub fn copy(&self, alloc: Global) -> Result<ConnectingError, OutOfMemory>
        ensures { IfOk result (λ a. a ≡ self.now) }
    {
        Ok(match self {
            ConnectingError::InvalidUrl(refusal) => ConnectingError::InvalidUrl(*refusal),
            ConnectingError::DnsLookup(reason) => ConnectingError::DnsLookup(Text::from_text(
                alloc,
                reason.as_str(),
            )?),
            ConnectingError::DnsNotFound => ConnectingError::DnsNotFound,
            ConnectingError::ConnectionError(error) => ConnectingError::ConnectionError(error.copy(
                alloc,
            )?),
            ConnectingError::SessionRejected => ConnectingError::SessionRejected,
            ConnectingError::ReservedHeader(name) => ConnectingError::ReservedHeader(
                Text::from_text(alloc, name.as_str())?,
            ),
            ConnectingError::EndpointStopping => ConnectingError::EndpointStopping,
            ConnectingError::CidsExhausted => ConnectingError::CidsExhausted,
            ConnectingError::InvalidServerName(name) => ConnectingError::InvalidServerName(
                Text::from_text(alloc, name.as_str())?,
            ),
            ConnectingError::InvalidRemoteAddress(address) => ConnectingError::InvalidRemoteAddress(
                *address,
            ),
        })
    }

    /// Whether both are the same error with the same fields.
    pub fn is_equal(&self, other: &ConnectingError) -> bool
        ensures { IsTrue result ↔ (self.now ≡ other.now) }
    {
        match self {
            ConnectingError::InvalidUrl(refusal) =>
                matches!(other, ConnectingError::InvalidUrl(other_refusal) if refusal == other_refusal),
            ConnectingError::DnsLookup(reason) =>
                matches!(other, ConnectingError::DnsLookup(other_reason) if reason.is_equal(other_reason)),
            ConnectingError::DnsNotFound => matches!(other, ConnectingError::DnsNotFound),
            ConnectingError::ConnectionError(error) =>
                matches!(other, ConnectingError::ConnectionError(other_error) if error.is_equal(other_error)),
            ConnectingError::SessionRejected => matches!(other, ConnectingError::SessionRejected),
            ConnectingError::ReservedHeader(name) =>
                matches!(other, ConnectingError::ReservedHeader(other_name) if name.is_equal(other_name)),
            ConnectingError::EndpointStopping => matches!(other, ConnectingError::EndpointStopping),
            ConnectingError::CidsExhausted => matches!(other, ConnectingError::CidsExhausted),
            ConnectingError::InvalidServerName(name) =>
                matches!(other, ConnectingError::InvalidServerName(other_name) if name.is_equal(other_name)),
            ConnectingError::InvalidRemoteAddress(address) =>
                matches!(other, ConnectingError::InvalidRemoteAddress(other_address) if address == other_address),
        }
    }
}

/// The connection ended before the session stood.
impl From<ConnectionError> for ConnectingError {
    ghost use Rattle.wt_turn.specs.declared.connecting_error.ConnectingError.TheVariants as connects;

    ghost from_gives = { λ ended error. error ≡ connects.ConnectionError ended };

    fn from(ended: ConnectionError) -> ConnectingError {
        ConnectingError::ConnectionError(ended)
    }
}
