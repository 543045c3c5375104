//! What a resolver and QUIC answer when a connection is asked for.
ghost use Rattle.std.specs.Prelude.{◌≡◌, ◌↔◌, IfOk, IsTrue};

use crate::addr::Addr;
use crate::error::OutOfMemory;
use crate::text::Text;

/// What a resolver answers for the name of a host.
#[derive(Debug, PartialEq, Eq, Drop)]
pub enum Lookup {
    /// The host has this address.
    Found(Addr),
    /// The host has no address.
    NotFound,
    /// The lookup failed, for this reason.
    Fault(Text),
}

impl Lookup {
    /// Whether both are the same answer with the same fields.
    pub fn is_equal(&self, other: &Lookup) -> bool
        ensures { IsTrue result ↔ (self.now ≡ other.now) }
    {
        self == other
    }

    /// The same answer, its text in memory of that text's allocator.
    pub fn copy(&self) -> Result<Lookup, OutOfMemory>
        ensures { IfOk result (λ l. l ≡ self.now) }
    {
        match self {
            Lookup::Found(address) => Ok(Lookup::Found(*address)),
            Lookup::NotFound => Ok(Lookup::NotFound),
            Lookup::Fault(reason) => Ok(Lookup::Fault(reason.copy()?)),
        }
    }
}

/// What QUIC answers when a connection to an address is asked for.
#[derive(Debug, PartialEq, Eq, Drop)]
pub enum ConnectOutcome {
    /// The connection is being made.
    Proceed,
    /// The endpoint is stopping.
    EndpointStopping,
    /// There are no more connection ids.
    CidsExhausted,
    /// The name of the server isn't lawful.
    InvalidServerName(Text),
    /// The address isn't one that can be reached.
    InvalidRemoteAddress(Addr),
}

impl ConnectOutcome {
    /// Whether both are the same answer with the same fields.
    pub fn is_equal(&self, other: &ConnectOutcome) -> bool
        ensures { IsTrue result ↔ (self.now ≡ other.now) }
    {
        self == other
    }

    /// The same answer, its text in memory of that text's allocator.
    pub fn copy(&self) -> Result<ConnectOutcome, OutOfMemory>
        ensures { IfOk result (λ o. o ≡ self.now) }
    {
        match self {
            ConnectOutcome::Proceed => Ok(ConnectOutcome::Proceed),
            ConnectOutcome::EndpointStopping => Ok(ConnectOutcome::EndpointStopping),
            ConnectOutcome::CidsExhausted => Ok(ConnectOutcome::CidsExhausted),
            ConnectOutcome::InvalidServerName(name) => {
                Ok(ConnectOutcome::InvalidServerName(name.copy()?))
            }
            ConnectOutcome::InvalidRemoteAddress(address) => {
                Ok(ConnectOutcome::InvalidRemoteAddress(*address))
            }
        }
    }
}
