//! How a peer closed a connection (RFC 9000, section 10.2).
ghost use Rattle.std.specs.Prelude.{◌≡◌, ◌↔◌, IfOk, IsTrue};

use crate::piece::Piece;
use bstr::BStr;
use std::fmt;
use std::marker::{Model, PhantomData};
use wt_wire::error::OutOfMemory;
use wt_wire::varint::VarInt;

/// Marks a close of the application at the peer (RFC 9000, section 19.19, type 0x1d).
#[derive(Debug, PartialEq, Eq)]
pub struct ByApplication;

/// Marks a close of the peer's transport (RFC 9000, section 19.19, type 0x1c).
#[derive(Debug, PartialEq, Eq)]
pub struct ByTransport;

/// The application at the peer closed the connection (RFC 9000, section 19.19, type 0x1d).
pub type ApplicationClose = PeerClose<ByApplication>;

/// The peer's transport closed the connection (RFC 9000, section 19.19, type 0x1c).
pub type ConnectionClose = PeerClose<ByTransport>;

/// The peer closed the connection; `B` marks by whom: `ByApplication` or `ByTransport`.
#[derive(Debug, Drop, PartialEq, Eq)]
pub struct PeerClose<B> {
    code: VarInt,
    reason: Piece,
    by: PhantomData<B>,
}

impl<B> Model for PeerClose<B> {
    ghost use Rattle.wt_turn.specs.Close.{Close};

    ghost Value = { Close };

    ghost view = { λ c. record { code = c.code; reason = c.reason } };

    ghost inverse = { λ c. record { code = c.code; reason = c.reason; by = record {} } };
}

impl<B> PeerClose<B> {
    /// A close with this code and this reason.
    pub fn new(code: VarInt, reason: Piece) -> PeerClose<B>
        ensures { result ≡ record { code = code; reason = reason } }
    {
        PeerClose {
            code,
            reason,
            by: PhantomData,
        }
    }

    /// The code that the peer gave.
    pub fn code(&self) -> VarInt
        ensures { result ≡ self.now.code }
    {
        self.code
    }

    /// The bytes of the reason.
    pub fn reason(&self) -> &[u8]
        ensures { result.now ≡ self.now.reason }
    {
        self.reason.as_slice()
    }

    /// A close with the same code and the same reason.
    pub fn copy(&self) -> Result<PeerClose<B>, OutOfMemory>
        ensures { IfOk result (λ c. c ≡ self.now) }
    {
        Ok(PeerClose {
            code: self.code,
            reason: self.reason.copy()?,
            by: PhantomData,
        })
    }

    /// Whether both have the same code and the same reason.
    pub fn is_equal(&self, other: &PeerClose<B>) -> bool
        ensures { IsTrue result ↔ (self.now ≡ other.now) }
    {
        self.code == other.code && self.reason.is_equal(&other.reason)
    }
}

/// The code alone where there is no reason, else the reason with what isn't UTF-8 replaced, and the
/// code.
impl<B> fmt::Display for PeerClose<B> {
    ghost use Rattle.std.specs.Prelude.{Some};
    ghost use Rattle.wt_turn.specs.Close.{close_text};

    ghost output = { λ c. Some (close_text c.code c.reason) };

    fn fmt<W: fmt::Write>(&self, f: &mut fmt::Formatter<W>) -> fmt::Result {
        let code = self.code;
        if self.reason.as_slice().is_empty() {
            return write!(f, "{code}");
        }
        let reason = BStr::new(self.reason.as_slice());
        write!(f, "{reason} (code {code})")
    }
}
