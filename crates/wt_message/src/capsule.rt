//! Capsules (RFC 9297, section 3.2), of which the one that closes a session is read
//! (draft-ietf-webtrans-http3, section 5).
ghost use Rattle.std.specs.Prelude.{◌≡◌, ◌<◌, ◌≤◌, ◌^◌, length, IfOk, IfErr};
ghost use Rattle.wt_message.specs.Capsule.{close_of};
ghost use Rattle.wt_wire.specs.declared.error.ErrorCode.TheVariants as errors;

use std::alloc::Global;
use std::marker::Model;
use wt_wire::error::{ErrorCode, OutOfMemory};
use wt_wire::text::Text;
use wt_wire::utf8::from_utf8;
use wt_wire::varint::VarInt;

/// The longest reason, in bytes (draft-ietf-webtrans-http3, section 5).
const LONGEST_REASON: usize = 1024;

/// What a capsule CLOSE_WEBTRANSPORT_SESSION says (draft-ietf-webtrans-http3, section 5).
/// Contracts see a record of the code and the reason.
#[derive(Debug, Drop)]
pub struct CloseWebTransportSession {
    error_code: VarInt,
    reason: Text,
}

impl Model for CloseWebTransportSession {
    ghost use Rattle.wt_message.specs.SessionClose.{IsSessionClose, SessionClose};

    ghost Value = { SessionClose };

    ghost view = { λ c. record { error_code = c.error_code; reason = c.reason } };

    ghost invariant = { λ c. IsSessionClose (record { error_code = c.error_code; reason = c.reason }) };
}

impl CloseWebTransportSession {
    /// Reads a capsule's value: a code of four bytes, the highest first, and a reason of at most
    /// 1024 bytes of UTF-8. The error is `Message`, where it is anything else.
    pub fn with_capsule(
        alloc: Global,
        value: &[u8],
    ) -> Result<Result<CloseWebTransportSession, ErrorCode>, OutOfMemory>
        ensures close { IfOk result (λ r. r ≡ close_of value.now) }
        ensures error { IfOk result (λ r. IfErr r (λ e. e ≡ errors.Message)) }
    {
        // The longest reason is the draft's, so that what an application is given of a peer's is bounded.
        if value.len() < 4 || value.len() - 4 > LONGEST_REASON {
            return Ok(Err(ErrorCode::Message));
        }
        let Some(reason) = from_utf8(&value[4..]) else {
            return Ok(Err(ErrorCode::Message));
        };
        let error_code = u32::from_be_bytes([value[0], value[1], value[2], value[3]]);
        Ok(Ok(CloseWebTransportSession {
            error_code: VarInt::from_u32(error_code),
            reason: Text::from_text(alloc, reason)?,
        }))
    }

    /// The code, which an application chose.
    pub fn error_code(&self) -> VarInt
        ensures value { result ≡ self.now.error_code }
        ensures small { result < 2 ^ 32 }
    {
        self.error_code
    }

    /// The reason, which an application chose.
    pub fn reason(&self) -> &str
        ensures value { result.now ≡ self.now.reason }
        ensures short { length result.now ≤ 1024 }
    {
        self.reason.as_str()
    }
}

impl CloseWebTransportSession {
    /// The code and the reason.
    pub fn into_parts(self) -> (VarInt, Text)
        ensures { result ≡ (self.error_code, self.reason) }
    {
        (self.error_code, self.reason)
    }
}
