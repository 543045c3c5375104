//! The time after which a silent connection is given up.
ghost use Rattle.std.specs.Prelude.{◌≡◌, ◌↔◌, IsTrue, IsErr, IfOk};
ghost use Rattle.wt_config.specs.Idle.{is_too_long, idle_of};

use std::error::Error;
use std::fmt;
use wt_wire::varint::VarInt;

/// The time after which a silent connection is given up (RFC 9000, section 10.1).
#[derive(Clone, Copy, PartialEq, Eq, Debug)]
pub enum IdleTimeout {
    /// No choice was made: the QUIC library has its own.
    Unset,
    /// A silent connection is never given up.
    Infinite,
    /// This number of milliseconds.
    Millis(VarInt),
}

/// The idle time is above 2^62 - 1 milliseconds, the greatest that `max_idle_timeout` holds
/// (RFC 9000, section 18.2).
#[derive(Drop)]
pub struct InvalidIdleTimeout;

impl fmt::Display for InvalidIdleTimeout {
    ghost use Rattle.std.specs.Prelude.{Some, codes};

    ghost output = { λ _. Some (codes "idle timeout value configuration is invalid") };

    fn fmt<W: fmt::Write>(&self, f: &mut fmt::Formatter<W>) -> fmt::Result {
        write!(f, "idle timeout value configuration is invalid")
    }
}

impl fmt::Debug for InvalidIdleTimeout {
    ghost use Rattle.std.specs.Prelude.{Some, codes};

    ghost debug_output = { λ _. Some (codes "idle timeout value configuration is invalid") };

    fn fmt<W: fmt::Write>(&self, f: &mut fmt::Formatter<W>) -> fmt::Result {
        write!(f, "idle timeout value configuration is invalid")
    }
}

impl Error for InvalidIdleTimeout {}

/// The idle time of this number of milliseconds; without one it is infinite.
///
/// # Errors
///
/// `InvalidIdleTimeout` exactly above 2^62 - 1 milliseconds.
pub(crate) fn idle_timeout(millis: Option<u128>) -> Result<IdleTimeout, InvalidIdleTimeout>
    ensures refused { IsErr result ↔ IsTrue (is_too_long millis) }
    ensures chosen { IfOk result (λ idle. idle ≡ idle_of millis) }
{
    let Some(millis) = millis else {
        return Ok(IdleTimeout::Infinite);
    };
    // max_idle_timeout is a variable-length integer of milliseconds (RFC 9000, section 18.2).
    if millis > u128::from(u64::MAX) {
        return Err(InvalidIdleTimeout);
    }
    match VarInt::try_from_u64(millis as u64) {
        Some(millis) => Ok(IdleTimeout::Millis(millis)),
        None => Err(InvalidIdleTimeout),
    }
}
