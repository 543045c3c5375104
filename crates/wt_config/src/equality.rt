//! `==` of what a configuration and a certificate are told by is its equality: two values are found equal
//! exactly where their variants and their fields are. (Of digests, `theorems` says so.)
ghost use Rattle.std.specs.Prelude.{◌≡◌, ◌↔◌, IsTrue};

use crate::certificate::{CertFacts, Curve, KeyKind};
use crate::idle::IdleTimeout;
use crate::tls::Opaque;
use crate::verification::PinRefusal;

/// Of the caller's numbers.
pub fn numbers_are_equal(first: Opaque, second: Opaque) -> bool
    ensures { IsTrue result ↔ (first ≡ second) }
{
    first == second
}

/// Of kinds of public keys.
pub fn kinds_are_equal(first: KeyKind, second: KeyKind) -> bool
    ensures { IsTrue result ↔ (first ≡ second) }
{
    first == second
}

/// Of curves of public keys.
pub fn curves_are_equal(first: Curve, second: Curve) -> bool
    ensures { IsTrue result ↔ (first ≡ second) }
{
    first == second
}

/// Of the facts of certificates.
pub fn facts_are_equal(first: &CertFacts, second: &CertFacts) -> bool
    ensures { IsTrue result ↔ (first.now ≡ second.now) }
{
    first == second
}

/// Of the times after which a silent connection is given up.
pub fn times_are_equal(first: IdleTimeout, second: IdleTimeout) -> bool
    ensures { IsTrue result ↔ (first ≡ second) }
{
    first == second
}

/// Of the reasons why a certificate is refused.
pub fn refusals_are_equal(first: PinRefusal, second: PinRefusal) -> bool
    ensures { IsTrue result ↔ (first ≡ second) }
{
    first == second
}
