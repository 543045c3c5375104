//! The check of a server's certificate against pinned digests.
ghost use Rattle.std.specs.Prelude.{◌≡◌, ◌-ℤ◌, Some, None, IsTrue, IfOk, IfErr, OnOk};
ghost use Rattle.std.specs.FinSet as set;
ghost use Rattle.std.specs.Option.{option_copied};
ghost use Rattle.sha2.specs.Sha256.{sha256};
ghost use Rattle.wt_config.specs.Pin.{refusal_of, is_pinned, is_pinnable, has_short_validity, is_ec, is_p256};

use crate::certificate::{CertFacts, Curve, KeyKind};
use crate::digest::Sha256Digest;
use std::alloc::Global;
use std::collections::BTreeSet;
use std::marker::Model;
use thiserror::Error;
use wt_wire::error::OutOfMemory;

/// The last second of the year 9999, the last moment that a certificate can name.
const LAST_MOMENT: u64 = 253_402_300_799;

/// The longest time for which a pinned certificate may be valid: two weeks, in seconds.
const LONGEST_VALIDITY: i128 = 1_209_600;

/// Why a certificate is refused.
#[derive(Clone, Copy, PartialEq, Eq, Debug, Error)]
pub enum PinRefusal {
    /// The moment is no moment of the years up to 9999.
    #[error("the moment is after the year 9999")]
    MomentOutOfRange,
    /// The certificate could not be decoded.
    #[error("the certificate could not be decoded")]
    BadEncoding,
    /// The certificate is not valid yet.
    #[error("the certificate is not valid yet")]
    NotValidYet,
    /// The certificate is valid no more.
    #[error("the certificate has expired")]
    Expired,
    /// The certificate is none that a pin accepts: it is valid for too long, its key is not on
    /// P-256, or its digest is not pinned.
    #[error("the certificate is not pinned")]
    UnknownIssuer,
}

/// A set of pinned digests of certificates. Contracts see it as a finite set of byte strings.
#[derive(Drop)]
pub struct ServerHashVerification {
    hashes: BTreeSet<Sha256Digest>,
}

impl Model for ServerHashVerification {
    ghost use Rattle.std.specs.Prelude.{ℕ, List};
    ghost use Rattle.std.specs.Ordering.{nat_cmp};
    ghost use Rattle.std.specs.Cmp.Lexicographic.{slice_cmp};
    ghost use Rattle.std.specs.Coded.{coded_ℕ, coded_list};
    ghost use Rattle.std.specs.FinSet as set;

    ghost Value = { set.FinSet (slice_cmp nat_cmp) };

    ghost coded = { set.code (coded_list coded_ℕ) };

    ghost view = { λ verification. set.from_list verification.hashes.keys };
}

impl ServerHashVerification {
    /// The set of these digests.
    ///
    /// # Errors
    ///
    /// `OutOfMemory` where the set found no memory.
    pub fn new(
        alloc: Global,
        hashes: Vec<Sha256Digest>,
    ) -> Result<ServerHashVerification, OutOfMemory>
        ensures { IfOk result (λ verification. verification ≡ set.from_list hashes.items) }
    {
        let mut verification = ServerHashVerification {
            hashes: BTreeSet::new(alloc),
        };
        for hash in hashes {
            verification.add(hash)?;
        }
        Ok(verification)
    }

    /// Pins one more digest.
    ///
    /// # Errors
    ///
    /// `OutOfMemory` where the set found no memory.
    pub fn add(&mut self, digest: Sha256Digest) -> Result<(), OutOfMemory>
        ensures { OnOk result (self.new ≡ set.insert self.old digest) }
    {
        match self.hashes.insert(digest) {
            Ok(_) => Ok(()),
            Err(_) => Err(OutOfMemory),
        }
    }

    /// Whether a client takes a certificate with these DER bytes and these facts at this moment, in
    /// seconds since 1970-01-01 00:00:00 UTC. The facts are None where the bytes could not be
    /// decoded. It takes no memory.
    ///
    /// # Errors
    ///
    /// In this order: `MomentOutOfRange` for a moment after the year 9999; `BadEncoding` without
    /// facts; `NotValidYet` before the first moment of validity; `Expired` after the last;
    /// `UnknownIssuer` where the certificate is valid for more than two weeks, its key is not on an
    /// elliptic curve, the curve is not P-256, or the SHA-256 digest of the DER bytes is not pinned.
    pub fn verify_facts(
        &self,
        der: &[u8],
        facts: Option<&CertFacts>,
        now: u64,
    ) -> Result<(), PinRefusal>
        ensures accepted { OnOk result
            (refusal_of self.now der.now (option_copied facts.entry) now ≡ None) }
        ensures refused { IfErr result
            (λ refusal. refusal_of self.now der.now (option_copied facts.entry) now ≡ Some refusal) }
        ensures pinned { OnOk result (IsTrue (set.contains self.now (sha256 der.now))) }
    {
        // No certificate names a later moment, so none could be valid; and a moment up to here fits an i64.
        if now > LAST_MOMENT {
            return Err(PinRefusal::MomentOutOfRange);
        }
        let Some(facts) = facts else {
            return Err(PinRefusal::BadEncoding);
        };
        let seconds = now as i64;
        if seconds < facts.not_before {
            return Err(PinRefusal::NotValidYet);
        }
        if seconds > facts.not_after {
            return Err(PinRefusal::Expired);
        }
        if self.accepts(der, facts) {
            Ok(())
        } else {
            Err(PinRefusal::UnknownIssuer)
        }
    }

    /// Whether this digest is pinned.
    fn pins(&self, digest: &Sha256Digest) -> bool
        ensures { result ≡ set.contains self.now digest.now }
    {
        self.hashes.contains(digest)
    }

    fn accepts(&self, der: &[u8], facts: &CertFacts) -> bool
        ensures { result ≡ is_pinned self.now der.now facts.now }
    {
        // The facts first: they cost no hash.
        is_pinnable(facts) && self.pins(&Sha256Digest::hash_der(der))
    }
}

/// Whether a certificate may be pinned: it is valid for two weeks at most, and its key is one on
/// P-256.
fn is_pinnable(facts: &CertFacts) -> bool
    ensures { result ≡ is_pinnable facts.now }
{
    has_short_validity(facts) && is_ec(facts.key) && is_p256(facts.curve)
}

fn has_short_validity(facts: &CertFacts) -> bool
    ensures { result ≡ has_short_validity facts.now }
{
    // A pin isn't revoked, so what it names must not live long (W3C WebTransport, "verify a certificate
    // hash").
    seconds_between(facts.not_before, facts.not_after) <= LONGEST_VALIDITY
}

fn seconds_between(from: i64, to: i64) -> i128
    ensures { result ≡ to -ℤ from }
{
    to as i128 - from as i128
}

fn is_ec(key: KeyKind) -> bool
    ensures { result ≡ is_ec key }
{
    match key {
        KeyKind::Ec => true,
        KeyKind::Other => false,
    }
}

fn is_p256(curve: Curve) -> bool
    ensures { result ≡ is_p256 curve }
{
    match curve {
        Curve::P256 => true,
        Curve::Other => false,
    }
}
