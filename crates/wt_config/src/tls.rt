//! How the two ends prove who they are. TLS is outside: its configurations are numbers that the
//! caller chose.
pub use crate::digest::{InvalidDigest, Sha256Digest, Sha256DigestFmt};
pub use crate::verification::{PinRefusal, ServerHashVerification};

/// A number by which the caller knows an identity, a TLS configuration or a transport configuration
/// of its own. It is kept, and nothing here reads it.
#[derive(Clone, Copy, PartialEq, Eq, Debug)]
pub struct Opaque(pub u64);

/// How the two ends prove who they are.
#[derive(Drop)]
pub enum TlsChoice {
    /// A server proves itself by this identity.
    Identity(Opaque),
    /// By this TLS configuration.
    Custom(Opaque),
    /// A client takes the certificates that the machine trusts.
    Native,
    /// A client takes each certificate.
    NoValidation,
    /// A client takes the certificates with these digests, as `verify_facts` says.
    Hashes(ServerHashVerification),
}
