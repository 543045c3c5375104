//! What a server's certificate says of itself, as far as the pinned check reads it.

/// The kind of a certificate's public key.
#[derive(Clone, Copy, PartialEq, Eq, Debug)]
pub enum KeyKind {
    /// A key on an elliptic curve (RFC 5480).
    Ec,
    /// Another key.
    Other,
}

/// The curve of a certificate's public key.
#[derive(Clone, Copy, PartialEq, Eq, Debug)]
pub enum Curve {
    /// NIST P-256, `secp256r1`.
    P256,
    /// Another curve, or none.
    Other,
}

/// The facts of a decoded certificate (RFC 5280, section 4.1), which whoever decodes it hands in.
#[derive(Clone, Copy, PartialEq, Eq, Debug)]
pub struct CertFacts {
    /// From which moment it is valid, in seconds since 1970-01-01 00:00:00 UTC.
    pub not_before: i64,
    /// To which moment it is valid, that moment included, in the same seconds.
    pub not_after: i64,
    pub key: KeyKind,
    pub curve: Curve,
}
