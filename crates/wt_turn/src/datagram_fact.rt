//! What the transport reports about datagrams.

/// What the transport reports about datagrams (RFC 9221, section 3).
#[derive(Clone, Copy, PartialEq, Eq, Debug)]
pub enum DatagramFact {
    /// This end doesn't use datagrams.
    Disabled,
    /// The peer doesn't take datagrams.
    Unsupported,
    /// The greatest whole datagram, in bytes.
    Limit(u64),
}
