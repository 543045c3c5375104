//! The protocol name of the TLS handshake (RFC 7301, section 3.1).

/// The protocol name that both ends agree on in the TLS handshake: "h3" (RFC 9114, section 3.1).
pub const WEBTRANSPORT_ALPN: [u8; 2] = [0x68, 0x33];
