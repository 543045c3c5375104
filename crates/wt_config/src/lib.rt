//! The configuration of a WebTransport endpoint: builders of a server's and a client's
//! configuration, digests of certificates, and the check of a certificate against pinned digests.
//!
//! A configuration is built in steps, and the state of a builder is a type, so that each step is
//! there only where it may be taken:
//!
//! ```text
//! ServerConfig::builder()                  ClientConfig::builder()
//!     .with_bind_default(4433)                 .with_bind_default()
//!     .with_identity(Opaque(7))                .with_native_certs()
//!     .max_idle_timeout(Some(30_000))?         .keep_alive_interval(Some(3_000))
//!     .build()                                 .build()
//! ```
//!
//! TLS is outside: an identity, a TLS configuration and a transport configuration are numbers that
//! the caller chose ([`tls::Opaque`]), and what a certificate says of itself is handed in
//! ([`certificate::CertFacts`]).
#![tactic(auto)]

pub mod bind;
pub mod certificate;
pub mod client;
pub mod config;
pub mod digest;
pub mod dns;
pub mod equality;
pub mod idle;
pub mod send;
pub mod server;
pub mod states;
pub mod theorems;
pub mod tls;
pub mod verification;

pub use certificate::{CertFacts, Curve, KeyKind};
pub use config::{
    BindAddressConfig, ClientConfig, ClientConfigBuilder, DnsResolver, IdleTimeout,
    InvalidIdleTimeout, IpBindConfig, Ipv6DualStackConfig, ServerConfig, ServerConfigBuilder,
};
pub use tls::{
    InvalidDigest, Opaque, PinRefusal, ServerHashVerification, Sha256Digest, Sha256DigestFmt,
    TlsChoice,
};
