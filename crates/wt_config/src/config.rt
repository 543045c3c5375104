//! The two configurations and what their builders name, under the one name that the Rust crate gives
//! them.

pub use crate::bind::{BindAddressConfig, IpBindConfig, Ipv6DualStackConfig};
pub use crate::client::{ClientConfig, ClientConfigBuilder};
pub use crate::dns::DnsResolver;
pub use crate::idle::{IdleTimeout, InvalidIdleTimeout};
pub use crate::server::{ServerConfig, ServerConfigBuilder};
pub use crate::states;
