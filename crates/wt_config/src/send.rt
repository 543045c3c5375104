//! What a configuration is made of may cross threads.
use crate::bind::{BindAddressConfig, IpBindConfig, Ipv6DualStackConfig};
use crate::certificate::{CertFacts, Curve, KeyKind};
use crate::client::{ClientConfig, ClientConfigBuilder};
use crate::digest::{InvalidDigest, Sha256Digest, Sha256DigestFmt};
use crate::idle::{IdleTimeout, InvalidIdleTimeout};
use crate::server::{ServerConfig, ServerConfigBuilder};
use crate::states::{
    WantsBindAddress, WantsIdentity, WantsRootStore, WantsTransportConfigClient,
    WantsTransportConfigServer,
};
use crate::tls::{Opaque, TlsChoice};
use crate::verification::{PinRefusal, ServerHashVerification};

fn is_send<T: Send>() {}

fn may_be_sent<T: Send>(_value: &T) {}

/// Each type of this crate is `Send`: that this compiles is the proof.
pub fn all_are_send() {
    is_send::<BindAddressConfig>();
    is_send::<IpBindConfig>();
    is_send::<Ipv6DualStackConfig>();
    is_send::<CertFacts>();
    is_send::<KeyKind>();
    is_send::<Curve>();
    is_send::<Sha256Digest>();
    is_send::<Sha256DigestFmt>();
    is_send::<InvalidDigest>();
    is_send::<IdleTimeout>();
    is_send::<InvalidIdleTimeout>();
    is_send::<Opaque>();
    is_send::<TlsChoice>();
    is_send::<ServerHashVerification>();
    is_send::<PinRefusal>();
    is_send::<ServerConfig>();
    is_send::<ServerConfigBuilder<WantsBindAddress>>();
    is_send::<ServerConfigBuilder<WantsIdentity>>();
    is_send::<ServerConfigBuilder<WantsTransportConfigServer>>();
    is_send::<ClientConfigBuilder<WantsBindAddress>>();
    is_send::<ClientConfigBuilder<WantsRootStore>>();
}

/// So is a client's configuration, and its last builder, with the resolver that it keeps.
pub fn a_client_is_send(
    config: &ClientConfig,
    builder: &ClientConfigBuilder<WantsTransportConfigClient>,
) {
    // By values, since what keeps a trait object can't be named in a call without one.
    may_be_sent(config);
    may_be_sent(builder);
}
