//! The configuration of a server, and its builder.
ghost use Rattle.std.specs.Prelude.{◌≡◌, ◌↔◌, Some, None, IsTrue, IsErr, IfOk};
ghost use Rattle.wt_config.specs.Bind.{bind_of, bind_of_address};
ghost use Rattle.wt_config.specs.Idle.{is_too_long, idle_of};
ghost use Rattle.wt_config.specs.Server.{server_settings};

use crate::bind::{BindAddressConfig, IpBindConfig, Ipv6DualStackConfig};
use crate::idle::{IdleTimeout, InvalidIdleTimeout, idle_timeout};
use crate::states::{WantsBindAddress, WantsIdentity, WantsTransportConfigServer};
use crate::tls::{Opaque, TlsChoice};
use std::marker::Model;
use wt_wire::addr::Addr;

/// The configuration of a server. Contracts see the record of its choices.
#[derive(Drop)]
pub struct ServerConfig {
    bind: BindAddressConfig,
    tls: TlsChoice,
    transport: Option<Opaque>,
    idle: IdleTimeout,
    keep_alive: Option<u128>,
    migration: bool,
}

impl Model for ServerConfig {
    ghost use Rattle.std.specs.Coded.{codes};
    ghost use Rattle.wt_config.specs.Server.{ServerSettings};
    ghost use Rattle.wt_config.specs.contracts.verification.ServerHashVerification as pins;

    ghost Value = { ServerSettings };

    ghost coded = { Prim.hlevel (codes, pins.the_row.coded) };

    ghost view = { λ config. record {
      bind = config.bind;
      tls = config.tls;
      transport = config.transport;
      idle = config.idle;
      keep_alive = config.keep_alive;
      migration = config.migration;
    } };
}

impl ServerConfig {
    /// A builder with nothing chosen.
    pub fn builder() -> ServerConfigBuilder<WantsBindAddress> {
        ServerConfigBuilder::default()
    }

    /// The address to be bound to.
    pub fn bind(&self) -> &BindAddressConfig
        ensures { result.now ≡ self.now.bind }
    {
        &self.bind
    }

    /// How the server proves who it is.
    pub fn tls(&self) -> &TlsChoice
        ensures { result.now ≡ self.now.tls }
    {
        &self.tls
    }

    /// The transport configuration that the caller knows by this number, if one was chosen.
    pub fn transport(&self) -> Option<Opaque>
        ensures { result ≡ self.now.transport }
    {
        self.transport
    }

    /// The time after which a silent connection is given up.
    pub fn idle(&self) -> IdleTimeout
        ensures { result ≡ self.now.idle }
    {
        self.idle
    }

    /// How often a connection is kept alive, in milliseconds, if it is.
    pub fn keep_alive(&self) -> Option<u128>
        ensures { result ≡ self.now.keep_alive }
    {
        self.keep_alive
    }

    /// Whether a client may go on from another address (RFC 9000, section 9).
    pub fn migration(&self) -> bool
        ensures { result ≡ self.now.migration }
    {
        self.migration
    }
}

/// A builder of a server's configuration. Contracts see its state.
#[must_use]
#[derive(Drop)]
pub struct ServerConfigBuilder<State> {
    state: State,
}

impl<State> Model for ServerConfigBuilder<State> {
    ghost Value = { State };

    ghost view = { λ builder. builder.state };
}

impl Default for ServerConfigBuilder<WantsBindAddress> {
    fn default() -> ServerConfigBuilder<WantsBindAddress> {
        ServerConfigBuilder {
            state: WantsBindAddress {},
        }
    }
}

impl ServerConfigBuilder<WantsBindAddress> {
    /// Chooses any address of IPv6 and IPv4, as `InAddrAnyDual`, and this port.
    pub fn with_bind_default(self, listening_port: u16) -> ServerConfigBuilder<WantsIdentity>
        ensures { result ≡ bind_of IpBindConfig.InAddrAnyDual listening_port }
    {
        self.with_bind_config(IpBindConfig::InAddrAnyDual, listening_port)
    }

    /// Chooses a usual address, and this port.
    pub fn with_bind_config(
        self,
        ip_bind_config: IpBindConfig,
        listening_port: u16,
    ) -> ServerConfigBuilder<WantsIdentity>
        ensures { result ≡ bind_of ip_bind_config listening_port }
    {
        self.bound_to(ip_bind_config.at_port(listening_port))
    }

    /// Chooses this address. At one of IPv6 the operating system's default says whether IPv4 is
    /// taken too.
    pub fn with_bind_address(self, address: Addr) -> ServerConfigBuilder<WantsIdentity>
        ensures { result ≡ bind_of_address address }
    {
        self.bound_to(BindAddressConfig::from(address))
    }

    /// Chooses this address of IPv6, and whether IPv4 is taken too.
    pub fn with_bind_address_v6(
        self,
        ip: u128,
        port: u16,
        dual: Ipv6DualStackConfig,
    ) -> ServerConfigBuilder<WantsIdentity>
        ensures { result ≡ BindAddressConfig.AddressV6 ip port dual }
    {
        self.bound_to(BindAddressConfig::AddressV6 { ip, port, dual })
    }

    fn bound_to(self, bind: BindAddressConfig) -> ServerConfigBuilder<WantsIdentity>
        ensures { result ≡ bind }
    {
        ServerConfigBuilder {
            state: WantsIdentity { bind },
        }
    }
}

impl ServerConfigBuilder<WantsIdentity> {
    /// Chooses the identity that the caller knows by this number.
    pub fn with_identity(self, identity: Opaque) -> ServerConfigBuilder<WantsTransportConfigServer>
        ensures { result ≡ server_settings self (TlsChoice.Identity identity) None }
    {
        self.with(TlsChoice::Identity(identity), None)
    }

    /// Chooses the TLS configuration that the caller knows by this number.
    pub fn with_custom_tls(
        self,
        tls_config: Opaque,
    ) -> ServerConfigBuilder<WantsTransportConfigServer>
        ensures { result ≡ server_settings self (TlsChoice.Custom tls_config) None }
    {
        self.with(TlsChoice::Custom(tls_config), None)
    }

    /// Chooses an identity, and a transport configuration of the caller's.
    pub fn with_custom_transport(
        self,
        identity: Opaque,
        transport_config: Opaque,
    ) -> ServerConfigBuilder<WantsTransportConfigServer>
        ensures { result ≡ server_settings self (TlsChoice.Identity identity) (Some transport_config) }
    {
        self.with(TlsChoice::Identity(identity), Some(transport_config))
    }

    /// Chooses a TLS configuration and a transport configuration of the caller's.
    pub fn with_custom_tls_and_transport(
        self,
        tls_config: Opaque,
        transport_config: Opaque,
    ) -> ServerConfigBuilder<WantsTransportConfigServer>
        ensures { result ≡ server_settings self (TlsChoice.Custom tls_config) (Some transport_config) }
    {
        self.with(TlsChoice::Custom(tls_config), Some(transport_config))
    }

    fn with(
        self,
        tls: TlsChoice,
        transport: Option<Opaque>,
    ) -> ServerConfigBuilder<WantsTransportConfigServer>
        ensures { result ≡ server_settings self tls transport }
    {
        let config = ServerConfig {
            bind: self.state.bind,
            tls,
            transport,
            idle: IdleTimeout::Unset,
            keep_alive: None,
            migration: true,
        };
        ServerConfigBuilder {
            state: WantsTransportConfigServer { config },
        }
    }
}

impl ServerConfigBuilder<WantsTransportConfigServer> {
    /// The configuration that was built.
    #[must_use]
    pub fn build(self) -> ServerConfig
        ensures { result ≡ self }
    {
        self.state.config
    }

    /// Chooses after how many milliseconds a silent connection is given up; None is never.
    ///
    /// # Errors
    ///
    /// `InvalidIdleTimeout` exactly above 2^62 - 1 milliseconds. The builder is then gone.
    pub fn max_idle_timeout(
        mut self,
        idle_millis: Option<u128>,
    ) -> Result<ServerConfigBuilder<WantsTransportConfigServer>, InvalidIdleTimeout>
        ensures refused { IsErr result ↔ IsTrue (is_too_long idle_millis) }
        ensures chosen { IfOk result (λ builder. builder ≡ record self { idle = idle_of idle_millis }) }
    {
        self.state.config.idle = idle_timeout(idle_millis)?;
        Ok(self)
    }

    /// Chooses how often a connection is kept alive, in milliseconds; None is never.
    pub fn keep_alive_interval(
        mut self,
        interval_millis: Option<u128>,
    ) -> ServerConfigBuilder<WantsTransportConfigServer>
        ensures { result ≡ record self { keep_alive = interval_millis } }
    {
        self.state.config.keep_alive = interval_millis;
        self
    }

    /// Chooses whether a client may go on from another address.
    pub fn allow_migration(mut self, value: bool) -> ServerConfigBuilder<WantsTransportConfigServer>
        ensures { result ≡ record self { migration = value } }
    {
        self.state.config.migration = value;
        self
    }
}
