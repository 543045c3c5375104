//! The configuration of a client, and its builder.
ghost use Rattle.std.specs.Prelude.{◌≡◌, ◌↔◌, Some, None, IsTrue, IsErr, IfOk};
ghost use Rattle.std.specs.FinSet as set;
ghost use Rattle.wt_config.specs.Bind.{bind_of, bind_of_address};
ghost use Rattle.wt_config.specs.Client.{settings_of, resolver_of, lookup_answer, builder_settings, builder_resolver, client_settings, default_settings};
ghost use Rattle.wt_config.specs.Idle.{is_too_long, idle_of};

use crate::bind::{BindAddressConfig, IpBindConfig, Ipv6DualStackConfig};
use crate::digest::Sha256Digest;
use crate::dns::DnsResolver;
use crate::idle::{IdleTimeout, InvalidIdleTimeout, idle_timeout};
use crate::states::{WantsBindAddress, WantsRootStore, WantsTransportConfigClient};
use crate::tls::{Opaque, TlsChoice};
use crate::verification::ServerHashVerification;
use std::alloc::Global;
use std::marker::Model;
use wt_wire::addr::Addr;
use wt_wire::error::OutOfMemory;
use wt_wire::lookup::Lookup;

/// The configuration of a client. Contracts see its choices by `settings_of`, and its resolver by
/// `resolver_of`.
#[derive(Drop)]
pub struct ClientConfig {
    bind: BindAddressConfig,
    tls: TlsChoice,
    transport: Option<Opaque>,
    idle: IdleTimeout,
    keep_alive: Option<u128>,
    dns_resolver: Option<Box<dyn DnsResolver>>,
}

impl ClientConfig {
    /// A builder with nothing chosen.
    pub fn builder() -> ClientConfigBuilder<WantsBindAddress> {
        ClientConfigBuilder::default()
    }

    /// The address to be bound to.
    pub fn bind(&self) -> &BindAddressConfig
        ensures { result.now ≡ (settings_of self.now).bind }
    {
        &self.bind
    }

    /// How the client knows a server.
    pub fn tls(&self) -> &TlsChoice
        ensures { result.now ≡ (settings_of self.now).tls }
    {
        &self.tls
    }

    /// The transport configuration that the caller knows by this number, if one was chosen.
    pub fn transport(&self) -> Option<Opaque>
        ensures { result ≡ (settings_of self.now).transport }
    {
        self.transport
    }

    /// The time after which a silent connection is given up.
    pub fn idle(&self) -> IdleTimeout
        ensures { result ≡ (settings_of self.now).idle }
    {
        self.idle
    }

    /// How often a connection is kept alive, in milliseconds, if it is.
    pub fn keep_alive(&self) -> Option<u128>
        ensures { result ≡ (settings_of self.now).keep_alive }
    {
        self.keep_alive
    }

    /// Keeps another resolver in place of the one that was kept.
    pub fn set_dns_resolver(&mut self, dns_resolver: Box<dyn DnsResolver>)
        ensures resolver { resolver_of self.new ≡ Some dns_resolver }
        ensures same { settings_of self.new ≡ settings_of self.old }
    {
        self.dns_resolver = Some(dns_resolver);
    }

    /// What the resolver answers for a host, and None without a resolver.
    ///
    /// # Errors
    ///
    /// `OutOfMemory` where the answer found no memory.
    pub fn lookup(&self, alloc: Global, host: &str) -> Result<Option<Lookup>, OutOfMemory>
        ensures { IfOk result (λ answer. answer ≡ lookup_answer
            (λ resolver. (⟦<dyn DnsResolver as DnsResolver>⟧ resolver).lookup_of) (resolver_of self.now) host.now) }
    {
        match &self.dns_resolver {
            None => Ok(None),
            Some(resolver) => Ok(Some(resolver.resolve(alloc, host)?)),
        }
    }
}

/// Bound to any address of IPv6 and IPv4, with the certificates that the machine trusts, and without
/// a resolver.
impl Default for ClientConfig {
    fn default() -> ClientConfig
        ensures settings { settings_of result ≡ default_settings }
        ensures resolver { resolver_of result ≡ None }
    {
        ClientConfig::builder()
            .with_bind_default()
            .with_native_certs()
            .build()
    }
}

/// A builder of a client's configuration. Contracts see its state.
#[must_use]
#[derive(Drop)]
pub struct ClientConfigBuilder<State> {
    state: State,
}

impl<State> Model for ClientConfigBuilder<State> {
    ghost Value = { State };

    ghost view = { λ builder. builder.state };
}

impl Default for ClientConfigBuilder<WantsBindAddress> {
    fn default() -> ClientConfigBuilder<WantsBindAddress> {
        ClientConfigBuilder {
            state: WantsBindAddress {},
        }
    }
}

impl ClientConfigBuilder<WantsBindAddress> {
    /// Chooses any address of IPv6 and IPv4, as `InAddrAnyDual`, and any port.
    pub fn with_bind_default(self) -> ClientConfigBuilder<WantsRootStore>
        ensures { result ≡ bind_of IpBindConfig.InAddrAnyDual 0 }
    {
        self.with_bind_config(IpBindConfig::InAddrAnyDual)
    }

    /// Chooses a usual address, and any port.
    pub fn with_bind_config(
        self,
        ip_bind_config: IpBindConfig,
    ) -> ClientConfigBuilder<WantsRootStore>
        ensures { result ≡ bind_of ip_bind_config 0 }
    {
        self.bound_to(ip_bind_config.at_port(0))
    }

    /// Chooses this address. At one of IPv6 the operating system's default says whether IPv4 is
    /// taken too.
    pub fn with_bind_address(self, address: Addr) -> ClientConfigBuilder<WantsRootStore>
        ensures { result ≡ bind_of_address address }
    {
        self.bound_to(BindAddressConfig::from(address))
    }

    /// Chooses this address of IPv6, and whether IPv4 is taken too.
    pub fn with_bind_address_v6(
        self,
        ip: u128,
        port: u16,
        dual: Ipv6DualStackConfig,
    ) -> ClientConfigBuilder<WantsRootStore>
        ensures { result ≡ BindAddressConfig.AddressV6 ip port dual }
    {
        self.bound_to(BindAddressConfig::AddressV6 { ip, port, dual })
    }

    fn bound_to(self, bind: BindAddressConfig) -> ClientConfigBuilder<WantsRootStore>
        ensures { result ≡ bind }
    {
        ClientConfigBuilder {
            state: WantsRootStore { bind },
        }
    }
}

impl ClientConfigBuilder<WantsRootStore> {
    /// Chooses the certificates that the machine trusts.
    pub fn with_native_certs(self) -> ClientConfigBuilder<WantsTransportConfigClient>
        ensures chosen { builder_settings result ≡ client_settings self TlsChoice.Native None }
        ensures resolver { builder_resolver result ≡ None }
    {
        self.with(TlsChoice::Native, None)
    }

    /// Chooses to take each certificate. Such a client cannot know whom it speaks with.
    pub fn with_no_cert_validation(self) -> ClientConfigBuilder<WantsTransportConfigClient>
        ensures chosen { builder_settings result ≡ client_settings self TlsChoice.NoValidation None }
        ensures resolver { builder_resolver result ≡ None }
    {
        self.with(TlsChoice::NoValidation, None)
    }

    /// Chooses to take the certificates with these digests.
    ///
    /// # Errors
    ///
    /// `OutOfMemory` where the set of digests found no memory. The builder is then gone.
    pub fn with_server_certificate_hashes(
        self,
        alloc: Global,
        hashes: Vec<Sha256Digest>,
    ) -> Result<ClientConfigBuilder<WantsTransportConfigClient>, OutOfMemory>
        ensures chosen { IfOk result (λ builder. builder_settings builder
            ≡ client_settings self (TlsChoice.Hashes (set.from_list hashes.items)) None) }
        ensures resolver { IfOk result (λ builder. builder_resolver builder ≡ None) }
    {
        let verification = ServerHashVerification::new(alloc, hashes)?;
        Ok(self.with(TlsChoice::Hashes(verification), None))
    }

    /// Chooses the TLS configuration that the caller knows by this number.
    pub fn with_custom_tls(
        self,
        tls_config: Opaque,
    ) -> ClientConfigBuilder<WantsTransportConfigClient>
        ensures chosen { builder_settings result ≡ client_settings self (TlsChoice.Custom tls_config) None }
        ensures resolver { builder_resolver result ≡ None }
    {
        self.with(TlsChoice::Custom(tls_config), None)
    }

    /// Chooses the certificates that the machine trusts, and a transport configuration of the
    /// caller's.
    pub fn with_custom_transport(
        self,
        transport_config: Opaque,
    ) -> ClientConfigBuilder<WantsTransportConfigClient>
        ensures chosen { builder_settings result ≡ client_settings self TlsChoice.Native (Some transport_config) }
        ensures resolver { builder_resolver result ≡ None }
    {
        self.with(TlsChoice::Native, Some(transport_config))
    }

    /// Chooses a TLS configuration and a transport configuration of the caller's.
    pub fn with_custom_tls_and_transport(
        self,
        tls_config: Opaque,
        transport_config: Opaque,
    ) -> ClientConfigBuilder<WantsTransportConfigClient>
        ensures chosen { builder_settings result
            ≡ client_settings self (TlsChoice.Custom tls_config) (Some transport_config) }
        ensures resolver { builder_resolver result ≡ None }
    {
        self.with(TlsChoice::Custom(tls_config), Some(transport_config))
    }

    fn with(
        self,
        tls: TlsChoice,
        transport: Option<Opaque>,
    ) -> ClientConfigBuilder<WantsTransportConfigClient>
        ensures chosen { builder_settings result ≡ client_settings self tls transport }
        ensures resolver { builder_resolver result ≡ None }
    {
        let config = ClientConfig {
            bind: self.state.bind,
            tls,
            transport,
            idle: IdleTimeout::Unset,
            keep_alive: None,
            dns_resolver: None,
        };
        ClientConfigBuilder {
            state: WantsTransportConfigClient { config },
        }
    }
}

impl ClientConfigBuilder<WantsTransportConfigClient> {
    /// The configuration that was built.
    #[must_use]
    pub fn build(self) -> ClientConfig
        ensures settings { settings_of result ≡ builder_settings self }
        ensures resolver { resolver_of result ≡ builder_resolver self }
    {
        self.state.config
    }

    /// Chooses after how many milliseconds a silent connection is given up; None is never.
    ///
    /// # Errors
    ///
    /// `InvalidIdleTimeout` exactly above 2^62 - 1 milliseconds. The builder is then gone.
    pub fn max_idle_timeout(
        mut self,
        idle_millis: Option<u128>,
    ) -> Result<ClientConfigBuilder<WantsTransportConfigClient>, InvalidIdleTimeout>
        ensures refused { IsErr result ↔ IsTrue (is_too_long idle_millis) }
        ensures chosen { IfOk result (λ builder. builder_settings builder ≡ record (builder_settings self) { idle = idle_of idle_millis }) }
        ensures resolver { IfOk result (λ builder. builder_resolver builder ≡ builder_resolver self) }
    {
        self.state.config.idle = idle_timeout(idle_millis)?;
        Ok(self)
    }

    /// Chooses how often a connection is kept alive, in milliseconds; None is never.
    pub fn keep_alive_interval(
        mut self,
        interval_millis: Option<u128>,
    ) -> ClientConfigBuilder<WantsTransportConfigClient>
        ensures chosen { builder_settings result ≡ record (builder_settings self) { keep_alive = interval_millis } }
        ensures resolver { builder_resolver result ≡ builder_resolver self }
    {
        self.state.config.keep_alive = interval_millis;
        self
    }

    /// Chooses a resolver.
    pub fn dns_resolver(
        mut self,
        dns_resolver: Box<dyn DnsResolver>,
    ) -> ClientConfigBuilder<WantsTransportConfigClient>
        ensures resolver { builder_resolver result ≡ Some dns_resolver }
        ensures same { builder_settings result ≡ builder_settings self }
    {
        self.state.config.dns_resolver = Some(dns_resolver);
        self
    }
}
