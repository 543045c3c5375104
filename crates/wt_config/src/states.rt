//! The states of a builder: what is chosen, and by their types what is to be chosen next.
//!
//! ```text
//! a server  WantsBindAddress --with_bind_..--> WantsIdentity --with_identity, with_custom_..--> WantsTransportConfigServer --build--> ServerConfig
//! a client  WantsBindAddress --with_bind_..--> WantsRootStore --with_native_certs ..--> WantsTransportConfigClient --build--> ClientConfig
//! ```
use crate::bind::BindAddressConfig;
use crate::client::ClientConfig;
use crate::server::ServerConfig;
use std::marker::Model;

/// The address to be bound to is to be chosen.
#[derive(Drop)]
pub struct WantsBindAddress {}

/// The identity of a server is to be chosen. Contracts see the address that was chosen.
#[derive(Drop)]
pub struct WantsIdentity {
    pub(crate) bind: BindAddressConfig,
}

impl Model for WantsIdentity {
    ghost use Rattle.wt_config.specs.declared.bind.BindAddressConfig.{BindAddressConfig};

    ghost Value = { BindAddressConfig };

    ghost view = { λ state. state.bind };
}

/// How a client knows a server is to be chosen. Contracts see the address that was chosen.
#[derive(Drop)]
pub struct WantsRootStore {
    pub(crate) bind: BindAddressConfig,
}

impl Model for WantsRootStore {
    ghost use Rattle.wt_config.specs.declared.bind.BindAddressConfig.{BindAddressConfig};

    ghost Value = { BindAddressConfig };

    ghost view = { λ state. state.bind };
}

/// The transport of a server may be chosen. Contracts see all that was chosen.
#[derive(Drop)]
pub struct WantsTransportConfigServer {
    pub(crate) config: ServerConfig,
}

impl Model for WantsTransportConfigServer {
    ghost use Rattle.std.specs.Coded.{codes};
    ghost use Rattle.wt_config.specs.Server.{ServerSettings};
    ghost use Rattle.wt_config.specs.contracts.verification.ServerHashVerification as pins;

    ghost Value = { ServerSettings };

    ghost coded = { Prim.hlevel (codes, pins.the_row.coded) };

    ghost view = { λ state. state.config };
}

/// The transport and the resolver of a client may be chosen. Contracts see the configuration so far.
#[derive(Drop)]
pub struct WantsTransportConfigClient {
    pub(crate) config: ClientConfig,
}
