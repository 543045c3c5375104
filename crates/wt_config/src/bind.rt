//! The address that an endpoint is to be bound to.
ghost use Rattle.std.specs.Prelude.{◌≡◌};
ghost use Rattle.wt_config.specs.Bind.{bind_of, bind_of_address};

use wt_wire::addr::Addr;

/// The loopback address of IPv4, 127.0.0.1.
const LOCALHOST_V4: u32 = 0x7f00_0001;

/// The loopback address of IPv6, ::1.
const LOCALHOST_V6: u128 = 1;

/// A usual choice of the address to be bound to.
#[derive(Clone, Copy, Debug)]
pub enum IpBindConfig {
    /// 127.0.0.1.
    LocalV4,
    /// ::1, for IPv6 alone.
    LocalV6,
    /// ::1, for IPv6 and IPv4.
    LocalDual,
    /// 0.0.0.0.
    InAddrAnyV4,
    /// ::, for IPv6 alone.
    InAddrAnyV6,
    /// ::, for IPv6 and IPv4.
    InAddrAnyDual,
}

/// Whether a socket of IPv6 takes packets of IPv4 too (RFC 3493, section 5.3).
#[derive(Clone, Copy, Debug)]
pub enum Ipv6DualStackConfig {
    /// As the operating system has it by default.
    OsDefault,
    /// IPv6 alone.
    Deny,
    /// IPv6 and IPv4.
    Allow,
}

/// The address that an endpoint is to be bound to.
#[derive(Clone, Copy, Debug)]
pub enum BindAddressConfig {
    /// An address of IPv4, its first byte the highest.
    AddressV4 {
        ip: u32,
        port: u16,
    },
    /// An address of IPv6, its first group the highest.
    AddressV6 {
        ip: u128,
        port: u16,
        dual: Ipv6DualStackConfig,
    },
}

/// An address of IPv6 is bound as the operating system has it by default.
impl From<Addr> for BindAddressConfig {
    ghost from_gives = { λ address bind. bind ≡ bind_of_address address };

    fn from(address: Addr) -> BindAddressConfig {
        match address {
            Addr::V4 { ip, port } => BindAddressConfig::AddressV4 { ip, port },
            Addr::V6 { ip, port } => BindAddressConfig::AddressV6 {
                ip,
                port,
                dual: Ipv6DualStackConfig::OsDefault,
            },
        }
    }
}

impl IpBindConfig {
    /// The address of this choice, with a port.
    pub(crate) fn at_port(self, port: u16) -> BindAddressConfig
        ensures { result ≡ bind_of self port }
    {
        let (ip, dual) = match self {
            IpBindConfig::LocalV4 => {
                let ip = LOCALHOST_V4;
                return BindAddressConfig::AddressV4 { ip, port };
            }
            IpBindConfig::InAddrAnyV4 => return BindAddressConfig::AddressV4 { ip: 0, port },
            IpBindConfig::LocalV6 => (LOCALHOST_V6, Ipv6DualStackConfig::Deny),
            IpBindConfig::LocalDual => (LOCALHOST_V6, Ipv6DualStackConfig::Allow),
            IpBindConfig::InAddrAnyV6 => (0, Ipv6DualStackConfig::Deny),
            IpBindConfig::InAddrAnyDual => (0, Ipv6DualStackConfig::Allow),
        };
        BindAddressConfig::AddressV6 { ip, port, dual }
    }
}
