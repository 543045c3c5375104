//! Socket addresses and their text.
ghost use Rattle.std.specs.Prelude.{◌≡◌, ◌↔◌, IsTrue};

use std::fmt;

/// A socket address, without flow and scope. It is shown as four decimal numbers with dots, or as
/// eight groups of plain hexadecimal with colons in brackets, and then a colon and the port.
#[derive(Clone, Copy, Debug, PartialEq, Eq)]
pub enum Addr {
    /// An address of IPv4, its first byte the highest.
    V4 { ip: u32, port: u16 },
    /// An address of IPv6, its first group the highest.
    V6 { ip: u128, port: u16 },
}

impl Addr {
    /// Whether both are of one version, with the same address and the same port.
    pub fn is_equal(&self, other: &Addr) -> bool
        ensures { IsTrue result ↔ (self.now ≡ other.now) }
    {
        self == other
    }
}

/// Four numbers with dots.
#[derive(Clone, Copy)]
struct Dotted(u32);

impl fmt::Display for Dotted {
    ghost use Rattle.std.specs.Prelude.{Some};
    ghost use Rattle.wt_wire.specs.Addresses.{dotted_quad};

    ghost output = { λ d. Some (dotted_quad d.0) };

    fn fmt<W: fmt::Write>(&self, f: &mut fmt::Formatter<W>) -> fmt::Result {
        let (a, b) = (self.0 / 0x100_0000, self.0 / 0x1_0000 % 0x100);
        let (c, d) = (self.0 / 0x100 % 0x100, self.0 % 0x100);
        write!(f, "{a}.{b}.{c}.{d}")
    }
}

/// Four groups of hexadecimal with colons.
#[derive(Clone, Copy)]
struct FourGroups(u64);

impl fmt::Display for FourGroups {
    ghost use Rattle.std.specs.Prelude.{Some};
    ghost use Rattle.wt_wire.specs.Addresses.{four_groups};

    ghost output = { λ g. Some (four_groups g.0) };

    fn fmt<W: fmt::Write>(&self, f: &mut fmt::Formatter<W>) -> fmt::Result {
        let a = self.0 / 0x1_0000_0000_0000;
        let b = self.0 / 0x1_0000_0000 % 0x1_0000;
        let (c, d) = (self.0 / 0x1_0000 % 0x1_0000, self.0 % 0x1_0000);
        write!(f, "{a:x}:{b:x}:{c:x}:{d:x}")
    }
}

impl fmt::Display for Addr {
    ghost use Rattle.std.specs.Prelude.{Some};
    ghost use Rattle.wt_wire.specs.Addresses.{address_text};

    ghost output = { λ a. Some (address_text a) };

    fn fmt<W: fmt::Write>(&self, f: &mut fmt::Formatter<W>) -> fmt::Result {
        match *self {
            Addr::V4 { ip, port } => {
                let ip = Dotted(ip);
                write!(f, "{ip}:{port}")
            }
            Addr::V6 { ip, port } => {
                let high = FourGroups((ip / 0x1_0000_0000_0000_0000) as u64);
                let low = FourGroups((ip % 0x1_0000_0000_0000_0000) as u64);
                write!(f, "[{high}:{low}]:{port}")
            }
        }
    }
}
