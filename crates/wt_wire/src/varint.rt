//! Variable-length integers (RFC 9000, section 16).
ghost use Rattle.std.specs.Prelude.{◌≡◌, ◌≤◌, ◌<◌, ◌^◌, ◌+◌, ◌++◌, ◌↔◌, List, ℕ, length, IfSome, IsSome, OnOk, Some};
ghost use Rattle.wt_wire.specs.Varint.{varint_at, varint_bytes};

use crate::error::OutOfMemory;
use std::fmt;
use std::marker::Model;

/// An integer below 2^62, as stream ids, error codes, lengths and settings are. Contracts see the
/// number.
#[derive(Clone, Copy, Debug, PartialEq, Eq)]
pub struct VarInt {
    value: u64,
}

impl Model for VarInt {
    ghost use Rattle.std.specs.Prelude.{ℕ, ◌<◌, ◌^◌};

    ghost Value = { ℕ };

    ghost view = { λ v. v.value };

    ghost invariant = { λ v. v.value < 2 ^ 62 };

    ghost inverse = { λ n. record { value = n } };
}

impl VarInt {
    /// The greatest one, 2^62 - 1.
    pub const MAX: VarInt = VarInt {
        value: 0x3fff_ffff_ffff_ffff,
    };

    /// The integer of this number.
    pub fn from_u32(value: u32) -> VarInt
        ensures { result ≡ value }
    {
        VarInt {
            value: value as u64,
        }
    }

    /// None exactly above 2^62 - 1.
    pub fn try_from_u64(value: u64) -> Option<VarInt>
        ensures some { IsSome result ↔ (value < 2 ^ 62) }
        ensures value { IfSome result (λ v. v ≡ value) }
    {
        if value < 1 << 62 {
            Some(VarInt { value })
        } else {
            None
        }
    }

    /// The number.
    pub fn into_inner(self) -> u64
        ensures value { result ≡ self }
        ensures small { result < 2 ^ 62 }
    {
        self.value
    }

    /// The integer of this number, which is below 2^62.
    pub fn from_u64(value: u64) -> VarInt
        requires { value < 2 ^ 62 }
        ensures { result ≡ value }
    {
        VarInt { value }
    }
}

/// The number in decimal digits.
impl fmt::Display for VarInt {
    ghost use Rattle.std.specs.Prelude.{Some};
    ghost use Rattle.std.specs.Fmt.{decimal};

    ghost output = { λ v. Some (decimal v) };

    fn fmt<W: fmt::Write>(&self, f: &mut fmt::Formatter<W>) -> fmt::Result {
        let value = self.value;
        write!(f, "{value}")
    }
}

/// The integer at the front of the bytes, in any of its encodings, and how many bytes it takes;
/// None exactly where the bytes end inside it.
#[tactic(auto, unfolding(crate::specs::Varint::varint_at))]
pub fn read_varint(bytes: &[u8]) -> Option<(VarInt, usize)>
    ensures value { result ≡ varint_at bytes.now }
    ensures within { IfSome result (λ p. p.1 ≤ length bytes.now) }
    ensures small { IfSome result (λ p. p.0 < 2 ^ 62) }
    ensures some { IfSome result (λ p. 1 ≤ p.1) }
    ensures few { IfSome result (λ p. p.1 ≤ 8) }
{
    // The two high bits of the first byte say how many follow. A longer encoding than the shortest is read
    // too: the shortest is owed for the types of QUIC's own frames alone (RFC 9000, section 12.4).
    match bytes {
        [first, ..] if *first < 64 => Some((VarInt::from_u64(u64::from(*first)), 1)),
        [first, b, ..] if *first < 128 => {
            let value = u16::from_be_bytes([*first % 64, *b]);
            Some((VarInt::from_u64(u64::from(value)), 2))
        }
        [first, b, c, d, ..] if *first >= 128 && *first < 192 => {
            let value = u32::from_be_bytes([*first % 64, *b, *c, *d]);
            Some((VarInt::from_u64(u64::from(value)), 4))
        }
        [first, b, c, d, e, f, g, h, ..] if *first >= 192 => {
            let value = u64::from_be_bytes([*first % 64, *b, *c, *d, *e, *f, *g, *h]);
            Some((VarInt::from_u64(value), 8))
        }
        _ => None,
    }
}

/// Appends the shortest encoding of the integer.
#[tactic(auto, unfolding(crate::specs::Varint::varint_bytes))]
fn push_varint(value: VarInt, out: &mut Vec<u8>) -> Result<(), OutOfMemory>
    ensures bytes { OnOk result (out.new.items ≡ out.old.items ++ varint_bytes value) }
    ensures small { value < 2 ^ 62 }
{
    // The shortest, so that what is written is the same bytes each time.
    let n = value.into_inner();
    if n < 1 << 6 {
        out.push(n as u8)?;
    } else if n < 1 << 14 {
        out.extend_from_slice(&((1 << 14) + n as u16).to_be_bytes())?;
    } else if n < 1 << 30 {
        out.extend_from_slice(&((1 << 31) + n as u32).to_be_bytes())?;
    } else {
        out.extend_from_slice(&((3 << 62) + n).to_be_bytes())?;
    }
    Ok(())
}

/// Appends the shortest encoding of the integer, which reads back whatever follows it.
#[tactic(auto, using(crate::proofs::VarintAgain::varint_again))]
pub fn write_varint(value: VarInt, out: &mut Vec<u8>) -> Result<(), OutOfMemory>
    ensures bytes { OnOk result (out.new.items ≡ out.old.items ++ varint_bytes value) }
    ensures small { value < 2 ^ 62 }
    ensures again { (more : List ℕ) → varint_at (varint_bytes value ++ more) ≡ Some (value, length (varint_bytes value)) }
{
    push_varint(value, out)
}
