//! Prefixed integers (RFC 9204, section 4.1.1; RFC 7541, section 5.1).
ghost use Rattle.std.specs.Prelude.{◌≡◌, ◌<◌, ◌≤◌, ◌+◌, ◌^◌, ◌++◌, length, IfSome, OnOk};
ghost use Rattle.wt_wire.specs.PrefixedInteger.{continuation_at, continuation_bytes, prefixed_at, prefixed_bytes, seven_bits};

use crate::error::OutOfMemory;

/// The number of the bytes after a full prefix, and how many they are; at most `most` are read.
#[tactic(auto, using(crate::proofs::SevenBits::seven_more, crate::proofs::SevenBits::seven_few, crate::proofs::SevenBits::seven_one), unfolding(crate::specs::PrefixedInteger::continuation_at))]
fn read_continuation(bytes: &[u8], most: u8) -> Option<(u64, usize)>
    requires { most ≤ 4 }
    ensures value { result ≡ continuation_at most bytes.now }
    ensures small { IfSome result (λ p. p.0 < seven_bits most) }
    ensures within { IfSome result (λ p. p.1 ≤ length bytes.now) }
{
    // A section has at most 4,096 bytes, so an integer that needs more than four bytes after its prefix is
    // the length of nothing that can be here; with no such bound a peer could write any number of leading
    // zeros.
    if most == 0 || bytes.is_empty() {
        return None;
    }
    let first = bytes[0];
    if first < 128 {
        return Some((first as u64, 1));
    }
    let (high, len) = read_continuation(&bytes[1..], most - 1)?;
    Some(((first - 128) as u64 + 128 * high, len + 1))
}

/// The prefixed integer at the front of the bytes and how many they are (RFC 9204, section 4.1.1).
/// The prefix has the low bits of the first byte, which are all ones at `full`.
#[tactic(auto, unfolding(crate::specs::PrefixedInteger::prefixed_at))]
pub(crate) fn read_prefixed(bytes: &[u8], full: u8) -> Option<(u64, usize)>
    requires { full < 255 }
    ensures value { result ≡ prefixed_at full bytes.now }
    ensures small { IfSome result (λ p. p.0 < 2 ^ 29) }
    ensures within { IfSome result (λ p. p.1 ≤ length bytes.now) }
    ensures some { IfSome result (λ p. 1 ≤ p.1) }
{
    if bytes.is_empty() {
        return None;
    }
    let prefix = bytes[0] % (full + 1);
    if prefix < full {
        return Some((prefix as u64, 1));
    }
    let (more, len) = read_continuation(&bytes[1..], 4)?;
    Some((full as u64 + more, len + 1))
}

#[tactic(auto, using(crate::proofs::WrittenIntegers::pushed_more, crate::proofs::WrittenIntegers::continuation_last))]
fn write_continuation(out: &mut Vec<u8>, number: usize, most: u8) -> Result<(), OutOfMemory>
    ensures { OnOk result (out.new.items ≡ out.old.items ++ continuation_bytes most number) }
{
    if most == 0 {
        return Ok(());
    }
    if number < 128 {
        out.push(number as u8)?;
        return Ok(());
    }
    out.push((number % 128) as u8 + 128)?;
    write_continuation(out, number / 128, most - 1)
}

/// Writes a prefixed integer; `high` has the bits above the prefix.
#[tactic(auto, unfolding(crate::specs::PrefixedInteger::prefixed_bytes))]
pub(crate) fn write_prefixed(
    out: &mut Vec<u8>,
    high: u8,
    full: u8,
    number: usize,
) -> Result<(), OutOfMemory>
    requires { high + full < 256 }
    ensures { OnOk result (out.new.items ≡ out.old.items ++ prefixed_bytes high full number) }
{
    if number < full as usize {
        out.push(high + number as u8)?;
        return Ok(());
    }
    out.push(high + full)?;
    write_continuation(out, number - full as usize, 9)
}
