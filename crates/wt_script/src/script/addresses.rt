//! Addresses, lookups and outcomes in a script.
ghost use Rattle.std.specs.Prelude.{◌≡◌, ◌∷◌, IfOk, Some, None};
ghost use Rattle.std.specs.Char.{is_ascii_graphic};
ghost use Rattle.std.specs.List.{list_all};
ghost use Rattle.wt_script.specs.Addresses.{address_of_words, address_with, ipv4_of, ipv6_of, lookup_of, lookup_with, outcome_of, outcome_with, url_of};

use crate::script::numbers::read_port;
use crate::script::pairs::text_alone;
use crate::script::words::{Parts, is_name};
use std::alloc::Global;
use wt_wire::addr::Addr;
use wt_wire::error::OutOfMemory;
use wt_wire::lookup::{ConnectOutcome, Lookup};
use wt_wire::text::Text;
use wt_wire::utf8::from_utf8;

/// The four bytes of an address.
fn read_ipv4(digits: &[u8]) -> Option<u32>
    ensures { result ≡ ipv4_of digits.now }
{
    let mut bytes = [0u8; 4];
    match hex::decode_to_slice(digits, &mut bytes) {
        Ok(()) => Some(u32::from_be_bytes(bytes)),
        Err(_) => None,
    }
}

/// The sixteen bytes of an address.
fn read_ipv6(digits: &[u8]) -> Option<u128>
    ensures { result ≡ ipv6_of digits.now }
{
    let mut bytes = [0u8; 16];
    match hex::decode_to_slice(digits, &mut bytes) {
        Ok(()) => Some(u128::from_be_bytes(bytes)),
        Err(_) => None,
    }
}

fn address_from(version: &[u8], ip: &[u8], port: &[u8]) -> Option<Addr>
    ensures { result ≡ address_with version.now ip.now port.now }
{
    if is_name(version, b"v4") {
        let ip = read_ipv4(ip)?;
        let port = read_port(port)?;
        return Some(Addr::V4 { ip, port });
    }
    if is_name(version, b"v6") {
        let ip = read_ipv6(ip)?;
        let port = read_port(port)?;
        return Some(Addr::V6 { ip, port });
    }
    None
}

/// An address by its version, its bytes and its port.
pub fn read_address(parts: &Parts) -> Option<Addr>
    ensures { result ≡ address_of_words parts.now }
{
    let (version, rest) = parts.split_first()?;
    let (ip, port) = rest.two()?;
    address_from(version, ip, port)
}

fn lookup_from(
    alloc: Global,
    kind: &[u8],
    whole: &Parts,
    fields: &Parts,
) -> Result<Option<Lookup>, OutOfMemory>
    requires { whole.now ≡ kind.now ∷ fields.now }
    ensures { IfOk result (λ lookup. lookup ≡ lookup_with kind.now fields.now) }
{
    if is_name(kind, b"none") {
        return Ok(fields.alone(Lookup::NotFound));
    }
    if is_name(kind, b"fault") {
        let reason = text_alone(alloc, fields)?;
        return Ok(reason.map(Lookup::Fault));
    }
    Ok(read_address(whole).map(Lookup::Found))
}

/// What a resolver answers.
pub fn read_lookup(alloc: Global, word: &[u8]) -> Result<Option<Lookup>, OutOfMemory>
    ensures { IfOk result (λ lookup. lookup ≡ lookup_of word.now) }
{
    let parts = Parts::of(b':', word);
    match parts.split_first() {
        Some((kind, fields)) => lookup_from(alloc, kind, &parts, &fields),
        None => Ok(None),
    }
}

fn outcome_from(
    alloc: Global,
    kind: &[u8],
    fields: &Parts,
) -> Result<Option<ConnectOutcome>, OutOfMemory>
    ensures { IfOk result (λ outcome. outcome ≡ outcome_with kind.now fields.now) }
{
    if is_name(kind, b"proceed") {
        return Ok(fields.alone(ConnectOutcome::Proceed));
    }
    if is_name(kind, b"stopping") {
        return Ok(fields.alone(ConnectOutcome::EndpointStopping));
    }
    if is_name(kind, b"cids") {
        return Ok(fields.alone(ConnectOutcome::CidsExhausted));
    }
    if is_name(kind, b"name") {
        let name = text_alone(alloc, fields)?;
        return Ok(name.map(ConnectOutcome::InvalidServerName));
    }
    if is_name(kind, b"address") {
        return Ok(read_address(fields).map(ConnectOutcome::InvalidRemoteAddress));
    }
    Ok(None)
}

/// What QUIC answers where an address is known.
pub fn read_outcome(alloc: Global, word: &[u8]) -> Result<Option<ConnectOutcome>, OutOfMemory>
    ensures { IfOk result (λ outcome. outcome ≡ outcome_of word.now) }
{
    match Parts::of(b':', word).split_first() {
        Some((kind, fields)) => outcome_from(alloc, kind, &fields),
        None => Ok(None),
    }
}

fn are_visible(word: &[u8]) -> bool
    ensures { result ≡ list_all is_ascii_graphic word.now }
{
    word.iter().all(|byte| byte.is_ascii_graphic())
}

/// A URL.
#[tactic(auto, using(crate::proofs::UrlLaws::visible_text))]
pub fn read_url(alloc: Global, word: &[u8]) -> Result<Option<Text>, OutOfMemory>
    ensures { IfOk result (λ url. url ≡ url_of word.now) }
{
    if word.is_empty() || !are_visible(word) {
        return Ok(None);
    }
    match from_utf8(word) {
        Some(url) => Ok(Some(Text::from_text(alloc, url)?)),
        None => Ok(None),
    }
}
