//! Where a client connects to, and what its request says of it.
ghost use Rattle.std.specs.Prelude.{◌≡◌, ◌≢◌, ◌↔◌, Err, IfOk, IsErr, None, codes};
ghost use Rattle.url.specs.Host.{host_text};
ghost use Rattle.url.specs.Parser.{parse_url};
ghost use Rattle.url.specs.Parts.{host_or_empty};
ghost use Rattle.wt_session.specs.ConnectTarget.{IfParsed, dialled_address, https_url, target_of, unless_hindered};
ghost use Rattle.wt_meaning.specs.Targets.{address_of, authority_of, looked_up, outcome_error, path_of, port_of, server_name};

use std::alloc::Global;
use url::{Host, ParseError, Position, Url};
use wt_turn::connecting_error::{ConnectingError, UrlRefusal};
use wt_wire::addr::Addr;
use wt_wire::error::OutOfMemory;
use wt_wire::lookup::{ConnectOutcome, Lookup};
use wt_wire::text::Text;

/// The port where a URL has none (RFC 9110, section 4.2.2).
const DEFAULT_PORT: u16 = 443;

/// Where a client connects to, and what its request says of it.
#[derive(PartialEq, Eq, Debug, Drop)]
pub struct ConnectTarget {
    /// The address that is dialled.
    pub address: Addr,
    /// The name that the server's certificate must have: the URL's host, an IPv6 address without its
    /// brackets.
    pub server_name: Text,
    /// `:authority` of the request: the URL's host, then a colon and the port where it has one other
    /// than 443. The user information is left out (RFC 9114, section 4.3.1).
    pub authority: Text,
    /// `:path` of the request: the URL's path, then a question mark and the query where it has one
    /// (RFC 9114, section 4.3.1).
    pub path: Text,
}

/// Where a client connects to that is asked for this URL, when the lookup of the host answers this,
/// and the endpoint this of the address: the first steps of a connect, in this order.
///
/// 1. `InvalidUrl(Parse)` exactly where the URL Standard's parser refuses the text, and
///    `InvalidUrl(Scheme)` exactly where the scheme isn't `https`.
/// 2. Where the host is a name, `DnsLookup` or `DnsNotFound` where the lookup says so. For a host
///    that is an IP address the lookup is ignored, and the port is the URL's, 443 by default.
/// 3. The outcome's error, where it isn't `Proceed`.
///
/// # Errors
///
/// `OutOfMemory` where the parser or a text found no memory, or the URL came to 4 GB.
#[tactic(auto, using(crate::proofs::TargetLaws::parse_exactly, crate::proofs::TargetLaws::scheme_exactly))]
pub fn connect_target(
    alloc: Global,
    url: &str,
    lookup: Lookup,
    outcome: ConnectOutcome,
) -> Result<Result<ConnectTarget, ConnectingError>, OutOfMemory>
    ensures target { IfOk result (λ target. target ≡ target_of url.now lookup outcome) }
    ensures parse { IfOk result (λ target. (target ≡ Err (ConnectingError.InvalidUrl UrlRefusal.Parse)) ↔ IsErr (parse_url None url.now)) }
    ensures scheme { IfOk result (λ target. (target ≡ Err (ConnectingError.InvalidUrl UrlRefusal.Scheme))
        ↔ IfParsed (parse_url None url.now) (λ parts. parts.scheme ≢ codes "https")) }
{
    let url = match parse_https(alloc, url)? {
        Ok(url) => url,
        Err(refusal) => return Ok(Err(ConnectingError::InvalidUrl(refusal))),
    };
    let address = match dialled_address(&url, lookup, outcome) {
        Ok(address) => address,
        Err(error) => return Ok(Err(error)),
    };
    Ok(Ok(ConnectTarget {
        address,
        server_name: server_name(alloc, &url)?,
        authority: authority(alloc, &url)?,
        path: path(alloc, &url)?,
    }))
}

fn parse_https(alloc: Global, text: &str) -> Result<Result<Url, UrlRefusal>, OutOfMemory>
    ensures { IfOk result (λ url. url ≡ https_url text.now) }
{
    match Url::parse(alloc, text) {
        Ok(url) if url.scheme() == "https" => Ok(Ok(url)),
        Ok(_) => Ok(Err(UrlRefusal::Scheme)),
        // The parser ties neither to a cause, so both say that no answer could be made.
        Err(ParseError::OutOfMemory | ParseError::Overflow) => Err(OutOfMemory),
        Err(_) => Ok(Err(UrlRefusal::Parse)),
    }
}

fn dialled_address(
    url: &Url,
    lookup: Lookup,
    outcome: ConnectOutcome,
) -> Result<Addr, ConnectingError>
    ensures { result ≡ dialled_address url.now lookup outcome }
{
    // The endpoint is asked about an address, so the lookup decides first.
    unless_hindered(outcome, address(url, lookup)?)
}

fn address(url: &Url, lookup: Lookup) -> Result<Addr, ConnectingError>
    ensures { result ≡ address_of (host_or_empty url.now) (port_of url.now) lookup }
{
    let port = url.port().unwrap_or(DEFAULT_PORT);
    match url.host() {
        Some(Host::Ipv4(ip)) => Ok(Addr::V4 {
            ip: ip.to_bits(),
            port,
        }),
        Some(Host::Ipv6(ip)) => Ok(Addr::V6 {
            ip: ip.to_bits(),
            port,
        }),
        // An address needs no resolver.
        Some(Host::Domain(_)) | None => looked_up(lookup),
    }
}

fn looked_up(lookup: Lookup) -> Result<Addr, ConnectingError>
    ensures { result ≡ looked_up lookup }
{
    match lookup {
        Lookup::Found(address) => Ok(address),
        Lookup::NotFound => Err(ConnectingError::DnsNotFound),
        Lookup::Fault(reason) => Err(ConnectingError::DnsLookup(reason)),
    }
}

fn unless_hindered(outcome: ConnectOutcome, address: Addr) -> Result<Addr, ConnectingError>
    ensures { result ≡ unless_hindered (outcome_error outcome) address }
{
    match outcome {
        ConnectOutcome::Proceed => Ok(address),
        ConnectOutcome::EndpointStopping => Err(ConnectingError::EndpointStopping),
        ConnectOutcome::CidsExhausted => Err(ConnectingError::CidsExhausted),
        ConnectOutcome::InvalidServerName(name) => Err(ConnectingError::InvalidServerName(name)),
        ConnectOutcome::InvalidRemoteAddress(refused) => {
            Err(ConnectingError::InvalidRemoteAddress(refused))
        }
    }
}

/// The text of the host, an IPv6 address in brackets.
fn host_text(url: &Url) -> &str
    ensures { result.now ≡ host_text (host_or_empty url.now) }
{
    url.slice(Position::BeforeHost, Position::AfterHost)
}

fn server_name(alloc: Global, url: &Url) -> Result<Text, OutOfMemory>
    ensures { IfOk result (λ name. name ≡ server_name (host_or_empty url.now)) }
{
    match url.host() {
        Some(Host::Ipv6(ip)) => {
            let groups = ip.hex_groups();
            Ok(Text::from_string(format!(in alloc; "{groups}")?))
        }
        _ => Text::from_text(alloc, host_text(url)),
    }
}

/// The parser leaves a port out that is the scheme's default.
fn authority(alloc: Global, url: &Url) -> Result<Text, OutOfMemory>
    ensures { IfOk result (λ authority. authority ≡ authority_of url.now) }
{
    let host = host_text(url);
    match url.port() {
        Some(port) => Ok(Text::from_string(format!(in alloc; "{host}:{port}")?)),
        None => Text::from_text(alloc, host),
    }
}

fn path(alloc: Global, url: &Url) -> Result<Text, OutOfMemory>
    ensures { IfOk result (λ path. path ≡ path_of url.now) }
{
    let path = url.path();
    match url.query() {
        Some(query) => Ok(Text::from_string(format!(in alloc; "{path}?{query}")?)),
        None => Text::from_text(alloc, path),
    }
}
