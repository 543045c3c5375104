//! What a connect carries, and why a connection is lost.
ghost use Rattle.std.specs.Prelude.{◌≡◌, IfOk, MatchOption, Some, None};
ghost use Rattle.std.specs.Option.{option_and_then};
ghost use Rattle.wt_abi.specs.Connecting.{close_of, connect_after, connect_of, connect_to, lookup_at, loss_of, outcome_at};

use crate::head::TurnHead;
use crate::numbers::{read_address, read_code};
use crate::texts::{read_fields, read_text, text_of_bytes};
use std::alloc::Global;
use wt_turn::close::PeerClose;
use wt_turn::{Call, LossReason, Piece};
use wt_wire::error::OutOfMemory;
use wt_wire::lookup::{ConnectOutcome, Lookup};
use wt_wire::text::Text;

fn read_close<B>(
    alloc: Global,
    head: &TurnHead,
    reason: &[u8],
) -> Result<Option<PeerClose<B>>, OutOfMemory>
    ensures { IfOk result (λ close. close ≡ close_of head.now reason.now) }
{
    match read_code(head) {
        Some(code) => Ok(Some(PeerClose::new(code, Piece::from_slice(alloc, reason)?))),
        None => Ok(None),
    }
}

/// Why the connection is lost.
pub fn read_loss(
    alloc: Global,
    head: &TurnHead,
    bytes: &[u8],
) -> Result<Option<LossReason>, OutOfMemory>
    ensures { IfOk result (λ loss. loss ≡ loss_of head.now bytes.now) }
{
    match head.choice {
        0 => Ok(Some(LossReason::VersionMismatch)),
        1 => {
            let code = head.number;
            let reason = text_of_bytes(alloc, bytes)?;
            Ok(reason.map(|reason| LossReason::TransportError { code, reason }))
        }
        2 => {
            let close = read_close(alloc, head, bytes)?;
            Ok(close.map(LossReason::ConnectionClosed))
        }
        3 => {
            let close = read_close(alloc, head, bytes)?;
            Ok(close.map(LossReason::ApplicationClosed))
        }
        4 => Ok(Some(LossReason::Reset)),
        5 => Ok(Some(LossReason::TimedOut)),
        6 => Ok(Some(LossReason::CidsExhausted)),
        _ => Ok(None),
    }
}

/// What a resolver answers, and the bytes after it.
fn read_lookup<'a>(
    alloc: Global,
    head: &TurnHead,
    bytes: &'a [u8],
) -> Result<Option<(Lookup, &'a [u8])>, OutOfMemory>
    ensures { IfOk result (λ read. MatchOption read (lookup_at head.now bytes.now ≡ None) (λ p. lookup_at head.now bytes.now ≡ Some (p.0, p.1.now))) }
{
    match head.choice {
        0 => match read_address(&head.found) {
            Some(address) => Ok(Some((Lookup::Found(address), bytes))),
            None => Ok(None),
        },
        1 => Ok(Some((Lookup::NotFound, bytes))),
        2 => match read_text(alloc, bytes)? {
            Some((reason, rest)) => Ok(Some((Lookup::Fault(reason), rest))),
            None => Ok(None),
        },
        _ => Ok(None),
    }
}

/// What QUIC answers, and the bytes after it.
fn read_outcome<'a>(
    alloc: Global,
    head: &TurnHead,
    bytes: &'a [u8],
) -> Result<Option<(ConnectOutcome, &'a [u8])>, OutOfMemory>
    ensures { IfOk result (λ read. MatchOption read (outcome_at head.now bytes.now ≡ None) (λ p. outcome_at head.now bytes.now ≡ Some (p.0, p.1.now))) }
{
    match head.outcome {
        0 => Ok(Some((ConnectOutcome::Proceed, bytes))),
        1 => Ok(Some((ConnectOutcome::EndpointStopping, bytes))),
        2 => Ok(Some((ConnectOutcome::CidsExhausted, bytes))),
        3 => match read_text(alloc, bytes)? {
            Some((name, rest)) => Ok(Some((ConnectOutcome::InvalidServerName(name), rest))),
            None => Ok(None),
        },
        4 => match read_address(&head.remote) {
            Some(address) => Ok(Some((ConnectOutcome::InvalidRemoteAddress(address), bytes))),
            None => Ok(None),
        },
        _ => Ok(None),
    }
}

/// What QUIC answers and the fields, after the URL and what a resolver answered.
fn read_connect_after(
    alloc: Global,
    head: &TurnHead,
    url: Text,
    lookup: Lookup,
    bytes: &[u8],
) -> Result<Option<Call>, OutOfMemory>
    ensures { IfOk result (λ call. call ≡ connect_after head.now url (lookup, bytes.now)) }
{
    let Some((outcome, rest)) = read_outcome(alloc, head, bytes)? else {
        return Ok(None);
    };
    match read_fields(alloc, head.fields, rest)? {
        Some(fields) => Ok(Some(Call::Connect {
            options: (url, fields),
            lookup,
            outcome,
        })),
        None => Ok(None),
    }
}

/// A connect.
pub fn read_connect(
    alloc: Global,
    head: &TurnHead,
    bytes: &[u8],
) -> Result<Option<Call>, OutOfMemory>
    ensures { IfOk result (λ call. call ≡ connect_of head.now bytes.now) }
{
    let Some((url, rest)) = read_text(alloc, bytes)? else {
        return Ok(None);
    };
    match read_lookup(alloc, head, rest)? {
        Some((lookup, rest)) => read_connect_after(alloc, head, url, lookup, rest),
        None => Ok(None),
    }
}
