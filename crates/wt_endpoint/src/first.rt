//! The turn with which a connection begins.
ghost use Rattle.std.specs.Prelude.{◌≡◌, ◌&&◌, ◌||◌, [], not};
ghost use Rattle.wt_endpoint.specs.Endpoints.{may_start, stops};
ghost use Rattle.wt_meaning.specs.Lawful.{is_lawful, may_call};
ghost use Rattle.wt_turn.specs.declared.turn.Turn.TheVariants as turns;
ghost use Rattle.wt_wire.specs.declared.side.Side.TheVariants as sides;

use wt_turn::{Call, Turn};
use wt_wire::lookup::ConnectOutcome;
use wt_wire::side::Side;

/// Whether a connection may begin with this turn: a server's as it is established, a client's by a connect. Once the
/// endpoint is closed only a connect that is answered so begins one.
pub fn may_begin(side: Side, closed: bool, turn: &Turn) -> bool
    ensures { result ≡ (is_lawful side [] turn.now && may_start closed turn.now) }
{
    match side {
        Side::Client => begins_client(closed, turn),
        Side::Server => !closed && begins_server(turn),
    }
}

fn begins_client(closed: bool, turn: &Turn) -> bool
    ensures { result ≡ (is_lawful sides.Client [] turn.now && may_start closed turn.now) }
{
    match turn {
        Turn::Call(call) => begins_by(closed, call),
        _ => false,
    }
}

fn begins_by(closed: bool, call: &Call) -> bool
    ensures { result ≡ (may_call sides.Client [] call.now && may_start closed (turns.Call call.now)) }
{
    match call {
        Call::Connect { outcome, .. } => !closed || is_stopping(outcome),
        _ => false,
    }
}

/// At most 2^60 streams of a kind, and credit below 2^62 (RFC 9000, sections 4.1, 4.6 and 16).
fn begins_server(turn: &Turn) -> bool
    ensures { result ≡ is_lawful sides.Server [] turn.now }
{
    match turn {
        Turn::Connected {
            uni,
            bi,
            credit,
            ..
        } => *uni <= 1 << 60 && *bi <= 1 << 60 && *credit < 1 << 62,
        _ => false,
    }
}

/// Whether the outcome of a connect is that the endpoint is stopping.
pub fn is_stopping(outcome: &ConnectOutcome) -> bool
    ensures { result ≡ stops outcome.now }
{
    matches!(outcome, ConnectOutcome::EndpointStopping)
}
