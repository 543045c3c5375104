//! One connection, driven by turns: a turn is an event of the transport or a call of the application, and its answer has the
//! reply and the actions that go out. This is how a simulator or a test bench uses the layer.

use std::alloc::Global;
use wt_proto::{OutOfMemory, Side};
use wt_seam::{DatagramFact, Turn};
use wt_trace::{Answer, Core};

/// The answer to a turn, where it may come. (Of a turn that may not, nothing is said.)
pub fn answer(core: &mut Core, turn: &Turn) -> Result<Option<Answer>, OutOfMemory> {
    if core.is_lawful(turn) {
        return Ok(Some(core.turn(turn)?));
    }
    Ok(None)
}

/// The answer of a server's connection to its first turn.
pub fn first_answer(alloc: Global) -> Result<Option<Answer>, OutOfMemory> {
    let mut core = Core::new(alloc, Side::Server);
    let turn = Turn::Connected {
        uni: 9,
        bi: 9,
        credit: 1000,
        datagrams: DatagramFact::Limit(1200),
    };
    answer(&mut core, &turn)
}
