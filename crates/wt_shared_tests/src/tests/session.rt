//! A server's shared connection with a session, and what its peer sends.
use std::alloc::Global;
use std::process::Abort;
use std::sync::Wait;
use wt_script::script::read_script;
use wt_shared::{Connection, Kept, Shared};
use wt_turn::turn::Turns;
use wt_turn::{DatagramFact, Turn};
use wt_wire::side::Side;

/// What the peer begins with: its control stream, with empty SETTINGS.
const HEAD: &str = "server\npeer_uni\nbytes 2 000400\n";

/// A CONNECT request for https://h/.
const REQUEST: &str = "\
    014050000027033a617574686f72697479016827003a6d6574686f6407434f4e4e454354253a70617468012f\
    27023a70726f746f636f6c0c7765627472616e73706f727427003a736368656d65056874747073";

/// The application accepts it.
const ACCEPT: &str = "server\nincoming\naccept\n";

/// The peer's stream 6, which carries two bytes, hi.
pub const STREAM: &str = "server\npeer_uni\nbytes 6 4054006869\n";

/// The turns of a script.
pub fn turns(rt: &impl Abort, alloc: Global, script: &str) -> Turns {
    let script = read_script(alloc, script.as_bytes()).expect(rt, "no memory");
    script.expect(rt, "a script").turns
}

/// A server's connection after its first turn.
pub fn connected(rt: &impl Abort, alloc: Global) -> Kept {
    let first = Turn::Connected {
        uni: 9,
        bi: 9,
        credit: 1000,
        datagrams: DatagramFact::Limit(1200),
    };
    let (kept, told) = Kept::new(alloc, Side::Server, &first).expect(rt, "no memory");
    assert!(rt; told.place == 0);
    kept
}

/// Makes one turn of the locked value, a call by the handle. Returns false where it has no answer.
pub fn make_turn(kept: &mut Kept, handle: &mut Connection, turn: &Turn) -> bool {
    match turn {
        Turn::Call(call) => handle.call(kept, call).is_ok(),
        _ => kept.step(turn).is_ok(),
    }
}

/// Makes one turn under the lock, and wakes whoever waits for it. Returns false where it has no answer.
fn make_locked<R: Wait>(rt: &R, shared: &Shared, handle: &mut Connection, turn: &Turn) -> bool {
    let is_made = make_turn(&mut shared.kept().lock(rt), handle, turn);
    shared.wake();
    is_made
}

/// Makes the turns one after another, the calls by the handle. Returns false where one has no answer.
pub fn make_turns<R: Wait>(
    rt: &R,
    shared: &Shared,
    handle: &mut Connection,
    turns: &[Turn],
) -> bool {
    for turn in turns {
        if !make_locked(rt, shared, handle, turn) {
            return false;
        }
    }
    true
}

/// Makes the turns of a script, the calls by the handle.
pub fn play<R: Abort + Wait>(
    rt: &R,
    alloc: Global,
    shared: &Shared,
    handle: &mut Connection,
    script: &str,
) {
    let turns = turns(rt, alloc, script);
    assert!(rt; make_turns(rt, shared, handle, turns.as_slice()));
}

/// The peer's request for a session comes on its next bidirectional stream, which has this id.
pub fn request_on<R: Abort + Wait>(
    rt: &R,
    alloc: Global,
    shared: &Shared,
    handle: &mut Connection,
    id: u32,
) {
    let script = format!(in alloc; "server\npeer_bi\nbytes {id} {REQUEST}\n").expect(
        rt,
        "no memory",
    );
    play(rt, alloc, shared, handle, script.as_str());
}

/// A shared connection with a session, and a handle that was told its two calls.
pub fn session<R: Abort + Wait>(rt: &R, alloc: Global) -> (Shared, Connection) {
    let shared = Shared::new(alloc, connected(rt, alloc)).expect(rt, "no memory");
    let mut handle = shared.connection(alloc).expect(rt, "no memory");
    play(rt, alloc, &shared, &mut handle, HEAD);
    request_on(rt, alloc, &shared, &mut handle, 0);
    play(rt, alloc, &shared, &mut handle, ACCEPT);
    (shared, handle)
}
