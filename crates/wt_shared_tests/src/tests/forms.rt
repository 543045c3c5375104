//! Each call that waits, where it needn't, with its answer as a trace prints it.
use super::gates::ShutGate;
use super::session::{play, request_on, session};
use std::alloc::Global;
use std::process::Abort;
use std::sync::Wait;
use wt_script::print::push_answer;
use wt_shared::{Connection, Gate, OpenGate, Shared, SharedError};
use wt_turn::Answer;
use wt_turn::piece::Piece;
use wt_wire::ids::{SessionId, StreamId};
use wt_wire::varint::VarInt;

/// The answer is printed so.
fn is(rt: &impl Abort, alloc: Global, answer: Result<Answer, SharedError>, want: &str) {
    let answer = answer.expect(rt, "an answer");
    let mut line = String::new(alloc);
    push_answer(alloc, &mut line, &answer).expect(rt, "no memory");
    assert_eq!(rt; line.as_str(), want);
}

fn stream(id: u32) -> StreamId {
    StreamId::new(VarInt::from_u32(id))
}

fn piece(rt: &impl Abort, alloc: Global, text: &str) -> Piece {
    Piece::from_slice(alloc, text.as_bytes()).expect(rt, "no memory")
}

/// What the peer sent.
const PEER: &str = "\
server
peer_uni
bytes 6 4054006869
peer_bi
bytes 4 4041006162
datagram 006869
";

/// What comes of the peer.
fn receives<R: Abort + Wait>(rt: &R, alloc: Global, handle: &mut Connection) {
    let gate = &mut OpenGate;
    is(rt, alloc, handle.accept_uni(rt, gate, None), "uni 6");
    is(rt, alloc, handle.read(rt, gate, stream(6), 16), "read 6869");
    is(rt, alloc, handle.accept_bi(rt, gate, None), "bi 4");
    is(
        rt,
        alloc,
        handle.read_exact(rt, gate, stream(4), 2),
        "exact 6162",
    );
    is(
        rt,
        alloc,
        handle.receive_datagram(rt, gate, None),
        "datagram 6869",
    );
}

/// Two streams are opened.
fn opens<R: Abort + Wait>(rt: &R, alloc: Global, shared: &Shared, handle: &mut Connection) {
    let gate = &mut OpenGate;
    is(
        rt,
        alloc,
        handle.open_bi(rt, gate, None),
        "opening 1 ; opened 1",
    );
    is(
        rt,
        alloc,
        handle.open_uni(rt, gate, None),
        "opening 7 ; opened 7",
    );
    play(rt, alloc, shared, handle, "server\npoll_opening 7\n");
}

/// Bytes go out on one of them.
fn writes<R: Abort + Wait>(rt: &R, alloc: Global, handle: &mut Connection) {
    let gate = &mut OpenGate;
    let (first, second) = (piece(rt, alloc, "ab"), piece(rt, alloc, "c"));
    is(
        rt,
        alloc,
        handle.write(rt, gate, stream(7), first),
        "written 2 ; send 7 6162",
    );
    is(
        rt,
        alloc,
        handle.write_all(rt, gate, stream(7), second),
        "all_written ; send 7 63",
    );
}

/// It ends, once the peer has all of it; before that a call gives up where its gate does.
fn finishes<R: Abort + Wait>(rt: &R, alloc: Global, shared: &Shared, handle: &mut Connection) {
    let gate = &mut OpenGate;
    assert!(rt; gives_up(rt, handle));
    play(rt, alloc, shared, handle, "server\nacked 7\n");
    is(rt, alloc, handle.finish(rt, gate, stream(7)), "finished");
    is(
        rt,
        alloc,
        handle.stopped(rt, gate, stream(7)),
        "stopped_by closed",
    );
}

/// Whether a call gives up at a gate that does, once.
fn gives_up<R: Wait>(rt: &R, handle: &mut Connection) -> bool {
    let mut shut = ShutGate::new();
    let answer = handle.finish(rt, &mut shut, stream(7));
    matches!(answer, Err(SharedError::GaveUp)) && shut.refusals() == 1
}

#[test]
fn calls_that_need_not_wait(rt: HostRuntime) {
    let alloc = rt.alloc();
    let (shared, mut handle) = session(&rt, alloc);
    play(&rt, alloc, &shared, &mut handle, PEER);
    receives(&rt, alloc, &mut handle);
    opens(&rt, alloc, &shared, &mut handle);
    writes(&rt, alloc, &mut handle);
    finishes(&rt, alloc, &shared, &mut handle);
    play(&rt, alloc, &shared, &mut handle, "server\nloss timed_out\n");
    is(
        &rt,
        alloc,
        handle.closed(&rt, &mut OpenGate),
        "closed timed_out",
    );
}

/// The session of this stream.
fn named(id: u32) -> Option<SessionId> {
    SessionId::try_from_session_stream(stream(id))
}

/// A second session, and what its peer sends for it alone.
const SECOND: &str = "\
server
incoming
accept
peer_uni
bytes 6 40540461
peer_bi
bytes 8 40410462
datagram 0163
";

/// Whether a call that names no session gives up: nothing of the first session's waits.
fn waits<R: Wait>(rt: &R, handle: &mut Connection) -> bool {
    let mut shut = ShutGate::new();
    let answer = handle.accept_uni(rt, &mut shut, None);
    matches!(answer, Err(SharedError::GaveUp))
}

#[test]
fn a_call_names_its_session(rt: HostRuntime) {
    let alloc = rt.alloc();
    let (shared, mut handle) = session(&rt, alloc);
    request_on(&rt, alloc, &shared, &mut handle, 4);
    play(&rt, alloc, &shared, &mut handle, SECOND);
    let gate = &mut OpenGate;
    assert!(&rt; waits(&rt, &mut handle));
    let answer = handle.accept_uni(&rt, gate, named(4));
    is(&rt, alloc, answer, "uni 6");
    let answer = handle.accept_bi(&rt, gate, named(4));
    is(&rt, alloc, answer, "bi 8");
    let answer = handle.receive_datagram(&rt, gate, named(4));
    is(&rt, alloc, answer, "datagram 63");
    let answer = handle.open_bi(&rt, gate, named(4));
    is(&rt, alloc, answer, "opening 1 ; opened 1");
    let answer = handle.open_uni(&rt, gate, named(4));
    is(&rt, alloc, answer, "opening 7 ; opened 7");
    // No session was ever established on this stream.
    let answer = handle.accept_uni(&rt, gate, named(12));
    is(&rt, alloc, answer, "no_session");
}
