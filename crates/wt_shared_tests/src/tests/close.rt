//! What the end of a shared connection finds. A handle that made calls on two connections was told what neither has.
use super::session::{connected, make_turn};
use std::alloc::Global;
use std::process::Abort;
use wt_shared::{CloseError, Connection, History, Kept, Shared, close_shared};
use wt_turn::{Call, Turn};

/// Ends the connection with these two handles.
fn close(
    rt: &impl Abort,
    alloc: Global,
    kept: &Kept,
    first: Connection,
    second: Connection,
) -> Result<History, CloseError> {
    let mut handles = Vec::new(alloc);
    handles.push(first).expect(rt, "no memory");
    handles.push(second).expect(rt, "no memory");
    close_shared(alloc, kept, handles).expect(rt, "no memory")
}

/// A handle, which is told what it is told of other locked values than its own.
fn handle(rt: &impl Abort, alloc: Global) -> Connection {
    let shared = Shared::new(alloc, connected(rt, alloc)).expect(rt, "no memory");
    shared.connection(alloc).expect(rt, "no memory")
}

/// Makes a call that asks how great a datagram may be.
fn ask_size(rt: &impl Abort, kept: &mut Kept, handle: &mut Connection) {
    let turn = Turn::Call(Call::MaxDatagramSize { session: None });
    assert!(rt; make_turn(kept, handle, &turn));
}

/// Makes a call that asks how the connection ended.
fn ask_closed(rt: &impl Abort, kept: &mut Kept, handle: &mut Connection) {
    assert!(rt; make_turn(kept, handle, &Turn::Call(Call::Closed)));
}

#[test]
fn calls_that_no_handle_was_told_are_missing(rt: HostRuntime) {
    let alloc = rt.alloc();
    let mut kept = connected(&rt, alloc);
    let (mut first, second) = (handle(&rt, alloc), handle(&rt, alloc));
    let mut third = handle(&rt, alloc);
    ask_size(&rt, &mut kept, &mut first);
    ask_closed(&rt, &mut kept, &mut third);
    let closed = close(&rt, alloc, &kept, first, second);
    assert!(&rt; matches!(closed, Err(CloseError::Missing { kept: 2, told: 1 })));
}

#[test]
fn a_handle_may_be_out_of_order(rt: HostRuntime) {
    let alloc = rt.alloc();
    let (mut kept, mut other) = (connected(&rt, alloc), connected(&rt, alloc));
    let (mut first, mut second) = (handle(&rt, alloc), handle(&rt, alloc));
    let mut third = handle(&rt, alloc);
    ask_size(&rt, &mut kept, &mut first);
    ask_size(&rt, &mut other, &mut first);
    ask_size(&rt, &mut kept, &mut second);
    // (as many as the history has)
    ask_size(&rt, &mut kept, &mut third);
    let closed = close(&rt, alloc, &kept, first, second);
    assert!(&rt;
        matches!(
            closed,
            Err(CloseError::Disordered {
                before: 1,
                after: 1
            })
        )
    );
}

#[test]
fn a_handle_may_be_told_another_call(rt: HostRuntime) {
    let alloc = rt.alloc();
    let (mut kept, mut other) = (connected(&rt, alloc), connected(&rt, alloc));
    let (mut first, mut second) = (handle(&rt, alloc), handle(&rt, alloc));
    let mut third = handle(&rt, alloc);
    ask_size(&rt, &mut kept, &mut first);
    ask_size(&rt, &mut other, &mut second);
    ask_closed(&rt, &mut other, &mut second);
    ask_size(&rt, &mut kept, &mut third);
    ask_closed(&rt, &mut kept, &mut third);
    let closed = close(&rt, alloc, &kept, first, second);
    assert!(&rt; matches!(closed, Err(CloseError::Differs { place: 2, .. })));
}

#[test]
fn handles_in_turn_are_told_the_history(rt: HostRuntime) {
    let alloc = rt.alloc();
    let mut kept = connected(&rt, alloc);
    let (mut first, mut second) = (handle(&rt, alloc), handle(&rt, alloc));
    ask_size(&rt, &mut kept, &mut first);
    ask_closed(&rt, &mut kept, &mut second);
    ask_size(&rt, &mut kept, &mut first);
    let closed = close(&rt, alloc, &kept, second, first);
    assert!(&rt; closed.is_ok_and(|history| history.len() == 4));
}
