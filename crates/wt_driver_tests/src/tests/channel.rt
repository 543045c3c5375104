//! Worked rows of shared results and channels.
use std::alloc::Global;
use std::process::Abort;
use wt_driver::utils::{bichannel, shared_result};
use wt_driver::{BiChannel, ChannelEnd, SendOutcome, SharedResult, TrySendError};
use wt_turn::poll::Poll;

// Each call with an answer stands in a function of its own, which makes the rows cheap to prove.

/// A poll for the result answers this.
fn gives(rt: &impl Abort, shared: &SharedResult<u8>, answer: Poll<Option<u8>>) {
    let polled = match shared.result() {
        Poll::Ready(Some(value)) => Poll::Ready(Some(*value)),
        Poll::Ready(None) => Poll::Ready(None),
        Poll::Pending => Poll::Pending,
    };
    assert!(rt; polled == answer);
}

#[test]
fn the_first_result_stays(rt: HostRuntime) {
    let mut shared: SharedResult<u8> = shared_result();
    gives(&rt, &shared, Poll::Pending);
    assert!(rt; shared.set(1));
    assert!(rt; !shared.set(2));
    gives(&rt, &shared, Poll::Ready(Some(1)));
    shared.leave_setter();
    gives(&rt, &shared, Poll::Ready(Some(1)));
    gives(&rt, &shared, Poll::Ready(Some(1)));
}

#[test]
fn no_setter_gives_no_result(rt: HostRuntime) {
    let mut shared: SharedResult<u8> = shared_result();
    shared.leave_setter();
    gives(&rt, &shared, Poll::Ready(None));
    shared.add_setter();
    assert!(rt; !shared.set(1));
    gives(&rt, &shared, Poll::Ready(None));
}

#[test]
fn the_last_getter_closes(rt: HostRuntime) {
    let mut shared: SharedResult<u8> = shared_result();
    shared.subscribe();
    shared.leave_getter();
    assert!(rt; shared.closed() == Poll::Pending);
    shared.leave_getter();
    assert!(rt; shared.closed() == Poll::Ready(()));
}

fn tries(
    rt: &impl Abort,
    channel: &mut BiChannel<u8>,
    value: u8,
    answer: Result<(), TrySendError<u8>>,
) {
    assert!(rt; channel.try_send(ChannelEnd::Left, value) == answer);
}

fn sends(rt: &impl Abort, channel: &mut BiChannel<u8>, value: u8, outcome: SendOutcome<u8>) {
    assert!(rt; channel.send(ChannelEnd::Left, value) == outcome);
}

fn receives(
    rt: &impl Abort,
    channel: &mut BiChannel<u8>,
    end: ChannelEnd,
    answer: Poll<Option<u8>>,
) {
    assert!(rt; channel.recv(end) == answer);
}

#[test]
fn a_channel_of_one_value(rt: HostRuntime) {
    let mut channel = bichannel::<u8>(rt.alloc(), 1).expect(&rt, "no memory");
    tries(&rt, &mut channel, 7, Ok(()));
    tries(&rt, &mut channel, 8, Err(TrySendError::Full(8)));
    sends(&rt, &mut channel, 8, SendOutcome::NotYet(8));
    receives(&rt, &mut channel, ChannelEnd::Left, Poll::Pending);
    receives(&rt, &mut channel, ChannelEnd::Right, Poll::Ready(Some(7)));
    channel.leave(ChannelEnd::Right);
    tries(&rt, &mut channel, 9, Err(TrySendError::Closed(9)));
}

/// The text of what a caller is told where a value wasn't sent.
fn reads(rt: &impl Abort, alloc: Global, error: TrySendError<u8>, text: &str) {
    match format!(in alloc; "{error}") {
        Ok(said) => assert_eq!(rt; said.as_str(), text),
        Err(_) => panic!(rt; "no memory"),
    }
}

#[test]
fn a_value_that_was_not_sent_has_its_text(rt: HostRuntime) {
    let alloc = rt.alloc();
    reads(&rt, alloc, TrySendError::Full(8), "channel full");
    reads(&rt, alloc, TrySendError::Closed(9), "channel closed");
}

#[test]
fn what_was_sent_before_an_end_left_is_received(rt: HostRuntime) {
    let mut channel = bichannel::<u8>(rt.alloc(), 2).expect(&rt, "no memory");
    sends(&rt, &mut channel, 1, SendOutcome::Sent);
    sends(&rt, &mut channel, 2, SendOutcome::Sent);
    channel.leave(ChannelEnd::Left);
    sends(&rt, &mut channel, 3, SendOutcome::Closed);
    receives(&rt, &mut channel, ChannelEnd::Right, Poll::Ready(Some(1)));
    receives(&rt, &mut channel, ChannelEnd::Right, Poll::Ready(Some(2)));
    receives(&rt, &mut channel, ChannelEnd::Right, Poll::Ready(None));
}
