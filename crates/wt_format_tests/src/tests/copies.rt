//! Turns, replies and errors are copied and compared.
use crate::tests::values::{by_application, by_transport, piece, text, transport_error};
use std::alloc::Global;
use std::process::Abort;
use wt_turn::connecting_error::ConnectingError;
use wt_turn::connection_error::{ConnectionError, QuicProtoError};
use wt_turn::driver_error::DriverError;
use wt_turn::sequence::Element;
use wt_turn::stream_error::StreamReadExactError;
use wt_turn::{Action, Actions, Answer, Answers, Call, LossReason, Reply, Turn};
use wt_wire::header_list::HeaderList;
use wt_wire::ids::StreamId;
use wt_wire::lookup::{ConnectOutcome, Lookup};
use wt_wire::varint::VarInt;

fn is_copied<T: Element + PartialEq>(rt: &impl Abort, alloc: Global, value: T) {
    let copy = value.copied(alloc).expect(rt, "no memory");
    assert!(rt; copy == value, "{value:?}");
    assert!(rt; copy.is_same(&value), "{value:?}");
}

fn losses_are_copied(rt: &impl Abort, alloc: Global) {
    let reason = transport_error(rt, alloc, 7);
    is_copied(rt, alloc, Turn::Loss { reason });
    let reason = LossReason::ConnectionClosed(by_transport(rt, alloc, b"no"));
    is_copied(rt, alloc, Turn::Loss { reason });
    let reason = LossReason::ApplicationClosed(by_application(rt, alloc, b"bye"));
    is_copied(rt, alloc, Turn::Loss { reason });
}

fn connect(rt: &impl Abort, alloc: Global) -> Call {
    let mut headers = HeaderList::new(alloc);
    headers.set("name", "value").expect(rt, "no memory");
    Call::Connect {
        options: (text(rt, alloc, "url"), headers),
        lookup: Lookup::Fault(text(rt, alloc, "why")),
        outcome: ConnectOutcome::InvalidServerName(text(rt, alloc, "host")),
    }
}

fn calls_are_copied(rt: &impl Abort, alloc: Global) {
    is_copied(rt, alloc, Turn::Call(connect(rt, alloc)));
    let code = VarInt::from_u32(7);
    let reason = piece(rt, alloc, b"bye");
    is_copied(rt, alloc, Turn::Call(Call::Close { code, reason }));
}

/// An answer with this reply, and with an action that keeps bytes.
fn answer(rt: &impl Abort, alloc: Global, reply: Reply) -> Answer {
    let id = StreamId::new(VarInt::from_u32(3));
    let piece = piece(rt, alloc, b"hi");
    let mut actions = Actions::new(alloc);
    let pushed = actions.push(Action::Send { id, piece });
    pushed.expect(rt, "no memory");
    Answer { reply, actions }
}

fn reply(rt: &impl Abort, alloc: Global, reply: Reply) {
    is_copied(rt, alloc, answer(rt, alloc, reply));
}

fn bytes_and_ends_are_copied(rt: &impl Abort, alloc: Global) {
    reply(rt, alloc, Reply::Read(Some(piece(rt, alloc, b"gone"))));
    let early = StreamReadExactError::FinishedEarly(3);
    let gone = piece(rt, alloc, b"gone");
    reply(rt, alloc, Reply::ExactFailed(early, gone));
    let close = by_transport(rt, alloc, b"no");
    let closed = ConnectionError::ConnectionClosed(close);
    reply(rt, alloc, Reply::Failed(closed));
    let close = by_application(rt, alloc, b"bye");
    let closed = ConnectionError::ApplicationClosed(close);
    reply(rt, alloc, Reply::Failed(closed));
    let proto = QuicProtoError::new(Some(VarInt::from_u32(1)), text(rt, alloc, "why"));
    reply(rt, alloc, Reply::Closed(ConnectionError::QuicProto(proto)));
}

fn connect_fails(rt: &impl Abort, alloc: Global, error: ConnectingError) {
    reply(rt, alloc, Reply::ConnectFailed(error));
}

fn failed_connects_are_copied(rt: &impl Abort, alloc: Global) {
    let why = text(rt, alloc, "why");
    connect_fails(rt, alloc, ConnectingError::DnsLookup(why));
    let name = text(rt, alloc, ":path");
    connect_fails(rt, alloc, ConnectingError::ReservedHeader(name));
    let host = text(rt, alloc, "host");
    connect_fails(rt, alloc, ConnectingError::InvalidServerName(host));
    let reset = ConnectionError::from(LossReason::Reset);
    connect_fails(rt, alloc, ConnectingError::ConnectionError(reset));
}

fn ends_of_drivers_are_copied(rt: &impl Abort, alloc: Global) {
    let end = DriverError::ApplicationClosed(by_application(rt, alloc, b"bye"));
    let copy = end.copy().expect(rt, "no memory");
    assert!(rt; copy == end, "{end:?}");
}

fn answers_are_copied(rt: &impl Abort, alloc: Global) {
    let mut answers = Answers::new(alloc);
    let pushed = answers.push(answer(rt, alloc, Reply::Done));
    pushed.expect(rt, "no memory");
    let copy = answers.copy().expect(rt, "no memory");
    assert!(rt; copy == answers, "{answers:?}");
}

#[test]
fn every_error_is_copied(rt: HostRuntime) {
    let alloc = rt.alloc();
    losses_are_copied(&rt, alloc);
    calls_are_copied(&rt, alloc);
    bytes_and_ends_are_copied(&rt, alloc);
    failed_connects_are_copied(&rt, alloc);
    ends_of_drivers_are_copied(&rt, alloc);
    answers_are_copied(&rt, alloc);
}

#[test]
fn pieces_are_joined(rt: HostRuntime) {
    let alloc = rt.alloc();
    let mut joined = piece(&rt, alloc, b"go");
    let end = piece(&rt, alloc, b"ne");
    joined.append(&end).expect(&rt, "no memory");
    assert_eq!(rt; joined.as_slice(), b"gone".as_slice());
}
