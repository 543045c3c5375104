//! Answers and their lines.
use std::alloc::Global;
use std::process::Abort;
use wt_script::print::print_answer;
use wt_turn::{Action, Actions, Answer, Piece, Reply};
use wt_wire::addr::Addr;
use wt_wire::header_list::HeaderList;
use wt_wire::ids::{SessionId, StreamId};
use wt_wire::text::Text;
use wt_wire::varint::VarInt;

/// The line of an answer is this text.
pub fn prints(rt: &impl Abort, alloc: Global, answer: &Answer, line: &str) {
    match print_answer(alloc, answer) {
        Ok(printed) => assert_eq!(rt; printed.as_str(), line),
        Err(_) => panic!(rt; "no memory"),
    }
}

/// The line of a reply without actions is this text.
pub fn reply_prints(rt: &impl Abort, alloc: Global, reply: Reply, line: &str) {
    let actions = Actions::new(alloc);
    prints(rt, alloc, &Answer { reply, actions }, line);
}

/// The line of an action after `done` is this text.
fn action_prints(rt: &impl Abort, alloc: Global, action: Action, line: &str) {
    let mut actions = Actions::new(alloc);
    actions.push(action).expect(rt, "no memory");
    let reply = Reply::Done;
    prints(rt, alloc, &Answer { reply, actions }, line);
}

pub fn stream(id: u32) -> StreamId {
    StreamId::new(VarInt::from_u32(id))
}

fn session(rt: &impl Abort, id: u32) -> SessionId {
    SessionId::try_from_session_stream(stream(id)).expect(rt, "an id of a session")
}

pub fn piece(rt: &impl Abort, alloc: Global, bytes: &[u8]) -> Piece {
    Piece::from_slice(alloc, bytes).expect(rt, "no memory")
}

pub fn text(rt: &impl Abort, alloc: Global, text: &str) -> Text {
    Text::from_text(alloc, text).expect(rt, "no memory")
}

#[test]
fn bare_replies_print(rt: HostRuntime) {
    let alloc = rt.alloc();
    reply_prints(&rt, alloc, Reply::Done, "done");
    reply_prints(&rt, alloc, Reply::Pending, "pending");
    reply_prints(&rt, alloc, Reply::NoSession, "no_session");
    reply_prints(&rt, alloc, Reply::NoStream, "no_stream");
    reply_prints(&rt, alloc, Reply::Rejected, "rejected");
    reply_prints(&rt, alloc, Reply::AllWritten, "all_written");
    reply_prints(&rt, alloc, Reply::Finished, "finished");
    reply_prints(&rt, alloc, Reply::ClosedStream, "closed_stream");
}

#[test]
fn replies_with_ids_print(rt: HostRuntime) {
    let alloc = rt.alloc();
    reply_prints(&rt, alloc, Reply::Session(session(&rt, 0)), "session 0");
    reply_prints(&rt, alloc, Reply::Id(session(&rt, 0)), "id 0");
    reply_prints(&rt, alloc, Reply::Uni(stream(2)), "uni 2");
    reply_prints(&rt, alloc, Reply::Bi(stream(5)), "bi 5");
    reply_prints(&rt, alloc, Reply::Opening(stream(1)), "opening 1");
    reply_prints(&rt, alloc, Reply::SendReady(stream(7)), "send_ready 7");
    reply_prints(&rt, alloc, Reply::BiReady(stream(1)), "bi_ready 1");
}

#[test]
fn replies_with_numbers_print(rt: HostRuntime) {
    let alloc = rt.alloc();
    reply_prints(&rt, alloc, Reply::Size(Some(2)), "size 2");
    reply_prints(&rt, alloc, Reply::Size(None), "size none");
    reply_prints(&rt, alloc, Reply::Written(0), "written 0");
    reply_prints(&rt, alloc, Reply::Count(0), "count 0");
    reply_prints(&rt, alloc, Reply::Priority(-7), "priority -7");
}

#[test]
fn replies_with_bytes_print(rt: HostRuntime) {
    let alloc = rt.alloc();
    let none = piece(&rt, alloc, b"");
    reply_prints(&rt, alloc, Reply::Datagram(none), "datagram -");
    let none = piece(&rt, alloc, b"");
    reply_prints(&rt, alloc, Reply::Exact(none), "exact -");
    let read = piece(&rt, alloc, b"hi\xff");
    reply_prints(&rt, alloc, Reply::Read(Some(read)), "read 6869ff");
    reply_prints(&rt, alloc, Reply::Read(None), "end");
}

#[test]
fn requests_print(rt: HostRuntime) {
    let alloc = rt.alloc();
    let mut headers = HeaderList::new(alloc);
    headers.set(":path", "").expect(&rt, "no memory");
    headers.set(":authority", "h").expect(&rt, "no memory");
    let id = session(&rt, 0);
    let line = "request 0 3a617574686f72697479=68 3a70617468=";
    reply_prints(&rt, alloc, Reply::Request { id, headers }, line);
}

#[test]
fn actions_on_streams_print(rt: HostRuntime) {
    let alloc = rt.alloc();
    let id = stream(3);
    action_prints(&rt, alloc, Action::Opened { id }, "done ; opened 3");
    let piece = piece(&rt, alloc, b"\x01");
    action_prints(&rt, alloc, Action::Send { id, piece }, "done ; send 3 01");
    action_prints(&rt, alloc, Action::Finish { id }, "done ; finish 3");
    let code = VarInt::from_u32(5);
    action_prints(
        &rt,
        alloc,
        Action::ResetOut { id, code },
        "done ; reset 3 5",
    );
    action_prints(&rt, alloc, Action::StopOut { id, code }, "done ; stop 3 5");
}

#[test]
fn actions_of_a_connection_print(rt: HostRuntime) {
    let alloc = rt.alloc();
    let name = text(&rt, alloc, "h");
    let address = Addr::V4 {
        ip: 0x7f00_0001,
        port: 1,
    };
    let line = "done ; dial v4:7f000001:1 68";
    action_prints(&rt, alloc, Action::Dial { address, name }, line);
    let name = text(&rt, alloc, "h");
    let address = Addr::V6 { ip: 1, port: 1 };
    let line = "done ; dial v6:00000000000000000000000000000001:1 68";
    action_prints(&rt, alloc, Action::Dial { address, name }, line);
    let sent = piece(&rt, alloc, b"\0");
    action_prints(
        &rt,
        alloc,
        Action::DatagramOut { piece: sent },
        "done ; datagram_out 00",
    );
    let code = VarInt::from_u32(0);
    let reason = piece(&rt, alloc, b"");
    action_prints(
        &rt,
        alloc,
        Action::Close { code, reason },
        "done ; close 0 -",
    );
}

#[test]
fn actions_stand_apart(rt: HostRuntime) {
    let alloc = rt.alloc();
    let mut actions = Actions::new(alloc);
    let opened = Action::Opened { id: stream(3) };
    actions.push(opened).expect(&rt, "no memory");
    let finish = Action::Finish { id: stream(3) };
    actions.push(finish).expect(&rt, "no memory");
    let reply = Reply::Done;
    prints(
        &rt,
        alloc,
        &Answer { reply, actions },
        "done ; opened 3 ; finish 3",
    );
}
