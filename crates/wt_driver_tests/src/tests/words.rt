//! What a line of a script does to a driver.
//!
//! The calls have the names that scripts have for those of the application; one that names no session is of the session 0.
//! Further lines ask for what is the driver's alone; `pending` is no.
//!
//! | line | call |
//! |---|---|
//! | `incoming`, `accept`, `forbidden` | `accept_session`; a response to its request, then `register_session` or `refuse_session` |
//! | `register ID`, `refuse ID` | `register`, `refuse_session` |
//! | `dial`, `ask`, `write_request` | `dial`, `open_session`, `write_frame` of the request |
//! | `handshake`, `begin` | `response`, `register_session` |
//! | `closed`, `close CODE BYTES` | `result`, `close` |
//! | `poll` | a poll of the stream that was opened last |
//! | `accept_settings`, `settings_came`, `has_request`, `is_open`, `is_gone ID` | the call of that name |
//! | `living`, `readers`, `pieces`, `unread ID` | the number that the call of that name tells |
use super::drivers::{
    End, accept, accept_bi, accept_settings, accept_uni, ask, begin, close, closed, dial,
    end_session, incoming, receive_datagram, refuse_session, register_again, reject, response,
    session, stream, take, take_each, write_request,
};
use super::streams::{
    finish, open_uni, poll_opening, priority, read, read_exact, reset, send_datagram, stop, write,
    write_all,
};
use std::process::Abort;
use wt_script::script::lines::read_turn;
use wt_script::script::numbers::read_count;
use wt_turn::call::Call;
use wt_turn::reply::Reply;
use wt_turn::turn::Turn;
use wt_wire::ids::SessionId;

/// What a line answers, but for the actions.
pub fn reply(rt: &impl Abort, end: &mut End, line: &str, is_whole: bool) -> Reply {
    let turn = read_turn(end.alloc, line.as_bytes()).expect(rt, "no memory");
    match turn {
        Some(Turn::Call(call)) => call_reply(rt, end, call),
        Some(event) => event_reply(rt, end, &event, is_whole),
        None => word_reply(rt, end, line),
    }
}

/// Whether the line is a turn of the transport.
pub fn is_event(rt: &impl Abort, end: &End, line: &str) -> bool {
    let turn = read_turn(end.alloc, line.as_bytes()).expect(rt, "no memory");
    match turn {
        Some(Turn::Call(_)) | None => false,
        Some(_) => true,
    }
}

fn event_reply(rt: &impl Abort, end: &mut End, event: &Turn, is_whole: bool) -> Reply {
    match event {
        Turn::Bytes { id, piece } if !is_whole => {
            take_each(rt, end.alloc, &mut end.driver, *id, piece.as_slice());
        }
        _ => take(rt, &mut end.driver, event),
    }
    Reply::Done
}

/// The session that a call names.
fn named(rt: &impl Abort, name: Option<SessionId>) -> SessionId {
    match name {
        Some(id) => id,
        None => session(rt, 0),
    }
}

fn call_reply(rt: &impl Abort, end: &mut End, call: Call) -> Reply {
    match call {
        Call::AcceptUni { session } => accept_uni(rt, &mut end.driver, named(rt, session)),
        Call::AcceptBi { session } => accept_bi(rt, &mut end.driver, named(rt, session)),
        Call::ReceiveDatagram { session } => {
            receive_datagram(rt, &mut end.driver, named(rt, session))
        }
        Call::OpenUni { session } => open_uni(rt, end, named(rt, session)),
        Call::SendDatagram { payload, session } => {
            send_datagram(rt, &mut end.driver, named(rt, session), payload.as_slice())
        }
        Call::EndSession { session } => end_session(rt, &mut end.driver, named(rt, session)),
        Call::Incoming => incoming(rt, end),
        Call::Accept { .. } => accept(rt, end),
        Call::Forbidden => reject(rt, end),
        Call::Handshake => response(rt, &mut end.driver),
        Call::Close { code, reason } => close(rt, &mut end.driver, code, reason),
        Call::Closed => closed(&end.driver),
        call => stream_reply(rt, end, call),
    }
}

fn stream_reply(rt: &impl Abort, end: &mut End, call: Call) -> Reply {
    match call {
        Call::Write { id, bytes } => write(rt, &mut end.driver, id, bytes.as_slice()),
        Call::WriteAll { id, bytes } => write_all(rt, &mut end.driver, id, bytes.as_slice()),
        Call::Finish { id } => finish(rt, &mut end.driver, id),
        Call::ResetSend { id, code } => reset(rt, &mut end.driver, id, code),
        Call::Priority { id } => priority(&mut end.driver, id),
        Call::Read { id, size } => read(rt, end, id, size),
        Call::ReadExact { id, size } => read_exact(rt, end, id, size),
        Call::StopRecv { id, code } => stop(rt, &mut end.driver, id, code),
        _ => panic!(rt; "the driver has no such call"),
    }
}

fn number(rt: &impl Abort, word: &str) -> u32 {
    let number = read_count(word.as_bytes()).expect(rt, "a number");
    u32::try_from(number).expect(rt, "a small number")
}

fn word_reply(rt: &impl Abort, end: &mut End, line: &str) -> Reply {
    match line.split_once(' ') {
        Some((name, word)) => numbered_reply(rt, end, name, number(rt, word)),
        None => bare_reply(rt, end, line),
    }
}

/// Nothing is to be known of it, so that what calls it is cheap to prove.
fn is_word(name: &str, word: &str) -> bool {
    name == word
}

fn yes_or_no(is_so: bool) -> Reply {
    if is_so { Reply::Done } else { Reply::Pending }
}

fn bare_reply(rt: &impl Abort, end: &mut End, name: &str) -> Reply {
    if is_word(name, "accept_settings") {
        return accept_settings(rt, &mut end.driver);
    }
    if is_word(name, "dial") {
        return dial(rt, end);
    }
    if is_word(name, "ask") {
        return ask(rt, end);
    }
    if is_word(name, "write_request") {
        return write_request(rt, end);
    }
    if is_word(name, "begin") {
        return begin(rt, end);
    }
    if is_word(name, "poll") {
        return poll_opening(rt, end);
    }
    told(rt, end, name)
}

/// What the driver tells of itself.
fn told(rt: &impl Abort, end: &End, name: &str) -> Reply {
    if is_word(name, "is_open") {
        return yes_or_no(end.driver.is_open());
    }
    if is_word(name, "settings_came") {
        return yes_or_no(end.driver.settings_came());
    }
    if is_word(name, "has_request") {
        return yes_or_no(end.driver.has_request());
    }
    if is_word(name, "living") {
        return Reply::Count(end.driver.living() as u64);
    }
    if is_word(name, "readers") {
        return Reply::Count(end.driver.readers() as u64);
    }
    if is_word(name, "pieces") {
        return Reply::Count(end.driver.pieces());
    }
    panic!(rt; "no such word: {name}")
}

fn numbered_reply(rt: &impl Abort, end: &mut End, name: &str, number: u32) -> Reply {
    if is_word(name, "unread") {
        return Reply::Count(end.driver.unread(stream(number)));
    }
    let session = session(rt, number);
    if is_word(name, "is_gone") {
        return yes_or_no(end.driver.is_gone(session));
    }
    if is_word(name, "register") {
        return register_again(rt, &mut end.driver, session);
    }
    if is_word(name, "refuse") {
        return refuse_session(rt, &mut end.driver, session);
    }
    panic!(rt; "no such word: {name}")
}
