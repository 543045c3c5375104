//! Scripts and their lines.
use crate::tests::print::{piece, stream, text};
use std::alloc::Global;
use std::process::Abort;
use wt_script::script::lines::read_turn;
use wt_script::script::read_script;
use wt_turn::{Call, ConnectionClose, DatagramFact, LossReason, Turn};
use wt_wire::addr::Addr;
use wt_wire::header_list::HeaderList;
use wt_wire::ids::SessionId;
use wt_wire::lookup::{ConnectOutcome, Lookup};
use wt_wire::side::Side;
use wt_wire::varint::VarInt;

fn spells(rt: &impl Abort, alloc: Global, line: &str, turn: Turn) {
    let read = read_turn(alloc, line.as_bytes()).expect(rt, "no memory");
    assert!(rt; read.expect(rt, "refused").is_equal(&turn));
}

fn is_refused(rt: &impl Abort, alloc: Global, line: &str) {
    let read = read_turn(alloc, line.as_bytes()).expect(rt, "no memory");
    assert!(rt; read.is_none());
}

fn session(id: u32) -> Option<SessionId> {
    SessionId::try_from_session_stream(stream(id))
}

#[test]
fn connections_are_read(rt: HostRuntime) {
    let limit = Turn::Connected {
        uni: 9,
        bi: 8,
        credit: 18446744073709551615,
        datagrams: DatagramFact::Limit(1200),
    };
    let line = "connected 9 8 18446744073709551615 1200";
    spells(&rt, rt.alloc(), line, limit);
    let off = Turn::Connected {
        uni: 0,
        bi: 0,
        credit: 25,
        datagrams: DatagramFact::Disabled,
    };
    spells(&rt, rt.alloc(), "connected 0 0 25 off", off);
}

#[test]
fn events_are_read(rt: HostRuntime) {
    let alloc = rt.alloc();
    spells(&rt, alloc, "peer_uni", Turn::PeerUni);
    spells(&rt, alloc, "peer_bi", Turn::PeerBi);
    let id = stream(2);
    let piece = piece(&rt, alloc, &[0, 0xab, 0xcd]);
    spells(&rt, alloc, "bytes 2 00aBCd", Turn::Bytes { id, piece });
}

#[test]
fn calls_are_read(rt: HostRuntime) {
    let alloc = rt.alloc();
    spells(&rt, alloc, "incoming", Turn::Call(Call::Incoming));
    spells(
        &rt,
        alloc,
        "accept_uni",
        Turn::Call(Call::AcceptUni { session: None }),
    );
    let headers = HeaderList::new(alloc);
    spells(&rt, alloc, "accept", Turn::Call(Call::Accept { headers }));
    let id = stream(6);
    let read = Call::Read { id, size: 16 };
    spells(&rt, alloc, "read 6 16", Turn::Call(read));
}

/// The session's id comes last, and may be left out.
#[test]
fn calls_on_sessions_are_read(rt: HostRuntime) {
    let alloc = rt.alloc();
    let session = session(4);
    spells(
        &rt,
        alloc,
        "end_session 4",
        Turn::Call(Call::EndSession { session }),
    );
    spells(
        &rt,
        alloc,
        "end_session",
        Turn::Call(Call::EndSession { session: None }),
    );
}

#[test]
fn payloads_on_sessions_are_read(rt: HostRuntime) {
    let alloc = rt.alloc();
    let payload = piece(&rt, alloc, b"hi");
    let session = session(4);
    let sent = Call::SendDatagram { payload, session };
    spells(&rt, alloc, "send_datagram 6869 4", Turn::Call(sent));
}

#[test]
fn losses_are_read(rt: HostRuntime) {
    let alloc = rt.alloc();
    let reason = LossReason::TimedOut;
    spells(&rt, alloc, "loss timed_out", Turn::Loss { reason });
    let reason = text(&rt, alloc, "é");
    let reason = LossReason::TransportError { code: 1, reason };
    spells(&rt, alloc, "loss transport 1 C3a9", Turn::Loss { reason });
    let close = ConnectionClose::new(VarInt::from_u32(2), piece(&rt, alloc, b"\xff"));
    let reason = LossReason::ConnectionClosed(close);
    spells(&rt, alloc, "loss connection 2 ff", Turn::Loss { reason });
}

#[test]
fn calls_on_streams_are_read(rt: HostRuntime) {
    let alloc = rt.alloc();
    let id = stream(7);
    let bytes = piece(&rt, alloc, b"");
    spells(
        &rt,
        alloc,
        "write_all 7 -",
        Turn::Call(Call::WriteAll { id, bytes }),
    );
    let low = Call::SetPriority {
        id,
        priority: -2147483648,
    };
    spells(&rt, alloc, "set_priority 7 -2147483648", Turn::Call(low));
    let none = Call::SetPriority { id, priority: 0 };
    spells(&rt, alloc, "set_priority 7 -0", Turn::Call(none));
}

#[test]
fn header_fields_are_read(rt: HostRuntime) {
    let alloc = rt.alloc();
    let mut headers = HeaderList::new(alloc);
    headers.set("x", "").expect(&rt, "no memory");
    headers.set(":y", "z").expect(&rt, "no memory");
    let line = "accept 78=79 3A79=7a 78=";
    spells(&rt, alloc, line, Turn::Call(Call::Accept { headers }));
}

#[test]
fn connects_are_read(rt: HostRuntime) {
    let alloc = rt.alloc();
    let connect = Call::Connect {
        options: (text(&rt, alloc, "https://h"), HeaderList::new(alloc)),
        lookup: Lookup::Found(Addr::V4 {
            ip: 0x7f00_0001,
            port: 65535,
        }),
        outcome: ConnectOutcome::InvalidRemoteAddress(Addr::V6 { ip: 0xab, port: 0 }),
    };
    let line = "connect https://h v4:7f000001:65535 address:v6:000000000000000000000000000000aB:0";
    spells(&rt, alloc, line, Turn::Call(connect));
    let connect = Call::Connect {
        options: (text(&rt, alloc, "h"), HeaderList::new(alloc)),
        lookup: Lookup::Fault(text(&rt, alloc, "")),
        outcome: ConnectOutcome::InvalidServerName(text(&rt, alloc, "n")),
    };
    spells(&rt, alloc, "connect h fault:- name:6e", Turn::Call(connect));
}

#[test]
fn other_lines_are_refused(rt: HostRuntime) {
    let lines = [
        "",
        " ",
        "foo",
        "server",
        "peer_uni ",
        " peer_uni",
        "peer_uni\r",
        "peer_uni 1",
        "connected 1 2 3",
        "connected 1 2 3 4 5",
        "connected 01 2 3 off",
        "connected 1 2 +3 off",
        "connected 1 2 18446744073709551616 off",
        "connected 1  2 3 off",
        "bytes 2",
        "bytes 2 ",
        "bytes 2 0",
        "bytes 2 0g",
        "bytes 2 --",
        "bytes 4611686018427387904 00",
        "accept -=79",
        "accept 78",
        "accept 78=79=7a",
        "set_priority 7 --1",
        "set_priority 7 2147483648",
        "loss transport 4611686018427387904 -",
        "loss transport 1 ff",
        "loss reset 1 -",
        "connect h fault: proceed",
        "connect h none name:",
        "connect h v4:7f00001:1 proceed",
        "connect h v4:7f000001:65536 proceed",
        "connect h none",
        "read 6",
        "read 6 1 1",
        "read 6 x",
        "accept_uni 6",
        "accept_uni 4 4",
        "accept_uni ",
        "send_datagram 6869 5",
        "closed 4",
        "poll_opening 7 4",
    ];
    for line in lines {
        is_refused(&rt, rt.alloc(), line);
    }
}

#[test]
fn scripts_are_read(rt: HostRuntime) {
    let text = b"# a comment\n\nserver\npeer_uni\n#peer_uni\n\npeer_bi";
    let read = read_script(rt.alloc(), text).expect(&rt, "no memory");
    let script = read.ok().expect(&rt, "refused");
    assert!(rt; script.side == Side::Server);
    assert_eq!(rt; script.turns.as_slice().len(), 2);
    assert!(rt; script.turns.as_slice()[0].is_equal(&Turn::PeerUni));
    assert!(rt; script.turns.as_slice()[1].is_equal(&Turn::PeerBi));
}

#[test]
fn scripts_of_a_client_are_read(rt: HostRuntime) {
    let text = b"client\nforbidden\naccept 78=79\n";
    let read = read_script(rt.alloc(), text).expect(&rt, "no memory");
    let script = read.ok().expect(&rt, "refused");
    assert!(rt; script.side == Side::Client);
    assert_eq!(rt; script.turns.as_slice().len(), 2);
    assert!(rt; script.turns.as_slice()[0].is_equal(&Turn::Call(Call::Forbidden)));
}

fn refuses(rt: &impl Abort, alloc: Global, text: &str, line: u64) {
    let read = read_script(alloc, text.as_bytes()).expect(rt, "no memory");
    assert_eq!(rt; read.err().expect(rt, "read").line, line);
}

#[test]
fn the_first_other_line_refuses_a_script(rt: HostRuntime) {
    let cases = [
        ("", 1),
        ("\n", 2),
        ("\n\n", 3),
        ("# nothing", 2),
        ("# nothing\n", 2),
        ("clients", 1),
        ("\npeer_uni\nserver", 2),
        ("server\nserver", 2),
        ("server\n\n#\nfoo\nbar\n", 4),
        ("server\r\n", 1),
        ("server\nforbid", 2),
        ("server\naccept 78", 2),
        ("client\nhandshake\nconnect h", 3),
    ];
    for (text, line) in cases {
        refuses(&rt, rt.alloc(), text, line);
    }
}
