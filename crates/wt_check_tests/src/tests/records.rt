//! Worked records, each with its verdict.
use std::alloc::Global;
use std::test::Fail;
use wt_check::{Verdicts, check, read_record};
use wt_wire::error::OutOfMemory;

/// A server's session with one unidirectional stream, up to its first read.
const SESSION: &str = "server
connected 9 9 1000 1200
= done ; opened 3 ; send 3 0004160100070008013301ab60374201c0000000c671706a04
peer_uni
= done
bytes 2 000400
= done
peer_bi
= done
bytes 0 014050000027033a617574686f72697479016827003a6d6574686f6407434f4e4e454354253a70617468012f\
    27023a70726f746f636f6c0c7765627472616e73706f727427003a736368656d65056874747073
= done
incoming
= request 0 3a617574686f72697479=68 3a6d6574686f64=434f4e4e454354 3a70617468=2f \
    3a70726f746f636f6c=7765627472616e73706f7274 3a736368656d65=6874747073
accept
= session 0 ; send 0 010f000027003a73746174757303323030
peer_uni
= done
bytes 6 4054006869
= done
accept_uni
= uni 6
";

/// What the check says of the session and these lines after it; None where a line is refused.
fn after_session(alloc: Global, lines: &str) -> Result<Option<Verdicts>, OutOfMemory> {
    let mut text = String::from_str(alloc, SESSION)?;
    text.push_str(lines)?;
    match read_record(alloc, text.as_bytes())? {
        Ok(record) => Ok(Some(check(alloc, record.side, record.pairs.as_slice())?)),
        Err(_) => Ok(None),
    }
}

/// Records that no rule refuses: what is read, also in parts and before the hand-out; datagrams that are left out; a stream of this
/// side's, with its header in parts; what comes after the end.
const ACCEPTED: [&str; 7] = [
    "read 6 16\n= read 6869\nend 6\n= done\nread 6 1\n= end\n",
    "read_exact 6 1\n= exact 68\nreset 6 7\n= done\nread_exact 6 2\n= exact_failed reset 7\n",
    "datagram 0061\n= done\ndatagram 0062\n= done\nreceive_datagram\n= datagram 62\n",
    "open_uni\n= opening 7 ; opened 7\npoll_opening 7\n= send_ready 7 ; send 7 405400\n\
        write 7 6162\n= written 1 ; send 7 61\n",
    "peer_uni\n= done\nbytes 10 40\n= done\nread 10 1\n= read 78\nbytes 10 540078\n= done\n\
        accept_uni\n= uni 10\n",
    "open_bi\n= opening 1 ; opened 1 ; send 1 40\nmax_data 1 1000\n= done ; send 1 4100\n\
        poll_opening 1\n= bi_ready 1\nbytes 1 79\n= done\nread 1 9\n= read 79\n",
    "loss timed_out\n= done\nread 6 16\n= read 6869\nclosed\n= closed timed_out\n",
];

#[test]
fn what_came_is_accepted(rt: HostRuntime) -> Result<(), Fail> {
    for lines in ACCEPTED {
        let verdict = after_session(rt.alloc(), lines)?;
        assert_eq!(rt; verdict, Some(Verdicts::Accepted), "{lines}");
    }
    Ok(())
}

/// Records that break a rule: where, and which.
const BROKEN: [(u64, u8, &str); 17] = [
    (10, 1, "bytes 10 00\n= done\n"),
    (11, 1, "end 6\n= done\nbytes 6 00\n= done\n"),
    (10, 1, "accept\n= session 0\n"),
    (10, 2, "closed\n= session 4\n"),
    (10, 2, "loss timed_out\n= session 0\n"),
    (10, 3, "accept_uni\n= uni 6\n"),
    (10, 3, "accept_uni\n= uni 10\n"),
    (
        12,
        3,
        "peer_uni\n= done\nbytes 10 405404\n= done\naccept_uni\n= uni 10\n",
    ),
    (10, 4, "read 6 16\n= read 6968\n"),
    (10, 4, "read 6 16\n= read 686970\n"),
    (10, 4, "read 6 16\n= end\n"),
    (11, 4, "end 6\n= done\nread 6 16\n= end\n"),
    (10, 5, "receive_datagram\n= datagram 61\n"),
    (
        12,
        5,
        "datagram 0061\n= done\nreceive_datagram\n= datagram 61\nreceive_datagram\n= datagram 61\n",
    ),
    (
        11,
        6,
        "open_uni\n= opening 7 ; opened 7\npoll_opening 7\n= send_ready 7 ; send 7 405404\n",
    ),
    (
        11,
        6,
        "open_bi\n= opening 1 ; opened 1\npoll_opening 1\n= bi_ready 1 ; send 1 40410061\n",
    ),
    (
        12,
        6,
        "open_uni\n= opening 7 ; opened 7\npoll_opening 7\n= send_ready 7 ; send 7 405400\n\
            open_uni 4\n= opening 7\n",
    ),
];

#[test]
fn each_rule_is_broken(rt: HostRuntime) -> Result<(), Fail> {
    for (at, rule, lines) in BROKEN {
        let verdict = after_session(rt.alloc(), lines)?;
        assert_eq!(rt; verdict, Some(Verdicts::Broken { at, rule }), "{lines}");
    }
    Ok(())
}

/// Lines that refuse a record: a turn without its answer, an answer without its turn, an answer in another form.
const REFUSED: [&str; 6] = [
    "read 6 16\n",
    "read 6 16\nend 6\n= done\n",
    "= done\n",
    "read 6 16\n=done\n",
    "read 6 16\n= read 686\n",
    "read 6 16\n# a remark\n\n",
];

#[test]
fn an_answer_follows_each_turn(rt: HostRuntime) -> Result<(), Fail> {
    for lines in REFUSED {
        let verdict = after_session(rt.alloc(), lines)?;
        assert_eq!(rt; verdict, None, "{lines}");
    }
    let remarks = "# a remark\nread 6 16\n\n# another\n= read 6869";
    let verdict = after_session(rt.alloc(), remarks)?;
    assert_eq!(rt; verdict, Some(Verdicts::Accepted));
    Ok(())
}
