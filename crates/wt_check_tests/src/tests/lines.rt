//! Printed lines that are read back, and others that are the line of no answer.
use std::alloc::Global;
use std::test::Fail;
use wt_script::answers::read_answer;
use wt_script::print::print_answer;
use wt_wire::error::OutOfMemory;

/// Whether the line is read, and printed the same again.
fn reads_back(alloc: Global, line: &str) -> Result<bool, OutOfMemory> {
    match read_answer(alloc, line.as_bytes())? {
        Some(answer) => {
            let text = print_answer(alloc, &answer)?;
            Ok(text.as_str() == line)
        }
        None => Ok(false),
    }
}

/// Each kind of reply, of error and of action.
const LINES: [&str; 62] = [
    "done",
    "pending",
    "no_session",
    "no_stream",
    "request 0",
    "request 8 3a61=62 63=",
    "session 4",
    "rejected",
    "uni 6",
    "bi 4",
    "opening 7",
    "send_ready 7",
    "bi_ready 1",
    "id 0",
    "datagram -",
    "datagram 6869",
    "size none",
    "size 18446744073709551615",
    "written 0",
    "all_written",
    "count 12",
    "finished",
    "priority 0",
    "priority -2147483648",
    "closed_stream",
    "read -",
    "read 00ff",
    "end",
    "exact 61",
    "failed connection_closed 4611686018427387903 -",
    "failed application_closed 0 6279",
    "failed locally_closed",
    "failed local_h3 259",
    "failed timed_out",
    "failed quic_proto none 61",
    "closed quic_proto 5 -",
    "closed cids_exhausted",
    "connect_failed invalid_url parse",
    "connect_failed invalid_url scheme",
    "connect_failed dns_lookup 61",
    "connect_failed dns_not_found",
    "connect_failed connection timed_out",
    "connect_failed session_rejected",
    "connect_failed reserved_header 3a61",
    "connect_failed endpoint_stopping",
    "connect_failed cids_exhausted",
    "connect_failed invalid_server_name -",
    "connect_failed invalid_remote_address v4:7f000001:443",
    "opening_failed not_connected",
    "opening_failed refused",
    "write_failed stopped 7",
    "write_failed closed",
    "stopped_by quic_proto",
    "read_failed reset 7",
    "read_failed not_connected",
    "exact_failed finished_early 2 6162",
    "exact_failed reset 9",
    "exact_failed quic_proto",
    "datagram_failed unsupported",
    "datagram_failed too_large",
    "datagram_failed disabled",
    "pending ; dial v6:00000000000000000000000000000001:0 68 ; opened 0 ; send 0 61 ; send 4 62 ; \
        send 0 63 ; finish 0 ; reset 4 0 ; stop 4 9 ; datagram_out - ; close 256 -",
];

#[test]
fn lines_are_read_back(rt: HostRuntime) -> Result<(), Fail> {
    for line in LINES {
        assert!(rt; reads_back(rt.alloc(), line)?, "{line}");
    }
    Ok(())
}

/// Unknown words, words too few or too many, values out of form, and answers that are printed in another way.
const OTHERS: [&str; 41] = [
    "",
    " done",
    "done ",
    "done done",
    "Done",
    "request",
    "request 2",
    "request 0 6=61",
    "request 0 63= 3a61=62",
    "request 0 61= 61=",
    "request 0 -=61",
    "session 1",
    "id 2",
    "uni",
    "uni 06",
    "uni 4611686018427387904",
    "datagram",
    "datagram 6",
    "datagram 6A",
    "size x",
    "priority -0",
    "priority 2147483648",
    "read 61 62",
    "end 0",
    "failed",
    "failed local_h3 1",
    "failed timed_out 0",
    "failed quic_proto none ff",
    "connect_failed invalid_url",
    "write_failed reset 7",
    "read_failed stopped 7",
    "exact_failed reset 7 61",
    "done;close 0 -",
    "done;;close 0 -",
    "done ;  close 0 -",
    "done ; send 0 -",
    "done ; send 0 61 ; send 0 62",
    "done ; ",
    "done ; foo 1",
    "done ; close 0 - ;",
    "done x close 0 -",
];

#[test]
fn others_are_refused(rt: HostRuntime) -> Result<(), Fail> {
    for line in OTHERS {
        let answer = read_answer(rt.alloc(), line.as_bytes())?;
        assert!(rt; answer.is_none(), "{line}");
    }
    Ok(())
}
