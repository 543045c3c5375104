//! The core by its own calls: with ample memory, where a body that answers out of memory fails, and with each growth
//! refused in turn, by `tools/refuse-memory`.
use std::alloc::Global;
use std::process::Abort;
use wt_core::Core;
use wt_script::print::print_answer;
use wt_script::script::{Script, read_script};
use wt_turn::answer::Answer;
use wt_turn::turn::Turn;

/// A server's session, and a stream that it opens and writes on as far as credit goes.
const SERVER: &str = "\
server
connected 9 9 25 1200
peer_uni
bytes 2 000400
peer_bi
bytes 0 014050000027033a617574686f72697479016827003a6d6574686f6407434f4e4e454354253a70617468012f\
    27023a70726f746f636f6c0c7765627472616e73706f727427003a736368656d65056874747073
incoming
accept
open_uni
poll_opening 7
write_all 7 6161616161616161616161616161616161616161
write 7 6162636465
max_data 7 28
write 7 636465
finish 7
acked 7
finish 7
reset_send 7 1
";

const SERVER_TEXT: &str = "\
done ; opened 3 ; send 3 0004160100070008013301ab60374201c0000000c671706a04
done
done
done
done
request 0 3a617574686f72697479=68 3a6d6574686f64=434f4e4e454354 3a70617468=2f \
    3a70726f746f636f6c=7765627472616e73706f7274 3a736368656d65=6874747073
session 0 ; send 0 010f000027003a73746174757303323030
opening 7 ; opened 7
send_ready 7 ; send 7 405400
all_written ; send 7 6161616161616161616161616161616161616161
written 2 ; send 7 6162
done
written 3 ; send 7 636465
pending ; finish 7
done
finished
closed_stream
";

/// A client's session.
const CLIENT: &str = "\
client
connect https://h:4433/p?q v4:7f000001:4433 proceed
connected 1 1 1000 1200
handshake
peer_uni
bytes 3 000400
handshake
bytes 0 010f000027003a73746174757303323030
handshake
";

const CLIENT_TEXT: &str = "\
pending ; dial v4:7f000001:4433 68
done ; opened 2 ; send 2 0004160100070008013301ab60374201c0000000c671706a04
pending
done
done
pending ; opened 0 ; send 0 014058000027033a617574686f7269747906683a34343333\
    27003a6d6574686f6407434f4e4e454354253a70617468042f703f71\
    27023a70726f746f636f6c0c7765627472616e73706f727427003a736368656d65056874747073
done
session 0
";

/// Whether the answer prints as this line, where there is memory to print it.
fn has_line(alloc: Global, answer: &Answer, line: &str) -> bool {
    match print_answer(alloc, answer) {
        Ok(printed) => printed.as_str() == line,
        Err(_) => true,
    }
}

/// Answers a turn so, or is out of memory, then and from then on. Reports whether it is.
fn answers_or_is_out(
    rt: &impl Abort,
    alloc: Global,
    core: &mut Core,
    turn: &Turn,
    line: &str,
    was_out: bool,
) -> bool {
    let lawful = core.is_lawful(turn);
    assert!(rt; lawful);
    let Ok(answer) = core.turn(turn) else {
        return true;
    };
    assert!(rt; !was_out && has_line(alloc, &answer, line));
    false
}

/// The script, where there is memory to read it.
fn read(rt: &impl Abort, alloc: Global, script: &str) -> Option<Script> {
    let read = read_script(alloc, script.as_bytes()).ok()?;
    Some(read.expect(rt, "a script"))
}

/// A core answers a script so up to a turn that is out of memory, and so is each one after it.
fn stays_out(rt: &impl Abort, alloc: Global, script: &str, text: &str) {
    let Some(script) = read(rt, alloc, script) else {
        return;
    };
    let mut core = Core::new(alloc, script.side);
    let mut is_out = false;
    for (turn, line) in script.turns.as_slice().iter().zip(text.lines()) {
        is_out = answers_or_is_out(rt, alloc, &mut core, turn, line, is_out);
    }
}

#[test]
fn a_core_out_of_memory_stays_so(rt: HostRuntime) {
    let alloc = rt.alloc();
    stays_out(&rt, alloc, CLIENT, CLIENT_TEXT);
    stays_out(&rt, alloc, SERVER, SERVER_TEXT);
}
