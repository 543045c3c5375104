//! Many streams, one after another: memory suffices, and each line is the one that is due.
use super::scripts::{ACCEPTED, CONNECTED, EVENTS, answered, joined, lines_behind};
use std::alloc::Global;
use std::process::Abort;

const STREAMS: u64 = 300;

/// A stream of the client's with two bytes, delivered in four parts and read to its end.
fn stream_events(rt: &impl Abort, alloc: Global, id: u64) -> String {
    format!(in alloc;
        "\
client open_uni
client poll_opening {id}
client write_all {id} 6869
client finish {id}
deliver server 0 0
deliver server 0 3
deliver server 0 2
deliver server 0 0
deliver client 0 0
server accept_uni
server read {id} 9
server read {id} 9
"
    )
    .expect(rt, "no memory")
}

fn stream_lines(rt: &impl Abort, alloc: Global, id: u64) -> String {
    format!(in alloc;
        "\
client opening {id} ; opened {id}
client send_ready {id} ; send {id} 405400
client all_written ; send {id} 6869
client pending ; finish {id}
server done
server done
server done
server done
client done
server uni {id}
server read 6869
server end
"
    )
    .expect(rt, "no memory")
}

#[test]
fn many_streams_are_read_as_they_were_written(rt: HostRuntime) {
    let alloc = rt.alloc();
    let mut events = joined(
        &rt,
        alloc,
        &[CONNECTED, ACCEPTED, "credit client max_uni 400\n"],
    );
    let mut lines = joined(&rt, alloc, &["client done\n"]);
    for number in 0..STREAMS {
        let id = 6 + 4 * number;
        events
            .push_str(stream_events(&rt, alloc, id).as_str())
            .expect(&rt, "no memory");
        lines
            .push_str(stream_lines(&rt, alloc, id).as_str())
            .expect(&rt, "no memory");
    }
    let (status, sink) = answered(&rt, alloc, "pair", events.as_str());
    assert!(&rt; status == 0);
    assert_eq!(&rt;
        lines_behind(&rt, alloc, sink.written(), EVENTS).as_bytes(),
        lines.as_bytes()
    );
}
