//! What [`run_check_program`] writes and answers.
use std::alloc::Global;
use std::process::Abort;
use wt_check::run_check_program;
use wt_trace::outside::mem::{MemSink, MemSource};

/// No number of a call.
const NEVER: u64 = u64::MAX;

/// The words of a line, with one blank between.
fn owned(rt: &impl Abort, alloc: Global, line: &str) -> Vec<String> {
    let mut owned = Vec::new(alloc);
    for word in line.split(' ') {
        let word = String::from_str(alloc, word).expect(rt, "no memory");
        let added = owned.push(word).is_ok();
        assert!(rt; added);
    }
    owned
}

/// The status that these words and this input are answered, where the read and the write of these numbers fail, and what is
/// written.
fn checked(
    rt: &impl Abort,
    alloc: Global,
    words: &str,
    input: &[u8],
    failing: (u64, u64),
) -> (u8, MemSink) {
    let words = owned(rt, alloc, words);
    let input = input.to_vec(alloc).expect(rt, "no memory");
    let reads = vec![in alloc; failing.0].expect(rt, "no memory");
    let writes = vec![in alloc; failing.1].expect(rt, "no memory");
    let mut source = MemSource::new(input, reads);
    let mut sink = MemSink::new(alloc, writes);
    let status = run_check_program(alloc, words.as_slice(), &mut source, &mut sink);
    (status, sink)
}

/// Answers this status to this input, and writes this text.
fn ends(rt: &impl Abort, alloc: Global, input: &str, status: u8, text: &str) {
    let (got, sink) = checked(rt, alloc, "check", input.as_bytes(), (NEVER, NEVER));
    assert!(rt; got == status, "{input}");
    assert_eq!(rt; sink.written(), text.as_bytes(), "{input}");
}

#[test]
fn each_status_has_its_text(rt: HostRuntime) {
    let alloc = rt.alloc();
    ends(&rt, alloc, "server\n", 0, "accepted\n");
    ends(
        &rt,
        alloc,
        "server\nincoming\n= pending\n",
        9,
        "broken 0 1\n",
    );
    ends(&rt, alloc, "", 2, "line 1 refused\n");
    ends(&rt, alloc, "# no side\n", 2, "line 2 refused\n");
    ends(&rt, alloc, "server\nincoming\n", 2, "line 3 refused\n");
    ends(
        &rt,
        alloc,
        "server\nincoming\npending\n",
        2,
        "line 3 refused\n",
    );
}

/// A turn that isn't lawful is judged, so status 3 never comes; what stands after it is read, but not judged.
#[test]
fn a_broken_record_is_read_to_its_end(rt: HostRuntime) {
    let alloc = rt.alloc();
    let broken = "server\nincoming\n= pending\nincoming\n= session 0\n";
    ends(&rt, alloc, broken, 9, "broken 0 1\n");
    let refused = "server\nincoming\n= pending\nincoming\n";
    ends(&rt, alloc, refused, 2, "line 5 refused\n");
}

#[test]
fn other_words_get_the_usage_line(rt: HostRuntime) {
    let alloc = rt.alloc();
    for words in ["checks", "check check", "", "trace"] {
        let (status, sink) = checked(&rt, alloc, words, b"server\n", (NEVER, NEVER));
        assert!(rt; status == 1);
        assert_eq!(rt; sink.written(), b"usage: trace | large <n>\n".as_slice());
    }
}

#[test]
fn a_source_and_a_sink_may_fail(rt: HostRuntime) {
    let alloc = rt.alloc();
    let (status, sink) = checked(&rt, alloc, "check", b"server\n", (0, NEVER));
    assert!(rt; status == 4 && sink.written().is_empty());
    let (status, sink) = checked(&rt, alloc, "check", b"server\n", (NEVER, 0));
    assert!(rt; status == 5 && sink.written().is_empty());
}

#[test]
fn a_record_has_a_greatest_length(rt: HostRuntime) {
    let alloc = rt.alloc();
    let longer = vec![in alloc; b'#'; 16_777_217].expect(&rt, "no memory");
    let (status, sink) = checked(&rt, alloc, "check", longer.as_slice(), (NEVER, NEVER));
    assert!(rt; status == 7);
    assert_eq!(rt; sink.written(), b"script too long\n".as_slice());
}

/// Pairs after the connection came, n times.
fn repeated(rt: &impl Abort, alloc: Global, pair: &str, count: usize) -> String {
    let front = "server\nconnected 9 9 1000 off\n= done\n";
    let mut text = String::from_str(alloc, front).expect(rt, "no memory");
    for _ in 0..count {
        text.push_str(pair).expect(rt, "no memory");
    }
    text
}

#[test]
fn many_pairs_are_judged(rt: HostRuntime) {
    let alloc = rt.alloc();
    for pair in [
        "peer_uni\n= done\n",
        "datagram 0061\n= done\n",
        "closed\n= pending\n",
        "max_uni 9\n= done ; opened 4611686018427387903\n",
    ] {
        let text = repeated(&rt, alloc, pair, 10_000);
        ends(&rt, alloc, text.as_str(), 0, "accepted\n");
    }
}
