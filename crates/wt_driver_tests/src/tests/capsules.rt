//! Capsules on the stream of a session (RFC 9297, section 3.2), over the payloads of its DATA frames joined.
use super::harness::session_runs;

#[test]
fn a_capsule_closes_the_session(rt: HostRuntime) {
    let cases = "
        # The code 7 and the reason bye, in one DATA frame.
        bytes 0 000a68430700000007627965
        > done ; reset 0 256
        accept_bi
        > failed application_closed 7 627965
        is_gone 0
        is_open
        ~
        # The capsule's head in one frame, its payload in the next.
        bytes 0 0003684307
        is_gone 0
        > pending
        bytes 0 000700000007627965
        > done ; reset 0 256
        accept_bi
        > failed application_closed 7 627965
        ~
        # Behind an empty capsule of another type.
        bytes 0 000c000068430700000007627965
        > done ; reset 0 256
        accept_uni
        > failed application_closed 7 627965
    ";
    session_runs(&rt, rt.alloc(), cases);
}

#[test]
fn a_session_stream_that_is_cut_is_a_fault(rt: HostRuntime) {
    let cases = "
        # Inside a capsule.
        bytes 0 0003684307
        end 0
        > done ; close 270 -
        ~
        # Inside a frame.
        bytes 0 00
        end 0
        > done ; close 260 -
        ~
        # By a reset.
        reset 0 9
        > done ; close 260 -
    ";
    session_runs(&rt, rt.alloc(), cases);
}

#[test]
fn a_data_frame_may_have_any_length(rt: HostRuntime) {
    let script = "
        # DATA of 4,097 bytes.
        bytes 0 005001
        is_open
        living
        > count 1
    ";
    session_runs(&rt, rt.alloc(), script);
}
