//! A connection is driven by what the public crates offer alone.
use crate::turns::first_answer;
use wt_trace::print_answer;

/// The bytes of this end's control stream: its SETTINGS.
const SETTINGS: &str =
    "done ; opened 3 ; send 3 0004160100070008013301ab60374201c0000000c671706a04";

#[test]
fn a_connection_is_driven_by_turns(rt: HostRuntime) {
    let alloc = rt.alloc();
    let first = first_answer(alloc).expect(&rt, "no memory");
    let answer = first.expect(&rt, "no answer");
    let line = print_answer(alloc, &answer).expect(&rt, "no memory");
    assert_eq!(&rt; line.as_str(), SETTINGS);
}
