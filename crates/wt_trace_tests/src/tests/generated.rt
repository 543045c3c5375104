//! The run that is made by rule, with ample memory.
use wt_trace::generate::generate;

#[test]
fn a_run_of_a_thousand_streams(rt: HostRuntime) {
    let turns = generate(rt.alloc(), 1000).expect(&rt, "no memory");
    let count = turns.as_slice().len();
    assert!(rt; count == 6007);
}
