//! The program over standard input and output.
//!
//! `wt_cli trace` reads a script, and writes a line for each answer to its turns. `wt_cli large <n>` runs a
//! generated run with n streams and then the turns that it reads, and writes a line that sums up the
//! answers. `wt_cli shared <n>` makes a generated run with n streams in two threads. `wt_cli pair` reads a script of two ends,
//! and `wt_cli check` a record of a session. The exit status says how that went: see [`run_program`](wt_trace::run_program),
//! [`run_shared`](wt_shared::run_shared), [`run_pair_program`](wt_pair::run_pair_program) and
//! [`run_check_program`](wt_check::run_check_program).
#![tactic(auto)]

mod ended;

use crate::ended::{Ended, run};
use std::env;
use std::io::Error;
use wt_trace::outside::standard::{StdSink, StdSource};

/// The words after the program's name. The error is a word that isn't UTF-8, or out of memory.
fn words(rt: &HostRuntime) -> Result<Vec<String>, Error> {
    let mut words = Vec::new(rt.alloc());
    for word in env::args(rt)?.skip(1) {
        words.push(word)?;
    }
    Ok(words)
}

fn main(rt: HostRuntime) -> Ended {
    let mut source = StdSource::new(rt.stdin());
    let mut sink = StdSink::new(rt.stdout());
    run(&rt, rt.alloc(), words(&rt), &mut source, &mut sink)
}
