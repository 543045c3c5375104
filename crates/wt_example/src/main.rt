//! The library as a user has it, by the names of the public crates alone. This program prints what a server's connection answers
//! to its first turn ([`turns`]); beside it stands every public name from where it is found ([`names`]).
#![tactic(auto)]

use anyhow::Result;
use wt_trace::print_answer;

pub mod names;
#[cfg(test)]
mod tests;
pub mod turns;

use turns::first_answer;

fn main(rt: HostRuntime) -> Result<()> {
    let alloc = rt.alloc();
    if let Some(answer) = first_answer(alloc)? {
        let line = print_answer(alloc, &answer)?;
        println!(rt; "{}", line.as_str())?;
    }
    Ok(())
}
