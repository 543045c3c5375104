//! Recorded cases, each run by the program's own call and compared.
//!
//! `wt_cases FILE..` reads scripts with the text and the status that two independent models agree on. The
//! last line says how many there are and how many differ; the exit status is 0 where none does.
#![tactic(auto)]

use crate::case::{Case, differing};
use crate::reading::read_cases;
use std::io::{Error, ErrorKind};
use std::process::ExitCode;
use std::{env, fs, io};

mod case;
mod reading;

/// Prints the numbers of the cases that differ, counted from 0, and how many there are.
fn print_differing(rt: &HostRuntime, cases: &[Case]) -> io::Result<bool> {
    let numbers = differing(rt.alloc(), cases)?;
    for number in &numbers {
        println!(rt; "case {number} differs")?;
    }
    let (all, some) = (cases.len(), numbers.len());
    println!(rt; "{all} cases, {some} differ")?;
    Ok(numbers.is_empty())
}

/// Adds the cases of a file.
fn add_cases(rt: &HostRuntime, file: &str, cases: &mut Vec<Case>) -> io::Result<()> {
    let text = fs::read_to_string(rt, file)?;
    for case in read_cases(rt.alloc(), text.as_str())? {
        cases.push(case)?;
    }
    Ok(())
}

fn main(rt: HostRuntime) -> io::Result<ExitCode> {
    let mut cases = Vec::new(rt.alloc());
    for file in env::args(&rt)?.skip(1) {
        add_cases(&rt, file.as_str(), &mut cases)?;
    }
    if cases.is_empty() {
        return Err(Error::from(ErrorKind::InvalidInput));
    }
    if print_differing(&rt, cases.as_slice())? {
        Ok(ExitCode::SUCCESS)
    } else {
        Ok(ExitCode::FAILURE)
    }
}
