//! Tests of scripts and answers, line by line, of runs, of endpoints and of the program. There are tests here and no code.
#![tactic(auto)]

#[cfg(test)]
mod tests;
