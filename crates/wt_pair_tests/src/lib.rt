//! Tests of two ends over a link: what doesn't fit, what a link does, the program. There are tests here and no code.
#![tactic(auto)]

#[cfg(test)]
mod tests;
