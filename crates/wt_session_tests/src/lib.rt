//! Tests of the public types for several sessions. There are tests here and no code.
#![tactic(auto)]

#[cfg(test)]
mod tests;
