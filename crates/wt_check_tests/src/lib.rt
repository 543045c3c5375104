//! Tests of records and of their check. There are tests here and no code.
#![tactic(auto)]

#[cfg(test)]
mod tests;
