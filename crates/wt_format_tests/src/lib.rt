//! Tests of the formats, of the configuration and of the texts of errors, on bytes and values that come from outside.
//! There are tests here and no code.
#![tactic(auto)]

#[cfg(test)]
mod tests;
