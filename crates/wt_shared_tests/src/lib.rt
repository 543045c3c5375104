//! Tests of wt_shared: what no contract says of threads, and that memory suffices where there is enough. There is no other
//! code here.
#![tactic(auto)]

#[cfg(test)]
mod tests;
