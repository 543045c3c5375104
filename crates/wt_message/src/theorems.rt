//! Theorems on the definitions and the values of this crate, each a function whose contract states
//! it.

pub mod equality;
pub mod read_back;
