//! Theorems on the definitions and the values of this crate, each a function whose contract states
//! it.

pub mod byte_strings;
pub mod laws;
pub mod rows;
