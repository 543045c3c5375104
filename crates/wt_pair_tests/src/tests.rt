//! The tests, by what they try.

mod link;
mod long;
mod program;
mod refused;
mod scripts;
