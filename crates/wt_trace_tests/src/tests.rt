//! What the contracts leave open: that memory suffices where there is enough, and worked cases.
mod endpoint;
mod errors;
mod generated;
mod growths;
mod hostile;
mod outside;
mod print;
mod program;
mod script;
mod trace;
