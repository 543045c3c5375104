//! What the contracts leave open: that memory suffices where there is enough, and worked records.
mod lines;
mod program;
mod records;
