//! What the driver of a connection keeps, as data, and its steps on that data: definitions that code and the tie to a log both cite.
//! There is no code here.
#![tactic(auto)]
