//! The program: a script or a generated run in, its answers out.
//!
//! [`run_program`] does it: [`command::read_command`] reads the words, [`input`] the source's bytes up to the
//! greatest script, [`run_trace`] answers the list of turns, and [`output`] writes texts and lines of answers to a
//! sink. [`generate::generate`] makes a long list of turns by rule, and [`summary::Summary`] is what its answers
//! come to. Sources and sinks are those of [`outside`].
#![tactic(auto)]

pub mod answer;
pub mod asked;
pub mod command;
pub mod command_script;
pub mod cut_short;
pub mod endpoint;
pub mod generate;
pub mod input;
pub mod output;
pub mod outside;
pub mod program;
pub mod send;
pub mod summary;

pub use outside::mem::{MemSink, MemSource};
pub use outside::standard::{StdSink, StdSource};
pub use outside::sure::{SureSink, SureSource};
pub use outside::{Failed, Sink, Source};
pub use program::run_program;
pub use summary::Summary;
pub use wt_core::{Core, TraceError, run_trace, trace};
pub use wt_script::print::print_answer;
pub use wt_script::script::lines::read_turn;
pub use wt_script::script::{Script, ScriptRefused, read_script};
pub use wt_turn::{Answer, Answers, Reply, Turn, Turns};
