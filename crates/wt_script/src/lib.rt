//! Scripts: the text of a connection's turns, and of their answers.
//!
//! [`script::read_script`] reads the side and the turns that a script spells,
//! [`script::read_more_turns`] further lines of turns, and [`script::lines::read_turn`] the turn of one
//! line. Every event and every call has its line, and a line that is none of these refuses its script.
//! [`draft::read_lines`] is how any text is read line by line, by what one more line says after those before it.
//! [`print::print_answer`] writes the line of an answer, and [`answers::read_answer`] reads it back: both go by one table of words.
#![tactic(auto)]

pub mod answers;
pub mod draft;
mod names;
pub mod print;
pub mod script;
pub mod send;
