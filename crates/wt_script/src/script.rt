//! Scripts: a side and its turns, a line each.
ghost use Rattle.std.specs.Prelude.{◌≡◌, IfOk, None, Some, if◌then◌else◌};
ghost use Rattle.std.specs.Option.{option_map};
ghost use Rattle.wt_script.specs.Script.{no_lines, script_of, side_of, turn_of, with_lines, with_side, with_turn};

pub(crate) mod addresses;
mod calls;
pub mod events;
pub(crate) mod headers;
pub mod lines;
pub mod numbers;
pub(crate) mod pairs;
pub mod words;

use crate::draft::{Draft, read_lines};
use crate::script::lines::{read_side, read_turn};
use std::alloc::Global;
use std::marker::Model;
use thiserror::Error;
use wt_turn::turn::Turns;
use wt_wire::error::OutOfMemory;
use wt_wire::side::Side;

/// What a script says.
#[derive(Debug, Drop)]
pub struct Script {
    /// The side that answers.
    pub side: Side,
    /// The turns, in order.
    pub turns: Turns,
}

/// A text is refused for this line, counted from 1: the first that isn't in the grammar, or the one after the last where something is
/// missing, of a script the line that names the side.
#[derive(Clone, Copy, PartialEq, Eq, Debug, Error)]
#[error("line {line} refused")]
pub struct ScriptRefused {
    pub line: u64,
}

/// What the lines so far say.
#[derive(Debug, Drop)]
struct ScriptLines {
    side: Option<Side>,
    turns: Turns,
}

impl Model for ScriptLines {
    ghost use Rattle.wt_script.specs.Lines.{Lines};

    ghost Value = { Lines };

    ghost view = { λ d. record { side = d.side; turns = d.turns } };
}

impl ScriptLines {
    fn new(alloc: Global) -> ScriptLines
        ensures { result ≡ no_lines }
    {
        ScriptLines {
            side: None,
            turns: Turns::new(alloc),
        }
    }

    fn take_side(&mut self, line: &[u8]) -> bool
        ensures { option_map (with_side self.old) (side_of line.now) ≡ (if result then Some self.new else None) }
    {
        match read_side(line) {
            Some(side) => {
                self.side = Some(side);
                true
            }
            None => false,
        }
    }

    fn take_turn(&mut self, alloc: Global, line: &[u8]) -> Result<bool, OutOfMemory>
        ensures { IfOk result (λ taken. option_map (with_turn self.old) (turn_of line.now) ≡ (if taken then Some self.new else None)) }
    {
        match read_turn(alloc, line)? {
            Some(turn) => {
                self.turns.push(turn)?;
                Ok(true)
            }
            None => Ok(false),
        }
    }
}

impl Draft for ScriptLines {
    ghost use Rattle.wt_script.specs.Script.{script_at_end, with_words};

    type Whole = Script;

    ghost with_words = { with_words };

    ghost at_end = { script_at_end };

    fn take_line(&mut self, alloc: Global, line: &[u8]) -> Result<bool, OutOfMemory> {
        match self.side {
            None => Ok(self.take_side(line)),
            Some(_) => self.take_turn(alloc, line),
        }
    }

    fn finish(self, number: u64) -> Result<Script, ScriptRefused> {
        match self.side {
            Some(side) => Ok(Script {
                side,
                turns: self.turns,
            }),
            None => Err(ScriptRefused { line: number }),
        }
    }
}

/// Reads a script: lines that end with a line feed, which the last may lack. An empty line and one
/// that begins with `#` are left out, and counted. The first other line names the side, each further
/// one is a turn.
pub fn read_script(
    alloc: Global,
    script: &[u8],
) -> Result<Result<Script, ScriptRefused>, OutOfMemory>
    ensures { IfOk result (λ r. r ≡ script_of script.now) }
{
    read_lines(alloc, ScriptLines::new(alloc), script)
}

/// Reads lines of turns after a script that has begun: none of them names the side. They are lines as
/// those of a script, and count from 1.
pub fn read_more_turns(
    alloc: Global,
    begun: Script,
    input: &[u8],
) -> Result<Result<Script, ScriptRefused>, OutOfMemory>
    ensures { IfOk result (λ r. r ≡ with_lines begun input.now) }
{
    let lines = ScriptLines {
        side: Some(begun.side),
        turns: begun.turns,
    };
    read_lines(alloc, lines, input)
}
