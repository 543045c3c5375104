//! Records: scripts in which each turn's line is followed by its answer's.
ghost use Rattle.std.specs.Prelude.{◌≡◌, IfOk, IsSome, None, Some, if◌then◌else◌};
ghost use Rattle.std.specs.Option.{option_map};
ghost use Rattle.wt_check.specs.Reading.{answer_in, no_lines, record_of, with_answer, with_side, with_side_or_pair, with_turn};
ghost use Rattle.wt_script.specs.Script.{side_of, turn_of};

use std::alloc::Global;
use std::marker::Model;
use wt_script::answers::read_answer;
use wt_script::draft::{Draft, read_lines};
use wt_script::script::ScriptRefused;
use wt_script::script::lines::{read_side, read_turn};
use wt_turn::answer::Answer;
use wt_turn::turn::Turn;
use wt_wire::error::OutOfMemory;
use wt_wire::side::Side;

/// What a record says.
#[derive(Debug, Drop)]
pub struct Record {
    /// The side that answered.
    pub side: Side,
    /// Its turns with their answers, in order.
    pub pairs: Vec<(Turn, Answer)>,
}

impl Model for Record {
    ghost use Rattle.wt_check.specs.Records as records;
    ghost use Rattle.wt_check.specs.Records.{pairs_of};

    ghost Value = { records.Record };

    ghost view = { λ r. record { side = r.side; pairs = pairs_of r.pairs.items } };
}

/// What the lines so far say.
#[derive(Drop)]
struct RecordLines {
    side: Option<Side>,
    /// The turn whose answer comes next.
    turn: Option<Turn>,
    pairs: Vec<(Turn, Answer)>,
}

impl Model for RecordLines {
    ghost use Rattle.wt_check.specs.Reading as said;
    ghost use Rattle.wt_check.specs.Records.{pairs_of};

    ghost Value = { said.RecordLines };

    ghost view = { λ d. record { side = d.side; turn = d.turn; pairs = pairs_of d.pairs.items } };
}

/// The answer of a line: `= `, and then the answer's own line.
fn read_answer_line(alloc: Global, line: &[u8]) -> Result<Option<Answer>, OutOfMemory>
    ensures { IfOk result (λ answer. answer ≡ answer_in line.now) }
{
    match line {
        [b'=', b' ', text @ ..] => read_answer(alloc, text),
        _ => Ok(None),
    }
}

impl RecordLines {
    fn new(alloc: Global) -> RecordLines
        ensures { result ≡ no_lines }
    {
        RecordLines {
            side: None,
            turn: None,
            pairs: Vec::new(alloc),
        }
    }

    /// Takes the side's line; false where it names none.
    fn take_side(&mut self, line: &[u8]) -> bool
        ensures { option_map (with_side self.old) (side_of line.now) ≡ (if result then Some self.new else None) }
    {
        match read_side(line) {
            Some(side) => {
                self.side = Some(side);
                true
            }
            None => false,
        }
    }

    /// Takes a turn's line; false where it spells none.
    fn take_turn(&mut self, alloc: Global, line: &[u8]) -> Result<bool, OutOfMemory>
        ensures { IfOk result (λ taken. option_map (with_turn self.old) (turn_of line.now) ≡ (if taken then Some self.new else None)) }
    {
        match read_turn(alloc, line)? {
            Some(turn) => {
                self.turn = Some(turn);
                Ok(true)
            }
            None => Ok(false),
        }
    }

    /// Takes the line of the answer to this turn, which is taken already; false where it spells none.
    fn take_answer(&mut self, alloc: Global, turn: Turn, line: &[u8]) -> Result<bool, OutOfMemory>
        requires { self.old.turn ≡ None }
        ensures { IfOk result (λ taken. option_map (with_answer self.old turn) (answer_in line.now) ≡ (if taken then Some self.new else None)) }
    {
        match read_answer_line(alloc, line)? {
            Some(answer) => {
                self.pairs.push((turn, answer))?;
                Ok(true)
            }
            None => Ok(false),
        }
    }

    /// Takes the line of a turn, or that of the answer to the turn before.
    fn take_pair(&mut self, alloc: Global, line: &[u8]) -> Result<bool, OutOfMemory>
        requires { IsSome self.old.side }
        ensures { IfOk result (λ taken. with_side_or_pair self.old self.old.side self.old.turn line.now ≡ (if taken then Some self.new else None)) }
    {
        match self.turn.take() {
            Some(turn) => self.take_answer(alloc, turn, line),
            None => self.take_turn(alloc, line),
        }
    }
}

impl Draft for RecordLines {
    ghost use Rattle.wt_check.specs.Reading.{record_at_end, with_words};

    type Whole = Record;

    ghost with_words = { with_words };

    ghost at_end = { record_at_end };

    fn take_line(&mut self, alloc: Global, line: &[u8]) -> Result<bool, OutOfMemory> {
        match self.side {
            None => Ok(self.take_side(line)),
            Some(_) => self.take_pair(alloc, line),
        }
    }

    fn finish(self, number: u64) -> Result<Record, ScriptRefused> {
        match (self.side, self.turn) {
            (Some(side), None) => Ok(Record {
                side,
                pairs: self.pairs,
            }),
            _ => Err(ScriptRefused { line: number }),
        }
    }
}

/// Reads a record: lines that end with a line feed, which the last may lack. An empty line and one that begins with `#` are left out, and
/// counted. The first other line names the side; each further one is a turn's, and the next `= ` and the line of its answer.
///
/// # Errors
///
/// `OutOfMemory` where a pair found no memory. The refusal names the first line that isn't in the grammar, or the one after the last
/// where the side or the last answer is missing.
pub fn read_record(alloc: Global, text: &[u8]) -> Result<Result<Record, ScriptRefused>, OutOfMemory>
    ensures { IfOk result (λ r. r ≡ record_of text.now) }
{
    read_lines(alloc, RecordLines::new(alloc), text)
}
