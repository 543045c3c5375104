//! What the program is asked to do.
ghost use Rattle.std.specs.Prelude.{◌≡◌, ◌≤◌, map, string_bytes};
ghost use Rattle.wt_trace.specs.Command.{command_of, bounded_count, streams_of};

use crate::generate::MOST_STREAMS;
use std::marker::Model;
use wt_script::script::numbers::read_count;

/// How many streams a generated run has: from 1 to 10,000. Contracts see the number.
#[derive(Clone, Copy, PartialEq, Eq, Debug)]
pub struct StreamCount {
    number: u32,
}

impl Model for StreamCount {
    ghost use Rattle.std.specs.Prelude.{ℕ, ◌≤◌};

    ghost Value = { ℕ };

    ghost view = { λ c. c.number };

    ghost invariant = { λ c. c.number ≤ 10000 };

    ghost inverse = { λ n. record { number = n } };
}

impl StreamCount {
    /// The count of this number; None exactly where it isn't from 1 to 10,000.
    pub fn new(number: u64) -> Option<StreamCount>
        ensures { result ≡ bounded_count number }
    {
        if number > 0 && number < 10_001 {
            Some(StreamCount {
                number: number as u32,
            })
        } else {
            None
        }
    }

    /// The number.
    pub fn into_u32(self) -> u32
        ensures value { result ≡ self }
        ensures most { result ≤ MOST_STREAMS }
    {
        self.number
    }
}

/// What the program is asked to do with its input.
#[derive(Clone, Copy, PartialEq, Eq, Debug)]
pub enum Command {
    /// To answer the turns of a script, with a line for each answer.
    Trace,
    /// To answer a generated run with n streams and the turns of the input after it, and to sum
    /// up the answers.
    Large(StreamCount),
}

/// What the words ask for; None exactly where they have no form of the program.
pub fn read_command(words: &[String]) -> Option<Command>
    ensures { result ≡ command_of (map string_bytes words.now) }
{
    match words {
        [word] if word.as_bytes() == b"trace".as_slice() => Some(Command::Trace),
        [word, streams] if word.as_bytes() == b"large".as_slice() => {
            let streams = read_streams(streams.as_bytes())?;
            Some(Command::Large(streams))
        }
        _ => None,
    }
}

/// The number of streams that a word spells; None exactly where it spells none from 1 to 10,000.
pub fn read_streams(word: &[u8]) -> Option<StreamCount>
    ensures { result ≡ streams_of word.now }
{
    let number = read_count(word)?;
    StreamCount::new(number)
}
