//! The program: a script comes in, the lines of its answers go out, or one line that sums them up.
ghost use Rattle.std.specs.Prelude.{map, string_bytes};
ghost use Rattle.wt_trace.specs.Outside.{seen};
ghost use Rattle.wt_trace.specs.Asked.{Ran};
ghost use Rattle.wt_trace.specs.Program.{asked_by};

pub use crate::asked::OUT_OF_MEMORY;
use crate::asked::run_asked;
use crate::command::read_command;
use crate::outside::{Sink, Source};
use std::alloc::Global;

/// Runs the program. With the word `trace` it reads a script to its end, runs its turns, and writes a line
/// for each answer. With `large` and a number from 1 to 10,000 it reads lines of turns to their end, runs
/// a generated run with n streams and then these turns, as a server, and writes one line that sums
/// up the answers. All text goes to the sink. It reads at most 16,777,217 bytes, whatever the status: a
/// byte more than the greatest script has.
///
/// | status | where | text |
/// |---|---|---|
/// | 0 | the run reached its end | the answers, or their summary |
/// | 1 | the words have no such form | the usage line |
/// | 2 | line n is the first that isn't in the grammar | `line <n> refused` |
/// | 3 | the turn at this index isn't lawful | of `trace` the answers before; `turn <at> unlawful` |
/// | 4 | the source failed | nothing |
/// | 5 | the sink failed | a first part of the text |
/// | 6 | the program ran out of memory | a first part of the text |
/// | 7 | the source gave more than 16,777,216 bytes | `script too long` |
pub fn run_program<S: Source, K: Sink>(
    alloc: Global,
    words: &[String],
    source: &mut S,
    sink: &mut K,
) -> u8
    ensures { Ran (asked_by (map string_bytes words.now))
        (seen (S.left source.old) (S.faults source.old)) (seen (S.left source.new) (S.faults source.new))
        (seen (K.took sink.old) (K.faults sink.old)) (seen (K.took sink.new) (K.faults sink.new)) result }
{
    run_asked(alloc, read_command(words), source, sink)
}
