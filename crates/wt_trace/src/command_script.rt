//! The script that a command makes of the program's input.
ghost use Rattle.std.specs.Prelude.{◌≡◌, IfOk};
ghost use Rattle.wt_trace.specs.Command.{command_script, server_turns, with_first_turn};

use crate::command::Command;
use crate::generate::generate;
use std::alloc::Global;
use wt_script::script::{Script, ScriptRefused, read_more_turns, read_script};
use wt_turn::turn::Turns;
use wt_wire::error::OutOfMemory;
use wt_wire::side::Side;

/// The script that a command makes of its input.
///
/// # Errors
///
/// `OutOfMemory` where the turns found no memory; the answer `Err` names the first line that isn't in the grammar.
#[tactic(auto, unfolding(crate::specs::Command::command_script))]
pub fn script_for(
    alloc: Global,
    command: Command,
    input: &[u8],
) -> Result<Result<Script, ScriptRefused>, OutOfMemory>
    ensures { IfOk result (λ r. r ≡ command_script command input.now) }
{
    match command {
        Command::Trace => read_script(alloc, input),
        Command::Large(streams) => {
            let generated = generate(alloc, streams.into_u32())?;
            turns_after(alloc, generated, input)
        }
    }
}

/// A server's script: these turns, and then those of the lines of the input.
fn turns_after(
    alloc: Global,
    first: Turns,
    input: &[u8],
) -> Result<Result<Script, ScriptRefused>, OutOfMemory>
    ensures { IfOk result (λ r. r ≡ with_first_turn first (server_turns input.now)) }
{
    let begun = Script {
        side: Side::Server,
        turns: first,
    };
    read_more_turns(alloc, begun, input)
}
