//! The turn and the side that a line spells.
ghost use Rattle.std.specs.Prelude.{◌≡◌, ◌∷◌, IfOk};
ghost use Rattle.wt_script.specs.Script.{side_of, turn_of, turn_of_words};

use crate::script::calls::read_call;
use crate::script::events::read_event;
use crate::script::words::{Parts, is_name};
use std::alloc::Global;
use wt_turn::turn::Turn;
use wt_wire::error::OutOfMemory;
use wt_wire::side::Side;

fn turn_from(alloc: Global, name: &[u8], fields: &Parts) -> Result<Option<Turn>, OutOfMemory>
    ensures { IfOk result (λ turn. turn ≡ turn_of_words (name.now ∷ fields.now)) }
{
    if let Some(turn) = read_event(alloc, name, fields)? {
        return Ok(Some(turn));
    }
    let call = read_call(alloc, name, fields)?;
    Ok(call.map(Turn::Call))
}

/// The turn that these words spell.
pub fn read_words(alloc: Global, words: &Parts) -> Result<Option<Turn>, OutOfMemory>
    ensures { IfOk result (λ turn. turn ≡ turn_of_words words.now) }
{
    match words.split_first() {
        Some((name, fields)) => turn_from(alloc, name, &fields),
        None => Ok(None),
    }
}

/// The turn that a line spells; None exactly where the line is no line of a turn or a call.
pub fn read_turn(alloc: Global, line: &[u8]) -> Result<Option<Turn>, OutOfMemory>
    ensures { IfOk result (λ turn. turn ≡ turn_of line.now) }
{
    read_words(alloc, &Parts::of_line(line))
}

/// The side that a line spells; None exactly where the line is neither `server` nor `client`.
pub fn read_side(line: &[u8]) -> Option<Side>
    ensures { result ≡ side_of line.now }
{
    if is_name(line, b"server") {
        return Some(Side::Server);
    }
    if is_name(line, b"client") {
        return Some(Side::Client);
    }
    None
}
