//! Actions, as they are printed.
ghost use Rattle.std.specs.Prelude.{◌≡◌, [], IfOk};
ghost use Rattle.std.specs.Option.{option_map};
ghost use Rattle.wt_script.specs.AnswerErrors.{address_of_word};
ghost use Rattle.wt_script.specs.Answers.{action_of_words, action_with, actions_from, bare_action_of};
ghost use Rattle.wt_script.specs.Numbers.{text_of_word};
ghost use Rattle.wt_script.specs.Words.{two, words};

use crate::answers::front;
use crate::names;
use crate::script::addresses::read_address;
use crate::script::numbers::read_text;
use crate::script::pairs::{bytes_alone, code_and_bytes, id_alone, id_and_bytes, id_and_code};
use crate::script::words::{Parts, is_word};
use std::alloc::Global;
use wt_turn::action::{Action, Actions};
use wt_wire::error::OutOfMemory;

fn read_dial(alloc: Global, fields: &Parts) -> Result<Option<Action>, OutOfMemory>
    ensures { IfOk result (λ action. action ≡ option_map (λ p. Action.Dial p.0 p.1) (two address_of_word text_of_word fields.now)) }
{
    let Some((address, name)) = fields.two() else {
        return Ok(None);
    };
    let Some(address) = read_address(&Parts::of(b':', address)) else {
        return Ok(None);
    };
    let name = read_text(alloc, name)?;
    Ok(name.map(|name| Action::Dial { address, name }))
}

/// The actions that carry no bytes.
fn read_bare_action(name: &[u8], fields: &Parts) -> Option<Action>
    ensures { result ≡ bare_action_of name.now fields.now }
{
    if is_word(name, names::OPENED) {
        return id_alone(fields).map(|id| Action::Opened { id });
    }
    if is_word(name, names::FINISH) {
        return id_alone(fields).map(|id| Action::Finish { id });
    }
    if is_word(name, names::RESET) {
        return id_and_code(fields).map(|(id, code)| Action::ResetOut { id, code });
    }
    if is_word(name, names::STOP) {
        return id_and_code(fields).map(|(id, code)| Action::StopOut { id, code });
    }
    None
}

/// The action by its name and its fields.
fn action_with(alloc: Global, name: &[u8], fields: &Parts) -> Result<Option<Action>, OutOfMemory>
    ensures { IfOk result (λ action. action ≡ action_with name.now fields.now) }
{
    if is_word(name, names::SEND) {
        let fields = id_and_bytes(alloc, fields)?;
        return Ok(fields.map(|(id, piece)| Action::Send { id, piece }));
    }
    if is_word(name, names::DATAGRAM_OUT) {
        let piece = bytes_alone(alloc, fields)?;
        return Ok(piece.map(|piece| Action::DatagramOut { piece }));
    }
    if is_word(name, names::CLOSE) {
        let fields = code_and_bytes(alloc, fields)?;
        return Ok(fields.map(|(code, reason)| Action::Close { code, reason }));
    }
    if is_word(name, names::DIAL) {
        return read_dial(alloc, fields);
    }
    Ok(read_bare_action(name, fields))
}

/// The action of a part, which a blank begins.
fn read_action(alloc: Global, part: &[u8]) -> Result<Option<Action>, OutOfMemory>
    ensures { IfOk result (λ action. action ≡ action_of_words (words part.now)) }
{
    let Some((_, words)) = Parts::of_line(part).split_first() else {
        return Ok(None);
    };
    match words.split_first() {
        Some((name, fields)) => action_with(alloc, name, &fields),
        None => Ok(None),
    }
}

/// The actions of these parts.
#[tactic(auto, using(crate::proofs::ActionLaws::refused_action, crate::proofs::ActionLaws::added_action))]
pub fn read_actions(alloc: Global, parts: &Parts) -> Result<Option<Actions>, OutOfMemory>
    ensures { IfOk result (λ actions. actions ≡ actions_from [] parts.now) }
{
    let mut actions = Actions::new(alloc);
    let mut rest = parts.split_first();
    while let Some((part, later)) = rest {
        match read_action(alloc, front(part, &later))? {
            Some(action) => actions.push(action)?,
            None => return Ok(None),
        }
        rest = later.split_first();
    }
    Ok(Some(actions))
}
