//! Reading a printed answer back.
ghost use Rattle.std.specs.Prelude.{◌≡◌, IfOk, IfSome, Some, bytes_eq};
ghost use Rattle.wt_script.specs.Answers.{answer_of, front, printed_answer};
ghost use Rattle.wt_script.specs.Fits.{IsAnswer};
ghost use Rattle.wt_script.specs.Print.{answer_text, normal};

mod actions;
mod ended;
mod errors;
mod replies;

use crate::answers::actions::read_actions;
use crate::answers::replies::read_reply;
use crate::print::print_answer;
use crate::script::words::Parts;
use std::alloc::Global;
use wt_turn::answer::Answer;
use wt_wire::error::OutOfMemory;

/// What stands in front of the blank that ends a part, where further parts follow.
fn front<'a>(part: &'a [u8], later: &Parts) -> &'a [u8]
    ensures { result.now ≡ front part.now later.now }
{
    match part {
        [front @ .., _] if !later.is_empty() => front,
        _ => part,
    }
}

/// The answer that the line spells, where it spells one, in whatever way.
fn answer_of(alloc: Global, line: &[u8]) -> Result<Option<Answer>, OutOfMemory>
    ensures { IfOk result (λ answer. answer ≡ answer_of line.now) }
{
    let Some((part, later)) = Parts::of(b';', line).split_first() else {
        return Ok(None);
    };
    let Some(reply) = read_reply(alloc, front(part, &later))? else {
        return Ok(None);
    };
    match read_actions(alloc, &later)? {
        Some(actions) => Ok(Some(Answer { reply, actions })),
        None => Ok(None),
    }
}

/// Whether this is the line of the answer.
fn has_line(alloc: Global, answer: &Answer, line: &[u8]) -> Result<bool, OutOfMemory>
    ensures { IfOk result (λ has. has ≡ bytes_eq (answer_text answer.now) line.now) }
{
    let text = print_answer(alloc, answer)?;
    Ok(text.as_str().as_bytes() == line)
}

/// The answer whose line this is, without its line feed; None exactly where it is the line of none. What isn't printed is
/// left out: a send of no bytes, where two neighbouring sends on one stream parted, and the bytes beside the error of an exact
/// read that took none.
///
/// # Errors
///
/// `OutOfMemory` where what the line spells found no memory.
#[tactic(auto, using(crate::proofs::AnswerAgain::answer_again, crate::proofs::AnswerAgain::normal_text, crate::proofs::AnswerAgain::other_line))]
pub fn read_answer(alloc: Global, line: &[u8]) -> Result<Option<Answer>, OutOfMemory>
    ensures value { IfOk result (λ answer. answer ≡ printed_answer line.now) }
    ensures again { (a : Answer) → IsAnswer a → answer_text a ≡ line.now → IfOk result (λ answer. answer ≡ Some (normal a)) }
    ensures line { IfOk result (λ answer. IfSome answer (λ a. answer_text a ≡ line.now)) }
{
    let Some(answer) = answer_of(alloc, line)? else {
        return Ok(None);
    };
    // Each answer has one line: what is spelled in another way is the line of none.
    let is_printed_so = has_line(alloc, &answer, line)?;
    if is_printed_so {
        Ok(Some(answer))
    } else {
        Ok(None)
    }
}
