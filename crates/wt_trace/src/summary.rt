//! What answers come to.
ghost use Rattle.std.specs.Prelude.{◌≡◌, ◌+◌, ◌++◌, ◌∷◌, [], ℕ, IfOk, List, OnOk, Some, None, count_by, string_bytes, sum_by};
ghost use Rattle.std.specs.Fmt.{decimal};
ghost use Rattle.wt_trace.specs.Summary.{bytes_given, gives_uni, summary_line, summary_of};
ghost use Rattle.wt_turn.specs.declared.answer.Answer.{Answer};
ghost use Rattle.wt_turn.specs.declared.reply.Reply.TheVariants as replies;

use std::alloc::Global;
use wt_turn::answer::Answer;
use wt_turn::reply::Reply;
use wt_wire::error::OutOfMemory;

/// What the answers of a run come to.
#[derive(Clone, Copy, PartialEq, Eq, Debug)]
pub struct Summary {
    /// How many unidirectional streams were accepted.
    pub streams: u64,
    /// How many bytes reads gave.
    pub bytes: u64,
    /// How many turns were answered.
    pub turns: u64,
}

impl Summary {
    /// What these answers come to.
    ///
    /// # Errors
    ///
    /// `OutOfMemory` where reads gave 2^64 bytes or more, for which there is no memory.
    pub fn of(answers: &[Answer]) -> Result<Summary, OutOfMemory>
        ensures { IfOk result (λ summary. summary ≡ summary_of answers.now) }
    {
        let bytes = bytes_read(answers)?;
        Ok(Summary {
            streams: streams_accepted(answers),
            bytes,
            turns: answers.len() as u64,
        })
    }

    /// The line that says it.
    ///
    /// # Errors
    ///
    /// `OutOfMemory` where the text found no memory.
    pub fn line(&self, alloc: Global) -> Result<String, OutOfMemory>
        ensures { IfOk result (λ line. string_bytes line ≡ summary_line self.now) }
    {
        let mut line = String::new(alloc);
        push_number(alloc, &mut line, "streams ", self.streams)?;
        push_number(alloc, &mut line, " bytes ", self.bytes)?;
        push_number(alloc, &mut line, " turns ", self.turns)?;
        line.push_str("\n")?;
        Ok(line)
    }
}

/// Adds a text, and a number in decimal digits.
pub fn push_number(
    alloc: Global,
    line: &mut String,
    before: &str,
    number: u64,
) -> Result<(), OutOfMemory>
    ensures { OnOk result (string_bytes line.new ≡ string_bytes line.old ++ before.now ++ decimal number) }
{
    line.push_str(before)?;
    line.push_str(number.to_string(alloc)?.as_str())?;
    Ok(())
}

fn streams_accepted(answers: &[Answer]) -> u64
    ensures { result ≡ count_by (λ answer. gives_uni answer.reply) answers.now }
{
    let mut count: u64 = 0;
    for answer in answers {
        if is_stream(&answer.reply) {
            count += 1;
        }
    }
    count
}

/// Whether a unidirectional stream was accepted.
fn is_stream(reply: &Reply) -> bool
    ensures { result ≡ gives_uni reply.now }
{
    match reply {
        Reply::Uni(_) => true,
        _ => false,
    }
}

fn bytes_read(answers: &[Answer]) -> Result<u64, OutOfMemory>
    ensures { IfOk result (λ bytes. bytes ≡ sum_by (λ answer. bytes_given answer.reply) answers.now) }
{
    let mut bytes: u64 = 0;
    for answer in answers {
        match bytes.checked_add(bytes_of(&answer.reply)) {
            Some(more) => bytes = more,
            None => return Err(OutOfMemory),
        }
    }
    Ok(bytes)
}

/// How many bytes a read gave.
fn bytes_of(reply: &Reply) -> u64
    ensures { result ≡ bytes_given reply.now }
{
    match reply {
        Reply::Read(Some(piece)) => piece.as_slice().len() as u64,
        _ => 0,
    }
}

/// What the first answers of a run come to adds up with what the others come to.
#[tactic(auto, using(crate::proofs::SummaryLaws::streams_add_up, crate::proofs::SummaryLaws::bytes_add_up, crate::proofs::SummaryLaws::turns_add_up))]
pub fn summaries_add_up()
    ensures streams { (first later : List Answer) → (summary_of (first ++ later)).streams ≡ (summary_of first).streams + (summary_of later).streams }
    ensures bytes { (first later : List Answer) → (summary_of (first ++ later)).bytes ≡ (summary_of first).bytes + (summary_of later).bytes }
    ensures turns { (first later : List Answer) → (summary_of (first ++ later)).turns ≡ (summary_of first).turns + (summary_of later).turns }
{}

/// What five answers come to: a stream is accepted, two bytes of it are read, and then its end.
pub fn summary_of_five_answers()
    ensures { (id a b : ℕ) → summary_of (
        record { reply = replies.Done; actions = [] }
        ∷ record { reply = replies.Uni id; actions = [] }
        ∷ record { reply = replies.Pending; actions = [] }
        ∷ record { reply = replies.Read (Some (a ∷ b ∷ [])); actions = [] }
        ∷ record { reply = replies.Read None; actions = [] }
        ∷ []) ≡ record { streams = 1; bytes = 2; turns = 5 } }
{}
