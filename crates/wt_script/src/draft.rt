//! Texts that are read line by line.
ghost use Rattle.std.specs.Prelude.{◌≡◌, ◌∷◌, ◌+◌, ◌<◌, ◌^◌, IfOk, IfSome, MatchOption, Some, None, if◌then◌else◌, length};
ghost use Rattle.wt_script.specs.Drafts.{is_left_out, read_lines, with_line};
ghost use Rattle.wt_script.specs.Words.{last_line, lines};

use crate::script::ScriptRefused;
use memchr::memchr;
use std::alloc::Global;
use wt_wire::error::OutOfMemory;

/// What the lines so far of a text say.
pub trait Draft: Drop {
    ghost use Rattle.std.specs.Prelude.{◌≡◌, ℕ, IfOk, List, None, Option, Result, Some, if◌then◌else◌};
    ghost use Rattle.wt_script.specs.declared.script.ScriptRefused.{ScriptRefused};

    /// What all of them say.
    type Whole: Drop;

    // What one more line says, of those that aren't left out; None where it isn't in the grammar.
    ghost with_words: { Self → List ℕ → Option Self };

    // What they come to at their end, where the next would have this number.
    ghost at_end: { ℕ → Self → Result Self.Whole ScriptRefused };

    /// Takes a line that isn't left out; false where it isn't in the grammar.
    fn take_line(&mut self, alloc: Global, line: &[u8]) -> Result<bool, OutOfMemory>
        ensures { IfOk result (λ taken. with_words self.old line.now ≡ (if taken then Some self.new else None)) };

    /// The whole, or its refusal at this line where something is missing.
    fn finish(self, number: u64) -> Result<Self::Whole, ScriptRefused>
        ensures { result ≡ at_end number self };
}

/// Whether a line is left out: an empty one, and one that begins with `#`.
fn is_left_out(line: &[u8]) -> bool
    ensures { result ≡ is_left_out line.now }
{
    match line {
        [] => true,
        [first, ..] => *first == b'#',
    }
}

/// Takes a line; false where it isn't in the grammar.
fn take_line<D: Draft>(draft: &mut D, alloc: Global, line: &[u8]) -> Result<bool, OutOfMemory>
    ensures { IfOk result (λ taken. with_line D.with_words draft.old line.now ≡ (if taken then Some draft.new else None)) }
{
    if is_left_out(line) {
        return Ok(true);
    }
    draft.take_line(alloc, line)
}

/// The first line that a line feed ends, and what stands after that.
fn split_line(text: &[u8]) -> Option<(&[u8], &[u8])>
    ensures lines { MatchOption result (lines text.now ≡ last_line text.now) (λ p. lines text.now ≡ p.0.now ∷ lines p.1.now) }
    ensures shorter { IfSome result (λ p. length p.1.now < length text.now) }
{
    match memchr(b'\n', text) {
        Some(end) => Some((&text[..end], &text[end + 1..])),
        None => None,
    }
}

/// Reads the last line, which lacks its line feed, where there is one.
fn end_lines<D: Draft>(
    alloc: Global,
    draft: D,
    number: u64,
    line: &[u8],
) -> Result<Result<D::Whole, ScriptRefused>, OutOfMemory>
    requires { number + 1 < 2 ^ 64 }
    ensures { IfOk result (λ r. r ≡ read_lines D.with_words D.at_end number draft (last_line line.now)) }
{
    let mut draft = draft;
    if line.is_empty() {
        return Ok(draft.finish(number));
    }
    if take_line(&mut draft, alloc, line)? {
        Ok(draft.finish(number + 1))
    } else {
        Ok(Err(ScriptRefused { line: number }))
    }
}

/// Reads lines after those that a draft has: each ends with a line feed, which the last may lack. They count from 1. An empty line and one that
/// begins with `#` are left out, and counted.
#[tactic(auto, using(crate::proofs::DraftLaws::refused_here, crate::proofs::DraftLaws::taken_here))]
pub fn read_lines<D: Draft>(
    alloc: Global,
    draft: D,
    text: &[u8],
) -> Result<Result<D::Whole, ScriptRefused>, OutOfMemory>
    ensures { IfOk result (λ r. r ≡ read_lines D.with_words D.at_end 1 draft (lines text.now)) }
{
    let mut draft = draft;
    let mut number: u64 = 1;
    let mut rest = text;
    while let Some((line, later)) = split_line(rest) {
        if !take_line(&mut draft, alloc, line)? {
            return Ok(Err(ScriptRefused { line: number }));
        }
        number += 1;
        rest = later;
    }
    end_lines(alloc, draft, number, rest)
}
