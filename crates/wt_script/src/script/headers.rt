//! Header fields in a script.
ghost use Rattle.std.specs.Prelude.{◌≡◌, [], IfOk, Some, None, if◌then◌else◌};
ghost use Rattle.wt_script.specs.Headers.{header_of, header_text_of, headers_of_words, with_header};

use crate::script::numbers::{read_digits, text_of_bytes};
use crate::script::words::Parts;
use std::alloc::Global;
use wt_wire::error::OutOfMemory;
use wt_wire::header_list::HeaderList;
use wt_wire::text::Text;

/// A name or a value.
fn read_header_text(alloc: Global, digits: &[u8]) -> Result<Option<Text>, OutOfMemory>
    ensures { IfOk result (λ text. text ≡ header_text_of digits.now) }
{
    match read_digits(alloc, digits)? {
        Some(bytes) => text_of_bytes(alloc, bytes.as_slice()),
        None => Ok(None),
    }
}

/// A name and a value.
fn read_header(alloc: Global, word: &[u8]) -> Result<Option<(Text, Text)>, OutOfMemory>
    ensures { IfOk result (λ field. field ≡ header_of word.now) }
{
    let Some((name, value)) = Parts::of(b'=', word).two() else {
        return Ok(None);
    };
    let Some(name) = read_header_text(alloc, name)? else {
        return Ok(None);
    };
    match read_header_text(alloc, value)? {
        Some(value) => Ok(Some((name, value))),
        None => Ok(None),
    }
}

/// Adds the field of a word; false where the word is none.
fn add_header(alloc: Global, headers: &mut HeaderList, word: &[u8]) -> Result<bool, OutOfMemory>
    ensures { IfOk result (λ added. with_header headers.old word.now ≡ (if added then Some headers.new else None)) }
{
    match read_header(alloc, word)? {
        Some((name, value)) => {
            headers.set(name.as_str(), value.as_str())?;
            Ok(true)
        }
        None => Ok(false),
    }
}

/// The fields that the words of a line spell.
#[tactic(auto, using(crate::proofs::HeaderLaws::refused_field, crate::proofs::HeaderLaws::added_field))]
pub fn read_headers(alloc: Global, words: &Parts) -> Result<Option<HeaderList>, OutOfMemory>
    ensures { IfOk result (λ headers. headers ≡ headers_of_words words.now) }
{
    let mut headers = HeaderList::new(alloc);
    let mut rest = words.split_first();
    while let Some((word, later)) = rest {
        if !add_header(alloc, &mut headers, word)? {
            return Ok(None);
        }
        rest = later.split_first();
    }
    Ok(Some(headers))
}
