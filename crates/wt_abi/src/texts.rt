//! Texts and header fields in the bytes of a turn.
ghost use Rattle.std.specs.Prelude.{◌≡◌, IfOk, MatchOption, Some, None};
ghost use Rattle.wt_abi.specs.Texts.{as_text, field_at, fields_of, text_at};

use std::alloc::Global;
use wt_wire::error::OutOfMemory;
use wt_wire::header_list::HeaderList;
use wt_wire::text::Text;
use wt_wire::utf8::from_utf8;

/// The bytes as a text, where they are UTF-8.
pub fn text_of_bytes(alloc: Global, bytes: &[u8]) -> Result<Option<Text>, OutOfMemory>
    ensures { IfOk result (λ text. text ≡ as_text bytes.now) }
{
    match from_utf8(bytes) {
        Some(text) => Ok(Some(Text::from_text(alloc, text)?)),
        None => Ok(None),
    }
}

/// The text at the front, and the bytes after it.
#[tactic(auto, unfolding(crate::specs::Texts::text_at))]
fn split_text(bytes: &[u8]) -> Option<(&str, &[u8])>
    ensures { MatchOption result (text_at bytes.now ≡ None) (λ p. text_at bytes.now ≡ Some (p.0.now, p.1.now)) }
{
    let (length, rest) = bytes.split_first_chunk::<8>()?;
    let (text, rest) = rest.split_at_checked(u64::from_le_bytes(*length) as usize)?;
    let text = from_utf8(text)?;
    Some((text, rest))
}

/// The text at the front, kept, and the bytes after it.
pub fn read_text(alloc: Global, bytes: &[u8]) -> Result<Option<(Text, &[u8])>, OutOfMemory>
    ensures { IfOk result (λ read. MatchOption read (text_at bytes.now ≡ None) (λ p. text_at bytes.now ≡ Some (p.0, p.1.now))) }
{
    match split_text(bytes) {
        Some((text, rest)) => Ok(Some((Text::from_text(alloc, text)?, rest))),
        None => Ok(None),
    }
}

/// The name and the value at the front, and the bytes after them.
fn split_field(bytes: &[u8]) -> Option<(&str, &str, &[u8])>
    ensures { MatchOption result (field_at bytes.now ≡ None) (λ p. field_at bytes.now ≡ Some ((p.0.now, p.1.now), p.2.now)) }
{
    let (name, rest) = split_text(bytes)?;
    let (value, rest) = split_text(rest)?;
    Some((name, value, rest))
}

/// The fields of the bytes, as many as are counted.
#[tactic(auto, using(crate::proofs::FieldLaws::refused, crate::proofs::FieldLaws::added, crate::proofs::FieldLaws::ends, crate::proofs::FieldLaws::goes_on))]
pub fn read_fields(
    alloc: Global,
    count: u64,
    bytes: &[u8],
) -> Result<Option<HeaderList>, OutOfMemory>
    ensures { IfOk result (λ fields. fields ≡ fields_of count bytes.now) }
{
    let mut fields = HeaderList::new(alloc);
    let mut left = count;
    let mut rest = bytes;
    while left > 0 {
        let Some((name, value, after)) = split_field(rest) else {
            return Ok(None);
        };
        fields.set(name, value)?;
        rest = after;
        left -= 1;
    }
    if rest.is_empty() {
        Ok(Some(fields))
    } else {
        Ok(None)
    }
}
