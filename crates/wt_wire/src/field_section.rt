//! Field sections of literal field lines with literal names (RFC 9204, section 4.5).
ghost use Rattle.std.specs.Prelude.{◌≡◌, ◌<◌, ◌≤◌, ◌+◌, ◌++◌, length, IfSome, IfOk, OnOk};
ghost use Rattle.std.specs.Option.{option_map};
ghost use Rattle.wt_wire.specs.FieldSection.{line_at, line_bytes, field_lines_from, section_at, section_bytes, string_at, literal_bytes};

use crate::error::OutOfMemory;
use crate::header_list::HeaderList;
use crate::prefixed_integer::{read_prefixed, write_prefixed};
use crate::utf8::from_utf8;
use std::alloc::Global;

/// A string literal and how many bytes it takes with its length.
#[derive(Clone, Copy)]
struct StringLiteral<'a> {
    text: &'a str,
    len: usize,
}

/// A field line and how many bytes it takes.
#[derive(Clone, Copy)]
struct FieldLine<'a> {
    name: &'a str,
    value: &'a str,
    len: usize,
}

#[tactic(auto, unfolding(crate::specs::FieldSection::string_at))]
fn read_string(bytes: &[u8], full: u8) -> Option<StringLiteral<'_>>
    requires { full < 255 }
    ensures value { option_map (λ s. (s.text.now, s.len)) result ≡ string_at full bytes.now }
    ensures within { IfSome result (λ s. s.len ≤ length bytes.now) }
    ensures some { IfSome result (λ s. 1 ≤ s.len) }
{
    let (size, offset) = read_prefixed(bytes, full)?;
    if ((bytes.len() - offset) as u64) < size {
        return None;
    }
    let len = offset + size as usize;
    // Fields are kept as texts. The standard lets values have any bytes; a value that is no UTF-8 is refused
    // here.
    let text = from_utf8(&bytes[offset..len])?;
    Some(StringLiteral { text, len })
}

#[tactic(auto, unfolding(crate::specs::FieldSection::line_at))]
fn read_line(bytes: &[u8]) -> Option<FieldLine<'_>>
    ensures value { option_map (λ l. record { name = l.name.now; value = l.value.now; len = l.len }) result ≡ line_at bytes.now }
    ensures within { IfSome result (λ l. l.len ≤ length bytes.now) }
    ensures some { IfSome result (λ l. 1 ≤ l.len) }
{
    // A literal line with a literal name begins with 001, then whether it may be indexed, which concerns
    // intermediaries alone, then whether the name is Huffman coded, which must be 0 (RFC 9204, section
    // 4.5.6). Every other line needs a table or Huffman's code, and neither is here.
    if bytes.is_empty() || (bytes[0] / 8 != 4 && bytes[0] / 8 != 6) {
        return None;
    }
    let name = read_string(bytes, 7)?;
    // The first bit of the value says that it is Huffman coded.
    if name.len == bytes.len() || bytes[name.len] >= 128 {
        return None;
    }
    let value = read_string(&bytes[name.len..], 127)?;
    Some(FieldLine {
        name: name.text,
        value: value.text,
        len: name.len + value.len,
    })
}

#[tactic(auto, using(crate::proofs::LineLaws::lines_end, crate::proofs::LineLaws::lines_none, crate::proofs::LineLaws::lines_step))]
fn read_lines(mut list: HeaderList, bytes: &[u8]) -> Result<Option<HeaderList>, OutOfMemory>
    ensures { IfOk result (λ r. r ≡ field_lines_from list 0 bytes.now) }
{
    let mut offset = 0;
    while offset < bytes.len() {
        let Some(line) = read_line(&bytes[offset..]) else {
            return Ok(None);
        };
        list.set(line.name, line.value)?;
        offset += line.len;
    }
    Ok(Some(list))
}

/// What a field section says (RFC 9204, section 4.5), where it is made of literal field lines with
/// literal names alone; a repeated name keeps its last value.
pub(crate) fn read_section(alloc: Global, payload: &[u8]) -> Result<Option<HeaderList>, OutOfMemory>
    ensures { IfOk result (λ r. r ≡ section_at payload.now) }
{
    match payload {
        // Required insert count and base: both 0, since own SETTINGS allow no dynamic table, so that no
        // section may rest on one (RFC 9204, sections 3.2.3 and 4.5.1).
        [0, 0, ..] => read_lines(HeaderList::new(alloc), &payload[2..]),
        _ => Ok(None),
    }
}

fn write_string(out: &mut Vec<u8>, high: u8, full: u8, text: &str) -> Result<(), OutOfMemory>
    requires { high + full < 256 }
    ensures { OnOk result (out.new.items ≡ out.old.items ++ literal_bytes high full text.now) }
{
    write_prefixed(out, high, full, text.len())?;
    out.extend_from_slice(text.as_bytes())?;
    Ok(())
}

fn write_line(out: &mut Vec<u8>, name: &str, value: &str) -> Result<(), OutOfMemory>
    ensures { OnOk result (out.new.items ≡ out.old.items ++ line_bytes (name.now, value.now)) }
{
    write_string(out, 32, 7, name)?;
    write_string(out, 0, 127, value)
}

/// The field section of these fields, a literal field line each.
#[tactic(auto, using(crate::proofs::WrittenSections::lines_more))]
pub(crate) fn write_section(list: &HeaderList) -> Result<Vec<u8>, OutOfMemory>
    ensures { IfOk result (λ v. v.items ≡ section_bytes list.now) }
{
    let mut out = Vec::new(*list.allocator());
    out.push(0)?;
    out.push(0)?;
    for index in 0..list.len() {
        let (name, value) = list.at(index);
        write_line(&mut out, name, value)?;
    }
    Ok(out)
}
