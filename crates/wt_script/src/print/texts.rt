//! The parts of printed lines: texts, numbers, bytes and addresses.
ghost use Rattle.std.specs.Prelude.{◌≡◌, ◌++◌, OnOk, codes, string_bytes};
ghost use Rattle.std.specs.Fmt.{decimal, signed_decimal};
ghost use Rattle.hex.specs.Hex.{encode_lower};
ghost use Rattle.wt_script.specs.PrintErrors.{hex_text, coded_text, numbers_text, socket_text, code_text, versioned_address_text};

use crate::names;
use itoa::Buffer;
use std::alloc::Global;
use wt_turn::piece::Piece;
use wt_wire::addr::Addr;
use wt_wire::error::OutOfMemory;
use wt_wire::text::Text;

/// Adds a text as it is.
pub fn push_text(out: &mut String, text: &str) -> Result<(), OutOfMemory>
    ensures { OnOk result (string_bytes out.new ≡ string_bytes out.old ++ text.now) }
{
    out.push_str(text)?;
    Ok(())
}

/// Adds a number in decimal.
pub fn push_number(out: &mut String, number: u64) -> Result<(), OutOfMemory>
    ensures { OnOk result (string_bytes out.new ≡ string_bytes out.old ++ decimal number) }
{
    out.push_str(Buffer::new().format(number))?;
    Ok(())
}

/// Adds a signed number in decimal.
pub fn push_signed(out: &mut String, number: i32) -> Result<(), OutOfMemory>
    ensures { OnOk result (string_bytes out.new ≡ string_bytes out.old ++ signed_decimal number) }
{
    out.push_str(Buffer::new().format(number))?;
    Ok(())
}

/// Adds a word, and the blank in front of what follows it.
pub fn push_word(out: &mut String, word: &str) -> Result<(), OutOfMemory>
    ensures { OnOk result (string_bytes out.new ≡ string_bytes out.old ++ (word.now ++ codes " ")) }
{
    push_text(out, word)?;
    push_text(out, " ")
}

/// Adds a word, and a number in decimal.
pub fn push_numbered(out: &mut String, word: &str, number: u64) -> Result<(), OutOfMemory>
    ensures { OnOk result (string_bytes out.new ≡ string_bytes out.old ++ (word.now ++ codes " " ++ decimal number)) }
{
    push_word(out, word)?;
    push_number(out, number)
}

/// Adds a word, and two numbers in decimal.
pub fn push_two_numbers(
    out: &mut String,
    word: &str,
    first: u64,
    second: u64,
) -> Result<(), OutOfMemory>
    ensures { OnOk result (string_bytes out.new ≡ string_bytes out.old ++ (word.now ++ codes " " ++ numbers_text first second)) }
{
    push_numbered(out, word, first)?;
    push_text(out, " ")?;
    push_number(out, second)
}

/// Adds the digits of bytes, nothing where there are none.
pub fn push_digits(alloc: Global, out: &mut String, bytes: &[u8]) -> Result<(), OutOfMemory>
    ensures { OnOk result (string_bytes out.new ≡ string_bytes out.old ++ encode_lower bytes.now) }
{
    out.push_str(hex::encode(alloc, bytes)?.as_str())?;
    Ok(())
}

/// Adds bytes in hexadecimal, `-` for none.
pub fn push_bytes(alloc: Global, out: &mut String, bytes: &[u8]) -> Result<(), OutOfMemory>
    ensures { OnOk result (string_bytes out.new ≡ string_bytes out.old ++ hex_text bytes.now) }
{
    match bytes {
        [] => push_text(out, "-"),
        _ => push_digits(alloc, out, bytes),
    }
}

/// Adds a word, and bytes.
pub fn push_named_bytes(
    alloc: Global,
    out: &mut String,
    word: &str,
    bytes: &[u8],
) -> Result<(), OutOfMemory>
    ensures { OnOk result (string_bytes out.new ≡ string_bytes out.old ++ (word.now ++ codes " " ++ hex_text bytes.now)) }
{
    push_word(out, word)?;
    push_bytes(alloc, out, bytes)
}

/// Adds a word, and the bytes of a text.
pub fn push_named_text(
    alloc: Global,
    out: &mut String,
    word: &str,
    text: &Text,
) -> Result<(), OutOfMemory>
    ensures { OnOk result (string_bytes out.new ≡ string_bytes out.old ++ (word.now ++ codes " " ++ hex_text text.now)) }
{
    push_named_bytes(alloc, out, word, text.as_str().as_bytes())
}

/// Adds a word, and the bytes of a piece.
pub fn push_named_piece(
    alloc: Global,
    out: &mut String,
    word: &str,
    piece: &Piece,
) -> Result<(), OutOfMemory>
    ensures { OnOk result (string_bytes out.new ≡ string_bytes out.old ++ (word.now ++ codes " " ++ hex_text piece.now)) }
{
    push_named_bytes(alloc, out, word, piece.as_slice())
}

/// Adds a word, a number and bytes.
pub fn push_coded(
    alloc: Global,
    out: &mut String,
    word: &str,
    code: u64,
    bytes: &[u8],
) -> Result<(), OutOfMemory>
    ensures { OnOk result (string_bytes out.new ≡ string_bytes out.old ++ (word.now ++ codes " " ++ coded_text code bytes.now)) }
{
    push_numbered(out, word, code)?;
    push_text(out, " ")?;
    push_bytes(alloc, out, bytes)
}

/// Adds a number, `none` where there is none.
pub fn push_optional(out: &mut String, number: Option<u64>) -> Result<(), OutOfMemory>
    ensures { OnOk result (string_bytes out.new ≡ string_bytes out.old ++ code_text number) }
{
    match number {
        None => push_text(out, names::NONE),
        Some(number) => push_number(out, number),
    }
}

fn push_address_parts(
    alloc: Global,
    out: &mut String,
    version: &str,
    ip: &[u8],
    port: u16,
) -> Result<(), OutOfMemory>
    ensures { OnOk result (string_bytes out.new ≡ string_bytes out.old ++ (version.now ++ socket_text ip.now port)) }
{
    push_text(out, version)?;
    push_digits(alloc, out, ip)?;
    push_text(out, ":")?;
    push_number(out, port as u64)
}

/// Adds an address.
pub fn push_address(alloc: Global, out: &mut String, address: Addr) -> Result<(), OutOfMemory>
    ensures { OnOk result (string_bytes out.new ≡ string_bytes out.old ++ versioned_address_text address) }
{
    match address {
        Addr::V4 { ip, port } => push_address_parts(alloc, out, "v4:", &ip.to_be_bytes(), port),
        Addr::V6 { ip, port } => push_address_parts(alloc, out, "v6:", &ip.to_be_bytes(), port),
    }
}
