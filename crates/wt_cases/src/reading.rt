//! The form of the data: a line `case STATUS WORD..` begins a case, the lines of its script stand after
//! `>` and those of its text after `<`. A backslash and two hexadecimal digits are a byte; a backslash
//! at a line's end says that no line feed follows there.
use crate::case::Case;
use std::alloc::Global;
use std::io::{self, Error, ErrorKind};

/// All cases, in order. The error is a line that has no form, or out of memory.
pub fn read_cases(alloc: Global, text: &str) -> io::Result<Vec<Case>> {
    let mut cases = Vec::new(alloc);
    for line in text.lines() {
        take_line(alloc, &mut cases, line)?;
    }
    Ok(cases)
}

fn take_line(alloc: Global, cases: &mut Vec<Case>, line: &str) -> io::Result<()> {
    if let Some(head) = line.strip_prefix("case ") {
        cases.push(begun_case(alloc, head)?)?;
        return Ok(());
    }
    let Some(case) = cases.last_mut() else {
        return Err(Error::from(ErrorKind::InvalidData));
    };
    match line.as_bytes() {
        [b'>', rest @ ..] => push_line(&mut case.script, rest),
        [b'<', rest @ ..] => push_line(&mut case.text, rest),
        _ => Err(Error::from(ErrorKind::InvalidData)),
    }
}

/// The case of this status and these words, with nothing of its script and its text yet.
fn begun_case(alloc: Global, head: &str) -> io::Result<Case> {
    let mut parts = head.split(' ');
    let Some(Ok(status)) = parts.next().map(|status| status.parse::<u8>()) else {
        return Err(Error::from(ErrorKind::InvalidData));
    };
    let mut words = Vec::new(alloc);
    for word in parts {
        words.push(String::from_str(alloc, word)?)?;
    }
    Ok(Case {
        words,
        script: Vec::new(alloc),
        text: Vec::new(alloc),
        status,
    })
}

/// Adds the bytes of a line, and a line feed unless it says that none follows.
fn push_line(bytes: &mut Vec<u8>, line: &[u8]) -> io::Result<()> {
    let mut rest = line;
    for _ in 0..line.len() {
        rest = match rest {
            [] => break,
            [b'\\'] => return Ok(()),
            [b'\\', high, low, later @ ..] => {
                bytes.push(digits(*high, *low)?)?;
                later
            }
            [byte, later @ ..] => {
                bytes.push(*byte)?;
                later
            }
        };
    }
    bytes.push(b'\n')?;
    Ok(())
}

/// The byte of two hexadecimal digits.
fn digits(high: u8, low: u8) -> io::Result<u8> {
    match ((high as char).to_digit(16), (low as char).to_digit(16)) {
        (Some(high), Some(low)) if high < 16 && low < 16 => Ok((high * 16 + low) as u8),
        _ => Err(Error::from(ErrorKind::InvalidData)),
    }
}
