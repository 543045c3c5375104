//! SHA-256 digests of certificates, and the two forms in which they are written.
ghost use Rattle.std.specs.Prelude.{◌≡◌, ◌≤◌, ◌<◌, ◌∷◌, Some, None, IfOk, OnErr, string_bytes};
ghost use Rattle.std.specs.Option.{option_copied};
ghost use Rattle.std.specs.Result.{result_ok};
ghost use Rattle.sha2.specs.Sha256.{sha256};
ghost use Rattle.wt_config.specs.DigestText.{number_of, pieces_of, remaining_pieces, numbers_of_text, without_brackets, digest_of_text, text_of_digest, digest_of_any_text};

use sha2::{Digest, Sha256};
use std::alloc::Global;
use std::fmt;
use std::marker::Model;
use std::str::FromStr;
use thiserror::Error;
use wt_wire::error::OutOfMemory;

/// The text is no digest in the form that it was read in.
#[derive(Debug, Drop, Error)]
#[error("cannot parse string as sha256 digest")]
pub struct InvalidDigest;

/// How a digest is written.
#[derive(Clone, Copy, Debug)]
pub enum Sha256DigestFmt {
    /// An array of 32 decimal numbers, as `[97, 98, ..]`.
    BytesArray,
    /// 32 times two hexadecimal digits, joined by colons, as `61:62:..`.
    DottedHex,
}

/// A SHA-256 digest (FIPS 180-4): 32 bytes, which are what contracts see of it.
#[derive(Clone, PartialEq, Eq, PartialOrd, Ord, Hash, Debug, Drop)]
pub struct Sha256Digest([u8; 32]);

impl Model for Sha256Digest {
    ghost use Rattle.std.specs.Prelude.{◌≡◌, List, ℕ, length};
    ghost use Rattle.wt_config.specs.DigestText.{IsBytes};

    ghost Value = { List ℕ };

    ghost view = { λ d. d.0 };

    ghost invariant = { λ d. (length d.0 ≡ 32) × IsBytes d.0 };

    ghost inverse = { λ bytes. record { 0 = bytes } };
}

impl Sha256Digest {
    /// The digest of these bytes.
    pub fn new(bytes: [u8; 32]) -> Sha256Digest
        ensures { result ≡ bytes }
    {
        Sha256Digest(bytes)
    }

    /// The digest of a certificate: the SHA-256 hash of its DER bytes.
    pub fn hash_der(der: &[u8]) -> Sha256Digest
        ensures { result ≡ sha256 der.now }
    {
        Sha256Digest(Sha256::digest(der))
    }

    /// The text of the digest in one form.
    ///
    /// # Errors
    ///
    /// `OutOfMemory` where the text found no memory.
    pub fn fmt(&self, alloc: Global, fmt: Sha256DigestFmt) -> Result<String, OutOfMemory>
        ensures text { IfOk result (λ text. string_bytes text ≡ text_of_digest fmt self.now) }
        ensures reads_back { IfOk result (λ text. digest_of_text fmt (string_bytes text) ≡ Some self.now) }
    {
        // Read for the proof alone: that there are 32 bytes is known from here.
        let _bytes = &self.0;
        write_digest(alloc, self, fmt)
    }

    /// Reads a digest in one form, and takes no memory.
    ///
    /// # Errors
    ///
    /// `InvalidDigest` exactly where the text is not 32 numbers in that form.
    pub fn from_str_fmt(text: &str, fmt: Sha256DigestFmt) -> Result<Sha256Digest, InvalidDigest>
        ensures read { IfOk result (λ digest. digest_of_text fmt text.now ≡ Some digest) }
        ensures refused { OnErr result (digest_of_text fmt text.now ≡ None) }
    {
        let bytes = match fmt {
            Sha256DigestFmt::BytesArray => read_numbers(strip_brackets(text), ',', 10),
            Sha256DigestFmt::DottedHex => read_numbers(text, ':', 16),
        };
        match bytes {
            Some(bytes) => Ok(Sha256Digest(bytes)),
            None => Err(InvalidDigest),
        }
    }
}

fn write_digest(
    alloc: Global,
    digest: &Sha256Digest,
    fmt: Sha256DigestFmt,
) -> Result<String, OutOfMemory>
    ensures { IfOk result (λ text. string_bytes text ≡ text_of_digest fmt digest.now) }
{
    let text = match fmt {
        Sha256DigestFmt::BytesArray => BytesArray(digest).to_string(alloc)?,
        Sha256DigestFmt::DottedHex => digest.to_string(alloc)?,
    };
    Ok(text)
}

impl From<[u8; 32]> for Sha256Digest {
    ghost from_gives = { λ bytes digest. digest ≡ bytes };

    fn from(bytes: [u8; 32]) -> Sha256Digest {
        Sha256Digest::new(bytes)
    }
}

impl AsRef<[u8; 32]> for Sha256Digest {
    /// The bytes of the digest.
    fn as_ref(&self) -> &[u8; 32]
        ensures { result.now ≡ self.now }
    {
        &self.0
    }
}

/// Reads the array form, or else the dotted form, and takes no memory.
impl FromStr for Sha256Digest {
    type Err = InvalidDigest;

    ghost from_str_gives = { λ text answer. result_ok answer ≡ digest_of_any_text text };

    fn from_str(text: &str) -> Result<Sha256Digest, InvalidDigest> {
        // No text is in both forms, since 32 numbers are joined by commas in the one and by colons in the
        // other.
        match Sha256Digest::from_str_fmt(text, Sha256DigestFmt::BytesArray) {
            Ok(digest) => Ok(digest),
            Err(_) => Sha256Digest::from_str_fmt(text, Sha256DigestFmt::DottedHex),
        }
    }
}

impl fmt::Display for Sha256Digest {
    ghost use Rattle.std.specs.Prelude.{Some};
    ghost use Rattle.wt_config.specs.DigestText.{dotted_hex};

    ghost output = { λ digest. Some (dotted_hex digest) };

    /// Writes the dotted form.
    fn fmt<W: fmt::Write>(&self, f: &mut fmt::Formatter<W>) -> fmt::Result {
        let first = TwoDigits(self.0[0]);
        write!(f, "{first}")?;
        for byte in &self.0[1..] {
            let following = TwoDigits(*byte);
            write!(f, ":{following}")?;
        }
        Ok(())
    }
}

/// A byte, shown as two lower-case hexadecimal digits.
#[derive(Clone, Copy)]
struct TwoDigits(u8);

impl fmt::Display for TwoDigits {
    ghost use Rattle.std.specs.Prelude.{Some};
    ghost use Rattle.wt_config.specs.DigestText.{two_digits};

    ghost output = { λ byte. Some (two_digits byte.0) };

    fn fmt<W: fmt::Write>(&self, f: &mut fmt::Formatter<W>) -> fmt::Result {
        let byte = self.0;
        write!(f, "{byte:02x}")
    }
}

/// A digest, shown as an array of decimal numbers.
#[derive(Clone, Copy)]
struct BytesArray<'a>(&'a Sha256Digest);

impl fmt::Display for BytesArray<'_> {
    ghost use Rattle.std.specs.Prelude.{Some};
    ghost use Rattle.wt_config.specs.DigestText.{bytes_array};

    ghost output = { λ shown. Some (bytes_array shown.0.now) };

    fn fmt<W: fmt::Write>(&self, f: &mut fmt::Formatter<W>) -> fmt::Result {
        let digest = self.0;
        let first = digest.0[0];
        write!(f, "[{first}")?;
        for byte in &digest.0[1..] {
            write!(f, ", {byte}")?;
        }
        write!(f, "]")
    }
}

/// The text without the brackets `[` at its front and `]` at its end.
fn strip_brackets(text: &str) -> &str
    ensures { result.now ≡ without_brackets text.now }
{
    text.trim_start_matches('[').trim_end_matches(']')
}

/// The 32 numbers of at most 255 that the pieces of the text write, if there are 32 pieces and each
/// writes one.
fn read_numbers(text: &str, separator: char, radix: u32) -> Option<[u8; 32]>
    requires ascii { separator < 128 }
    requires low { 2 ≤ radix }
    requires high { radix ≤ 36 }
    ensures { result ≡ numbers_of_text radix separator text.now }
{
    let mut numbers = [0; 32];
    let mut rest = Some(text);
    for number in &mut numbers {
        let (piece, following) = next_piece(rest?, separator);
        *number = read_number(piece, radix)?;
        rest = following;
    }
    match rest {
        None => Some(numbers),
        Some(_) => None,
    }
}

/// The first piece of a text that is split at each separator, and what follows that separator.
fn next_piece(text: &str, separator: char) -> (&str, Option<&str>)
    requires { separator < 128 }
    ensures { pieces_of separator text.now
        ≡ result.0.now ∷ remaining_pieces separator (option_copied result.1) }
{
    match text.split_once(separator) {
        Some((piece, rest)) => (piece, Some(rest)),
        None => (text, None),
    }
}

/// The number of at most 255 that a piece writes, with white space around it.
fn read_number(piece: &str, radix: u32) -> Option<u8>
    requires low { 2 ≤ radix }
    requires high { radix ≤ 36 }
    ensures { result ≡ number_of radix piece.now }
{
    u8::from_str_radix(piece.trim(), radix).ok()
}
