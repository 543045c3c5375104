//! The words of a line, and the parts of a word.
ghost use Rattle.std.specs.Prelude.{◌≡◌, ◌∷◌, [], List, ℕ, Some, None, MatchOption, MatchBool};
ghost use Rattle.std.specs.Option.{option_map};
ghost use Rattle.wt_script.specs.Words.{alone, is_word, one, parts, parts_after, two, words};

use memchr::memchr;
use std::marker::Model;

/// The parts of a line or of a word that are left. Contracts see the list of them.
#[derive(Drop)]
pub struct Parts<'a> {
    separator: u8,
    rest: Option<&'a [u8]>,
}

impl<'a> Model for Parts<'a> {
    ghost use Rattle.std.specs.Prelude.{List, ℕ};
    ghost use Rattle.std.specs.Option.{option_map};
    ghost use Rattle.wt_script.specs.Words.{parts_after};

    ghost Value = { List (List ℕ) };

    ghost view = { λ p. parts_after p.separator (option_map (λ r. r.now) p.rest) };
}

impl<'a> Parts<'a> {
    /// The parts of bytes, split at each separator.
    pub fn of(separator: u8, bytes: &'a [u8]) -> Parts<'a>
        ensures { result ≡ parts separator bytes.now }
    {
        Parts {
            separator,
            rest: Some(bytes),
        }
    }

    /// The words of a line.
    pub fn of_line(line: &'a [u8]) -> Parts<'a>
        ensures { result ≡ words line.now }
    {
        Parts::of(b' ', line)
    }

    /// The next part, and those after it; None where none is left.
    pub fn split_first(&self) -> Option<(&'a [u8], Parts<'a>)>
        ensures { MatchOption result (self.now ≡ []) (λ p. self.now ≡ p.0.now ∷ p.1) }
    {
        let bytes = self.rest?;
        let (part, rest) = split_at_separator(self.separator, bytes);
        Some((
            part,
            Parts {
                separator: self.separator,
                rest,
            },
        ))
    }

    /// Whether no part is left.
    pub fn is_empty(&self) -> bool
        ensures { MatchBool result (self.now ≡ []) ((w : List ℕ) × (ws : List (List ℕ)) × (self.now ≡ w ∷ ws)) }
    {
        self.split_first().is_none()
    }

    /// The value, where no part is left.
    pub fn alone<T: Drop>(&self, value: T) -> Option<T>
        ensures { result ≡ alone value self.now }
    {
        if self.is_empty() { Some(value) } else { None }
    }

    /// The part, where there is exactly one.
    pub fn one(&self) -> Option<&'a [u8]>
        ensures { option_map (λ p. p.now) result ≡ one Some self.now }
    {
        let (part, rest) = self.split_first()?;
        if rest.is_empty() { Some(part) } else { None }
    }

    /// Both parts, where there are exactly two.
    pub fn two(&self) -> Option<(&'a [u8], &'a [u8])>
        ensures { MatchOption result (two Some Some self.now ≡ None) (λ p. self.now ≡ p.0.now ∷ p.1.now ∷ []) }
    {
        let (first, rest) = self.split_first()?;
        let (second, rest) = rest.split_first()?;
        if rest.is_empty() {
            Some((first, second))
        } else {
            None
        }
    }
}

/// The first part, and what stands after the separator that ends it.
fn split_at_separator(separator: u8, bytes: &[u8]) -> (&[u8], Option<&[u8]>)
    ensures { result.0.now ∷ parts_after separator (option_map (λ r. r.now) result.1) ≡ parts separator bytes.now }
{
    match memchr(separator, bytes) {
        Some(offset) => (&bytes[..offset], Some(&bytes[offset + 1..])),
        None => (bytes, None),
    }
}

/// Whether the word is this text: most words differ from most texts in their length alone.
#[inline(always)]
pub fn is_name(word: &[u8], text: &[u8]) -> bool
    ensures { result ≡ is_word word.now text.now }
{
    word.len() == text.len() && are_same(word, text)
}

/// Whether the word is this text.
pub fn is_word(word: &[u8], text: &str) -> bool
    ensures { result ≡ is_word word.now text.now }
{
    is_name(word, text.as_bytes())
}

#[inline(never)]
fn are_same(word: &[u8], text: &[u8]) -> bool
    ensures { result ≡ is_word word.now text.now }
{
    word == text
}
