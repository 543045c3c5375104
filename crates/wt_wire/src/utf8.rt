//! The one test of UTF-8 (RFC 3629).
ghost use Rattle.std.specs.Prelude.{if◌then◌else◌, ◌≡◌, Some, None};
ghost use Rattle.std.specs.Option.{option_copied};
ghost use Rattle.std.specs.Str.{is_utf8};
ghost use Rattle.wt_wire.specs.Utf8.{is_text};

use std::str;

/// The bytes as a text, where they are UTF-8. The test of contracts, `is_text`, computes; it is
/// std's `is_utf8`.
#[tactic(auto, using(crate::proofs::TextLaws::is_text_yes, crate::proofs::TextLaws::is_text_no, crate::proofs::TextLaws::is_text_same))]
pub fn from_utf8(bytes: &[u8]) -> Option<&str>
    ensures text { option_copied result ≡ (if is_text bytes.now then Some bytes.now else None) }
    ensures same { is_text bytes.now ≡ is_utf8 bytes.now }
{
    match str::from_utf8(bytes) {
        Ok(text) => Some(text),
        Err(_) => None,
    }
}
