//! Status codes of HTTP (RFC 9110, section 15).
ghost use Rattle.std.specs.Prelude.{◌≡◌, ◌<◌, ◌≤◌, IfSome};
ghost use Rattle.wt_wire.specs.Status.{is_successful, status_code};

use std::marker::Model;

/// A status code of HTTP, from 100 to 599 (RFC 9110, section 15).
#[derive(Clone, Copy, Debug, PartialEq, Eq)]
pub struct StatusCode(u16);

impl Model for StatusCode {
    ghost use Rattle.std.specs.Prelude.{ℕ, ◌<◌, ◌≤◌};

    ghost Value = { ℕ };

    ghost view = { λ s. s.0 };

    ghost invariant = { λ s. (100 ≤ s.0) × (s.0 < 600) };

    ghost inverse = { λ n. record { 0 = n } };
}

impl StatusCode {
    /// The code that the text writes; `None` exactly where it isn't three decimal digits from 100
    /// to 599.
    pub fn try_from_text(text: &str) -> Option<StatusCode>
        ensures code { result ≡ status_code text.now }
        ensures range { IfSome result (λ c. (100 ≤ c) × (c < 600)) }
    {
        let [a, b, c] = text.as_bytes() else {
            return None;
        };
        let (a, b, c) = (*a, *b, *c);
        if !(a.is_ascii_digit() && b.is_ascii_digit() && c.is_ascii_digit()) {
            return None;
        }
        let tens = u16::from(a - b'0') * 10 + u16::from(b - b'0');
        let code = tens * 10 + u16::from(c - b'0');
        if (100..600).contains(&code) {
            Some(StatusCode(code))
        } else {
            None
        }
    }

    /// The number.
    pub fn into_inner(self) -> u16
        ensures value { result ≡ self }
        ensures least { 100 ≤ result }
        ensures most { result < 600 }
    {
        self.0
    }

    /// Whether it is from 200 to 299.
    pub fn is_successful(self) -> bool
        ensures { result ≡ is_successful self }
    {
        self.0 > 199 && self.0 < 300
    }
}
