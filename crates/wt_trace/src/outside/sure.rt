//! A source and a sink that never fail.
ghost use Rattle.std.specs.Prelude.{◌≡◌, Some, length, min};
ghost use Rattle.std.specs.Io.{ReadsAtMost};
ghost use Rattle.std.specs.Io.KnownBytes.{ReadConsumes};

use crate::outside::{Failed, Sink, Source};
use std::marker::Model;

/// A source of bytes that never fails. Contracts see the bytes that are left.
#[derive(Debug, Drop)]
pub struct SureSource {
    bytes: Vec<u8>,
    offset: usize,
}

impl Model for SureSource {
    ghost use Rattle.std.specs.Prelude.{List, ℕ, ◌≤◌, drop, length};

    ghost Value = { List ℕ };

    ghost view = { λ s. drop s.offset s.bytes.items };

    ghost invariant = { λ s. s.offset ≤ length s.bytes.items };
}

impl SureSource {
    /// All of these bytes are left.
    pub fn new(bytes: Vec<u8>) -> SureSource
        ensures { result ≡ bytes.items }
    {
        SureSource { bytes, offset: 0 }
    }
}

impl Source for SureSource {
    ghost left = { λ s. Some s };

    ghost faults = { λ _. 0 };

    /// Gives as many bytes as are left and fit.
    fn read(&mut self, buf: &mut [u8]) -> Result<usize, Failed>
        ensures bound { ReadsAtMost result buf.new }
        ensures bytes { ReadConsumes (Some self.old) (Some self.new) result buf.new }
        ensures count { result ≡ Ok (min (length buf.new) (length self.old)) }
    {
        let count = buf.len().min(self.bytes.len() - self.offset);
        let end = self.offset + count;
        buf[..count].copy_from_slice(&self.bytes[self.offset..end]);
        self.offset = end;
        Ok(count)
    }
}

/// A sink that takes all bytes, keeps none of them and never fails.
#[derive(Clone, Copy, PartialEq, Eq, Debug)]
pub struct SureSink;

impl Sink for SureSink {
    ghost use Rattle.std.specs.Prelude.{None};

    ghost took = { λ _. None };

    ghost faults = { λ _. 0 };

    fn write(&mut self, piece: &[u8]) -> Result<usize, Failed> {
        Ok(piece.len())
    }
}
