//! A reader as a source and a writer as a sink. Standard input and output are two of them.
ghost use Rattle.std.specs.Prelude.{◌≡◌};

use crate::outside::{Failed, Sink, Source};
use std::io::{Read, Stdin, Stdout, Write};
use std::marker::Model;

/// Standard input.
pub type StdSource = ReaderSource<Stdin>;

/// Standard output.
pub type StdSink = WriterSink<Stdout>;

/// A reader, and how often it failed. Contracts see the bytes that it has left, where it reports them,
/// and that count.
#[derive(Drop)]
pub struct ReaderSource<R: Read> {
    reader: R,
    faults: u64,
}

impl<R: Read> Model for ReaderSource<R> {
    ghost use Rattle.wt_trace.specs.Outside.{Outside};

    ghost Value = { Outside };

    ghost view = { λ s. record { bytes = R.remaining s.reader; faults = s.faults } };
}

impl<R: Read> ReaderSource<R> {
    /// What the reader has left; it hasn't failed yet.
    pub fn new(reader: R) -> ReaderSource<R>
        ensures { result ≡ record { bytes = R.remaining reader; faults = 0 } }
    {
        ReaderSource { reader, faults: 0 }
    }
}

impl<R: Read> Source for ReaderSource<R> {
    ghost left = { λ s. s.bytes };

    ghost faults = { λ s. s.faults };

    fn read(&mut self, buf: &mut [u8]) -> Result<usize, Failed> {
        match self.reader.read(buf) {
            Ok(count) => Ok(count),
            Err(_) => {
                self.faults = self.faults.saturating_add(1);
                Err(Failed)
            }
        }
    }
}

/// A writer, and how often it failed. Contracts see the bytes that it holds, where it reports them, and
/// that count.
#[derive(Drop)]
pub struct WriterSink<W: Write> {
    writer: W,
    faults: u64,
}

impl<W: Write> Model for WriterSink<W> {
    ghost use Rattle.wt_trace.specs.Outside.{Outside};

    ghost Value = { Outside };

    ghost view = { λ s. record { bytes = W.contents s.writer; faults = s.faults } };
}

impl<W: Write> WriterSink<W> {
    /// The writer as it is; it hasn't failed yet.
    pub fn new(writer: W) -> WriterSink<W>
        ensures { result ≡ record { bytes = W.contents writer; faults = 0 } }
    {
        WriterSink { writer, faults: 0 }
    }
}

impl<W: Write> Sink for WriterSink<W> {
    ghost took = { λ s. s.bytes };

    ghost faults = { λ s. s.faults };

    /// A writer that takes nothing of a piece has failed too.
    fn write(&mut self, piece: &[u8]) -> Result<usize, Failed> {
        match self.writer.write(piece) {
            Ok(count) if count > 0 || piece.is_empty() => Ok(count),
            _ => {
                self.faults = self.faults.saturating_add(1);
                Err(Failed)
            }
        }
    }
}
