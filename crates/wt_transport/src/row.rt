//! The streams of one kind, in the order of their ids.
ghost use Rattle.std.specs.Prelude.{◌≡◌, ◌<◌, ◌^◌, ◌-◌, ◌++◌, ◌∷◌, [], length, min, OnErr, OnOk};
ghost use Rattle.std.specs.Borrow.{sem};
ghost use Rattle.wt_transport.specs.Lending.{LendsStream};
ghost use Rattle.wt_transport.specs.StreamState.{fresh, pieces_in, stream_in};

use crate::stream::Stream;
use std::alloc::Global;
use std::marker::Model;
use wt_wire::error::OutOfMemory;

/// The streams of one kind. Contracts see the list of them.
#[derive(Debug, Drop)]
pub struct Row {
    streams: Vec<Stream>,
}

impl Model for Row {
    ghost use Rattle.std.specs.Prelude.{List};
    ghost use Rattle.wt_transport.specs.StreamState.{Stream};

    ghost Value = { List Stream };

    ghost view = { λ r. r.streams.items };
}

impl Row {
    /// No streams.
    pub fn new(alloc: Global) -> Row
        ensures { result ≡ [] }
    {
        Row {
            streams: Vec::new(alloc),
        }
    }

    /// How many there are.
    pub fn len(&self) -> usize
        ensures { result ≡ length self.now }
    {
        self.streams.len()
    }

    /// The stream at this index.
    pub fn stream(&self, index: usize) -> &Stream
        requires { index < length self.now }
        ensures { result.now ≡ stream_in self.now index }
    {
        &self.streams[index]
    }

    /// The stream at this index, to be changed.
    pub fn stream_mut(&mut self, index: usize) -> &mut Stream
        requires { index < length self.old }
        ensures* writes_back { sem 𝓛 (LendsStream self.entry index result) }
        ensures value { result.now ≡ stream_in self.old index }
    {
        &mut self.streams[index]
    }

    /// Opens the next stream, with this credit. Where no memory is there for it, nothing changes.
    pub fn open(&mut self, alloc: Global, credit: u64) -> Result<(), OutOfMemory>
        ensures ok { OnOk result (self.new ≡ self.old ++ fresh credit ∷ []) }
        ensures err { OnErr result (self.new ≡ self.old) }
    {
        self.streams.push(Stream::new(alloc, credit))?;
        Ok(())
    }

    /// How many pieces have an unread byte; the count stands still at its type's end.
    pub fn pieces(&self) -> u64
        ensures { result ≡ min (pieces_in self.now) (2 ^ 64 - 1) }
    {
        let mut count: u64 = 0;
        for stream in self.streams.as_slice() {
            count = count.saturating_add(stream.unread.pieces());
        }
        count
    }
}
