//! What stands at the front of a peer's stream.
ghost use Rattle.std.specs.Prelude.{◌≤◌, IfOk, length};

use crate::feeding::feed;
use std::alloc::Global;
use wt_proto::reader::{BiReader, UniReader};
use wt_proto::verdict::Verdict;
use wt_wire::error::OutOfMemory;
use wt_wire::ids::SessionId;
use wt_wire::side::StreamEnd;

/// A verdict, as far as a rule asks for it.
#[derive(Clone, Copy, PartialEq, Eq, Debug)]
pub enum Front {
    /// The header isn't whole.
    Incomplete,
    /// The header of this session.
    WebTransport(SessionId),
    /// The type of the control stream.
    Control,
    /// A request for a session.
    Request,
    /// No rule asks for it.
    Other,
}

/// What a verdict says.
fn front_of(verdict: &Verdict) -> Front {
    match verdict {
        Verdict::Incomplete => Front::Incomplete,
        Verdict::WebTransport(session, _) => Front::WebTransport(*session),
        Verdict::Control(_) => Front::Control,
        Verdict::Request(_, _) => Front::Request,
        _ => Front::Other,
    }
}

/// The header of a peer's stream: its reader, until that knows the front.
#[derive(Drop)]
pub enum Header {
    /// Of a unidirectional stream.
    Uni(UniReader),
    /// Of a bidirectional stream.
    Bi(BiReader),
    /// It was read.
    Known(Front),
}

impl Header {
    /// The header of a unidirectional stream, of which nothing came.
    pub fn uni(alloc: Global) -> Header {
        Header::Uni(UniReader::new(alloc))
    }

    /// The header of a bidirectional stream, of which nothing came.
    pub fn bi(alloc: Global) -> Header {
        Header::Bi(BiReader::new(alloc))
    }

    /// What it says.
    pub fn front(&self) -> Front {
        match self {
            Header::Uni(reader) => front_of(reader.outcome()),
            Header::Bi(reader) => front_of(reader.outcome()),
            Header::Known(front) => *front,
        }
    }

    /// The same, without its reader where that knows the front.
    fn settled(self) -> Header {
        match self.front() {
            Front::Incomplete => self,
            front => Header::Known(front),
        }
    }

    /// Reads a piece up to the byte with which it knows the front, else all, and returns how many bytes.
    fn read(&mut self, piece: &[u8]) -> Result<usize, OutOfMemory>
        ensures within { IfOk result (λ n. n ≤ length piece.now) }
    {
        match self {
            Header::Uni(reader) => feed(reader, piece),
            Header::Bi(reader) => feed(reader, piece),
            Header::Known(_) => Ok(0),
        }
    }

    /// Reads a piece, and returns the header after it and how many of its bytes belong to the header.
    pub fn fed(self, piece: &[u8]) -> Result<(Header, usize), OutOfMemory>
        ensures within { IfOk result (λ r. r.1 ≤ length piece.now) }
    {
        let mut header = self;
        let count = header.read(piece)?;
        Ok((header.settled(), count))
    }

    /// Notes the stream's end.
    fn note(&mut self, end: StreamEnd) {
        match self {
            Header::Uni(reader) => reader.end(end),
            Header::Bi(reader) => reader.end(end),
            Header::Known(_) => {}
        }
    }

    /// The header once the stream ended.
    pub fn ended(self, end: StreamEnd) -> Header {
        let mut header = self;
        header.note(end);
        header.settled()
    }
}
