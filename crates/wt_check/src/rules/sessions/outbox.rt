//! What went out on the streams of requests, and the frame that has to be in front.

use crate::by_id::ById;
use std::alloc::Global;
use wt_wire::error::OutOfMemory;
use wt_wire::ids::StreamId;

/// The bytes that went out, by stream, and the frame that is expected in front of one.
#[derive(Drop)]
pub struct Outbox {
    alloc: Global,
    sent: ById<Vec<u8>>,
    /// The frame of the request or the response that was begun last; None where that doesn't accept.
    frame: Option<Vec<u8>>,
    /// The stream in front of which the frame was found, so that it isn't compared again.
    found: Option<StreamId>,
}

impl Outbox {
    /// Nothing went out.
    pub fn new(alloc: Global) -> Outbox {
        Outbox {
            alloc,
            sent: ById::new(alloc),
            frame: None,
            found: None,
        }
    }

    /// From now on this frame is expected, or none.
    pub fn expect(&mut self, frame: Option<Vec<u8>>) {
        self.frame = frame;
        self.found = None;
    }

    /// Bytes went out.
    pub fn send(&mut self, id: StreamId, piece: &[u8]) -> Result<(), OutOfMemory> {
        let mut sent = match self.sent.take(id) {
            Some(sent) => sent,
            None => Vec::new(self.alloc),
        };
        sent.extend_from_slice(piece)?;
        self.sent.put(id, sent)
    }

    /// Nobody will ask for the stream.
    pub fn forget(&mut self, id: StreamId) {
        let _sent = self.sent.take(id);
    }

    fn is_in_front(&self, id: StreamId) -> bool {
        match (&self.frame, self.sent.get(id)) {
            (Some(frame), Some(sent)) => sent.as_slice().starts_with(frame.as_slice()),
            _ => false,
        }
    }

    /// Whether all of the frame went out on the stream, in front.
    pub fn has_sent(&mut self, id: StreamId) -> bool {
        if self.found != Some(id) && self.is_in_front(id) {
            self.found = Some(id);
        }
        self.found == Some(id)
    }
}
