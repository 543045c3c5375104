//! The peer's control stream.

use crate::feeding::feed;
use std::alloc::Global;
use wt_proto::reader::ControlReader;
use wt_wire::error::OutOfMemory;
use wt_wire::ids::StreamId;

/// The peer's control stream of least id. One reader suffices: a stream shows that it is a control stream with the last byte of its
/// header, and where its id is lower it takes the other's place for good.
#[derive(Drop)]
pub struct ControlStream {
    alloc: Global,
    id: Option<StreamId>,
    reader: ControlReader,
}

impl ControlStream {
    /// There is none.
    pub fn new(alloc: Global) -> ControlStream {
        ControlStream {
            alloc,
            id: None,
            reader: ControlReader::new(alloc),
        }
    }

    fn is_lower(&self, id: StreamId) -> bool {
        match self.id {
            Some(other) => id.into_u64() < other.into_u64(),
            None => true,
        }
    }

    /// Bytes came behind the header of a control stream.
    pub fn take(&mut self, id: StreamId, bytes: &[u8]) -> Result<(), OutOfMemory> {
        if self.is_lower(id) {
            self.id = Some(id);
            self.reader = ControlReader::new(self.alloc);
        }
        if self.id == Some(id) {
            feed(&mut self.reader, bytes)?;
        }
        Ok(())
    }

    /// Whether its SETTINGS came.
    pub fn has_settings(&self) -> bool {
        self.reader.outcome().settings.is_some()
    }
}
