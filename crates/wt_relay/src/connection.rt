//! What a relay keeps of a connection.

use crate::room::Room;
use std::alloc::Global;
use std::collections::BTreeMap;
use wt_wire::error::OutOfMemory;
use wt_wire::ids::{SessionId, StreamId};

/// What a stream of a connection is to the relay.
#[derive(Clone, Copy)]
pub enum Role {
    /// The source of this index.
    Source(usize),
    /// A copy of it, by both indices.
    Copied { source: usize, copy: usize },
}

/// A connection's sessions that are asked, each with its room, by their ids; and its streams that are asked.
#[derive(Drop)]
pub struct Connection {
    alloc: Global,
    /// The room of the request that was given last.
    pub requested: Room,
    sessions: Vec<(SessionId, Room)>,
    roles: BTreeMap<u64, Role>,
}

impl Connection {
    /// Nothing is asked.
    pub fn new(alloc: Global) -> Connection {
        Connection {
            alloc,
            requested: 0,
            sessions: Vec::new(alloc),
            roles: BTreeMap::new(alloc),
        }
    }

    // ---- sessions

    /// The sessions that are asked, each with its room, by their ids.
    pub fn sessions(&self) -> &[(SessionId, Room)] {
        self.sessions.as_slice()
    }

    /// The session is asked from now on, in the room of the request that was given last.
    ///
    /// # Errors
    ///
    /// `OutOfMemory` where the longer list found no memory.
    pub fn establish(&mut self, session: SessionId) -> Result<(), OutOfMemory> {
        let id = session.session_stream().into_u64();
        let at = self
            .sessions
            .as_slice()
            .partition_point(|pair| pair.0.session_stream().into_u64() < id);
        self.sessions.insert(at, (session, self.requested))?;
        Ok(())
    }

    /// The session isn't asked any more.
    pub fn forget(&mut self, session: SessionId) {
        self.sessions.retain(|pair| pair.0 != session);
    }

    // ---- streams

    /// The stream's role, where it is asked.
    pub fn role(&self, id: StreamId) -> Option<Role> {
        self.roles.get(&id.into_u64()).copied()
    }

    /// The stream is asked from now on, in this role.
    ///
    /// # Errors
    ///
    /// `OutOfMemory` where it found no memory.
    pub fn add_role(&mut self, id: StreamId, role: Role) -> Result<(), OutOfMemory> {
        self.roles.insert(id.into_u64(), role)?;
        Ok(())
    }

    /// The stream isn't asked any more.
    pub fn end_role(&mut self, id: StreamId) {
        let _role = self.roles.remove(&id.into_u64());
    }

    /// The roles of all streams that are asked.
    ///
    /// # Errors
    ///
    /// `OutOfMemory` where the list found no memory.
    pub fn roles(&self) -> Result<Vec<Role>, OutOfMemory> {
        let mut roles = Vec::new(self.alloc);
        for role in self.roles.values() {
            roles.push(*role)?;
        }
        Ok(roles)
    }
}
