//! What a relay keeps beside its endpoint: connections, rooms and sources, and what is asked in the next pass.
ghost use Rattle.std.specs.Prelude.{◌≤◌, length};

use crate::connection::{Connection, Role};
use crate::room::{Member, Room, Rooms};
use crate::source::{Copied, Progress, Source};
use std::alloc::Global;
use std::mem;
use wt_turn::piece::Piece;
use wt_turn::reply::Reply;
use wt_turn::{Action, Turn};
use wt_wire::error::OutOfMemory;
use wt_wire::ids::{SessionId, StreamId};

/// What is asked of a source or of one of its copies, in the order in which a pass asks.
#[derive(Clone, Copy, PartialEq, Eq, PartialOrd, Ord)]
pub enum Step {
    /// Goes on with the copy's opening.
    Open,
    /// Writes what the copy lacks of the piece.
    Write,
    /// Reads the source, unless a copy holds it.
    Read,
}

/// One ask of a pass. Their order is that of the pass: by source in the order of acceptance, and of each source its copies'
/// openings, what they lack, and then the source itself.
#[derive(Clone, Copy, PartialEq, Eq, PartialOrd, Ord)]
pub struct Ask {
    /// The source, by its index.
    pub source: usize,
    /// What is asked.
    pub step: Step,
    /// The copy, by its index; 0 where the source itself is asked.
    pub copy: usize,
}

/// The connections, the rooms and the sources; and what is due in the next pass.
///
/// Only those asks are due that something changed since they were answered `Pending`: of a stream that a turn or an action
/// names, of each stream of a connection that ended, and of what a pass began. Every other would be answered `Pending` again.
#[derive(Drop)]
pub struct Kept {
    alloc: Global,
    connections: Vec<Connection>,
    rooms: Rooms,
    sources: Vec<Source>,
    due: Vec<Ask>,
}

impl Kept {
    /// Nothing is kept.
    pub fn new(alloc: Global) -> Kept {
        Kept {
            alloc,
            connections: Vec::new(alloc),
            rooms: Rooms::new(alloc),
            sources: Vec::new(alloc),
            due: Vec::new(alloc),
        }
    }

    /// The allocator of all that is kept.
    pub fn alloc(&self) -> Global {
        self.alloc
    }

    // ---- what is due

    /// Whether nothing is due.
    pub fn is_at_rest(&self) -> bool {
        self.due.is_empty()
    }

    /// What is due, in the order of a pass, each once. Nothing is due then.
    pub fn take_due(&mut self) -> Vec<Ask> {
        let mut due = mem::replace(&mut self.due, Vec::new(self.alloc));
        due.sort_unstable();
        due.dedup();
        due
    }

    /// The stream that this turn of the connection names is due, and at the connection's loss each of its streams. A connection that
    /// is new is kept from now on.
    ///
    /// # Errors
    ///
    /// `OutOfMemory` where a list found no memory.
    pub fn take_turn(&mut self, number: u32, turn: &Turn) -> Result<(), OutOfMemory> {
        if number as usize >= self.connections.len() {
            self.connections.push(Connection::new(self.alloc))?;
        }
        match turn {
            Turn::Bytes { id, .. }
            | Turn::End { id }
            | Turn::Reset { id, .. }
            | Turn::MaxData { id, .. }
            | Turn::Stop { id, .. } => self.mark(number, *id),
            Turn::Loss { .. } => self.mark_all(number),
            _ => Ok(()),
        }
    }

    /// The streams that these actions of the connection reset are due, and where they close it each of its streams.
    ///
    /// # Errors
    ///
    /// `OutOfMemory` where a list found no memory.
    pub fn mark_actions(&mut self, number: u32, actions: &[Action]) -> Result<(), OutOfMemory> {
        for action in actions {
            match action {
                Action::ResetOut { id, .. } => self.mark(number, *id)?,
                Action::Close { .. } => self.mark_all(number)?,
                _ => {}
            }
        }
        Ok(())
    }

    fn mark(&mut self, number: u32, id: StreamId) -> Result<(), OutOfMemory> {
        let Some(connection) = self.connections.get(number as usize) else {
            return Ok(());
        };
        match connection.role(id) {
            Some(role) => self.mark_role(role),
            None => Ok(()),
        }
    }

    fn mark_all(&mut self, number: u32) -> Result<(), OutOfMemory> {
        let Some(connection) = self.connections.get(number as usize) else {
            return Ok(());
        };
        let roles = connection.roles()?;
        for role in roles.as_slice() {
            self.mark_role(*role)?;
        }
        Ok(())
    }

    fn mark_role(&mut self, role: Role) -> Result<(), OutOfMemory> {
        match role {
            Role::Source(source) => self.mark_source(source),
            Role::Copied { source, copy } => self.mark_copy(source, copy),
        }
    }

    fn mark_source(&mut self, source: usize) -> Result<(), OutOfMemory> {
        self.due.push(Ask {
            source,
            step: Step::Read,
            copy: 0,
        })?;
        Ok(())
    }

    /// The copy's opening or rest is due, and then the source, which the copy may have held.
    fn mark_copy(&mut self, source: usize, copy: usize) -> Result<(), OutOfMemory> {
        self.due.push(Ask {
            source,
            step: Step::Open,
            copy,
        })?;
        self.due.push(Ask {
            source,
            step: Step::Write,
            copy,
        })?;
        self.mark_source(source)
    }

    // ---- sessions

    /// Keeps the room of a request that the connection gave, and a session of it that is established.
    ///
    /// # Errors
    ///
    /// `OutOfMemory` where a list found no memory.
    pub fn take_shake(&mut self, number: u32, reply: &Reply) -> Result<(), OutOfMemory> {
        match reply {
            Reply::Request { headers, .. } => {
                let room = self.rooms.room_of(headers.get(":path").unwrap_or(""))?;
                self.enter(number, room);
                Ok(())
            }
            Reply::Session(session) => self.establish(number, *session),
            _ => Ok(()),
        }
    }

    /// The room of the request that the connection gave last.
    fn enter(&mut self, number: u32, room: Room) {
        if let Some(connection) = self.connections.get_mut(number as usize) {
            connection.requested = room;
        }
    }

    /// The session is in the room of the request that the connection gave last.
    fn establish(&mut self, number: u32, session: SessionId) -> Result<(), OutOfMemory> {
        let Some(connection) = self.connections.get_mut(number as usize) else {
            return Ok(());
        };
        connection.establish(session)?;
        let room = connection.requested;
        self.rooms.join(&Member {
            number,
            session,
            room,
        })
    }

    /// The connection's sessions that are asked, by their ids.
    ///
    /// # Errors
    ///
    /// `OutOfMemory` where the list found no memory.
    pub fn sessions_of(&self, number: u32) -> Result<Vec<Member>, OutOfMemory> {
        let mut members = Vec::new(self.alloc);
        if let Some(connection) = self.connections.get(number as usize) {
            for pair in connection.sessions() {
                members.push(Member {
                    number,
                    session: pair.0,
                    room: pair.1,
                })?;
            }
        }
        Ok(members)
    }

    /// The session isn't asked any more.
    pub fn forget(&mut self, member: &Member) {
        if let Some(connection) = self.connections.get_mut(member.number as usize) {
            connection.forget(member.session);
        }
        self.rooms.leave(member);
    }

    /// The sessions of the session's room that are asked, by number and session.
    ///
    /// # Errors
    ///
    /// `OutOfMemory` where the list found no memory.
    pub fn roommates(&self, member: &Member) -> Result<Vec<Member>, OutOfMemory> {
        self.rooms.members_of(member.room)
    }

    // ---- sources and copies

    /// The connection and the stream of the source of this index, where it may be read: it is asked, and no copy holds it.
    pub fn free_source(&self, source: usize) -> Option<(u32, StreamId)> {
        let source = self.sources.get(source)?;
        if source.is_free() {
            return Some((source.member.number, source.id));
        }
        None
    }

    /// What a copy lacks of the source's piece that is so far, where it lacks some.
    ///
    /// # Errors
    ///
    /// `OutOfMemory` where the bytes found no memory.
    pub fn rest_of(&self, source: usize, progress: Progress) -> Result<Option<Piece>, OutOfMemory> {
        let Progress::Behind(accepted) = progress else {
            return Ok(None);
        };
        match self.sources.get(source) {
            Some(source) => Ok(Some(source.rest(accepted)?)),
            None => Ok(None),
        }
    }

    /// The copy is so far now.
    pub fn set(&mut self, source: usize, copy: usize, progress: Progress) {
        if let Some(source) = self.sources.get_mut(source) {
            source.set(copy, progress);
        }
    }

    /// The copy accepted so many bytes more of the piece.
    pub fn accept(&mut self, source: usize, copy: usize, count: usize) {
        if let Some(source) = self.sources.get_mut(source) {
            source.accept(copy, count);
        }
    }

    /// This piece of the source was read, of which the copies have accepted nothing yet.
    pub fn take_piece(&mut self, source: usize, piece: Piece)
        requires { length piece ≤ 4096 }
    {
        if let Some(source) = self.sources.get_mut(source) {
            source.take_piece(piece);
        }
    }

    /// How many copies the source has.
    pub fn copy_count(&self, source: usize) -> usize {
        match self.sources.get(source) {
            Some(source) => source.copies().len(),
            None => 0,
        }
    }

    /// The source's copy of this index.
    pub fn copied(&self, source: usize, copy: usize) -> Option<Copied> {
        self.sources.get(source)?.copies().get(copy).copied()
    }

    /// The source is asked from now on, and its copies are due.
    ///
    /// # Errors
    ///
    /// `OutOfMemory` where a list found no memory.
    pub fn add_source(&mut self, source: Source) -> Result<(), OutOfMemory> {
        let index = self.sources.len();
        self.add_role(source.member.number, source.id, Role::Source(index))?;
        for (copy, copied) in source.copies().iter().enumerate() {
            let role = Role::Copied {
                source: index,
                copy,
            };
            self.add_role(copied.member.number, copied.id, role)?;
            self.mark_copy(index, copy)?;
        }
        self.sources.push(source)?;
        Ok(())
    }

    fn add_role(&mut self, number: u32, id: StreamId, role: Role) -> Result<(), OutOfMemory> {
        match self.connections.get_mut(number as usize) {
            Some(connection) => connection.add_role(id, role),
            None => Ok(()),
        }
    }

    fn end_role(&mut self, number: u32, id: StreamId) {
        if let Some(connection) = self.connections.get_mut(number as usize) {
            connection.end_role(id);
        }
    }

    /// The copy is asked no more.
    pub fn end_copy(&mut self, source: usize, copy: usize) {
        if let Some(copied) = self.copied(source, copy) {
            self.end_role(copied.member.number, copied.id);
        }
        self.set(source, copy, Progress::Over);
    }

    /// The piece was written to each copy. Where none lacks some of it, it isn't kept, and the source is due.
    ///
    /// # Errors
    ///
    /// `OutOfMemory` where the longer list found no memory.
    pub fn end_piece(&mut self, index: usize) -> Result<(), OutOfMemory> {
        let Some(source) = self.sources.get_mut(index) else {
            return Ok(());
        };
        if !source.is_free() {
            return Ok(());
        }
        source.drop_piece();
        self.mark_source(index)
    }

    /// The source is asked no more, and its copies are forgotten.
    pub fn end_source(&mut self, index: usize) {
        let Some(source) = self.sources.get_mut(index) else {
            return;
        };
        source.end();
        let number = source.member.number;
        let id = source.id;
        self.end_role(number, id);
    }
}
