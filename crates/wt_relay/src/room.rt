//! Rooms: the sessions whose requests have one path.
ghost use Rattle.std.specs.Prelude.{◌≡◌, ◌≤◌, length};
ghost use Rattle.wt_relay.specs.Rooms.{is_across};

use std::alloc::Global;
use std::collections::BTreeMap;
use wt_wire::error::OutOfMemory;
use wt_wire::ids::SessionId;

/// A room, by its place in the order of the rooms' first requests.
pub type Room = usize;

/// A session of a connection, in its room.
#[derive(Clone, Copy)]
pub struct Member {
    /// The connection's number.
    pub number: u32,
    /// The session.
    pub session: SessionId,
    /// The room of its request.
    pub room: Room,
}

impl Member {
    /// Its place among members: by number and session.
    fn key(&self) -> (u32, u64) {
        (self.number, self.session.session_stream().into_u64())
    }

    /// Whether it is this session.
    fn is(&self, number: u32, session: SessionId) -> bool {
        self.number == number && self.session == session
    }

    /// Whether the other is another session of its room.
    pub fn is_across(&self, other: &Member) -> bool
        ensures { result ≡ is_across self.now other.now }
    {
        let same = self.number == other.number
            && self.session.session_stream().into_u64()
                == other.session.session_stream().into_u64();
        !same && self.room == other.room
    }
}

/// The rooms by their paths, and the members of each that are asked, by number and session.
#[derive(Drop)]
pub struct Rooms {
    alloc: Global,
    by_path: BTreeMap<String, Room>,
    members: Vec<Vec<Member>>,
}

impl Rooms {
    /// No room.
    pub fn new(alloc: Global) -> Rooms {
        Rooms {
            alloc,
            by_path: BTreeMap::new(alloc),
            members: Vec::new(alloc),
        }
    }

    /// The room of this path. It is empty where there was none.
    ///
    /// # Errors
    ///
    /// `OutOfMemory` where a new room found no memory.
    pub fn room_of(&mut self, path: &str) -> Result<Room, OutOfMemory> {
        if let Some(room) = self.by_path.get(path) {
            return Ok(*room);
        }
        let room = self.members.len();
        self.members.push(Vec::new(self.alloc))?;
        let path = String::from_str(self.alloc, path)?;
        self.by_path.insert(path, room)?;
        Ok(room)
    }

    /// The session is in its room.
    ///
    /// # Errors
    ///
    /// `OutOfMemory` where the longer list found no memory.
    pub fn join(&mut self, member: &Member) -> Result<(), OutOfMemory> {
        if let Some(members) = self.members.get_mut(member.room) {
            let at = place(members.as_slice(), member);
            members.insert(at, *member)?;
        }
        Ok(())
    }

    /// The session isn't asked any more.
    pub fn leave(&mut self, member: &Member) {
        let number = member.number;
        let session = member.session;
        if let Some(members) = self.members.get_mut(member.room) {
            members.retain(|other| !other.is(number, session));
        }
    }

    /// The members of a room, by number and session.
    ///
    /// # Errors
    ///
    /// `OutOfMemory` where the list found no memory.
    pub fn members_of(&self, room: Room) -> Result<Vec<Member>, OutOfMemory> {
        let mut found = Vec::new(self.alloc);
        if let Some(members) = self.members.get(room) {
            found.extend_from_slice(members.as_slice())?;
        }
        Ok(found)
    }
}

/// How many of these members come before this one.
fn place(members: &[Member], member: &Member) -> usize
    ensures { result ≤ length members.now }
{
    let key = member.key();
    members.partition_point(|other| other.key() < key)
}
