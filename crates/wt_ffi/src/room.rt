//! Bytes that are written where there is room for them.
ghost use Rattle.std.specs.Prelude.{◌≡◌, ◌++◌};
ghost use Rattle.wt_ffi.specs.Rooms.{placed};

/// Writes the bytes in front of the room, where it has a place for each.
pub fn place(bytes: &[u8], room: &mut [u8])
    ensures { room.new ≡ placed bytes.now room.old }
{
    if bytes.len() <= room.len() {
        let (front, _) = room.split_at_mut(bytes.len());
        front.copy_from_slice(bytes);
    }
}

/// Writes both, one after the other.
#[tactic(auto, using(crate::proofs::RoomLaws::placed_two, crate::proofs::RoomLaws::no_place_two))]
pub fn place_two(first: &[u8], second: &[u8], room: &mut [u8])
    ensures { room.new ≡ placed (first.now ++ second.now) room.old }
{
    if first.len() > room.len() {
        return;
    }
    if second.len() > room.len() - first.len() {
        return;
    }
    let (front, rest) = room.split_at_mut(first.len());
    let (middle, _) = rest.split_at_mut(second.len());
    front.copy_from_slice(first);
    middle.copy_from_slice(second);
}
