//! Zevombu for C: the functions of bindings/include/zevombu.h.
#![tactic(auto)]

ghost use Rattle.std.specs.Prelude.{[], ◌≡◌, ◌<◌, ◌++◌, ◌↔◌, IfOk, IsSomeAnd, IsTrue, None, false, is_some, length, slice_get};
ghost use Rattle.std.specs.Option.{option_map_or};
ghost use Rattle.wt_abi.specs.Actions.{action_bytes, action_head};
ghost use Rattle.wt_abi.specs.Turns.{turn_of};
ghost use Rattle.wt_core.specs.CoreState.{KeepsHistory};
ghost use Rattle.wt_ffi.specs.Rooms.{field_bytes, field_head, placed};
ghost use Rattle.wt_handle.specs.Answers.{Answered, HasFailed, last_actions, last_bytes, last_fields, last_head};
ghost use Rattle.wt_meaning.specs.History.{History};
ghost use Rattle.wt_meaning.specs.Lawful.{is_lawful};
ghost use Rattle.wt_wire.specs.declared.side.Side.{Side};

mod room;

use crate::room::{place, place_two};
use std::alloc::Global;
use wt_abi::{ActionHead, ReplyHead, TurnHead, action_bytes, action_head};
use wt_handle::loose::Loose;
use wt_handle::{Handle, Opaque, State, Status};
use wt_wire::error::OutOfMemory;
use wt_wire::side::Side;

/// How many bytes the name and the value of a header field have.
#[repr(C)]
#[derive(Clone, Copy)]
pub struct FieldHead {
    /// The name's, which come first.
    pub name: u64,
    /// The value's.
    pub value: u64,
}

/// The version of the header.
#[unsafe(no_mangle)]
pub extern "C" fn zevombu_version() -> u32
    ensures { result ≡ 1 }
{
    1
}

/// A connection of this side, in a block of its own.
fn connection(alloc: Global, side: Side) -> Result<Loose<State, Global>, OutOfMemory>
    ensures { IfOk result (λ loose. KeepsHistory side loose.value.core []) }
{
    match Box::new(alloc, State::new(alloc, side)) {
        Ok(state) => Ok(Loose::of(state)),
        Err(_) => Err(OutOfMemory),
    }
}

/// Makes a connection of a client (0) or a server (1), and writes its address: 0, or 1 where there is no such side, or 3
/// where memory is short.
#[unsafe(no_mangle)]
pub extern "C" fn zevombu_new(alloc: Global, side: u32, out: &mut *mut Opaque) -> u32
    ensures side { (result ≡ 1) ↔ (1 < side) }
    ensures status { result < 4 }
    ensures untouched { 0 < result → out.new ≡ out.old }
{
    let side = match side {
        0 => Side::Client,
        1 => Side::Server,
        _ => return 1,
    };
    match connection(alloc, side) {
        Ok(loose) => {
            *out = Handle::release(loose);
            0
        }
        Err(_) => 3,
    }
}

/// Gives a connection up.
#[unsafe(no_mangle)]
pub extern "C" fn zevombu_free(alloc: Global, handle: Handle) {
    let state = handle.into_loose(alloc).into_box();
    drop(state);
}

/// Makes a turn, and writes its answer's head: 0. Else the head stays as it was: 1 where there is no such turn, 2 where it may
/// not come now, 3 where there was no memory for the turn itself, 4 where memory ran out while it was answered.
#[unsafe(no_mangle)]
pub extern "C" fn zevombu_turn(
    alloc: Global,
    handle: &mut Handle,
    head: &TurnHead,
    bytes: &[u8],
    out: &mut ReplyHead,
) -> u32
    ensures status { result < 5 }
    ensures done { result ≡ 0 → (side : Side) (h : History) → KeepsHistory side handle.old.value.core h
        → IsSomeAnd (turn_of head.now bytes.now) (λ turn. Answered side h turn handle.new.value) }
    ensures head { result ≡ 0 → out.new ≡ last_head handle.new.value.last }
    ensures malformed { result ≡ 1 → turn_of head.now bytes.now ≡ None }
    ensures unlawful { result ≡ 2 → (side : Side) (h : History) → KeepsHistory side handle.old.value.core h
        → IsSomeAnd (turn_of head.now bytes.now) (λ turn. is_lawful side h turn ≡ false) }
    ensures same { 0 < result → result < 4 → handle.new.value ≡ handle.old.value }
    ensures failed { result ≡ 4 → HasFailed handle.new.value }
    ensures untouched { 0 < result → out.new ≡ out.old }
    ensures stays { IsTrue handle.old.value.core.failed → 0 < result }
{
    let state = handle.state();
    match state.turn(alloc, head, bytes) {
        Status::Done => {
            *out = state.head();
            0
        }
        Status::Malformed => 1,
        Status::Unlawful => 2,
        Status::OutOfMemory => 3,
        Status::Failed => 4,
    }
}

/// Writes the bytes of the last answer's reply, where there is room for all, and says how many they are.
#[unsafe(no_mangle)]
pub extern "C" fn zevombu_reply(handle: &mut Handle, room: &mut [u8]) -> usize
    ensures length { result ≡ length (last_bytes handle.old.value.last) }
    ensures bytes { room.new ≡ placed (last_bytes handle.old.value.last) room.old }
    ensures same { handle.new.value ≡ handle.old.value }
{
    let state = handle.state();
    let bytes = state.bytes();
    place(bytes, room);
    bytes.len()
}

/// Writes the head of an action of the last answer, and its bytes, where there is room for all; false, and nothing is written,
/// where there is no such action.
#[unsafe(no_mangle)]
pub extern "C" fn zevombu_action(
    handle: &mut Handle,
    index: usize,
    out: &mut ActionHead,
    room: &mut [u8],
) -> bool
    ensures some { result ≡ is_some (slice_get (last_actions handle.old.value.last) index) }
    ensures head { out.new ≡ option_map_or action_head (slice_get (last_actions handle.old.value.last) index) out.old }
    ensures bytes { room.new ≡ option_map_or (λ a. placed (action_bytes a) room.old) (slice_get (last_actions handle.old.value.last) index) room.old }
    ensures same { handle.new.value ≡ handle.old.value }
{
    let state = handle.state();
    match state.action(index) {
        Some(action) => {
            *out = action_head(action);
            place(action_bytes(action), room);
            true
        }
        None => false,
    }
}

/// Writes how long the name and the value of a header field of the last answer's request are, and both one after the other,
/// where there is room for all; false, and nothing is written, where there is no such field.
#[unsafe(no_mangle)]
pub extern "C" fn zevombu_field(
    handle: &mut Handle,
    index: usize,
    out: &mut FieldHead,
    room: &mut [u8],
) -> bool
    ensures some { result ≡ is_some (slice_get (last_fields handle.old.value.last) index) }
    ensures head { out.new ≡ option_map_or field_head (slice_get (last_fields handle.old.value.last) index) out.old }
    ensures bytes { room.new ≡ option_map_or (λ f. placed (field_bytes f) room.old) (slice_get (last_fields handle.old.value.last) index) room.old }
    ensures same { handle.new.value ≡ handle.old.value }
{
    let state = handle.state();
    match state.field(index) {
        Some((name, value)) => {
            *out = FieldHead {
                name: name.len() as u64,
                value: value.len() as u64,
            };
            place_two(name.as_bytes(), value.as_bytes(), room);
            true
        }
        None => false,
    }
}
