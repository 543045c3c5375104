//! The calls of `StreamSession`, with the driver in place of its transport. Where the driver has no such half nothing happens.
ghost use Rattle.std.specs.Prelude.{◌≡◌, ◌==◌, ◌≤◌, IfOk, OnOk, false, true};
ghost use Rattle.wt_driver_laws.specs.Calling.{Within};
ghost use Rattle.wt_driver_laws.specs.Driving.{pieces_of};
ghost use Rattle.wt_driver_laws.specs.Handing.{Finishes, MayWrite, Writes};
ghost use Rattle.wt_driver_laws.specs.Passing.{on_transport, reset_said, then_finish, then_reset};
ghost use Rattle.wt_driver_laws.specs.Writing.{finished_said, frame_written_now};
ghost use Rattle.wt_driver.specs.Frames.{ReadsIf, stop_said, then_stop_once};
ghost use Rattle.wt_seam.specs.Writing.{Continues, rest, write_of};
ghost use Rattle.wt_transport.specs.Step.{can_receive_now};
ghost use Rattle.wt_turn.specs.Streams.{can_send, local_uni};
ghost use Rattle.wt_sessions.specs.Driver.{is_living};
ghost use Rattle.wt_wire.specs.FrameBytes.{frame_bytes};

use crate::driver::Driver;
use wt_seam::StreamSession;
use wt_turn::poll::Poll;
use wt_turn::proto_error::{IoReadError, ProtoReadError, ProtoWriteError};
use wt_turn::stream_error::{AlreadyStop, ClosedStream};
use wt_wire::error::OutOfMemory;
use wt_wire::frame::Frame;
use wt_wire::varint::VarInt;

/// As `StreamSession::write_frame`. Where the stream isn't there, or this end finished or reset it, the answer is `NotConnected`.
///
/// # Errors
///
/// `OutOfMemory` where what goes out found no memory.
pub fn write_frame(
    stream: &mut StreamSession,
    d: &mut Driver,
    frame: &Frame,
) -> Result<Poll<Result<(), ProtoWriteError>>, OutOfMemory>
    requires same { Continues stream.old.stage.writing (frame_bytes frame.now) }
    ensures written { IfOk result (λ answer. record { answer = answer; writing = stream.new.stage.writing; driver = d.new } ≡ frame_written_now stream.old.halves.0.id (frame_bytes frame.now) stream.old.stage.writing d.old) }
    ensures writes { IfOk result (λ answer. Within d.old (λ side log collected. MayWrite side log stream.old.halves.0.id → (stream.old.halves.0.id == local_uni side) ≡ false
        → Writes side log collected stream.old.halves.0.id (rest (write_of stream.old.stage.writing (frame_bytes frame.now)))
        (rest (write_of stream.new.stage.writing (frame_bytes frame.now))) d.new answer)) }
    ensures pieces { OnOk result (pieces_of d.new ≤ pieces_of d.old) }
    ensures still_going { Continues stream.new.stage.writing (frame_bytes frame.now) }
    ensures others { stream.new ≡ record stream.old { stage = record stream.old.stage { writing = stream.new.stage.writing } } }
{
    if stream.can_write(&d.transport) {
        return stream.write_frame(&mut d.transport, frame);
    }
    Ok(Poll::Ready(Err(ProtoWriteError::NotConnected)))
}

/// As `StreamSession::read_frame`. Where the stream isn't there the answer is `IO(NotConnected)`.
///
/// # Errors
///
/// `OutOfMemory` where the frame found no memory.
pub fn read_frame(
    stream: &mut StreamSession,
    d: &mut Driver,
) -> Result<Poll<Result<Frame, ProtoReadError>>, OutOfMemory>
    ensures reads { ReadsIf (can_receive_now d.old.work.transport stream.old.halves.0.id) stream.old.stage.frames stream.new.stage.frames
        d.old.work.transport d.new.work.transport stream.old.halves.0.id result }
    ensures driver { d.new ≡ on_transport (λ t. d.new.work.transport) d.old }
    ensures others { stream.new ≡ record stream.old { stage = record stream.old.stage { frames = stream.new.stage.frames } } }
{
    if d.transport.can_receive(stream.id()) {
        return stream.read_frame(&mut d.transport);
    }
    Ok(Poll::Ready(Err(ProtoReadError::IO(IoReadError::NotConnected))))
}

/// As `StreamSession::stop`.
///
/// # Errors
///
/// `OutOfMemory` where what goes out found no memory.
pub fn stop(
    stream: &mut StreamSession,
    d: &mut Driver,
    code: VarInt,
) -> Result<Result<(), AlreadyStop>, OutOfMemory>
    ensures answer { IfOk result (λ answer. answer ≡ stop_said stream.old.stage.is_stopped stream.old.halves.0.id d.old.work.transport) }
    ensures driver { OnOk result (d.new ≡ on_transport (then_stop_once stream.old.stage.is_stopped stream.old.halves.0.id code) d.old) }
    ensures others { stream.new ≡ record stream.old { stage = record stream.old.stage { is_stopped = stream.new.stage.is_stopped } } }
{
    if d.transport.can_receive(stream.id()) {
        return stream.stop(&mut d.transport, code);
    }
    Ok(Ok(()))
}

/// As `StreamSession::finish`. Where the stream isn't there it is through.
///
/// # Errors
///
/// `OutOfMemory` where what goes out found no memory.
pub fn finish(stream: &mut StreamSession, d: &mut Driver) -> Result<Poll<()>, OutOfMemory>
    ensures answer { IfOk result (λ answer. answer ≡ finished_said stream.old.halves.0.id d.old.work.transport) }
    ensures driver { OnOk result (d.new ≡ on_transport (then_finish stream.old.halves.0.id) d.old) }
    ensures finishes { IfOk result (λ answer. Within d.old (λ side log collected. can_send side log stream.old.halves.0.id ≡ true → (stream.old.halves.0.id == local_uni side) ≡ false
        → is_living side log stream.old.halves.0.id ≡ false → Finishes side log collected stream.old.halves.0.id d.new answer)) }
    ensures pieces { OnOk result (pieces_of d.new ≤ pieces_of d.old) }
    ensures same { stream.new ≡ stream.old }
{
    if d.transport.can_send(stream.id()) {
        return stream.finish(&mut d.transport);
    }
    Ok(Poll::Ready(()))
}

/// As `StreamSession::reset`. It fails where the stream isn't there.
///
/// # Errors
///
/// `OutOfMemory` where what goes out found no memory.
pub fn reset(
    stream: &mut StreamSession,
    d: &mut Driver,
    code: VarInt,
) -> Result<Result<(), ClosedStream>, OutOfMemory>
    ensures answer { IfOk result (λ answer. answer ≡ reset_said stream.old.halves.0.id d.old.work.transport) }
    ensures driver { OnOk result (d.new ≡ on_transport (then_reset stream.old.halves.0.id code) d.old) }
    ensures pieces { OnOk result (pieces_of d.new ≤ pieces_of d.old) }
    ensures same { stream.new ≡ stream.old }
{
    if d.transport.can_send(stream.id()) {
        return stream.reset(&mut d.transport, code);
    }
    Ok(Err(ClosedStream))
}
