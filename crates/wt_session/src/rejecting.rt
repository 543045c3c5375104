//! The rejection of a request for a session (RFC 9220, section 3).
ghost use Rattle.std.specs.Prelude.{◌==◌, ◌∷◌, ◌≡◌, ◌≢◌, ◌≤◌, IfOk, OnOk, false, true};
ghost use Rattle.wt_driver_laws.specs.Calling.{Always, Did, Does, Within};
ghost use Rattle.wt_driver_laws.specs.Driving.{Follows, pieces_of};
ghost use Rattle.wt_driver_laws.specs.Handing.{IsAnswering, finish_actions, rejecting_actions};
ghost use Rattle.wt_session.specs.Handshakes.{HasRejection, IsAtRest, IsRejecting, RejectionEnds, RejectionGoesOn, RejectionStays, is_all_out, new_rejection};
ghost use Rattle.wt_session.specs.Replies.{rejecting_reply};
ghost use Rattle.wt_turn.specs.Streams.{can_send, local_uni};
ghost use Rattle.wt_sessions.specs.Answers.{call_effect};
ghost use Rattle.wt_sessions.specs.Driver.{is_living};
ghost use Rattle.wt_sessions.specs.Handshake.{end_rejection};
ghost use Rattle.wt_turn.specs.Log.{Called, Polled, with_actions};
ghost use Rattle.wt_turn.specs.declared.poll.Poll.TheVariants.{Pending};
ghost use Rattle.wt_turn.specs.declared.call.Call.{Call};
ghost use Rattle.wt_turn.specs.declared.call.Call.TheVariants as calls;
ghost use Rattle.wt_seam.specs.Writing.{nothing_begun};
ghost use Rattle.wt_wire.specs.FrameBytes.{frame_bytes};

use std::alloc::Global;
use std::marker::Model;
use wt_driver::{Driver, session_stream};
use wt_seam::StreamSession;
use wt_turn::poll::Poll;
use wt_turn::proto_error::ProtoWriteError;
use wt_wire::error::{ErrorCode, OutOfMemory};
use wt_wire::frame::Frame;
use wt_wire::varint::VarInt;

/// The rejection of a request, until the peer has it. Contracts see its response, and whether all of that is out.
#[derive(Drop)]
pub struct Rejecting {
    stream: StreamSession,
    response: Frame,
    /// All of the response is out.
    is_sent: bool,
}

impl Model for Rejecting {
    ghost use Rattle.std.specs.Prelude.{◌≡◌};
    ghost use Rattle.wt_session.specs.Handshakes.{Rejection};
    ghost use Rattle.wt_seam.specs.Writing.{Continues, rest, write_of};
    ghost use Rattle.wt_wire.specs.FrameBytes.{frame_bytes};

    ghost Value = { Rejection };

    ghost view = { λ r. record {
      response = record {
        id = r.stream.halves.0.id;
        head = frame_bytes r.response;
        left = rest (write_of r.stream.stage.writing (frame_bytes r.response));
      };
      is_sent = r.is_sent;
    } };

    ghost invariant = { λ r. (r.stream.stage.session ≡ r.stream.halves.0.id) × Continues r.stream.stage.writing (frame_bytes r.response) };
}

impl Rejecting {
    /// The rejection of the request of this stream by this response.
    pub(crate) fn new(stream: StreamSession, response: Frame) -> Rejecting
        requires session { stream.stage.session ≡ stream.halves.0.id }
        requires writing { stream.stage.writing ≡ nothing_begun }
        ensures { result ≡ new_rejection stream.halves.0.id (frame_bytes response) }
    {
        Rejecting {
            stream,
            response,
            is_sent: false,
        }
    }

    /// Writes the response as far as credit lets it, finishes the stream once all of it is out, and
    /// is through once the peer acknowledged or stopped it: the session that it asked for is gone, and an
    /// open connection on which no session lives is closed. It is through at once where the connection isn't
    /// open, and where the peer stopped the stream before all of the response was out.
    ///
    /// # Errors
    ///
    /// `OutOfMemory` where what goes out found no memory.
    pub fn poll(&mut self, alloc: Global, d: &mut Driver) -> Result<Poll<()>, OutOfMemory>
        ensures does { (call : Call) → IfOk result (Does d.old d.new (HasRejection self.old call) call rejecting_reply) }
        ensures goes_on { (call : Call) → IfOk result (λ a. Always d.old (λ side log collected. HasRejection self.old call side log → a ≡ Pending
            → HasRejection self.new calls.Handshake side (call_effect side log call).log)) }
        ensures id { self.new.response.id ≡ self.old.response.id }
        ensures head { self.new.response.head ≡ self.old.response.head }
        ensures pieces { OnOk result (pieces_of d.new ≤ pieces_of d.old) }
    {
        if self.is_sent {
            return self.finish(d);
        }
        let written = session_stream::write_frame(&mut self.stream, d, &self.response)?;
        self.written(d, written)
    }

    /// The response's rest was written, and this is how far it came.
    fn written(
        &mut self,
        d: &mut Driver,
        written: Poll<Result<(), ProtoWriteError>>,
    ) -> Result<Poll<()>, OutOfMemory>
        ensures does { IfOk result (RejectionGoesOn d.old d.new self.old.response.id written) }
        ensures stays { IfOk result (λ a. a ≡ Pending → RejectionStays d.old self.old.response.id written × (is_all_out written ≡ false → written ≡ Pending)) }
        ensures response { self.new.response ≡ self.old.response }
        ensures sent { self.old.is_sent ≡ false → IfOk result (λ a. self.new.is_sent ≡ is_all_out written) }
        ensures pieces { OnOk result (pieces_of d.new ≤ pieces_of d.old) }
    {
        match written {
            Poll::Ready(Ok(())) => self.begin_finish(d),
            Poll::Pending => {
                d.rests();
                Ok(Poll::Pending)
            }
            Poll::Ready(Err(ProtoWriteError::NotConnected)) => self.end(d, None),
            Poll::Ready(Err(ProtoWriteError::Stopped)) => self.end(
                d,
                Some(ErrorCode::ClosedCriticalStream.to_code()),
            ),
        }
    }

    /// All of the response is out now, and the stream is finished. The peer can't have all of it yet.
    fn begin_finish(&mut self, d: &mut Driver) -> Result<Poll<()>, OutOfMemory>
        ensures finishes { IfOk result (λ a. Within d.old (λ side log collected. can_send side log self.old.response.id ≡ true → (self.old.response.id == local_uni side) ≡ false
            → is_living side log self.old.response.id ≡ false → Follows side d.new (with_actions (finish_actions log self.old.response.id) log) collected)) }
        ensures waits { IfOk result (λ a. a ≡ Pending) }
        ensures rests { OnOk result (IsAtRest d.new) }
        ensures new { OnOk result (self.new ≡ record self.old { is_sent = true }) }
        ensures response { self.new.response ≡ self.old.response }
        ensures pieces { OnOk result (pieces_of d.new ≤ pieces_of d.old) }
    {
        self.is_sent = true;
        let _pending = session_stream::finish(&mut self.stream, d)?;
        d.rests();
        Ok(Poll::Pending)
    }

    /// The response is out, and the rejection is through once the peer has it. A close before that would lose the status
    /// (RFC 9000, section 10.2).
    fn finish(&mut self, d: &mut Driver) -> Result<Poll<()>, OutOfMemory>
        ensures does { self.old.is_sent ≡ true → IfOk result (Does d.old d.new (λ side log. IsRejecting self.old log) calls.Handshake rejecting_reply) }
        ensures stays { self.old.is_sent ≡ true → IfOk result (λ a. Always d.old (λ side log collected. IsRejecting self.old log → a ≡ Pending
            → Called Polled ∷ log ≡ (call_effect side log calls.Handshake).log)) }
        ensures same { self.new ≡ self.old }
        ensures pieces { OnOk result (pieces_of d.new ≤ pieces_of d.old) }
    {
        let through = session_stream::finish(&mut self.stream, d)?;
        self.finished(d, through)
    }

    /// The stream is finished, and the peer has all of it or not.
    fn finished(&self, d: &mut Driver, through: Poll<()>) -> Result<Poll<()>, OutOfMemory>
        ensures does { IfOk result (RejectionEnds d.old d.new self.now.response.id through) }
        ensures waits { IfOk result (λ a. a ≡ Pending → through ≡ Pending) }
        ensures pieces { OnOk result (pieces_of d.new ≤ pieces_of d.old) }
    {
        match through {
            Poll::Pending => {
                d.rests();
                Ok(Poll::Pending)
            }
            Poll::Ready(()) => {
                if d.living() == 0 {
                    return self.end(d, Some(VarInt::from_u32(0)));
                }
                self.end(d, None)
            }
        }
    }

    /// The rejection is over.
    fn end(&self, d: &mut Driver, close: Option<VarInt>) -> Result<Poll<()>, OutOfMemory>
        ensures does { IfOk result (λ a. Always d.old (λ side log collected. IsAnswering log self.now.response.id
            → Did side d.new collected (rejecting_reply a) (end_rejection side log self.now.response.id (rejecting_actions side log self.now.response.id close)))) }
        ensures ready { IfOk result (λ a. a ≢ Pending) }
        ensures pieces { OnOk result (pieces_of d.new ≤ pieces_of d.old) }
    {
        d.reject_session(self.stream.session_id(), close)?;
        Ok(Poll::Ready(()))
    }
}
