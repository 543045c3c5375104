//! The acceptance of a request for a session (RFC 9220, section 3).
ghost use Rattle.std.specs.Prelude.{◌≡◌, ◌≢◌, ◌≤◌, IfOk, OnOk, ℕ};
ghost use Rattle.wt_meaning.specs.Lawful.{is_client};
ghost use Rattle.wt_driver_laws.specs.Calling.{Always, Does, Within};
ghost use Rattle.wt_driver_laws.specs.Driving.{pieces_of};
ghost use Rattle.wt_driver_laws.specs.Handing.{MayBegin};
ghost use Rattle.wt_session.specs.Handshakes.{GoesOn, HasAcceptance, IsBegun, new_response};
ghost use Rattle.wt_session.specs.Replies.{accepting_reply};
ghost use Rattle.wt_sessions.specs.Answers.{call_effect};
ghost use Rattle.wt_turn.specs.declared.call.Call.{Call};
ghost use Rattle.wt_turn.specs.declared.call.Call.TheVariants as calls;
ghost use Rattle.wt_turn.specs.declared.poll.Poll.TheVariants.{Pending};
ghost use Rattle.wt_seam.specs.Writing.{nothing_begun};
ghost use Rattle.wt_wire.specs.FrameBytes.{frame_bytes};

use crate::connection::{Connection, not_begun, transport_error};
use std::alloc::Global;
use std::marker::Model;
use wt_driver::{Driver, session_stream};
use wt_seam::StreamSession;
use wt_turn::connection_error::{ConnectionError, H3Error};
use wt_turn::piece::Piece;
use wt_turn::poll::Poll;
use wt_turn::proto_error::ProtoWriteError;
use wt_wire::error::{ErrorCode, OutOfMemory};
use wt_wire::frame::Frame;

/// The acceptance of a request, until the session is established. Contracts see the request's stream, the frame of the
/// response, and what of that isn't out.
#[derive(Drop)]
pub struct Accepting {
    /// The request's stream, which knows how much of the response is out.
    stream: StreamSession,
    response: Frame,
}

impl Model for Accepting {
    ghost use Rattle.std.specs.Prelude.{◌≡◌};
    ghost use Rattle.wt_session.specs.Handshakes.{Response};
    ghost use Rattle.wt_seam.specs.Writing.{Continues, rest, write_of};
    ghost use Rattle.wt_wire.specs.FrameBytes.{frame_bytes};

    ghost Value = { Response };

    ghost view = { λ a. record {
      id = a.stream.halves.0.id;
      head = frame_bytes a.response;
      left = rest (write_of a.stream.stage.writing (frame_bytes a.response));
    } };

    ghost invariant = { λ a. (a.stream.stage.session ≡ a.stream.halves.0.id) × Continues a.stream.stage.writing (frame_bytes a.response) };
}

impl Accepting {
    /// The acceptance of the request of this stream by this response.
    pub(crate) fn new(stream: StreamSession, response: Frame) -> Accepting
        requires session { stream.stage.session ≡ stream.halves.0.id }
        requires writing { stream.stage.writing ≡ nothing_begun }
        ensures { result ≡ new_response stream.halves.0.id (frame_bytes response) }
    {
        Accepting { stream, response }
    }

    /// Writes the response as far as credit lets it, and once all of it is out the session is established. It isn't polled
    /// again once it was ready.
    ///
    /// # Errors
    ///
    /// `OutOfMemory` where what goes out, what is kept or the error found no memory. The
    /// `ConnectionError` is how the connection ended; it is the fault `H3_CLOSED_CRITICAL_STREAM`
    /// where the peer stopped the stream before all of the response was out, and the connection is
    /// closed with that code (RFC 9114, section 6.2.1).
    pub fn poll(
        &mut self,
        alloc: Global,
        d: &mut Driver,
    ) -> Result<Poll<Result<Connection, ConnectionError>>, OutOfMemory>
        ensures does { (call : Call) → IfOk result (Does d.old d.new (HasAcceptance self.old call) call accepting_reply) }
        ensures goes_on { (call : Call) → IfOk result (λ a. Always d.old (λ side log collected. HasAcceptance self.old call side log → a ≡ Pending
            → HasAcceptance self.new calls.Handshake side (call_effect side log call).log)) }
        ensures id { self.new.id ≡ self.old.id }
        ensures head { self.new.head ≡ self.old.head }
        ensures pieces { OnOk result (pieces_of d.new ≤ pieces_of d.old) }
    {
        let written = session_stream::write_frame(&mut self.stream, d, &self.response)?;
        self.written(alloc, d, written)
    }

    /// The response's rest was written, and this is how far it came.
    fn written(
        &self,
        alloc: Global,
        d: &mut Driver,
        written: Poll<Result<(), ProtoWriteError>>,
    ) -> Result<Poll<Result<Connection, ConnectionError>>, OutOfMemory>
        ensures does { IfOk result (GoesOn d.old d.new self.now.id written) }
        ensures waits { IfOk result (λ a. a ≡ Pending → written ≡ Pending) }
        ensures pieces { OnOk result (pieces_of d.new ≤ pieces_of d.old) }
    {
        match written {
            Poll::Pending => {
                d.rests();
                Ok(Poll::Pending)
            }
            Poll::Ready(Ok(())) => self.establish(alloc, d),
            Poll::Ready(Err(ProtoWriteError::NotConnected)) => {
                d.rests();
                Ok(Poll::Ready(Err(transport_error(alloc, d)?)))
            }
            Poll::Ready(Err(ProtoWriteError::Stopped)) => {
                let code = ErrorCode::ClosedCriticalStream;
                d.close(code.to_code(), Piece::new(alloc))?;
                d.rests();
                let error = ConnectionError::LocalH3Error(H3Error::new(code));
                Ok(Poll::Ready(Err(error)))
            }
        }
    }

    /// The session is established, or how the connection ended.
    fn establish(
        &self,
        alloc: Global,
        d: &mut Driver,
    ) -> Result<Poll<Result<Connection, ConnectionError>>, OutOfMemory>
        ensures begins { IfOk result (λ a. Within d.old (λ side log collected. (offset : ℕ) → MayBegin (is_client side) side log self.now.id offset
            → IsBegun side log collected self.now.id offset d.new a)) }
        ensures ready { IfOk result (λ a. a ≢ Pending) }
        ensures pieces { OnOk result (pieces_of d.new ≤ pieces_of d.old) }
    {
        let session = self.stream.session_id();
        match d.register(session)? {
            Ok(()) => Ok(Poll::Ready(Ok(Connection::new(session)))),
            Err(error) => Ok(Poll::Ready(Err(not_begun(alloc, d, error)?))),
        }
    }
}
