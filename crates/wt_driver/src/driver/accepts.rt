//! What waits for a session is given, and the requests for sessions.
ghost use Rattle.std.specs.Prelude.{◌≡◌, ◌≤◌, IfOk, OnOk, false, option_map, true};
ghost use Rattle.wt_driver_laws.specs.Answering.{polled_by, request_taken_now, result_now, session_result_now};
ghost use Rattle.wt_driver_laws.specs.Calling.{Always};
ghost use Rattle.wt_driver_laws.specs.Driving.{pieces_of};
ghost use Rattle.wt_driver_laws.specs.Given.{bi_of, given_or, next_datagram_now, next_stream_now, request_stream, stream_accepted, uni_of};
ghost use Rattle.wt_driver_laws.specs.Giving.{Accepts, Receives};
ghost use Rattle.wt_driver_laws.specs.Handing.{Delivers, IsFresh};
ghost use Rattle.wt_driver_laws.specs.Having.{HasSession};
ghost use Rattle.wt_driver_laws.specs.Replies.{IfGiven};
ghost use Rattle.wt_kept.specs.Calling.{on_sessions};
ghost use Rattle.wt_meaning.specs.Lawful.{is_client};
ghost use Rattle.wt_peer_streams.specs.Living.{datagram_given};
ghost use Rattle.wt_turn.specs.Streams.{peer_bi, peer_uni};

use super::Driver;
use wt_peer_streams::Datagram;
use wt_seam::{StreamBiRemoteWT, StreamSession, StreamUniRemoteWT};
use wt_turn::driver_error::DriverError;
use wt_turn::poll::Poll;
use wt_wire::error::OutOfMemory;
use wt_wire::ids::SessionId;

impl Driver {
    /// What a call answers that has nothing to give.
    pub(super) fn nothing_left<T>(&self) -> Poll<Result<T, DriverError>>
        ensures { result ≡ polled_by (result_now self.now) }
    {
        match self.result() {
            Some(error) => Poll::Ready(Err(error)),
            None => Poll::Pending,
        }
    }

    /// What a call on a session answers that has nothing to give.
    fn nothing_waits<T>(
        &self,
        session: SessionId,
    ) -> Result<Poll<Result<T, DriverError>>, OutOfMemory>
        ensures { IfOk result (λ answer. answer ≡ polled_by (session_result_now session self.now)) }
    {
        match self.session_result(session)? {
            Some(error) => Ok(Poll::Ready(Err(error))),
            None => Ok(Poll::Pending),
        }
    }

    /// The session's next unidirectional stream, in the order in which they became ripe.
    ///
    /// # Errors
    ///
    /// `OutOfMemory` where what is kept, or the error, found no memory.
    pub fn accept_uni(
        &mut self,
        session: SessionId,
    ) -> Result<Poll<Result<StreamUniRemoteWT, DriverError>>, OutOfMemory>
        ensures answer { IfOk result (λ answer. answer ≡ given_or (option_map (uni_of session) (next_stream_now false session self.old)) (session_result_now session self.old)) }
        ensures driver { OnOk result (self.new ≡ stream_accepted false session self.old) }
        ensures gives { IfOk result (λ answer. Always self.old (λ side log collected. HasSession session side log
            → Accepts (λ stream. stream.halves.id) (peer_uni side) side log collected session self.old self.new answer)) }
        ensures pieces { OnOk result (pieces_of self.new ≤ pieces_of self.old) }
    {
        match self.dispatched.sessions.take_stream(session, false)? {
            Some(id) => Ok(Poll::Ready(Ok(StreamUniRemoteWT::of_session(id, session)))),
            None => self.nothing_waits(session),
        }
    }

    /// The session's next bidirectional stream.
    ///
    /// # Errors
    ///
    /// `OutOfMemory` where what is kept, or the error, found no memory.
    pub fn accept_bi(
        &mut self,
        session: SessionId,
    ) -> Result<Poll<Result<StreamBiRemoteWT, DriverError>>, OutOfMemory>
        ensures answer { IfOk result (λ answer. answer ≡ given_or (option_map (bi_of session) (next_stream_now true session self.old)) (session_result_now session self.old)) }
        ensures driver { OnOk result (self.new ≡ stream_accepted true session self.old) }
        ensures gives { IfOk result (λ answer. Always self.old (λ side log collected. HasSession session side log
            → Accepts (λ stream. stream.halves.0.id) (peer_bi side) side log collected session self.old self.new answer)) }
        ensures halves { IfOk result (λ answer. IfGiven answer (λ stream. stream.halves.1.id ≡ stream.halves.0.id)) }
        ensures pieces { OnOk result (pieces_of self.new ≤ pieces_of self.old) }
    {
        match self.dispatched.sessions.take_stream(session, true)? {
            Some(id) => Ok(Poll::Ready(Ok(StreamBiRemoteWT::of_session(id, session)))),
            None => self.nothing_waits(session),
        }
    }

    /// The session's next datagram.
    ///
    /// # Errors
    ///
    /// `OutOfMemory` where the error found no memory.
    pub fn receive_datagram(
        &mut self,
        session: SessionId,
    ) -> Result<Poll<Result<Datagram, DriverError>>, OutOfMemory>
        ensures answer { IfOk result (λ answer. answer ≡ given_or (next_datagram_now session self.old) (session_result_now session self.old)) }
        ensures driver { OnOk result (self.new ≡ on_sessions (datagram_given session) self.old) }
        ensures gives { IfOk result (λ answer. Always self.old (λ side log collected. HasSession session side log
            → Receives (λ datagram. datagram.payload) side log collected session self.old self.new answer)) }
        ensures pieces { OnOk result (pieces_of self.new ≤ pieces_of self.old) }
    {
        match self.dispatched.sessions.take_datagram(session) {
            Some(datagram) => Ok(Poll::Ready(Ok(datagram))),
            None => self.nothing_waits(session),
        }
    }

    /// The next queued request, on its stream, which is queued no more; without one how the connection ended, or Pending (RFC 9220,
    /// section 3).
    ///
    /// # Errors
    ///
    /// `OutOfMemory` where the stream's readers found no memory.
    pub fn accept_session(
        &mut self,
    ) -> Result<Poll<Result<StreamSession, DriverError>>, OutOfMemory>
        ensures answer { IfOk result (λ answer. answer ≡ given_or (option_map request_stream (request_taken_now self.old).request) (result_now self.old)) }
        ensures driver { OnOk result (self.new ≡ (request_taken_now self.old).driver) }
        ensures delivers { IfOk result (λ answer. Always self.old (λ side log collected. is_client side ≡ false
            → Delivers side log collected self.old self.new answer)) }
        ensures fresh { IfOk result (λ answer. IfGiven answer IsFresh) }
        ensures pieces { OnOk result (pieces_of self.new ≤ pieces_of self.old) }
    {
        match self.dispatched.requests.take_next() {
            Some((session, request)) => {
                let stream = StreamSession::of_request(self.alloc, session, request);
                Ok(Poll::Ready(Ok(stream)))
            }
            None => Ok(self.nothing_left()),
        }
    }
}
