//! What a session opens and sends.
ghost use Rattle.std.specs.Prelude.{◌≡◌, ◌≤◌, ◌+◌, ◌/◌, IfOk, OnOk, Some, false, length, true};
ghost use Rattle.wt_driver_laws.specs.Calling.{Always, Does};
ghost use Rattle.wt_driver_laws.specs.Driving.{pieces_of};
ghost use Rattle.wt_driver_laws.specs.Giving.{Opens};
ghost use Rattle.wt_driver_laws.specs.Handing.{IsDialling};
ghost use Rattle.wt_driver_laws.specs.Having.{HasSession, IsNewOpening};
ghost use Rattle.wt_driver_laws.specs.Opening.{opening_error_now, opens_now, session_opened_now};
ghost use Rattle.wt_driver_laws.specs.Writing.{datagram_error_now, datagram_refusal, datagram_sent_now};
ghost use Rattle.wt_driver_laws.specs.Passing.{on_transport};
ghost use Rattle.wt_driver_laws.specs.Replies.{IfGiven, datagram_reply};
ghost use Rattle.wt_message.specs.Datagram.{datagram_bytes};
ghost use Rattle.wt_meaning.specs.Lawful.{is_client};
ghost use Rattle.wt_driver.specs.Opening.{IsFreshlyOpened, OpensFor, stream_opened};
ghost use Rattle.wt_transport.specs.Kind.{local_kind};
ghost use Rattle.wt_transport.specs.Step.{after_opening, opened_id_now};
ghost use Rattle.wt_turn.specs.Streams.{local_bi, local_count, local_uni};
ghost use Rattle.wt_turn.specs.Log.{actions_of};
ghost use Rattle.wt_turn.specs.declared.call.Call.TheVariants as calls;

use super::{Driver, OpenSession};
use crate::opening::{Opening, OpeningBiStream, OpeningUniStream};
use wt_peer_streams::Datagram;
use wt_proto::session::SessionRequest;
use wt_seam::StreamSession;
use wt_turn::datagram_fact::DatagramFact;
use wt_turn::driver_error::DriverError;
use wt_turn::poll::Poll;
use wt_turn::stream_error::SendDatagramError;
use wt_wire::error::OutOfMemory;
use wt_wire::ids::{SessionId, StreamId};

/// Why a datagram can't go out whose header and payload have so many bytes (RFC 9221, section 3).
fn refusal(fact: Option<DatagramFact>, header: u64, payload: u64) -> Option<SendDatagramError>
    ensures { result ≡ datagram_refusal fact (header + payload) }
{
    match fact {
        None => Some(SendDatagramError::NotConnected),
        Some(DatagramFact::Disabled) => Some(SendDatagramError::Disabled),
        Some(DatagramFact::Unsupported) => Some(SendDatagramError::UnsupportedByPeer),
        Some(DatagramFact::Limit(limit)) => {
            if limit < header || limit - header < payload {
                return Some(SendDatagramError::TooLarge);
            }
            None
        }
    }
}

impl Driver {
    // ---- streams

    /// Why the session opens no stream: its end where it is gone, else the connection's, of which nothing more is said.
    fn opening_error(&self, session: SessionId) -> Result<Option<DriverError>, OutOfMemory>
        ensures { IfOk result (λ error. error ≡ opening_error_now session self.now) }
    {
        if self.is_gone(session) {
            return self.session_result(session);
        }
        if self.is_open() {
            return Ok(None);
        }
        Ok(Some(DriverError::NotConnected))
    }

    /// Opens this end's next stream of a kind, where the peer allows one more (RFC 9000, section 4.6).
    fn open_next(&mut self, bidirectional: bool) -> Result<Option<StreamId>, OutOfMemory>
        ensures id { IfOk result (λ id. id ≡ opened_id_now self.old.work.transport (local_kind bidirectional self.old.work.transport.side)) }
        ensures driver { OnOk result (self.new ≡ on_transport (λ t. after_opening t (local_kind bidirectional t.side)) self.old) }
    {
        if bidirectional {
            return self.transport.open_bi();
        }
        self.transport.open_uni()
    }

    /// Begins to open a stream for the session.
    fn begin_opening(
        &mut self,
        session: SessionId,
        bidirectional: bool,
    ) -> Result<Poll<Result<Opening, DriverError>>, OutOfMemory>
        ensures { IfOk result (λ answer. record { answer = answer; driver = self.new } ≡ opens_now bidirectional session self.old) }
    {
        if let Some(error) = self.opening_error(session)? {
            return Ok(Poll::Ready(Err(error)));
        }
        match self.open_next(bidirectional)? {
            Some(id) => {
                self.dispatched.sessions.join(session, id)?;
                Ok(Poll::Ready(Ok(Opening::begin(self.alloc, id, session)?)))
            }
            None => Ok(Poll::Pending),
        }
    }

    /// Begins to open a unidirectional stream for the session, as soon as the peer allows one (RFC 9000, section 4.6).
    ///
    /// # Errors
    ///
    /// `OutOfMemory` where what goes out, or the error, found no memory.
    pub fn open_uni(
        &mut self,
        session: SessionId,
    ) -> Result<Poll<Result<OpeningUniStream, DriverError>>, OutOfMemory>
        ensures opened { IfOk result (λ answer. record { answer = answer; driver = self.new } ≡ opens_now false session self.old) }
        ensures opens { IfOk result (λ answer. Always self.old (λ side log collected. HasSession session side log
            → Opens (local_uni side) side log collected session self.old self.new answer)) }
        ensures opening { IfOk result (λ answer. IfGiven answer (IsNewOpening session)) }
        ensures pieces { OnOk result (pieces_of self.new ≤ pieces_of self.old) }
    {
        match self.begin_opening(session, false)? {
            Poll::Ready(Ok(opening)) => Ok(Poll::Ready(Ok(OpeningUniStream { opening }))),
            Poll::Ready(Err(error)) => Ok(Poll::Ready(Err(error))),
            Poll::Pending => Ok(Poll::Pending),
        }
    }

    /// Begins to open a bidirectional stream for the session, alike.
    ///
    /// # Errors
    ///
    /// `OutOfMemory` where what goes out, or the error, found no memory.
    pub fn open_bi(
        &mut self,
        session: SessionId,
    ) -> Result<Poll<Result<OpeningBiStream, DriverError>>, OutOfMemory>
        ensures opened { IfOk result (λ answer. record { answer = answer; driver = self.new } ≡ opens_now true session self.old) }
        ensures opens { IfOk result (λ answer. Always self.old (λ side log collected. HasSession session side log
            → Opens (local_bi side) side log collected session self.old self.new answer)) }
        ensures opening { IfOk result (λ answer. IfGiven answer (IsNewOpening session)) }
        ensures pieces { OnOk result (pieces_of self.new ≤ pieces_of self.old) }
    {
        match self.begin_opening(session, true)? {
            Poll::Ready(Ok(opening)) => Ok(Poll::Ready(Ok(OpeningBiStream { opening }))),
            Poll::Ready(Err(error)) => Ok(Poll::Ready(Err(error))),
            Poll::Pending => Ok(Poll::Pending),
        }
    }

    /// Opens the stream for a client's request, its first bidirectional one. Fails with `NotConnected` where the connection isn't
    /// open.
    ///
    /// # Errors
    ///
    /// `OutOfMemory` where what goes out found no memory.
    pub fn open_session(
        &mut self,
        request: SessionRequest,
    ) -> Result<Result<OpenSession, DriverError>, OutOfMemory>
        ensures answer { IfOk result (λ answer. answer ≡ stream_opened request (session_opened_now self.old).answer) }
        ensures driver { OnOk result (self.new ≡ (session_opened_now self.old).driver) }
        ensures opens { IfOk result (λ answer. Always self.old (λ side log collected. is_client side ≡ true → IsDialling log
            → local_count (actions_of log) (local_bi side) ≡ 0 → OpensFor side log collected self.old self.new request answer)) }
        ensures fresh { IfOk result IsFreshlyOpened }
        ensures pieces { OnOk result (pieces_of self.new ≤ pieces_of self.old) }
    {
        if !self.is_open() {
            return Ok(Err(DriverError::NotConnected));
        }
        let Some(id) = self.open_next(true)? else {
            return Ok(Ok(OpenSession::NotYet(request)));
        };
        match SessionId::try_from_session_stream(id) {
            Some(session) => {
                let stream = StreamSession::of_request(self.alloc, session, request);
                Ok(Ok(OpenSession::Ready(stream)))
            }
            // A server's stream is no session's.
            None => Ok(Ok(OpenSession::NotYet(request))),
        }
    }

    // ---- datagrams

    /// Why a datagram of the session with this payload can't go out.
    fn datagram_error(&self, session: SessionId, payload: &[u8]) -> Option<SendDatagramError>
        ensures { result ≡ datagram_error_now session (length (datagram_bytes (session / 4) payload.now)) self.now }
    {
        if !self.is_open() {
            return Some(SendDatagramError::NotConnected);
        }
        if !self.lives(session) {
            return Some(SendDatagramError::NotConnected);
        }
        refusal(
            self.datagram_fact(),
            Datagram::header_size(session) as u64,
            payload.len() as u64,
        )
    }

    /// Sends a datagram of the session (RFC 9297, section 2.1). Fails with `NotConnected` where the connection isn't open or the
    /// session is gone, else by what was reported last of datagrams.
    ///
    /// # Errors
    ///
    /// `OutOfMemory` where the datagram found no memory.
    pub fn send_datagram(
        &mut self,
        session: SessionId,
        payload: &[u8],
    ) -> Result<Result<(), SendDatagramError>, OutOfMemory>
        ensures sent { IfOk result (λ answer. record { answer = answer; driver = self.new } ≡ datagram_sent_now session payload.now self.old) }
        ensures does { IfOk result (Does self.old self.new (HasSession session) (calls.SendDatagram payload.now (Some session)) datagram_reply) }
        ensures pieces { OnOk result (pieces_of self.new ≤ pieces_of self.old) }
    {
        if let Some(error) = self.datagram_error(session, payload) {
            return Ok(Err(error));
        }
        let datagram = Datagram::write(self.alloc, session, payload)?;
        self.transport.datagram_out(datagram)?;
        Ok(Ok(()))
    }
}
