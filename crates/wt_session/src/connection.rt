//! A session that is established (draft-ietf-webtrans-http3, section 4).
ghost use Rattle.std.specs.Prelude.{◌≡◌, ◌≤◌, IfOk, OnOk, Some, ℕ};
ghost use Rattle.wt_driver_laws.specs.Calling.{Does};
ghost use Rattle.wt_driver_laws.specs.Driving.{Follows, pieces_of};
ghost use Rattle.wt_driver_laws.specs.Having.{HasSession, IsNewOpening, OpeningStream};
ghost use Rattle.wt_driver_laws.specs.Replies.{IfGiven, datagram_reply, done_reply, poll_reply};
ghost use Rattle.wt_kept.specs.Kept.{WaitingDatagram};
ghost use Rattle.wt_session.specs.Errors.{reported_error};
ghost use Rattle.wt_session.specs.Replies.{HasAny, closed_reply, size_reply};
ghost use Rattle.wt_sessions.specs.Effect.{driver_error, transport_error};
ghost use Rattle.wt_turn.specs.Log.{Log};
ghost use Rattle.wt_turn.specs.declared.call.Call.TheVariants as calls;
ghost use Rattle.wt_turn.specs.declared.reply.Reply.TheVariants as replies;
ghost use Rattle.wt_wire.specs.declared.side.Side.{Side};

use std::alloc::Global;
use std::marker::Model;
use wt_driver::{Datagram, Driver, OpeningBiStream, OpeningUniStream, RecvStream, SendStream};
use wt_turn::connection_error::{ConnectionError, H3Error};
use wt_turn::datagram_fact::DatagramFact;
use wt_turn::driver_error::DriverError;
use wt_turn::piece::Piece;
use wt_turn::poll::Poll;
use wt_turn::stream_error::SendDatagramError;
use wt_wire::error::OutOfMemory;
use wt_wire::ids::SessionId;
use wt_wire::varint::VarInt;

/// What a call of a session answers.
type Answered<T> = Result<Poll<Result<T, ConnectionError>>, OutOfMemory>;

/// An established session. Contracts see its id.
///
/// Each call takes the driver of the connection that established it. Where the application has the session, a call does
/// what the definitions say of it, and this is its answer (`does`).
#[derive(Debug, Drop)]
pub struct Connection {
    session: SessionId,
}

impl Model for Connection {
    ghost use Rattle.std.specs.Prelude.{ℕ};

    ghost Value = { ℕ };

    ghost view = { λ c. c.session };
}

// ---- how its end is reported

/// The end as the transport reports it: its loss, or a local close.
pub(crate) fn transport_error(alloc: Global, d: &Driver) -> Result<ConnectionError, OutOfMemory>
    ensures { (side : Side) (log : Log) (collected : ℕ) → Follows side d.now log collected → IfOk result (λ e. e ≡ transport_error log) }
{
    match d.loss() {
        Some(reason) => Ok(ConnectionError::from(reason.copy(alloc)?)),
        None => Ok(ConnectionError::LocallyClosed),
    }
}

/// The end as the driver reports it: the fault for which it closed, or the transport's end.
pub(crate) fn driver_error(alloc: Global, d: &Driver) -> Result<ConnectionError, OutOfMemory>
    ensures { (side : Side) (log : Log) (collected : ℕ) → Follows side d.now log collected → IfOk result (λ e. e ≡ driver_error side log) }
{
    match d.fault() {
        Some(code) => Ok(ConnectionError::LocalH3Error(H3Error::new(code))),
        None => transport_error(alloc, d),
    }
}

/// Why a session didn't begin: its connection isn't open, and this is the end as the transport reports it.
pub(crate) fn not_begun(
    alloc: Global,
    d: &Driver,
    _error: DriverError,
) -> Result<ConnectionError, OutOfMemory>
    ensures { (side : Side) (log : Log) (collected : ℕ) → Follows side d.now log collected → IfOk result (λ e. e ≡ transport_error log) }
{
    transport_error(alloc, d)
}

impl Connection {
    /// The session of this id, which is established.
    pub(crate) fn new(session: SessionId) -> Connection
        ensures { result ≡ session }
    {
        Connection { session }
    }

    /// The session's id.
    pub fn session_id(&self) -> SessionId
        ensures { result ≡ self.now }
    {
        self.session
    }

    /// The driver's error of this session, as its user sees it.
    fn error(
        &self,
        alloc: Global,
        d: &Driver,
        e: DriverError,
    ) -> Result<ConnectionError, OutOfMemory>
        ensures { (side : Side) (log : Log) (collected : ℕ) → Follows side d.now log collected → HasSession self.now side log → IfOk result (λ r. r ≡ reported_error side log self.now e) }
    {
        match e {
            DriverError::Proto(code) => Ok(ConnectionError::LocalH3Error(H3Error::new(code))),
            DriverError::ApplicationClosed(close) => Ok(ConnectionError::ApplicationClosed(close)),
            DriverError::NotConnected => {
                // This end ended it, whatever came of the connection since.
                if d.is_gone(self.session) {
                    return Ok(ConnectionError::LocallyClosed);
                }
                transport_error(alloc, d)
            }
        }
    }

    // ---- what the peer sends

    /// The session's next unidirectional stream of the peer, in the order in which their headers came
    /// (section 4.2).
    ///
    /// With none left the call is pending; where the session or the connection has ended the error says how.
    ///
    /// # Errors
    ///
    /// `OutOfMemory` where what is kept, or the error, found no memory.
    pub fn accept_uni(&mut self, alloc: Global, d: &mut Driver) -> Answered<RecvStream>
        ensures does { IfOk result (Does d.old d.new (HasSession self.old) (calls.AcceptUni (Some self.old)) (poll_reply replies.Uni)) }
        ensures same { self.new ≡ self.old }
        ensures pieces { OnOk result (pieces_of d.new ≤ pieces_of d.old) }
    {
        let answer = d.accept_uni(self.session)?;
        d.rests();
        match answer {
            Poll::Ready(Ok(stream)) => Ok(Poll::Ready(Ok(RecvStream::from(stream.into_stream())))),
            Poll::Ready(Err(e)) => Ok(Poll::Ready(Err(self.error(alloc, d, e)?))),
            Poll::Pending => Ok(Poll::Pending),
        }
    }

    /// The session's next bidirectional stream of the peer, in the order in which their headers came
    /// (section 4.3).
    ///
    /// With none left the call is pending; where the session or the connection has ended the error says how.
    ///
    /// # Errors
    ///
    /// `OutOfMemory` where what is kept, or the error, found no memory.
    pub fn accept_bi(&mut self, alloc: Global, d: &mut Driver) -> Answered<(SendStream, RecvStream)>
        ensures does { IfOk result (Does d.old d.new (HasSession self.old) (calls.AcceptBi (Some self.old)) (poll_reply (λ halves. replies.Bi halves.0))) }
        ensures halves { IfOk result (λ a. IfGiven a (λ halves. halves.1 ≡ halves.0)) }
        ensures same { self.new ≡ self.old }
        ensures pieces { OnOk result (pieces_of d.new ≤ pieces_of d.old) }
    {
        let answer = d.accept_bi(self.session)?;
        d.rests();
        match answer {
            Poll::Ready(Ok(stream)) => {
                let halves = stream.into_stream();
                let send = SendStream::from(halves.0);
                let recv = RecvStream::from(halves.1);
                Ok(Poll::Ready(Ok((send, recv))))
            }
            Poll::Ready(Err(e)) => Ok(Poll::Ready(Err(self.error(alloc, d, e)?))),
            Poll::Pending => Ok(Poll::Pending),
        }
    }

    /// The session's next datagram (RFC 9297, section 2.1), in the order in which they came.
    ///
    /// With none left the call is pending; where the session or the connection has ended the error says how.
    ///
    /// # Errors
    ///
    /// `OutOfMemory` where the datagram or the error found no memory.
    pub fn receive_datagram(&mut self, alloc: Global, d: &mut Driver) -> Answered<Datagram>
        ensures does { IfOk result (Does d.old d.new (HasSession self.old) (calls.ReceiveDatagram (Some self.old)) (poll_reply (λ (datagram : WaitingDatagram). replies.Datagram datagram.payload))) }
        ensures same { self.new ≡ self.old }
        ensures pieces { OnOk result (pieces_of d.new ≤ pieces_of d.old) }
    {
        let answer = d.receive_datagram(self.session)?;
        d.rests();
        match answer {
            Poll::Ready(Ok(datagram)) => Ok(Poll::Ready(Ok(datagram))),
            Poll::Ready(Err(e)) => Ok(Poll::Ready(Err(self.error(alloc, d, e)?))),
            Poll::Pending => Ok(Poll::Pending),
        }
    }

    // ---- what this end sends

    /// Begins to open a unidirectional stream of the session (section 4.2).
    ///
    /// Without credit for a stream the call is pending (RFC 9000, section 4.6); where the session or the
    /// connection has ended the error says how.
    ///
    /// # Errors
    ///
    /// `OutOfMemory` where what goes out, or the error, found no memory.
    pub fn open_uni(&mut self, alloc: Global, d: &mut Driver) -> Answered<OpeningUniStream>
        ensures does { IfOk result (Does d.old d.new (HasSession self.old) (calls.OpenUni (Some self.old)) (poll_reply (λ (o : OpeningStream). replies.Opening o.id))) }
        ensures opening { IfOk result (λ a. IfGiven a (IsNewOpening self.old)) }
        ensures same { self.new ≡ self.old }
        ensures pieces { OnOk result (pieces_of d.new ≤ pieces_of d.old) }
    {
        let answer = d.open_uni(self.session)?;
        d.rests();
        match answer {
            Poll::Ready(Ok(opening)) => Ok(Poll::Ready(Ok(opening))),
            Poll::Ready(Err(e)) => Ok(Poll::Ready(Err(self.error(alloc, d, e)?))),
            Poll::Pending => Ok(Poll::Pending),
        }
    }

    /// Begins to open a bidirectional stream of the session (section 4.3).
    ///
    /// Without credit for a stream the call is pending (RFC 9000, section 4.6); where the session or the
    /// connection has ended the error says how.
    ///
    /// # Errors
    ///
    /// `OutOfMemory` where what goes out, or the error, found no memory.
    pub fn open_bi(&mut self, alloc: Global, d: &mut Driver) -> Answered<OpeningBiStream>
        ensures does { IfOk result (Does d.old d.new (HasSession self.old) (calls.OpenBi (Some self.old)) (poll_reply (λ (o : OpeningStream). replies.Opening o.id))) }
        ensures opening { IfOk result (λ a. IfGiven a (IsNewOpening self.old)) }
        ensures same { self.new ≡ self.old }
        ensures pieces { OnOk result (pieces_of d.new ≤ pieces_of d.old) }
    {
        let answer = d.open_bi(self.session)?;
        d.rests();
        match answer {
            Poll::Ready(Ok(opening)) => Ok(Poll::Ready(Ok(opening))),
            Poll::Ready(Err(e)) => Ok(Poll::Ready(Err(self.error(alloc, d, e)?))),
            Poll::Pending => Ok(Poll::Pending),
        }
    }

    /// Sends a datagram of the session.
    ///
    /// The error inside is `NotConnected` where the session or the connection has ended, `Disabled` or
    /// `UnsupportedByPeer` where datagrams can't be sent, and `TooLarge` where the session's header and
    /// the payload are longer than one may be.
    ///
    /// # Errors
    ///
    /// `OutOfMemory` where the datagram found no memory.
    pub fn send_datagram(
        &mut self,
        _alloc: Global,
        d: &mut Driver,
        payload: &[u8],
    ) -> Result<Result<(), SendDatagramError>, OutOfMemory>
        ensures does { IfOk result (Does d.old d.new (HasSession self.old) (calls.SendDatagram payload.now (Some self.old)) datagram_reply) }
        ensures same { self.new ≡ self.old }
        ensures pieces { OnOk result (pieces_of d.new ≤ pieces_of d.old) }
    {
        d.send_datagram(self.session, payload)
    }

    /// The greatest payload of a datagram, in bytes; None where none can be sent.
    ///
    /// It takes no memory.
    pub fn max_datagram_size(&self, d: &mut Driver) -> Option<u64>
        ensures does { Does d.old d.new (HasSession self.now) (calls.MaxDatagramSize (Some self.now)) size_reply result }
        ensures pieces { pieces_of d.new ≤ pieces_of d.old }
    {
        d.rests();
        match d.datagram_fact() {
            Some(DatagramFact::Limit(limit)) => limit.checked_sub(
                Datagram::header_size(self.session) as u64,
            ),
            Some(DatagramFact::Disabled) => None,
            Some(DatagramFact::Unsupported) => None,
            None => None,
        }
    }

    // ---- the end

    /// Ends the session, where the connection is open and the session lives; the connection stays open.
    ///
    /// # Errors
    ///
    /// `OutOfMemory` where what goes out found no memory.
    pub fn end_session(&mut self, _alloc: Global, d: &mut Driver) -> Result<(), OutOfMemory>
        ensures does { IfOk result (Does d.old d.new (HasSession self.old) (calls.EndSession (Some self.old)) done_reply) }
        ensures same { self.new ≡ self.old }
        ensures pieces { OnOk result (pieces_of d.new ≤ pieces_of d.old) }
    {
        d.end_session(self.session)
    }

    /// Closes the connection with this code and reason, where it is open.
    ///
    /// # Errors
    ///
    /// `OutOfMemory` where the reason found no memory.
    pub fn close(
        &mut self,
        alloc: Global,
        d: &mut Driver,
        code: VarInt,
        reason: &[u8],
    ) -> Result<(), OutOfMemory>
        ensures does { IfOk result (Does d.old d.new HasAny (calls.Close code reason.now) done_reply) }
        ensures same { self.new ≡ self.old }
        ensures pieces { OnOk result (pieces_of d.new ≤ pieces_of d.old) }
    {
        d.close(code, Piece::from_slice(alloc, reason)?)?;
        d.rests();
        Ok(())
    }

    /// How the transport ended; pending while the connection is open.
    ///
    /// # Errors
    ///
    /// `OutOfMemory` where the error found no memory.
    pub fn closed(
        &mut self,
        alloc: Global,
        d: &mut Driver,
    ) -> Result<Poll<ConnectionError>, OutOfMemory>
        ensures does { IfOk result (Does d.old d.new HasAny calls.Closed closed_reply) }
        ensures same { self.new ≡ self.old }
        ensures pieces { OnOk result (pieces_of d.new ≤ pieces_of d.old) }
    {
        d.rests();
        if d.is_open() {
            return Ok(Poll::Pending);
        }
        Ok(Poll::Ready(transport_error(alloc, d)?))
    }
}
