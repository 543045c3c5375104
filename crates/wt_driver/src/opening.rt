//! Streams that are being opened for a session.
ghost use Rattle.std.specs.Prelude.{◌≡◌, ◌≤◌, IfOk, OnOk, false, true};
ghost use Rattle.wt_driver_laws.specs.Calling.{Always, Does};
ghost use Rattle.wt_driver_laws.specs.Driving.{pieces_of};
ghost use Rattle.wt_driver_laws.specs.Having.{HasOpening, StillOpens};
ghost use Rattle.wt_driver_laws.specs.Opening.{new_opening, opening_failure, polled_now};
ghost use Rattle.wt_driver_laws.specs.Replies.{IfGiven, ready_reply};
ghost use Rattle.wt_sessions.specs.Connection.{stream_header};
ghost use Rattle.wt_turn.specs.declared.call.Call.TheVariants as calls;
ghost use Rattle.wt_turn.specs.declared.reply.Reply.TheVariants as replies;

use crate::driver::Driver;
use crate::halves::{RecvStream, SendStream};
use crate::send_stream;
use std::alloc::Global;
use std::marker::Model;
use wt_proto::stream_header::StreamHeader;
use wt_transport::{QuicRecvStream, QuicSendStream};
use wt_turn::poll::Poll;
use wt_turn::stream_error::{StreamOpeningError, StreamWriteError};
use wt_wire::error::OutOfMemory;
use wt_wire::frame::Frame;
use wt_wire::ids::{SessionId, StreamId};

/// What begins a stream of the session: the signal on a bidirectional one, the header on the others (draft-ietf-webtrans-http3,
/// sections 4.2 and 4.3).
fn header_of(alloc: Global, id: StreamId, session: SessionId) -> Result<Vec<u8>, OutOfMemory>
    ensures { IfOk result (λ bytes. bytes.items ≡ stream_header id session) }
{
    let mut bytes = Vec::new(alloc);
    if id.is_bidirectional() {
        Frame::new_webtransport(alloc, session).write(&mut bytes)?;
    } else {
        StreamHeader::new_webtransport(session).write(&mut bytes)?;
    }
    Ok(bytes)
}

/// Why an opening fails whose header can't be written.
fn opening_failure(error: StreamWriteError) -> StreamOpeningError
    ensures { result ≡ opening_failure error }
{
    match error {
        StreamWriteError::Stopped(_) => StreamOpeningError::Refused,
        _ => StreamOpeningError::NotConnected,
    }
}

/// A stream that is being opened: its sending half, its session, and its header, of which so many bytes are out.
#[derive(Debug, Drop)]
pub(crate) struct Opening {
    half: QuicSendStream,
    session: SessionId,
    header: Vec<u8>,
    out: usize,
}

impl Model for Opening {
    ghost use Rattle.std.specs.Prelude.{◌≤◌, drop, length};
    ghost use Rattle.wt_driver_laws.specs.Having.{OpeningStream};

    ghost Value = { OpeningStream };

    ghost view = { λ o. record { id = o.half.id; session = o.session; left = drop o.out o.header.items } };

    ghost invariant = { λ o. o.out ≤ length o.header.items };
}

impl Opening {
    /// Nothing of the header is out.
    pub(crate) fn begin(
        alloc: Global,
        id: StreamId,
        session: SessionId,
    ) -> Result<Opening, OutOfMemory>
        ensures { IfOk result (λ o. o ≡ new_opening session id) }
    {
        Ok(Opening {
            half: QuicSendStream::new(id),
            session,
            header: header_of(alloc, id, session)?,
            out: 0,
        })
    }

    /// A half for sending on the stream.
    fn sending(&self) -> SendStream
        ensures { result ≡ self.now.id }
    {
        SendStream::from(QuicSendStream::new(self.half.id()))
    }

    /// A half for receiving on it.
    fn receiving(&self) -> RecvStream
        ensures { result ≡ self.now.id }
    {
        RecvStream::from(QuicRecvStream::new(self.half.id()))
    }

    /// Sends what is left of the header, as far as credit goes.
    fn send(&mut self, d: &mut Driver) -> Result<Poll<Result<(), StreamOpeningError>>, OutOfMemory>
        ensures polled { IfOk result (λ answer. record { answer = answer; left = self.new.left; driver = d.new } ≡ polled_now tt self.old d.old) }
        ensures same { record self.new { left = self.old.left } ≡ self.old }
    {
        // The end of its session reset the stream.
        if !d.lives(self.session) {
            return Ok(Poll::Ready(Err(StreamOpeningError::NotConnected)));
        }
        match send_stream::write(&mut self.half, d, &self.header[self.out..])? {
            Poll::Ready(Ok(count)) => {
                self.out += count;
                if self.out < self.header.len() {
                    return Ok(Poll::Pending);
                }
                Ok(Poll::Ready(Ok(())))
            }
            Poll::Ready(Err(error)) => Ok(Poll::Ready(Err(opening_failure(error)))),
            Poll::Pending => Ok(Poll::Pending),
        }
    }
}

/// A unidirectional stream that is being opened. Contracts see its id, its session, and what of its header isn't out.
///
/// ```text
/// being opened --poll, a rest of the header lacks credit--> being opened
///              --poll, all of it is out--> the half is given
///              --poll, the connection or the session ended, or the peer stopped the stream--> failed
/// ```
#[derive(Debug, Drop)]
pub struct OpeningUniStream {
    pub(crate) opening: Opening,
}

impl Model for OpeningUniStream {
    ghost use Rattle.wt_driver_laws.specs.Having.{OpeningStream};

    ghost Value = { OpeningStream };

    ghost view = { λ o. o.opening };
}

/// A bidirectional stream that is being opened, alike.
#[derive(Debug, Drop)]
pub struct OpeningBiStream {
    pub(crate) opening: Opening,
}

impl Model for OpeningBiStream {
    ghost use Rattle.wt_driver_laws.specs.Having.{OpeningStream};

    ghost Value = { OpeningStream };

    ghost view = { λ o. o.opening };
}

impl OpeningUniStream {
    /// The stream.
    pub fn id(&self) -> StreamId
        ensures { result ≡ self.now.id }
    {
        self.opening.half.id()
    }

    /// The session.
    pub fn session_id(&self) -> SessionId
        ensures { result ≡ self.now.session }
    {
        self.opening.session
    }

    /// Sends the stream's header as far as credit goes, and gives the stream once it is out (draft-ietf-webtrans-http3, section
    /// 4.2). It isn't polled again once it was ready. Fails with `NotConnected` where the connection isn't open or the session is
    /// gone, and with `Refused` where the peer stopped the stream.
    ///
    /// # Errors
    ///
    /// `OutOfMemory` where what goes out found no memory.
    pub fn poll(
        &mut self,
        d: &mut Driver,
    ) -> Result<Poll<Result<SendStream, StreamOpeningError>>, OutOfMemory>
        ensures polled { IfOk result (λ answer. record { answer = answer; left = self.new.left; driver = d.new } ≡ polled_now self.old.id self.old d.old) }
        ensures same { record self.new { left = self.old.left } ≡ self.old }
        ensures does { IfOk result (Does d.old d.new (HasOpening false self.old) (calls.PollOpening self.old.id) (ready_reply replies.SendReady)) }
        ensures goes_on { IfOk result (λ answer. Always d.old (StillOpens false self.old self.new answer)) }
        ensures pieces { OnOk result (pieces_of d.new ≤ pieces_of d.old) }
    {
        match self.opening.send(d)? {
            Poll::Ready(Ok(())) => Ok(Poll::Ready(Ok(self.opening.sending()))),
            Poll::Ready(Err(error)) => Ok(Poll::Ready(Err(error))),
            Poll::Pending => Ok(Poll::Pending),
        }
    }
}

impl OpeningBiStream {
    /// The stream.
    pub fn id(&self) -> StreamId
        ensures { result ≡ self.now.id }
    {
        self.opening.half.id()
    }

    /// The session.
    pub fn session_id(&self) -> SessionId
        ensures { result ≡ self.now.session }
    {
        self.opening.session
    }

    /// Sends the stream's signal as far as credit goes, and gives both halves once it is out (draft-ietf-webtrans-http3, section
    /// 4.3), alike.
    ///
    /// # Errors
    ///
    /// `OutOfMemory` where what goes out found no memory.
    pub fn poll(
        &mut self,
        d: &mut Driver,
    ) -> Result<Poll<Result<(SendStream, RecvStream), StreamOpeningError>>, OutOfMemory>
        ensures polled { IfOk result (λ answer. record { answer = answer; left = self.new.left; driver = d.new } ≡ polled_now (self.old.id, self.old.id) self.old d.old) }
        ensures same { record self.new { left = self.old.left } ≡ self.old }
        ensures does { IfOk result (Does d.old d.new (HasOpening true self.old) (calls.PollOpening self.old.id) (ready_reply (λ halves. replies.BiReady halves.0))) }
        ensures halves { IfOk result (λ answer. IfGiven answer (λ halves. halves.1 ≡ halves.0)) }
        ensures goes_on { IfOk result (λ answer. Always d.old (StillOpens true self.old self.new answer)) }
        ensures pieces { OnOk result (pieces_of d.new ≤ pieces_of d.old) }
    {
        match self.opening.send(d)? {
            Poll::Ready(Ok(())) => Ok(Poll::Ready(Ok((
                self.opening.sending(),
                self.opening.receiving(),
            )))),
            Poll::Ready(Err(error)) => Ok(Poll::Ready(Err(error))),
            Poll::Pending => Ok(Poll::Pending),
        }
    }
}
