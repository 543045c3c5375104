//! What the verdict of a stream leads to, and where a datagram goes.
ghost use Rattle.std.specs.Prelude.{◌≡◌, OnOk, not};
ghost use Rattle.wt_kept.specs.Classifying.{admit_request, admit_stream, classify_now, fail_with, refuse_request, stop_and_give_up, with_control, with_decoder, with_encoder};
ghost use Rattle.wt_kept.specs.Looking.{admit_parsed};
ghost use Rattle.wt_message.specs.Datagram.{datagram_of};

use super::Dispatched;
use super::ending::give_up;
use crate::critical::set_once;
use crate::datagram::Datagram;
use crate::gone::SessionEnd;
use crate::reading::Reading;
use crate::window::Admission;
use wt_proto::ControlReader;
use wt_proto::session::SessionRequest;
use wt_proto::verdict::Verdict;
use wt_transport::Transport;
use wt_turn::piece::Piece;
use wt_wire::error::{ErrorCode, OutOfMemory};
use wt_wire::ids::{SessionId, StreamId};

/// The stream's receiving half is stopped, and nothing of it is kept.
fn refuse_stream(t: &mut Transport, id: StreamId, code: ErrorCode) -> Result<(), OutOfMemory>
    ensures { OnOk result (t.new ≡ stop_and_give_up code t.old id) }
{
    if t.can_receive(id) {
        t.stop(id, code.to_code())?;
        t.give_up(id);
    }
    Ok(())
}

impl Dispatched {
    /// The control stream comes once (RFC 9114, section 6.2.1).
    fn set_control(&mut self, id: StreamId)
        ensures { self.new ≡ with_control self.old.critical.control id self.old }
    {
        if self.critical.control.is_some() {
            self.fail(ErrorCode::StreamCreation);
            return;
        }
        let reader = ControlReader::new(self.alloc);
        self.critical.control = Some(Reading { id, reader });
    }

    /// The encoder's stream comes once (RFC 9204, section 4.2).
    fn set_encoder(&mut self, id: StreamId)
        ensures { self.new ≡ with_encoder self.old.critical.encoder id self.old }
    {
        if !set_once(&mut self.critical.encoder, id) {
            self.fail(ErrorCode::StreamCreation);
        }
    }

    /// The decoder's stream comes once (RFC 9204, section 4.2).
    fn set_decoder(&mut self, id: StreamId)
        ensures { self.new ≡ with_decoder self.old.critical.decoder id self.old }
    {
        if !set_once(&mut self.critical.decoder, id) {
            self.fail(ErrorCode::StreamCreation);
        }
    }

    /// What a stream's verdict leads to. What comes on QPACK's streams are instructions for tables, which neither end uses here
    /// (RFC 9204, section 4.2).
    #[tactic(auto, unfolding(wt_kept::specs::Classifying::classify_now))]
    pub fn classify(
        &mut self,
        t: &mut Transport,
        id: StreamId,
        verdict: Verdict,
    ) -> Result<(), OutOfMemory>
        ensures { OnOk result (record { transport = t.new; dispatched = self.new } ≡ classify_now id verdict (record { transport = t.old; dispatched = self.old })) }
    {
        match verdict {
            Verdict::Control(_) => self.set_control(id),
            Verdict::Encoder(_) => {
                give_up(t, id);
                self.set_encoder(id);
            }
            Verdict::Decoder(_) => {
                give_up(t, id);
                self.set_decoder(id);
            }
            Verdict::WebTransport(session, _) => self.admit_stream(t, id, session)?,
            Verdict::Request(request, _) => self.admit_request(t, id, request)?,
            Verdict::Refused(code) => self.refuse_request(t, id, code)?,
            Verdict::Dropped => give_up(t, id),
            Verdict::Fault(code) => self.fail(code),
            Verdict::Incomplete => {}
        }
        Ok(())
    }

    /// A stream of a session waits in its window; without a place there, or where the session is gone, it is stopped
    /// (draft-ietf-webtrans-http3, sections 4.5 and 5).
    fn admit_stream(
        &mut self,
        t: &mut Transport,
        id: StreamId,
        session: SessionId,
    ) -> Result<(), OutOfMemory>
        ensures { OnOk result (record { transport = t.new; dispatched = self.new } ≡ admit_stream id session (record { transport = t.old; dispatched = self.old })) }
    {
        match self.sessions.admit_stream(id, session)? {
            Admission::Admitted => Ok(()),
            Admission::Full => refuse_stream(t, id, ErrorCode::BufferedStreamRejected),
            Admission::Gone => refuse_stream(t, id, ErrorCode::SessionGone),
        }
    }

    /// A request is queued, where fewer than 4 are held. H3_REQUEST_REJECTED says that nothing of a further one was processed,
    /// so that it may be tried again (RFC 9114, section 4.1.1).
    fn admit_request(
        &mut self,
        t: &mut Transport,
        id: StreamId,
        request: SessionRequest,
    ) -> Result<(), OutOfMemory>
        ensures { OnOk result (record { transport = t.new; dispatched = self.new } ≡ admit_request id request (record { transport = t.old; dispatched = self.old })) }
    {
        if self.requests.admit(id, request)? {
            return Ok(());
        }
        self.refuse_request(t, id, ErrorCode::RequestRejected)
    }

    /// The request alone is refused, and the connection goes on (RFC 9114, section 4.1.2); its session is gone.
    fn refuse_request(
        &mut self,
        t: &mut Transport,
        id: StreamId,
        code: ErrorCode,
    ) -> Result<(), OutOfMemory>
        ensures { OnOk result (record { transport = t.new; dispatched = self.new } ≡ refuse_request id code (record { transport = t.old; dispatched = self.old })) }
    {
        refuse_stream(t, id, code)?;
        match SessionId::try_from_session_stream(id) {
            Some(session) => self.retire(t, session, SessionEnd::Refused),
            // A client's peer opens no session's stream.
            None => Ok(()),
        }
    }

    /// A datagram waits in its session's window; without a place there, or where the session is gone, it is dropped. One that is
    /// none is a fault of the connection (RFC 9297, section 2.1).
    pub fn admit_datagram(&mut self, piece: Piece) -> Result<(), OutOfMemory>
        ensures { OnOk result (self.new ≡ admit_parsed (datagram_of piece) self.old) }
    {
        match Datagram::read(piece) {
            Ok(datagram) => {
                let _admission = self.sessions.admit_datagram(datagram)?;
            }
            Err(code) => self.fail(code),
        }
        Ok(())
    }
}
