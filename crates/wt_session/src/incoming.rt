//! The request for a session that a server is given (RFC 9220, section 3).
ghost use Rattle.std.specs.Prelude.{[], ◌≡◌, ◌≤◌, IfOk, OnOk, Some, codes, false};
ghost use Rattle.std.specs.Option.{option_copied};
ghost use Rattle.wt_meaning.specs.Lawful.{is_client};
ghost use Rattle.wt_message.specs.FixedBytes.{headers_frame_bytes, response_bytes};
ghost use Rattle.wt_driver_laws.specs.Calling.{Always, Does};
ghost use Rattle.wt_driver_laws.specs.Driving.{pieces_of};
ghost use Rattle.wt_driver_laws.specs.Having.{MayCall};
ghost use Rattle.wt_session.specs.Handshakes.{Queued, new_rejection, new_response};
ghost use Rattle.wt_session.specs.Replies.{incoming_reply};
ghost use Rattle.wt_sessions.specs.Handshake.{response_head};
ghost use Rattle.wt_turn.specs.declared.call.Call.TheVariants as calls;
ghost use Rattle.wt_wire.specs.HeaderList.{value_of};

use crate::accepting::Accepting;
use crate::connection::driver_error;
use crate::rejecting::Rejecting;
use crate::response::acceptance_frame;
use std::alloc::Global;
use std::marker::Model;
use wt_driver::Driver;
use wt_message::session::SessionResponse;
use wt_seam::StreamSession;
use wt_turn::connection_error::ConnectionError;
use wt_turn::poll::Poll;
use wt_wire::error::OutOfMemory;
use wt_wire::header_list::HeaderList;
use wt_wire::ids::SessionId;

/// A server's wait for a request, before it begins.
#[derive(Debug, Drop)]
pub struct IncomingSession;

/// A server's wait for a request (RFC 9220, section 3). It keeps nothing: what came is the driver's.
#[derive(Debug, Drop)]
pub struct IncomingSessionFuture;

/// A request for a session that a server was given, with its stream. Contracts see its stream's id and its fields.
///
/// ```text
/// IncomingSession --into_future--> IncomingSessionFuture --poll--> SessionRequest --accept ..--> Accepting --poll--> Connection
///                                                                                 --forbidden ..--> Rejecting --poll--> over
/// ```
#[derive(Drop)]
pub struct SessionRequest {
    stream: StreamSession,
}

impl Model for SessionRequest {
    ghost use Rattle.std.specs.Prelude.{◌≡◌};
    ghost use Rattle.wt_session.specs.Replies.{Request};
    ghost use Rattle.wt_seam.specs.Typed.{both};
    ghost use Rattle.wt_seam.specs.Writing.{nothing_begun};

    ghost Value = { Request };

    ghost view = { λ r. record { id = r.stream.halves.0.id; fields = r.stream.stage.request } };

    ghost invariant = { λ r. (r.stream.stage.session ≡ r.stream.halves.0.id) × (r.stream.stage.writing ≡ nothing_begun) };
}

impl IncomingSession {
    /// The state for the next request: for the first, or once the one before was answered. It takes no memory.
    pub fn new() -> IncomingSession {
        IncomingSession
    }

    /// The state for the request after this one, once this one is answered. It takes no memory.
    pub fn again() -> IncomingSession {
        IncomingSession
    }

    /// The wait begins.
    pub fn into_future(self) -> IncomingSessionFuture {
        IncomingSessionFuture
    }
}

impl IncomingSessionFuture {
    /// The queued request is given, once the peer's SETTINGS came; without one the call waits.
    ///
    /// # Errors
    ///
    /// `OutOfMemory` where the request or the error found no memory. The `ConnectionError` is how the
    /// connection ended, as the driver reports it.
    pub fn poll(
        &mut self,
        alloc: Global,
        d: &mut Driver,
    ) -> Result<Poll<Result<SessionRequest, ConnectionError>>, OutOfMemory>
        ensures does { IfOk result (Does d.old d.new (MayCall calls.Incoming) calls.Incoming incoming_reply) }
        ensures pieces { OnOk result (pieces_of d.new ≤ pieces_of d.old) }
    {
        match queued_request(d)? {
            Some(request) => Ok(Poll::Ready(Ok(request))),
            None => {
                d.rests();
                if d.is_open() {
                    return Ok(Poll::Pending);
                }
                Ok(Poll::Ready(Err(driver_error(alloc, d)?)))
            }
        }
    }
}

/// The request that is queued, once the peer's SETTINGS came: a session is established only after them (RFC 9114,
/// section 7.2.4.2; draft-ietf-webtrans-http3, section 3.1).
fn queued_request(d: &mut Driver) -> Result<Option<SessionRequest>, OutOfMemory>
    ensures queued { IfOk result (λ r. Always d.old (λ side log collected. is_client side ≡ false → Queued side log collected d.old d.new r)) }
    ensures pieces { OnOk result (pieces_of d.new ≤ pieces_of d.old) }
{
    if !d.settings_came() {
        return Ok(None);
    }
    match d.accept_session()? {
        Poll::Ready(Ok(stream)) => Ok(Some(SessionRequest { stream })),
        Poll::Ready(Err(_)) => Ok(None),
        Poll::Pending => Ok(None),
    }
}

impl SessionRequest {
    /// The session that it asks for.
    pub fn session_id(&self) -> SessionId
        ensures { result ≡ self.now.id }
    {
        self.stream.session_id()
    }

    /// The value of `:authority`.
    pub fn authority(&self) -> &str
        ensures { value_of (codes ":authority") self.now.fields ≡ Some result.now }
    {
        self.stream.request().authority()
    }

    /// The value of `:path`.
    pub fn path(&self) -> &str
        ensures { value_of (codes ":path") self.now.fields ≡ Some result.now }
    {
        self.stream.request().path()
    }

    /// The value of `origin`; `None` exactly where there is none.
    pub fn origin(&self) -> Option<&str>
        ensures { option_copied result ≡ value_of (codes "origin") self.now.fields }
    {
        self.stream.request().origin()
    }

    /// The value of `user-agent`; `None` exactly where there is none.
    pub fn user_agent(&self) -> Option<&str>
        ensures { option_copied result ≡ value_of (codes "user-agent") self.now.fields }
    {
        self.stream.request().user_agent()
    }

    /// The fields in their order.
    pub fn headers(&self) -> &HeaderList
        ensures { result.now ≡ self.now.fields }
    {
        self.stream.request().headers()
    }

    /// The request is accepted.
    ///
    /// # Errors
    ///
    /// `OutOfMemory` where the response found no memory.
    pub fn accept(self, alloc: Global) -> Result<Accepting, OutOfMemory>
        ensures { IfOk result (λ a. a ≡ new_response self.id (response_head (codes "200") [])) }
    {
        // An acceptance without further fields is one with none.
        self.accept_with_headers(alloc, HeaderList::new(alloc))
    }

    /// The request is accepted, and its response has these fields too; a `:status` among them is left
    /// out.
    ///
    /// # Errors
    ///
    /// `OutOfMemory` where the response found no memory.
    pub fn accept_with_headers(
        self,
        alloc: Global,
        headers: HeaderList,
    ) -> Result<Accepting, OutOfMemory>
        ensures { IfOk result (λ a. a ≡ new_response self.id (response_head (codes "200") headers)) }
    {
        let response = acceptance_frame(alloc, &headers)?;
        Ok(Accepting::new(self.stream, response))
    }

    /// The request is rejected by this response.
    fn reject(self, response: SessionResponse) -> Result<Rejecting, OutOfMemory>
        ensures { IfOk result (λ r. r ≡ new_rejection self.id (headers_frame_bytes response)) }
    {
        Ok(Rejecting::new(self.stream, response.generate_frame()?))
    }

    /// The request is rejected, by status 403.
    ///
    /// # Errors
    ///
    /// `OutOfMemory` where the response found no memory.
    pub fn forbidden(self, alloc: Global) -> Result<Rejecting, OutOfMemory>
        ensures { IfOk result (λ r. r ≡ new_rejection self.id (response_bytes (codes "403"))) }
    {
        self.reject(SessionResponse::forbidden(alloc)?)
    }

    /// The request is rejected, by status 404.
    ///
    /// # Errors
    ///
    /// `OutOfMemory` where the response found no memory.
    pub fn not_found(self, alloc: Global) -> Result<Rejecting, OutOfMemory>
        ensures { IfOk result (λ r. r ≡ new_rejection self.id (response_bytes (codes "404"))) }
    {
        self.reject(SessionResponse::not_found(alloc)?)
    }

    /// The request is rejected, by status 429.
    ///
    /// # Errors
    ///
    /// `OutOfMemory` where the response found no memory.
    pub fn too_many_requests(self, alloc: Global) -> Result<Rejecting, OutOfMemory>
        ensures { IfOk result (λ r. r ≡ new_rejection self.id (response_bytes (codes "429"))) }
    {
        self.reject(SessionResponse::too_many_requests(alloc)?)
    }
}
