//! Requests for a session and the responses to them (RFC 9220, section 3; RFC 9114, section 4.3).
ghost use Rattle.std.specs.Prelude.{IfOk, OnOk, OnErr, is_err, if◌then◌else◌, ◌≡◌, nat_eq, codes, is_some, is_none, true, false, Some, None, Ok, Err};
ghost use Rattle.std.specs.Option.{option_copied};
ghost use Rattle.std.specs.Str.{bytes_eq};
ghost use Rattle.wt_message.specs.Requests.{is_session_request, is_reserved, is_value, request_fields, request_of, request_with};
ghost use Rattle.wt_message.specs.Responses.{response_of, status_fields, status_of, with_added};
ghost use Rattle.wt_wire.specs.FieldSection.{AreShort, headers_of, section_bytes};
ghost use Rattle.wt_wire.specs.HeaderList.{value_of, with_field};
ghost use Rattle.wt_wire.specs.Status.{status_code};
ghost use Rattle.wt_wire.specs.declared.frame.FrameKind.TheVariants as kinds;
ghost use Rattle.wt_message.specs.declared.session.HeadersParseError.TheVariants as errors;

use std::alloc::Global;
use std::marker::Model;
use thiserror::Error;
use wt_wire::error::OutOfMemory;
use wt_wire::frame::Frame;
use wt_wire::header_list::HeaderList;
use wt_wire::headers::Headers;
use wt_wire::status::StatusCode;

/// Why fields aren't a request for a session.
#[derive(Clone, Copy, Debug, PartialEq, Eq, Error)]
pub enum HeadersParseError {
    /// There is a `:method`, and it isn't `CONNECT`.
    #[error("the method isn't CONNECT")]
    MethodNotConnect,
    /// `:method` is missing, or another field that a request needs is missing or has another value.
    #[error("a field of a request for a session is missing or has another value")]
    Other,
}

/// The name is one of the five that a request has: `:method`, `:scheme`, `:protocol`,
/// `:authority` or `:path`.
#[derive(Clone, Copy, Debug, PartialEq, Eq, Error)]
#[error("a request sets this field itself")]
pub struct ReservedHeader;

/// The fields have no `:status`, or one that is no status code.
#[derive(Clone, Copy, Debug, PartialEq, Eq, Error)]
#[error("the response has no status code")]
pub struct BadStatus;

/// A request for a session (RFC 9220, section 3).
#[derive(Debug, Drop)]
pub struct SessionRequest {
    headers: Headers,
}

impl Model for SessionRequest {
    ghost use Rattle.std.specs.Prelude.{List, ℕ, Ok, ◌≡◌};
    ghost use Rattle.wt_message.specs.Requests.{request_of};

    ghost Value = { List (List ℕ × List ℕ) };

    ghost view = { λ r. r.headers };

    ghost invariant = { λ r. request_of r.headers ≡ Ok r.headers };
}

fn is_same(a: &str, b: &str) -> bool
    ensures { result ≡ bytes_eq a.now b.now }
{
    a.as_bytes() == b.as_bytes()
}

fn has_value(headers: &Headers, name: &str, value: &str) -> bool
    ensures { result ≡ is_value value.now (value_of name.now headers.now) }
{
    match headers.get(name) {
        Some(text) => is_same(text, value),
        None => false,
    }
}

fn has(headers: &Headers, name: &str) -> bool
    ensures { result ≡ is_some (value_of name.now headers.now) }
{
    headers.get(name).is_some()
}

fn is_for_session(headers: &Headers) -> bool
    ensures { result ≡ is_session_request headers.now }
{
    // What makes a CONNECT extended, and one for WebTransport (RFC 9220, section 3; draft-ietf-webtrans-
    // http3, section 3.2).
    has_value(headers, ":scheme", "https")
        && has_value(headers, ":protocol", "webtransport")
        && has(headers, ":authority")
        && has(headers, ":path")
}

fn is_reserved(name: &str) -> bool
    ensures { result ≡ is_reserved name.now }
{
    is_same(name, ":method")
        || is_same(name, ":scheme")
        || is_same(name, ":protocol")
        || is_same(name, ":authority")
        || is_same(name, ":path")
}

/// The five fields of a request for a session at this path of this authority.
fn request_headers(alloc: Global, authority: &str, path: &str) -> Result<Headers, OutOfMemory>
    ensures { IfOk result (λ h. h ≡ request_fields authority.now path.now) }
{
    let mut headers = Headers::new(alloc);
    headers.insert(":method", "CONNECT")?;
    headers.insert(":scheme", "https")?;
    headers.insert(":protocol", "webtransport")?;
    headers.insert(":authority", authority)?;
    headers.insert(":path", path)?;
    Ok(headers)
}

impl SessionRequest {
    /// The request for a session at this path of this authority.
    #[tactic(auto, using(crate::proofs::RequestLaws::five_are_request))]
    pub fn new(alloc: Global, authority: &str, path: &str) -> Result<SessionRequest, OutOfMemory>
        ensures { IfOk result (λ r. r ≡ request_fields authority.now path.now) }
    {
        let headers = request_headers(alloc, authority, path)?;
        Ok(SessionRequest { headers })
    }

    /// The fields as a request. It needs `:method` CONNECT, `:scheme` https, `:protocol`
    /// webtransport, and any `:authority` and `:path`.
    #[tactic(auto, unfolding(crate::specs::Requests::request_of))]
    pub fn try_from(headers: Headers) -> Result<SessionRequest, HeadersParseError>
        ensures outcome { result ≡ request_of headers }
        ensures fields { IfOk result (λ r. r ≡ headers) }
        ensures other_method { result ≡ Err errors.MethodNotConnect → is_value (codes "CONNECT") (value_of (codes ":method") headers) ≡ false }
    {
        if !has(&headers, ":method") {
            return Err(HeadersParseError::Other);
        }
        // Its own answer, since a request of plain HTTP/3 isn't a faulty one: it is refused, and the
        // connection goes on.
        if !has_value(&headers, ":method", "CONNECT") {
            return Err(HeadersParseError::MethodNotConnect);
        }
        if !is_for_session(&headers) {
            return Err(HeadersParseError::Other);
        }
        Ok(SessionRequest { headers })
    }

    /// Puts a field, in place of the one with an equal name; refused exactly for the five names
    /// that a request has. Where memory is short, nothing changes.
    #[tactic(auto, using(crate::proofs::RequestLaws::request_kept))]
    pub fn insert(
        &mut self,
        key: &str,
        value: &str,
    ) -> Result<Result<(), ReservedHeader>, OutOfMemory>
        ensures answer { IfOk result (λ r. is_err r ≡ is_reserved key.now) }
        ensures state { OnOk result (self.new ≡ (if is_reserved key.now then self.old else with_field key.now value.now self.old)) }
        ensures err { OnErr result (self.new ≡ self.old) }
    {
        // Else an application could turn a request for a session into another request.
        if is_reserved(key) {
            return Ok(Err(ReservedHeader));
        }
        self.headers.insert(key, value)?;
        Ok(Ok(()))
    }

    /// The value of `:authority`.
    pub fn authority(&self) -> &str
        ensures { value_of (codes ":authority") self.now ≡ Some result.now }
    {
        self.headers.get(":authority").unwrap()
    }

    /// The value of `:path`.
    pub fn path(&self) -> &str
        ensures { value_of (codes ":path") self.now ≡ Some result.now }
    {
        self.headers.get(":path").unwrap()
    }

    /// The value of `origin`; `None` exactly where there is none.
    pub fn origin(&self) -> Option<&str>
        ensures { option_copied result ≡ value_of (codes "origin") self.now }
    {
        self.headers.get("origin")
    }

    /// The value of `user-agent`; `None` exactly where there is none.
    pub fn user_agent(&self) -> Option<&str>
        ensures { option_copied result ≡ value_of (codes "user-agent") self.now }
    {
        self.headers.get("user-agent")
    }

    /// A request with the same fields.
    ///
    /// # Errors
    ///
    /// `OutOfMemory` where they found no memory.
    pub fn copy(&self) -> Result<SessionRequest, OutOfMemory>
        ensures { IfOk result (λ r. r ≡ self.now) }
    {
        Ok(SessionRequest {
            headers: self.headers.copy()?,
        })
    }

    /// The fields in their order.
    pub fn headers(&self) -> &HeaderList
        ensures fields { result.now ≡ self.now }
        ensures request { request_of self.now ≡ Ok self.now }
    {
        self.headers.list()
    }

    /// A HEADERS frame of its fields.
    pub fn generate_frame(&self) -> Result<Frame, OutOfMemory>
        ensures frame { IfOk result (λ f. f ≡ record { kind = kinds.Headers; payload = section_bytes self.now; session = None }) }
        ensures again { AreShort self.now → IfOk result (λ f. headers_of f.payload ≡ Ok self.now) }
    {
        self.headers.generate_frame()
    }
}

/// A response to a request for a session: fields with a status code.
#[derive(Debug, Drop)]
pub struct SessionResponse {
    headers: Headers,
}

impl Model for SessionResponse {
    ghost use Rattle.std.specs.Prelude.{List, ℕ, Ok, ◌≡◌};
    ghost use Rattle.wt_message.specs.Responses.{response_of};

    ghost Value = { List (List ℕ × List ℕ) };

    ghost view = { λ r. r.headers };

    ghost invariant = { λ r. response_of r.headers ≡ Ok r.headers };
}

/// The one field of a response with this status.
fn status_headers(alloc: Global, status: &str) -> Result<Headers, OutOfMemory>
    ensures { IfOk result (λ h. h ≡ status_fields status.now) }
{
    let mut headers = Headers::new(alloc);
    headers.insert(":status", status)?;
    Ok(headers)
}

fn status_in(headers: &Headers) -> Option<StatusCode>
    ensures { result ≡ status_of headers.now }
{
    StatusCode::try_from_text(headers.get(":status")?)
}

impl SessionResponse {
    #[tactic(auto, using(crate::proofs::ResponseLaws::status_is_response))]
    fn with_status(alloc: Global, status: &str) -> Result<SessionResponse, OutOfMemory>
        requires { is_some (status_code status.now) ≡ true }
        ensures { IfOk result (λ r. r ≡ status_fields status.now) }
    {
        let headers = status_headers(alloc, status)?;
        Ok(SessionResponse { headers })
    }

    /// The response that accepts a session: 200.
    pub fn ok(alloc: Global) -> Result<SessionResponse, OutOfMemory>
        ensures { IfOk result (λ r. r ≡ status_fields (codes "200")) }
    {
        SessionResponse::with_status(alloc, "200")
    }

    /// The response that says that the client may not have the session: 403.
    pub fn forbidden(alloc: Global) -> Result<SessionResponse, OutOfMemory>
        ensures { IfOk result (λ r. r ≡ status_fields (codes "403")) }
    {
        SessionResponse::with_status(alloc, "403")
    }

    /// The response that says that there is no such path: 404.
    pub fn not_found(alloc: Global) -> Result<SessionResponse, OutOfMemory>
        ensures { IfOk result (λ r. r ≡ status_fields (codes "404")) }
    {
        SessionResponse::with_status(alloc, "404")
    }

    /// The response that says that there are too many requests: 429.
    pub fn too_many_requests(alloc: Global) -> Result<SessionResponse, OutOfMemory>
        ensures { IfOk result (λ r. r ≡ status_fields (codes "429")) }
    {
        SessionResponse::with_status(alloc, "429")
    }

    /// The fields as a response, which needs a `:status` of three decimal digits from 100 to 599.
    #[tactic(auto, unfolding(crate::specs::Responses::response_of))]
    pub fn try_from(headers: Headers) -> Result<SessionResponse, BadStatus>
        ensures outcome { result ≡ response_of headers }
        ensures fields { IfOk result (λ r. r ≡ headers) }
        ensures no_status { is_err result ≡ is_none (status_of headers) }
    {
        match status_in(&headers) {
            Some(_) => Ok(SessionResponse { headers }),
            None => Err(BadStatus),
        }
    }

    /// Puts a field, in place of the one with an equal name; a `:status` changes nothing. Where
    /// memory is short, nothing changes.
    #[tactic(auto, using(crate::proofs::ResponseLaws::response_kept))]
    pub fn add(&mut self, key: &str, value: &str) -> Result<(), OutOfMemory>
        ensures ok { OnOk result (self.new ≡ with_added key.now value.now self.old) }
        ensures err { OnErr result (self.new ≡ self.old) }
    {
        // The status is what the response is made with.
        if is_same(key, ":status") {
            return Ok(());
        }
        self.headers.insert(key, value)
    }

    /// The status code.
    #[tactic(auto, using(crate::proofs::ResponseLaws::has_status))]
    pub fn code(&self) -> StatusCode
        ensures { status_of self.now ≡ Some result }
    {
        status_in(&self.headers).unwrap()
    }

    /// A response with the same fields.
    ///
    /// # Errors
    ///
    /// `OutOfMemory` where they found no memory.
    pub fn copy(&self) -> Result<SessionResponse, OutOfMemory>
        ensures { IfOk result (λ r. r ≡ self.now) }
    {
        Ok(SessionResponse {
            headers: self.headers.copy()?,
        })
    }

    /// The fields in their order.
    pub fn headers(&self) -> &HeaderList
        ensures fields { result.now ≡ self.now }
        ensures response { response_of self.now ≡ Ok self.now }
    {
        self.headers.list()
    }

    /// A HEADERS frame of its fields.
    pub fn generate_frame(&self) -> Result<Frame, OutOfMemory>
        ensures frame { IfOk result (λ f. f ≡ record { kind = kinds.Headers; payload = section_bytes self.now; session = None }) }
        ensures again { AreShort self.now → IfOk result (λ f. headers_of f.payload ≡ Ok self.now) }
    {
        self.headers.generate_frame()
    }
}
