//! A client's connect (RFC 9220, section 3).
ghost use Rattle.std.specs.Prelude.{[], ◌∷◌, ◌≡◌, ◌≢◌, ◌≤◌, IfOk, OnOk, false, true, ℕ};
ghost use Rattle.wt_driver_laws.specs.Calling.{Always, Did, Does, Within};
ghost use Rattle.wt_driver_laws.specs.Driving.{Follows, pieces_of};
ghost use Rattle.wt_driver_laws.specs.Having.{MayCall};
ghost use Rattle.wt_meaning.specs.Lawful.{is_client};
ghost use Rattle.wt_session.specs.Connects.{AskingGoesOn, AsksAs, BeginsConnect, ConnectsOn, HasBegun, IsAsking, IsRequestFor, MayRespond, OpenedGoesOn, StillAsks, StillConnects, begun_as, connect_effect, establish_if_open, new_asked};
ghost use Rattle.wt_driver.specs.Opening.{IsFreshlyOpened};
ghost use Rattle.wt_session.specs.Handshakes.{Dialled, HasConnect, IsAtRest, is_all_out};
ghost use Rattle.wt_session.specs.Stages.{connect_as};
ghost use Rattle.wt_session.specs.Replies.{beginning_reply, connecting_reply};
ghost use Rattle.wt_proto.specs.ResponseWalk.{response_walk_of};
ghost use Rattle.wt_proto.specs.declared.response_walk.ResponseWalk.TheVariants as responses;
ghost use Rattle.wt_turn.specs.Reports.{end_of};
ghost use Rattle.wt_turn.specs.Streams.{contents};
ghost use Rattle.wt_sessions.specs.Answers.{call_effect};
ghost use Rattle.wt_sessions.specs.Effect.{close_when_open, driver_error, head_left};
ghost use Rattle.wt_sessions.specs.Handshake.{abandon, await_or_fail, await_response, fail_connect, loss_to_connect, read_response, send_request};
ghost use Rattle.wt_turn.specs.Log.{Log, events_of, with_actions};
ghost use Rattle.wt_turn.specs.declared.action.Action.TheVariants as actions;
ghost use Rattle.wt_turn.specs.declared.call.Call.TheVariants as calls;
ghost use Rattle.wt_turn.specs.declared.connecting_error.ConnectingError.TheVariants as connects;
ghost use Rattle.wt_turn.specs.declared.reply.Reply.TheVariants as replies;
ghost use Rattle.wt_seam.specs.Writing.{nothing_begun};
ghost use Rattle.wt_turn.specs.declared.poll.Poll.TheVariants.{Pending};
ghost use Rattle.wt_wire.specs.FrameBytes.{frame_bytes};
ghost use Rattle.wt_wire.specs.HeaderList.{Fields};
ghost use Rattle.wt_wire.specs.declared.side.Side.{Side};

use crate::connect_options::ConnectOptions;
use crate::connect_target::{ConnectTarget, connect_target};
use crate::connection::{Connection, driver_error, transport_error};
use crate::stage::{Asking, Stage};
use std::alloc::Global;
use std::marker::Model;
use wt_driver::{Driver, OpenSession, session_stream};
use wt_message::session::{SessionRequest, SessionResponse};
use wt_proto::response_walk::ResponseWalk;
use wt_seam::StreamSession;
use wt_turn::connecting_error::ConnectingError;
use wt_turn::connection_error::{ConnectionError, H3Error};
use wt_turn::driver_error::DriverError;
use wt_turn::piece::Piece;
use wt_turn::poll::Poll;
use wt_turn::proto_error::ProtoWriteError;
use wt_wire::addr::Addr;
use wt_wire::error::{ErrorCode, OutOfMemory};
use wt_wire::frame::Frame;
use wt_wire::header_list::HeaderList;
use wt_wire::lookup::{ConnectOutcome, Lookup};
use wt_wire::text::Text;
use wt_wire::varint::VarInt;

/// What a poll of a connect answers.
type Answer = Result<Poll<Result<Connection, ConnectingError>>, OutOfMemory>;

/// A client's connect, until the session is established. Contracts see how far it is.
///
/// ```text
/// begin --the URL, the lookup or the endpoint hinders it--> failed
///       --dial--> connecting --poll--> connecting: the connection, SETTINGS, credit or the response is awaited
///                            --poll, a response of 2xx--> the session is given
///                            --poll, a reserved field, a stop, another status, a fault or the end--> failed
/// ```
#[derive(Drop)]
pub struct Connecting {
    stage: Stage,
}

impl Model for Connecting {
    ghost use Rattle.wt_session.specs.Stages.{connect_as};
    ghost use Rattle.wt_session.specs.Handshakes.{Connect};

    ghost Value = { Connect };

    ghost view = { λ c. connect_as c.stage };
}

/// The request for a session at this target, with these additional fields; or the first of their names that only the
/// session layer sets.
fn request_for(
    alloc: Global,
    target: &ConnectTarget,
    headers: &HeaderList,
) -> Result<Result<SessionRequest, Text>, OutOfMemory>
    ensures { IfOk result (IsRequestFor target.now.authority target.now.path headers.now) }
{
    let mut request = SessionRequest::new(alloc, target.authority.as_str(), target.path.as_str())?;
    for index in 0..headers.len() {
        let (name, value) = headers.at(index);
        if request.insert(name, value)?.is_err() {
            return Ok(Err(Text::from_text(alloc, name)?));
        }
    }
    Ok(Ok(request))
}

/// How far a connect is that has just dialled.
fn stage_of(request: Result<SessionRequest, Text>) -> Stage
    ensures { connect_as result ≡ begun_as request }
{
    match request {
        Ok(request) => Stage::Dialled(request),
        Err(name) => Stage::Reserved(name),
    }
}

/// The transport is asked for a connection, where the one that the driver has isn't over.
fn dial_where_open(d: &mut Driver, address: Addr, name: Text) -> Result<(), OutOfMemory>
    ensures log { OnOk result (Always d.old (λ side log collected. is_client side ≡ true → log ≡ []
        → Follows side d.new (with_actions (actions.Dial address name ∷ []) log) collected)) }
    ensures pieces { OnOk result (pieces_of d.new ≤ pieces_of d.old) }
{
    if d.is_open() {
        return d.dial(address, name);
    }
    Ok(())
}

/// The connect fails, and the connection is closed with this code where it is open.
fn fail(alloc: Global, d: &mut Driver, code: VarInt, error: ConnectingError) -> Answer
    ensures does { IfOk result (λ a. Within d.old (λ side log collected. Did side d.new collected (connecting_reply a) (fail_connect side log (close_when_open log code) error))) }
    ensures ready { IfOk result (λ a. a ≢ Pending) }
    ensures pieces { OnOk result (pieces_of d.new ≤ pieces_of d.old) }
{
    d.close(code, Piece::new(alloc))?;
    d.rests();
    Ok(Poll::Ready(Err(error)))
}

/// The connect fails for no fault of the peer's.
fn abandon(alloc: Global, d: &mut Driver, error: ConnectingError) -> Answer
    ensures does { IfOk result (λ a. Within d.old (λ side log collected. Did side d.new collected (connecting_reply a) (abandon side log [] error))) }
    ensures ready { IfOk result (λ a. a ≢ Pending) }
    ensures pieces { OnOk result (pieces_of d.new ≤ pieces_of d.old) }
{
    fail(alloc, d, VarInt::from_u32(0), error)
}

/// The connect fails since the connection ended, as its transport reports it; while it is open, as if it was closed here.
fn lose(alloc: Global, d: &mut Driver) -> Answer
    ensures does { IfOk result (λ a. Within d.old (λ side log collected. Did side d.new collected (connecting_reply a) (abandon side log [] (loss_to_connect log)))) }
    ensures ready { IfOk result (λ a. a ≢ Pending) }
    ensures pieces { OnOk result (pieces_of d.new ≤ pieces_of d.old) }
{
    let error = transport_error(alloc, d)?;
    abandon(alloc, d, ConnectingError::ConnectionError(error))
}

/// The connect fails by a fault of the response.
fn fault(alloc: Global, d: &mut Driver, code: ErrorCode) -> Answer
    ensures does { IfOk result (λ a. Within d.old (λ side log collected. Did side d.new collected (connecting_reply a) (read_response side log 0 [] (responses.Fault code)))) }
    ensures pieces { OnOk result (pieces_of d.new ≤ pieces_of d.old) }
{
    let error = ConnectionError::LocalH3Error(H3Error::new(code));
    fail(
        alloc,
        d,
        code.to_code(),
        ConnectingError::ConnectionError(error),
    )
}

impl Asking {
    /// The request goes out as far as credit goes, and then the response is read.
    fn poll(&mut self, alloc: Global, d: &mut Driver) -> Answer
        ensures does { IfOk result (λ a. Within d.old (λ side log collected. IsAsking self.old side log → Did side d.new collected (connecting_reply a) (send_request side log self.old.id [] (head_left log self.old.id self.old.head)))) }
        ensures goes_on { IfOk result (λ a. Within d.old (λ side log collected. IsAsking self.old side log → StillAsks self.old self.new a side log)) }
        ensures id { self.new.id ≡ self.old.id }
        ensures head { self.new.head ≡ self.old.head }
        ensures pieces { OnOk result (pieces_of d.new ≤ pieces_of d.old) }
    {
        if self.is_sent {
            return self.await_response(alloc, d);
        }
        let written = session_stream::write_frame(&mut self.stream, d, &self.request)?;
        self.is_sent = is_all_out(&written);
        self.written(alloc, d, written)
    }

    /// What was left of the request was written, and this is how far it came.
    fn written(
        &self,
        alloc: Global,
        d: &mut Driver,
        written: Poll<Result<(), ProtoWriteError>>,
    ) -> Answer
        ensures does { IfOk result (AskingGoesOn d.old d.new self.now.id written) }
        ensures waits { IfOk result (λ a. a ≡ Pending → is_all_out written ≡ false → written ≡ Pending) }
        ensures pieces { OnOk result (pieces_of d.new ≤ pieces_of d.old) }
    {
        match written {
            Poll::Pending => {
                d.rests();
                Ok(Poll::Pending)
            }
            Poll::Ready(Ok(())) => self.await_response(alloc, d),
            Poll::Ready(Err(ProtoWriteError::NotConnected)) => lose(alloc, d),
            Poll::Ready(Err(ProtoWriteError::Stopped)) => abandon(
                alloc,
                d,
                ConnectingError::SessionRejected,
            ),
        }
    }

    /// The response is read as far as it came.
    fn await_response(&self, alloc: Global, d: &mut Driver) -> Answer
        ensures does { IfOk result (λ a. Within d.old (λ side log collected. MayRespond self.now.id side log → Did side d.new collected (connecting_reply a) (await_response side log self.now.id []))) }
        ensures pieces { OnOk result (pieces_of d.new ≤ pieces_of d.old) }
    {
        let walk = d.response()?;
        self.answered(alloc, d, walk)
    }

    /// By how far the response came.
    fn answered(&self, alloc: Global, d: &mut Driver, walk: ResponseWalk) -> Answer
        ensures does { IfOk result (λ a. Within d.old (λ side log collected. MayRespond self.now.id side log
            → walk ≡ response_walk_of (contents log self.now.id) (end_of (events_of log) self.now.id)
            → Did side d.new collected (connecting_reply a) (read_response side log self.now.id [] walk))) }
        ensures pieces { OnOk result (pieces_of d.new ≤ pieces_of d.old) }
    {
        match walk {
            ResponseWalk::Waiting => wait(alloc, d),
            ResponseWalk::Ended => lose(alloc, d),
            ResponseWalk::Fault(code) => fault(alloc, d, code),
            ResponseWalk::Response(response, _) => self.judge(alloc, d, response),
        }
    }

    /// A response establishes the session by a status from 200 to 299.
    fn judge(&self, alloc: Global, d: &mut Driver, response: SessionResponse) -> Answer
        ensures does { IfOk result (λ a. Within d.old (λ side log collected. (offset : ℕ) → MayRespond self.now.id side log
            → response_walk_of (contents log self.now.id) (end_of (events_of log) self.now.id) ≡ responses.Response response offset
            → Did side d.new collected (connecting_reply a) (read_response side log self.now.id [] (responses.Response response offset)))) }
        ensures pieces { OnOk result (pieces_of d.new ≤ pieces_of d.old) }
    {
        let status = response.code();
        if status.is_successful() {
            return self.establish(alloc, d);
        }
        abandon(alloc, d, ConnectingError::SessionRejected)
    }

    /// The response accepts the request: the session is established.
    fn establish(&self, alloc: Global, d: &mut Driver) -> Answer
        ensures does { IfOk result (λ a. Within d.old (λ side log collected. (fields : Fields) (offset : ℕ) → MayRespond self.now.id side log
            → response_walk_of (contents log self.now.id) (end_of (events_of log) self.now.id) ≡ responses.Response fields offset
            → Did side d.new collected (connecting_reply a) (establish_if_open side log self.now.id offset))) }
        ensures pieces { OnOk result (pieces_of d.new ≤ pieces_of d.old) }
    {
        let session = self.stream.session_id();
        match d.register(session)? {
            Ok(()) => Ok(Poll::Ready(Ok(Connection::new(session)))),
            Err(error) => end(alloc, d, error),
        }
    }
}

/// The session didn't begin, since the connection ended, as the driver reports it.
fn end(alloc: Global, d: &mut Driver, _error: DriverError) -> Answer
    ensures fails { IfOk result (λ a. (side : Side) (log : Log) (collected : ℕ) → Follows side d.old log collected → connecting_reply a ≡ replies.ConnectFailed (connects.ConnectionError (driver_error side log))) }
    ensures rests { OnOk result (IsAtRest d.new) }
    ensures same { d.new ≡ d.old }
{
    d.rests();
    let error = driver_error(alloc, d)?;
    Ok(Poll::Ready(Err(ConnectingError::ConnectionError(error))))
}

/// The response is awaited while the connection is open.
fn wait(alloc: Global, d: &mut Driver) -> Answer
    ensures does { IfOk result (λ a. Within d.old (λ side log collected. (id : ℕ) → Did side d.new collected (connecting_reply a) (read_response side log id [] responses.Waiting))) }
    ensures pieces { OnOk result (pieces_of d.new ≤ pieces_of d.old) }
{
    if d.is_open() {
        d.rests();
        return Ok(Poll::Pending);
    }
    lose(alloc, d)
}

impl Connecting {
    /// A client's connect begins: it fails where the URL, the lookup of its host or the endpoint
    /// hinders it, in this order; else the transport is asked for a connection.
    ///
    /// # Errors
    ///
    /// `OutOfMemory` where what is kept or goes out found no memory. The
    /// `ConnectingError` is `InvalidUrl` where the URL's parser refuses the text or the scheme isn't
    /// `https`, `DnsLookup` or `DnsNotFound` where the lookup of a domain hinders the connect, and
    /// else the outcome's.
    pub fn begin(
        alloc: Global,
        options: ConnectOptions,
        lookup: Lookup,
        outcome: ConnectOutcome,
        d: &mut Driver,
    ) -> Result<Result<Connecting, ConnectingError>, OutOfMemory>
        ensures does { IfOk result (Does d.old d.new (MayCall (calls.Connect (options.url, options.headers) lookup outcome)) (calls.Connect (options.url, options.headers) lookup outcome) beginning_reply) }
        ensures connect { IfOk result (BeginsConnect options.url options.headers lookup outcome) }
        ensures goes_on { IfOk result (λ r. Always d.old (λ side log collected. MayCall (calls.Connect (options.url, options.headers) lookup outcome) side log
            → HasBegun r side (call_effect side log (calls.Connect (options.url, options.headers) lookup outcome)).log)) }
        ensures pieces { OnOk result (pieces_of d.new ≤ pieces_of d.old) }
    {
        let target = match connect_target(alloc, options.url(), lookup, outcome)? {
            Ok(target) => target,
            Err(error) => {
                d.rests();
                return Ok(Err(error));
            }
        };
        let request = request_for(alloc, &target, options.additional_headers())?;
        let stage = stage_of(request);
        dial_where_open(d, target.address, target.server_name)?;
        d.rests();
        Ok(Ok(Connecting { stage }))
    }

    /// The connect goes on: the connection, then the peer's SETTINGS, then the request and its response. It isn't polled
    /// again once it was ready.
    ///
    /// # Errors
    ///
    /// `OutOfMemory` where what goes out, what is kept or an error found no memory. The
    /// `ConnectingError` is `ReservedHeader` for an additional field that only the session layer
    /// sets, `SessionRejected` for a status outside 200 to 299 and for a stream that the peer stopped
    /// before all of the request was out, and else how the connection ended.
    pub fn poll(&mut self, alloc: Global, d: &mut Driver) -> Answer
        ensures does { IfOk result (Does d.old d.new (HasConnect self.old) calls.Handshake connecting_reply) }
        ensures goes_on { IfOk result (λ a. Always d.old (StillConnects self.old self.new a)) }
        ensures pieces { OnOk result (pieces_of d.new ≤ pieces_of d.old) }
    {
        // Before the connection is established no SETTINGS come, and no fault.
        if !d.settings_came() {
            let error = driver_error(alloc, d)?;
            return await_or_fail(d, error);
        }
        self.go_on(alloc, d)
    }

    /// The connection was established and the peer's SETTINGS came: the request goes out, and its response is awaited.
    fn go_on(&mut self, alloc: Global, d: &mut Driver) -> Answer
        ensures does { IfOk result (λ a. Always d.old (λ side log collected. HasConnect self.old side log → Did side d.new collected (connecting_reply a) (connect_effect side log self.old))) }
        ensures goes_on { IfOk result (λ a. Always d.old (λ side log collected. HasConnect self.old side log → ConnectsOn self.new a side (connect_effect side log self.old).log)) }
        ensures pieces { OnOk result (pieces_of d.new ≤ pieces_of d.old) }
    {
        match &mut self.stage {
            Stage::Asking(asking) => asking.poll(alloc, d),
            Stage::Reserved(name) => {
                let name = name.copy()?;
                abandon(alloc, d, ConnectingError::ReservedHeader(name))
            }
            Stage::Dialled(request) => {
                let frame = request.generate_frame()?;
                // A copy: this request has to be there still where no stream can be opened yet, or memory ran out.
                let opened = d.open_session(request.copy()?)?;
                self.opened(alloc, d, frame, opened)
            }
        }
    }

    /// The request's stream is open, or none can be opened yet.
    fn opened(
        &mut self,
        alloc: Global,
        d: &mut Driver,
        request: Frame,
        opened: Result<OpenSession, DriverError>,
    ) -> Answer
        requires fresh { IsFreshlyOpened opened }
        ensures does { self.old ≡ Dialled (frame_bytes request) → IfOk result (OpenedGoesOn d.old d.new self.new (frame_bytes request) opened) }
        ensures pieces { OnOk result (pieces_of d.new ≤ pieces_of d.old) }
    {
        match opened {
            Ok(OpenSession::Ready(stream)) => self.ask(alloc, d, stream, request),
            Ok(OpenSession::NotYet(_)) => {
                d.rests();
                Ok(Poll::Pending)
            }
            Err(_) => lose(alloc, d),
        }
    }

    /// The request goes out on its stream, which was just opened.
    fn ask(
        &mut self,
        alloc: Global,
        d: &mut Driver,
        stream: StreamSession,
        request: Frame,
    ) -> Answer
        requires session { stream.stage.session ≡ stream.halves.0.id }
        requires writing { stream.stage.writing ≡ nothing_begun }
        ensures does { IfOk result (λ a. Within d.old (λ side log collected. IsAsking (new_asked stream.halves.0.id (frame_bytes request)) side log
            → Did side d.new collected (connecting_reply a) (send_request side log stream.halves.0.id [] (head_left log stream.halves.0.id (frame_bytes request))))) }
        ensures goes_on { IfOk result (λ a. Within d.old (λ side log collected. IsAsking (new_asked stream.halves.0.id (frame_bytes request)) side log
            → AsksAs (new_asked stream.halves.0.id (frame_bytes request)) self.new a side log)) }
        ensures pieces { OnOk result (pieces_of d.new ≤ pieces_of d.old) }
    {
        let mut asking = Asking::new(stream, request);
        let answer = asking.poll(alloc, d);
        // Also where memory ran out: the stream is open.
        self.stage = Stage::Asking(asking);
        answer
    }
}

/// Nothing of what was written is left.
fn is_all_out(written: &Poll<Result<(), ProtoWriteError>>) -> bool
    ensures { result ≡ is_all_out written.now }
{
    matches!(written, Poll::Ready(Ok(())))
}

/// The connection, or the peer's SETTINGS, are awaited while the connection is open; then the connect fails with it.
fn await_or_fail(d: &mut Driver, error: ConnectionError) -> Answer
    ensures does { IfOk result (λ a. Within d.old (λ side log collected. Did side d.new collected (connecting_reply a) (await_or_fail side log error))) }
    ensures same { d.new ≡ d.old }
{
    d.rests();
    if d.is_open() {
        return Ok(Poll::Pending);
    }
    Ok(Poll::Ready(Err(ConnectingError::ConnectionError(error))))
}
