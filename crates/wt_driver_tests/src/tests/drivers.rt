//! A driver's calls, with what they answer as a reply. Each stands in a function of its own that promises nothing, so
//! that what calls it is cheap to prove.
ghost use Rattle.std.specs.Prelude.{◌≡◌, ◌<◌};

use std::alloc::Global;
use std::marker::Brand;
use std::process::Abort;
use std::sync::ledger::{Blank, Ledger};
use wt_driver::session_stream::write_frame;
use wt_driver::{Driver, OpenSession, OpeningUniStream};
use wt_proto::response_walk::ResponseWalk;
use wt_proto::session::SessionRequest;
use wt_proto::steps::Steps;
use wt_seam::StreamSession;
use wt_turn::action::Actions;
use wt_turn::connection_error::{ConnectionError, H3Error};
use wt_turn::driver_error::DriverError;
use wt_turn::piece::Piece;
use wt_turn::poll::Poll;
use wt_turn::reply::Reply;
use wt_turn::turn::Turn;
use wt_wire::addr::Addr;
use wt_wire::frame::Frame;
use wt_wire::headers::Headers;
use wt_wire::ids::{SessionId, StreamId};
use wt_wire::side::Side;
use wt_wire::text::Text;
use wt_wire::varint::VarInt;

/// A driver, and what its calls gave.
#[derive(Drop)]
pub struct End {
    pub alloc: Global,
    pub driver: Driver,
    /// The last request, on its stream.
    pub request: Option<StreamSession>,
    /// The unidirectional stream that was opened last.
    pub opening: Option<OpeningUniStream>,
}

pub fn new_end(alloc: Global, side: Side) -> End {
    End {
        alloc,
        driver: Driver::init(alloc, side),
        request: None,
        opening: None,
    }
}

pub fn stream(id: u32) -> StreamId {
    StreamId::new(VarInt::from_u32(id))
}

pub fn session(rt: &impl Abort, id: u32) -> SessionId {
    SessionId::try_from_session_stream(stream(id)).expect(rt, "no session")
}

fn take_counting<L: Ledger>(rt: &impl Abort, driver: &mut Driver, turn: &Turn, blank: Blank)
    requires name { blank.name ≡ L.name }
    requires parts { blank.parts ≡ L.parts }
    requires some { 0 < L.parts }
{
    let mut steps = Steps::<L>::new(blank);
    driver.turn(turn, &mut steps).expect(rt, "no memory");
}

pub fn take(rt: &impl Abort, driver: &mut Driver, turn: &Turn) {
    let fits = driver.fits(turn);
    assert!(rt; fits);
    take_counting::<Brand>(rt, driver, turn, Blank::new(1));
}

fn take_byte(rt: &impl Abort, alloc: Global, driver: &mut Driver, id: StreamId, byte: u8) {
    let piece = Piece::from_slice(alloc, &[byte]).expect(rt, "no memory");
    take(rt, driver, &Turn::Bytes { id, piece });
}

/// Bytes of a stream, in turns of one byte.
pub fn take_each(rt: &impl Abort, alloc: Global, driver: &mut Driver, id: StreamId, bytes: &[u8]) {
    for byte in bytes {
        take_byte(rt, alloc, driver, id, *byte);
    }
}

pub fn actions(driver: &mut Driver) -> Actions {
    driver.take_actions()
}

/// How the connection ended. One that isn't there is reported as closed by this end.
fn ended(error: DriverError) -> ConnectionError {
    match error {
        DriverError::Proto(code) => ConnectionError::LocalH3Error(H3Error::new(code)),
        DriverError::ApplicationClosed(close) => ConnectionError::ApplicationClosed(close),
        DriverError::NotConnected => ConnectionError::LocallyClosed,
    }
}

// ---- what waits is given

pub fn accept_uni(rt: &impl Abort, driver: &mut Driver, session: SessionId) -> Reply {
    match driver.accept_uni(session).expect(rt, "no memory") {
        Poll::Ready(Ok(stream)) => Reply::Uni(stream.id()),
        Poll::Ready(Err(error)) => Reply::Failed(ended(error)),
        Poll::Pending => Reply::Pending,
    }
}

pub fn accept_bi(rt: &impl Abort, driver: &mut Driver, session: SessionId) -> Reply {
    match driver.accept_bi(session).expect(rt, "no memory") {
        Poll::Ready(Ok(stream)) => Reply::Bi(stream.id()),
        Poll::Ready(Err(error)) => Reply::Failed(ended(error)),
        Poll::Pending => Reply::Pending,
    }
}

pub fn receive_datagram(rt: &impl Abort, driver: &mut Driver, session: SessionId) -> Reply {
    match driver.receive_datagram(session).expect(rt, "no memory") {
        Poll::Ready(Ok(datagram)) => Reply::Datagram(datagram.into_payload()),
        Poll::Ready(Err(error)) => Reply::Failed(ended(error)),
        Poll::Pending => Reply::Pending,
    }
}

/// Every request in these tests is for https://h/.
fn is_for_h(rt: &impl Abort, stream: &StreamSession) {
    let request = stream.request();
    assert_eq!(rt; request.authority(), "h");
    assert_eq!(rt; request.path(), "/");
}

/// The id of the request's session.
pub fn incoming(rt: &impl Abort, end: &mut End) -> Reply {
    match end.driver.accept_session().expect(rt, "no memory") {
        Poll::Ready(Ok(stream)) => {
            is_for_h(rt, &stream);
            let id = stream.session_id();
            end.request = Some(stream);
            Reply::Id(id)
        }
        Poll::Ready(Err(error)) => Reply::Failed(ended(error)),
        Poll::Pending => Reply::Pending,
    }
}

pub fn accept_settings(rt: &impl Abort, driver: &mut Driver) -> Reply {
    match driver.accept_settings() {
        Poll::Ready(Ok(_)) => Reply::Done,
        Poll::Ready(Err(error)) => Reply::Failed(ended(error)),
        Poll::Pending => Reply::Pending,
    }
}

// ---- sessions

/// A response of this status.
fn response_frame(rt: &impl Abort, alloc: Global, status: &str) -> Frame {
    let mut fields = Headers::new(alloc);
    fields.insert(":status", status).expect(rt, "no memory");
    fields.generate_frame().expect(rt, "no memory")
}

/// A frame goes out on a stream on which no other is being written. That the peer stopped the stream is reported as a rejection.
fn write_on(
    rt: &impl Abort,
    driver: &mut Driver,
    stream: &mut StreamSession,
    frame: &Frame,
) -> Reply {
    if !stream.continues(frame).expect(rt, "no memory") {
        panic!(rt; "another frame is being written");
    }
    match write_frame(stream, driver, frame).expect(rt, "no memory") {
        Poll::Ready(Ok(())) => Reply::AllWritten,
        Poll::Ready(Err(_)) => Reply::Rejected,
        Poll::Pending => Reply::Pending,
    }
}

/// All of a frame goes out.
fn write_whole(rt: &impl Abort, driver: &mut Driver, stream: &mut StreamSession, frame: &Frame) {
    let reply = write_on(rt, driver, stream, frame);
    assert!(rt; reply.is_equal(&Reply::AllWritten));
}

fn register(rt: &impl Abort, driver: &mut Driver, stream: StreamSession) -> Reply {
    let id = stream.session_id();
    match driver.register_session(stream).expect(rt, "no memory") {
        Ok(()) => Reply::Session(id),
        Err(error) => Reply::Failed(ended(error)),
    }
}

/// The last request is accepted, and its session begins.
pub fn accept(rt: &impl Abort, end: &mut End) -> Reply {
    let mut stream = end.request.take().expect(rt, "no request");
    let frame = response_frame(rt, end.alloc, "200");
    write_whole(rt, &mut end.driver, &mut stream, &frame);
    register(rt, &mut end.driver, stream)
}

/// The last request is rejected, and the connection isn't closed.
pub fn reject(rt: &impl Abort, end: &mut End) -> Reply {
    let mut stream = end.request.take().expect(rt, "no request");
    let frame = response_frame(rt, end.alloc, "403");
    write_whole(rt, &mut end.driver, &mut stream, &frame);
    let session = stream.session_id();
    end.driver.refuse_session(session).expect(rt, "no memory");
    Reply::Rejected
}

pub fn register_again(rt: &impl Abort, driver: &mut Driver, session: SessionId) -> Reply {
    match driver.register(session).expect(rt, "no memory") {
        Ok(()) => Reply::Session(session),
        Err(error) => Reply::Failed(ended(error)),
    }
}

pub fn end_session(rt: &impl Abort, driver: &mut Driver, session: SessionId) -> Reply {
    driver.end_session(session).expect(rt, "no memory");
    Reply::Done
}

pub fn refuse_session(rt: &impl Abort, driver: &mut Driver, session: SessionId) -> Reply {
    driver.refuse_session(session).expect(rt, "no memory");
    Reply::Done
}

// ---- a client's request

pub fn dial(rt: &impl Abort, end: &mut End) -> Reply {
    let address = Addr::V4 {
        ip: 0x7f00_0001,
        port: 443,
    };
    let name = Text::from_text(end.alloc, "h").expect(rt, "no memory");
    assert!(rt; end.driver.is_open());
    end.driver.dial(address, name).expect(rt, "no memory");
    Reply::Done
}

/// A client opens the stream of its request.
pub fn ask(rt: &impl Abort, end: &mut End) -> Reply {
    let request = SessionRequest::new(end.alloc, "h", "/").expect(rt, "no memory");
    match end.driver.open_session(request).expect(rt, "no memory") {
        Ok(OpenSession::Ready(stream)) => {
            let id = stream.id();
            end.request = Some(stream);
            Reply::Opening(id)
        }
        Ok(OpenSession::NotYet(_)) => Reply::Pending,
        Err(error) => Reply::Failed(ended(error)),
    }
}

/// The request goes out on its stream, as far as credit goes.
pub fn write_request(rt: &impl Abort, end: &mut End) -> Reply {
    let mut stream = end.request.take().expect(rt, "no request");
    let frame = stream.request().generate_frame().expect(rt, "no memory");
    let reply = write_on(rt, &mut end.driver, &mut stream, &frame);
    end.request = Some(stream);
    reply
}

/// How many bytes the response has, where it is there; a stream that ended without one is reported as a rejection.
pub fn response(rt: &impl Abort, driver: &mut Driver) -> Reply {
    match driver.response().expect(rt, "no memory") {
        ResponseWalk::Waiting => Reply::Pending,
        ResponseWalk::Response(_, offset) => Reply::Count(offset as u64),
        ResponseWalk::Ended => Reply::Rejected,
        ResponseWalk::Fault(code) => Reply::Failed(ended(DriverError::Proto(code))),
    }
}

/// The session of the client's request begins.
pub fn begin(rt: &impl Abort, end: &mut End) -> Reply {
    let stream = end.request.take().expect(rt, "no request");
    register(rt, &mut end.driver, stream)
}

// ---- the end of the connection

pub fn close(rt: &impl Abort, driver: &mut Driver, code: VarInt, reason: Piece) -> Reply {
    driver.close(code, reason).expect(rt, "no memory");
    Reply::Done
}

pub fn closed(driver: &Driver) -> Reply {
    match driver.result() {
        Some(error) => Reply::Closed(ended(error)),
        None => Reply::Pending,
    }
}
