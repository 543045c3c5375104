//! A server of one connection, by the public types: it accepts each session that is asked for at `/`, sends back what comes on
//! a session's stream and in its datagrams, ends the session with that stream, and closes the connection when it is told to.
//!
//! Who has the QUIC stack gives [`EchoServer::event`] each event of the transport, and does the actions that it returns.

use std::alloc::Global;
use wt_driver::Driver;
use wt_proto::{OutOfMemory, Side, VarInt};
use wt_seam::{Actions, Piece, Poll, Turn, WriteAll};
use wt_session::Connection;
use wt_session::endpoint::{
    Accepting, IncomingSession, IncomingSessionFuture, Rejecting, SessionRequest,
};
use wt_session::stream::BiStream;

/// The code with which a stream is reset whose bytes can't go back, and with which the connection is closed.
const NO_ERROR: u32 = 0;

/// How many bytes are read at once.
const BUFFER_SIZE: usize = 256;

/// How many datagrams may wait for a session, so that as many calls take all of them.
const MOST_WAITING: usize = 16;

/// A request that is being answered.
#[derive(Drop)]
enum Answering {
    Accepting(Accepting),
    Rejecting(Rejecting),
}

/// A session, and its stream once it has one.
#[derive(Drop)]
struct Session {
    connection: Connection,
    stream: Option<BiStream>,
}

/// One connection of a server.
#[derive(Drop)]
pub struct EchoServer {
    alloc: Global,
    driver: Driver,
    incoming: IncomingSessionFuture,
    answering: Option<Answering>,
    sessions: Vec<Session>,
}

impl EchoServer {
    /// A server's connection, of which nothing was reported yet.
    pub fn new(alloc: Global) -> EchoServer {
        EchoServer {
            alloc,
            driver: Driver::init(alloc, Side::Server),
            incoming: IncomingSession::new().into_future(),
            answering: None,
            sessions: Vec::new(alloc),
        }
    }

    /// Takes an event of the transport, does what can be done then, and returns what the transport is to do, in order. An
    /// event that may not come changes nothing.
    pub fn event(&mut self, event: &Turn) -> Result<Actions, OutOfMemory> {
        self.driver.event(event)?;
        self.next_request()?;
        self.go_on()?;
        self.serve_sessions()?;
        self.forget_ended();
        Ok(self.driver.take_actions())
    }

    /// Closes the connection, and returns what the transport is to do.
    pub fn close(&mut self, reason: &[u8]) -> Result<Actions, OutOfMemory> {
        let reason = Piece::from_slice(self.alloc, reason)?;
        self.driver.close(VarInt::from_u32(NO_ERROR), reason)?;
        Ok(self.driver.take_actions())
    }

    /// Takes the next request, once the one before was answered.
    fn next_request(&mut self) -> Result<(), OutOfMemory> {
        if self.answering.is_some() {
            return Ok(());
        }
        if let Poll::Ready(Ok(request)) = self.incoming.poll(self.alloc, &mut self.driver)? {
            self.answering = Some(answer(self.alloc, request)?);
            self.incoming = IncomingSession::again().into_future();
        }
        Ok(())
    }

    /// Goes on with the answer to the request.
    fn go_on(&mut self) -> Result<(), OutOfMemory> {
        match self.answering.take() {
            Some(Answering::Accepting(accepting)) => self.accept(accepting),
            Some(Answering::Rejecting(rejecting)) => self.reject(rejecting),
            None => Ok(()),
        }
    }

    /// Accepts a request: once the response is out there is a session. Where that fails the connection has ended.
    fn accept(&mut self, mut accepting: Accepting) -> Result<(), OutOfMemory> {
        let answer = accepting.poll(self.alloc, &mut self.driver)?;
        match answer {
            Poll::Ready(Ok(connection)) => self.begin(connection),
            Poll::Ready(Err(_error)) => Ok(()),
            Poll::Pending => {
                self.answering = Some(Answering::Accepting(accepting));
                Ok(())
            }
        }
    }

    /// Rejects a request, until the peer has the response.
    fn reject(&mut self, mut rejecting: Rejecting) -> Result<(), OutOfMemory> {
        let answer = rejecting.poll(self.alloc, &mut self.driver)?;
        match answer {
            Poll::Ready(()) => Ok(()),
            Poll::Pending => {
                self.answering = Some(Answering::Rejecting(rejecting));
                Ok(())
            }
        }
    }

    /// Does what can be done for each session.
    fn serve_sessions(&mut self) -> Result<(), OutOfMemory> {
        for session in &mut self.sessions {
            session.serve(self.alloc, &mut self.driver)?;
        }
        Ok(())
    }

    /// Keeps nothing of the sessions that are over.
    fn forget_ended(&mut self) {
        let driver = &self.driver;
        self.sessions
            .retain(|session| driver.lives(session.connection.session_id()));
    }

    /// A session begins, without a stream.
    fn begin(&mut self, connection: Connection) -> Result<(), OutOfMemory> {
        self.sessions.push(Session {
            connection,
            stream: None,
        })?;
        Ok(())
    }
}

/// The answer to a request: it is accepted where it is for this server's one path.
fn answer(alloc: Global, request: SessionRequest) -> Result<Answering, OutOfMemory> {
    if request.path() == "/" {
        Ok(Answering::Accepting(request.accept(alloc)?))
    } else {
        Ok(Answering::Rejecting(request.not_found(alloc)?))
    }
}

impl Session {
    /// Does what can be done.
    fn serve(&mut self, alloc: Global, driver: &mut Driver) -> Result<(), OutOfMemory> {
        self.take_stream(alloc, driver)?;
        self.echo_stream(alloc, driver)?;
        self.echo_datagrams(alloc, driver)
    }

    /// Takes a bidirectional stream of the peer, where it has none yet.
    fn take_stream(&mut self, alloc: Global, driver: &mut Driver) -> Result<(), OutOfMemory> {
        if self.stream.is_none() {
            self.stream = next_stream(&mut self.connection, alloc, driver)?;
        }
        Ok(())
    }

    /// Sends back what came on the stream. Where the peer ended its half, ends this end's half and then the session.
    fn echo_stream(&mut self, alloc: Global, driver: &mut Driver) -> Result<(), OutOfMemory> {
        let Some(stream) = &mut self.stream else {
            return Ok(());
        };
        // Each read but the last takes a byte at least.
        for _ in 0..=driver.unread(stream.recv().id()) {
            let mut buffer = [0u8; BUFFER_SIZE];
            match stream.recv_mut().read(driver, &mut buffer) {
                Poll::Ready(Ok(Some(count))) => send_back(stream, driver, &buffer[..count])?,
                Poll::Ready(Ok(None)) => {
                    let _finished = stream.send_mut().finish(driver)?;
                    return self.connection.end_session(alloc, driver);
                }
                Poll::Ready(Err(_)) | Poll::Pending => return Ok(()),
            }
        }
        Ok(())
    }

    /// Sends back the datagrams that wait. One that can't be sent is lost, as datagrams may be.
    fn echo_datagrams(&mut self, alloc: Global, driver: &mut Driver) -> Result<(), OutOfMemory> {
        for _ in 0..MOST_WAITING {
            let Poll::Ready(Ok(datagram)) = self.connection.receive_datagram(alloc, driver)? else {
                return Ok(());
            };
            let _sent = self
                .connection
                .send_datagram(alloc, driver, datagram.payload())?;
        }
        Ok(())
    }
}

/// The next stream of the session, where one came.
fn next_stream(
    connection: &mut Connection,
    alloc: Global,
    driver: &mut Driver,
) -> Result<Option<BiStream>, OutOfMemory> {
    match connection.accept_bi(alloc, driver)? {
        Poll::Ready(Ok(halves)) => Ok(Some(BiStream::join(halves))),
        Poll::Ready(Err(_error)) => Ok(None),
        Poll::Pending => Ok(None),
    }
}

/// Sends the bytes back. Nothing is kept for later here: where credit lacks for all of them the stream is reset.
fn send_back(stream: &mut BiStream, driver: &mut Driver, bytes: &[u8]) -> Result<(), OutOfMemory> {
    match stream.send_mut().write_all(driver, bytes)? {
        Ok(WriteAll::Done) => {}
        Ok(WriteAll::Count(_)) | Err(_) => {
            let _reset = stream.send_mut().reset(driver, VarInt::from_u32(NO_ERROR))?;
        }
    }
    Ok(())
}
