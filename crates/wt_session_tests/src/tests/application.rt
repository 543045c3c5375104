//! An application that has what the calls gave it, and keeps it by the ids of streams. A call of a run is a call of the public type of
//! that value, whose answer is the run's reply.
use super::drivers::take_event;
use std::alloc::Global;
use std::mem;
use std::process::Abort;
use wt_driver::Driver;
use wt_session::{
    Accepting, BiStream, ConnectOptions, Connecting, Connection, IncomingSession,
    IncomingSessionFuture, OpeningBiStream, OpeningUniStream, Poll, RecvStream, Rejecting,
    SendStream, SessionRequest,
};
use wt_turn::answer::Answer;
use wt_turn::call::Call;
use wt_turn::piece::Piece;
use wt_turn::reply::Reply;
use wt_turn::turn::Turn;
use wt_wire::ids::StreamId;
use wt_wire::lookup::{ConnectOutcome, Lookup};
use wt_wire::side::Side;

/// The handshake that goes on.
#[derive(Drop)]
enum Handshake {
    Idle,
    Incoming(IncomingSessionFuture),
    Requested(SessionRequest),
    Accepting(Accepting),
    Rejecting(Rejecting),
    Connecting(Connecting),
}

/// What a call gave.
#[derive(Drop)]
enum Held {
    Session(Connection),
    OpeningUni(OpeningUniStream),
    OpeningBi(OpeningBiStream),
    Send(SendStream),
    Recv(RecvStream),
    Both(BiStream),
}

/// The stream of the session that a call names, and else 0.
fn named(call: &Call) -> u64 {
    let name = match call {
        Call::AcceptUni { session } => *session,
        Call::AcceptBi { session } => *session,
        Call::ReceiveDatagram { session } => *session,
        Call::OpenUni { session } => *session,
        Call::OpenBi { session } => *session,
        Call::SendDatagram { session, .. } => *session,
        Call::MaxDatagramSize { session } => *session,
        Call::EndSession { session } => *session,
        _ => None,
    };
    match name {
        Some(id) => id.session_stream().into_u64(),
        None => 0,
    }
}

/// An application at one end of a connection.
#[derive(Drop)]
pub struct Application {
    alloc: Global,
    driver: Driver,
    handshake: Handshake,
    /// With the ids of their streams.
    held: Vec<(u64, Held)>,
    is_whole: bool,
}

impl Application {
    /// Nothing was reported yet. Pieces come whole, or in single bytes.
    pub fn new(alloc: Global, side: Side, is_whole: bool) -> Application {
        Application {
            alloc,
            driver: Driver::init(alloc, side),
            handshake: Handshake::Idle,
            held: Vec::new(alloc),
            is_whole,
        }
    }

    /// What is answered to a turn.
    pub fn answer(&mut self, rt: &impl Abort, turn: Turn) -> Answer {
        let reply = match turn {
            Turn::Call(call) => {
                let session = named(&call);
                self.call(rt, session, call)
            }
            event => {
                take_event(rt, self.alloc, &mut self.driver, &event, self.is_whole);
                Reply::Done
            }
        };
        let actions = self.driver.take_actions();
        Answer { reply, actions }
    }

    fn call(&mut self, rt: &impl Abort, session: u64, call: Call) -> Reply {
        match call {
            Call::Connect {
                options,
                lookup,
                outcome,
            } => {
                let options = ConnectOptions::from_parts(options.0, options.1);
                self.begin(rt, options, lookup, outcome)
            }
            Call::Incoming => self.incoming(rt),
            Call::Handshake => self.go_on(rt),
            Call::Accept { .. } | Call::Forbidden | Call::NotFound | Call::TooManyRequests => {
                self.respond(rt, call);
                self.go_on(rt)
            }
            Call::PollOpening { id } => self.poll_opening(rt, id.into_u64()),
            Call::Write { id, .. } | Call::Finish { id } | Call::ResetSend { id, .. } => {
                self.send_call(rt, id.into_u64(), call)
            }
            Call::Read { id, .. } | Call::StopRecv { id, .. } => {
                self.recv_call(rt, id.into_u64(), call)
            }
            _ => self.session_call(rt, session, call),
        }
    }

    // ---- what is held

    fn hold(&mut self, rt: &impl Abort, id: StreamId, held: Held) {
        let pushed = self.held.push((id.into_u64(), held)).is_ok();
        assert!(rt; pushed);
    }

    fn give(&mut self, rt: &impl Abort, id: u64) -> Held {
        let count = self.held.len();
        for index in 0..count {
            assert!(rt; index < self.held.len());
            if self.held[index].0 == id {
                let (_, held) = self.held.swap_remove(index);
                return held;
            }
        }
        panic!(rt; "nothing is held of {id}")
    }

    // ---- handshakes

    fn begin(
        &mut self,
        rt: &impl Abort,
        options: ConnectOptions,
        lookup: Lookup,
        outcome: ConnectOutcome,
    ) -> Reply {
        let begun = Connecting::begin(self.alloc, options, lookup, outcome, &mut self.driver);
        match begun.expect(rt, "no memory") {
            Ok(connecting) => {
                self.handshake = Handshake::Connecting(connecting);
                Reply::Pending
            }
            Err(error) => Reply::ConnectFailed(error),
        }
    }

    /// The wait that was pending goes on, or a new one begins.
    fn waiting(&mut self) -> IncomingSessionFuture {
        match mem::replace(&mut self.handshake, Handshake::Idle) {
            Handshake::Incoming(waiting) => waiting,
            _ => IncomingSession::again().into_future(),
        }
    }

    fn incoming(&mut self, rt: &impl Abort) -> Reply {
        let mut waiting = self.waiting();
        let polled = waiting.poll(self.alloc, &mut self.driver);
        match polled.expect(rt, "no memory") {
            Poll::Pending => {
                self.handshake = Handshake::Incoming(waiting);
                Reply::Pending
            }
            Poll::Ready(Ok(request)) => {
                let id = request.session_id();
                let headers = request.headers().copy().expect(rt, "no memory");
                self.handshake = Handshake::Requested(request);
                Reply::Request { id, headers }
            }
            Poll::Ready(Err(error)) => Reply::Failed(error),
        }
    }

    fn respond(&mut self, rt: &impl Abort, call: Call) {
        let request = match mem::replace(&mut self.handshake, Handshake::Idle) {
            Handshake::Requested(request) => request,
            _ => panic!(rt; "no request was given"),
        };
        self.handshake = match call {
            Call::Accept { headers } => Handshake::Accepting(
                request
                    .accept_with_headers(self.alloc, headers)
                    .expect(rt, "no memory"),
            ),
            Call::Forbidden => Handshake::Rejecting(
                request.forbidden(self.alloc).expect(rt, "no memory"),
            ),
            Call::NotFound => Handshake::Rejecting(
                request.not_found(self.alloc).expect(rt, "no memory"),
            ),
            _ => Handshake::Rejecting(
                request
                    .too_many_requests(self.alloc)
                    .expect(rt, "no memory"),
            ),
        };
    }

    fn go_on(&mut self, rt: &impl Abort) -> Reply {
        match mem::replace(&mut self.handshake, Handshake::Idle) {
            Handshake::Accepting(accepting) => self.accept(rt, accepting),
            Handshake::Rejecting(rejecting) => self.reject(rt, rejecting),
            Handshake::Connecting(connecting) => self.connect(rt, connecting),
            _ => panic!(rt; "no handshake goes on"),
        }
    }

    fn establish(&mut self, rt: &impl Abort, session: Connection) -> Reply {
        let id = session.session_id();
        self.hold(rt, id.session_stream(), Held::Session(session));
        Reply::Session(id)
    }

    fn accept(&mut self, rt: &impl Abort, mut accepting: Accepting) -> Reply {
        let polled = accepting.poll(self.alloc, &mut self.driver);
        match polled.expect(rt, "no memory") {
            Poll::Pending => {
                self.handshake = Handshake::Accepting(accepting);
                Reply::Pending
            }
            Poll::Ready(Ok(session)) => self.establish(rt, session),
            Poll::Ready(Err(error)) => Reply::Failed(error),
        }
    }

    fn reject(&mut self, rt: &impl Abort, mut rejecting: Rejecting) -> Reply {
        let polled = rejecting.poll(self.alloc, &mut self.driver);
        match polled.expect(rt, "no memory") {
            Poll::Pending => {
                self.handshake = Handshake::Rejecting(rejecting);
                Reply::Pending
            }
            Poll::Ready(_) => Reply::Rejected,
        }
    }

    fn connect(&mut self, rt: &impl Abort, mut connecting: Connecting) -> Reply {
        let polled = connecting.poll(self.alloc, &mut self.driver);
        match polled.expect(rt, "no memory") {
            Poll::Pending => {
                self.handshake = Handshake::Connecting(connecting);
                Reply::Pending
            }
            Poll::Ready(Ok(session)) => self.establish(rt, session),
            Poll::Ready(Err(error)) => Reply::ConnectFailed(error),
        }
    }

    // ---- a session

    fn session_call(&mut self, rt: &impl Abort, id: u64, call: Call) -> Reply {
        let mut session = match self.give(rt, id) {
            Held::Session(session) => session,
            _ => panic!(rt; "{id} is no session"),
        };
        let reply = match call {
            Call::AcceptUni { .. } | Call::AcceptBi { .. } | Call::ReceiveDatagram { .. } => {
                self.next(rt, &mut session, call)
            }
            Call::OpenUni { .. } | Call::OpenBi { .. } => self.open(rt, &mut session, call),
            _ => self.whole(rt, &mut session, call),
        };
        self.hold(
            rt,
            session.session_id().session_stream(),
            Held::Session(session),
        );
        reply
    }

    /// What the peer sends.
    fn next(&mut self, rt: &impl Abort, session: &mut Connection, call: Call) -> Reply {
        match call {
            Call::AcceptUni { .. } => {
                let answer = session.accept_uni(self.alloc, &mut self.driver);
                match answer.expect(rt, "no memory") {
                    Poll::Ready(Ok(half)) => {
                        let id = half.id();
                        self.hold(rt, id, Held::Recv(half));
                        Reply::Uni(id)
                    }
                    Poll::Ready(Err(error)) => Reply::Failed(error),
                    Poll::Pending => Reply::Pending,
                }
            }
            Call::AcceptBi { .. } => {
                let answer = session.accept_bi(self.alloc, &mut self.driver);
                match answer.expect(rt, "no memory") {
                    Poll::Ready(Ok(halves)) => {
                        let id = halves.0.id();
                        self.hold(rt, id, Held::Both(BiStream::join(halves)));
                        Reply::Bi(id)
                    }
                    Poll::Ready(Err(error)) => Reply::Failed(error),
                    Poll::Pending => Reply::Pending,
                }
            }
            _ => {
                let answer = session.receive_datagram(self.alloc, &mut self.driver);
                match answer.expect(rt, "no memory") {
                    Poll::Ready(Ok(datagram)) => Reply::Datagram(datagram.into_payload()),
                    Poll::Ready(Err(error)) => Reply::Failed(error),
                    Poll::Pending => Reply::Pending,
                }
            }
        }
    }

    /// A stream of this end.
    fn open(&mut self, rt: &impl Abort, session: &mut Connection, call: Call) -> Reply {
        match call {
            Call::OpenUni { .. } => {
                let answer = session.open_uni(self.alloc, &mut self.driver);
                match answer.expect(rt, "no memory") {
                    Poll::Ready(Ok(opening)) => {
                        let id = opening.id();
                        self.hold(rt, id, Held::OpeningUni(opening));
                        Reply::Opening(id)
                    }
                    Poll::Ready(Err(error)) => Reply::Failed(error),
                    Poll::Pending => Reply::Pending,
                }
            }
            _ => {
                let answer = session.open_bi(self.alloc, &mut self.driver);
                match answer.expect(rt, "no memory") {
                    Poll::Ready(Ok(opening)) => {
                        let id = opening.id();
                        self.hold(rt, id, Held::OpeningBi(opening));
                        Reply::Opening(id)
                    }
                    Poll::Ready(Err(error)) => Reply::Failed(error),
                    Poll::Pending => Reply::Pending,
                }
            }
        }
    }

    /// What is of the session or the connection as a whole.
    fn whole(&mut self, rt: &impl Abort, session: &mut Connection, call: Call) -> Reply {
        match call {
            Call::SendDatagram { payload, .. } => {
                let sent = session.send_datagram(self.alloc, &mut self.driver, payload.as_slice());
                match sent.expect(rt, "no memory") {
                    Ok(_) => Reply::Done,
                    Err(error) => Reply::DatagramFailed(error),
                }
            }
            Call::MaxDatagramSize { .. } => {
                Reply::Size(session.max_datagram_size(&mut self.driver))
            }
            Call::EndSession { .. } => {
                let ended = session.end_session(self.alloc, &mut self.driver);
                ended.expect(rt, "no memory");
                Reply::Done
            }
            Call::Close { code, reason } => {
                let closed = session.close(self.alloc, &mut self.driver, code, reason.as_slice());
                closed.expect(rt, "no memory");
                Reply::Done
            }
            Call::Closed => {
                let closed = session.closed(self.alloc, &mut self.driver);
                match closed.expect(rt, "no memory") {
                    Poll::Ready(error) => Reply::Closed(error),
                    Poll::Pending => Reply::Pending,
                }
            }
            _ => panic!(rt; "no call of these scripts"),
        }
    }

    // ---- streams

    fn poll_opening(&mut self, rt: &impl Abort, id: u64) -> Reply {
        match self.give(rt, id) {
            Held::OpeningUni(mut opening) => {
                let stream = opening.id();
                match opening.poll(&mut self.driver).expect(rt, "no memory") {
                    Poll::Ready(Ok(half)) => {
                        self.hold(rt, stream, Held::Send(half));
                        Reply::SendReady(stream)
                    }
                    Poll::Ready(Err(error)) => Reply::OpeningFailed(error),
                    Poll::Pending => {
                        self.hold(rt, stream, Held::OpeningUni(opening));
                        Reply::Pending
                    }
                }
            }
            Held::OpeningBi(mut opening) => {
                let stream = opening.id();
                match opening.poll(&mut self.driver).expect(rt, "no memory") {
                    Poll::Ready(Ok(halves)) => {
                        self.hold(rt, stream, Held::Both(BiStream::join(halves)));
                        Reply::BiReady(stream)
                    }
                    Poll::Ready(Err(error)) => Reply::OpeningFailed(error),
                    Poll::Pending => {
                        self.hold(rt, stream, Held::OpeningBi(opening));
                        Reply::Pending
                    }
                }
            }
            _ => panic!(rt; "{id} isn't being opened"),
        }
    }

    fn send_call(&mut self, rt: &impl Abort, id: u64, call: Call) -> Reply {
        match self.give(rt, id) {
            Held::Send(mut half) => {
                let reply = self.send(rt, &mut half, call);
                self.hold(rt, half.id(), Held::Send(half));
                reply
            }
            Held::Both(both) => {
                let (mut half, recv) = both.split();
                let reply = self.send(rt, &mut half, call);
                self.hold(rt, half.id(), Held::Both(BiStream::join((half, recv))));
                reply
            }
            _ => panic!(rt; "{id} has no sending half"),
        }
    }

    fn send(&mut self, rt: &impl Abort, half: &mut SendStream, call: Call) -> Reply {
        match call {
            Call::Write { bytes, .. } => {
                let written = half.write(&mut self.driver, bytes.as_slice());
                match written.expect(rt, "no memory") {
                    Poll::Ready(Ok(count)) => Reply::Written(count as u64),
                    Poll::Ready(Err(error)) => Reply::WriteFailed(error),
                    Poll::Pending => Reply::Pending,
                }
            }
            Call::ResetSend { code, .. } => {
                match half.reset(&mut self.driver, code).expect(rt, "no memory") {
                    Ok(_) => Reply::Done,
                    Err(_) => Reply::ClosedStream,
                }
            }
            _ => match half.finish(&mut self.driver).expect(rt, "no memory") {
                Poll::Ready(Ok(_)) => Reply::Finished,
                Poll::Ready(Err(error)) => Reply::WriteFailed(error),
                Poll::Pending => Reply::Pending,
            },
        }
    }

    fn recv_call(&mut self, rt: &impl Abort, id: u64, call: Call) -> Reply {
        match self.give(rt, id) {
            Held::Recv(mut half) => {
                if let Call::StopRecv { code, .. } = call {
                    half.stop(&mut self.driver, code).expect(rt, "no memory");
                    return Reply::Done;
                }
                let reply = self.read(rt, &mut half);
                self.hold(rt, half.id(), Held::Recv(half));
                reply
            }
            Held::Both(both) => {
                let (send, mut half) = both.split();
                if let Call::StopRecv { code, .. } = call {
                    half.stop(&mut self.driver, code).expect(rt, "no memory");
                    self.hold(rt, send.id(), Held::Send(send));
                    return Reply::Done;
                }
                let reply = self.read(rt, &mut half);
                self.hold(rt, send.id(), Held::Both(BiStream::join((send, half))));
                reply
            }
            _ => panic!(rt; "{id} has no receiving half"),
        }
    }

    /// At most 64 bytes, whatever size is asked for.
    fn read(&mut self, rt: &impl Abort, half: &mut RecvStream) -> Reply {
        let mut buffer = vec![in self.alloc; 0u8; 64usize].expect(rt, "no memory");
        match half.read(&mut self.driver, buffer.as_mut_slice()) {
            Poll::Ready(Ok(Some(count))) => {
                buffer.truncate(count);
                Reply::Read(Some(Piece::from_vec(buffer)))
            }
            Poll::Ready(Ok(None)) => Reply::Read(None),
            Poll::Ready(Err(error)) => Reply::ReadFailed(error),
            Poll::Pending => Reply::Pending,
        }
    }
}
