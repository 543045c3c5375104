//! The handshake that goes on, and its calls.
ghost use Rattle.std.specs.Prelude.{◌≡◌, ◌≤◌, IfOk, OnOk, true};
ghost use Rattle.wt_driver_laws.specs.Driving.{pieces_of};
ghost use Rattle.wt_core.specs.Answering.{GoesOnAs, ShakeAnswers};
ghost use Rattle.wt_core.specs.Calls.{is_handshake};
ghost use Rattle.wt_core.specs.Shakes.{Incoming, Requested, accepted_outcome, accepted_shake, asked_outcome, asked_shake, begun_outcome, begun_shake, connected_outcome, connected_shake, first_shake, may_come, rejected_outcome, rejected_shake, responding_shake, shake_as};
ghost use Rattle.wt_turn.specs.declared.call.Call.{Call};
ghost use Rattle.wt_turn.specs.declared.call.Call.TheVariants as calls;

use std::alloc::Global;
use std::marker::Model;
use std::mem;
use wt_driver::Driver;
use wt_session::{
    Accepting, ConnectOptions, Connecting, ConnectingError, Connection, ConnectionError,
    IncomingSession, IncomingSessionFuture, Poll, Rejecting, SessionRequest,
};
use wt_turn::call::Call;
use wt_turn::reply::Reply;
use wt_wire::error::OutOfMemory;
use wt_wire::side::Side;

/// How far the handshake is.
#[derive(Drop)]
pub(crate) enum Stage {
    /// A server asks for a request: for the first, or for the next once the one before is answered.
    Incoming(IncomingSessionFuture),
    /// The request that was given isn't answered.
    Requested(SessionRequest),
    /// It is accepted.
    Accepting(Accepting),
    /// It is rejected.
    Rejecting(Rejecting),
    /// A client's connect goes on.
    Connecting(Connecting),
    /// A connect hasn't begun or is over, or no request comes any more.
    Idle,
}

/// The handshake that goes on. Contracts see how far it is.
#[derive(Drop)]
pub struct Handshake {
    stage: Stage,
}

impl Model for Handshake {
    ghost use Rattle.wt_core.specs.Shakes.{Shake, shake_as};

    ghost Value = { Shake };

    ghost view = { λ h. shake_as h.stage };
}

/// What a call is answered.
#[derive(Drop)]
pub enum Outcome {
    Reply(Reply),
    /// A session is established, which the application has from now on.
    Session(Connection),
}

/// What a call of the handshake answers.
type Answer = Result<Outcome, OutOfMemory>;

/// A server asks for a request.
fn asking() -> Stage
    ensures { shake_as result ≡ Incoming }
{
    Stage::Incoming(IncomingSession::new().into_future())
}

/// The response to this request, which begins.
fn responding(alloc: Global, request: SessionRequest, call: &Call) -> Result<Stage, OutOfMemory>
    ensures { IfOk result (λ stage. shake_as stage ≡ responding_shake (Requested request) call.now) }
{
    match call {
        Call::Accept { headers } => {
            let headers = headers.copy()?;
            Ok(Stage::Accepting(request.accept_with_headers(alloc, headers)?))
        }
        Call::Forbidden => Ok(Stage::Rejecting(request.forbidden(alloc)?)),
        Call::NotFound => Ok(Stage::Rejecting(request.not_found(alloc)?)),
        Call::TooManyRequests => Ok(Stage::Rejecting(request.too_many_requests(alloc)?)),
        // The call may not come here.
        _ => Ok(Stage::Requested(request)),
    }
}

impl Handshake {
    /// The handshake before the first turn.
    pub fn new(side: Side) -> Handshake
        ensures { result ≡ first_shake side }
    {
        let stage = match side {
            Side::Client => Stage::Idle,
            Side::Server => asking(),
        };
        Handshake { stage }
    }

    /// Whether the call may come now, which is the first turn or not.
    pub fn may(&self, is_first: bool, call: &Call) -> bool
        ensures { result ≡ may_come is_first self.now call.now }
    {
        match call {
            Call::Connect { .. } => is_first && matches!(self.stage, Stage::Idle),
            Call::Incoming => !is_first && matches!(self.stage, Stage::Incoming(_)),
            Call::Accept { .. } | Call::Forbidden | Call::NotFound | Call::TooManyRequests => {
                matches!(self.stage, Stage::Requested(_))
            }
            Call::Handshake => matches!(
                self.stage,
                Stage::Accepting(_) | Stage::Rejecting(_) | Stage::Connecting(_)
            ),
            _ => !is_first,
        }
    }

    /// The answer to a call that may come.
    pub fn answer(&mut self, alloc: Global, d: &mut Driver, call: &Call) -> Answer
        requires { is_handshake call.now ≡ true }
        ensures answers { ShakeAnswers d.old self.old call.now result d.new self.new }
        ensures pieces { OnOk result (pieces_of d.new ≤ pieces_of d.old) }
    {
        match call {
            Call::Connect { .. } => self.connect(alloc, d, call),
            Call::Incoming => self.incoming(alloc, d),
            Call::Handshake => self.go_on(alloc, d),
            _ => {
                self.respond(alloc, call)?;
                self.go_on(alloc, d)
            }
        }
    }

    /// What was begun goes on.
    #[inline(never)]
    fn go_on(&mut self, alloc: Global, d: &mut Driver) -> Answer
        ensures answers { (call : Call) → GoesOnAs d.old self.old call result d.new self.new }
        ensures pieces { OnOk result (pieces_of d.new ≤ pieces_of d.old) }
    {
        match &mut self.stage {
            Stage::Connecting(connecting) => {
                let answer = connecting.poll(alloc, d)?;
                Ok(self.connected(answer))
            }
            Stage::Accepting(accepting) => {
                let answer = accepting.poll(alloc, d)?;
                Ok(self.accepted(answer))
            }
            Stage::Rejecting(rejecting) => {
                let answer = rejecting.poll(alloc, d)?;
                Ok(self.rejected(answer))
            }
            // The call may not come here.
            _ => Err(OutOfMemory),
        }
    }

    // ---- a client's connect

    fn connect(&mut self, alloc: Global, d: &mut Driver, call: &Call) -> Answer
        ensures answers { ShakeAnswers d.old self.old call.now result d.new self.new }
        ensures pieces { OnOk result (pieces_of d.new ≤ pieces_of d.old) }
    {
        let Call::Connect {
            options,
            lookup,
            outcome,
        } = call
        else {
            // The call may not come here.
            return Err(OutOfMemory);
        };
        let options = ConnectOptions::from_parts(options.0.copy()?, options.1.copy()?);
        let begun = Connecting::begin(alloc, options, lookup.copy()?, outcome.copy()?, d)?;
        Ok(self.begun(begun))
    }

    fn begun(&mut self, begun: Result<Connecting, ConnectingError>) -> Outcome
        ensures outcome { result ≡ begun_outcome begun }
        ensures shake { self.new ≡ begun_shake begun self.old }
    {
        match begun {
            Ok(connecting) => {
                self.stage = Stage::Connecting(connecting);
                Outcome::Reply(Reply::Pending)
            }
            Err(error) => Outcome::Reply(Reply::ConnectFailed(error)),
        }
    }

    fn connected(&mut self, answer: Poll<Result<Connection, ConnectingError>>) -> Outcome
        ensures outcome { result ≡ connected_outcome answer }
        ensures shake { self.new ≡ connected_shake answer self.old }
    {
        match answer {
            Poll::Pending => Outcome::Reply(Reply::Pending),
            Poll::Ready(Ok(session)) => {
                self.stage = Stage::Idle;
                Outcome::Session(session)
            }
            Poll::Ready(Err(error)) => {
                self.stage = Stage::Idle;
                Outcome::Reply(Reply::ConnectFailed(error))
            }
        }
    }

    // ---- a server's request

    #[inline(never)]
    fn incoming(&mut self, alloc: Global, d: &mut Driver) -> Answer
        ensures answers { ShakeAnswers d.old self.old calls.Incoming result d.new self.new }
        ensures pieces { OnOk result (pieces_of d.new ≤ pieces_of d.old) }
    {
        let Stage::Incoming(future) = &mut self.stage else {
            // The call may not come here.
            return Err(OutOfMemory);
        };
        let answer = future.poll(alloc, d)?;
        self.asked(answer)
    }

    /// A server asked for a request.
    fn asked(&mut self, answer: Poll<Result<SessionRequest, ConnectionError>>) -> Answer
        ensures outcome { IfOk result (λ o. o ≡ asked_outcome answer) }
        ensures shake { OnOk result (self.new ≡ asked_shake answer self.old) }
    {
        match answer {
            Poll::Pending => Ok(Outcome::Reply(Reply::Pending)),
            Poll::Ready(Ok(request)) => {
                let id = request.session_id();
                let headers = request.headers().copy()?;
                self.stage = Stage::Requested(request);
                Ok(Outcome::Reply(Reply::Request { id, headers }))
            }
            Poll::Ready(Err(error)) => {
                self.stage = Stage::Idle;
                Ok(Outcome::Reply(Reply::Failed(error)))
            }
        }
    }

    // ---- a server's response, after which the next request is asked for

    /// The response begins. It takes the request, also where it finds no memory.
    #[inline(never)]
    fn respond(&mut self, alloc: Global, call: &Call) -> Result<(), OutOfMemory>
        ensures { OnOk result (self.new ≡ responding_shake self.old call.now) }
    {
        let Stage::Requested(request) = mem::replace(&mut self.stage, Stage::Idle) else {
            // The call may not come here.
            return Err(OutOfMemory);
        };
        self.stage = responding(alloc, request, call)?;
        Ok(())
    }

    fn accepted(&mut self, answer: Poll<Result<Connection, ConnectionError>>) -> Outcome
        ensures outcome { result ≡ accepted_outcome answer }
        ensures shake { self.new ≡ accepted_shake answer self.old }
    {
        match answer {
            Poll::Pending => Outcome::Reply(Reply::Pending),
            Poll::Ready(Ok(session)) => {
                self.stage = asking();
                Outcome::Session(session)
            }
            Poll::Ready(Err(error)) => {
                self.stage = asking();
                Outcome::Reply(Reply::Failed(error))
            }
        }
    }

    fn rejected(&mut self, answer: Poll<()>) -> Outcome
        ensures outcome { result ≡ rejected_outcome answer }
        ensures shake { self.new ≡ rejected_shake answer self.old }
    {
        match answer {
            Poll::Pending => Outcome::Reply(Reply::Pending),
            Poll::Ready(()) => {
                self.stage = asking();
                Outcome::Reply(Reply::Rejected)
            }
        }
    }
}
