//! Both halves of a stream as one.
ghost use Rattle.std.specs.Prelude.{◌≡◌};
ghost use Rattle.std.specs.Borrow.{sem};
ghost use Rattle.wt_session.specs.Halves.{Halves};
ghost use Rattle.wt_session.specs.Lending.{LendsRecv, LendsSend};

use std::marker::Model;
use wt_driver::{RecvStream, SendStream};

/// A sending and a receiving half as one. Contracts see the ids of both.
#[derive(Drop)]
pub struct BiStream {
    send: SendStream,
    recv: RecvStream,
}

impl Model for BiStream {
    ghost use Rattle.wt_session.specs.Halves.{Halves};

    ghost Value = { Halves };

    ghost view = { λ both. record { send = both.send; recv = both.recv } };
}

impl BiStream {
    /// Both halves as one.
    pub fn join(halves: (SendStream, RecvStream)) -> BiStream
        ensures send { result.send ≡ halves.0 }
        ensures recv { result.recv ≡ halves.1 }
    {
        let (send, recv) = halves;
        BiStream { send, recv }
    }

    /// Its halves, which join to it again.
    pub fn split(self) -> (SendStream, RecvStream)
        ensures send { result.0 ≡ self.send }
        ensures recv { result.1 ≡ self.recv }
        ensures again { self ≡ record { send = result.0; recv = result.1 } }
    {
        (self.send, self.recv)
    }

    /// The sending half.
    pub fn send(&self) -> &SendStream
        ensures { result.now ≡ self.now.send }
    {
        &self.send
    }

    /// The receiving half.
    pub fn recv(&self) -> &RecvStream
        ensures { result.now ≡ self.now.recv }
    {
        &self.recv
    }

    /// The sending half, to be used; the receiving half stays.
    pub fn send_mut(&mut self) -> &mut SendStream
        ensures half { result.now ≡ self.old.send }
        ensures* writes_back { sem 𝓛 (LendsSend self.entry result) }
    {
        &mut self.send
    }

    /// The receiving half, to be used; the sending half stays.
    pub fn recv_mut(&mut self) -> &mut RecvStream
        ensures half { result.now ≡ self.old.recv }
        ensures* writes_back { sem 𝓛 (LendsRecv self.entry result) }
    {
        &mut self.recv
    }
}

/// Halves join.
impl From<(SendStream, RecvStream)> for BiStream {
    ghost use Rattle.std.specs.Prelude.{◌≡◌};

    ghost from_gives = { λ halves both. both ≡ record { send = halves.0; recv = halves.1 } };

    fn from(halves: (SendStream, RecvStream)) -> BiStream {
        BiStream::join(halves)
    }
}

/// Both halves split.
impl From<BiStream> for (SendStream, RecvStream) {
    ghost use Rattle.std.specs.Prelude.{◌≡◌};

    ghost from_gives = { λ both halves. halves ≡ (both.send, both.recv) };

    fn from(both: BiStream) -> (SendStream, RecvStream) {
        both.split()
    }
}
