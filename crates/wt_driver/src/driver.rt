//! The driver of one connection.
ghost use Rattle.std.specs.Prelude.{◌≡◌, [], true};
ghost use Rattle.wt_driver_laws.specs.Calling.{Within, log_record};
ghost use Rattle.wt_driver_laws.specs.Driving.{Follows, pieces_of};
ghost use Rattle.wt_driver_laws.specs.Records.{is_unnoticed};
ghost use Rattle.wt_kept.specs.Calling.{driver_at_first};
ghost use Rattle.wt_turn.specs.Log.{CallRecord};

mod accepts;
mod moment;
mod opens;
mod pieces;
mod queries;
mod responses;
mod sessions;
mod turns;

use std::alloc::Global;
use std::collections::VecDeque;
use std::fmt;
use std::marker::Model;
use wt_peer_streams::{Arriving, Dispatched, OwnControl, Reading};
use wt_proto::response_walk::ResponseWalk;
use wt_proto::session::SessionRequest;
use wt_proto::{BiReader, FrameReader, UniReader};
use wt_seam::StreamSession;
use wt_transport::Transport;
use wt_turn::piece::Piece;
use wt_wire::side::Side;

/// The driver of one connection. Each turn and each call leaves it at rest: what came was read as far as it may be, and what
/// goes out because of it is out. After a call that answered `OutOfMemory` nothing is said of it.
pub struct Driver {
    alloc: Global,
    pub(crate) transport: Transport,
    own_control: OwnControl,
    unis: Arriving<UniReader>,
    bis: Arriving<BiReader>,
    dispatched: Dispatched,
    /// The datagrams that weren't looked at: they came before this end's SETTINGS were out.
    datagrams: VecDeque<Piece>,
    /// The response on a client's request stream, from when it is first asked for until the session begins.
    response: Option<Reading<FrameReader<ResponseWalk>>>,
    /// A call took the peer's SETTINGS, which are given once.
    gave_settings: bool,
}

impl Model for Driver {
    ghost use Rattle.wt_kept.specs.Kept.{DriverNow};

    ghost Value = { DriverNow };

    ghost view = { λ d. record { own_control = d.own_control; unis = d.unis; bis = d.bis; work = record { transport = d.transport; dispatched = d.dispatched }; datagrams = d.datagrams.items; response = d.response; gave_settings = d.gave_settings } };
}

/// A client's stream for its request, or the request where none can be opened yet.
#[derive(Drop)]
pub enum OpenSession {
    /// The stream, on which nothing was written.
    Ready(StreamSession),
    /// The request, which may be tried again.
    NotYet(SessionRequest),
}

/// The name alone: what it keeps is large, and no text of it is promised.
impl fmt::Debug for Driver {
    fn fmt<W: fmt::Write>(&self, f: &mut fmt::Formatter<W>) -> fmt::Result {
        write!(f, "Driver {{ .. }}")
    }
}

/// Written out, so that a crate that drops one need not prove the drop of each of its parts.
impl Drop for Driver {
    fn drop(self) {
        let Driver {
            alloc: _,
            transport: _,
            own_control: _,
            unis: _,
            bis: _,
            dispatched: _,
            datagrams: _,
            response: _,
            gave_settings: _,
        } = self;
    }
}

impl Driver {
    /// The driver of a connection of which nothing was reported yet.
    pub fn init(alloc: Global, side: Side) -> Driver
        ensures value { result ≡ driver_at_first side }
        ensures log { Follows side result [] 0 }
        ensures pieces { pieces_of result ≡ 0 }
    {
        Driver {
            alloc,
            transport: Transport::new(alloc, side),
            own_control: OwnControl::new(),
            unis: Arriving::new(alloc, false),
            bis: Arriving::new(alloc, true),
            dispatched: Dispatched::new(alloc),
            datagrams: VecDeque::new(alloc),
            response: None,
            gave_settings: false,
        }
    }

    /// A law, and no call: a call that changes nothing that the driver keeps leaves its record, and the driver follows the log
    /// after it, too.
    pub fn rests(&self)
        ensures { (r : CallRecord) → is_unnoticed r ≡ true → Within self.now (λ side log collected. Follows side self.now (log_record side log [] r) collected) }
    {}
}
