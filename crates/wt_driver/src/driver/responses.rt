//! The response to a client's request.
ghost use Rattle.std.specs.Prelude.{◌≡◌, ◌<◌, ◌≤◌, IfOk, None, OnOk, true};
ghost use Rattle.wt_driver_laws.specs.Calling.{Within};
ghost use Rattle.wt_driver_laws.specs.Driving.{Follows, pieces_of};
ghost use Rattle.wt_driver_laws.specs.Handing.{IsDialling};
ghost use Rattle.wt_driver_laws.specs.Sessions.{response_answer};
ghost use Rattle.wt_kept.specs.Calling.{response_over, response_read, response_slot};
ghost use Rattle.wt_meaning.specs.Lawful.{is_client};
ghost use Rattle.wt_proto.specs.ResponseWalk.{response_walk_of};
ghost use Rattle.wt_turn.specs.Reports.{end_of};
ghost use Rattle.wt_turn.specs.Streams.{contents, local_bi};
ghost use Rattle.wt_turn.specs.Log.{events_of};

use super::Driver;
use std::marker::Brand;
use std::sync::ledger::{Blank, Ledger};
use wt_peer_streams::Reading;
use wt_proto::response_walk::ResponseWalk;
use wt_proto::steps::Steps;
use wt_proto::{FrameReader, StreamReader};
use wt_wire::error::OutOfMemory;
use wt_wire::ids::StreamId;
use wt_wire::side::Side;
use wt_wire::varint::VarInt;

/// The same walk, its response in memory of its own.
fn copy_walk(walk: &ResponseWalk) -> Result<ResponseWalk, OutOfMemory>
    ensures { IfOk result (λ copy. copy ≡ walk.now) }
{
    match walk {
        ResponseWalk::Waiting => Ok(ResponseWalk::Waiting),
        ResponseWalk::Response(response, offset) => {
            Ok(ResponseWalk::Response(response.copy()?, *offset))
        }
        ResponseWalk::Ended => Ok(ResponseWalk::Ended),
        ResponseWalk::Fault(code) => Ok(ResponseWalk::Fault(*code)),
    }
}

impl Driver {
    /// The stream of a client's request: its first bidirectional one (RFC 9000, section 2.1).
    fn request_id(&self) -> StreamId
        ensures { result ≡ local_bi self.now.work.transport.side }
    {
        match self.side() {
            Side::Client => StreamId::new(VarInt::from_u32(0)),
            Side::Server => StreamId::new(VarInt::from_u32(1)),
        }
    }

    /// The request's stream with the reader of what comes on it, which is kept no more.
    fn take_response(&mut self) -> Reading<FrameReader<ResponseWalk>>
        ensures slot { result ≡ response_slot self.old.work.transport.side self.old.response }
        ensures driver { self.new ≡ record self.old { response = None } }
    {
        match self.response.take() {
            Some(reading) => reading,
            None => Reading {
                id: self.request_id(),
                reader: StreamReader::for_response(self.alloc),
            },
        }
    }

    /// Reads on what came of the response.
    fn read_response<L: Ledger>(&mut self, steps: &mut Steps<L>) -> Result<(), OutOfMemory>
        ensures { OnOk result (self.new ≡ response_read self.old) }
    {
        let mut reading = self.take_response();
        reading.read(&mut self.transport, steps)?;
        self.response = Some(reading);
        Ok(())
    }

    /// On a client the session's part of its stream begins behind the response, which is kept no more.
    pub(super) fn end_response<L: Ledger>(
        &mut self,
        steps: &mut Steps<L>,
    ) -> Result<(), OutOfMemory>
        ensures { OnOk result (self.new ≡ response_over self.old.work.transport.side self.old) }
    {
        match self.side() {
            Side::Client => {
                self.read_response(steps)?;
                self.response = None;
                Ok(())
            }
            Side::Server => Ok(()),
        }
    }

    /// The same as `response`, in steps of this ledger.
    fn response_counted<L: Ledger>(&mut self, blank: Blank) -> Result<ResponseWalk, OutOfMemory>
        requires name { blank.name ≡ L.name }
        requires parts { blank.parts ≡ L.parts }
        requires some { 0 < L.parts }
        ensures answer { IfOk result (λ walk. walk ≡ response_answer self.old) }
        ensures driver { OnOk result (self.new ≡ response_read self.old) }
    {
        let mut steps = Steps::<L>::new(blank);
        self.read_response(&mut steps)?;
        match &self.response {
            Some(reading) => copy_walk(reading.outcome()),
            None => Ok(ResponseWalk::Waiting),
        }
    }

    /// What the response on a client's request stream says, as far as it came (RFC 9114, section 4.1). What comes after it stays
    /// unread.
    ///
    /// # Errors
    ///
    /// `OutOfMemory` where the response found no memory.
    pub fn response(&mut self) -> Result<ResponseWalk, OutOfMemory>
        ensures answer { IfOk result (λ walk. walk ≡ response_answer self.old) }
        ensures driver { OnOk result (self.new ≡ response_read self.old) }
        ensures walk { IfOk result (λ walk. Within self.old (λ side log collected. is_client side ≡ true → IsDialling log
            → walk ≡ response_walk_of (contents log (local_bi side)) (end_of (events_of log) (local_bi side)))) }
        ensures log { OnOk result (Within self.old (λ side log collected. is_client side ≡ true → IsDialling log → Follows side self.new log collected)) }
        ensures pieces { OnOk result (pieces_of self.new ≤ pieces_of self.old) }
    {
        self.response_counted::<Brand>(Blank::new(1))
    }
}
