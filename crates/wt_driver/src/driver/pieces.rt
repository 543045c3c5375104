//! Pieces of streams.
ghost use Rattle.std.specs.Prelude.{◌≡◌, ◌≤◌, ◌+◌, IfOk, OnOk, length};
ghost use Rattle.wt_kept.specs.Counting.{steps_left};
ghost use Rattle.wt_kept.specs.Pieces.{body_part, header_part, rest_part, take_piece_now, work_after};

use super::Driver;
use std::sync::ledger::Ledger;
use wt_peer_streams::Fed;
use wt_proto::steps::Steps;
use wt_wire::error::OutOfMemory;
use wt_wire::ids::StreamId;

impl Driver {
    /// The moments of a part's bytes find nothing but with the byte that makes an outcome final, which is its last.
    fn work_after<L: Ledger>(
        &mut self,
        fed: Option<Fed>,
        steps: &mut Steps<L>,
    ) -> Result<usize, OutOfMemory>
        ensures driver { IfOk result (λ taken. record { taken = taken; driver = self.new } ≡ work_after fed self.old) }
        ensures steps { OnOk result (steps.new + steps_left self.new ≤ steps.old + steps_left self.old) }
    {
        match fed {
            None => Ok(0),
            Some(fed) => {
                if fed.is_final {
                    self.moment(steps)?;
                }
                Ok(fed.taken)
            }
        }
    }

    /// How many bytes the reader of the stream's header takes: none where no header of it is read.
    fn feed_header<L: Ledger>(
        &mut self,
        id: StreamId,
        bytes: &[u8],
        steps: &mut Steps<L>,
    ) -> Result<usize, OutOfMemory>
        ensures part { IfOk result (λ taken. record { taken = taken; driver = self.new } ≡ header_part id bytes.now self.old) }
        ensures within { IfOk result (λ taken. taken ≤ length bytes.now) }
        ensures steps { OnOk result (steps.new + steps_left self.new ≤ steps.old + steps_left self.old + 1) }
    {
        if bytes.is_empty() {
            return Ok(0);
        }
        if id.is_bidirectional() {
            let fed = self.bis.feed(id, bytes, steps)?;
            return self.work_after(fed, steps);
        }
        let fed = self.unis.feed(id, bytes, steps)?;
        self.work_after(fed, steps)
    }

    /// How many bytes the control stream's reader or a session's takes: none where the stream is neither's.
    fn feed_body<L: Ledger>(
        &mut self,
        id: StreamId,
        bytes: &[u8],
        steps: &mut Steps<L>,
    ) -> Result<usize, OutOfMemory>
        ensures part { IfOk result (λ taken. record { taken = taken; driver = self.new } ≡ body_part id bytes.now self.old) }
        ensures within { IfOk result (λ taken. taken ≤ length bytes.now) }
        ensures steps { OnOk result (steps.new + steps_left self.new ≤ steps.old + steps_left self.old + 1) }
    {
        if !self.transport.is_open() {
            return Ok(0);
        }
        if bytes.is_empty() {
            return Ok(0);
        }
        let fed = self.dispatched.feed(id, bytes, steps)?;
        self.work_after(fed, steps)
    }

    /// Bytes that nothing reads as they come wait in the transport.
    fn keep(&mut self, id: StreamId, bytes: &[u8]) -> Result<(), OutOfMemory>
        ensures { OnOk result (self.new ≡ rest_part id bytes.now self.old) }
    {
        if bytes.is_empty() {
            return Ok(());
        }
        if self.transport.bytes_fit(id) {
            return self.transport.take_bytes(id, bytes);
        }
        Ok(())
    }

    /// Bytes of a stream: the reader of its header takes some, then the control stream's or a session's, and the rest waits to be
    /// read. With the last byte of a header its stream is classified; what is left of the piece is held back until that is done.
    pub(super) fn take_bytes<L: Ledger>(
        &mut self,
        id: StreamId,
        bytes: &[u8],
        steps: &mut Steps<L>,
    ) -> Result<(), OutOfMemory>
        ensures driver { OnOk result (self.new ≡ take_piece_now id bytes.now self.old) }
        ensures steps { OnOk result (steps.new ≤ steps.old + steps_left self.old + 2) }
    {
        let header = self.feed_header(id, bytes, steps)?;
        let rest = &bytes[header..];
        let body = self.feed_body(id, rest, steps)?;
        self.keep(id, &rest[body..])
    }
}
