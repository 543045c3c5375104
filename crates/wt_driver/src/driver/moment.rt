//! The work of a moment.
ghost use Rattle.std.specs.Prelude.{◌≡◌, ◌≤◌, ◌+◌, OnOk};
ghost use Rattle.wt_kept.specs.Counting.{steps_left, work_left};
ghost use Rattle.wt_kept.specs.Moment.{arrivals_step, close_step, control_step, datagrams_step, moment_now, work_of_moment};

use super::Driver;
use std::collections::VecDeque;
use std::sync::ledger::Ledger;
use wt_proto::steps::Steps;
use wt_wire::error::OutOfMemory;

impl Driver {
    /// The datagrams that weren't looked at, in their order, up to the first fault; none is looked at twice.
    fn look_at_datagrams(&mut self) -> Result<(), OutOfMemory>
        ensures { OnOk result (self.new ≡ datagrams_step self.old) }
    {
        while self.dispatched.fault().is_none() {
            let Some(piece) = self.datagrams.pop_front() else {
                return Ok(());
            };
            self.dispatched.admit_datagram(piece)?;
        }
        self.datagrams = VecDeque::new(self.alloc);
        Ok(())
    }

    /// What the peer's streams and datagrams begin with, once this end's SETTINGS are out.
    fn look_at_arrivals<L: Ledger>(&mut self, steps: &mut Steps<L>) -> Result<(), OutOfMemory>
        ensures driver { OnOk result (self.new ≡ arrivals_step self.old) }
        ensures steps { OnOk result (steps.new + work_left self.new ≤ steps.old + work_left self.old) }
    {
        if self.own_control.is_ready() {
            self.unis
                .scan(&mut self.transport, &mut self.dispatched, steps)?;
            self.bis
                .scan(&mut self.transport, &mut self.dispatched, steps)?;
            self.look_at_datagrams()?;
        }
        Ok(())
    }

    /// The peer's control stream, and its QPACK streams.
    fn read_control<L: Ledger>(&mut self, steps: &mut Steps<L>) -> Result<(), OutOfMemory>
        ensures driver { OnOk result (self.new ≡ control_step self.old) }
        ensures steps { OnOk result (steps.new + work_left self.new ≤ steps.old + work_left self.old) }
    {
        self.dispatched.read_control(&mut self.transport, steps)?;
        self.dispatched.check_qpack(&self.transport);
        Ok(())
    }

    /// A fault closes the connection, of which no datagram is looked at any more.
    fn close_at_fault(&mut self) -> Result<(), OutOfMemory>
        ensures { OnOk result (self.new ≡ close_step self.old) }
    {
        self.dispatched.close_at_fault(&mut self.transport)?;
        if !self.transport.is_open() {
            self.datagrams = VecDeque::new(self.alloc);
        }
        Ok(())
    }

    /// The work of a moment of an open connection: this end's control stream, then what came, in an order that is this
    /// repository's rule and up to the first fault, which closes the connection.
    fn work<L: Ledger>(&mut self, steps: &mut Steps<L>) -> Result<(), OutOfMemory>
        ensures driver { OnOk result (self.new ≡ work_of_moment self.old) }
        ensures steps { OnOk result (steps.new + work_left self.new ≤ steps.old + work_left self.old) }
    {
        self.own_control.flush(&mut self.transport)?;
        self.look_at_arrivals(steps)?;
        self.dispatched.read_sessions(&mut self.transport, steps)?;
        // A receiver must not ask for a control stream to be closed (RFC 9114, section 6.2.1).
        let is_stopped = self.own_control.is_stopped(&self.transport);
        self.dispatched.fail_if_closed(is_stopped);
        self.read_control(steps)?;
        self.close_at_fault()
    }

    /// The work of a moment, as long as the connection is open.
    pub(super) fn moment<L: Ledger>(&mut self, steps: &mut Steps<L>) -> Result<(), OutOfMemory>
        ensures driver { OnOk result (self.new ≡ moment_now self.old) }
        ensures steps { OnOk result (steps.new + steps_left self.new ≤ steps.old + steps_left self.old) }
    {
        if self.transport.is_open() {
            return self.work(steps);
        }
        self.datagrams = VecDeque::new(self.alloc);
        Ok(())
    }
}
