//! The peer's streams on which the connection rests.
ghost use Rattle.std.specs.Prelude.{◌≡◌, ◌≤◌, ◌+◌, ◌||◌, IfOk, None, OnOk, is_none};
ghost use Rattle.wt_kept.specs.Counting.{CountsControl, feed_steps};
ghost use Rattle.wt_kept.specs.Looking.{has_ended};
ghost use Rattle.wt_peer_streams.specs.Critical.{control_count, control_fed, control_feed, control_settings, read_control_at, with_once};

use crate::reading::{Fed, Reading, is_running};
use std::marker::Model;
use std::sync::ledger::Ledger;
use wt_proto::ControlReader;
use wt_proto::settings::Settings;
use wt_proto::steps::Steps;
use wt_transport::Transport;
use wt_wire::error::{ErrorCode, OutOfMemory};
use wt_wire::ids::StreamId;

/// The peer's streams of which there is one each: the control stream (RFC 9114, section 6.2.1) with the reader of what follows
/// its type, and the QPACK streams (RFC 9204, section 4.2).
#[derive(Drop)]
pub struct CriticalStreams {
    pub(crate) control: Option<Reading<ControlReader>>,
    pub(crate) encoder: Option<StreamId>,
    pub(crate) decoder: Option<StreamId>,
}

impl Model for CriticalStreams {
    ghost use Rattle.wt_kept.specs.Kept.{CriticalNow};

    ghost Value = { CriticalNow };

    ghost view = { λ c. record { control = c.control; encoder = c.encoder; decoder = c.decoder } };
}

/// The stream is the one of its kind; false where one was there.
pub(crate) fn set_once(place: &mut Option<StreamId>, id: StreamId) -> bool
    ensures first { result ≡ is_none place.old }
    ensures place { place.new ≡ with_once place.old id }
{
    if place.is_some() {
        return false;
    }
    *place = Some(id);
    true
}

/// Whether the stream, where it is there, ended.
fn has_ended(stream: Option<StreamId>, t: &Transport) -> bool
    ensures { result ≡ has_ended stream t.now }
{
    match stream {
        Some(id) => !is_running(t.end(id)),
        None => false,
    }
}

impl CriticalStreams {
    /// None came.
    pub fn new() -> CriticalStreams
        ensures { result ≡ record { control = None; encoder = None; decoder = None } }
    {
        CriticalStreams {
            control: None,
            encoder: None,
            decoder: None,
        }
    }

    // ---- the control stream

    /// How many readers there are: that of the control stream.
    pub fn readers(&self) -> usize
        ensures count { result ≡ control_count self.now.control }
        ensures few { result ≤ 1 }
    {
        match &self.control {
            Some(_) => 1,
            None => 0,
        }
    }

    /// The peer's SETTINGS, where they came; a fault that comes after them doesn't take them back.
    pub fn settings(&self) -> Option<Settings>
        ensures { result ≡ control_settings self.now.control }
    {
        match &self.control {
            Some(control) => control.outcome().settings,
            None => None,
        }
    }

    /// Feeds the control stream's reader bytes as they come; None where the stream is another.
    pub fn feed<L: Ledger>(
        &mut self,
        id: StreamId,
        piece: &[u8],
        steps: &mut Steps<L>,
    ) -> Result<Option<Fed>, OutOfMemory>
        ensures fed { IfOk result (λ fed. fed ≡ control_feed id piece.now self.old.control) }
        ensures control { OnOk result (self.new ≡ record self.old { control = control_fed id piece.now self.old.control }) }
        ensures steps { IfOk result (λ fed. steps.new ≡ steps.old + feed_steps fed) }
    {
        match &mut self.control {
            Some(control) if control.id == id => Ok(Some(control.feed(piece, steps)?)),
            _ => Ok(None),
        }
    }

    /// Reads on what came on the control stream: its fault (RFC 9114, section 6.2.1).
    pub fn read<L: Ledger>(
        &mut self,
        t: &mut Transport,
        steps: &mut Steps<L>,
    ) -> Result<Option<ErrorCode>, OutOfMemory>
        ensures read { IfOk result (λ fault. record { critical = self.new; fault = fault; transport = t.new } ≡ read_control_at self.old.control self.old t.old) }
        ensures steps { OnOk result (CountsControl self.old.control t.old steps.old steps.new) }
    {
        match &mut self.control {
            Some(control) => {
                control.read(t, steps)?;
                Ok(control.outcome().fault)
            }
            None => Ok(None),
        }
    }

    // ---- QPACK's

    /// Whether the encoder's or the decoder's stream ended, which they must not (RFC 9204, section 4.2).
    pub fn has_qpack_ended(&self, t: &Transport) -> bool
        ensures { result ≡ (has_ended self.now.encoder t.now || has_ended self.now.decoder t.now) }
    {
        has_ended(self.encoder, t) || has_ended(self.decoder, t)
    }
}
