//! This end's control stream.
ghost use Rattle.std.specs.Prelude.{◌≡◌, ◌==◌, None, OnOk, Some, length};
ghost use Rattle.wt_kept.specs.Looking.{is_own_stopped};
ghost use Rattle.wt_kept.specs.Moment.{is_ready_now, own_flushed, own_opened, own_sent};
ghost use Rattle.wt_message.specs.FixedBytes.{local_control_bytes};

use std::marker::Model;
use wt_transport::Transport;
use wt_wire::error::OutOfMemory;
use wt_wire::ids::StreamId;

/// Its head: its type, and the frame of SETTINGS (RFC 9114, sections 6.2.1 and 7.2.4).
const HEAD: [u8; 25] = [
    0x00, 0x04, 0x16, 0x01, 0x00, 0x07, 0x00, 0x08, 0x01, 0x33, 0x01, 0xab, 0x60, 0x37, 0x42, 0x01,
    0xc0, 0x00, 0x00, 0x00, 0xc6, 0x71, 0x70, 0x6a, 0x04,
];

/// This end's control stream, its first unidirectional one, where it is open; and how many bytes of its head are out.
#[derive(Drop)]
pub struct OwnControl {
    stream: Option<StreamId>,
    sent: usize,
}

impl Model for OwnControl {
    ghost use Rattle.std.specs.Prelude.{◌≤◌};
    ghost use Rattle.wt_kept.specs.Kept.{OwnControlNow};

    ghost Value = { OwnControlNow };

    ghost view = { λ c. record { stream = c.stream; sent = c.sent } };

    ghost invariant = { λ c. c.sent ≤ 25 };
}

impl OwnControl {
    /// It isn't open.
    pub fn new() -> OwnControl
        ensures { result ≡ record { stream = None; sent = 0 } }
    {
        OwnControl {
            stream: None,
            sent: 0,
        }
    }

    /// Whether its whole head is out. Nothing of the peer's is read before, so that this end's SETTINGS wait for nothing of the
    /// peer's (RFC 9114, section 7.2.4.2).
    pub fn is_ready(&self) -> bool
        ensures { result ≡ is_ready_now self.now }
    {
        self.sent == HEAD.len()
    }

    /// Whether the peer stopped it, which it must not (RFC 9114, section 6.2.1).
    pub fn is_stopped(&self, t: &Transport) -> bool
        ensures { result ≡ is_own_stopped self.now t.now }
    {
        match self.stream {
            Some(id) => t.stop_code(id).is_some(),
            None => false,
        }
    }

    /// Opens it as soon as it may, where it isn't open.
    fn open(&mut self, t: &mut Transport) -> Result<(), OutOfMemory>
        ensures { OnOk result (record { own = self.new; transport = t.new } ≡ own_opened self.old.stream self.old t.old) }
    {
        if self.stream.is_none() {
            self.stream = t.open_uni()?;
        }
        Ok(())
    }

    /// Sends its head as far as credit goes, where it is open.
    fn send(&mut self, t: &mut Transport) -> Result<(), OutOfMemory>
        ensures { OnOk result (record { own = self.new; transport = t.new } ≡ own_sent self.old.stream self.old t.old) }
    {
        match self.stream {
            Some(id) if t.may_send(id) => self.sent += t.send(id, &HEAD[self.sent..])?,
            _ => {}
        }
        Ok(())
    }

    /// Opens it as soon as it may, and sends its head as far as credit goes: SETTINGS are the first frame (RFC 9114, sections
    /// 3.2 and 6.2.1).
    pub fn flush(&mut self, t: &mut Transport) -> Result<(), OutOfMemory>
        ensures { OnOk result (record { own = self.new; transport = t.new } ≡ own_flushed self.old t.old) }
    {
        if self.is_ready() {
            return Ok(());
        }
        self.open(t)?;
        self.send(t)
    }
}
