//! What is kept of one stream.
ghost use Rattle.std.specs.Prelude.{◌≡◌, ◌≤◌, ◌&&◌, length, min, not, is_some, IsTrue, OnErr, OnOk};
ghost use Rattle.std.specs.List.{concat};
ghost use Rattle.wt_turn.specs.Reports.{is_running};
ghost use Rattle.wt_transport.specs.Deciding.{write_decision};
ghost use Rattle.wt_transport.specs.HalfRules.{finish_answer, is_closed, stopped_answer, write_refusal};
ghost use Rattle.wt_transport.specs.Rules.{is_writable};
ghost use Rattle.wt_transport.specs.StreamState.{consume, credit_of, fresh, give_up, with_bytes, signal, with_ack, with_end, with_stop, sending_half_of};

use crate::decision::Decision;
use crate::reported::Reported;
use crate::unread::Unread;
use bytes::Bytes;
use std::alloc::Global;
use std::marker::Model;
use wt_turn::poll::Poll;
use wt_turn::stream_error::StreamWriteError;
use wt_wire::error::OutOfMemory;
use wt_wire::side::StreamEnd;
use wt_wire::varint::VarInt;

/// A stream: both halves, of which a unidirectional one uses one.
#[derive(Debug, Drop)]
pub struct Stream {
    // ---- the peer's half
    /// The bytes that came and weren't read.
    pub unread: Unread,
    /// Nothing more is read: what comes is dropped.
    pub given_up: bool,
    /// How it ended.
    pub end: Reported<StreamEnd>,
    // ---- this end's half
    /// How many bytes may go out in all.
    pub credit: u64,
    /// How many went out.
    pub sent: u64,
    /// This end finished it.
    pub finished: bool,
    /// This end reset it.
    pub reset: bool,
    /// The code with which the peer stopped it.
    pub stop: Reported<Option<VarInt>>,
    /// All of its bytes are acknowledged.
    pub acknowledged: Reported<bool>,
    /// The priority that was set last.
    pub priority: i32,
}

impl Model for Stream {
    ghost use Rattle.std.specs.Prelude.{None, false};
    ghost use Rattle.wt_wire.specs.declared.side.StreamEnd.TheVariants.{Running};
    ghost use Rattle.wt_transport.specs.Reporting.{in_time};
    ghost use Rattle.wt_transport.specs.StreamState as kept;

    ghost Value = { kept.Stream };

    ghost view = { λ s. record { unread = s.unread; given_up = s.given_up; signals = record { end = in_time Running s.end; stop = in_time None s.stop; acknowledged = in_time false s.acknowledged }; all_signals = record { end = s.end.value; stop = s.stop.value; acknowledged = s.acknowledged.value }; credit = s.credit; sent = s.sent; finished = s.finished; reset = s.reset; priority = s.priority } };
}

impl Stream {
    /// A stream of which nothing was reported, with this credit.
    pub fn new(alloc: Global, credit: u64) -> Stream
        ensures { result ≡ fresh credit }
    {
        Stream {
            unread: Unread::new(alloc),
            given_up: false,
            end: Reported {
                value: StreamEnd::Running,
                is_late: false,
            },
            credit,
            sent: 0,
            finished: false,
            reset: false,
            stop: Reported {
                value: None,
                is_late: false,
            },
            acknowledged: Reported {
                value: false,
                is_late: false,
            },
            priority: 0,
        }
    }

    /// Bytes came.
    pub fn receive(&mut self, alloc: Global, bytes: &[u8]) -> Result<(), OutOfMemory>
        ensures ok { OnOk result (self.new ≡ with_bytes bytes.now self.old) }
        ensures err { OnErr result (self.new ≡ self.old) }
    {
        // Dropped as it comes, so that a peer can't fill memory that nobody reads.
        if self.given_up {
            return Ok(());
        }
        let piece = Bytes::copy_from_slice(alloc, bytes)?;
        self.unread.push(piece)
    }

    /// So many bytes were read.
    pub fn consume(&mut self, count: usize)
        requires { count ≤ length (concat self.old.unread) }
        ensures { self.new ≡ consume count self.old }
    {
        self.unread.consume(count);
    }

    /// Nothing more is read.
    pub fn give_up(&mut self)
        ensures { self.new ≡ give_up self.old }
    {
        self.unread.clear();
        self.given_up = true;
    }

    /// The peer's half ended.
    pub fn end(&mut self, counts: bool, end: &StreamEnd)
        requires { IsTrue (is_running self.old.all_signals.end) }
        ensures { self.new ≡ signal counts (with_end end.now) self.old }
    {
        self.end = Reported {
            value: *end,
            is_late: !counts,
        };
    }

    /// The peer stopped this end's half.
    pub fn stop(&mut self, counts: bool, code: VarInt)
        requires { IsTrue (not (is_some self.old.all_signals.stop)) }
        ensures { self.new ≡ signal counts (with_stop code) self.old }
    {
        self.stop = Reported {
            value: Some(code),
            is_late: !counts,
        };
    }

    /// All of this end's half is acknowledged.
    pub fn acknowledge(&mut self, counts: bool)
        requires { IsTrue (not self.old.all_signals.acknowledged) }
        ensures { self.new ≡ signal counts with_ack self.old }
    {
        self.acknowledged = Reported {
            value: true,
            is_late: !counts,
        };
    }

    /// The peer may stop this end's half.
    pub fn may_be_stopped(&self) -> bool
        ensures { result ≡ (not (is_some self.now.all_signals.stop) && not self.now.all_signals.acknowledged) }
    {
        // A second STOP_SENDING, or one of a half that was received whole, says nothing new (RFC 9000,
        // section 3.5).
        self.stop.value.is_none() && !self.acknowledged.value
    }

    /// All of this end's half may be acknowledged.
    pub fn may_be_acknowledged(&self) -> bool
        ensures { result ≡ (self.now.finished && not self.now.reset && not (is_some self.now.all_signals.stop)
            && not self.now.all_signals.acknowledged) }
    {
        self.finished && !self.reset && self.stop.value.is_none() && !self.acknowledged.value
    }

    /// This end neither finished nor reset its half.
    pub fn still_sends(&self) -> bool
        ensures { result ≡ (not self.now.finished && not self.now.reset) }
    {
        !self.finished && !self.reset
    }

    /// How the peer's half ended while the connection was open.
    pub fn ended(&self) -> StreamEnd
        ensures { result ≡ self.now.signals.end }
    {
        self.end.in_time(StreamEnd::Running)
    }

    /// The peer's half hasn't ended, and wasn't given up.
    pub fn still_receives(&self) -> bool
        ensures { result ≡ (is_running self.now.signals.end && not self.now.given_up) }
    {
        is_running(&self.ended()) && !self.given_up
    }

    /// How many more bytes may go out.
    pub fn credit_left(&self) -> u64
        ensures { result ≡ credit_of self.now }
    {
        self.credit.saturating_sub(self.sent)
    }

    /// Of so many bytes, those that credit is left for.
    pub fn covered(&self, size: usize) -> usize
        ensures { result ≡ min size (credit_of self.now) }
    {
        // MAX_STREAM_DATA, of the stream; that of the connection is the transport's own matter (RFC 9000,
        // section 4.1).
        let left = self.credit_left();
        if (size as u64) < left {
            size
        } else {
            left as usize
        }
    }

    // ---- what calls on this end's half find

    /// The half can't be reset any more: it was reset, or all of it was acknowledged.
    pub fn is_closed(&self) -> bool
        ensures { result ≡ is_closed (sending_half_of self.now) }
    {
        // RFC 9000, section 3.1: the states "Reset Sent" and "Data Recvd", in which a reset means nothing any
        // more.
        self.reset || self.finished && self.acknowledged.in_time(false)
    }

    /// Why nothing can be written.
    pub fn write_refusal(&self, is_open: bool) -> Option<StreamWriteError>
        ensures { result ≡ write_refusal is_open (sending_half_of self.now) }
    {
        if !is_open {
            return Some(StreamWriteError::NotConnected);
        }
        // Before a stop: what this end did itself is the nearer reason.
        if self.finished || self.reset {
            return Some(StreamWriteError::Closed);
        }
        match self.stop.in_time(None) {
            Some(code) => Some(StreamWriteError::Stopped(code)),
            None => None,
        }
    }

    /// A write isn't closed: the connection has ended, or this end neither finished nor reset the half.
    pub fn is_writable(&self, is_open: bool) -> bool
        ensures { result ≡ is_writable is_open (sending_half_of self.now) }
    {
        match self.write_refusal(is_open) {
            Some(StreamWriteError::Closed) => false,
            _ => true,
        }
    }

    /// What a write of so many bytes comes to.
    pub fn decide_write(&self, is_open: bool, size: usize) -> Decision<StreamWriteError>
        ensures { result ≡ write_decision is_open (sending_half_of self.now) size }
    {
        if let Some(error) = self.write_refusal(is_open) {
            return Decision::Refused(error);
        }
        if size > 0 && self.credit_left() == 0 {
            return Decision::Wait;
        }
        Decision::Take(self.covered(size))
    }

    /// How the half was stopped or closed.
    pub fn stopped(&self, is_open: bool) -> Poll<StreamWriteError>
        ensures { result ≡ stopped_answer is_open (sending_half_of self.now) }
    {
        if let Some(code) = self.stop.in_time(None) {
            return Poll::Ready(StreamWriteError::Stopped(code));
        }
        if self.is_closed() {
            return Poll::Ready(StreamWriteError::Closed);
        }
        if is_open {
            Poll::Pending
        } else {
            Poll::Ready(StreamWriteError::NotConnected)
        }
    }

    /// What a finish answers: once the half is closed it is through.
    pub fn finish_answer(&self, is_open: bool) -> Poll<Result<(), StreamWriteError>>
        ensures { result ≡ finish_answer is_open (sending_half_of self.now) }
    {
        match self.stopped(is_open) {
            Poll::Pending => Poll::Pending,
            Poll::Ready(StreamWriteError::Closed) => Poll::Ready(Ok(())),
            Poll::Ready(error) => Poll::Ready(Err(error)),
        }
    }
}

/// More may come on the peer's half.
pub fn is_running(end: &StreamEnd) -> bool
    ensures { result ≡ is_running end.now }
{
    match end {
        StreamEnd::Running => true,
        _ => false,
    }
}
