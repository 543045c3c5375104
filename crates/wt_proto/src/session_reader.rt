//! The reader of a session's part of its stream (draft-ietf-webtrans-http3, section 5).
ghost use Rattle.std.specs.Prelude.{◌≡◌, ◌≤◌, ◌<◌, ◌+◌, ℕ, [], ◌++◌, List, None, length, take, IfOk, OnErr, is_some, true, false};
ghost use Rattle.wt_proto.specs.SessionWalk.{is_over, session_walk_of};
ghost use Rattle.wt_proto.specs.Cursor.{IsPlaced, progress_of};
ghost use Rattle.wt_proto.specs.SessionReading.{IsSessionPlaced, SessionAdvancesSome, fault_found, is_closed_by_capsule, payload_found, session_value, unfinished_in};
ghost use Rattle.wt_proto.specs.WalkProgress.{reached_in};
ghost use Rattle.wt_proto.specs.SessionReader.{HasReadSession, SessionAdvances, header_decides, session_ended, session_fed, session_reader, session_said, stop_in, with_frames};
ghost use Rattle.wt_wire.specs.declared.side.StreamEnd.{StreamEnd};
ghost use Rattle.wt_wire.specs.declared.side.StreamEnd.TheVariants.{Running};

use crate::cursor::{Cursor, advance};
use crate::session_walk::{
    Capsules, FrameHeaders, FrameSays, SessionWalk, at_session_end, is_over,
};
use crate::steps::Steps;
use std::alloc::Global;
use std::marker::Model;
use std::sync::ledger::Ledger;
use wt_wire::error::{ErrorCode, OutOfMemory};
use wt_wire::side::StreamEnd;

/// Where the two walks over a session's stream stand.
#[derive(Drop)]
struct Walks {
    frames: Cursor<(), FrameSays>,
    /// So many bytes of a DATA frame's payload are to come.
    data_left: u64,
    capsules: Cursor<(), SessionWalk>,
    end: StreamEnd,
}

impl Walks {
    /// Whether a capsule or a frame stopped them.
    fn is_stopped(&self) -> bool
        requires { IsSessionPlaced self.now }
        ensures { result ≡ is_some (stop_in (session_value self.now)) }
    {
        self.capsules.is_over() || self.frames.is_over()
    }

    /// How long a payload is whose header the frames stopped at.
    fn found_payload(&self) -> Option<u64>
        requires { IsPlaced header_decides self.now.frames }
        ensures { result ≡ payload_found (reached_in (progress_of self.now.frames)).stop }
    {
        match &self.frames.stop {
            Some(frame) if self.frames.skip == 0 => frame.payload(),
            _ => None,
        }
    }

    /// The fault that the frames stopped with.
    fn found_fault(&self) -> Option<ErrorCode>
        requires { IsPlaced header_decides self.now.frames }
        ensures { result ≡ fault_found (reached_in (progress_of self.now.frames)).stop }
    {
        match &self.frames.stop {
            Some(frame) if self.frames.skip == 0 => frame.fault(),
            _ => None,
        }
    }

    /// Where the frames stopped at the header of DATA its payload follows, and their walk begins anew behind it.
    fn enter_payload(&mut self)
        requires { IsPlaced header_decides self.old.frames }
        ensures value { session_value self.new ≡ with_frames (session_value self.old) (progress_of self.old.frames) }
        ensures placed { IsPlaced header_decides self.new.frames }
        ensures capsules { self.new.capsules ≡ self.old.capsules }
    {
        if let Some(size) = self.found_payload() {
            self.data_left = size;
            self.frames.stop = None;
        }
    }

    /// Some bytes of a payload, no more than are to come: the capsules take them.
    fn take_payload(&mut self, piece: &[u8]) -> Result<usize, OutOfMemory>
        requires placed { IsSessionPlaced self.old }
        requires goes { stop_in (session_value self.old) ≡ None }
        requires inside { 0 < self.old.data_left }
        requires some { 0 < length piece.now }
        ensures advances { IfOk result (λ n. SessionAdvances (session_value self.old) (session_value self.new) piece.now n) }
        ensures placed { IsSessionPlaced self.new }
        ensures some { IfOk result (λ n. 1 ≤ n) }
        ensures lost { OnErr result (session_value self.new ≡ session_value self.old) }
    {
        let count = self.data_left.min(piece.len() as u64) as usize;
        let taken = advance::<Capsules>(&mut self.capsules, &piece[..count])?;
        self.data_left -= taken as u64;
        Ok(taken)
    }

    /// Some bytes of frames, up to the header of DATA.
    fn take_frames(&mut self, piece: &[u8]) -> Result<usize, OutOfMemory>
        requires placed { IsSessionPlaced self.old }
        requires goes { stop_in (session_value self.old) ≡ None }
        requires between { self.old.data_left ≡ 0 }
        requires some { 0 < length piece.now }
        ensures advances { IfOk result (λ n. SessionAdvances (session_value self.old) (session_value self.new) piece.now n) }
        ensures placed { IsSessionPlaced self.new }
        ensures some { IfOk result (λ n. 1 ≤ n) }
        ensures lost { OnErr result (session_value self.new ≡ session_value self.old) }
    {
        let taken = advance::<FrameHeaders>(&mut self.frames, piece)?;
        self.enter_payload();
        Ok(taken)
    }

    /// Some bytes of a piece, of which there are some: those of a payload, or of frames.
    fn take_some(&mut self, piece: &[u8]) -> Result<usize, OutOfMemory>
        requires placed { IsSessionPlaced self.old }
        requires goes { stop_in (session_value self.old) ≡ None }
        requires some { 0 < length piece.now }
        ensures advances { IfOk result (λ n. SessionAdvances (session_value self.old) (session_value self.new) piece.now n) }
        ensures placed { IsSessionPlaced self.new }
        ensures some { IfOk result (λ n. 1 ≤ n) }
        ensures lost { OnErr result (session_value self.new ≡ session_value self.old) }
    {
        if self.data_left > 0 {
            self.take_payload(piece)
        } else {
            self.take_frames(piece)
        }
    }

    /// Bytes of the piece up to the one that stops the walks, else all of them.
    fn take_piece(&mut self, piece: &[u8]) -> Result<usize, OutOfMemory>
        requires { IsSessionPlaced self.old }
        ensures advances { IfOk result (λ n. SessionAdvances (session_value self.old) (session_value self.new) piece.now n) }
        ensures placed { IsSessionPlaced self.new }
        ensures all { IfOk result (λ n. n < length piece.now → is_some (stop_in (session_value self.new)) ≡ true) }
        ensures lost { OnErr result (SessionAdvancesSome (session_value self.old) (session_value self.new) piece.now) }
    {
        let mut taken = 0;
        while taken < piece.len() && !self.is_stopped() {
            match self.take_some(&piece[taken..]) {
                Ok(n) => taken += n,
                Err(error) => return Err(error),
            }
        }
        Ok(taken)
    }

    /// What they say where no capsule stopped them.
    fn unfinished(&self, alloc: Global) -> SessionWalk
        requires { IsSessionPlaced self.now }
        ensures { result ≡ unfinished_in (session_value self.now) }
    {
        let between_frames = self.data_left == 0 && self.frames.is_between();
        match self.found_fault() {
            Some(code) => SessionWalk::Fault(code),
            None => at_session_end(alloc, self.end, between_frames, self.capsules.is_between()),
        }
    }
}

/// A reader of a session's stream after the frame that established the session. Two walks take turns: one goes over the frames
/// up to the header of the next DATA frame, the other over the capsules in the joined payloads (RFC 9297, section 3.2). It
/// keeps the front of a frame's header and that of a capsule, which are at most 15 and 1,043 bytes. Contracts see where both
/// walks stand, and the end.
///
/// ```text
/// in front of a frame --the header of DATA--> in a payload --its last byte--> in front of a frame
/// in both: a fault of a frame, or a capsule that ends the session: over
/// ```
#[derive(Drop)]
pub struct SessionReader {
    walks: Walks,
    /// What it says where no capsule stopped it: a fault of a frame, or what the end makes of where it stands.
    unfinished: SessionWalk,
}

impl Model for SessionReader {
    ghost use Rattle.wt_proto.specs.SessionReader as readers;
    ghost use Rattle.wt_proto.specs.SessionReading.{IsSessionReading, session_value};

    ghost Value = { readers.SessionReader };

    ghost view = { λ r. session_value r.walks };

    ghost invariant = { λ r. IsSessionReading r.walks r.unfinished };
}

impl SessionReader {
    /// A reader that took no bytes.
    pub fn for_session(alloc: Global) -> SessionReader
        ensures value { result ≡ session_reader }
        ensures read { HasReadSession result [] Running }
    {
        SessionReader {
            walks: Walks {
                frames: Cursor::at_item(alloc, ()),
                data_left: 0,
                capsules: Cursor::at_item(alloc, ()),
                end: StreamEnd::Running,
            },
            unfinished: SessionWalk::Running,
        }
    }

    /// What a capsule stopped it with, else what it says where none did.
    fn current(&self) -> &SessionWalk
        ensures { result.now ≡ session_said self.now }
    {
        match &self.walks.capsules.stop {
            Some(outcome) if self.walks.capsules.skip == 0 => outcome,
            _ => &self.unfinished,
        }
    }

    /// The same by value.
    fn into_current(self) -> SessionWalk
        ensures { result ≡ session_said self }
    {
        let SessionReader { walks, unfinished } = self;
        let Walks {
            frames: _,
            data_left: _,
            capsules,
            end: _,
        } = walks;
        let Cursor {
            state: _,
            stop,
            skip,
            kept: _,
            wanted: _,
        } = capsules;
        match stop {
            Some(outcome) if skip == 0 => outcome,
            _ => unfinished,
        }
    }

    /// Takes bytes of the piece, and sees what the end makes of where the walks stand then.
    pub(crate) fn take_piece(&mut self, piece: &[u8]) -> Result<usize, OutOfMemory>
        ensures advances { IfOk result (λ n. SessionAdvances self.old self.new piece.now n) }
        ensures running { IfOk result (λ n. 0 < n → is_over (session_said self.old) ≡ false) }
        ensures all { IfOk result (λ n. n < length piece.now → is_over (session_said self.new) ≡ true) }
        ensures lost { OnErr result (SessionAdvancesSome self.old self.new piece.now) }
    {
        // What comes after belongs to nobody.
        if is_over(self.current()) {
            return Ok(0);
        }
        let alloc = *self.walks.capsules.kept.allocator();
        let taken = self.walks.take_piece(piece);
        self.unfinished = self.walks.unfinished(alloc);
        taken
    }

    /// Takes the bytes of the piece up to the one with which the outcome is final, else all of them, and returns how many. It
    /// counts one step. Where memory is short, the reader stands after some first bytes of the piece.
    pub fn feed<L: Ledger>(
        &mut self,
        piece: &[u8],
        steps: &mut Steps<L>,
    ) -> Result<usize, OutOfMemory>
        ensures within { IfOk result (λ n. n ≤ length piece.now) }
        ensures fed { IfOk result (λ n. self.new ≡ session_fed self.old (take n piece.now)) }
        ensures read { (bytes : List ℕ) (end : StreamEnd) → HasReadSession self.old bytes end →
            IfOk result (λ n. HasReadSession self.new (bytes ++ take n piece.now) end) }
        ensures running { (bytes : List ℕ) (end : StreamEnd) (k : ℕ) → HasReadSession self.old bytes end →
            IfOk result (λ n. k < n → is_over (session_walk_of (bytes ++ take k piece.now) end) ≡ false) }
        ensures stopped { (bytes : List ℕ) (end : StreamEnd) → HasReadSession self.old bytes end →
            IfOk result (λ n. n < length piece.now → is_over (session_walk_of (bytes ++ take n piece.now) end) ≡ true) }
        ensures open { (k : ℕ) → IfOk result (λ n. k < n → is_over (session_said (session_fed self.old (take k piece.now))) ≡ false) }
        ensures stops_short { IfOk result (λ n. n < length piece.now → is_over (session_said self.new) ≡ true) }
        ensures idle { is_over (session_said self.old) ≡ true → IfOk result (λ n. n ≡ 0) }
        ensures steps { steps.new ≡ steps.old + 1 }
        ensures lost { OnErr result ((k : ℕ) × (k ≤ length piece.now) × (self.new ≡ session_fed self.old (take k piece.now))) }
    {
        // Read for the proof alone, which takes the reader's invariant from here.
        let _ = &self.unfinished;
        steps.tick();
        self.take_piece(piece)
    }

    /// Notes the end after the bytes that were taken.
    pub fn end(&mut self, end: StreamEnd)
        ensures value { self.new ≡ session_ended end self.old }
        ensures read { (bytes : List ℕ) (before : StreamEnd) → HasReadSession self.old bytes before → HasReadSession self.new bytes end }
    {
        let alloc = *self.walks.capsules.kept.allocator();
        self.walks.end = end;
        self.unfinished = self.walks.unfinished(alloc);
    }

    /// Whether the outcome is final.
    pub fn is_over(&self) -> bool
        ensures { result ≡ is_over (session_said self.now) }
    {
        is_over(self.current())
    }

    /// Whether a capsule closed the session, before any end.
    pub fn is_closed_by_capsule(&self) -> bool
        ensures { result ≡ is_closed_by_capsule self.now }
    {
        match &self.walks.capsules.stop {
            Some(SessionWalk::Closed(_, _)) => self.walks.capsules.skip == 0,
            _ => false,
        }
    }

    /// The outcome of all bytes that were taken and the end.
    pub fn outcome(&self) -> &SessionWalk
        ensures value { result.now ≡ session_said self.now }
        ensures read { (bytes : List ℕ) (end : StreamEnd) → HasReadSession self.now bytes end → result.now ≡ session_walk_of bytes end }
    {
        self.current()
    }

    /// The same by value.
    pub fn into_outcome(self) -> SessionWalk
        ensures value { result ≡ session_said self }
        ensures read { (bytes : List ℕ) (end : StreamEnd) → HasReadSession self bytes end → result ≡ session_walk_of bytes end }
    {
        self.into_current()
    }

    /// How many bytes it keeps: the front of a frame's header, and that of a capsule that isn't decided.
    pub fn kept(&self) -> usize
        ensures bytes { result ≡ length self.now.headers.kept + length self.now.capsules.kept }
        ensures few { result ≤ 1058 }
    {
        self.walks.frames.kept.as_slice().len() + self.walks.capsules.kept.as_slice().len()
    }
}
